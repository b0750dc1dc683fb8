//! The octets of a file that were read last, and what the system is told of those that come next.
//!
//! A read at a place tells the system that the next million octets are read soon, 131,072 at a time and each once. Else a search
//! for frames, which reads five octets of each, waits for the disk at each frame of a store that is not in the system's memory.
//! Whether the system listens is not looked at. `check`, `cut` and `audit` open a store that nobody may write meanwhile. They
//! keep the 4,096 octets that were read last, from a multiple of as many on, and answer reads of up to 1,024 octets from there.
//! So small records are read by the block. A command that may write reads each time from the file. So `audit` of a store of no
//! more than 4,096 octets goes through its small records once more as they were read at opening, and not on the file. Where the
//! block cannot be read, what was asked for is read by itself: a read that failed for the block alone is neither told nor
//! counted.
ghost use Rattle.std.specs.Prelude.{◌≤◌};

use std::io;
use std::os::fd::{AsRawFd, RawFd};
use std::os::unix::fs::FileExt;

/// So many octets are read together, from a multiple of as many on.
const BLOCK: usize = 4096;

/// Reads of more octets are made by themselves.
const SMALL: usize = 1024;

/// The system is told of so many octets at a time.
const PIECE: u64 = 131_072;

const PIECE_LENGTH: i64 = 131_072;

/// And of those so far behind what is read.
const FAR: u64 = 1_048_576;

/// The octets that will be read (POSIX_FADV_WILLNEED).
const SOON: i32 = 3;

/// Octets of a file from a place on, read together. The file is one that nobody writes meanwhile.
#[derive(Drop)]
pub(crate) struct Near {
    bytes: [u8; BLOCK],
    from: u64,
    count: usize,
}

impl Near {
    /// None.
    pub(crate) fn new() -> Near {
        Near {
            bytes: [0; BLOCK],
            from: 0,
            count: 0,
        }
    }

    /// Fills a buffer with the octets from a place on, where all of them are here.
    fn give(&self, place: u64, buf: &mut [u8]) -> bool {
        if place < self.from || place - self.from > BLOCK as u64 || buf.len() > BLOCK {
            return false;
        }
        let begin = (place - self.from) as usize;
        let end = begin + buf.len();
        if end > self.count || end > BLOCK {
            return false;
        }
        buf.copy_from_slice(&self.bytes[begin..end]);
        true
    }

    /// Reads those about a place; none where that fails.
    fn fill<F: FileExt>(&mut self, file: &F, place: u64) {
        self.from = place - place % BLOCK as u64;
        self.count = file.read_at(&mut self.bytes, self.from).unwrap_or(0);
    }

    /// Fills a buffer from a place of a file on.
    pub(crate) fn read<F: FileExt>(
        &mut self,
        file: &F,
        place: u64,
        buf: &mut [u8],
    ) -> io::Result<()> {
        if buf.len() > SMALL {
            return file.read_exact_at(buf, place);
        }
        if self.give(place, buf) {
            return Ok(());
        }
        self.fill(file, place);
        if self.give(place, buf) {
            return Ok(());
        }
        file.read_exact_at(buf, place)
    }
}

/// How far the system was told which octets of a file are read soon.
#[derive(Clone, Copy)]
pub(crate) struct ReadAhead {
    to: u64,
}

impl ReadAhead {
    /// Nothing yet.
    pub(crate) fn new() -> ReadAhead {
        ReadAhead { to: 0 }
    }

    /// Tells it of the next piece, where that lies not far behind a place that is read.
    pub(crate) fn go_on<F: AsRawFd>(&mut self, file: &F, place: u64) {
        if place > i64::MAX as u64 - 2 * FAR {
            return;
        }
        if self.to < place {
            self.to = place;
        }
        if self.to < place + FAR {
            tell(file.as_raw_fd(), self.to);
            self.to += PIECE;
        }
    }
}

/// Tells the system of a piece from a place on. Whether it listens is nothing to a reader.
fn tell(file: RawFd, from: u64)
    requires { from ≤ 9223372036854775807 }
{
    let _listens = libc::posix_fadvise(file, from as i64, PIECE_LENGTH, SOON);
}
