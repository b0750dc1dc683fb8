//! Bytes that wait, in order: to be sent over a connection, or to be told of it.
//!
//! What a slow reader does not take is kept. While more than 1,048,576 bytes wait for a connection it is not read; while more
//! than 67,108,864 wait, a further string is missed. So a single answer is never cut. What was read of an IMAP client behind a
//! SEARCH is kept for its next visit, in room that was had before.
ghost use Rattle.std.specs.Prelude.{◌≡◌, ◌≤◌, ◌++◌, [], length, drop, OnOk, OnErr};

use std::alloc::Global;
use std::marker::Model;
use std::mem;
use undo_base::NoMemory;

/// A queue of bytes, seen as the list of those that were not sent yet.
#[derive(Drop)]
pub(crate) struct Waiting {
    bytes: Vec<u8>,
    /// How many of the first ones were sent.
    sent: usize,
}

impl Model for Waiting {
    ghost use Rattle.std.specs.Prelude.{List, ℕ, ◌≤◌, length, drop};

    ghost Value = { List ℕ };

    ghost view = { λ w. drop w.sent w.bytes.items };

    ghost invariant = { λ w. w.sent ≤ length w.bytes.items };
}

impl Waiting {
    pub(crate) fn new(alloc: Global) -> Self
        ensures { result ≡ [] }
    {
        Waiting {
            bytes: Vec::new(alloc),
            sent: 0,
        }
    }

    pub(crate) fn len(&self) -> usize
        ensures { result ≡ length self.now }
    {
        self.bytes.len() - self.sent
    }

    /// The bytes, the next one first.
    pub(crate) fn bytes(&self) -> &[u8]
        ensures { result.now ≡ self.now }
    {
        &self.bytes[self.sent..]
    }

    /// Adds a string at the end.
    pub(crate) fn push(&mut self, bytes: &[u8]) -> Result<(), NoMemory>
        ensures ok { OnOk result (self.new ≡ self.old ++ bytes.now) }
        ensures err { OnErr result (self.new ≡ self.old) }
    {
        self.forget_sent();
        self.bytes.extend_from_slice(bytes)?;
        Ok(())
    }

    /// Takes the next bytes out, once they were sent.
    pub(crate) fn sent(&mut self, count: usize)
        requires { count ≤ length self.old }
        ensures { self.new ≡ drop count self.old }
    {
        self.sent += count;
        if self.sent == self.bytes.len() {
            self.clear();
        }
    }

    /// These bytes alone wait, in room that is large enough for them. No memory is taken.
    pub(crate) fn keep(&mut self, bytes: &[u8], room: &mut Vec<u8>)
        requires { length bytes.now ≤ length room.old.items }
        ensures { self.new ≡ bytes.now }
    {
        room.truncate(bytes.len());
        room.copy_from_slice(bytes);
        mem::swap(&mut self.bytes, room);
        self.sent = 0;
    }

    /// Nothing waits any more.
    pub(crate) fn clear(&mut self)
        ensures { self.new ≡ [] }
    {
        *self = Waiting::new(*self.bytes.allocator());
    }

    /// Lets go of what was sent.
    fn forget_sent(&mut self)
        ensures { self.new ≡ self.old }
    {
        let left = self.len();
        self.bytes.rotate_left(self.sent);
        self.bytes.truncate(left);
        self.sent = 0;
    }
}
