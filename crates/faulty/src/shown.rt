//! What is shown of a run.
use crate::gate::Noting;
use hex::encode;
use script_link::transcript;
use std::alloc::Global;
use undo_base::{NoMemory, Text};
use undo_outside::{LinkNote, MemDisk, MemLink, MemSink};

/// How a run ended: its status, what was written, what its link did, which items passed the gate, and what a crash leaves on the disk.
#[derive(Drop)]
pub(crate) struct Ended {
    status: u8,
    written: Text,
    link: Text,
    passed: Text,
    store: Text,
}

impl Ended {
    pub(crate) fn of(
        alloc: Global,
        status: u8,
        out: &MemSink,
        link: &MemLink,
        gate: &Noting,
        disk: &MemDisk,
        image: Option<(usize, usize)>,
    ) -> Result<Ended, NoMemory> {
        Ok(Ended {
            status,
            written: Text::of(alloc, out.bytes())?,
            link: noted(alloc, link)?,
            passed: gate.lines(alloc)?,
            store: image_of(alloc, disk, image)?,
        })
    }

    /// The lines that are printed.
    pub(crate) fn print(self, alloc: Global) -> Result<Text, NoMemory> {
        let mut text = self.written;
        text.extend(self.link.bytes())?;
        text.extend(self.passed.bytes())?;
        let status = self.status;
        text.extend(format!(in alloc; "status {status}\nstore ")?.as_bytes())?;
        text.extend(encode(alloc, self.store.bytes())?.as_bytes())?;
        text.extend(b"\n")?;
        Ok(text)
    }
}

/// The link's transcript, and then a line for each string that was missed.
fn noted(alloc: Global, link: &MemLink) -> Result<Text, NoMemory> {
    let mut text = transcript(alloc, link.log())?;
    for note in link.log().as_slice() {
        if let LinkNote::Missed { conn, bytes: _ } = note {
            text.extend(format!(in alloc; "missed {conn}\n")?.as_bytes())?;
        }
    }
    Ok(text)
}

/// What a crash leaves on the disk: all that was written, where none is asked for.
fn image_of(
    alloc: Global,
    disk: &MemDisk,
    image: Option<(usize, usize)>,
) -> Result<Text, NoMemory> {
    match image {
        Some((writes, bytes)) => disk.image_torn(alloc, writes, bytes),
        None => disk.image_after(alloc, disk.writes()),
    }
}
