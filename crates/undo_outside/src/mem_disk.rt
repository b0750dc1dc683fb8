//! A disk in memory, which keeps a record of what was written.
//!
//! A call is counted as those of the other objects in memory: also a `write_at` that found no memory, by a counter of 64 bits.
//! The record holds the disk's writes, done and failed, and behind each whether a sync succeeded. A read, a length and a sync
//! have no answer for want of memory, so they take none, and are counted alone.
//!
//! `image_after(count)` and `image_torn(count, kept)` take any count: more than there are means all of them.
ghost use Rattle.std.specs.Prelude.{◌≡◌, ◌+◌, ◌≤◌, ◌↔◌, ◌∷◌, [], true, IsErr, IsErrOf, OnOk, OnErr, IfOk, length, take, drop};
ghost use Rattle.std.proofs.Common.{refl, subst, sym};
ghost use Rattle.undo_outside.specs.Calls.{Rose};
ghost use Rattle.undo_outside.specs.History.{IsMarked, Wrote, content_after, content_is_image, image_after, image_counts, image_is_now, image_since, overwritten};
ghost use Rattle.undo_outside.specs.MemDisk.{content_with, held, history, torn_after};

use crate::failing::Failing;
use crate::memory_wants::MemoryWants;
use crate::{Disk, DiskFault, Failed, Fault};
use std::alloc::Global;
use undo_base::{NoMemory, Numbers, Text};

/// A write of the record.
#[derive(Drop)]
struct Write {
    place: u64,
    bytes: Vec<u8>,
    done: bool,
    synced: bool,
}

/// An honest disk in memory, some of whose calls fail. It keeps a record of its writes, and of the syncs behind them.
#[derive(Drop)]
pub struct MemDisk {
    alloc: Global,
    start: Text,
    latest: Option<Vec<u8>>,
    writes: Vec<Write>,
    failing: Failing,
    failed_reads: u64,
    failed_writes: u64,
    failed_last: bool,
    memory_wants: MemoryWants,
    ghost kept: { held start latest ≡ content_after start (history writes.items) },
}

impl MemDisk {
    ghost use Rattle.undo_outside.specs.MemDiskParts.{IsNew, start_of, writes_of};

    /// A disk with these bytes, all of them synced, whose calls of these ordinals are to fail. They are counted from 1.
    pub fn new(alloc: Global, bytes: Text, failing: Numbers) -> MemDisk
        ensures { IsNew result bytes failing }
    {
        MemDisk {
            alloc,
            start: bytes,
            latest: None,
            writes: Vec::new(alloc),
            failing: Failing::new(failing),
            failed_reads: 0,
            failed_writes: 0,
            failed_last: false,
            memory_wants: MemoryWants::new(),
        }
    }

    /// How many writes the record has, done or failed.
    pub fn writes(&self) -> usize
        ensures { result ≡ length (writes_of self.now) }
    {
        self.writes.len()
    }

    /// The image that a crash leaves where the first so many writes are on the disk and no later one. `count` may be
    /// more than there are.
    pub fn image_after(&self, alloc: Global, count: usize) -> Result<Text, NoMemory>
        ensures replay { IfOk result (λ image. image ≡ content_after (start_of self.now) (history (take count (writes_of self.now)))) }
        ensures crash { IfOk result (λ image. image_since (start_of self.now) (history (writes_of self.now)) 0 image) }
    {
        let bytes = replay_first(alloc, self.start.bytes(), first(&self.writes, count))?;
        Text::of(alloc, &bytes)
    }

    /// The image that a crash leaves where the first so many writes are on the disk, and of the next one, if there is
    /// one, the first `kept` bytes.
    pub fn image_torn(&self, alloc: Global, count: usize, kept: usize) -> Result<Text, NoMemory>
        ensures replay { IfOk result (λ image. image ≡ torn_after (content_after (start_of self.now) (history (take count (writes_of self.now)))) kept (drop count (writes_of self.now))) }
        ensures crash { IfOk result (λ image. image_since (start_of self.now) (history (writes_of self.now)) 0 image) }
    {
        let mut bytes = self.image_after(alloc, count)?.into_vec();
        if count < self.writes.len() {
            put_front(&mut bytes, &self.writes[count], kept)?;
        }
        Text::of(alloc, &bytes)
    }
}

/// The first writes of a record.
fn first(writes: &[Write], count: usize) -> &[Write]
    ensures { result.now ≡ take count writes.now }
{
    &writes[..count.min(writes.len())]
}

/// The bytes, with these writes done.
fn replay_first(alloc: Global, start: &[u8], writes: &[Write]) -> Result<Vec<u8>, NoMemory>
    ensures { IfOk result (λ bytes. bytes.items ≡ content_after start.now (history writes.now)) }
{
    let mut bytes = Vec::from_slice(alloc, start)?;
    for write in writes {
        replay(&mut bytes, write)?;
    }
    Ok(bytes)
}

/// Writes over what is there, and past the end.
fn put(bytes: &mut Vec<u8>, place: u64, new: &[u8]) -> Result<(), NoMemory>
    ensures { OnOk result (bytes.new.items ≡ overwritten bytes.old.items place new.now) }
{
    let start = bytes.len().min(place as usize);
    let inside = new.len().min(bytes.len() - start);
    bytes.extend_from_slice(&new[inside..])?;
    bytes[start..start + inside].copy_from_slice(&new[..inside]);
    Ok(())
}

/// Does a write of the record once more, where it was done.
fn replay(bytes: &mut Vec<u8>, write: &Write) -> Result<(), NoMemory>
    ensures { OnOk result (bytes.new.items ≡ content_with bytes.old.items write.now) }
{
    if write.done {
        put(bytes, write.place, &write.bytes)?;
    }
    Ok(())
}

/// Does the front of a write of the record once more.
fn put_front(bytes: &mut Vec<u8>, write: &Write, kept: usize) -> Result<(), NoMemory>
    ensures { OnOk result (bytes.new.items ≡ overwritten bytes.old.items write.now.place (take kept write.now.bytes.items)) }
{
    let count = write.bytes.len().min(kept);
    put(bytes, write.place, &write.bytes[..count])
}

/// What reads give.
fn current<'a>(start: &'a Text, latest: &'a Option<Vec<u8>>) -> &'a [u8]
    ensures { result.now ≡ held start.now latest.now }
{
    match latest {
        Some(bytes) => bytes,
        None => start.bytes(),
    }
}

/// Counts one failure more.
fn count_failure(failures: &mut u64)
    ensures rose { Rose failures.old failures.new }
    ensures once { failures.new ≤ failures.old + 1 }
{
    *failures = failures.saturating_add(1);
}

/// Adds a write to the record.
fn write_down(
    alloc: Global,
    writes: &mut Vec<Write>,
    place: u64,
    bytes: &[u8],
    done: bool,
) -> Result<(), NoMemory>
    ensures ok { OnOk result (history writes.new.items ≡ Wrote place bytes.now done ∷ history writes.old.items) }
    ensures err { OnErr result (writes.new.items ≡ writes.old.items) }
{
    let bytes = Vec::from_slice(alloc, bytes)?;
    writes.push(Write {
        place,
        bytes,
        done,
        synced: false,
    })?;
    Ok(())
}

/// Writes over what is there, and past the end, with its place in the record.
fn overwrite(
    alloc: Global,
    latest: &mut Vec<u8>,
    writes: &mut Vec<Write>,
    place: u64,
    bytes: &[u8],
) -> Result<(), NoMemory>
    requires { place ≤ length latest.old.items }
    ensures ok { OnOk result (latest.new.items ≡ overwritten latest.old.items place bytes.now) }
    ensures recorded { OnOk result (history writes.new.items ≡ Wrote place bytes.now true ∷ history writes.old.items) }
    ensures err { OnErr result (latest.new.items ≡ latest.old.items) }
    ensures not_recorded { OnErr result (writes.new.items ≡ writes.old.items) }
{
    let end = latest.len();
    let start = place as usize;
    let inside = bytes.len().min(end - start);
    latest.extend_from_slice(&bytes[inside..])?;
    if let Err(error) = write_down(alloc, writes, place, bytes, true) {
        latest.truncate(end);
        return Err(error);
    }
    latest[start..start + inside].copy_from_slice(&bytes[..inside]);
    Ok(())
}

/// The same over the bytes at the start, of which the first write makes a copy.
fn write_through(
    alloc: Global,
    start: &Text,
    latest: &mut Option<Vec<u8>>,
    writes: &mut Vec<Write>,
    place: u64,
    bytes: &[u8],
) -> Result<(), NoMemory>
    requires { place ≤ length (held start.now latest.old) }
    ensures ok { OnOk result (held start.now latest.new ≡ overwritten (held start.now latest.old) place bytes.now) }
    ensures recorded { OnOk result (history writes.new.items ≡ Wrote place bytes.now true ∷ history writes.old.items) }
    ensures err { OnErr result (held start.now latest.new ≡ held start.now latest.old) }
    ensures not_recorded { OnErr result (writes.new.items ≡ writes.old.items) }
{
    let mut made = match latest.take() {
        Some(made) => made,
        None => Vec::from_slice(alloc, start.bytes())?,
    };
    let outcome = overwrite(alloc, &mut made, writes, place, bytes);
    *latest = Some(made);
    outcome
}

/// Marks the last write of the record as synced.
fn mark(writes: &mut Vec<Write>)
    ensures { IsMarked (history writes.old.items) (history writes.new.items) }
{
    let count = writes.len();
    if count > 0 {
        writes[count - 1].synced = true;
    }
}

impl Disk for MemDisk {
    ghost use Rattle.undo_outside.specs.Disk.{Measures, ReadsAt, Syncs, WritesAt};
    ghost use Rattle.undo_outside.specs.Listed.{IsDue, one_more};
    ghost use Rattle.undo_outside.specs.MemDiskParts.{disk_calls, told_by};

    ghost told = { told_by };

    ghost tells_truth = { λ d h. record {
      size_of_content = refl;
      content_is_image = subst (image_after d.start (history d.writes.items)) (sym d.kept) (content_is_image d.start (history d.writes.items));
      counts_now = λ t c le now. image_counts d.start (history d.writes.items) t c now;
      only_now = λ c left. image_is_now d.start (history d.writes.items) _ c refl left;
    } };

    fn len(&mut self) -> Result<u64, Failed>
        ensures call { Measures (told_by self.old) (told_by self.new) result }
        ensures due { IsErr result ↔ IsDue (disk_calls self.old) }
        ensures counted { disk_calls self.new ≡ one_more (disk_calls self.old) }
    {
        if self.failing.counts_a_failure() {
            count_failure(&mut self.failed_reads);
            self.failed_last = true;
            return Err(Failed);
        }
        self.failed_last = false;
        Ok(current(&self.start, &self.latest).len() as u64)
    }

    fn read(&mut self, place: u64, buf: &mut [u8]) -> Result<(), Failed>
        requires { place + length buf.old ≤ (told_by self.old).size }
        ensures call { ReadsAt (told_by self.old) (told_by self.new) place (length buf.old) buf.new result }
        ensures due { IsErr result ↔ IsDue (disk_calls self.old) }
        ensures counted { disk_calls self.new ≡ one_more (disk_calls self.old) }
    {
        if self.failing.counts_a_failure() {
            count_failure(&mut self.failed_reads);
            self.failed_last = true;
            return Err(Failed);
        }
        let bytes = &current(&self.start, &self.latest)[place as usize..];
        buf.copy_from_slice(&bytes[..buf.len()]);
        self.failed_last = false;
        Ok(())
    }

    fn write_at(&mut self, place: u64, bytes: &[u8]) -> Result<(), DiskFault>
        requires { place ≤ (told_by self.old).size }
        ensures call { WritesAt (told_by self.old) (told_by self.new) place bytes.now result }
        ensures due { IsDue (disk_calls self.old) → IsErr result }
        ensures only_due { IsErrOf result Fault.Failed → IsDue (disk_calls self.old) }
        ensures counted { disk_calls self.new ≡ one_more (disk_calls self.old) }
    {
        if self.failing.counts_a_failure() {
            return match write_down(self.alloc, &mut self.writes, place, bytes, false) {
                Ok(()) => {
                    count_failure(&mut self.failed_writes);
                    self.failed_last = true;
                    self.memory_wants.pass();
                    Err(Fault::Failed)
                }
                Err(NoMemory) => {
                    self.memory_wants.count();
                    Err(Fault::NoMemory)
                }
            };
        }
        match write_through(
            self.alloc,
            &self.start,
            &mut self.latest,
            &mut self.writes,
            place,
            bytes,
        ) {
            Ok(()) => {
                self.failed_last = false;
                self.memory_wants.pass();
                Ok(())
            }
            Err(NoMemory) => {
                self.memory_wants.count();
                Err(Fault::NoMemory)
            }
        }
    }

    fn sync(&mut self) -> Result<(), Failed>
        ensures call { Syncs (told_by self.old) (told_by self.new) result }
        ensures due { IsErr result ↔ IsDue (disk_calls self.old) }
        ensures counted { disk_calls self.new ≡ one_more (disk_calls self.old) }
    {
        if self.failing.counts_a_failure() {
            count_failure(&mut self.failed_writes);
            self.failed_last = true;
            return Err(Failed);
        }
        mark(&mut self.writes);
        self.failed_last = false;
        Ok(())
    }
}
