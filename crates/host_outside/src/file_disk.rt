//! A file as a disk, which tells its length and its counts alone, and what each of its calls does to the file.
//!
//! A `FileDisk` (`DiskOver<PathFile>`) makes a missing file at the first write, for its owner alone, and syncs the file's folder
//! at the sync after that.
//!
//! A file that is found with nothing in it counts as new. Its folder is synced with it at the next sync, since nobody knows
//! whether the one who made it did so.
//!
//! A write for which there is no room (ENOSPC, EDQUOT, EFBIG: on the device, for the user, in a file) is want of memory where it
//! went behind the end. What it left there is cut off again, and nothing has changed. What a write has before and behind the end
//! is written apart, the part behind first; so no room is never found in the middle of what stands. There (a gate's byte; the
//! rest of a frame that a stop left) it is a failed write, as is one whose cut failed. A sync that finds no room has failed.
//! Until the next sync a crash may leave some of what such a write put behind the end, which the model's honest disk has no image
//! of. It lies behind the last gate, which is closed, and no opening looks behind a closed gate. That is trusted of the file and
//! not proved.
ghost use Rattle.std.specs.Prelude.{◌≡◌, ◌≢◌, ◌≤◌, ◌+◌, [], ◌∷◌, length, take, drop, max, true, false, if◌then◌else◌, IfOk, IsErrOf, OnOk, OnErr};
ghost use Rattle.undo_outside.specs.Calls.{Rose, RoseOnce, then_told};
ghost use Rattle.undo_outside.specs.declared.fault.Fault.TheVariants.{NoMemory};
ghost use Rattle.host_outside.specs.FileDisk.{told_by, NoneFailed};
ghost use Rattle.host_outside.specs.Files.{adds, changes, cuts, finds, makes, reads, syncs, writes};
ghost use Rattle.host_outside.specs.declared.calls.FileCall.TheVariants.{Cut, SyncedAll, SyncedBytes, SyncedFolder};
ghost use Rattle.host_outside.specs.declared.file_disk.State.TheVariants as states;

use crate::calls::FileCalls;
use crate::locks::Locks;
use crate::path_file::{Found, Lock, PathFile};
use std::os::fd::AsRawFd;
use std::os::unix::fs::FileExt;
use std::rt::Files;
use std::time::Clock;
use undo_outside::{Disk, DiskFault, Failed, Fault};

/// Whether a file is there.
#[derive(Clone, Copy)]
pub enum State {
    /// There is none, and each call fails.
    Nothing,
    /// There is none yet: the first write makes it.
    Missing,
    There,
}

/// A disk over a file. Its length is the one that was found when it was opened, raised by what is written since.
#[derive(Drop)]
pub struct DiskOver<F: FileCalls> {
    file: F,
    state: State,
    /// Whether its folder is to be synced: it was made here, or was found with nothing in it.
    is_new: bool,
    size: u64,
    /// Whether the length in the file may be another than at the last sync.
    has_grown: bool,
    failed_reads: u64,
    failed_writes: u64,
    failed_last: bool,
    /// How many writes found no room, and whether the last one did.
    out_of_memory: u64,
    out_of_memory_last: bool,
}

/// The file at a path.
pub type FileDisk<'a, R> = DiskOver<PathFile<'a, R>>;

impl<'a, R: Files + Eprint + Clock> DiskOver<PathFile<'a, R>>
where
    R::File: Locks + FileExt + AsRawFd,
{
    /// The file at this path, locked for this program alone as long as the disk is there; a missing one has length 0, and is
    /// made at the first write. Without a path, or where another program has locked the file or no length was found, each
    /// call fails.
    pub fn open(files: R, path: Option<&'a String>) -> DiskOver<PathFile<'a, R>>
        ensures { NoneFailed (told_by result) }
    {
        let (file, found) = PathFile::find(files, path, Lock::Exclusive);
        DiskOver::found(file, found)
    }

    /// The file at this path to be read alone, beside others that read it. Where a program has opened it for itself, each
    /// call fails.
    pub fn open_to_read(files: R, path: Option<&'a String>) -> DiskOver<PathFile<'a, R>>
        ensures { NoneFailed (told_by result) }
    {
        let (file, found) = PathFile::find(files, path, Lock::Shared);
        DiskOver::found(file, found)
    }

    fn found(file: PathFile<'a, R>, found: Found) -> DiskOver<PathFile<'a, R>>
        ensures { NoneFailed (told_by result) }
    {
        match found {
            Found::Nothing => DiskOver::over(file, State::Nothing, 0),
            Found::Missing => DiskOver::over(file, State::Missing, 0),
            Found::There(size) => DiskOver::over(file, State::There, size),
        }
    }
}

impl<F: FileCalls> DiskOver<F> {
    /// Over a file of this length, or of length 0 where it is not there.
    pub fn over(file: F, state: State, size: u64) -> DiskOver<F>
        ensures file { result.file ≡ file }
        ensures state { result.state ≡ state }
        ensures size { result.size ≡ size }
        ensures grown { result.has_grown ≡ true }
        ensures new { size ≡ 0 → result.is_new ≡ true }
        ensures fresh { NoneFailed (told_by result) }
    {
        DiskOver {
            file,
            state,
            is_new: size == 0,
            size,
            has_grown: true,
            failed_reads: 0,
            failed_writes: 0,
            failed_last: false,
            out_of_memory: 0,
            out_of_memory_last: false,
        }
    }

    /// Notes that a write may change the length.
    fn note_growth(&mut self, place: u64, bytes: &[u8])
        ensures noted { self.new.has_grown ≡ false → place + length bytes.now ≤ self.old.size }
        ensures kept { self.old.has_grown ≡ true → self.new.has_grown ≡ true }
        ensures told { self.new ≡ record self.old { has_grown = self.new.has_grown } }
    {
        match place.checked_add(bytes.len() as u64) {
            Some(end) if end <= self.size => {}
            _ => self.has_grown = true,
        }
    }

    /// Counts a failed read.
    fn fail_read(&mut self) -> Failed
        ensures counted { Rose self.old.failed_reads self.new.failed_reads × (self.new.failed_reads ≤ self.old.failed_reads + 1) }
        ensures told { self.new ≡ record self.old { failed_reads = self.new.failed_reads; failed_last = true } }
    {
        self.failed_reads = self.failed_reads.saturating_add(1);
        self.failed_last = true;
        Failed
    }

    /// Counts a failed write or sync.
    fn fail_write(&mut self) -> Failed
        ensures counted { Rose self.old.failed_writes self.new.failed_writes × (self.new.failed_writes ≤ self.old.failed_writes + 1) }
        ensures told { self.new ≡ record self.old { failed_writes = self.new.failed_writes; failed_last = true } }
    {
        self.failed_writes = self.failed_writes.saturating_add(1);
        self.failed_last = true;
        Failed
    }

    /// Counts a write that found no room.
    fn run_out_of_memory(&mut self)
        ensures counted { RoseOnce self.old.out_of_memory self.new.out_of_memory }
        ensures told { self.new ≡ record self.old { out_of_memory = self.new.out_of_memory; out_of_memory_last = true } }
    {
        self.out_of_memory = self.out_of_memory.saturating_add(1);
        self.out_of_memory_last = true;
    }

    /// Makes the file where it is missing.
    fn make_missing(&mut self) -> Result<(), Failed>
        ensures calls { OnOk result (F.told self.new.file ≡ then_told (F.told self.old.file) (makes self.old.state)) }
        ensures there { OnOk result (self.new.state ≡ states.There) }
        ensures made { OnOk result (self.old.state ≡ states.Missing → self.new.is_new ≡ true) }
        ensures new { self.old.is_new ≡ true → self.new.is_new ≡ true }
        ensures told { self.new ≡ record self.old { file = self.new.file; state = self.new.state; is_new = self.new.is_new } }
    {
        match self.state {
            State::Nothing => Err(Failed),
            State::Missing => {
                self.file.make()?;
                self.state = State::There;
                self.is_new = true;
                Ok(())
            }
            State::There => Ok(()),
        }
    }

    /// Cuts off what a write for which no room was found has left behind the end.
    fn cut_off(&mut self) -> DiskFault
        ensures cut { result ≡ NoMemory → F.told self.new.file ≡ then_told (F.told self.old.file) (Cut self.old.size ∷ []) }
        ensures told { self.new ≡ record self.old { file = self.new.file } }
    {
        match self.file.cut(self.size) {
            Ok(()) => Fault::NoMemory,
            Err(Failed) => Fault::Failed,
        }
    }

    /// Writes behind the end, to a file that is still at its path.
    fn write_behind(&mut self, bytes: &[u8]) -> Result<(), DiskFault>
        ensures calls { OnOk result (F.told self.new.file ≡ adds self.old.size bytes.now (F.told self.old.file)) }
        ensures cut { IsErrOf result NoMemory → F.told self.new.file ≡ cuts states.There self.old.size (F.told self.old.file) }
        ensures told { self.new ≡ record self.old { file = self.new.file } }
    {
        if bytes.is_empty() {
            return Ok(());
        }
        if self.file.stand(self.size).is_err() {
            return Err(Fault::Failed);
        }
        match self.file.write(self.size, bytes) {
            Ok(()) => Ok(()),
            Err(Fault::NoMemory) => Err(self.cut_off()),
            Err(Fault::Failed) => Err(Fault::Failed),
        }
    }

    /// Writes before the end. There no room is wanted: where none is found the write has failed.
    fn write_before(&mut self, place: u64, bytes: &[u8]) -> Result<(), Failed>
        ensures calls { OnOk result (F.told self.new.file ≡ changes place bytes.now (F.told self.old.file)) }
        ensures told { self.new ≡ record self.old { file = self.new.file } }
    {
        if bytes.is_empty() {
            return Ok(());
        }
        match self.file.write(place, bytes) {
            Ok(()) => Ok(()),
            Err(_) => Err(Failed),
        }
    }

    /// Writes to a file that is there. What lies behind the end comes first, so that nothing has changed where no room is found.
    fn write_parts(&mut self, place: u64, bytes: &[u8]) -> Result<(), DiskFault>
        requires { place ≤ self.old.size }
        ensures calls { OnOk result (F.told self.new.file ≡ writes states.There self.old.size place bytes.now (F.told self.old.file)) }
        ensures cut { IsErrOf result NoMemory → F.told self.new.file ≡ cuts states.There self.old.size (F.told self.old.file) }
        ensures told { self.new ≡ record self.old { file = self.new.file } }
    {
        let (before, behind) = parts(bytes, self.size - place);
        match self.write_behind(behind) {
            Ok(()) => {}
            Err(Fault::NoMemory) => return Err(Fault::NoMemory),
            Err(Fault::Failed) => return Err(Fault::Failed),
        }
        match self.write_before(place, before) {
            Ok(()) => Ok(()),
            Err(Failed) => Err(Fault::Failed),
        }
    }

    /// Writes, and answers the place behind what is written.
    fn write_there(&mut self, place: u64, bytes: &[u8]) -> Result<u64, DiskFault>
        requires { place ≤ self.old.size }
        ensures calls { OnOk result (F.told self.new.file ≡ writes self.old.state self.old.size place bytes.now (F.told self.old.file)) }
        ensures cut { IsErrOf result NoMemory → F.told self.new.file ≡ cuts self.old.state self.old.size (F.told self.old.file) }
        ensures end { IfOk result (λ end. end ≡ place + length bytes.now) }
        ensures there { OnOk result (self.new.state ≡ states.There) }
        ensures made { OnOk result (self.old.state ≡ states.Missing → self.new.is_new ≡ true) }
        ensures new { self.old.is_new ≡ true → self.new.is_new ≡ true }
        ensures told { self.new ≡ record self.old { file = self.new.file; state = self.new.state; is_new = self.new.is_new } }
    {
        let Some(end) = place.checked_add(bytes.len() as u64) else {
            return Err(Fault::Failed);
        };
        if self.make_missing().is_err() {
            return Err(Fault::Failed);
        }
        match self.write_parts(place, bytes) {
            Ok(()) => Ok(end),
            Err(Fault::NoMemory) => Err(Fault::NoMemory),
            Err(Fault::Failed) => Err(Fault::Failed),
        }
    }

    /// Reads what is there.
    fn read_there(&mut self, place: u64, buf: &mut [u8]) -> Result<(), Failed>
        ensures calls { OnOk result (F.told self.new.file ≡ then_told (F.told self.old.file) (reads self.old.state place (length buf.old))) }
        ensures told { self.new ≡ record self.old { file = self.new.file } }
    {
        match self.state {
            State::Nothing => Err(Failed),
            State::Missing if buf.is_empty() => Ok(()),
            State::Missing => Err(Failed),
            State::There => self.file.read(place, buf),
        }
    }

    /// Syncs the bytes, with the length and the times where the length may have changed.
    fn sync_file(&mut self) -> Result<(), Failed>
        ensures calls { OnOk result (F.told self.new.file ≡ then_told (F.told self.old.file) ((if self.old.has_grown then SyncedAll else SyncedBytes) ∷ [])) }
        ensures told { self.new ≡ record self.old { file = self.new.file } }
    {
        if self.has_grown {
            self.file.sync_all()
        } else {
            self.file.sync_bytes()
        }
    }

    /// Syncs the folder of a file that is new there.
    fn sync_new(&mut self) -> Result<(), Failed>
        ensures calls { OnOk result (F.told self.new.file ≡ then_told (F.told self.old.file) (if self.old.is_new then SyncedFolder ∷ [] else [])) }
        ensures kept { OnErr result (self.new.is_new ≡ self.old.is_new) }
        ensures done { OnOk result (self.new.is_new ≡ false) }
        ensures told { self.new ≡ record self.old { file = self.new.file; is_new = self.new.is_new } }
    {
        if self.is_new {
            self.file.sync_folder()?;
            self.is_new = false;
        }
        Ok(())
    }

    /// Syncs the file, and the folder of one that is new there.
    fn sync_there(&mut self) -> Result<(), Failed>
        ensures calls { OnOk result (F.told self.new.file ≡ then_told (then_told (F.told self.old.file) (syncs self.old.state self.old.has_grown)) (finds self.old.state self.old.is_new)) }
        ensures kept { OnErr result ((self.new.is_new ≡ self.old.is_new) × (self.new.has_grown ≡ self.old.has_grown)) }
        ensures told { self.new ≡ record self.old { file = self.new.file; is_new = self.new.is_new; has_grown = self.new.has_grown } }
    {
        match self.state {
            State::Nothing => Err(Failed),
            State::Missing => Ok(()),
            State::There => {
                self.sync_file()?;
                self.sync_new()?;
                self.has_grown = false;
                Ok(())
            }
        }
    }
}

/// The first so many of the bytes, or all where there are no more, and the rest.
fn parts(bytes: &[u8], count: u64) -> (&[u8], &[u8])
    ensures front { result.0.now ≡ take count bytes.now }
    ensures rest { result.1.now ≡ drop count bytes.now }
{
    if count < bytes.len() as u64 {
        bytes.split_at(count as usize)
    } else {
        bytes.split_at(bytes.len())
    }
}

impl<F: FileCalls> Disk for DiskOver<F> {
    ghost use Rattle.undo_outside.specs.Disk.{Measures, ReadsAt, Syncs, WritesAt};
    ghost use Rattle.host_outside.specs.FileDisk.{told_by};

    ghost told = { told_by };

    ghost tells_truth = { λ d h. absurd h };

    fn len(&mut self) -> Result<u64, Failed>
        ensures call { Measures (told_by self.old) (told_by self.new) result }
        ensures there { OnOk result (self.old.state ≢ states.Nothing) }
        ensures none { OnErr result (self.old.state ≡ states.Nothing) }
        ensures others { self.new ≡ record self.old { failed_reads = self.new.failed_reads; failed_last = self.new.failed_last } }
    {
        if matches!(self.state, State::Nothing) {
            return Err(self.fail_read());
        }
        self.failed_last = false;
        Ok(self.size)
    }

    fn read(&mut self, place: u64, buf: &mut [u8]) -> Result<(), Failed>
        requires { place + length buf.old ≤ (told_by self.old).size }
        ensures call { ReadsAt (told_by self.old) (told_by self.new) place (length buf.old) buf.new result }
        ensures calls { OnOk result (F.told self.new.file ≡ then_told (F.told self.old.file) (reads self.old.state place (length buf.old))) }
        ensures others { self.new ≡ record self.old { file = self.new.file; failed_reads = self.new.failed_reads; failed_last = self.new.failed_last } }
    {
        if self.read_there(place, buf).is_err() {
            return Err(self.fail_read());
        }
        self.failed_last = false;
        Ok(())
    }

    fn write_at(&mut self, place: u64, bytes: &[u8]) -> Result<(), DiskFault>
        requires { place ≤ (told_by self.old).size }
        ensures call { WritesAt (told_by self.old) (told_by self.new) place bytes.now result }
        ensures calls { OnOk result (F.told self.new.file ≡ writes self.old.state self.old.size place bytes.now (F.told self.old.file)) }
        ensures cut { IsErrOf result NoMemory → F.told self.new.file ≡ cuts self.old.state self.old.size (F.told self.old.file) }
        ensures size { OnOk result (self.new.size ≡ max self.old.size (place + length bytes.now)) }
        ensures unwritten { OnErr result (self.new.size ≡ self.old.size) }
        ensures there { OnOk result (self.new.state ≡ states.There) }
        ensures made { OnOk result (self.old.state ≡ states.Missing → self.new.is_new ≡ true) }
        ensures new { self.old.is_new ≡ true → self.new.is_new ≡ true }
        ensures noted { self.new.has_grown ≡ false → place + length bytes.now ≤ self.old.size }
        ensures grown { self.old.has_grown ≡ true → self.new.has_grown ≡ true }
    {
        self.note_growth(place, bytes);
        match self.write_there(place, bytes) {
            Ok(end) => {
                self.size = self.size.max(end);
                self.failed_last = false;
                self.out_of_memory_last = false;
                Ok(())
            }
            Err(Fault::NoMemory) => {
                self.run_out_of_memory();
                Err(Fault::NoMemory)
            }
            Err(Fault::Failed) => {
                self.fail_write();
                self.out_of_memory_last = false;
                Err(Fault::Failed)
            }
        }
    }

    fn sync(&mut self) -> Result<(), Failed>
        ensures call { Syncs (told_by self.old) (told_by self.new) result }
        ensures calls { OnOk result (F.told self.new.file ≡ then_told (then_told (F.told self.old.file) (syncs self.old.state self.old.has_grown)) (finds self.old.state self.old.is_new)) }
        ensures kept { OnErr result ((self.new.is_new ≡ self.old.is_new) × (self.new.has_grown ≡ self.old.has_grown)) }
        ensures others { self.new ≡ record self.old { file = self.new.file; is_new = self.new.is_new; has_grown = self.new.has_grown; failed_writes = self.new.failed_writes; failed_last = self.new.failed_last } }
    {
        if self.sync_there().is_err() {
            return Err(self.fail_write());
        }
        self.failed_last = false;
        Ok(())
    }
}
