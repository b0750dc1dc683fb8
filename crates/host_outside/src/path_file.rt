//! The file at a path of this machine. Nothing says what its calls do but std: each is a line or two. Of a call that failed
//! a line on standard error says which it was, and why.
//!
//! What is no plain file (a folder, a device, a pipe) has no length: each call fails. A file that may not be written is opened
//! for reading, so `check` works on it, and a seal fails.
//!
//! Before each write behind the end, so before each seal, the open file is compared with what stands at its path (device, inode)
//! and with the length that is told. Where it was removed, renamed, renamed over or cut, the write has failed: 421 and status 5,
//! and nothing is acknowledged into a file that nobody finds again. It is looked at with each seal and not once a second: two
//! calls beside two syncs. A file that was written over by one of the same length, and what happens to it between the look and
//! the answer, is not noticed.
//!
//! What no clause covers, and tests/system alone shows, is that the methods of `PathFile`, and the functions below them, do what
//! their names say, since it tells nothing. These are opening, the locks, the length that is found, standing at its path, and
//! reading and writing at a place. So are giving what was read before, telling of what is read soon, cutting, and the three
//! syncs. The same of which `State` a disk is opened in.
//!
//! A store at a symbolic link that leads nowhere is not made: a new store is opened as a file that is not there yet, so `init`
//! answers `disk fault`.
ghost use Rattle.std.specs.Prelude.{None};

use crate::calls::FileCalls;
use crate::locks::Locks;
use crate::near::{Near, ReadAhead};
use crate::telling::{Throttle, meaning, second};
use std::fs::{self, Metadata, OpenFile, OpenOptions};
use std::io::{self, ErrorKind};
use std::os::fd::AsRawFd;
use std::os::unix::fs::{FileExt, MetadataExt, OpenOptionsExt};
use std::path::Path;
use std::rt::Files;
use std::time::Clock;
use undo_outside::{DiskFault, Failed, Fault};

/// A file, or the path where it is made, and what opens it.
#[derive(Drop)]
pub struct PathFile<'a, R: Files> {
    files: R,
    path: Option<&'a String>,
    file: Option<R::File>,
    /// What was read last, of a file that nobody writes.
    near: Option<Near>,
    /// How far the system knows what is read.
    ahead: ReadAhead,
    /// Lets the lines pass that could come often.
    throttle: Throttle,
}

/// Which lock is taken on a file that is there.
#[derive(Clone, Copy)]
pub(crate) enum Lock {
    /// Nobody else has one.
    Exclusive,
    /// Others have none but this.
    Shared,
}

/// What stands at a path.
#[derive(Clone, Copy)]
pub(crate) enum Found {
    /// No path, or one at which no length was found, or a file that another program has locked.
    Nothing,
    /// No file yet.
    Missing,
    /// A file of this length.
    There(u64),
}

impl<'a, R: Files + Eprint + Clock> PathFile<'a, R>
where
    R::File: Locks,
{
    /// The file at a path, opened and locked, and what was found there.
    pub(crate) fn find(files: R, path: Option<&'a String>, lock: Lock) -> (PathFile<'a, R>, Found) {
        let (file, found) = match path {
            Some(path) => find_at(&files, path.as_str(), lock),
            None => (None, Found::Nothing),
        };
        let near = match lock {
            Lock::Exclusive => None,
            Lock::Shared => Some(Near::new()),
        };
        let file = PathFile {
            files,
            path,
            file,
            near,
            ahead: ReadAhead::new(),
            throttle: Throttle::new(),
        };
        (file, found)
    }

    /// Says which call failed, and why.
    fn tell(&self, what: &str, why: &io::Error) -> Failed {
        if let Some(path) = self.path {
            tell_of(&self.files, path.as_str(), what, why);
        }
        Failed
    }

    /// What a call came to: of one that failed this says which it was, and why.
    fn outcome(&self, done: io::Result<()>, what: &str) -> Result<(), Failed> {
        match done {
            Ok(()) => Ok(()),
            Err(error) => {
                let failed = self.tell(what, &error);
                drop(error);
                Err(failed)
            }
        }
    }

    /// The same of a call that may fail again and again: once a second.
    fn tell_seldom(&mut self, what: &str, why: &io::Error) -> Failed {
        if self.throttle.pass(second(&self.files)).is_some() {
            self.tell(what, why);
        }
        Failed
    }

    /// Says why a write was not done. One that found no room is to be undone.
    fn unwritten(&mut self, why: &io::Error) -> DiskFault {
        if finds_no_room(why) {
            self.tell_seldom("there is no room for more", why);
            return Fault::NoMemory;
        }
        self.tell("it cannot be written", why);
        Fault::Failed
    }
}

impl<'a, R: Files + Eprint + Clock> FileCalls for PathFile<'a, R>
where
    R::File: Locks + FileExt + AsRawFd,
{
    ghost told = { λ _. None };

    fn make(&mut self) -> Result<(), Failed> {
        let Some(path) = self.path else {
            return Err(Failed);
        };
        match make(&self.files, path.as_str()) {
            Ok(file) => {
                self.file = Some(file);
                Ok(())
            }
            Err(error) => Err(self.tell("it cannot be made", &error)),
        }
    }

    fn read(&mut self, place: u64, buf: &mut [u8]) -> Result<(), Failed> {
        let Some(file) = self.file.as_ref() else {
            return Err(Failed);
        };
        self.ahead.go_on(file, place);
        match read_near(&mut self.near, file, place, buf) {
            Ok(()) => Ok(()),
            Err(error) => Err(self.tell_seldom("it cannot be read", &error)),
        }
    }

    fn stand(&mut self, size: u64) -> Result<(), Failed> {
        let Some(path) = self.path else {
            return Err(Failed);
        };
        let Some(file) = self.file.as_ref() else {
            return Err(Failed);
        };
        let stood = stands_at(&self.files, path.as_str(), file, size);
        self.outcome(stood, "the store that is served is not there any more")
    }

    fn write(&mut self, place: u64, bytes: &[u8]) -> Result<(), DiskFault> {
        let Some(file) = self.file.as_ref() else {
            return Err(Fault::Failed);
        };
        match file.write_all_at(bytes, place) {
            Ok(()) => Ok(()),
            Err(error) => Err(self.unwritten(&error)),
        }
    }

    fn cut(&mut self, size: u64) -> Result<(), Failed> {
        let Some(file) = self.file.as_ref() else {
            return Err(Failed);
        };
        let is_cut = file.set_len(size);
        self.outcome(is_cut, "it cannot be cut")
    }

    fn sync_all(&mut self) -> Result<(), Failed> {
        let Some(file) = self.file.as_ref() else {
            return Err(Failed);
        };
        let synced = file.sync_all();
        self.outcome(synced, "it cannot be synced")
    }

    fn sync_bytes(&mut self) -> Result<(), Failed> {
        let Some(file) = self.file.as_ref() else {
            return Err(Failed);
        };
        let synced = file.sync_data();
        self.outcome(synced, "its bytes cannot be synced")
    }

    fn sync_folder(&mut self) -> Result<(), Failed> {
        let Some(path) = self.path else {
            return Err(Failed);
        };
        let synced = sync_folder(&self.files, path.as_str());
        self.outcome(synced, "its folder cannot be synced")
    }
}

/// Fills a buffer from a place of a file on, or with what was read before.
fn read_near<F: FileExt>(
    near: &mut Option<Near>,
    file: &F,
    place: u64,
    buf: &mut [u8],
) -> io::Result<()> {
    match near {
        Some(near) => near.read(file, place, buf),
        None => file.read_exact_at(buf, place),
    }
}

/// A line on what went wrong with the file at a path.
fn tell_of<R: Eprint>(rt: &R, path: &str, what: &str, why: &io::Error) {
    let meaning = meaning(why);
    let _told = eprintln!(rt; "undomail: {path}: {what}: {meaning}{why}");
}

/// Whether a write failed since there is no room: on the device, for the user, or in a file.
fn finds_no_room(error: &io::Error) -> bool {
    matches!(
        error.kind(),
        ErrorKind::StorageFull | ErrorKind::QuotaExceeded | ErrorKind::FileTooLarge
    )
}

fn find_at<R: Files + Eprint>(files: &R, path: &str, lock: Lock) -> (Option<R::File>, Found)
where
    R::File: Locks,
{
    match open_there(files, path, lock) {
        Ok((file, size)) => (Some(file), Found::There(size)),
        Err(error) if error.kind() == ErrorKind::NotFound => (None, Found::Missing),
        Err(error) => {
            tell_of(files, path, "it cannot be opened", &error);
            (None, Found::Nothing)
        }
    }
}

/// Opens the plain file at a path, locks it, and finds its length, which nobody else changes from then on. What is no
/// plain file is not opened, since that might wait.
fn open_there<R: Files + Eprint>(files: &R, path: &str, lock: Lock) -> io::Result<(R::File, u64)>
where
    R::File: Locks,
{
    find_plain(files, path)?;
    let opened = match lock {
        Lock::Exclusive => open_alone(files, path),
        Lock::Shared => open_beside(files, path),
    };
    measured::<R>(opened?)
}

/// Looks whether a plain file stands at a path.
fn find_plain<R: Files>(files: &R, path: &str) -> io::Result<()> {
    let found = fs::metadata(files, path)?;
    if found.is_dir() {
        return Err(io::Error::new(ErrorKind::IsADirectory, "this is a folder"));
    }
    if !found.is_file() {
        return Err(io::Error::new(ErrorKind::InvalidInput, "this is no plain file"));
    }
    Ok(())
}

/// A file with its length.
fn measured<R: Files>(file: R::File) -> io::Result<(R::File, u64)> {
    match file.metadata() {
        Ok(found) => Ok((file, found.len())),
        Err(error) => {
            drop(file);
            Err(error)
        }
    }
}

/// A file that nobody else has locked.
fn locked_alone<R: Files>(file: R::File) -> io::Result<R::File>
where
    R::File: Locks,
{
    match file.lock_alone() {
        Ok(()) => Ok(file),
        Err(error) => {
            drop(file);
            Err(error)
        }
    }
}

/// Opens a file for this program alone; for reading alone where it may not be written.
fn open_alone<R: Files + Eprint>(files: &R, path: &str) -> io::Result<R::File>
where
    R::File: Locks,
{
    locked_alone::<R>(open_to_write(files, path)?)
}

fn open_to_write<R: Files + Eprint>(files: &R, path: &str) -> io::Result<R::File> {
    match OpenOptions::new().read(true).write(true).open(files, path) {
        Ok(file) => Ok(file),
        Err(error) => {
            tell_of(files, path, "it is opened for reading alone", &error);
            fs::open(files, path)
        }
    }
}

/// Opens a file for reading, beside others that read it.
fn open_beside<R: Files>(files: &R, path: &str) -> io::Result<R::File>
where
    R::File: Locks,
{
    let file = fs::open(files, path)?;
    match file.lock_beside() {
        Ok(()) => Ok(file),
        Err(error) => {
            drop(file);
            Err(error)
        }
    }
}

/// Makes the file at a path, which nobody but its owner may read, and locks it. One that is there by now is left alone.
fn make<R: Files>(files: &R, path: &str) -> io::Result<R::File>
where
    R::File: Locks,
{
    let made = OpenOptions::new()
        .read(true)
        .write(true)
        .create_new(true)
        .mode(0o600)
        .open(files, path);
    locked_alone::<R>(made?)
}

/// Whether the open file is the one at its path, and has this length.
fn stands_at<R: Files>(files: &R, path: &str, file: &R::File, size: u64) -> io::Result<()> {
    let opened = file.metadata()?;
    let named = fs::metadata(files, path)?;
    stands(&opened, &named, size)
}

/// The same of what is known of both.
fn stands(opened: &Metadata, named: &Metadata, size: u64) -> io::Result<()> {
    if named.dev() != opened.dev() || named.ino() != opened.ino() {
        return Err(io::Error::new(ErrorKind::NotFound, "another file has its name"));
    }
    if opened.len() != size {
        return Err(io::Error::new(
            ErrorKind::InvalidData,
            "something else has changed its length",
        ));
    }
    Ok(())
}

/// Syncs the folder of a file, so that the file is found there after a crash.
fn sync_folder<R: Files>(files: &R, path: &str) -> io::Result<()> {
    let folder = fs::open(files, folder_of(path))?;
    let synced = folder.sync_all();
    drop(folder);
    synced
}

/// The folder of a file at a path.
fn folder_of(path: &str) -> Path<'_> {
    match Path::new(path).parent() {
        Some(folder) if !folder.as_os_str().is_empty() => folder,
        _ => Path::new("."),
    }
}
