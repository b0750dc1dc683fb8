//! The calls that a disk makes on its file.
//!
//! A disk over a file (`DiskOver`) makes its calls through a small trait, `FileCalls`: made, read, written, synced whole, its
//! bytes synced, its folder synced. What a call of the disk that succeeds does to the file is a clause of that call over what
//! such an object tells. Of one that fails it is said only that it was counted.
ghost use Rattle.std.specs.Prelude.{List, Option, length};
ghost use Rattle.host_outside.specs.Files.{Does};
ghost use Rattle.host_outside.specs.declared.calls.FileCall.{FileCall as Call};
ghost use Rattle.host_outside.specs.declared.calls.FileCall.TheVariants.{Made, Read, Stood, Wrote, Cut, SyncedAll, SyncedBytes, SyncedFolder};

use undo_base::Text;
use undo_outside::{DiskFault, Failed};

/// What was done to a file.
#[derive(Drop)]
pub enum FileCall {
    /// It was made, where it was missing.
    Made,
    /// So many bytes were read from a place on.
    Read { place: u64, count: u64 },
    /// It was found at its path, with this length.
    Stood { size: u64 },
    /// Bytes were written from a place on.
    Wrote { place: u64, bytes: Text },
    /// What lay behind its first so many bytes was cut off.
    Cut { size: u64 },
    /// Its bytes, its length and its times reached the device.
    SyncedAll,
    /// Its bytes reached the device.
    SyncedBytes,
    /// The folder in which it stands reached the device.
    SyncedFolder,
}

/// A file, or a place where one can be made. What a call did is told, if anything is told; a call that failed did nothing
/// that is told.
pub trait FileCalls {
    /// What was done so far, in order, if it tells that.
    ghost told: { Self → Option (List Call) };

    /// Makes the file where it is missing.
    fn make(&mut self) -> Result<(), Failed>
        ensures { Does (told self.old) (told self.new) Made result };

    /// Fills the buffer from a place on. A file that ends before fails.
    fn read(&mut self, place: u64, buf: &mut [u8]) -> Result<(), Failed>
        ensures { Does (told self.old) (told self.new) (Read place (length buf.old)) result };

    /// Looks whether it still stands at its path, with this length.
    fn stand(&mut self, size: u64) -> Result<(), Failed>
        ensures { Does (told self.old) (told self.new) (Stood size) result };

    /// Writes all the bytes from a place on. Where no room is found for them some of the first ones may stand there, and want
    /// of memory is answered.
    fn write(&mut self, place: u64, bytes: &[u8]) -> Result<(), DiskFault>
        ensures { Does (told self.old) (told self.new) (Wrote place bytes.now) result };

    /// Cuts off what lies behind its first so many bytes.
    fn cut(&mut self, size: u64) -> Result<(), Failed>
        ensures { Does (told self.old) (told self.new) (Cut size) result };

    /// Syncs the file with its length and its times.
    fn sync_all(&mut self) -> Result<(), Failed>
        ensures { Does (told self.old) (told self.new) SyncedAll result };

    /// Syncs the file's bytes.
    fn sync_bytes(&mut self) -> Result<(), Failed>
        ensures { Does (told self.old) (told self.new) SyncedBytes result };

    /// Syncs the folder, so that the file is found there after a crash.
    fn sync_folder(&mut self) -> Result<(), Failed>
        ensures { Does (told self.old) (told self.new) SyncedFolder result };
}
