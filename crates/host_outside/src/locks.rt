//! Locks of a whole file, of which each call answers at once.
//!
//! `check`, `cut` and `audit` take the shared lock: any number of them may look at a store that nobody serves.
use std::fs::{File, TryLockError};
use std::io::{self, ErrorKind};

/// A file that can be locked until it is closed. A lock keeps out programs that ask for one, and nobody else.
pub trait Locks {
    /// Takes the lock that nobody has beside it. Where another program has any, or there are no locks, this fails.
    fn lock_alone(&self) -> io::Result<()>;

    /// Takes the lock that others may have too. Where another program has the other one, or there are no locks, this fails.
    fn lock_beside(&self) -> io::Result<()>;
}

impl Locks for File {
    fn lock_alone(&self) -> io::Result<()> {
        self.try_lock().map_err(unlocked)
    }

    fn lock_beside(&self) -> io::Result<()> {
        self.try_lock_shared().map_err(unlocked)
    }
}

/// Why no lock was had.
fn unlocked(error: TryLockError) -> io::Error {
    match error {
        TryLockError::WouldBlock => {
            io::Error::new(ErrorKind::WouldBlock, "another program has this store")
        }
        TryLockError::Error(error) => error,
    }
}
