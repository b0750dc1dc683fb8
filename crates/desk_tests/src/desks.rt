//! Desks that are started over disks in memory.
use mail_desk::Counts;
use std::alloc::Global;
use std::test::Fail;
use time_desk::{Desk, StartFault};
use undo_base::{Numbers, Text};
use undo_outside::MemDisk;

/// The journal of ann, bob and carl in which ann made Work, by the item of number 2.
pub(crate) const JOURNAL: &[u8] =
    b"\x55\x00\x00\x00\x47\x00\x09mail.test\x00\x00\x00\x01\x09mail.test\x00\x00\x00\x02\x00\x00\x00\x03\x03ann\x02a1\x03bob\x02b2\x04carl\x02c3\x00\x00\x00\x00\x01\x04team\x00\x00\x00\x02\x00\x01\x55\x00\x00\x00\x15\x01\x00\x00\x00\x02\x00\x00\x00\x00\x41\xde\x5d\xa0\x00\x0b\x04Work\x00\x00";

/// The journal of these users before the first item.
pub(crate) const BEGUN: &[u8] =
    b"\x55\x00\x00\x00\x47\x00\x09mail.test\x00\x00\x00\x01\x09mail.test\x00\x00\x00\x02\x00\x00\x00\x03\x03ann\x02a1\x03bob\x02b2\x04carl\x02c3\x00\x00\x00\x00\x01\x04team\x00\x00\x00\x02\x00\x01\x00";

/// The same of a house whose first number is 999.
pub(crate) const BEGUN_LATE: &[u8] =
    b"\x55\x00\x00\x00\x47\x00\x09mail.test\x00\x00\x00\x01\x09mail.test\x00\x00\x03\xe7\x00\x00\x00\x03\x03ann\x02a1\x03bob\x02b2\x04carl\x02c3\x00\x00\x00\x00\x01\x04team\x00\x00\x00\x02\x00\x01\x00";

/// What is kept, as far as it is compared: the digest of the store, and the counts.
pub(crate) type Kept = (Text, Counts);

/// A disk with these bytes, whose call of this ordinal fails.
fn disk_of(alloc: Global, bytes: &[u8], failing: u32) -> Result<MemDisk, Fail> {
    let failing = Numbers::from_vec(Vec::from_slice(alloc, &[failing])?);
    Ok(MemDisk::new(alloc, Text::of(alloc, bytes)?, failing))
}

/// The desk that was started.
fn desk_of(started: Result<Desk<MemDisk>, (MemDisk, StartFault)>) -> Result<Desk<MemDisk>, Fail> {
    match started {
        Ok(desk) => Ok(desk),
        Err((disk, _fault)) => {
            drop(disk);
            Err(Fail::new("no desk"))
        }
    }
}

/// A desk that is started over an image, on a disk whose call of this ordinal fails.
pub(crate) fn started(alloc: Global, image: &[u8], failing: u32) -> Result<Desk<MemDisk>, Fail> {
    let disk = disk_of(alloc, image, failing)?;
    desk_of(Desk::start(alloc, disk))
}

/// A desk that is started over a disk that another left.
pub(crate) fn restarted(alloc: Global, disk: MemDisk) -> Result<Desk<MemDisk>, Fail> {
    desk_of(Desk::start(alloc, disk))
}

pub(crate) fn kept(alloc: Global, desk: &Desk<MemDisk>) -> Result<Kept, Fail> {
    Ok((desk.digest(alloc)?, desk.counts()))
}

/// Whether the same is kept.
pub(crate) fn keeps(alloc: Global, desk: &Desk<MemDisk>, wanted: &Kept) -> Result<bool, Fail> {
    let now = kept(alloc, desk)?;
    let same = now.0 == wanted.0 && now.1 == wanted.1;
    drop(now);
    Ok(same)
}

/// Whether a desk is closed, and this is the number of its next item.
pub(crate) fn is_closed_at(desk: &Desk<MemDisk>, next: u32) -> bool {
    desk.closed() && desk.next() == next
}

/// How many writes of its disk were tried, where a desk ends.
pub(crate) fn writes_of(disk: MemDisk) -> usize {
    let writes = disk.writes();
    drop(disk);
    writes
}
