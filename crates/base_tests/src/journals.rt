//! A stop in each write of a journal, calls that fail, and a list of payloads.
ghost use Rattle.std.specs.Prelude.{◌≡◌, ◌<◌, length, IfOk};
ghost use Rattle.seal_log.specs.Log.{last_gate};

use crate::disks::disk_of;
use seal_log::{LoadFault, Log, ReadFault, SealFault, format, load};
use std::alloc::Global;
use std::test::Fail;
use undo_base::{Text, Texts};
use undo_outside::{Disk, MemDisk};

const HEAD: &[u8] = b"the first payload";

const MORE: &[u8] = b"another";

/// The disk, where all was sealed on it.
fn disk_sealed(disk: MemDisk, sealed: Result<(), Fail>) -> Result<MemDisk, Fail> {
    match sealed {
        Ok(()) => Ok(disk),
        Err(fail) => {
            drop(disk);
            Err(fail)
        }
    }
}

fn seal_both<D: Disk>(alloc: Global, disk: &mut D) -> Result<(), Fail>
    requires { (D.told disk.old).size ≡ 0 }
{
    let mut log = match format(alloc, disk, HEAD) {
        Ok(log) => log,
        Err(_) => return Err(Fail::new("no journal")),
    };
    let sealed = log.seal(alloc, disk, MORE);
    drop(log);
    match sealed {
        Ok(_) => Ok(()),
        Err(_) => Err(Fail::new("not sealed")),
    }
}

/// A disk of which these calls fail, after a format in the calls 1 to 4 and a seal in the calls 5 to 8.
fn sealed(alloc: Global, failing: &[u32]) -> Result<MemDisk, Fail> {
    let mut disk = disk_of(alloc, b"", failing)?;
    let sealed = seal_both(alloc, &mut disk);
    disk_sealed(disk, sealed)
}

/// How many records an image has; none where it has no journal, and 99 where it is damaged.
fn records(alloc: Global, image: &[u8]) -> Result<Option<usize>, Fail> {
    let mut disk = disk_of(alloc, image, &[])?;
    let found = match load(alloc, &mut disk) {
        Ok((log, payloads)) => {
            let count = payloads.len();
            drop(log);
            drop(payloads);
            Some(count)
        }
        Err(LoadFault::NotFormatted) => None,
        Err(_) => Some(99),
    };
    drop(disk);
    Ok(found)
}

fn records_after(alloc: Global, disk: &MemDisk, count: usize) -> Result<Option<usize>, Fail> {
    let image = disk.image_after(alloc, count)?;
    let found = records(alloc, image.bytes());
    drop(image);
    found
}

fn records_torn(
    alloc: Global,
    disk: &MemDisk,
    count: usize,
    kept: usize,
) -> Result<Option<usize>, Fail> {
    let image = disk.image_torn(alloc, count, kept)?;
    let found = records(alloc, image.bytes());
    drop(image);
    found
}

/// A write, how many of its bytes are on the disk, and the records then. The second and the fourth write are a gate.
const STOPS: [(usize, usize, Option<usize>); 13] = [
    (0, 0, None),
    (0, 1, None),
    (0, 20, None),
    (1, 0, None),
    (1, 1, Some(1)),
    (2, 0, Some(1)),
    (2, 1, Some(1)),
    (2, 5, Some(1)),
    (2, 11, Some(1)),
    (2, 99, Some(1)),
    (3, 0, Some(1)),
    (3, 1, Some(2)),
    (4, 0, Some(2)),
];

/// The first of these stops that leaves other records.
fn misleft(
    alloc: Global,
    disk: &MemDisk,
    stops: &[(usize, usize, Option<usize>)],
) -> Result<Option<(usize, usize)>, Fail> {
    for (count, kept, want) in stops {
        if records_torn(alloc, disk, *count, *kept)? != *want {
            return Ok(Some((*count, *kept)));
        }
    }
    Ok(None)
}

#[test]
fn a_stop_leaves_the_record_or_not(rt: HostRuntime) -> Result<(), Fail> {
    let disk = sealed(rt.alloc(), &[])?;
    let writes = disk.writes();
    let wrong = misleft(rt.alloc(), &disk, &STOPS);
    drop(disk);
    assert_eq!(rt; writes, 4);
    assert_eq!(rt; wrong?, None);
    Ok(())
}

fn format_fails(alloc: Global, ordinal: u32) -> Result<bool, Fail> {
    let mut disk = disk_of(alloc, b"", &[ordinal])?;
    let failed = match format(alloc, &mut disk, HEAD) {
        Ok(log) => {
            drop(log);
            false
        }
        Err(fault) => fault == SealFault::Disk,
    };
    drop(disk);
    Ok(failed)
}

/// Whether a seal fails, and the next one finds the log closed.
fn closes<D: Disk>(alloc: Global, log: &mut Log, disk: &mut D) -> bool
    requires { last_gate log.old < (D.told disk.old).size }
{
    let first = log.seal(alloc, disk, MORE);
    let next = log.seal(alloc, disk, MORE);
    first == Err(SealFault::Disk) && next == Err(SealFault::Closed)
}

/// The same behind a format.
fn closes_behind<D: Disk>(alloc: Global, disk: &mut D) -> Result<bool, Fail>
    requires { (D.told disk.old).size ≡ 0 }
{
    let mut log = match format(alloc, disk, HEAD) {
        Ok(log) => log,
        Err(_) => return Err(Fail::new("no journal")),
    };
    let is_closed = closes(alloc, &mut log, disk);
    drop(log);
    Ok(is_closed)
}

/// The records that a crash leaves at most.
fn records_left(alloc: Global, disk: MemDisk) -> Result<Option<usize>, Fail> {
    let left = records_after(alloc, &disk, 9);
    drop(disk);
    left
}

/// Whether that is so where this call fails, and the records that a crash leaves then.
fn closed_at(alloc: Global, ordinal: u32) -> Result<(bool, Option<usize>), Fail> {
    let mut disk = disk_of(alloc, b"", &[ordinal])?;
    match closes_behind(alloc, &mut disk) {
        Ok(is_closed) => Ok((is_closed, records_left(alloc, disk)?)),
        Err(fail) => {
            drop(disk);
            Err(fail)
        }
    }
}

/// The first of these calls whose failure a format does not tell.
fn unformatted(alloc: Global, ordinals: &[u32]) -> Result<Option<u32>, Fail> {
    for ordinal in ordinals {
        if !format_fails(alloc, *ordinal)? {
            return Ok(Some(*ordinal));
        }
    }
    Ok(None)
}

/// The first of these calls whose failure does not close the log, or leaves other records.
fn unclosed(alloc: Global, rows: &[(u32, usize)]) -> Result<Option<u32>, Fail> {
    for (ordinal, records) in rows {
        let (is_closed, left) = closed_at(alloc, *ordinal)?;
        if !is_closed || left != Some(*records) {
            return Ok(Some(*ordinal));
        }
    }
    Ok(None)
}

#[test]
fn a_failed_write_or_sync_closes_the_log(rt: HostRuntime) -> Result<(), Fail> {
    let unformatted = unformatted(rt.alloc(), &[1, 2, 3, 4])?;
    let unclosed = unclosed(rt.alloc(), &[(5, 1), (6, 1), (7, 1), (8, 2)])?;
    assert_eq!(rt; unformatted, None);
    assert_eq!(rt; unclosed, None);
    Ok(())
}

fn load_fails(alloc: Global, ordinal: u32) -> Result<bool, Fail> {
    let mut disk = sealed(alloc, &[ordinal])?;
    let failed = match load(alloc, &mut disk) {
        Ok((log, payloads)) => {
            drop(log);
            drop(payloads);
            false
        }
        Err(fault) => fault == LoadFault::Disk,
    };
    drop(disk);
    Ok(failed)
}

pub(crate) fn is_text(found: Result<Text, ReadFault>, bytes: &[u8]) -> bool {
    match found {
        Ok(text) => {
            let same = text.bytes() == bytes;
            drop(text);
            same
        }
        Err(_) => false,
    }
}

fn is_fault(found: Result<Text, ReadFault>) -> bool {
    match found {
        Ok(text) => {
            drop(text);
            false
        }
        Err(fault) => fault == ReadFault::Disk,
    }
}

/// Reads a part of a payload, once in a call that succeeds and once in one that fails.
fn reads_and_fails(alloc: Global) -> Result<(bool, bool), Fail> {
    let mut disk = disk_of(alloc, b"", &[10])?;
    let mut log = match format(alloc, &mut disk, HEAD) {
        Ok(log) => log,
        Err(_) => return Err(Fail::new("no journal")),
    };
    let place = match log.seal(alloc, &mut disk, MORE) {
        Ok(place) => place,
        Err(_) => return Err(Fail::new("not sealed")),
    };
    let first = is_text(log.read_at(alloc, &mut disk, place, 2, 4), b"othe");
    let next = is_fault(log.read_at(alloc, &mut disk, place, 2, 4));
    drop(log);
    drop(disk);
    Ok((first, next))
}

/// The first of these calls whose failure is not told by a load.
fn unloaded(alloc: Global, ordinals: &[u32]) -> Result<Option<u32>, Fail> {
    for ordinal in ordinals {
        if !load_fails(alloc, *ordinal)? {
            return Ok(Some(*ordinal));
        }
    }
    Ok(None)
}

#[test]
fn a_failed_read_is_told(rt: HostRuntime) -> Result<(), Fail> {
    let unloaded = unloaded(rt.alloc(), &[9, 10, 11])?;
    let (first, next) = reads_and_fails(rt.alloc())?;
    assert_eq!(rt; unloaded, None);
    assert!(rt; first);
    assert!(rt; next);
    Ok(())
}

/// 150 payloads of three bytes.
fn payloads(alloc: Global) -> Result<Texts, Fail> {
    let mut payloads = Texts::new(alloc);
    for byte in 0..150 {
        payloads.push(Text::of(alloc, &[byte; 3])?)?;
    }
    Ok(payloads)
}

/// Seals payloads in order, up to the first that is refused.
fn seal_each<D: Disk>(
    alloc: Global,
    log: &mut Log,
    disk: &mut D,
    payloads: &[Text],
) -> Result<(), SealFault>
    requires { last_gate log.old < (D.told disk.old).size }
{
    for payload in payloads {
        log.seal(alloc, disk, payload.bytes())?;
    }
    Ok(())
}

fn seal_all<D: Disk>(alloc: Global, disk: &mut D, payloads: &Texts) -> Result<(), Fail>
    requires { (D.told disk.old).size ≡ 0 }
{
    let mut log = match format(alloc, disk, HEAD) {
        Ok(log) => log,
        Err(_) => return Err(Fail::new("no journal")),
    };
    let sealed = seal_each(alloc, &mut log, disk, payloads.as_slice());
    drop(log);
    match sealed {
        Ok(()) => Ok(()),
        Err(_) => Err(Fail::new("not sealed")),
    }
}

fn sealed_all(alloc: Global, payloads: &Texts) -> Result<MemDisk, Fail> {
    let mut disk = disk_of(alloc, b"", &[])?;
    let sealed = seal_all(alloc, &mut disk, payloads);
    disk_sealed(disk, sealed)
}

/// How many writes sealed them, and how many records there are then.
fn counts(alloc: Global) -> Result<(usize, Option<usize>), Fail> {
    let payloads = payloads(alloc)?;
    let sealed = sealed_all(alloc, &payloads);
    drop(payloads);
    counts_of(alloc, sealed?)
}

fn counts_of(alloc: Global, disk: MemDisk) -> Result<(usize, Option<usize>), Fail> {
    let writes = disk.writes();
    let records = records_after(alloc, &disk, 302);
    drop(disk);
    Ok((writes, records?))
}

#[test]
fn a_list_is_sealed(rt: HostRuntime) -> Result<(), Fail> {
    let (writes, records) = counts(rt.alloc())?;
    assert_eq!(rt; writes, 302);
    assert_eq!(rt; records, Some(151));
    Ok(())
}
