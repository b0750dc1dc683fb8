//! The images that a crash leaves of the honest disk, and calls that fail as listed.
ghost use Rattle.std.specs.Prelude.{◌≡◌, length, IfOk};
ghost use Rattle.undo_outside.specs.MemDiskParts.{IsNew};

use std::alloc::Global;
use std::test::Fail;
use undo_base::{Numbers, Text};
use undo_outside::{AbsentDisk, Disk, DiskFault, Failed, MemDisk};

/// A disk with these bytes, of which these calls fail.
pub(crate) fn disk_of(alloc: Global, bytes: &[u8], failing: &[u32]) -> Result<MemDisk, Fail>
    ensures { IfOk result (λ disk. IsNew disk bytes.now failing.now) }
{
    let failing = Numbers::from_vec(Vec::from_slice(alloc, failing)?);
    Ok(MemDisk::new(alloc, Text::of(alloc, bytes)?, failing))
}

/// What a disk holds after one write past its end.
fn written(alloc: Global) -> Result<MemDisk, Fail> {
    let mut disk = disk_of(alloc, b"mailbox", &[])?;
    disk.write_at(4, b"room!")?;
    Ok(disk)
}

fn has_image(alloc: Global, disk: &MemDisk, count: usize, bytes: &[u8]) -> Result<bool, Fail> {
    let image = disk.image_after(alloc, count)?;
    let same = image.bytes() == bytes;
    drop(image);
    Ok(same)
}

fn has_torn(alloc: Global, disk: &MemDisk, at: (usize, usize), bytes: &[u8]) -> Result<bool, Fail> {
    let image = disk.image_torn(alloc, at.0, at.1)?;
    let same = image.bytes() == bytes;
    drop(image);
    Ok(same)
}

/// So many writes, so many bytes of the next, and what a crash leaves there.
const LEFT: [((usize, usize), &[u8]); 4] = [
    ((0, 0), b"mailbox"),
    ((0, 2), b"mailrox"),
    ((0, 4), b"mailroom"),
    ((1, 0), b"mailroom!"),
];

/// The place of the first of these that a crash does not leave.
fn first_not_left(
    alloc: Global,
    disk: &MemDisk,
    left: &[((usize, usize), &[u8])],
) -> Result<Option<usize>, Fail> {
    for (row, (at, bytes)) in left.iter().enumerate() {
        if !has_torn(alloc, disk, *at, bytes)? {
            return Ok(Some(row));
        }
    }
    Ok(None)
}

/// How many writes there were, and the first that a crash does not leave.
fn crashed(alloc: Global) -> Result<(usize, Option<usize>), Fail> {
    let disk = written(alloc)?;
    let writes = disk.writes();
    let wrong = first_not_left(alloc, &disk, &LEFT);
    drop(disk);
    Ok((writes, wrong?))
}

#[test]
fn a_crash_leaves_a_front_of_the_write(rt: HostRuntime) -> Result<(), Fail> {
    let (writes, wrong) = crashed(rt.alloc())?;
    assert_eq!(rt; writes, 1);
    assert_eq!(rt; wrong, None);
    Ok(())
}

/// The length of a disk, through the bound alone.
fn length_of<D: Disk>(disk: &mut D) -> Result<u64, Failed> {
    disk.len()
}

/// The last byte of `mail`.
fn last_byte(disk: &mut MemDisk) -> Result<u8, Failed> {
    let mut byte = [0];
    match disk.len() {
        Ok(4) => {}
        _ => return Err(Failed),
    }
    disk.read(3, &mut byte)?;
    Ok(byte[0])
}

/// How many of these are true, up to the first that isn't.
pub(crate) fn held(all: &[bool]) -> usize {
    for (row, one) in all.iter().enumerate() {
        if !*one {
            return row;
        }
    }
    all.len()
}

/// Whether a disk's calls answer as listed, in turn; its length is told before each read.
fn reads_fail(disk: &mut MemDisk) -> [bool; 3] {
    [
        length_of(disk) == Err(Failed),
        last_byte(disk) == Err(Failed),
        last_byte(disk) == Ok(b'l'),
    ]
}

fn writes_fail(disk: &mut MemDisk) -> [bool; 4] {
    [
        disk.write_at(0, b"n") == Err(DiskFault::Failed),
        disk.write_at(0, b"n") == Ok(()),
        disk.sync() == Err(Failed),
        disk.sync() == Ok(()),
    ]
}

#[test]
fn the_listed_reads_fail(rt: HostRuntime) -> Result<(), Fail> {
    let mut disk = disk_of(rt.alloc(), b"mail", &[1, 3])?;
    let failed = reads_fail(&mut disk);
    drop(disk);
    assert_eq!(rt; held(&failed), 3);
    Ok(())
}

/// Whether the first write left nothing, and the second its byte.
fn has_images(alloc: Global, disk: &MemDisk) -> Result<[bool; 2], Fail> {
    let first = has_image(alloc, disk, 1, b"mail")?;
    Ok([first, has_image(alloc, disk, 2, b"nail")?])
}

fn writes_and_images(alloc: Global) -> Result<([bool; 4], [bool; 2]), Fail> {
    let mut disk = disk_of(alloc, b"mail", &[1, 3])?;
    let failed = writes_fail(&mut disk);
    let images = has_images(alloc, &disk);
    drop(disk);
    Ok((failed, images?))
}

#[test]
fn the_listed_writes_and_syncs_fail(rt: HostRuntime) -> Result<(), Fail> {
    let (failed, left) = writes_and_images(rt.alloc())?;
    assert_eq!(rt; held(&failed), 4);
    assert_eq!(rt; held(&left), 2);
    Ok(())
}

/// Whether each call fails.
fn all_fail(disk: &mut AbsentDisk) -> [bool; 3] {
    [
        length_of(disk) == Err(Failed),
        disk.write_at(0, b"") == Err(DiskFault::Failed),
        disk.sync() == Err(Failed),
    ]
}

#[test]
fn no_call_of_the_absent_disk_succeeds(rt: HostRuntime) {
    let mut none = AbsentDisk::new();
    let failed = all_fail(&mut none);
    assert_eq!(rt; held(&failed), 3);
}
