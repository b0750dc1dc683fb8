//! The last note of each body, and the text that is read there; the snapshots that are kept.
ghost use Rattle.std.specs.Prelude.{◌≡◌, ◌<◌, ◌≤◌, ◌+◌};
ghost use Rattle.seal_log.specs.Log.{last_gate};

use crate::disks::disk_of;
use crate::journals::is_text;
use seal_log::{Log, Place, ReadFault, format};
use shelf::Shelf;
use std::alloc::Global;
use std::test::Fail;
use undo_base::{NoMemory, Text};
use undo_outside::Disk;
use verb_core::Body;

const SIZES: [(u32, u32, Option<u32>); 8] = [
    (2, 0, Some(21)),
    (3, 0, Some(30)),
    (3, 9, Some(7)),
    (2, 9, Some(6)),
    (5, 0, Some(50)),
    (4, 0, None),
    (5, 9, None),
    (9, 2, None),
];

fn body(origin: u32, rev: u32) -> Body {
    Body { origin, rev }
}

fn noted(alloc: Global) -> Result<Shelf, NoMemory> {
    let place = Place { gate: 0, length: 0 };
    let mut shelf = Shelf::new(alloc);
    shelf.note_room(6)?;
    shelf.note(body(2, 0), place, 0, 20);
    shelf.note(body(3, 0), place, 0, 30);
    shelf.note(body(3, 9), place, 0, 7);
    shelf.note(body(2, 9), place, 0, 6);
    shelf.note(body(5, 0), place, 0, 50);
    shelf.note(body(2, 0), place, 0, 21);
    Ok(shelf)
}

/// The place of the first of these bodies of which another size is told.
fn missized(shelf: &Shelf, sizes: &[(u32, u32, Option<u32>)]) -> Option<usize> {
    for (row, (origin, rev, want)) in sizes.iter().enumerate() {
        if shelf.size(body(*origin, *rev)) != *want {
            return Some(row);
        }
    }
    None
}

#[test]
fn the_last_note_of_each_body_is_told(rt: HostRuntime) -> Result<(), Fail> {
    let shelf = noted(rt.alloc())?;
    let missized = missized(&shelf, &SIZES);
    drop(shelf);
    assert_eq!(rt; missized, None);
    Ok(())
}

/// Reads the text of a body that is noted as four bytes of a payload, behind its first two.
fn read_noted<D: Disk>(
    alloc: Global,
    log: &Log,
    disk: &mut D,
    place: Place,
) -> Result<Result<Text, ReadFault>, NoMemory>
    requires end { last_gate log.now < (D.told disk.old).size }
    requires place { place.gate + 5 + place.length ≤ last_gate log.now }
    requires range { 6 ≤ place.length }
{
    let body = body(3, 0);
    let mut shelf = Shelf::new(alloc);
    shelf.note_room(1)?;
    shelf.note(body, place, 2, 4);
    let found = shelf.text(alloc, log, disk, body);
    drop(shelf);
    Ok(found)
}

/// Reads a part of the second payload of a journal by its note.
fn reads_where_it_is_noted(alloc: Global) -> Result<bool, Fail> {
    let mut disk = disk_of(alloc, b"", &[])?;
    let mut log = match format(alloc, &mut disk, b"the first payload") {
        Ok(log) => log,
        Err(_) => return Err(Fail::new("no journal")),
    };
    let place = match log.seal(alloc, &mut disk, b"another") {
        Ok(place) => place,
        Err(_) => return Err(Fail::new("not sealed")),
    };
    Ok(is_text(read_noted(alloc, &log, &mut disk, place)?, b"othe"))
}

#[test]
fn a_text_is_read_where_it_is_noted(rt: HostRuntime) -> Result<(), Fail> {
    let read = reads_where_it_is_noted(rt.alloc())?;
    assert!(rt; read);
    Ok(())
}

fn place(gate: u64) -> Place {
    Place { gate, length: 9 }
}

/// Snapshots after 10, 20 and 30 items, of which the one after 20 was kept again.
fn kept(alloc: Global) -> Result<Shelf, NoMemory> {
    let mut shelf = Shelf::new(alloc);
    for (position, gate) in KEPT {
        shelf.keep_room()?;
        shelf.keep(position, place(gate));
    }
    Ok(shelf)
}

const KEPT: [(u32, u64); 4] = [(10, 100), (30, 300), (20, 200), (20, 250)];

/// What is kept last of what is not behind a position.
fn newest(shelf: &Shelf, position: u32) -> Option<(u32, u64)> {
    match shelf.newest_at_or_before(position) {
        Some((at, place)) => Some((at, place.gate)),
        None => None,
    }
}

const NEWEST: [(u32, Option<(u32, u64)>); 5] = [
    (9, None),
    (10, Some((10, 100))),
    (20, Some((20, 250))),
    (29, Some((20, 250))),
    (99, Some((30, 300))),
];

/// The place of the first of these positions for which another snapshot is told.
fn misplaced(shelf: &Shelf, table: &[(u32, Option<(u32, u64)>)]) -> Option<usize> {
    for (row, (position, want)) in table.iter().enumerate() {
        if newest(shelf, *position) != *want {
            return Some(row);
        }
    }
    None
}

/// Whether that of 20 is kept last, and whether there are two marks, where those after 20 are forgotten.
fn left_behind(shelf: &mut Shelf) -> (bool, bool) {
    shelf.forget_after(20);
    let is_last = newest(shelf, 99) == Some((20, 250));
    (is_last, shelf.marks_at_or_before(99).len() == 2)
}

#[test]
fn the_newest_snapshot_is_told_and_later_ones_are_forgotten(rt: HostRuntime) -> Result<(), Fail> {
    let mut shelf = kept(rt.alloc())?;
    let misplaced = misplaced(&shelf, &NEWEST);
    let (is_last, are_two) = left_behind(&mut shelf);
    drop(shelf);
    assert_eq!(rt; misplaced, None);
    assert!(rt; is_last);
    assert!(rt; are_two);
    Ok(())
}
