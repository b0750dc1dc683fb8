//! Records whose texts are not read.

use crate::kept::{kept, kept_act, kept_delivery, kept_notice, text};
use crate::lying::{appended, cycle, delivery, given, select};
use std::alloc::Global;
use std::test::Fail;
use verb_bytes::{JournalRecord, TextPlace, decode_around, hole_at, spell_record};

/// Where the text of a record of so many bytes may lie, by its first bytes.
fn hole(head: &[u8], size: u32) -> Option<(u32, u32)> {
    match hole_at(head, size) {
        Some(TextPlace { from, length }) => Some((from, length)),
        None => None,
    }
}

/// A record's first bytes, how many bytes it has, and where its text may lie.
type Hole = (&'static [u8], u32, Option<(u32, u32)>);

/// Whether each hole lies where it is told.
fn holes_lie(table: &[Hole]) -> bool {
    for (head, size, want) in table {
        if hole(head, *size) != *want {
            return false;
        }
    }
    true
}

/// A whole record.
fn whole(bytes: &'static [u8], want: Option<(u32, u32)>) -> Hole {
    (bytes, u32::try_from(bytes.len()).unwrap_or(u32::MAX), want)
}

#[test]
fn holes_lie_where_texts_do(rt: HostRuntime) {
    let table = [
        whole(delivery(), Some((38, 2))),
        whole(appended(), Some((31, 2))),
        whole(given(), Some((22, 2))),
        whole(text(), Some((13, 2))),
        whole(kept(), Some((35, 2))),
        whole(kept_act(), Some((28, 2))),
        whole(kept_delivery(), Some((38, 2))),
        whole(kept_notice(), None),
        whole(cycle(), None),
        whole(select(), None),
    ];
    let lie = holes_lie(&table);
    assert!(rt; lie);
}

// The first bytes end within the text's length, and behind it. The record ends behind the text, and within it.
#[test]
fn a_hole_lies_within_its_record(rt: HostRuntime) {
    let table: [Hole; 4] = [
        (
            b"\x09\x00\x00\x00\x02\x00\x00\x00\x07\x00\x00\x00",
            15,
            None,
        ),
        (
            b"\x09\x00\x00\x00\x02\x00\x00\x00\x07\x00\x00\x00\x02",
            15,
            Some((13, 2)),
        ),
        (text(), 16, Some((13, 2))),
        (text(), 14, None),
    ];
    let lie = holes_lie(&table);
    assert!(rt; lie);
}

/// How many bytes a record is written as.
fn spelled(alloc: Global, what: &JournalRecord) -> Result<usize, Fail> {
    let text = spell_record(alloc, what)?;
    let length = text.bytes().len();
    drop(text);
    Ok(length)
}

/// The same of the record that the bytes around a text of so many bytes spell, written with an empty text; 0 where there is none.
fn written(alloc: Global, front: &[u8], count: u32, back: &[u8]) -> Result<usize, Fail> {
    match decode_around(alloc, front, count, back) {
        Some(what) => {
            let length = spelled(alloc, &what);
            drop(what);
            length
        }
        None => Ok(0),
    }
}

/// What stands before a text, how many bytes that has, what stands behind it, and how many bytes the record has without it.
type Around = (&'static [u8], u32, &'static [u8], usize);

/// Whether each is read and written so.
fn are_read(alloc: Global, table: &[Around]) -> Result<bool, Fail> {
    for (front, count, back, want) in table {
        if written(alloc, front, *count, back)? != *want {
            return Ok(false);
        }
    }
    Ok(true)
}

/// A body's text, user 1 who is given one, and that act where it is kept.
fn body() -> &'static [u8] {
    b"\x09\x00\x00\x00\x02\x00\x00\x00\x07"
}

fn gift() -> &'static [u8] {
    b"\x02\x00\x00\x00\x08\x00\x00\x00\x00\x41\xde\x5d\xa0\x06\x01\x02in"
}

fn kept_gift() -> &'static [u8] {
    b"\x0a\x00\x00\x00\x05\x00\x00\x00\x00A\xde\x5d\xa0\xff\x00\x00\x00\x07\x0e\x06\x01\x02in"
}

// Of two bytes, of as many as each may have, and of one more. What is behind the text is one byte too much, and one too few. The front
// ends one byte early.
#[test]
fn what_is_around_a_text_is_read(rt: HostRuntime) -> Result<(), Fail> {
    let table: [Around; 9] = [
        (body(), 2, b"", 13),
        (body(), 4294967295, b"", 13),
        (gift(), 2, b"", 22),
        (gift(), 1052672, b"", 22),
        (gift(), 1052673, b"", 0),
        (gift(), 2, b"\x00", 0),
        (kept_gift(), 2, b"\x00", 29),
        (kept_gift(), 2, b"", 0),
        (b"\x09\x00\x00\x00\x02\x00\x00\x00", 2, b"", 0),
    ];
    let read = are_read(rt.alloc(), &table)?;
    assert!(rt; read);
    Ok(())
}
