//! Records of a cycle, of a withdrawal, of snapshots, of a filter's scope and of an upgrade, byte for byte. Each payload stands in a
//! function of its own: a literal is dear wherever it stands.

use std::alloc::Global;
use std::test::Fail;
use verb_bytes::{BadBytes, JournalRecord, decode_record, encode_record, spell_record};

/// A byte that is changed, by its place and what it becomes, and the place that is refused then.
pub(crate) type Change = (usize, u8, usize);

/// A payload, where its fields begin, and changes by which a field is out of its range.
pub(crate) type Row = (&'static [u8], &'static [usize], &'static [Change]);

/// Number 9 at moment 1, by the key k and behind point 2: item 4 goes, item 3 has the text hi, and the filter f is dropped.
fn cycle() -> Row {
    // Changed are a moment, a key twice, a text and an act twice.
    (
        b"\x03\x00\x00\x00\x09\x00\x00\x00\x00\x00\x00\x00\x01\x01k\x00\x00\x00\x02\x00\x00\x00\x01\x00\x00\x00\x04\x00\x00\x00\x01\x00\x00\x00\x03\x00\x00\x00\x02hi\x00\x00\x00\x01\x04\x01f",
        &[0, 1, 5, 13, 15, 19, 23, 27, 31, 35, 41, 45, 46],
        &[
            (5, 1, 5),
            (13, 0, 13),
            (14, 0x7f, 13),
            (35, 1, 35),
            (45, 0, 45),
            (45, 8, 45),
        ],
    )
}

/// Ten items, the filter f that discards what has offer, and user 0's INBOX of one message, which is seen.
fn snapshot() -> Row {
    // Changed are the kind of record, an option, a user, a name, flags and a moment.
    (
        b"\x04\x00\x00\x00\x0a\x00\x00\x00\x00\x00\x00\x00\x01\x01f\x05offer\x00\x00\x00\x00\x01\x00\x05INBOX\x00\x00\x00\x00\x00\x00\x00\x02\x00\x00\x00\x01\x00\x00\x00\x00\x00\x00\x00\x01\x00\x00\x00\x02\x00\x00\x00\x00\x00\x02\x00\x00\x00\x00\x08\x00\x00\x00\x00\x41\xde\x5d\xa0",
        &[
            0, 1, 5, 9, 13, 15, 21, 22, 26, 27, 33, 41, 45, 53, 59, 63, 67, 68,
        ],
        &[
            (0, 11, 0),
            (21, 2, 21),
            (26, 200, 26),
            (27, 0, 27),
            (67, 0x20, 67),
            (68, 1, 68),
        ],
    )
}

/// The same filter of the whole text, and one of the field Subject, in a store of no mailbox.
fn scoped() -> Row {
    // Changed are a scope and the name of a field twice.
    (
        b"\x06\x00\x00\x00\x0a\x00\x00\x00\x00\x00\x00\x00\x02\x01f\x05offer\x00\x00\x01g\x03bid\x00\x01\x07Subject\x00\x00\x00\x00",
        &[0, 1, 5, 9, 13, 15, 21, 22, 23, 25, 29, 30, 31, 39],
        &[(22, 4, 22), (31, 65, 31), (38, 0x2e, 31)],
    )
}

/// The same two filters, but that the second looks at the whole text too: they are refused as a list.
fn unscoped() -> Row {
    (
        b"\x06\x00\x00\x00\x0a\x00\x00\x00\x00\x00\x00\x00\x02\x01f\x05offer\x00\x00\x01g\x03bid\x00\x00\x00\x00\x00\x00",
        &[],
        &[(0, 6, 9)],
    )
}

/// Number 2 at moment 1105092000: the filter f discards what has offer in its field Subject.
fn set() -> Row {
    // Changed are the scope and the name of its field.
    (
        b"\x02\x00\x00\x00\x02\x00\x00\x00\x00\x41\xde\x5d\xa0\x07\x01f\x05offer\x00\x01\x07Subject",
        &[0, 1, 5, 13, 14, 16, 22, 23, 24],
        &[(23, 0, 23), (24, 0, 24)],
    )
}

/// The same, of what comes from a sender that has offer in it.
fn of_senders() -> Row {
    (
        b"\x02\x00\x00\x00\x02\x00\x00\x00\x00\x41\xde\x5d\xa0\x07\x01f\x05offer\x00\x02",
        &[],
        &[],
    )
}

/// The same, of what goes to such a recipient.
fn of_recipients() -> Row {
    (
        b"\x02\x00\x00\x00\x02\x00\x00\x00\x00\x41\xde\x5d\xa0\x07\x01f\x05offer\x00\x03",
        &[],
        &[],
    )
}

/// An upgrade at that moment.
fn upgrade() -> Row {
    // Changed is its moment.
    (
        b"\x05\x00\x00\x00\x00\x41\xde\x5d\xa0",
        &[0, 1],
        &[(1, 1, 1)],
    )
}

/// Number 9 at that moment, by the key w1: the cycle 7 is withdrawn.
fn withdrawal() -> Row {
    // Changed are its moment and its key.
    (
        b"\x07\x00\x00\x00\x09\x00\x00\x00\x00\x41\xde\x5d\xa0\x02w1\x00\x00\x00\x07",
        &[0, 1, 5, 13, 16],
        &[(5, 1, 5), (14, 0x7f, 13)],
    )
}

/// Number 7 at moment 1105092000: user 0 adds Seen to the message 2 of in, which is shown done for none.
fn stored() -> Row {
    // Changed are who acted, the deed twice, how flags change, flags and twice what was shown.
    (
        b"\x01\x00\x00\x00\x07\x00\x00\x00\x00\x41\xde\x5d\xa0\x00\x04\x02in\x00\x00\x00\x01\x00\x00\x00\x02\x00\x00\x01\x08\x04\x00\x00\x00\x00",
        &[0, 1, 5, 13, 14, 15, 18, 22, 28, 29, 30, 31],
        &[
            (13, 200, 13),
            (14, 0, 14),
            (14, 14, 14),
            (28, 3, 28),
            (29, 32, 29),
            (30, 5, 30),
            (31, 1, 31),
        ],
    )
}

/// The same user's FETCH of that message, which sets Seen and is shown it with rev 0.
fn fetched() -> Row {
    // Changed is a bool.
    (
        b"\x01\x00\x00\x00\x08\x00\x00\x00\x00\x41\xde\x5d\xa0\x00\x03\x02in\x00\x00\x00\x01\x00\x00\x00\x02\x00\x00\x01\x00\x01\x00\x00\x00\x01\x00\x00\x00\x02\x00\x00\x00\x00\x00\x00",
        &[0, 1, 5, 13, 14, 15, 18, 22, 28, 29, 30, 31, 35, 41],
        &[(29, 2, 29)],
    )
}

/// The same user's RENAME of in to to.
fn renamed() -> Row {
    // Changed is how it went.
    (
        b"\x01\x00\x00\x00\x09\x00\x00\x00\x00\x41\xde\x5d\xa0\x00\x0c\x02in\x02to\x08\x00",
        &[0, 1, 5, 13, 14, 15, 18, 21, 22],
        &[(22, 3, 22)],
    )
}

/// The house m of the domain d, with one user a whose password is b, who is postmaster.
fn house() -> Row {
    // Changed is how many users there are.
    (
        b"\x00\x01m\x00\x00\x00\x01\x01d\x00\x00\x00\x02\x00\x00\x00\x01\x01a\x01b\x00\x00\x00\x00\x00",
        &[0, 1, 3, 7, 9, 13, 17, 19, 21, 22],
        &[(15, 1, 13)],
    )
}

/// Whether a record is written as these bytes, by both calls.
fn is_written(alloc: Global, what: &JournalRecord, bytes: &[u8]) -> Result<bool, Fail> {
    let text = spell_record(alloc, what)?;
    let again = encode_record(alloc, what)?;
    Ok(text.bytes() == bytes && again.bytes() == bytes)
}

/// Whether bytes are read as a record that is written as these bytes.
pub(crate) fn is_written_again(alloc: Global, bytes: &[u8]) -> Result<bool, Fail> {
    match decode_record(alloc, bytes) {
        Ok(what) => {
            let written = is_written(alloc, &what, bytes);
            drop(what);
            written
        }
        Err(_) => Ok(false),
    }
}

/// Whether each payload is.
pub(crate) fn are_written_again(alloc: Global, rows: &[Row]) -> Result<bool, Fail> {
    for (payload, _, _) in rows {
        if !is_written_again(alloc, payload)? {
            return Ok(false);
        }
    }
    Ok(true)
}

#[test]
fn what_is_read_is_written_so(rt: HostRuntime) -> Result<(), Fail> {
    let rows = [
        cycle(),
        snapshot(),
        scoped(),
        set(),
        of_senders(),
        of_recipients(),
        upgrade(),
        withdrawal(),
    ];
    let written = are_written_again(rt.alloc(), &rows)?;
    assert!(rt; written);
    Ok(())
}

/// The place that is told, and 9999 where there is no memory.
fn place_of(why: BadBytes) -> usize {
    match why {
        BadBytes::Place { place } => place,
        BadBytes::NoMemory => 9999,
    }
}

/// The place that is refused: none where the bytes spell a record, and 9999 where there is no memory.
pub(crate) fn place(alloc: Global, bytes: &[u8]) -> Option<usize> {
    match decode_record(alloc, bytes) {
        Ok(what) => {
            drop(what);
            None
        }
        Err(why) => Some(place_of(why)),
    }
}

fn last_start(fields: &[usize], end: usize) -> usize {
    let mut last = 0;
    for start in fields {
        if *start <= end {
            last = *start;
        }
    }
    last
}

/// The first length at which the front of a payload is not refused at the field that is cut.
pub(crate) fn misread_front(alloc: Global, payload: &[u8], fields: &[usize]) -> Option<usize> {
    for end in 0..payload.len() {
        if place(alloc, &payload[..end]) != Some(last_start(fields, end)) {
            return Some(end);
        }
    }
    None
}

/// The same of the first payload that has such a front.
pub(crate) fn misread(alloc: Global, rows: &[Row]) -> Option<usize> {
    for (payload, fields, _) in rows {
        if let Some(end) = misread_front(alloc, payload, fields) {
            return Some(end);
        }
    }
    None
}

// With ample memory: a cut field is never told as want of memory, whatever its kind.
#[test]
fn each_front_is_refused_at_the_field_that_is_cut(rt: HostRuntime) {
    let rows = [
        cycle(),
        snapshot(),
        scoped(),
        set(),
        upgrade(),
        withdrawal(),
        stored(),
        fetched(),
        renamed(),
        house(),
    ];
    assert_eq!(rt; misread(rt.alloc(), &rows), None);
}

/// A payload with one byte changed.
fn changed(alloc: Global, payload: &[u8], index: usize, byte: u8) -> Result<Vec<u8>, Fail> {
    let mut bytes = Vec::from_slice(alloc, payload)?;
    if let Some(here) = bytes.get_mut(index) {
        *here = byte;
    }
    Ok(bytes)
}

fn place_changed(
    alloc: Global,
    payload: &[u8],
    index: usize,
    byte: u8,
) -> Result<Option<usize>, Fail> {
    let bytes = changed(alloc, payload, index, byte)?;
    Ok(place(alloc, &bytes))
}

/// The place of the first of these bytes of a payload whose change is not refused so.
fn misread_change(
    alloc: Global,
    payload: &[u8],
    changes: &[Change],
) -> Result<Option<usize>, Fail> {
    for (index, byte, want) in changes {
        if place_changed(alloc, payload, *index, *byte)? != Some(*want) {
            return Ok(Some(*index));
        }
    }
    Ok(None)
}

/// The same of the first payload that has such a byte.
pub(crate) fn misread_changes(alloc: Global, rows: &[Row]) -> Result<Option<usize>, Fail> {
    for (payload, _, changes) in rows {
        if let Some(index) = misread_change(alloc, payload, changes)? {
            return Ok(Some(index));
        }
    }
    Ok(None)
}

// Each kind of field that is out of its range.
#[test]
fn a_field_out_of_its_range_is_refused_at_its_start(rt: HostRuntime) -> Result<(), Fail> {
    let rows = [
        cycle(),
        snapshot(),
        scoped(),
        set(),
        unscoped(),
        upgrade(),
        withdrawal(),
        stored(),
        fetched(),
        renamed(),
        house(),
    ];
    assert_eq!(rt; misread_changes(rt.alloc(), &rows)?, None);
    Ok(())
}

/// Whether each of these is refused at its place.
fn are_refused_at(alloc: Global, table: &[(&[u8], usize)]) -> bool {
    for (bytes, want) in table {
        if place(alloc, bytes) != Some(*want) {
            return false;
        }
    }
    true
}

// A byte behind the last field, a count of 4,294,967,295, and a text of 1,052,673 bytes.
#[test]
fn lengths_that_are_not_there(rt: HostRuntime) -> Result<(), Fail> {
    let table: [(&[u8], usize); 3] = [
        (
            b"\x03\x00\x00\x00\x09\x00\x00\x00\x00\x00\x00\x00\x00\x01k\x00\x00\x00\x00\x00\x00\x00\x00\x00\x00\x00\x00\x00\x00\x00\x00\x00",
            31,
        ),
        (
            b"\x03\x00\x00\x00\x09\x00\x00\x00\x00\x00\x00\x00\x00\x01k\x00\x00\x00\x00\xff\xff\xff\xff",
            23,
        ),
        (
            b"\x03\x00\x00\x00\x09\x00\x00\x00\x00\x00\x00\x00\x00\x01k\x00\x00\x00\x00\x00\x00\x00\x00\x00\x00\x00\x01\x00\x00\x00\x03\x00\x10\x10\x01a",
            31,
        ),
    ];
    let refused = are_refused_at(rt.alloc(), &table);
    assert!(rt; refused);
    Ok(())
}
