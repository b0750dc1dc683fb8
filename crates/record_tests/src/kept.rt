//! Records of a base, of texts of bodies and of items that are kept, byte for byte, and where their texts lie.

use crate::lying::{Lying, texts_lie};
use crate::spellings::{Row, are_written_again, is_written_again, misread, misread_changes, place};
use std::alloc::Global;
use std::test::Fail;
use verb_bytes::TextPlace;

/// The next number is 9, and names may have superiors. Users 0 and 1 have the alias t, and there is a filter of the field Subject.
/// User 0's in has one message, of the body 2 and 7, and its stamp is 1. Kept is the report of the cycle 7 by the key k: the
/// DELETE 5 of user 1 was withdrawn.
fn base() -> &'static [u8] {
    b"\x08\x00\x00\x00\x09\x01\x00\x00\x00\x01\x01t\x00\x00\x00\x02\x00\x01\x00\x00\x00\x01\x01f\x03bid\x01\x02in\x01\x07Subject\x00\x00\x00\x01\x00\x02in\x00\x00\x00\x00\x00\x00\x00\x02\x00\x00\x00\x01\x00\x00\x00\x00\x00\x00\x00\x01\x00\x00\x00\x02\x00\x00\x00\x00\x00\x02\x00\x00\x00\x07\x08\x00\x00\x00\x00A\xde\x5d\xa0\x00\x00\x00\x01\x00\x02in\x00\x00\x00\x01\x00\x00\x00\x01\x01k\x00\x00\x00\x07\x00\x00\x00\x02\x00\x00\x00\x04\x00\x00\x00\x01\x00\x00\x00\x05\x01\x0d\x01\x01m\x08\x00\x00\x00\x01\x00\x00\x00\x08\x00\x00\x00\x01\x00\x02in\x00\x00\x00\x07\x00\x00\x00\x01\x00\x00\x00\x06"
}

/// The text hi of the body 2 and 7.
pub(crate) fn text() -> &'static [u8] {
    b"\x09\x00\x00\x00\x02\x00\x00\x00\x07\x00\x00\x00\x02hi"
}

/// The item 5 with rev 7, the APPEND of hi by user 0, which went to Lost+Found.
pub(crate) fn kept() -> &'static [u8] {
    b"\x0a\x00\x00\x00\x05\x00\x00\x00\x00A\xde\x5d\xa0\x00\x00\x00\x00\x07\x02\x02in\x08\x00\x00\x00\x00A\xde\x5d\xa0\x00\x00\x00\x02hi\x06\x01"
}

/// The item 5 with rev 7: user 1 is given hi.
pub(crate) fn kept_act() -> &'static [u8] {
    b"\x0a\x00\x00\x00\x05\x00\x00\x00\x00A\xde\x5d\xa0\xff\x00\x00\x00\x07\x0e\x06\x01\x02in\x00\x00\x00\x02hi\x00"
}

/// The item 5: the notice hi to user 1.
pub(crate) fn kept_notice() -> &'static [u8] {
    b"\x0a\x00\x00\x00\x05\x00\x00\x00\x00A\xde\x5d\xa0\xff\x00\x00\x00\x00\x0f\x01\x00\x00\x00\x02hi\x00"
}

/// The item 5 with rev 7: the delivery of hi from joe to ann.
pub(crate) fn kept_delivery() -> &'static [u8] {
    b"\x0a\x00\x00\x00\x05\x00\x00\x00\x00A\xde\x5d\xa0\xff\x00\x00\x00\x07\x01\x00\x00\x00\x03joe\x00\x00\x00\x01\x03ann\x00\x00\x00\x02hi\x00"
}

/// The item 5, the FETCH of the message 2 by user 1, who was shown it with rev 7.
fn kept_fetch() -> &'static [u8] {
    b"\x0a\x00\x00\x00\x05\x00\x00\x00\x00A\xde\x5d\xa0\x01\x00\x00\x00\x00\x03\x02in\x00\x00\x00\x01\x00\x00\x00\x02\x00\x00\x01\x00\x01\x00\x00\x00\x01\x00\x00\x00\x02\x00\x00\x00\x00\x00\x07"
}

/// The item 5: the filter f discards what comes from a sender with bid.
fn kept_scoped() -> &'static [u8] {
    b"\x0a\x00\x00\x00\x05\x00\x00\x00\x00A\xde\x5d\xa0\xff\x00\x00\x00\x00\x0e\x07\x01f\x03bid\x00\x02\x00"
}

fn base_row() -> Row {
    // Changed are the kind of record, a bool, a scope, the user and the name of a mailbox, the user of a stamp, the key of a report, an
    // item's user, its verb (one below the first and one past the last), a bool, a name and who asked for what was withdrawn.
    (
        base(),
        &[
            0, 1, 5, 6, 10, 12, 16, 17, 18, 22, 24, 28, 29, 32, 33, 41, 45, 46, 49, 57, 61, 69, 75,
            79, 83, 84, 92, 96, 97, 100, 104, 108, 110, 114, 118, 122, 126, 130, 131, 132, 133,
            135, 136, 140, 144, 148, 149, 152, 156, 160,
        ],
        &[
            (0, 11, 0),
            (5, 2, 5),
            (32, 4, 32),
            (45, 200, 45),
            (46, 0, 46),
            (96, 200, 96),
            (108, 0, 108),
            (130, 200, 130),
            (131, 0, 131),
            (131, 14, 131),
            (132, 2, 132),
            (135, 9, 135),
            (148, 200, 148),
        ],
    )
}

fn text_row() -> Row {
    (text(), &[0, 1, 5, 9], &[])
}

fn kept_row() -> Row {
    // Changed are the deed (one below the first and one past the notices), the flags and what was shown.
    (
        kept(),
        &[0, 1, 5, 13, 14, 18, 19, 22, 23, 31, 37, 38],
        &[(18, 0, 18), (18, 16, 18), (22, 32, 22), (37, 0, 37)],
    )
}

fn kept_act_row() -> Row {
    // Changed are the act and what was shown.
    (
        kept_act(),
        &[0, 1, 5, 13, 14, 18, 19, 20, 21, 24, 30],
        &[(19, 8, 19), (30, 6, 30)],
    )
}

fn kept_notice_row() -> Row {
    // Changed are the notice's user and what was shown.
    (
        kept_notice(),
        &[0, 1, 5, 13, 14, 18, 19, 20, 26],
        &[(19, 200, 19), (26, 1, 26)],
    )
}

fn kept_delivery_row() -> Row {
    (
        kept_delivery(),
        &[0, 1, 5, 13, 14, 18, 19, 26, 30, 34, 40],
        &[],
    )
}

fn kept_fetch_row() -> Row {
    (
        kept_fetch(),
        &[0, 1, 5, 13, 14, 18, 19, 22, 26, 32, 33, 34, 35, 39, 45],
        &[],
    )
}

fn kept_scoped_row() -> Row {
    // Changed is the scope.
    (
        kept_scoped(),
        &[0, 1, 5, 13, 14, 18, 19, 20, 22, 26, 27, 28],
        &[(27, 0, 27)],
    )
}

/// All of them.
fn rows() -> [Row; 8] {
    [
        base_row(),
        text_row(),
        kept_row(),
        kept_act_row(),
        kept_notice_row(),
        kept_delivery_row(),
        kept_fetch_row(),
        kept_scoped_row(),
    ]
}

#[test]
fn what_is_read_is_written_so(rt: HostRuntime) -> Result<(), Fail> {
    let written = are_written_again(rt.alloc(), &rows())?;
    assert!(rt; written);
    Ok(())
}

#[test]
fn each_front_is_refused_at_the_field_that_is_cut(rt: HostRuntime) {
    assert_eq!(rt; misread(rt.alloc(), &rows()), None);
}

#[test]
fn a_field_out_of_its_range_is_refused_at_its_start(rt: HostRuntime) -> Result<(), Fail> {
    assert_eq!(rt; misread_changes(rt.alloc(), &rows())?, None);
    Ok(())
}

#[test]
fn texts_lie_behind_their_fields(rt: HostRuntime) -> Result<(), Fail> {
    let table: [Lying; 7] = [
        (
            text(),
            &[TextPlace {
                from: 13,
                length: 2,
            }],
        ),
        (
            kept(),
            &[TextPlace {
                from: 35,
                length: 2,
            }],
        ),
        (
            kept_act(),
            &[TextPlace {
                from: 28,
                length: 2,
            }],
        ),
        (
            kept_notice(),
            &[TextPlace {
                from: 24,
                length: 2,
            }],
        ),
        (
            kept_delivery(),
            &[TextPlace {
                from: 38,
                length: 2,
            }],
        ),
        (kept_fetch(), &[]),
        (base(), &[]),
    ];
    let lie = texts_lie(rt.alloc(), &table)?;
    assert!(rt; lie);
    Ok(())
}

/// A payload that begins and ends so, with so many bytes of 0 between.
fn spread(alloc: Global, front: &[u8], count: usize, back: &[u8]) -> Result<Vec<u8>, Fail> {
    let mut bytes = Vec::from_slice(alloc, front)?;
    bytes.resize(front.len().saturating_add(count), 0)?;
    bytes.extend_from_slice(back)?;
    Ok(bytes)
}

/// Whether such a payload is written again.
fn is_written_long(alloc: Global, front: &[u8], count: usize, back: &[u8]) -> Result<bool, Fail> {
    let bytes = spread(alloc, front, count, back)?;
    let written = is_written_again(alloc, &bytes);
    drop(bytes);
    written
}

/// The front of the text of 1,052,673 bytes of a body, and of one that is given by an act.
fn long_text() -> &'static [u8] {
    b"\x09\x00\x00\x00\x02\x00\x00\x00\x07\x00\x10\x10\x01"
}

fn long_act() -> &'static [u8] {
    b"\x0a\x00\x00\x00\x05\x00\x00\x00\x00A\xde\x5d\xa0\xff\x00\x00\x00\x07\x0e\x06\x01\x02in\x00\x10\x10\x01"
}

#[test]
fn texts_are_as_long_as_they_are(rt: HostRuntime) -> Result<(), Fail> {
    let body = is_written_long(rt.alloc(), long_text(), 1052673, b"")?;
    let act = is_written_long(rt.alloc(), long_act(), 1052673, b"\x00")?;
    assert!(rt; body && act);
    Ok(())
}

/// The front of 65,537 keys that an EXPUNGE left, and of as many that it lists.
fn shown() -> &'static [u8] {
    b"\x0a\x00\x00\x00\x05\x00\x00\x00\x00A\xde\x5d\xa0\x00\x00\x00\x00\x07\x09\x02in\x00\x00\x00\x00\x07\x00\x01\x00\x01"
}

fn listed() -> &'static [u8] {
    b"\x0a\x00\x00\x00\x05\x00\x00\x00\x00A\xde\x5d\xa0\x00\x00\x00\x00\x07\x09\x02in\x00\x01\x00\x01"
}

/// Where so many keys that are listed are refused.
fn place_of_listed(alloc: Global) -> Result<Option<usize>, Fail> {
    let bytes = spread(alloc, listed(), 393222, b"\x07\x00\x00\x00\x00")?;
    let found = place(alloc, &bytes);
    drop(bytes);
    Ok(found)
}

// So many keys are shown, but it lists no more of its own than one that is recorded.
#[test]
fn what_was_shown_is_as_long_as_it_is(rt: HostRuntime) -> Result<(), Fail> {
    let written = is_written_long(rt.alloc(), shown(), 393222, b"")?;
    assert!(rt; written);
    assert_eq!(rt; place_of_listed(rt.alloc())?, Some(22));
    Ok(())
}
