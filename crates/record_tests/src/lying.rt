//! Where the texts of records lie.

use std::alloc::Global;
use std::test::Fail;
use verb_bytes::{JournalRecord, TextPlace, TextPlaces, decode_record, spell_record, text_places};

/// The text hi from joe to ann and bob.
pub(crate) fn delivery() -> &'static [u8] {
    b"\x01\x00\x00\x00\x07\x00\x00\x00\x00\x41\xde\x5d\xa0\xff\x01\x00\x00\x00\x03joe\x00\x00\x00\x02\x03ann\x03bob\x00\x00\x00\x02hi\x00"
}

/// The text hi that user 0 stores.
pub(crate) fn appended() -> &'static [u8] {
    b"\x01\x00\x00\x00\x07\x00\x00\x00\x00\x41\xde\x5d\xa0\x00\x02\x02in\x00\x00\x00\x00\x00\x41\xde\x5d\xa0\x00\x00\x00\x02hi\x06\x00"
}

/// The text hi that the operator gives to user 1.
pub(crate) fn given() -> &'static [u8] {
    b"\x02\x00\x00\x00\x08\x00\x00\x00\x00\x41\xde\x5d\xa0\x06\x01\x02in\x00\x00\x00\x02hi"
}

/// A cycle whose items 3 and 5 get a text of no bytes and hi; an alias is dropped, and user 1 is given 123.
pub(crate) fn cycle() -> &'static [u8] {
    b"\x03\x00\x00\x00\x09\x00\x00\x00\x00\x41\xde\x5d\xa0\x01k\x00\x00\x00\x00\x00\x00\x00\x01\x00\x00\x00\x04\x00\x00\x00\x02\x00\x00\x00\x03\x00\x00\x00\x00\x00\x00\x00\x05\x00\x00\x00\x02hi\x00\x00\x00\x02\x02\x01a\x06\x01\x02in\x00\x00\x00\x03123"
}

/// ann's SELECT, which has no text.
pub(crate) fn select() -> &'static [u8] {
    b"\x01\x00\x00\x00\x03\x00\x00\x00\x00\x41\xde\x5d\xa0\x00\x08\x05INBOX\x03\x01\x00\x00\x00\x00"
}

/// The bytes of a record, and where its texts lie.
pub(crate) type Lying = (&'static [u8], &'static [TextPlace]);

/// Where the texts of a record lie.
fn places(alloc: Global, what: &JournalRecord) -> Result<TextPlaces, Fail> {
    let text = spell_record(alloc, what)?;
    drop(text);
    Ok(text_places(alloc, what)?)
}

/// Whether they lie there.
fn lie(alloc: Global, what: &JournalRecord, wanted: &[TextPlace]) -> Result<bool, Fail> {
    let found = places(alloc, what)?;
    let same = found.as_slice() == wanted;
    drop(found);
    Ok(same)
}

/// The same of the record that bytes spell.
fn lie_in(alloc: Global, bytes: &[u8], wanted: &[TextPlace]) -> Result<bool, Fail> {
    match decode_record(alloc, bytes) {
        Ok(what) => {
            let told = lie(alloc, &what, wanted);
            drop(what);
            told
        }
        Err(_) => Ok(false),
    }
}

/// Whether those of each record lie where it is told.
pub(crate) fn texts_lie(alloc: Global, table: &[Lying]) -> Result<bool, Fail> {
    for (bytes, wanted) in table {
        if !lie_in(alloc, bytes, wanted)? {
            return Ok(false);
        }
    }
    Ok(true)
}

#[test]
fn texts_lie_behind_their_fields(rt: HostRuntime) -> Result<(), Fail> {
    let table: [Lying; 5] = [
        (
            delivery(),
            &[TextPlace {
                from: 38,
                length: 2,
            }],
        ),
        (
            appended(),
            &[TextPlace {
                from: 31,
                length: 2,
            }],
        ),
        (
            given(),
            &[TextPlace {
                from: 22,
                length: 2,
            }],
        ),
        (
            cycle(),
            &[
                TextPlace {
                    from: 39,
                    length: 0,
                },
                TextPlace {
                    from: 47,
                    length: 2,
                },
                TextPlace {
                    from: 65,
                    length: 3,
                },
            ],
        ),
        (select(), &[]),
    ];
    let lie = texts_lie(rt.alloc(), &table)?;
    assert!(rt; lie);
    Ok(())
}
