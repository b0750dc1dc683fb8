//! Stores made of rows, and rows that are refused.
ghost use Rattle.std.specs.Prelude.{IsTrue};
ghost use Rattle.verb_core.specs.Store.{is_house};

use crate::answers::house;
use box_store::{RowsRefused, Store};
use std::alloc::Global;
use std::test::Fail;
use undo_base::{Flags, Key, Name, User};
use verb_core::{Aliases, Body, BoxId, Conf, Entries, Entry, Filters, House, Mailbox, Rows};

fn entry(uid: u64) -> Entry {
    let flags = Flags {
        answered: false,
        flagged: false,
        deleted: false,
        seen: false,
        draft: false,
    };
    Entry {
        uid,
        key: Key { item: 2, index: 0 },
        body: Body { origin: 2, rev: 0 },
        flags,
        at: 1105092000,
    }
}

fn entries(alloc: Global, uids: &[u64]) -> Result<Entries, Fail> {
    let mut entries = Vec::new(alloc);
    for uid in uids {
        entries.push(entry(*uid))?;
    }
    Ok(Entries::from_vec(entries))
}

/// A mailbox of a user, with its next UID and the UIDs of its entries.
fn row(
    alloc: Global,
    user: u8,
    mailbox: &str,
    next: u64,
    uids: &[u64],
) -> Result<(BoxId, Mailbox), Fail> {
    let name = Name::read(alloc, mailbox.as_bytes())?;
    let entries = entries(alloc, uids)?;
    let user = User(user);
    Ok((BoxId { user, name }, Mailbox { next, entries }))
}

/// A user's mailbox, its next UID and the UIDs of its entries.
type Row<'a> = (u8, &'a str, u64, &'a [u64]);

fn rows(alloc: Global, given: &[Row]) -> Result<Rows, Fail> {
    let mut rows = Rows::new(alloc);
    for (user, mailbox, next, uids) in given {
        rows.push(row(alloc, *user, mailbox, *next, uids)?)?;
    }
    Ok(rows)
}

/// How many rows the store of these has, or the place at which they are refused.
fn made(alloc: Global, house: &House, rows: Rows) -> Result<usize, usize>
    requires { IsTrue (is_house house.now) }
{
    let conf = Conf {
        aliases: Aliases::new(alloc),
        filters: Filters::new(alloc),
    };
    match Store::from_rows(alloc, house, conf, rows) {
        Ok(store) => {
            let count = store.boxes().len();
            drop(store);
            Ok(count)
        }
        Err(RowsRefused::Row { place }) => Err(place),
        Err(RowsRefused::NoMemory) => Err(9999),
    }
}

/// The same over a house of one user, or 9998 where that is not sound.
fn answer(alloc: Global, given: &[Row]) -> Result<Result<usize, usize>, Fail> {
    let rows = rows(alloc, given)?;
    let house = house(alloc, 1)?;
    let made = made_over(alloc, &house, rows);
    drop(house);
    Ok(made)
}

fn made_over(alloc: Global, house: &House, rows: Rows) -> Result<usize, usize> {
    if !house.is_sound() {
        drop(rows);
        return Err(9998);
    }
    made(alloc, house, rows)
}

/// The place of the first of these that has another answer.
fn misanswered(
    alloc: Global,
    table: &[(&[Row], Result<usize, usize>)],
) -> Result<Option<usize>, Fail> {
    for (row, (given, want)) in table.iter().enumerate() {
        if answer(alloc, given)? != *want {
            return Ok(Some(row));
        }
    }
    Ok(None)
}

#[test]
fn rows_make_a_store_or_are_refused(rt: HostRuntime) -> Result<(), Fail> {
    let table: [(&[Row], Result<usize, usize>); 12] = [
        (
            &[(0, "INBOX", 4, &[1, 3]), (0, "Lost+Found", 1, &[])],
            Ok(2),
        ),
        (&[(0, "Lost+Found", 1, &[]), (0, "INBOX", 1, &[])], Err(1)),
        (&[(0, "INBOX", 1, &[]), (0, "INBOX", 1, &[])], Err(1)),
        (
            &[
                (0, "INBOX", 1, &[]),
                (0, "Lost+Found", 1, &[]),
                (1, "INBOX", 1, &[]),
            ],
            Err(2),
        ),
        (&[(0, "INBOX", 0, &[])], Err(0)),
        (&[(0, "INBOX", 4, &[3, 3])], Err(0)),
        (&[(0, "INBOX", 4, &[0])], Err(0)),
        (&[(0, "INBOX", 4, &[1, 4])], Err(0)),
        (&[(0, "INBOX", 4, &[1, 3])], Err(1)),
        (
            &[
                (0, "INBOX", 1, &[]),
                (0, "Lost+Found", 1, &[]),
                (0, "Work", 1, &[]),
                (0, "Work-x", 1, &[]),
                (0, "Work/x", 1, &[]),
            ],
            Ok(5),
        ),
        (
            &[
                (0, "INBOX", 1, &[]),
                (0, "Lost+Found", 1, &[]),
                (0, "Work/x", 1, &[]),
            ],
            Err(2),
        ),
        (&[(0, "INBOX/x", 1, &[])], Err(0)),
    ];
    let misanswered = misanswered(rt.alloc(), &table)?;
    assert_eq!(rt; misanswered, None);
    Ok(())
}
