//! Rows of mailboxes: their places, and rows that come and go.
ghost use Rattle.std.specs.Prelude.{◌≡◌, ◌+◌, ◌≤◌, ◌<◌, IsTrue, IfOk, IfErr, OnSome, vec_len, vec_capacity};
ghost use Rattle.verb_core.specs.Boxes.{box_cmp, box_of, is_rising, row_at, add_row, drop_row};
ghost use Rattle.mail_rows.specs.Places.{IsPlace, IsGap};

use crate::room::insert_within;
use std::cmp::Ordering;
use undo_base::User;
use verb_core::{BoxId, Mailbox};

/// How a row lies to a mailbox, by user and then by name.
fn compare(row: &(BoxId, Mailbox), user: User, name: &[u8]) -> Ordering
    ensures { result ≡ box_cmp row.now.0 (box_of user name.now) }
{
    match row.0.user.0.cmp(&user.0) {
        Ordering::Less => Ordering::Less,
        Ordering::Equal => row.0.name.bytes().cmp(name),
        Ordering::Greater => Ordering::Greater,
    }
}

/// The place of the mailbox's row, or the one where it would stand.
pub fn place_of(rows: &[(BoxId, Mailbox)], user: User, name: &[u8]) -> Result<usize, usize>
    requires { IsTrue (is_rising rows.now) }
    ensures found { IfOk result (IsPlace (box_of user name.now) rows.now) }
    ensures missing { IfErr result (IsGap (box_of user name.now) rows.now) }
{
    rows.binary_search_by(|row| compare(row, user, name))
}

/// Takes a mailbox out of the rows.
pub fn take_row(rows: &mut Vec<(BoxId, Mailbox)>, user: User, name: &[u8]) -> Option<Mailbox>
    requires { IsTrue (is_rising rows.old.items) }
    ensures row { result ≡ row_at (box_of user name.now) rows.old.items }
    ensures rows { rows.new.items ≡ drop_row (box_of user name.now) rows.old.items }
    ensures len { vec_len rows.new ≤ vec_len rows.old }
    ensures fewer { OnSome result (vec_len rows.new < vec_len rows.old) }
    ensures capacity { vec_capacity rows.new ≡ vec_capacity rows.old }
{
    match place_of(rows.as_slice(), user, name) {
        Ok(place) => {
            let (_, mailbox) = rows.remove(place);
            Some(mailbox)
        }
        Err(_) => None,
    }
}

/// Puts a mailbox into the rows, in place of the one of its user and name. There is room for one more row.
pub fn put_row(rows: &mut Vec<(BoxId, Mailbox)>, id: BoxId, mailbox: Mailbox)
    requires rising { IsTrue (is_rising rows.old.items) }
    requires room { vec_len rows.old < vec_capacity rows.old }
    ensures rows { rows.new.items ≡ add_row id mailbox rows.old.items }
    ensures len { vec_len rows.new ≤ vec_len rows.old + 1 }
    ensures capacity { vec_capacity rows.old ≤ vec_capacity rows.new }
{
    match place_of(rows.as_slice(), id.user, id.name.bytes()) {
        Ok(place) => rows[place] = (id, mailbox),
        Err(place) => insert_row(rows, place, (id, mailbox)),
    }
}

/// Puts a row where it stands in order. There is room for it.
pub fn insert_row(rows: &mut Vec<(BoxId, Mailbox)>, place: usize, row: (BoxId, Mailbox))
    requires room { vec_len rows.old < vec_capacity rows.old }
    requires gap { IsGap row.0 rows.old.items place }
    ensures rows { rows.new.items ≡ add_row row.0 row.1 rows.old.items }
    ensures len { vec_len rows.new ≤ vec_len rows.old + 1 }
    ensures capacity { vec_capacity rows.old ≤ vec_capacity rows.new }
{
    insert_within(rows, place, row);
}
