//! Mailboxes found among rows by user and name, copies of rows, and a user's names.
//!
//! `live`, deliveries and each effect find a mailbox by halving the rows (`place_of`). All rows are looked through by LIST, by
//! the count of a user's mailboxes where more are asked for, and for a digest.
ghost use Rattle.std.specs.Prelude.{◌≡◌, ◌++◌, ◌∷◌, [], IsTrue, IfOk, OnOk, option_copied, if◌then◌else◌};
ghost use Rattle.verb_core.specs.Boxes.{box_of, has_row, is_rising, row_at, names_of, rows_of, same_user};
ghost use Rattle.mail_rows.specs.Inferiors.{is_earlier, rows_from};

use crate::rows::place_of;
use std::alloc::Global;
use undo_base::{Copies, Name, Names, NoMemory, User, after, before};
use verb_core::{BoxId, Mailbox, Rows};

/// The mailbox of that user and name among rows in order.
pub fn search_mailbox<'a>(
    rows: &'a [(BoxId, Mailbox)],
    user: User,
    name: &Name,
) -> Option<&'a Mailbox>
    requires { IsTrue (is_rising rows.now) }
    ensures { option_copied result ≡ row_at (box_of user name.now) rows.now }
{
    match place_of(rows, user, name.bytes()) {
        Ok(place) => Some(&rows[place].1),
        Err(_) => None,
    }
}

/// Whether the user has a mailbox of that name.
pub(crate) fn is_there(rows: &[(BoxId, Mailbox)], user: User, name: &Name) -> bool
    requires { IsTrue (is_rising rows.now) }
    ensures { result ≡ has_row (box_of user name.now) rows.now }
{
    search_mailbox(rows, user, name).is_some()
}

/// The rows from the user's first on, where he has one.
fn from_user<'a>(rows: &'a [(BoxId, Mailbox)], user: User) -> &'a [(BoxId, Mailbox)]
    requires { IsTrue (is_rising rows.now) }
    ensures { result.now ≡ rows_from (is_earlier user) rows.now }
{
    after(rows, rows.partition_point(|row| row.0.user.0 < user.0))
}

/// The user's rows among rows in order, found by halves.
pub fn rows_of<'a>(rows: &'a [(BoxId, Mailbox)], user: User) -> &'a [(BoxId, Mailbox)]
    requires { IsTrue (is_rising rows.now) }
    ensures { result.now ≡ rows_of user rows.now }
{
    let rest = from_user(rows, user);
    before(rest, rest.partition_point(|row| user == row.0.user))
}

pub fn copied_rows(alloc: Global, rows: &[(BoxId, Mailbox)]) -> Result<Rows, NoMemory>
    ensures { IfOk result (λ copies. copies ≡ rows.now) }
{
    let mut copies = Rows::new(alloc);
    for row in rows {
        copies.push(row.copy(alloc)?)?;
    }
    Ok(copies)
}

/// Adds the row's name, if the row is the user's.
fn push_name(
    alloc: Global,
    names: &mut Names,
    user: User,
    row: &(BoxId, Mailbox),
) -> Result<(), NoMemory>
    ensures { OnOk result (names.new ≡ names.old ++ (if same_user user row.now.0.user then row.now.0.name ∷ [] else [])) }
{
    if user == row.0.user {
        names.push(row.0.name.copy(alloc)?)?;
    }
    Ok(())
}

/// The user's names, in the order of the rows.
#[tactic(auto, using(crate::proofs::UserNames::names_more))]
pub fn names_in(alloc: Global, user: User, rows: &[(BoxId, Mailbox)]) -> Result<Names, NoMemory>
    ensures { IfOk result (λ names. names ≡ names_of user rows.now) }
{
    let mut names = Names::new(alloc);
    for row in rows {
        push_name(alloc, &mut names, user, row)?;
    }
    Ok(names)
}
