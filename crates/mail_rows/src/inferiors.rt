//! The inferiors of a mailbox among rows in order: they stand side by side, and are found by halves.
//!
//! They stand from the name with `/` on, though not next to the mailbox: `Work-x` stands between `Work` and `Work/x`.
ghost use Rattle.std.specs.Prelude.{◌≡◌, ◌++◌, ◌∷◌, [], IsTrue, length, nat_lt};
ghost use Rattle.std.specs.List.{list_any};
ghost use Rattle.std.specs.Ordering.{is_lt, nat_cmp};
ghost use Rattle.std.specs.Cmp.Lexicographic.{slice_cmp};
ghost use Rattle.verb_core.specs.Boxes.{has_inferior as has_below, is_rising};
ghost use Rattle.verb_core.specs.Names.{moved_name};
ghost use Rattle.verb_core.specs.Step.{is_below_itself as below_itself, is_overlong as are_overlong};
ghost use Rattle.mail_rows.specs.Inferiors.{is_under, rows_from, rows_under, stands_first};

use crate::lookup::is_there;
use std::cmp::Ordering;
use undo_base::{MOST_NAME, Name, User, after, before};
use verb_core::{BoxId, Mailbox, is_inbox, is_inferior};

/// Whether bytes lie below those of a name with a `/` behind it.
#[tactic(auto, using(crate::proofs::Runs::begins_otherwise, crate::proofs::Runs::ends_there, crate::proofs::Runs::next_byte))]
fn lies_below(other: &[u8], name: &[u8]) -> bool
    ensures { result ≡ is_lt (slice_cmp nat_cmp other.now (name.now ++ 47 ∷ [])) }
{
    if !other.starts_with(name) {
        return other.cmp(name).is_lt();
    }
    if other.len() <= name.len() {
        return true;
    }
    other[name.len()] < b'/'
}

/// Whether a row stands before all inferiors of a user's name.
fn stands_first(row: &(BoxId, Mailbox), user: User, name: &[u8]) -> bool
    ensures { result ≡ stands_first user name.now row.now.0 }
{
    match row.0.user.0.cmp(&user.0) {
        Ordering::Less => true,
        Ordering::Equal => lies_below(row.0.name.bytes(), name),
        Ordering::Greater => false,
    }
}

/// Whether a row is a user's inferior of a name.
fn is_under(row: &(BoxId, Mailbox), user: User, name: &[u8]) -> bool
    ensures { result ≡ is_under user name.now row.now.0 }
{
    user == row.0.user && is_inferior(name, row.0.name.bytes())
}

/// The rows from the first inferior on, where there is one.
fn from_first<'a>(rows: &'a [(BoxId, Mailbox)], user: User, name: &[u8]) -> &'a [(BoxId, Mailbox)]
    requires { IsTrue (is_rising rows.now) }
    ensures { result.now ≡ rows_from (stands_first user name.now) rows.now }
{
    after(
        rows,
        rows.partition_point(|row| stands_first(row, user, name)),
    )
}

/// The rows of a user's inferiors of a name.
pub fn inferiors_of<'a>(
    rows: &'a [(BoxId, Mailbox)],
    user: User,
    name: &[u8],
) -> &'a [(BoxId, Mailbox)]
    requires { IsTrue (is_rising rows.now) }
    ensures { result.now ≡ rows_under user name.now rows.now }
{
    let rest = from_first(rows, user, name);
    before(rest, rest.partition_point(|row| is_under(row, user, name)))
}

/// Whether a user has an inferior of the name.
pub fn has_inferior(rows: &[(BoxId, Mailbox)], user: User, name: &[u8]) -> bool
    requires { IsTrue (is_rising rows.now) }
    ensures { result ≡ has_below user name.now rows.now }
{
    !inferiors_of(rows, user, name).is_empty()
}

/// Whether a RENAME would put a mailbox below itself; INBOX stays where it is.
pub fn is_below_itself(source: &[u8], target: &[u8]) -> bool
    ensures { result ≡ below_itself source.now target.now }
{
    !is_inbox(source) && is_inferior(source, target)
}

/// Whether the new name of an inferior would be too long.
fn is_too_long(source: &Name, target: &Name, name: &Name) -> bool
    ensures { result ≡ nat_lt MOST_NAME (length (moved_name source.now target.now name.now)) }
{
    let behind = name.bytes().len().saturating_sub(source.bytes().len());
    target.bytes().len() + behind > MOST_NAME
}

/// Whether the new name of one of these would be too long.
fn gets_too_long(rows: &[(BoxId, Mailbox)], source: &Name, target: &Name) -> bool
    ensures { result ≡ list_any (λ r. nat_lt MOST_NAME (length (moved_name source.now target.now r.0.name))) rows.now }
{
    rows.iter()
        .any(|row| is_too_long(source, target, &row.0.name))
}

/// Whether a RENAME to a name that is free would give an inferior too long a name; those of INBOX keep theirs.
pub fn is_overlong(rows: &[(BoxId, Mailbox)], user: User, source: &Name, target: &Name) -> bool
    requires { IsTrue (is_rising rows.now) }
    ensures { result ≡ are_overlong user source.now target.now rows.now }
{
    if is_inbox(source.bytes()) || is_there(rows, user, target) {
        return false;
    }
    gets_too_long(inferiors_of(rows, user, source.bytes()), source, target)
}
