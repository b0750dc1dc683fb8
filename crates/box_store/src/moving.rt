//! Mailboxes that take other names: a row goes where its new name stands, past the rows between, and no other row moves.
//!
//! The rows of a RENAME move one after the other, each to a name that no row has. It moves past the rows between the two names
//! alone, which are all of one user. That each mailbox has its superiors is a premise of what an effect does elsewhere, as
//! `IsValid` says.
ghost use Rattle.std.specs.Prelude.{◌≡◌, ◌+◌, ◌<◌, ◌≤◌, ◌++◌, ◌∷◌, suc, length, slice_index_or, IsTrue};
ghost use Rattle.verb_core.specs.declared.mailbox.BoxId.{BoxId as TheBoxId};
ghost use Rattle.verb_core.specs.declared.mailbox.Mailbox.{Mailbox as TheMailbox};
ghost use Rattle.verb_core.specs.Boxes.{add_row, box_of, drop_row, is_rising};
ghost use Rattle.mail_rows.specs.Places.{IsGap, IsPlace};
ghost use Rattle.box_store.specs.Effects.{all_moved, row_moved};

use crate::Move;
use mail_rows::rows::{place_of, put_row, take_row};
use undo_base::{Name, Sequence, User};
use verb_core::{BoxId, Mailbox};

/// Two blocks that stand side by side change places.
fn swap_blocks<T>(items: &mut [T], from: usize, middle: usize, to: usize)
    requires front { from ≤ middle }
    requires back { middle ≤ to }
    requires within { to ≤ length items.old }
    ensures { (front one other back : _) → items.old ≡ front ++ one ++ other ++ back → length front ≡ from → from + length one ≡ middle → middle + length other ≡ to → items.new ≡ front ++ other ++ one ++ back }
{
    items[from..to].rotate_left(middle - from);
}

/// A row takes another name.
fn rename_row(rows: &mut [(BoxId, Mailbox)], place: usize, name: Name)
    requires { place < length rows.old }
    ensures { (front back : _) (r : TheBoxId × TheMailbox) → rows.old ≡ front ++ r ∷ back → length front ≡ place → rows.new ≡ front ++ (box_of r.0.user name, r.1) ∷ back }
{
    rows[place].0.name = name;
}

/// A row takes another name and comes before a later place.
fn move_behind(rows: &mut [(BoxId, Mailbox)], from: usize, to: usize, name: Name)
    requires order { from < to }
    requires within { to ≤ length rows.old }
    ensures { (front between back : _) (r : TheBoxId × TheMailbox) → rows.old ≡ front ++ r ∷ between ++ back → length front ≡ from → suc from + length between ≡ to → rows.new ≡ front ++ between ++ (box_of r.0.user name, r.1) ∷ back }
{
    rename_row(rows, from, name);
    swap_blocks(rows, from, from + 1, to);
}

/// A row takes another name and comes before a place in front of it, or stays at its own.
fn move_before(rows: &mut [(BoxId, Mailbox)], from: usize, to: usize, name: Name)
    requires order { to ≤ from }
    requires within { from < length rows.old }
    ensures { (front between back : _) (r : TheBoxId × TheMailbox) → rows.old ≡ front ++ between ++ r ∷ back → length front ≡ to → to + length between ≡ from → rows.new ≡ front ++ (box_of r.0.user name, r.1) ∷ between ++ back }
{
    rename_row(rows, from, name);
    swap_blocks(rows, to, from, from + 1);
}

/// A row takes another name and comes to the place where that would stand.
fn move_to_gap(rows: &mut [(BoxId, Mailbox)], user: User, from: usize, to: usize, name: Name)
    requires rising { IsTrue (is_rising rows.old) }
    requires within { from < length rows.old }
    requires own { (d : TheBoxId × TheMailbox) → (slice_index_or rows.old from d).0.user ≡ user }
    requires gap { IsGap (box_of user name) rows.old to }
    ensures { (d : TheBoxId × TheMailbox) → rows.new ≡ add_row (box_of user name) (slice_index_or rows.old from d).1 (drop_row (slice_index_or rows.old from d).0 rows.old) }
{
    if from < to {
        move_behind(rows, from, to, name);
    } else {
        move_before(rows, from, to, name);
    }
}

/// A mailbox takes the place of another, where it is there.
fn move_over(rows: &mut Vec<(BoxId, Mailbox)>, user: User, moved: Move)
    requires { IsTrue (is_rising rows.old.items) }
    ensures { rows.new.items ≡ row_moved user moved rows.old.items }
{
    let Move { from, to } = moved;
    match take_row(rows, user, from.bytes()) {
        None => {}
        Some(mailbox) => put_row(rows, BoxId { user, name: to }, mailbox),
    }
}

fn new_name(moved: Move) -> Name
    ensures { result ≡ moved.to }
{
    let Move { from, to } = moved;
    drop(from);
    to
}

/// The mailbox at a place takes another name.
fn move_from(rows: &mut Vec<(BoxId, Mailbox)>, user: User, place: usize, moved: Move)
    requires rising { IsTrue (is_rising rows.old.items) }
    requires place { IsPlace (box_of user moved.from) rows.old.items place }
    ensures { rows.new.items ≡ row_moved user moved rows.old.items }
{
    match place_of(rows.as_slice(), user, moved.to.bytes()) {
        Ok(_) => move_over(rows, user, moved),
        Err(gap) => move_to_gap(rows.as_mut_slice(), user, place, gap, new_name(moved)),
    }
}

/// A mailbox takes another name, where it is there. Only the rows between the two places move.
fn move_row(rows: &mut Vec<(BoxId, Mailbox)>, user: User, moved: Move)
    requires { IsTrue (is_rising rows.old.items) }
    ensures { rows.new.items ≡ row_moved user moved rows.old.items }
{
    match place_of(rows.as_slice(), user, moved.from.bytes()) {
        Ok(place) => move_from(rows, user, place, moved),
        Err(_) => {}
    }
}

/// The same of some, one after the other.
#[tactic(auto, using(crate::proofs::Renames::rising_moved))]
pub(crate) fn move_all(rows: &mut Vec<(BoxId, Mailbox)>, user: User, moves: Sequence<Move>)
    requires { IsTrue (is_rising rows.old.items) }
    ensures { rows.new.items ≡ all_moved user moves rows.old.items }
{
    for moved in moves.into_vec() {
        move_row(rows, user, moved);
    }
}
