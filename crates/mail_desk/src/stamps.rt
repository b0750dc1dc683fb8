//! The stamps: rows in order that are found by halves, and changed where they lie.
//!
//! The stamps are changed where they lie. Each place is found by halves, and a stamp that comes or goes shifts those behind it,
//! of later users too, within one block; of these no name is read or copied. The shift is forced by the one list in the order of
//! users and names that the sessions read (`Stamps`). More than four changes (a RENAME of a tree) are made while the stamps of
//! later users lie aside, so that each shifts the user's own alone.
ghost use Rattle.std.specs.Prelude.{◌≡◌, ◌+◌, ◌<◌, ◌≤◌, ◌∷◌, ◌++◌, [], true, insert, length, option_to_list, reverse, take_while, vec_len, vec_capacity, IfSome, IsTrue, OnOk, if◌then◌else◌};
ghost use Rattle.std.specs.List.{list_all};
ghost use Rattle.std.specs.Ordering.{eq_by_cmp};
ghost use Rattle.verb_core.specs.Boxes.{box_cmp, box_of, is_rising, row_at, has_row, add_row, drop_row};
ghost use Rattle.mail_desk.specs.Stamping.{HasSpare, all_changed, begins_with, changed, is_later, restamped, stands_before};

use crate::numbered::move_behind;
use crate::restamp::{StampChange, StampChanges};
use box_store::Move;
use shelf::insert_within;
use std::alloc::Global;
use std::cmp::Ordering;
use std::mem;
use undo_base::{Copies, Name, NoMemory, User, after};
use verb_core::{BoxId, Stamps};

/// A mailbox with its stamp.
pub(crate) type Row = (BoxId, u32);

/// Whether the row is the mailbox of that user and name.
fn is_row(row: &Row, user: User, name: &Name) -> bool
    ensures { result ≡ eq_by_cmp box_cmp (box_of user name.now) row.now.0 }
{
    user == row.0.user && name.bytes() == row.0.name.bytes()
}

/// Whether the row stands before that of the user and name.
#[tactic(auto, using(crate::proofs::Compared::behind_less, crate::proofs::Compared::behind_equal, crate::proofs::Compared::behind_greater))]
fn is_before(row: &Row, user: User, name: &Name) -> bool
    ensures { result ≡ stands_before (box_of user name.now) row.now }
{
    match user.0.cmp(&row.0.user.0) {
        Ordering::Less => false,
        Ordering::Equal => name.bytes().cmp(row.0.name.bytes()).is_gt(),
        Ordering::Greater => true,
    }
}

/// How a row lies to the mailbox of that user and name.
#[tactic(auto, using(crate::proofs::Compared::then_less, crate::proofs::Compared::then_equal, crate::proofs::Compared::then_greater))]
pub(crate) fn compare(row: &Row, user: User, name: &Name) -> Ordering
    ensures { result ≡ box_cmp row.now.0 (box_of user name.now) }
{
    match row.0.user.0.cmp(&user.0) {
        Ordering::Less => Ordering::Less,
        Ordering::Equal => row.0.name.bytes().cmp(name.bytes()),
        Ordering::Greater => Ordering::Greater,
    }
}

/// The stamp of the mailbox of that user and name, found in about as many steps as the number of rows has digits.
pub(crate) fn find_stamp(rows: &[Row], user: User, name: &Name) -> Option<u32>
    requires { IsTrue (is_rising rows.now) }
    ensures { result ≡ row_at (box_of user name.now) rows.now }
{
    match rows.binary_search_by(|row| compare(row, user, name)) {
        Ok(place) => Some(rows[place].1),
        Err(_) => None,
    }
}

/// How many rows stand before that of the user and name, found by halves.
fn place_for(rows: &[Row], user: User, name: &Name) -> usize
    requires { IsTrue (is_rising rows.now) }
    ensures { result ≡ length (take_while (stands_before (box_of user name.now)) rows.now) }
{
    rows.partition_point(|row| is_before(row, user, name))
}

/// Whether the first row is the mailbox of that user and name.
fn is_first(rows: &[Row], user: User, name: &Name) -> bool
    ensures { result ≡ begins_with (box_of user name.now) rows.now }
{
    match rows.split_first() {
        None => false,
        Some((first, _)) => is_row(first, user, name),
    }
}

/// Adds the row of a mailbox.
pub(crate) fn push_stamp(
    alloc: Global,
    stamps: &mut Stamps,
    user: User,
    name: &Name,
    number: u32,
) -> Result<(), NoMemory>
    ensures { OnOk result (stamps.new ≡ stamps.old ++ (box_of user name.now, number) ∷ []) }
{
    match name.copy(alloc) {
        Ok(name) => stamps.push((BoxId { user, name }, number)),
        Err(NoMemory) => Err(NoMemory),
    }
}

// ---- one stamp

/// Gives a mailbox the number as its stamp. There is room for a row.
#[tactic(auto, using(crate::proofs::RowPlaces::place_taken, crate::proofs::RowPlaces::place_within, crate::proofs::RowPlaces::row_set, crate::proofs::RowPlaces::row_inserted))]
fn put_row(rows: &mut Vec<Row>, id: BoxId, number: u32)
    requires rising { IsTrue (is_rising rows.old.items) }
    requires room { vec_len rows.old < vec_capacity rows.old }
    ensures rows { rows.new.items ≡ add_row id number rows.old.items }
    ensures len { vec_len rows.new ≤ vec_len rows.old + 1 }
    ensures capacity { vec_capacity rows.old ≤ vec_capacity rows.new }
{
    let place = place_for(rows.as_slice(), id.user, &id.name);
    if is_first(after(rows.as_slice(), place), id.user, &id.name) {
        rows[place] = (id, number);
    } else {
        insert_within(rows, place, (id, number));
    }
}

/// Gives a mailbox that has no stamp the number. There is room for a row.
fn make_row(rows: &mut Vec<Row>, id: BoxId, number: u32)
    requires rising { IsTrue (is_rising rows.old.items) }
    requires room { vec_len rows.old < vec_capacity rows.old }
    ensures rows { rows.new.items ≡ (if has_row id rows.old.items then rows.old.items else add_row id number rows.old.items) }
    ensures len { vec_len rows.new ≤ vec_len rows.old + 1 }
    ensures capacity { vec_capacity rows.old ≤ vec_capacity rows.new }
{
    match find_stamp(rows.as_slice(), id.user, &id.name) {
        Some(_) => drop(id),
        None => put_row(rows, id, number),
    }
}

/// Takes the stamp of a mailbox out, and tells whether it had one.
fn take_row(rows: &mut Vec<Row>, user: User, name: &Name) -> bool
    requires rising { IsTrue (is_rising rows.old.items) }
    ensures found { result ≡ has_row (box_of user name.now) rows.old.items }
    ensures rows { rows.new.items ≡ drop_row (box_of user name.now) rows.old.items }
    ensures len { vec_len rows.new ≤ vec_len rows.old }
    ensures fewer { result ≡ true → vec_len rows.new < vec_len rows.old }
    ensures capacity { vec_capacity rows.new ≡ vec_capacity rows.old }
{
    let place = place_for(rows.as_slice(), user, name);
    if is_first(after(rows.as_slice(), place), user, name) {
        rows.remove(place);
        return true;
    }
    false
}

/// Gives a mailbox another name and the number, where it has a stamp.
fn move_row(rows: &mut Vec<Row>, user: User, number: u32, moved: Move)
    requires { IsTrue (is_rising rows.old.items) }
    ensures rows { rows.new.items ≡ changed number user (StampChange.Moved moved) rows.old.items }
    ensures len { vec_len rows.new ≤ vec_len rows.old }
    ensures capacity { vec_capacity rows.old ≤ vec_capacity rows.new }
{
    let Move { from, to } = moved;
    if take_row(rows, user, &from) {
        put_row(rows, BoxId { user, name: to }, number);
    } else {
        drop(to);
    }
}

// ---- all that an item changes

/// What becomes of one stamp. There is room for a row.
fn change_row(rows: &mut Vec<Row>, user: User, number: u32, change: StampChange)
    requires rising { IsTrue (is_rising rows.old.items) }
    requires room { vec_len rows.old < vec_capacity rows.old }
    ensures rows { rows.new.items ≡ changed number user change rows.old.items }
    ensures len { vec_len rows.new ≤ vec_len rows.old + 1 }
    ensures capacity { vec_capacity rows.old ≤ vec_capacity rows.new }
{
    match change {
        StampChange::Made(name) => make_row(rows, BoxId { user, name }, number),
        StampChange::Put(name) => put_row(rows, BoxId { user, name }, number),
        StampChange::Gone(name) => {
            let _found = take_row(rows, user, &name);
        }
        StampChange::Moved(moved) => move_row(rows, user, number, moved),
    }
}

/// The same of some, one after the other.
#[tactic(auto, using(crate::proofs::RowPlaces::rising_changed))]
fn change_all(rows: &mut Vec<Row>, user: User, number: u32, changes: Vec<StampChange>)
    requires rising { IsTrue (is_rising rows.old.items) }
    requires room { vec_len rows.old + length changes.items ≤ vec_capacity rows.old }
    ensures rows { rows.new.items ≡ all_changed number user changes.items rows.old.items }
    ensures len { vec_len rows.new ≤ vec_len rows.old + length changes.items }
    ensures capacity { vec_capacity rows.old ≤ vec_capacity rows.new }
{
    for change in changes {
        change_row(rows, user, number, change);
    }
}

// ---- many changes, before the rows of later users

/// Gives the last row, where it is a later user's.
fn take_later(rows: &mut Vec<Row>, user: User) -> Option<Row>
    ensures items { rows.old.items ≡ rows.new.items ++ option_to_list result }
    ensures later { IfSome result (λ r. IsTrue (is_later user r)) }
    ensures len { vec_len rows.new + length (option_to_list result) ≡ vec_len rows.old }
    ensures capacity { vec_capacity rows.new ≡ vec_capacity rows.old }
{
    match rows.pop() {
        None => None,
        Some(row) => {
            if user.0 < row.0.user.0 {
                return Some(row);
            }
            rows.push_reserved(row);
            None
        }
    }
}

/// Sets the rows of later users aside, the last first. There is room for them.
#[tactic(auto, using(crate::proofs::LaterRows::aside_more, crate::proofs::LaterRows::later_more))]
fn set_aside(rows: &mut Vec<Row>, aside: &mut Vec<Row>, user: User)
    requires empty { aside.old.items ≡ [] }
    requires room { vec_len rows.old ≤ vec_capacity aside.old }
    ensures rows { rows.new.items ++ reverse aside.new.items ≡ rows.old.items }
    ensures later { IsTrue (list_all (is_later user) (reverse aside.new.items)) }
    ensures len { vec_len rows.new + vec_len aside.new ≡ vec_len rows.old }
    ensures capacity { vec_capacity rows.new ≡ vec_capacity rows.old }
{
    while let Some(row) = take_later(rows, user) {
        aside.push_reserved(row);
    }
}

/// Puts what was set aside behind the rows. There is room for it.
fn put_back(rows: &mut Vec<Row>, mut aside: Vec<Row>)
    requires room { vec_len rows.old + vec_len aside ≤ vec_capacity rows.old }
    ensures { rows.new.items ≡ rows.old.items ++ reverse aside.items }
{
    aside.reverse();
    move_behind(&mut aside, 0, rows);
}

/// What becomes of some stamps, while the rows of later users lie aside: each change shifts the user's own rows alone.
fn change_before(
    rows: &mut Vec<Row>,
    mut aside: Vec<Row>,
    user: User,
    number: u32,
    changes: Vec<StampChange>,
)
    requires rising { IsTrue (is_rising rows.old.items) }
    requires room { vec_len rows.old + length changes.items ≤ vec_capacity rows.old }
    requires empty { aside.items ≡ [] }
    requires aside { vec_len rows.old ≤ vec_capacity aside }
    ensures { rows.new.items ≡ all_changed number user changes.items rows.old.items }
{
    set_aside(rows, &mut aside, user);
    change_all(rows, user, number, changes);
    put_back(rows, aside);
}

/// So many changes shift the rows of later users, each for itself.
const MOST_SHIFTS: usize = 4;

/// What becomes of some stamps: where they are few, the rows of later users are shifted, and else set aside.
fn change_rows(
    rows: &mut Vec<Row>,
    aside: Vec<Row>,
    user: User,
    number: u32,
    changes: Vec<StampChange>,
)
    requires rising { IsTrue (is_rising rows.old.items) }
    requires room { vec_len rows.old + length changes.items ≤ vec_capacity rows.old }
    requires empty { aside.items ≡ [] }
    requires aside { vec_len rows.old ≤ vec_capacity aside }
    ensures { rows.new.items ≡ all_changed number user changes.items rows.old.items }
{
    if changes.len() <= MOST_SHIFTS {
        drop(aside);
        change_all(rows, user, number, changes);
    } else {
        change_before(rows, aside, user, number, changes);
    }
}

// ---- where the stamps lie

/// The rows with room for so many more, and an empty list with room for them all: where they lie, or else moved into the spare
/// list, so that theirs is empty.
fn with_room(mut rows: Vec<Row>, mut spare: Vec<Row>, count: usize) -> (Vec<Row>, Vec<Row>)
    requires empty { spare.items ≡ [] }
    requires room { length rows.items + count ≤ vec_capacity spare }
    ensures rows { result.0.items ≡ rows.items }
    ensures room { vec_len result.0 + count ≤ vec_capacity result.0 }
    ensures empty { result.1.items ≡ [] }
    ensures aside { vec_len result.0 ≤ vec_capacity result.1 }
{
    if count <= rows.capacity() - rows.len() {
        return (rows, spare);
    }
    move_behind(&mut rows, 0, &mut spare);
    (spare, rows)
}

fn change_some(stamps: &mut Stamps, changes: StampChanges)
    requires rising { IsTrue (is_rising stamps.old) }
    requires empty { changes.spare.items ≡ [] }
    requires room { length stamps.old + length changes.list.items ≤ vec_capacity changes.spare }
    ensures { stamps.new ≡ all_changed changes.number changes.user changes.list.items stamps.old }
{
    let StampChanges {
        user,
        number,
        list,
        spare,
    } = changes;
    let alloc = *spare.allocator();
    let rows = mem::replace(stamps, Stamps::new(alloc)).into_vec();
    let (mut rows, aside) = with_room(rows, spare, list.len());
    change_rows(&mut rows, aside, user, number, list);
    *stamps = Stamps::from_vec(rows);
}

/// Changes the stamps where they lie, with room in the spare list where they have none. It takes no memory.
pub(crate) fn change_stamps(stamps: &mut Stamps, changes: Option<StampChanges>)
    requires rising { IsTrue (is_rising stamps.old) }
    requires spare { HasSpare changes (length stamps.old) }
    ensures { stamps.new ≡ restamped changes stamps.old }
{
    match changes {
        Some(changes) => change_some(stamps, changes),
        None => {}
    }
}
