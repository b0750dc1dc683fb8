//! Names in a hierarchy: each user makes a mailbox below another, renames that, and deletes it.
ghost use Rattle.std.specs.Prelude.{IfOk};
ghost use Rattle.std.specs.List.{AllByRecursion};
ghost use Rattle.verb_core.specs.Items.{IsWellFormed};

use crate::given::{Given, USERS, at_first, box_id, created, deleted, number_of, renamed};
use crate::levels::{Came, performed};
use box_store::Store;
use std::alloc::Global;
use std::test::Fail;
use std::thread::Threads;
use stored_items::StoredItem;
use undo_base::User;
use undo_outside::OpenGate;
use verb_core::{House, Shown, Way};

/// The item at a place: first the CREATE of each user, then the RENAME of each, then the DELETE of each.
fn item_at(alloc: Global, house: &House, place: u8) -> Result<StoredItem, Fail>
    ensures { IfOk result (λ item. IsWellFormed house.now item) }
{
    let number = number_of(place);
    let user = User(place % USERS);
    match place / USERS {
        0 => created(alloc, house, number, user, b"Work/x"),
        1 => renamed(alloc, house, number, user, b"Work", b"Job"),
        _ => deleted(alloc, house, number, user, b"Job"),
    }
}

/// Three items of each user, from item 2 on.
fn three_of_each(alloc: Global, house: &House) -> Result<Vec<StoredItem>, Fail>
    ensures { IfOk result (λ items. AllByRecursion (IsWellFormed house.now) items.items) }
{
    let mut items = Vec::new(alloc);
    for place in 0..3 * USERS {
        items.push(item_at(alloc, house, place)?)?;
    }
    Ok(items)
}

/// These items, performed on the store at first.
fn three_on<R: Threads + Sync>(rt: &R, alloc: Global) -> Result<Came, Fail> {
    let Given { house, store } = at_first(alloc)?;
    let items = three_of_each(alloc, &house)?;
    drop(house);
    performed(rt, alloc, store, items, &OpenGate)
}

/// Whether a user has a mailbox.
fn has(alloc: Global, store: &Store, user: u8, mailbox: &[u8]) -> Result<bool, Fail> {
    let id = box_id(alloc, user, mailbox)?;
    Ok(store.mailbox(id.user, &id.name).is_some())
}

/// Whether a user's mailboxes are right: what was made was renamed whole, and what has an inferior was not deleted.
fn names_are_right(alloc: Global, store: &Store, user: u8) -> Result<bool, Fail> {
    let old = has(alloc, store, user, b"Work")? || has(alloc, store, user, b"Work/x")?;
    let new = has(alloc, store, user, b"Job")? && has(alloc, store, user, b"Job/x")?;
    Ok(new && !old)
}

/// Whether the item at a place shows what it should.
fn shows(shown: &Shown, place: u8) -> bool {
    match shown {
        Shown::Nothing => place < USERS,
        Shown::Way(Way::Plain) => place / USERS == 1,
        Shown::Moved(keys) => place / USERS == 2 && keys.is_empty(),
        _ => false,
    }
}

/// The same of what all show.
fn shows_at(came: &Came, place: u8) -> bool {
    match came.shows.get(place as usize) {
        Some(shown) => shows(shown, place),
        None => false,
    }
}

/// Whether all is right of a user.
fn is_right(alloc: Global, came: &Came, user: u8) -> Result<bool, Fail> {
    let names = names_are_right(alloc, &came.store, user)?;
    Ok(
        names
            && shows_at(came, user)
            && shows_at(came, USERS + user % USERS)
            && shows_at(came, 2 * USERS + user % USERS),
    )
}

/// Whether all that came of the items is right: of users apart they are performed side by side, of one user one by one.
fn are_right(alloc: Global, came: &Came) -> Result<bool, Fail> {
    let mut right = came.levels == 3;
    for user in 0..USERS {
        right = is_right(alloc, came, user)? && right;
    }
    Ok(right)
}

fn trees_are_right<R: Threads + Sync>(rt: &R, alloc: Global) -> Result<bool, Fail> {
    let came = three_on(rt, alloc)?;
    let right = are_right(alloc, &came);
    drop(came);
    right
}

#[test]
fn trees_of_forty_users_are_renamed_and_stay(rt: HostRuntime) -> Result<(), Fail> {
    let right = trees_are_right(&rt, rt.alloc())?;
    assert!(rt; right);
    Ok(())
}
