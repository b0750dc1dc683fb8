//! What an item changes of the stamps, made ahead: as much as it touches.
//!
//! What an item changes of the stamps is made ahead, as long as what it touches. A CREATE, RENAME or DELETE has a change for each
//! mailbox that comes, goes or gets a name, and every other item none. Contracts do not see what room the list of stamps has. So
//! each of these items also makes a list of twice the length, of which nothing is written unless later stamps are set aside there
//! or the stamps have no room left. Then they move there, which happens once for each doubling. A CREATE stamps each superior
//! that it makes. A RENAME gives its number to the mailbox, to each inferior under its new name, and to each superior that it
//! makes. A mailbox that is emptied and stays for its inferiors keeps its stamp.
ghost use Rattle.std.specs.Prelude.{◌≡◌, ◌≤◌, ◌+◌, ℕ, List, [], ◌∷◌, ◌++◌, length, map, vec_capacity, IfOk, OnOk, if◌then◌else◌};
ghost use Rattle.verb_core.specs.declared.mailbox.BoxId.{BoxId as TheBoxId};
ghost use Rattle.verb_core.specs.declared.mailbox.Mailbox.{Mailbox as TheMailbox};
ghost use Rattle.verb_core.specs.Boxes.{box_of, has_row};
ghost use Rattle.verb_core.specs.Names.{is_fixed as is_always_there, superiors as superiors_of, with_superiors};
ghost use Rattle.verb_core.specs.Stamps.{stamps_after};
ghost use Rattle.verb_core.specs.Step.{step_text};
ghost use Rattle.verb_core.specs.Store.{IsValid};
ghost use Rattle.box_store.specs.Plans.{move_of, moves_of};
ghost use Rattle.mail_desk.specs.Stamping.{HasSpare, all_changed, changes_by, changes_left, changes_named, changes_renamed, restamped};

use crate::stamps::Row;
use box_store::{Move, Store, moved_name};
use mail_rows::inferiors::inferiors_of;
use std::alloc::Global;
use undo_base::{Copies, Name, NoMemory, User};
use verb_core::laws::stamps_name_mailboxes;
use verb_core::{
    BoxId, Deed, Item, Mailbox, Stamps, Way, is_fixed, is_inbox, names_with_superiors,
};

/// What becomes of the stamp of a user's mailbox.
#[derive(Drop)]
pub(crate) enum StampChange {
    /// It is the item's number, where there was none.
    Made(Name),
    /// It is the item's number.
    Put(Name),
    /// It goes.
    Gone(Name),
    /// It goes, and the mailbox's new name has the item's number, where there was one.
    Moved(Move),
}

/// What an item of a number changes of its user's stamps, one after the other, and a list that has room for all stamps.
#[derive(Drop)]
pub(crate) struct StampChanges {
    pub(crate) user: User,
    pub(crate) number: u32,
    pub(crate) list: Vec<StampChange>,
    pub(crate) spare: Vec<Row>,
}

type Changes = Vec<StampChange>;

fn push_change(list: &mut Changes, change: StampChange) -> Result<(), NoMemory>
    ensures { OnOk result (list.new.items ≡ list.old.items ++ change ∷ []) }
{
    list.push(change)?;
    Ok(())
}

// ---- mailboxes that come

/// Those of names, in their order, get the number where they have no stamp.
fn push_made(list: &mut Changes, names: Vec<Name>) -> Result<(), NoMemory>
    ensures { OnOk result (list.new.items ≡ list.old.items ++ map StampChange.Made names.items) }
{
    for name in names {
        push_change(list, StampChange::Made(name))?;
    }
    Ok(())
}

/// The superiors of a name, the shortest first.
fn superiors(alloc: Global, name: &Name) -> Result<Vec<Name>, NoMemory>
    ensures { IfOk result (λ names. names.items ≡ superiors_of name.now) }
{
    let mut names = names_with_superiors(alloc, name)?.into_vec();
    names.truncate(names.len().saturating_sub(1));
    Ok(names)
}

// ---- mailboxes that move

/// A mailbox has the name that a RENAME gives it.
fn push_move(
    alloc: Global,
    list: &mut Changes,
    source: &Name,
    target: &Name,
    name: &Name,
) -> Result<(), NoMemory>
    ensures { OnOk result (list.new.items ≡ list.old.items ++ StampChange.Moved (move_of source.now target.now name.now) ∷ []) }
{
    let from = name.copy(alloc)?;
    let to = moved_name(alloc, source, target, name)?;
    push_change(list, StampChange::Moved(Move { from, to }))
}

/// The same of the mailboxes of rows.
fn push_moves(
    alloc: Global,
    list: &mut Changes,
    source: &Name,
    target: &Name,
    rows: &[(BoxId, Mailbox)],
) -> Result<(), NoMemory>
    ensures { OnOk result (list.new.items ≡ list.old.items ++ map (λ (r : TheBoxId × TheMailbox). StampChange.Moved (move_of source.now target.now r.0.name)) rows.now) }
{
    for row in rows {
        push_move(alloc, list, source, target, &row.0.name)?;
    }
    Ok(())
}

/// The source and its inferiors have the names that a RENAME gives them.
fn push_moved(
    alloc: Global,
    list: &mut Changes,
    store: &Store,
    user: User,
    source: &Name,
    target: &Name,
) -> Result<(), NoMemory>
    ensures { OnOk result (list.new.items ≡ list.old.items ++ map StampChange.Moved (moves_of user source.now target.now store.now.store.boxes)) }
{
    push_move(alloc, list, source, target, source)?;
    let inferiors = inferiors_of(store.boxes(), user, source.bytes());
    push_moves(alloc, list, source, target, inferiors)
}

/// A mailbox has a new name, below superiors that are there: INBOX leaves its mail under it.
fn push_named(
    alloc: Global,
    list: &mut Changes,
    store: &Store,
    user: User,
    source: &Name,
    target: &Name,
) -> Result<(), NoMemory>
    ensures { OnOk result (list.new.items ≡ list.old.items ++ changes_named user source.now target.now store.now.store.boxes) }
{
    if is_inbox(source.bytes()) {
        let name = target.copy(alloc)?;
        return push_change(list, StampChange::Put(name));
    }
    push_moved(alloc, list, store, user, source, target)
}

/// A mailbox has a new name, and the superiors that it lacks are made.
fn renamed(
    alloc: Global,
    store: &Store,
    user: User,
    source: &Name,
    target: &Name,
) -> Result<Changes, NoMemory>
    ensures { IfOk result (λ list. list.items ≡ map StampChange.Made (superiors_of target.now) ++ changes_named user source.now target.now store.now.store.boxes) }
{
    let mut list = Vec::new(alloc);
    push_made(&mut list, superiors(alloc, target)?)?;
    push_named(alloc, &mut list, store, user, source, target)?;
    Ok(list)
}

// ---- by deeds

fn is_there(store: &Store, user: User, name: &Name) -> bool
    ensures { result ≡ has_row (box_of user name.now) store.now.store.boxes }
{
    match store.mailbox(user, name) {
        Some(_) => true,
        None => false,
    }
}

/// Where a mailbox is left: INBOX stays, and one that has an inferior.
fn left(alloc: Global, store: &Store, user: User, source: &Name) -> Result<Changes, NoMemory>
    ensures { IfOk result (λ list. list.items ≡ changes_left user source.now store.now.store.boxes) }
{
    let mut list = Vec::new(alloc);
    if !(is_inbox(source.bytes()) || store.has_inferior(user, source)) {
        let name = source.copy(alloc)?;
        push_change(&mut list, StampChange::Gone(name))?;
    }
    Ok(list)
}

/// Where a RENAME goes a way.
fn by_rename(
    alloc: Global,
    store: &Store,
    way: Way,
    user: User,
    source: &Name,
    target: &Name,
) -> Result<Changes, NoMemory>
    ensures { IfOk result (λ list. list.items ≡ changes_renamed way user source.now target.now store.now.store.boxes) }
{
    match way {
        Way::NoSource => Ok(Vec::new(alloc)),
        Way::Merged => left(alloc, store, user, source),
        Way::Plain => renamed(alloc, store, user, source, target),
    }
}

fn by_create(alloc: Global, store: &Store, user: User, mailbox: &Name) -> Result<Changes, NoMemory>
    ensures { IfOk result (λ list. list.items ≡ (if has_row (box_of user mailbox.now) store.now.store.boxes then [] else map StampChange.Made (with_superiors mailbox.now))) }
{
    let mut list = Vec::new(alloc);
    if !is_there(store, user, mailbox) {
        push_made(&mut list, names_with_superiors(alloc, mailbox)?.into_vec())?;
    }
    Ok(list)
}

fn by_delete(alloc: Global, store: &Store, user: User, mailbox: &Name) -> Result<Changes, NoMemory>
    ensures { IfOk result (λ list. list.items ≡ (if is_always_there mailbox.now then [] else changes_left user mailbox.now store.now.store.boxes)) }
{
    if is_fixed(mailbox.bytes()) {
        return Ok(Vec::new(alloc));
    }
    left(alloc, store, user, mailbox)
}

/// What a deed changes, where it changes the names of mailboxes.
fn by_deed(alloc: Global, store: &Store, user: User, deed: &Deed) -> Result<Changes, NoMemory>
    ensures { IfOk result (λ list. list.items ≡ changes_by user deed.now store.now.store.boxes) }
{
    match deed {
        Deed::Create { mailbox } => by_create(alloc, store, user, mailbox),
        Deed::Rename { mailbox, target } => {
            let way = store.way(user, mailbox, target);
            by_rename(alloc, store, way, user, mailbox, target)
        }
        Deed::Delete { mailbox, .. } => by_delete(alloc, store, user, mailbox),
        Deed::Deliver { .. } => Ok(Vec::new(alloc)),
        Deed::Append { .. } => Ok(Vec::new(alloc)),
        Deed::Fetch { .. } => Ok(Vec::new(alloc)),
        Deed::Store { .. } => Ok(Vec::new(alloc)),
        Deed::Copy { .. } => Ok(Vec::new(alloc)),
        Deed::List { .. } => Ok(Vec::new(alloc)),
        Deed::Status { .. } => Ok(Vec::new(alloc)),
        Deed::Select { .. } => Ok(Vec::new(alloc)),
        Deed::Expunge { .. } => Ok(Vec::new(alloc)),
        Deed::Close { .. } => Ok(Vec::new(alloc)),
        Deed::Act(_) => Ok(Vec::new(alloc)),
        Deed::Notice { .. } => Ok(Vec::new(alloc)),
    }
}

// ---- with room

/// A list with room for so many rows and as many again. Nothing of it is written yet.
fn spare_for(alloc: Global, rows: usize, more: usize) -> Result<Vec<Row>, NoMemory>
    ensures empty { IfOk result (λ spare. spare.items ≡ []) }
    ensures room { IfOk result (λ spare. rows + more ≤ vec_capacity spare) }
{
    match rows.checked_add(more) {
        Some(all) => Ok(Vec::with_capacity(alloc, all.saturating_mul(2))?),
        None => Err(NoMemory),
    }
}

/// What is changed, with room for it.
fn with_spare(
    alloc: Global,
    rows: usize,
    user: User,
    number: u32,
    list: Changes,
) -> Result<Option<StampChanges>, NoMemory>
    ensures changes { IfOk result (λ changes. (stamps : List (TheBoxId × ℕ)) → restamped changes stamps ≡ all_changed number user list.items stamps) }
    ensures spare { IfOk result (λ changes. HasSpare changes rows) }
{
    if list.is_empty() {
        return Ok(None);
    }
    match spare_for(alloc, rows, list.len()) {
        Ok(spare) => Ok(Some(StampChanges {
            user,
            number,
            list,
            spare,
        })),
        Err(NoMemory) => Err(NoMemory),
    }
}

/// What an item changes of the stamps, where it changes the names of mailboxes: the same with whatever text.
pub(crate) fn stamp_changes(
    alloc: Global,
    store: &Store,
    stamps: &Stamps,
    item: &Item,
) -> Result<Option<StampChanges>, NoMemory>
    requires valid { IsValid store.now.store }
    requires named { map (λ (r : TheBoxId × ℕ). r.0) stamps.now ≡ map (λ (r : TheBoxId × TheMailbox). r.0) store.now.store.boxes }
    ensures changes { (text : List ℕ) → IfOk result (λ changes. restamped changes stamps.now ≡ stamps_after item.now.number (step_text store.now.store item.now text).0.boxes stamps.now) }
    ensures spare { IfOk result (λ changes. HasSpare changes (length stamps.now)) }
{
    stamps_name_mailboxes();
    let user = item.by.unwrap_or(User(0));
    let list = by_deed(alloc, store, user, &item.deed)?;
    with_spare(alloc, stamps.len(), user, item.number, list)
}
