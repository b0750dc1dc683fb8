//! The items of one level, side by side.
ghost use Rattle.std.specs.Prelude.{◌≡◌, ◌<◌, IfOk, map};
ghost use Rattle.std.specs.List.{AllByRecursion};
ghost use Rattle.verb_core.specs.Items.{IsWellFormed};
ghost use Rattle.verb_core.specs.Store.{IsValid, MailStore};
ghost use Rattle.touch_rules.specs.Table.{touches_of};
ghost use Rattle.replay_plan.specs.Placing.{levels_of};
ghost use Rattle.replay_crew.specs.Resolving.{AreResolved, AreResolvedFrom};

use crate::gates::{Counting, Holding};
use crate::given::{
    EmptyTexts, Given, USERS, at_first, box_id, count_at_first, counted, number_of, sent,
};
use box_store::{Steps, Store};
use replay_crew::{ResolvedList, Shows, resolve, run_plan, touch_all};
use replay_plan::{Levels, plan};
use std::alloc::Global;
use std::marker::Brand;
use std::sync::ledger::{Blank, Ledger};
use std::test::Fail;
use std::thread::Threads;
use stored_items::StoredItem;
use undo_base::NoMemory;
use undo_outside::{Gate, OpenGate};
use verb_core::{House, Mailbox, Shown};

/// What came of items: in how many levels they were performed, the store, and what they show.
#[derive(Drop)]
pub(crate) struct Came {
    pub(crate) levels: usize,
    pub(crate) store: Store,
    pub(crate) shows: Shows,
}

fn resolved(
    alloc: Global,
    store: &Store,
    items: &mut Vec<StoredItem>,
) -> Result<ResolvedList, NoMemory>
    requires valid { IsValid store.now.store }
    requires formed { AllByRecursion (IsWellFormed store.now.store.house) items.old.items }
    ensures { IfOk result (λ all. AreResolvedFrom store.now.store items.new.items all) }
{
    match resolve(alloc, store, items, &mut EmptyTexts) {
        Ok(all) => Ok(all),
        Err(_) => Err(NoMemory),
    }
}

/// In which levels items are to be performed.
fn planned(alloc: Global, all: &ResolvedList) -> Result<Levels, NoMemory>
    requires { (s : MailStore) × AreResolved s all.now }
    ensures { IfOk result (λ plan. plan ≡ levels_of (map touches_of all.now)) }
{
    let touches = touch_all(alloc, all)?;
    plan(alloc, &touches)
}

/// What came of items that were resolved.
fn came_of_all<R: Threads + Sync, G: Gate, L: Ledger>(
    rt: &R,
    alloc: Global,
    store: Store,
    all: &ResolvedList,
    gate: &G,
    steps: &mut Steps<L>,
) -> Result<Came, NoMemory>
    requires valid { IsValid store.store }
    requires resolved { AreResolved store.store all.now }
{
    let plan = planned(alloc, all)?;
    match run_plan(rt, alloc, store, &plan, all, gate, steps) {
        Ok((store, shows)) => Ok(Came {
            levels: plan.len(),
            store,
            shows,
        }),
        Err(NoMemory) => Err(NoMemory),
    }
}

fn came_of<R: Threads + Sync, G: Gate, L: Ledger>(
    rt: &R,
    alloc: Global,
    store: Store,
    items: Vec<StoredItem>,
    gate: &G,
    blank: Blank,
) -> Result<Came, NoMemory>
    requires valid { IsValid store.store }
    requires formed { AllByRecursion (IsWellFormed store.store.house) items.items }
    requires name { blank.name ≡ L.name }
    requires parts { blank.parts ≡ L.parts }
    requires some { 0 < L.parts }
{
    let mut items = items;
    let mut steps: Steps<L> = Steps::new(blank);
    match resolved(alloc, &store, &mut items) {
        Ok(all) => came_of_all(rt, alloc, store, &all, gate, &mut steps),
        Err(NoMemory) => Err(NoMemory),
    }
}

/// The items performed on a store.
pub(crate) fn performed<R: Threads + Sync, G: Gate>(
    rt: &R,
    alloc: Global,
    store: Store,
    items: Vec<StoredItem>,
    gate: &G,
) -> Result<Came, Fail>
    requires valid { IsValid store.store }
    requires formed { AllByRecursion (IsWellFormed store.store.house) items.items }
{
    match came_of::<R, G, Brand>(rt, alloc, store, items, gate, Blank::new(1)) {
        Ok(came) => Ok(came),
        Err(_) => Err(Fail::new("nothing came of the items")),
    }
}

/// So many deliveries from item 2 on, each to a user of its own: user 0 and those behind.
fn sends(alloc: Global, house: &House, count: u8) -> Result<Vec<StoredItem>, Fail>
    ensures { IfOk result (λ items. AllByRecursion (IsWellFormed house.now) items.items) }
{
    let mut items = Vec::new(alloc);
    for user in 0..count {
        items.push(sent(alloc, house, user)?)?;
    }
    Ok(items)
}

/// Whether a user's mixed item is a delivery.
fn is_sent(user: u8) -> bool {
    user % 2 == 1
}

/// A user's item: a delivery for an odd number, else a count of INBOX.
fn mixed_item(alloc: Global, house: &House, user: u8) -> Result<StoredItem, Fail>
    ensures { IfOk result (λ item. IsWellFormed house.now item) }
{
    if is_sent(user) {
        return sent(alloc, house, user);
    }
    counted(alloc, house, user)
}

/// An item for each user, from item 2 on.
fn mixed(alloc: Global, house: &House) -> Result<Vec<StoredItem>, Fail>
    ensures { IfOk result (λ items. AllByRecursion (IsWellFormed house.now) items.items) }
{
    let mut items = Vec::new(alloc);
    for user in 0..USERS {
        items.push(mixed_item(alloc, house, user)?)?;
    }
    Ok(items)
}

/// Deliveries to so many users, performed on the store at first.
fn sent_to<R: Threads + Sync, G: Gate>(
    rt: &R,
    alloc: Global,
    count: u8,
    gate: &G,
) -> Result<Came, Fail> {
    let Given { house, store } = at_first(alloc)?;
    let items = sends(alloc, &house, count)?;
    drop(house);
    performed(rt, alloc, store, items, gate)
}

/// The mixed items, performed on the store at first.
fn mixed_on<R: Threads + Sync, G: Gate>(rt: &R, alloc: Global, gate: &G) -> Result<Came, Fail> {
    let Given { house, store } = at_first(alloc)?;
    let items = mixed(alloc, &house)?;
    drop(house);
    performed(rt, alloc, store, items, gate)
}

/// How many messages are in a mailbox, and which item brought the last of them.
fn counts(mailbox: &Mailbox) -> (u64, u32) {
    let count = mailbox.entries.len() as u64;
    match mailbox.entries.as_slice().last() {
        Some(entry) => (count, entry.key.item),
        None => (count, 0),
    }
}

/// The same of a user's INBOX.
fn inbox(alloc: Global, store: &Store, user: u8) -> Result<(u64, u32), Fail> {
    let id = box_id(alloc, user, b"INBOX")?;
    Ok(match store.mailbox(id.user, &id.name) {
        Some(mailbox) => counts(mailbox),
        None => (9999, 0),
    })
}

/// Whether a delivery shows nothing, and a count this.
fn shows(shown: &Shown, sends: bool, before: u64) -> bool {
    match shown {
        Shown::Nothing => sends,
        Shown::Count(Some(count)) => !sends && u64::from(*count) == before,
        _ => false,
    }
}

/// Whether a user's mixed item left the user's INBOX and shows as it should.
fn is_right(alloc: Global, came: &Came, user: u8) -> Result<bool, Fail> {
    let sends = is_sent(user);
    let before = count_at_first(user);
    let (count, last) = inbox(alloc, &came.store, user)?;
    let there = if sends {
        count == before + 1 && last == number_of(user)
    } else {
        count == before
    };
    Ok(match came.shows.get(user as usize) {
        Some(shown) => there && shows(shown, sends, before),
        None => false,
    })
}

/// Whether all that came of the mixed items is right.
fn are_right(alloc: Global, came: &Came) -> Result<bool, Fail> {
    let mut right = came.levels == 1 && came.shows.len() == USERS as usize;
    for user in 0..USERS {
        right = is_right(alloc, came, user)? && right;
    }
    Ok(right)
}

/// Whether the mixed items of forty users, one level, are right.
fn forty_are_right<R: Threads + Sync>(rt: &R, alloc: Global) -> Result<bool, Fail> {
    let came = mixed_on(rt, alloc, &OpenGate)?;
    let right = are_right(alloc, &came);
    drop(came);
    right
}

/// Whether one delivery is one level, and leaves the user's INBOX as it should.
fn one_is_right<R: Threads + Sync, G: Gate>(rt: &R, alloc: Global, gate: &G) -> Result<bool, Fail> {
    let came = sent_to(rt, alloc, 1, gate)?;
    let levels = came.levels;
    let inbox = inbox(alloc, &came.store, 0);
    drop(came);
    let inbox = inbox?;
    Ok(levels == 1 && inbox == (1, 2))
}

/// In how many levels so many deliveries were performed.
fn levels_of_sends<R: Threads + Sync, G: Gate>(
    rt: &R,
    alloc: Global,
    count: u8,
    gate: &G,
) -> Result<usize, Fail> {
    let came = sent_to(rt, alloc, count, gate)?;
    let levels = came.levels;
    drop(came);
    Ok(levels)
}

#[test]
fn two_sends_are_worked_out_side_by_side(rt: HostRuntime) -> Result<(), Fail> {
    let gate = Holding::new(2, 3);
    let levels = levels_of_sends(&rt, rt.alloc(), 2, &gate)?;
    let held = gate.held_and_saw();
    assert!(rt; levels == 1);
    assert!(rt; held);
    Ok(())
}

#[test]
fn the_first_and_the_last_of_forty_sends_are_worked_out_side_by_side(
    rt: HostRuntime,
) -> Result<(), Fail> {
    let gate = Holding::new(2, 41);
    let levels = levels_of_sends(&rt, rt.alloc(), USERS, &gate)?;
    let held = gate.held_and_saw();
    assert!(rt; levels == 1);
    assert!(rt; held);
    Ok(())
}

/// In how many levels the mixed items were performed.
fn mixed_levels<R: Threads + Sync, G: Gate>(
    rt: &R,
    alloc: Global,
    gate: &G,
) -> Result<usize, Fail> {
    let came = mixed_on(rt, alloc, gate)?;
    let levels = came.levels;
    drop(came);
    Ok(levels)
}

#[test]
fn each_item_passes_the_gate_once(rt: HostRuntime) -> Result<(), Fail> {
    let gate = Counting::new(rt.alloc(), 50)?;
    let came = mixed_levels(&rt, rt.alloc(), &gate);
    let passed = gate.passed_once(2, number_of(USERS));
    drop(gate);
    came?;
    assert!(rt; passed);
    Ok(())
}

#[test]
fn a_level_of_forty_items_is_right(rt: HostRuntime) -> Result<(), Fail> {
    let right = forty_are_right(&rt, rt.alloc())?;
    assert!(rt; right);
    Ok(())
}

#[test]
fn a_level_of_one_item_passes_too(rt: HostRuntime) -> Result<(), Fail> {
    let gate = Counting::new(rt.alloc(), 4)?;
    let right = one_is_right(&rt, rt.alloc(), &gate);
    let passed = gate.passed_once(2, 3);
    drop(gate);
    let right = right?;
    assert!(rt; right);
    assert!(rt; passed);
    Ok(())
}
