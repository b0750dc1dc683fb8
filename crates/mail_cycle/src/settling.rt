//! The end of a repair: what replayed items show is compared with what users were shown, users are told, and all is put together.
//!
//! The front of a timeline, through the point, is performed and its answers are not kept: nothing compares them. `settle` takes
//! the repaired items behind the beginning and what was replayed as equations, so that any other rewind or replay can stand
//! before it.
ghost use Rattle.std.specs.Prelude.{◌≡◌, ◌+◌, ◌-◌, ◌≤◌, ◌++◌, drop, length, IfOk, OnErr, OnOk};
ghost use Rattle.std.specs.List.{AllByRecursion};
ghost use Rattle.verb_core.specs.Items.{IsWellFormed};
ghost use Rattle.verb_core.specs.Step.{run, step};
ghost use Rattle.verb_core.specs.Store.{IsValid};
ghost use Rattle.store_kept.specs.Kept.{store_of};
ghost use Rattle.repair_desk.specs.Renewals.{renewed as renewed_stamps};
ghost use Rattle.cycle_rules.specs.Repairing.{renewed_by as renewed_in};
ghost use Rattle.cycle_rules.specs.Judging.{shown_after};
ghost use Rattle.mail_cycle.specs.Reaching.{AreRepairs, Settles};

use crate::judge::behind;
use crate::report::renewed_by;
use crate::running::Replayed;
use crate::showing::show;
use crate::telling::{Told, tell_users};
use crate::{Before, Due};
use box_store::{Steps, Store};
use paradox::{BrokenList, Renewals, Report};
use std::alloc::Global;
use std::sync::ledger::Ledger;
use stored_items::{StoredItem, StoredItems};
use undo_base::{NoMemory, Numbers};
use verb_core::laws::steps_keep_validity;
use verb_core::{Item, Items, Shown, Stamps};

/// What a repair leaves: the store, the place behind which all is performed anew, how many of the first items stay as they are and
/// the items in force behind them. And how many stand before its notices, the stamp of each mailbox, the next number, how many
/// items entered, acts and notices, and the report.
#[derive(Drop)]
pub struct Rewound {
    pub store: Store,
    pub place: u32,
    pub from: usize,
    pub behind: StoredItems,
    pub placed: u32,
    pub stamps: Stamps,
    pub next: u32,
    pub entered: u32,
    pub report: Report,
}

/// What is told of a repair: how many of the first items stay where they are, how many of the later items stayed, and the asked
/// numbers that did nothing.
#[derive(Drop)]
pub(crate) struct Repairs {
    pub(crate) from: usize,
    pub(crate) kept: u32,
    pub(crate) unmatched: Numbers,
}

/// Items, and notices behind them.
fn joined(alloc: Global, items: StoredItems, more: Items) -> Result<StoredItems, NoMemory>
    ensures { IfOk result (λ all. all ≡ items ++ more) }
{
    let mut items = items;
    for item in more.into_vec() {
        items.push(StoredItem::of(alloc, item))?;
    }
    Ok(items)
}

/// The items in force: the repaired ones, of which those behind the front show their answers where what they showed no longer
/// holds, and the notices.
fn in_force(
    alloc: Global,
    front: usize,
    items: StoredItems,
    now: &[Shown],
    notices: Items,
) -> Result<StoredItems, NoMemory>
    ensures { IfOk result (λ all. all ≡ shown_after front items now.now ++ notices) }
{
    match show(alloc, front, items, now) {
        Ok(items) => joined(alloc, items, notices),
        Err(NoMemory) => Err(NoMemory),
    }
}

/// Performs a notice, in one step.
fn perform<L: Ledger>(
    alloc: Global,
    store: &mut Store,
    notice: &Item,
    steps: &mut Steps<L>,
) -> Result<(), NoMemory>
    requires valid { IsValid store.old.store }
    requires formed { IsWellFormed store.old.store.house notice.now }
    ensures store { OnOk result (store.new.store ≡ (step store.old.store notice.now).0) }
    ensures valid { OnOk result (IsValid store.new.store) }
    ensures steps { OnOk result (steps.new ≡ steps.old + 1) }
    ensures no_step { OnErr result (steps.new ≡ steps.old) }
{
    steps_keep_validity();
    match store.perform(alloc, notice, notice.deed.text_bytes(), steps) {
        Ok(shown) => {
            drop(shown);
            Ok(())
        }
        Err(NoMemory) => Err(NoMemory),
    }
}

/// Performs notices, one step each.
fn perform_all<L: Ledger>(
    alloc: Global,
    store: &mut Store,
    notices: &[Item],
    steps: &mut Steps<L>,
) -> Result<(), NoMemory>
    requires valid { IsValid store.old.store }
    requires formed { AllByRecursion (IsWellFormed store.old.store.house) notices.now }
    ensures store { OnOk result (store.new.store ≡ run store.old.store notices.now) }
    ensures valid { OnOk result (IsValid store.new.store) }
    ensures steps { OnOk result (steps.new ≡ steps.old + length notices.now) }
    ensures most { OnErr result (steps.new ≤ steps.old + length notices.now) }
{
    for notice in notices {
        perform(alloc, store, notice, steps)?;
    }
    Ok(())
}

/// Performs the notices.
fn performed<L: Ledger>(
    alloc: Global,
    store: Store,
    notices: &[Item],
    steps: &mut Steps<L>,
) -> Result<Store, NoMemory>
    requires valid { IsValid store.store }
    requires formed { AllByRecursion (IsWellFormed store.store.house) notices.now }
    ensures store { IfOk result (λ made. made.store ≡ run store.store notices.now) }
    ensures valid { IfOk result (λ made. IsValid made.store) }
    ensures steps { IfOk result (λ made. steps.new ≡ steps.old + length notices.now) }
    ensures most { OnErr result (steps.new ≤ steps.old + length notices.now) }
{
    let mut store = store;
    match perform_all(alloc, &mut store, notices, steps) {
        Ok(()) => Ok(store),
        Err(NoMemory) => {
            drop(store);
            Err(NoMemory)
        }
    }
}

/// The stamps afterwards, and the mailboxes to which the repair gave one.
#[derive(Drop)]
struct NewStamps {
    stamps: Stamps,
    renewed: Renewals,
}

fn marks_of(alloc: Global, before: &Before<'_>, after: &Store) -> Result<NewStamps, NoMemory>
    ensures stamps { IfOk result (λ marks. marks.stamps ≡ renewed_stamps (store_of before.now).boxes after.now.store.boxes before.now.stamps before.now.next) }
    ensures renewed { IfOk result (λ marks. marks.renewed ≡ renewed_in before.now.next marks.stamps) }
{
    let stamps = before.renewed(alloc, after)?;
    match renewed_by(alloc, before.next(), stamps.as_slice()) {
        Ok(renewed) => Ok(NewStamps { stamps, renewed }),
        Err(NoMemory) => Err(NoMemory),
    }
}

/// The store behind the notices, and the items in force that lead to it.
#[derive(Drop)]
struct Led {
    store: Store,
    items: StoredItems,
}

/// Performs the notices, and puts them behind the items, which show what they show now where what they showed no longer holds.
/// That is all but the front, of which the last ones are the acts that come in.
fn lead<L: Ledger>(
    alloc: Global,
    front: usize,
    inserts: usize,
    replayed: Replayed,
    notices: Items,
    steps: &mut Steps<L>,
) -> Result<Led, NoMemory>
    requires valid { IsValid replayed.store.store }
    requires formed { AllByRecursion (IsWellFormed replayed.store.store.house) notices }
    ensures store { IfOk result (λ led. led.store.store ≡ run replayed.store.store notices) }
    ensures valid { IfOk result (λ led. IsValid led.store.store) }
    ensures items { IfOk result (λ led. led.items ≡ shown_after front replayed.items (drop inserts replayed.shows) ++ notices) }
    ensures steps { IfOk result (λ led. steps.new ≡ steps.old + length notices) }
    ensures most { OnErr result (steps.new ≤ steps.old + length notices) }
{
    let Replayed {
        items,
        store,
        shows,
    } = replayed;
    match performed(alloc, store, notices.as_slice(), steps) {
        Ok(store) => {
            let now = behind(shows.as_slice(), inserts);
            match in_force(alloc, front, items, now, notices) {
                Ok(items) => {
                    drop(shows);
                    Ok(Led { store, items })
                }
                Err(NoMemory) => {
                    drop(shows);
                    drop(store);
                    Err(NoMemory)
                }
            }
        }
        Err(NoMemory) => {
            drop(items);
            drop(shows);
            drop(notices);
            Err(NoMemory)
        }
    }
}

/// What is told of a repair, but for the stamps, with its place and how many of the first items stay. And how many stand before the
/// notices, the next number, and how many items entered.
#[derive(Drop)]
struct Found {
    place: u32,
    from: usize,
    placed: u32,
    next: u32,
    entered: u32,
    kept: u32,
    broken: BrokenList,
    notices: Numbers,
    unmatched: Numbers,
}

/// Puts all together, with the stamps.
fn finish(
    alloc: Global,
    before: &Before<'_>,
    point: u32,
    led: Led,
    found: Found,
) -> Result<Rewound, NoMemory>
    ensures store { IfOk result (λ made. made.store.store ≡ led.store.store) }
    ensures from { IfOk result (λ made. made.from ≡ found.from) }
    ensures behind { IfOk result (λ made. made.behind ≡ led.items) }
    ensures placed { IfOk result (λ made. made.placed ≡ found.placed) }
    ensures stamps { IfOk result (λ made. made.stamps ≡ renewed_stamps (store_of before.now).boxes made.store.store.boxes before.now.stamps before.now.next) }
    ensures place { IfOk result (λ made. made.place ≡ found.place) }
    ensures next { IfOk result (λ made. made.next ≡ found.next) }
    ensures entered { IfOk result (λ made. made.entered ≡ found.entered) }
    ensures report { IfOk result (λ made. made.report ≡ record {
      cycle = before.now.next;
      point = point;
      kept = found.kept;
      broken = found.broken;
      notices = found.notices;
      renewed = renewed_in before.now.next made.stamps;
      unmatched = found.unmatched;
    }) }
{
    match marks_of(alloc, before, &led.store) {
        Ok(marks) => Ok(Rewound {
            store: led.store,
            place: found.place,
            from: found.from,
            behind: led.items,
            placed: found.placed,
            stamps: marks.stamps,
            next: found.next,
            entered: found.entered,
            report: Report {
                cycle: before.next(),
                point,
                kept: found.kept,
                broken: found.broken,
                notices: found.notices,
                renewed: marks.renewed,
                unmatched: found.unmatched,
            },
        }),
        Err(NoMemory) => {
            drop(led);
            drop(found);
            Err(NoMemory)
        }
    }
}

/// A place in 32 bits. More than these hold find no memory.
fn short(place: usize) -> Result<u32, NoMemory>
    ensures { IfOk result (λ short. short ≡ place) }
{
    match u32::try_from(place) {
        Ok(place) => Ok(place),
        Err(_) => Err(NoMemory),
    }
}

/// How many items two counts are, in 32 bits.
fn both(first: usize, second: usize) -> Result<u32, NoMemory>
    ensures { IfOk result (λ count. count ≡ first + second) }
{
    match first.checked_add(second) {
        Some(count) => short(count),
        None => Err(NoMemory),
    }
}

/// A place, and where the notices begin behind so many of the first items and those replayed, in 32 bits.
fn places(place: usize, from: usize, replayed: usize) -> Result<(u32, u32), NoMemory>
    ensures place { IfOk result (λ places. places.0 ≡ place) }
    ensures placed { IfOk result (λ places. places.1 ≡ from + replayed) }
{
    let place = short(place)?;
    let placed = both(from, replayed)?;
    Ok((place, placed))
}

/// Puts all together by what users are told, with the notices performed. The replayed items are those behind the first so many.
fn close<L: Ledger>(
    alloc: Global,
    due: &Due<'_>,
    repairs: Repairs,
    replayed: Replayed,
    told: Told,
    steps: &mut Steps<L>,
) -> Result<Rewound, NoMemory>
    requires from { repairs.from ≤ due.now.repair.place }
    requires valid { IsValid replayed.store.store }
    requires few { length told.numbers ≤ length due.now.kept.house.accounts }
    requires formed { AllByRecursion (IsWellFormed replayed.store.store.house) told.notices }
    ensures store { IfOk result (λ made. made.store.store ≡ run replayed.store.store told.notices) }
    ensures valid { IfOk result (λ made. IsValid made.store.store) }
    ensures from { IfOk result (λ made. made.from ≡ repairs.from) }
    ensures behind { IfOk result (λ made. made.behind ≡ shown_after (due.now.repair.place + due.now.repair.acts - repairs.from) replayed.items (drop due.now.repair.acts replayed.shows) ++ told.notices) }
    ensures placed { IfOk result (λ made. made.placed ≡ repairs.from + length replayed.items) }
    ensures stamps { IfOk result (λ made. made.stamps ≡ renewed_stamps (store_of due.now.kept).boxes made.store.store.boxes due.now.kept.stamps due.now.kept.next) }
    ensures place { IfOk result (λ made. made.place ≡ due.now.repair.place) }
    ensures next { IfOk result (λ made. made.next ≡ due.now.kept.next + 1 + due.now.repair.acts + length told.numbers) }
    ensures entered { IfOk result (λ made. made.entered ≡ due.now.repair.acts + length told.numbers) }
    ensures report { IfOk result (λ made. made.report ≡ record {
      cycle = due.now.kept.next;
      point = due.now.repair.point;
      kept = repairs.kept;
      broken = told.broken;
      notices = told.numbers;
      renewed = renewed_in due.now.kept.next made.stamps;
      unmatched = repairs.unmatched;
    }) }
    ensures steps { IfOk result (λ made. steps.new ≤ steps.old + length told.notices) }
    ensures most { OnErr result (steps.new ≤ steps.old + length told.notices) }
{
    due.stands();
    let acts = due.acts();
    let front = due.front() - repairs.from;
    let entered = acts as u32 + told.numbers.len() as u32;
    match places(due.place(), repairs.from, replayed.items.len()) {
        Ok((place, placed)) => {
            let found = Found {
                place,
                from: repairs.from,
                placed,
                next: due.before().next() + 1 + entered,
                entered,
                kept: repairs.kept,
                broken: told.broken,
                notices: told.numbers,
                unmatched: repairs.unmatched,
            };
            match lead(alloc, front, acts, replayed, told.notices, steps) {
                Ok(led) => finish(alloc, due.before(), due.point(), led, found),
                Err(NoMemory) => {
                    drop(found);
                    Err(NoMemory)
                }
            }
        }
        Err(NoMemory) => {
            drop(repairs);
            drop(replayed);
            drop(told);
            Err(NoMemory)
        }
    }
}

/// What a repair leaves, from the repaired items behind a beginning as they were read, the store that they lead to and the answers
/// that those behind the place gave. That is the broken and the withdrawn items, what the broken ones show, the notices, which are
/// performed, the stamps and the report. The items before the beginning stay as they are. In time that grows as the items behind
/// the beginning, those of the timeline behind the place, and the mailboxes.
pub(crate) fn settle<L: Ledger>(
    alloc: Global,
    due: &Due<'_>,
    repairs: Repairs,
    replayed: Replayed,
    steps: &mut Steps<L>,
) -> Result<Rewound, NoMemory>
    requires repairs { AreRepairs due.now repairs }
    requires valid { IsValid replayed.store.store }
    requires house { replayed.store.store.house ≡ due.now.kept.house }
    requires long { repairs.from + length replayed.items ≡ length due.now.repair.items }
    ensures settles { Settles due.now repairs.from replayed.items replayed result }
    ensures steps { IfOk result (λ made. steps.new ≤ steps.old + length made.report.notices) }
    ensures most { OnErr result (steps.new ≤ steps.old + length due.now.kept.house.accounts) }
{
    due.stands();
    match tell_users(alloc, due, replayed.shows.as_slice()) {
        Ok(told) => close(alloc, due, repairs, replayed, told, steps),
        Err(NoMemory) => {
            drop(repairs);
            drop(replayed);
            Err(NoMemory)
        }
    }
}
