//! A repair, put together.
//!
//! Each item of the new timeline behind the beginning is performed once on a store of the cycle's own, the notices last; the
//! counter rises by their number. That beginning is the newest snapshot at or before the point, else the store before the first
//! item. The store in use is not touched.
ghost use Rattle.std.specs.Prelude.{◌≡◌, ◌+◌, ◌-◌, ◌≤◌, ◌++◌, drop, length, take, IfOk, OnErr, OnOk};
ghost use Rattle.std.specs.List.{AllByRecursion};
ghost use Rattle.verb_core.specs.Items.{IsWellFormed};
ghost use Rattle.verb_core.specs.Store.{IsValid};
ghost use Rattle.verb_core.specs.Texts.{StaysTold};
ghost use Rattle.mail_cycle.specs.Reaching.{AreRepairs, IsAtPoint, Passes, ReworksFrom, Settles};
ghost use Rattle.mail_cycle.specs.Tasks.{Begins};
ghost use Rattle.replay_crew.specs.Hearing.{CountsTextReads, TellsAll};

use crate::replaying::replay_by_levels;
use crate::running::{Replayed, replay_in_order};
use crate::settling::{Repairs, Rewound, settle};
use crate::{Beginning, Due};
use box_store::{Steps, Store};
use repair_desk::EditedBehind;
use std::alloc::Global;
use std::sync::ledger::Ledger;
use std::thread::Threads;
use stored_items::StoredItems;
use undo_base::NoMemory;
use undo_outside::Gate;
use verb_core::{Bodies, BodiesFault};

/// Items, cut behind the first so many: none is copied.
fn cut(items: StoredItems, count: usize) -> Result<(StoredItems, StoredItems), NoMemory>
    requires { count ≤ length items }
    ensures front { IfOk result (λ parts. parts.0 ≡ take count items) }
    ensures later { IfOk result (λ parts. parts.1 ≡ drop count items) }
{
    let mut front = items.into_vec();
    let later = front.split_off(count)?;
    Ok((StoredItems::from_vec(front), StoredItems::from_vec(later)))
}

/// Replayed items, with others before them: none is copied.
fn with_front(front: StoredItems, later: Replayed) -> Result<Replayed, NoMemory>
    ensures items { IfOk result (λ made. made.items ≡ front ++ later.items) }
    ensures store { IfOk result (λ made. made.store.store ≡ later.store.store) }
    ensures shows { IfOk result (λ made. made.shows ≡ later.shows) }
{
    let Replayed {
        items,
        store,
        shows,
    } = later;
    let mut all = front.into_vec();
    let mut items = items.into_vec();
    let done = all.append(&mut items);
    drop(items);
    match done {
        Ok(()) => Ok(Replayed {
            items: StoredItems::from_vec(all),
            store,
            shows,
        }),
        Err(_) => {
            drop(all);
            drop(store);
            drop(shows);
            Err(NoMemory)
        }
    }
}

/// A repair at its place: the items behind its beginning and through the place, as they were performed, and the store that they lead
/// to. And the repaired ones behind the place, and what is told of the repair.
#[derive(Drop)]
pub(crate) struct AtPoint {
    pub(crate) items: StoredItems,
    pub(crate) store: Store,
    pub(crate) later: StoredItems,
    pub(crate) repairs: Repairs,
}

/// Performs the items behind a beginning and through a place, of the repaired ones behind that beginning.
fn go_to<B: Bodies, L: Ledger>(
    alloc: Global,
    first: Beginning,
    bodies: &mut B,
    place: usize,
    edited: EditedBehind,
    steps: &mut Steps<L>,
) -> Result<AtPoint, BodiesFault>
    requires valid { IsValid first.store.store }
    requires few { first.count ≤ place }
    requires place { place - first.count ≤ length edited.items }
    requires formed { AllByRecursion (IsWellFormed first.store.store.house) edited.items }
    requires texts { TellsAll (B.told bodies.old) edited.items }
    ensures passes { IfOk result (Passes first.store.store edited.items (place - first.count) (B.told bodies.old).honest) }
    ensures from { IfOk result (λ there. there.repairs.from ≡ first.count) }
    ensures kept { IfOk result (λ there. there.repairs.kept ≡ edited.kept) }
    ensures unmatched { IfOk result (λ there. there.repairs.unmatched ≡ edited.unmatched) }
    ensures steps { OnOk result (steps.new + first.count ≡ steps.old + place) }
    ensures most { OnErr result (steps.new + first.count ≤ steps.old + place) }
    ensures reads { CountsTextReads (B.told bodies.old) (B.told bodies.new) result }
    ensures stays { StaysTold (B.told bodies.old) (B.told bodies.new) }
    ensures leads { B.leads bodies.old bodies.new }
{
    let EditedBehind {
        items,
        kept,
        unmatched,
    } = edited;
    let Beginning { store, count } = first;
    let repairs = Repairs {
        from: count,
        kept,
        unmatched,
    };
    match cut(items, place - count) {
        Ok((through, later)) => {
            match replay_in_order(alloc, store, bodies, through, place - count, steps) {
                Ok(made) => {
                    drop(made.shows);
                    Ok(AtPoint {
                        items: made.items,
                        store: made.store,
                        later,
                        repairs,
                    })
                }
                Err(fault) => {
                    drop(later);
                    drop(repairs);
                    Err(fault)
                }
            }
        }
        Err(NoMemory) => {
            drop(store);
            drop(repairs);
            Err(BodiesFault::NoMemory)
        }
    }
}

/// Repairs the timeline, and performs its items behind a beginning and through the place.
fn at_point<B: Bodies, L: Ledger>(
    alloc: Global,
    due: &Due<'_>,
    first: Beginning,
    bodies: &mut B,
    steps: &mut Steps<L>,
) -> Result<AtPoint, BodiesFault>
    requires begins { Begins due.now first }
    requires texts { TellsAll (B.told bodies.old) (drop first.count due.now.repair.items) }
    ensures there { IfOk result (IsAtPoint due.now first (B.told bodies.old) (B.told bodies.new)) }
    ensures steps { OnOk result (steps.new + first.count ≡ steps.old + due.now.repair.place) }
    ensures most { OnErr result (steps.new + first.count ≤ steps.old + due.now.repair.place) }
    ensures reads { CountsTextReads (B.told bodies.old) (B.told bodies.new) result }
    ensures stays { StaysTold (B.told bodies.old) (B.told bodies.new) }
    ensures leads { B.leads bodies.old bodies.new }
{
    due.stands();
    match due.items_behind(alloc, first.count) {
        Ok(edited) => go_to(alloc, first, bodies, due.place(), edited, steps),
        Err(NoMemory) => {
            drop(first);
            Err(BodiesFault::NoMemory)
        }
    }
}

/// Puts the items behind the place, as they were replayed, behind those through it and behind a beginning, and makes the rest of
/// what they show.
fn settled<L: Ledger>(
    alloc: Global,
    due: &Due<'_>,
    repairs: Repairs,
    front: StoredItems,
    later: Replayed,
    steps: &mut Steps<L>,
) -> Result<Rewound, NoMemory>
    requires repairs { AreRepairs due.now repairs }
    requires valid { IsValid later.store.store }
    requires house { later.store.store.house ≡ due.now.kept.house }
    requires long { repairs.from + (length front + length later.items) ≡ length due.now.repair.items }
    ensures settles { Settles due.now repairs.from (front ++ later.items) later result }
    ensures steps { IfOk result (λ made. steps.new ≤ steps.old + length made.report.notices) }
    ensures most { OnErr result (steps.new ≤ steps.old + length due.now.kept.house.accounts) }
{
    match with_front(front, later) {
        Ok(replayed) => settle(alloc, due, repairs, replayed, steps),
        Err(NoMemory) => {
            drop(repairs);
            Err(NoMemory)
        }
    }
}

/// A repair from a beginning at or before its place. The repaired items behind the beginning are performed on its store, once each.
/// Those through the place come one after the other, those behind it level by level on workers, the notices last. Each of their
/// deliveries' texts is read, once, and no other text. The items before the beginning stay where they are, and are not copied. In
/// time that grows as the items behind it, the mailboxes and these texts.
pub fn rework_by_levels<R: Threads + Sync, G: Gate, B: Bodies, L: Ledger>(
    rt: &R,
    alloc: Global,
    due: &Due<'_>,
    first: Beginning,
    bodies: &mut B,
    gate: &G,
    steps: &mut Steps<L>,
) -> Result<Rewound, BodiesFault>
    requires begins { Begins due.now first }
    requires texts { TellsAll (B.told bodies.old) (drop first.count due.now.repair.items) }
    ensures { ReworksFrom (B.leads bodies.old bodies.new) due.now first (B.told bodies.old) (B.told bodies.new) steps.old steps.new result }
{
    due.stands();
    let there = at_point(alloc, due, first, bodies, steps)?;
    let AtPoint {
        items,
        store,
        later,
        repairs,
    } = there;
    match replay_by_levels(rt, alloc, store, bodies, later, gate, steps) {
        Ok(later) => match settled(alloc, due, repairs, items, later, steps) {
            Ok(made) => Ok(made),
            Err(NoMemory) => Err(BodiesFault::NoMemory),
        },
        Err(fault) => {
            drop(items);
            drop(repairs);
            Err(fault)
        }
    }
}

/// The same where there are no workers: each item is performed after the other.
pub fn rework_in_order<B: Bodies, L: Ledger>(
    alloc: Global,
    due: &Due<'_>,
    first: Beginning,
    bodies: &mut B,
    steps: &mut Steps<L>,
) -> Result<Rewound, BodiesFault>
    requires begins { Begins due.now first }
    requires texts { TellsAll (B.told bodies.old) (drop first.count due.now.repair.items) }
    ensures { ReworksFrom (B.leads bodies.old bodies.new) due.now first (B.told bodies.old) (B.told bodies.new) steps.old steps.new result }
{
    due.stands();
    let there = at_point(alloc, due, first, bodies, steps)?;
    let AtPoint {
        items,
        store,
        later,
        repairs,
    } = there;
    match replay_in_order(alloc, store, bodies, later, 0, steps) {
        Ok(later) => match settled(alloc, due, repairs, items, later, steps) {
            Ok(made) => Ok(made),
            Err(NoMemory) => Err(BodiesFault::NoMemory),
        },
        Err(fault) => {
            drop(items);
            drop(repairs);
            Err(fault)
        }
    }
}
