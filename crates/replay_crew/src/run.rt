//! The items of a plan, performed level by level.
ghost use Rattle.std.specs.Prelude.{◌≡◌, ◌≤◌, ◌+◌, List, map, length, IfOk, OnErr, OnOk, slice_set, vec_len};
ghost use Rattle.std.specs.List.{enumerate_from};
ghost use Rattle.verb_core.specs.declared.item.Item.{Item};
ghost use Rattle.verb_core.specs.Step.{answers, run};
ghost use Rattle.verb_core.specs.Store.{IsValid};
ghost use Rattle.box_store.specs.Effects.{applied};
ghost use Rattle.touch_rules.specs.Table.{touches_of};
ghost use Rattle.replay_plan.specs.Placing.{levels_of};
ghost use Rattle.replay_crew.specs.Orders.{levels_at, run_levels, run_turns, told_by_levels};
ghost use Rattle.replay_crew.specs.Resolving.{AreResolved, AreResolvedFrom, turn_of};
ghost use Rattle.replay_crew.specs.Working.{AreLevels, IsLevel, answers_on, applied_each, level_of, put_each, shown_at};

use crate::level::make_level;
use crate::made::Made;
use crate::{ResolvedList, Shows};
use box_store::{Effect, Steps, Store};
use replay_plan::Levels;
use std::alloc::Global;
use std::sync::ledger::Ledger;
use std::thread::Threads;
use undo_base::NoMemory;
use undo_outside::Gate;
use verb_core::{Resolved, Shown};

/// Does an effect, in one step.
fn apply_one<L: Ledger>(
    alloc: Global,
    store: &mut Store,
    effect: Effect,
    steps: &mut Steps<L>,
) -> Result<Shown, NoMemory>
    ensures store { OnOk result (store.new.store ≡ applied effect store.old.store) }
    ensures shown { IfOk result (λ shown. shown ≡ effect.shown) }
    ensures step { OnOk result (steps.new ≡ steps.old + 1) }
    ensures no_step { OnErr result (steps.new ≡ steps.old) }
{
    store.reserve(alloc, &effect)?;
    Ok(store.apply(effect, steps))
}

/// Does what an item does, in one step, and puts what it shows at its place.
fn apply_made<L: Ledger>(
    alloc: Global,
    store: &mut Store,
    made: Made,
    shows: &mut Vec<Shown>,
    steps: &mut Steps<L>,
) -> Result<(), NoMemory>
    ensures store { OnOk result (store.new.store ≡ applied made.effect store.old.store) }
    ensures shows { OnOk result (shows.new.items ≡ slice_set shows.old.items made.place made.effect.shown) }
    ensures step { OnOk result (steps.new ≡ steps.old + 1) }
    ensures no_step { OnErr result (steps.new ≡ steps.old) }
{
    let (place, effect) = made.parts();
    let shown = apply_one(alloc, store, effect, steps)?;
    if let Some(slot) = shows.get_mut(place as usize) {
        *slot = shown;
    }
    Ok(())
}

/// Does what each of these does, in order and one step each, and puts what they show at their places.
fn apply_each<L: Ledger>(
    alloc: Global,
    store: &mut Store,
    made: Vec<Made>,
    shows: &mut Vec<Shown>,
    steps: &mut Steps<L>,
) -> Result<(), NoMemory>
    ensures store { OnOk result (store.new.store ≡ applied_each made.items store.old.store) }
    ensures shows { OnOk result (shows.new.items ≡ put_each (map shown_at made.items) shows.old.items) }
    ensures steps { OnOk result (steps.new ≡ steps.old + vec_len made) }
    ensures most { OnErr result (steps.new ≤ steps.old + vec_len made) }
{
    for one in made {
        apply_made(alloc, store, one, shows, steps)?;
    }
    Ok(())
}

/// Performs the items of a level, one step each, and puts what they show at their places. They are worked out on the store as
/// it is, side by side, and what they do is then done in order.
fn run_level<R: Threads + Sync, G: Gate, L: Ledger>(
    rt: &R,
    alloc: Global,
    store: &mut Store,
    places: &[u32],
    items: &[Resolved],
    gate: &G,
    shows: &mut Vec<Shown>,
    steps: &mut Steps<L>,
) -> Result<(), NoMemory>
    requires valid { IsValid store.old.store }
    requires level { IsLevel store.old.store items.now places.now }
    ensures store { OnOk result (store.new.store ≡ run_turns store.old.store (level_of items.now places.now)) }
    ensures valid { OnOk result (IsValid store.new.store) }
    ensures shows { OnOk result (shows.new.items ≡ put_each (answers_on store.old.store (level_of items.now places.now)) shows.old.items) }
    ensures steps { OnOk result (steps.new ≡ steps.old + length (level_of items.now places.now)) }
    ensures most { OnErr result (steps.new ≤ steps.old + length (level_of items.now places.now)) }
{
    let made = make_level(rt, alloc, store, items, gate, places)?;
    apply_each(alloc, store, made, shows, steps)
}

/// Performs the items of levels, one level after the other.
fn run_each_level<R: Threads + Sync, G: Gate, L: Ledger>(
    rt: &R,
    alloc: Global,
    store: &mut Store,
    plan: &Levels,
    items: &[Resolved],
    gate: &G,
    shows: &mut Vec<Shown>,
    steps: &mut Steps<L>,
) -> Result<(), NoMemory>
    requires valid { IsValid store.old.store }
    requires levels { AreLevels store.old.store items.now plan.now }
    ensures store { OnOk result (store.new.store ≡ run_levels store.old.store (levels_at (enumerate_from 0 (map turn_of items.now)) plan.now)) }
    ensures valid { OnOk result (IsValid store.new.store) }
    ensures shows { OnOk result (shows.new.items ≡ put_each (told_by_levels store.old.store (levels_at (enumerate_from 0 (map turn_of items.now)) plan.now)) shows.old.items) }
    ensures steps { OnOk result (steps.new ≡ steps.old + length (told_by_levels store.old.store (levels_at (enumerate_from 0 (map turn_of items.now)) plan.now))) }
    ensures most { OnErr result (steps.new ≤ steps.old + length (told_by_levels store.old.store (levels_at (enumerate_from 0 (map turn_of items.now)) plan.now))) }
{
    for places in plan.as_slice() {
        run_level(
            rt,
            alloc,
            store,
            places.as_slice(),
            items,
            gate,
            shows,
            steps,
        )?;
    }
    Ok(())
}

/// A place for each answer.
fn blank_shows(alloc: Global, count: usize) -> Result<Vec<Shown>, NoMemory>
    ensures { IfOk result (λ shows. length shows.items ≡ count) }
{
    let mut shows = Vec::new(alloc);
    for _place in 0..count {
        shows.push(Shown::Nothing)?;
    }
    Ok(shows)
}

/// The store that the items of a plan lead to, and what each of them shows, in their order. They are performed level by level, each in one step, and
/// where memory is wanting no item in more than one. The items of a level are worked out by at most 16 workers on the one store before it, and what
/// they do is done in order by one thread.
pub fn run_plan<R: Threads + Sync, G: Gate, L: Ledger>(
    rt: &R,
    alloc: Global,
    store: Store,
    plan: &Levels,
    items: &ResolvedList,
    gate: &G,
    steps: &mut Steps<L>,
) -> Result<(Store, Shows), NoMemory>
    requires valid { IsValid store.store }
    requires resolved { AreResolved store.store items.now }
    requires plan { plan.now ≡ levels_of (map touches_of items.now) }
    ensures store { (timeline : List Item) → AreResolvedFrom store.store timeline items.now → IfOk result (λ made. made.0.store ≡ run store.store timeline) }
    ensures shows { (timeline : List Item) → AreResolvedFrom store.store timeline items.now → IfOk result (λ made. made.1 ≡ answers store.store timeline) }
    ensures valid { IfOk result (λ made. IsValid made.0.store) }
    ensures steps { OnOk result (steps.new ≡ steps.old + length items.now) }
    ensures most { OnErr result (steps.new ≤ steps.old + length items.now) }
{
    let items = items.as_slice();
    let mut store = store;
    let mut shows = blank_shows(alloc, items.len())?;
    run_each_level(rt, alloc, &mut store, plan, items, gate, &mut shows, steps)?;
    Ok((store, Shows::from_vec(shows)))
}
