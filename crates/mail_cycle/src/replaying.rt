//! Items, replayed level by level on workers. It gives the same as one after the other.
ghost use Rattle.std.specs.Prelude.{◌≡◌, ◌≤◌, ◌+◌, List, length, map, IfOk, OnErr, OnOk};
ghost use Rattle.std.specs.List.{AllByRecursion};
ghost use Rattle.verb_core.specs.declared.item.Item.{Item};
ghost use Rattle.verb_core.specs.Items.{IsWellFormed};
ghost use Rattle.verb_core.specs.Step.{answers, run};
ghost use Rattle.verb_core.specs.Store.{IsValid, MailStore};
ghost use Rattle.touch_rules.specs.Table.{touches_of};
ghost use Rattle.replay_plan.specs.Placing.{levels_of as plan_of};
ghost use Rattle.verb_core.specs.Texts.{StaysTold};
ghost use Rattle.stored_items.specs.Stored.{AllHeard};
ghost use Rattle.replay_crew.specs.Hearing.{CountsTextReads, HoldsOf, StoresOf};
ghost use Rattle.replay_crew.specs.Resolving.{AreResolved, AreResolvedFrom};

use crate::Shows;
use crate::running::Replayed;
use box_store::{Steps, Store};
use replay_crew::{ResolvedList, resolve, run_plan, touch_all};
use replay_plan::{Levels, plan};
use std::alloc::Global;
use std::sync::ledger::Ledger;
use std::thread::Threads;
use stored_items::StoredItems;
use undo_base::NoMemory;
use undo_outside::Gate;
use verb_core::{Bodies, BodiesFault};

/// The levels of resolved items: what each of them touches is let go before the first is performed.
fn levels_of(alloc: Global, items: &ResolvedList) -> Result<Levels, NoMemory>
    requires { (s : MailStore) × AreResolved s items.now }
    ensures { IfOk result (λ levels. levels ≡ plan_of (map touches_of items.now)) }
{
    let touches = touch_all(alloc, items)?;
    plan(alloc, &touches)
}

/// The store that resolved items lead to, level by level, and what each of them shows, in their order.
fn run_levels<R: Threads + Sync, G: Gate, L: Ledger>(
    rt: &R,
    alloc: Global,
    store: Store,
    items: &ResolvedList,
    gate: &G,
    steps: &mut Steps<L>,
) -> Result<(Store, Shows), NoMemory>
    requires valid { IsValid store.store }
    requires resolved { AreResolved store.store items.now }
    ensures store { (timeline : List Item) → AreResolvedFrom store.store timeline items.now → IfOk result (λ made. made.0.store ≡ run store.store timeline) }
    ensures shows { (timeline : List Item) → AreResolvedFrom store.store timeline items.now → IfOk result (λ made. made.1 ≡ answers store.store timeline) }
    ensures valid { IfOk result (λ made. IsValid made.0.store) }
    ensures steps { OnOk result (steps.new ≡ steps.old + length items.now) }
    ensures most { OnErr result (steps.new ≤ steps.old + length items.now) }
{
    match levels_of(alloc, items) {
        Ok(levels) => {
            let made = run_plan(rt, alloc, store, &levels, items, gate, steps);
            drop(levels);
            made
        }
        Err(NoMemory) => {
            drop(store);
            Err(NoMemory)
        }
    }
}

/// The store that items lead to from the given one, and what each of them shows there, level by level. The items of a level are
/// worked out by workers on the one store before it, and each passes the gate before that. Each of them is performed once, and
/// each delivery's text is read, once, before the first level.
pub(crate) fn replay_by_levels<R: Threads + Sync, G: Gate, B: Bodies, L: Ledger>(
    rt: &R,
    alloc: Global,
    store: Store,
    bodies: &mut B,
    items: StoredItems,
    gate: &G,
    steps: &mut Steps<L>,
) -> Result<Replayed, BodiesFault>
    requires valid { IsValid store.store }
    requires formed { AllByRecursion (IsWellFormed store.store.house) items }
    requires held { AllByRecursion (HoldsOf (B.told bodies.old)) items }
    ensures heard { IfOk result (λ made. AllHeard items made.items) }
    ensures same { (B.told bodies.old).honest → AllByRecursion (StoresOf (B.told bodies.old)) items → IfOk result (λ made. made.items ≡ items) }
    ensures store { IfOk result (λ made. made.store.store ≡ run store.store made.items) }
    ensures valid { IfOk result (λ made. IsValid made.store.store) }
    ensures shows { IfOk result (λ made. made.shows ≡ answers store.store made.items) }
    ensures steps { OnOk result (steps.new ≡ steps.old + length items) }
    ensures most { OnErr result (steps.new ≤ steps.old + length items) }
    ensures reads { CountsTextReads (B.told bodies.old) (B.told bodies.new) result }
    ensures stays { StaysTold (B.told bodies.old) (B.told bodies.new) }
    ensures leads { B.leads bodies.old bodies.new }
{
    let mut items = items.into_vec();
    match resolve(alloc, &store, &mut items, bodies) {
        Ok(resolved) => match run_levels(rt, alloc, store, &resolved, gate, steps) {
            Ok((store, shows)) => {
                drop(resolved);
                Ok(Replayed {
                    items: StoredItems::from_vec(items),
                    store,
                    shows,
                })
            }
            Err(NoMemory) => {
                drop(resolved);
                drop(items);
                Err(BodiesFault::NoMemory)
            }
        },
        Err(fault) => {
            drop(items);
            drop(store);
            Err(fault)
        }
    }
}
