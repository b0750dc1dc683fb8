//! Items, performed one after the other, each delivery with its text, which is read. Those through a point are performed for the
//! store that they lead to; where there are no workers, those behind it for what they show too.
ghost use Rattle.std.specs.Prelude.{◌≡◌, ◌≤◌, ◌+◌, ◌-◌, ◌==◌, if◌then◌else◌, [], ◌∷◌, ◌++◌, drop, length, IfErr, IfOk, OnErr, OnOk};
ghost use Rattle.std.specs.List.{AllByRecursion};
ghost use Rattle.verb_core.specs.Items.{IsWellFormed};
ghost use Rattle.verb_core.specs.Step.{answers, run, step};
ghost use Rattle.verb_core.specs.Store.{IsValid};
ghost use Rattle.verb_core.specs.Texts.{StaysTold};
ghost use Rattle.stored_items.specs.Stored.{AllHeard, IsHeard};
ghost use Rattle.verb_core.specs.declared.bodies.BodiesFault.TheVariants.{NoMemory as no_memory};
ghost use Rattle.replay_crew.specs.Hearing.{CountsTextReads, HoldsOf, StoresOf, heard_as};

use crate::Shows;
use box_store::{Steps, Store};
use replay_crew::{hear, text_for};
use std::alloc::Global;
use std::sync::ledger::Ledger;
use stored_items::{StoredItem, StoredItems};
use undo_base::NoMemory;
use verb_core::laws::steps_keep_validity;
use verb_core::{Bodies, BodiesFault, Shown};

/// Items as they were performed, the store that they lead to, and what those behind the first ones show.
#[derive(Drop)]
pub struct Replayed {
    pub items: StoredItems,
    pub store: Store,
    pub shows: Shows,
}

/// Performs an item, in one step, with the text that is given beside it: what `text_for` gives.
fn perform<L: Ledger>(
    alloc: Global,
    store: &mut Store,
    item: &StoredItem,
    text: &[u8],
    steps: &mut Steps<L>,
) -> Result<Shown, NoMemory>
    requires valid { IsValid store.old.store }
    requires formed { IsWellFormed store.old.store.house item.now }
    ensures store { OnOk result (store.new.store ≡ (step store.old.store (heard_as item.now text.now)).0) }
    ensures valid { OnOk result (IsValid store.new.store) }
    ensures shown { IfOk result (λ shown. shown ≡ (step store.old.store (heard_as item.now text.now)).1) }
    ensures steps { OnOk result (steps.new ≡ steps.old + 1) }
    ensures no_step { OnErr result (steps.new ≡ steps.old) }
{
    steps_keep_validity();
    store.perform(alloc, item.item(), text, steps)
}

/// Performs an item, in one step, and lets it have the text that was read for it.
fn perform_heard<B: Bodies, L: Ledger>(
    alloc: Global,
    store: &mut Store,
    bodies: &mut B,
    item: &mut StoredItem,
    steps: &mut Steps<L>,
) -> Result<Shown, BodiesFault>
    requires valid { IsValid store.old.store }
    requires formed { IsWellFormed store.old.store.house item.old }
    requires held { HoldsOf (B.told bodies.old) item.old }
    ensures heard { OnOk result (IsHeard item.old item.new) }
    ensures same { (B.told bodies.old).honest → StoresOf (B.told bodies.old) item.old → OnOk result (item.new ≡ item.old) }
    ensures store { OnOk result (store.new.store ≡ (step store.old.store item.new).0) }
    ensures valid { OnOk result (IsValid store.new.store) }
    ensures shown { IfOk result (λ shown. shown ≡ (step store.old.store item.new).1) }
    ensures steps { OnOk result (steps.new ≡ steps.old + 1) }
    ensures no_step { OnErr result (steps.new ≡ steps.old) }
    ensures reads { CountsTextReads (B.told bodies.old) (B.told bodies.new) result }
    ensures stays { StaysTold (B.told bodies.old) (B.told bodies.new) }
    ensures leads { B.leads bodies.old bodies.new }
{
    match text_for(alloc, bodies, item) {
        Ok(text) => match perform(alloc, store, item, text.bytes(), steps) {
            Ok(shown) => {
                hear(item, &text);
                Ok(shown)
            }
            Err(NoMemory) => Err(BodiesFault::NoMemory),
        },
        Err(fault) => Err(fault),
    }
}

/// Keeps what an item shows, unless it is one of the first so many: how many of these are left then.
fn keep(shows: &mut Shows, left: usize, shown: Shown) -> Result<usize, BodiesFault>
    ensures shows { OnOk result (shows.new ≡ shows.old ++ (if left == 0 then shown ∷ [] else [])) }
    ensures left { IfOk result (λ rest. rest ≡ left - 1) }
    ensures memory { IfErr result (λ fault. fault ≡ no_memory) }
{
    if left > 0 {
        drop(shown);
        return Ok(left - 1);
    }
    match shows.push(shown) {
        Ok(()) => Ok(0),
        Err(NoMemory) => Err(BodiesFault::NoMemory),
    }
}

/// Performs items, one step each, and gives what those behind the first so many show. Each delivery's text is read, once.
fn perform_each<B: Bodies, L: Ledger>(
    alloc: Global,
    store: &mut Store,
    bodies: &mut B,
    items: &mut Vec<StoredItem>,
    front: usize,
    steps: &mut Steps<L>,
) -> Result<Shows, BodiesFault>
    requires valid { IsValid store.old.store }
    requires formed { AllByRecursion (IsWellFormed store.old.store.house) items.old.items }
    requires held { AllByRecursion (HoldsOf (B.told bodies.old)) items.old.items }
    ensures heard { OnOk result (AllHeard items.old.items items.new.items) }
    ensures same { (B.told bodies.old).honest → AllByRecursion (StoresOf (B.told bodies.old)) items.old.items → OnOk result (items.new.items ≡ items.old.items) }
    ensures store { OnOk result (store.new.store ≡ run store.old.store items.new.items) }
    ensures valid { OnOk result (IsValid store.new.store) }
    ensures shows { IfOk result (λ shows. shows ≡ drop front (answers store.old.store items.new.items)) }
    ensures steps { OnOk result (steps.new ≡ steps.old + length items.old.items) }
    ensures most { OnErr result (steps.new ≤ steps.old + length items.old.items) }
    ensures reads { CountsTextReads (B.told bodies.old) (B.told bodies.new) result }
    ensures stays { StaysTold (B.told bodies.old) (B.told bodies.new) }
    ensures leads { B.leads bodies.old bodies.new }
{
    let mut shows = Shows::new(alloc);
    let mut left = front;
    for item in items.iter_mut() {
        let shown = perform_heard(alloc, store, bodies, item, steps)?;
        left = keep(&mut shows, left, shown)?;
    }
    Ok(shows)
}

/// The store that items lead to from the given one, one after the other, and what each of those behind the first so many shows
/// there. Each of them is performed once, and each delivery's text is read, once. In time that grows as these items and texts.
pub fn replay_in_order<B: Bodies, L: Ledger>(
    alloc: Global,
    store: Store,
    bodies: &mut B,
    items: StoredItems,
    front: usize,
    steps: &mut Steps<L>,
) -> Result<Replayed, BodiesFault>
    requires valid { IsValid store.store }
    requires formed { AllByRecursion (IsWellFormed store.store.house) items }
    requires held { AllByRecursion (HoldsOf (B.told bodies.old)) items }
    ensures heard { IfOk result (λ made. AllHeard items made.items) }
    ensures same { (B.told bodies.old).honest → AllByRecursion (StoresOf (B.told bodies.old)) items → IfOk result (λ made. made.items ≡ items) }
    ensures store { IfOk result (λ made. made.store.store ≡ run store.store made.items) }
    ensures valid { IfOk result (λ made. IsValid made.store.store) }
    ensures shows { IfOk result (λ made. made.shows ≡ drop front (answers store.store made.items)) }
    ensures steps { OnOk result (steps.new ≡ steps.old + length items) }
    ensures most { OnErr result (steps.new ≤ steps.old + length items) }
    ensures reads { CountsTextReads (B.told bodies.old) (B.told bodies.new) result }
    ensures stays { StaysTold (B.told bodies.old) (B.told bodies.new) }
    ensures leads { B.leads bodies.old bodies.new }
{
    let mut store = store;
    let mut items = items.into_vec();
    match perform_each(alloc, &mut store, bodies, &mut items, front, steps) {
        Ok(shows) => Ok(Replayed {
            items: StoredItems::from_vec(items),
            store,
            shows,
        }),
        Err(fault) => {
            drop(items);
            drop(store);
            Err(fault)
        }
    }
}
