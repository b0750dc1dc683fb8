//! Where each item's mail goes when its turn comes, and what each item touches.
ghost use Rattle.std.specs.Prelude.{◌≡◌, ◌<◌, ◌++◌, ◌∷◌, [], IfErr, IfOk, OnOk, map};
ghost use Rattle.std.specs.List.{AllByRecursion};
ghost use Rattle.verb_core.specs.declared.bodies.BodiesFault.TheVariants.{NoMemory as no_memory};
ghost use Rattle.verb_core.specs.declared.item.Deed.TheVariants.{Act as Acts};
ghost use Rattle.verb_core.specs.Aims.{sought_by};
ghost use Rattle.verb_core.specs.Items.{IsWellFormed};
ghost use Rattle.verb_core.specs.Store.{MailStore, IsValid};
ghost use Rattle.verb_core.specs.Texts.{StaysTold};
ghost use Rattle.stored_items.specs.Stored.{AllHeard, IsHeard};
ghost use Rattle.touch_rules.specs.Table.{touches_of};
ghost use Rattle.replay_crew.specs.Hearing.{CountsTextReads, HoldsOf, StoresOf, heard_as};
ghost use Rattle.box_store.specs.Outline.{outline};
ghost use Rattle.replay_crew.specs.Orders.{turns};
ghost use Rattle.replay_crew.specs.Outline.{changes_outline as changes, outline_after};
ghost use Rattle.replay_crew.specs.Resolving.{AreResolved, AreResolvedFrom, stored_turn, turn_of};

use crate::ResolvedList;
use crate::reading::{hear, text_for};
use box_store::{Steps, Store};
use std::alloc::Global;
use std::marker::Brand;
use std::sync::ledger::{Blank, Ledger};
use stored_items::StoredItem;
use stored_items::laws::stored_items_are_formed;
use touch_rules::{TouchList, touches};
use undo_base::NoMemory;
use verb_core::laws::steps_keep_validity;
use verb_core::{Act, Bodies, BodiesFault, Deed, Item, Resolved};

// ---- the outline

/// Whether an act changes the configuration.
fn changes_conf(act: &Act) -> bool
    ensures { result ≡ changes (Acts act.now) }
{
    match act {
        Act::SetAlias { .. } => true,
        Act::DropAlias { .. } => true,
        Act::SetFilter(_) => true,
        Act::DropFilter { .. } => true,
        _ => false,
    }
}

/// Whether a deed changes the configuration, or which mailboxes there are.
fn changes_outline(deed: &Deed) -> bool
    ensures { result ≡ changes deed.now }
{
    match deed {
        Deed::Create { .. } => true,
        Deed::Rename { .. } => true,
        Deed::Delete { .. } => true,
        Deed::Act(act) => changes_conf(act),
        Deed::Deliver { .. } => false,
        Deed::Append { .. } => false,
        Deed::Fetch { .. } => false,
        Deed::Store { .. } => false,
        Deed::Copy { .. } => false,
        Deed::List { .. } => false,
        Deed::Status { .. } => false,
        Deed::Select { .. } => false,
        Deed::Expunge { .. } => false,
        Deed::Close { .. } => false,
        Deed::Notice { .. } => false,
    }
}

/// Performs an item on the outline, where it changes that.
fn go_on<L: Ledger>(
    alloc: Global,
    outline: &mut Store,
    item: &Item,
    steps: &mut Steps<L>,
) -> Result<(), NoMemory>
    requires valid { IsValid outline.old.store }
    requires formed { IsWellFormed outline.old.store.house item.now }
    ensures outline { OnOk result (outline.new.store ≡ outline_after outline.old.store item.now) }
    ensures valid { OnOk result (IsValid outline.new.store) }
{
    steps_keep_validity();
    if !changes_outline(&item.deed) {
        return Ok(());
    }
    match outline.perform(alloc, item, item.deed.text_bytes(), steps) {
        Ok(_) => Ok(()),
        Err(NoMemory) => Err(NoMemory),
    }
}

// ---- one item

/// An item with its aims on the outline, which then goes on. The text is the one that was read for it.
fn resolve_with<L: Ledger>(
    alloc: Global,
    outline: &mut Store,
    item: &StoredItem,
    text: &[u8],
    steps: &mut Steps<L>,
) -> Result<Resolved, NoMemory>
    requires valid { IsValid outline.old.store }
    requires formed { IsWellFormed outline.old.store.house item.now }
    ensures turn { IfOk result (λ what. turn_of what ≡ stored_turn (sought_by outline.old.store (heard_as item.now text.now), heard_as item.now text.now)) }
    ensures outline { OnOk result (outline.new.store ≡ outline_after outline.old.store (heard_as item.now text.now)) }
    ensures valid { OnOk result (IsValid outline.new.store) }
{
    stored_items_are_formed();
    let what = outline.aim(alloc, item.item(), text)?;
    go_on(alloc, outline, item.item(), steps)?;
    Ok(what)
}

/// The same, with the text that is read for it, which it gets.
fn resolve_next<B: Bodies, L: Ledger>(
    alloc: Global,
    outline: &mut Store,
    item: &mut StoredItem,
    bodies: &mut B,
    steps: &mut Steps<L>,
) -> Result<Resolved, BodiesFault>
    requires valid { IsValid outline.old.store }
    requires formed { IsWellFormed outline.old.store.house item.old }
    requires held { HoldsOf (B.told bodies.old) item.old }
    ensures heard { OnOk result (IsHeard item.old item.new) }
    ensures same { (B.told bodies.old).honest → StoresOf (B.told bodies.old) item.old → OnOk result (item.new ≡ item.old) }
    ensures turn { IfOk result (λ what. turn_of what ≡ stored_turn (sought_by outline.old.store item.new, item.new)) }
    ensures outline { OnOk result (outline.new.store ≡ outline_after outline.old.store item.new) }
    ensures valid { OnOk result (IsValid outline.new.store) }
    ensures reads { CountsTextReads (B.told bodies.old) (B.told bodies.new) result }
    ensures stays { StaysTold (B.told bodies.old) (B.told bodies.new) }
    ensures leads { B.leads bodies.old bodies.new }
{
    let text = text_for(alloc, bodies, item)?;
    match resolve_with(alloc, outline, item, text.bytes(), steps) {
        Ok(what) => {
            hear(item, &text);
            Ok(what)
        }
        Err(NoMemory) => Err(BodiesFault::NoMemory),
    }
}

// ---- all of them

/// Keeps an item more.
fn keep(all: &mut ResolvedList, what: Resolved) -> Result<(), BodiesFault>
    ensures all { OnOk result (all.new ≡ all.old ++ what ∷ []) }
    ensures memory { IfErr result (λ fault. fault ≡ no_memory) }
{
    match all.push(what) {
        Ok(()) => Ok(()),
        Err(NoMemory) => Err(BodiesFault::NoMemory),
    }
}

/// An outline, by the fault of reading.
fn outline_of(alloc: Global, store: &Store) -> Result<Store, BodiesFault>
    requires { IsValid store.now.store }
    ensures store { IfOk result (λ made. made.store ≡ outline store.now.store) }
    ensures valid { IfOk result (λ made. IsValid made.store) }
    ensures memory { IfErr result (λ fault. fault ≡ no_memory) }
{
    match store.outline(alloc) {
        Ok(made) => Ok(made),
        Err(NoMemory) => Err(BodiesFault::NoMemory),
    }
}

/// The items, over a counter for what is performed on the outline.
fn resolve_over<B: Bodies, L: Ledger>(
    alloc: Global,
    store: &Store,
    items: &mut Vec<StoredItem>,
    bodies: &mut B,
    blank: Blank,
) -> Result<ResolvedList, BodiesFault>
    requires name { blank.name ≡ L.name }
    requires parts { blank.parts ≡ L.parts }
    requires some { 0 < blank.parts }
    requires valid { IsValid store.now.store }
    requires formed { AllByRecursion (IsWellFormed store.now.store.house) items.old.items }
    requires held { AllByRecursion (HoldsOf (B.told bodies.old)) items.old.items }
    ensures heard { OnOk result (AllHeard items.old.items items.new.items) }
    ensures same { (B.told bodies.old).honest → AllByRecursion (StoresOf (B.told bodies.old)) items.old.items → OnOk result (items.new.items ≡ items.old.items) }
    ensures resolved { IfOk result (λ all. map turn_of all ≡ map stored_turn (turns store.now.store items.new.items)) }
    ensures reads { CountsTextReads (B.told bodies.old) (B.told bodies.new) result }
    ensures stays { StaysTold (B.told bodies.old) (B.told bodies.new) }
    ensures leads { B.leads bodies.old bodies.new }
{
    let mut steps: Steps<L> = Steps::new(blank);
    let mut outline = outline_of(alloc, store)?;
    let mut all = ResolvedList::new(alloc);
    for item in items.iter_mut() {
        let what = resolve_next(alloc, &mut outline, item, bodies, &mut steps)?;
        keep(&mut all, what)?;
    }
    Ok(all)
}

/// Each item with its aims as they are when its turn comes. It asks for the texts of deliveries alone, once each, and lets the
/// items have them. It follows the configuration and the names alone. Items are aimed at an outline of the store, in which no
/// mail lies, and only what changes aliases, filters or names of mailboxes is performed there.
pub fn resolve<B: Bodies>(
    alloc: Global,
    store: &Store,
    items: &mut Vec<StoredItem>,
    bodies: &mut B,
) -> Result<ResolvedList, BodiesFault>
    requires valid { IsValid store.now.store }
    requires formed { AllByRecursion (IsWellFormed store.now.store.house) items.old.items }
    requires held { AllByRecursion (HoldsOf (B.told bodies.old)) items.old.items }
    ensures heard { OnOk result (AllHeard items.old.items items.new.items) }
    ensures same { (B.told bodies.old).honest → AllByRecursion (StoresOf (B.told bodies.old)) items.old.items → OnOk result (items.new.items ≡ items.old.items) }
    ensures resolved { IfOk result (λ all. AreResolvedFrom store.now.store items.new.items all) }
    ensures reads { CountsTextReads (B.told bodies.old) (B.told bodies.new) result }
    ensures stays { StaysTold (B.told bodies.old) (B.told bodies.new) }
    ensures leads { B.leads bodies.old bodies.new }
{
    resolve_over::<B, Brand>(alloc, store, items, bodies, Blank::new(1))
}

// ---- touches

/// What each item touches.
pub fn touch_all(alloc: Global, all: &ResolvedList) -> Result<TouchList, NoMemory>
    requires { (s : MailStore) × AreResolved s all.now }
    ensures { IfOk result (λ list. list ≡ map touches_of all.now) }
{
    let mut list = TouchList::new(alloc);
    for what in all.as_slice() {
        list.push(touches(alloc, what)?)?;
    }
    Ok(list)
}
