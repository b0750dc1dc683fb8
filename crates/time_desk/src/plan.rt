//! What the operator asks of the items later than a point: which of them could be done side by side.
//!
//! The plan that the console shows is made by the same calls: it resolves copies of the items behind the point, so it needs
//! memory for these.
ghost use Rattle.std.specs.Prelude.{◌≡◌, ◌⊎◌, ◌++◌, ◌∷◌, [], List, ◌<◌, ◌≤◌, false, length, map, take, drop, IfErr, IfOk, IsErrOf, IsTrue, OnOk};
ghost use Rattle.std.specs.List.{AllByRecursion};
ghost use Rattle.verb_core.specs.Items.{IsWellFormed};
ghost use Rattle.verb_core.specs.Step.{run};
ghost use Rattle.verb_core.specs.declared.item.Item.{Item as TheItem};
ghost use Rattle.verb_core.specs.Store.{IsValid, MailStore};
ghost use Rattle.repair_desk.specs.Repairs.{numbers_of};
ghost use Rattle.touch_rules.specs.Table.{touches_of};
ghost use Rattle.replay_plan.specs.Lines.{text_of_levels};
ghost use Rattle.replay_plan.specs.Placing.{levels_of};
ghost use Rattle.replay_crew.specs.Hearing.{CountsTextReads, HoldsOf, StoresOf, TellsAll};
ghost use Rattle.replay_crew.specs.Resolving.{AreResolvedFrom};
ghost use Rattle.time_desk.specs.Planning.{BodiesCause, Plans, PlansNone, plan_at, plan_from, resolved, resolved_on};
ghost use Rattle.time_desk.specs.Replaying.{reads_behind, some_deliver};
ghost use Rattle.desk_journal.specs.Reading.{IsStill};
ghost use Rattle.time_desk.specs.Serving.{CanBegin};
ghost use Rattle.desk_journal.specs.Stored.{HoldsTexts, MarkedBefore, TextsNoted, store_at};
ghost use Rattle.desk_journal.specs.Telling.{HoldsHeld, IsOnlyRead, IsPastRead};

use crate::beginning::beginning;
use crate::deliveries::Deliveries;
use crate::redo::new_texts;
use crate::{CycleFault, Desk};
use box_store::Store;
use desk_journal::{Journal, Past, Reading};
use mail_cycle::Beginning;
use repair_desk::position_of;
use replay_crew::{ResolvedList, resolve, touch_all};
use replay_plan::laws::levels_have_places;
use seal_log::ReadFault;
use std::alloc::Global;
use stored_items::StoredItem;
use touch_rules::TouchList;
use undo_base::{Copies, NoMemory, Numbers, Text};
use undo_outside::Disk;
use verb_core::{Bodies, BodiesFault};

/// Copies of items.
pub(crate) fn copies<T: Copies + Drop>(alloc: Global, items: &[T]) -> Result<Vec<T>, NoMemory>
    ensures { IfOk result (λ copies. copies.items ≡ items.now) }
{
    let mut copies = Vec::new(alloc);
    for item in items {
        copies.push(item.copy(alloc)?)?;
    }
    Ok(copies)
}

/// The numbers of items.
fn numbers(alloc: Global, items: &[StoredItem]) -> Result<Numbers, NoMemory>
    ensures { IfOk result (λ numbers. numbers ≡ numbers_of items.now) }
{
    let mut numbers = Numbers::new(alloc);
    for item in items {
        numbers.push(item.body().origin)?;
    }
    Ok(numbers)
}

/// What items touch that were resolved, but for the first so many.
fn touches_behind(alloc: Global, all: &ResolvedList, count: usize) -> Result<TouchList, NoMemory>
    requires all { (s : MailStore) × (items : List TheItem) × AreResolvedFrom s items all.now }
    requires count { count ≤ length all.now }
    ensures { IfOk result (λ list. list ≡ drop count (map touches_of all.now)) }
{
    let mut touches = touch_all(alloc, all)?.into_vec();
    let later = touches.split_off(count)?;
    drop(touches);
    Ok(TouchList::from_vec(later))
}

/// The plan of items that were resolved, but for the first so many.
fn spell(
    alloc: Global,
    all: &ResolvedList,
    items: &[StoredItem],
    count: usize,
) -> Result<Text, NoMemory>
    requires all { (s : MailStore) × AreResolvedFrom s items.now all.now }
    requires count { count ≤ length items.now }
    ensures { IfOk result (λ text. text ≡ text_of_levels (levels_of (drop count (map touches_of all.now))) (numbers_of (drop count items.now))) }
{
    levels_have_places();
    let touches = touches_behind(alloc, all, count)?;
    let levels = replay_plan::plan(alloc, &touches)?;
    let numbers = numbers(alloc, items.split_at(count).1)?;
    replay_plan::plan_text(alloc, &levels, &numbers)
}

/// The plan of items that are to be performed on a store, but for the first so many, which lead to the store on which the plan
/// begins. Each delivery's text is read, once, and they have it then.
fn plan_copies<B: Bodies>(
    alloc: Global,
    store: &Store,
    bodies: &mut B,
    items: Vec<StoredItem>,
    count: usize,
) -> Result<Text, BodiesFault>
    requires valid { IsValid store.now.store }
    requires formed { AllByRecursion (IsWellFormed store.now.store.house) items.items }
    requires held { AllByRecursion (HoldsOf (B.told bodies.old)) items.items }
    requires count { count ≤ length items.items }
    ensures text { (B.told bodies.old).honest → AllByRecursion (StoresOf (B.told bodies.old)) items.items
        → IfOk result (λ text. text ≡ plan_from (run store.now.store (take count items.items)) (drop count items.items)) }
    ensures reads { CountsTextReads (B.told bodies.old) (B.told bodies.new) result }
    ensures leads { B.leads bodies.old bodies.new }
{
    let mut items = items;
    let all = resolve(alloc, store, &mut items, bodies)?;
    match spell(alloc, &all, items.as_slice(), count) {
        Ok(text) => Ok(text),
        Err(NoMemory) => Err(BodiesFault::NoMemory),
    }
}

/// The same over copies of items.
fn plan_items<B: Bodies>(
    alloc: Global,
    store: &Store,
    bodies: &mut B,
    items: &[StoredItem],
    count: usize,
) -> Result<Text, BodiesFault>
    requires valid { IsValid store.now.store }
    requires formed { AllByRecursion (IsWellFormed store.now.store.house) items.now }
    requires held { AllByRecursion (HoldsOf (B.told bodies.old)) items.now }
    requires count { count ≤ length items.now }
    ensures text { (B.told bodies.old).honest → AllByRecursion (StoresOf (B.told bodies.old)) items.now
        → IfOk result (λ text. text ≡ plan_from (run store.now.store (take count items.now)) (drop count items.now)) }
    ensures reads { CountsTextReads (B.told bodies.old) (B.told bodies.new) result }
    ensures leads { B.leads bodies.old bodies.new }
{
    match copies(alloc, items) {
        Ok(copies) => plan_copies(alloc, store, bodies, copies, count),
        Err(NoMemory) => Err(BodiesFault::NoMemory),
    }
}

/// The plan of the items behind a place of the timeline, from a beginning at or before it on.
fn plan_behind<B: Bodies>(
    alloc: Global,
    desk: &mail_desk::Desk,
    first: &Beginning,
    bodies: &mut B,
    place: usize,
) -> Result<Text, BodiesFault>
    requires place { place ≤ length desk.now.kept.timeline }
    requires serves { CanBegin desk.now.kept place first.now }
    requires texts { TellsAll (B.told bodies.old) desk.now.kept.timeline }
    ensures text { (B.told bodies.old).honest → first.now.store.store ≡ store_at desk.now.kept first.now.count → IfOk result (λ text. text ≡ plan_at desk.now.kept place) }
    ensures reads { CountsTextReads (B.told bodies.old) (B.told bodies.new) result }
    ensures leads { B.leads bodies.old bodies.new }
{
    desk.stands();
    let items = desk.all_items().split_at(first.count).1;
    plan_items(alloc, &first.store, bodies, items, place - first.count)
}

/// The same, with texts read before a gate.
fn plan_reading<D: Disk>(
    alloc: Global,
    past: &mut Past<D>,
    desk: &mail_desk::Desk,
    first: &Beginning,
    place: usize,
) -> Result<Text, BodiesFault>
    requires noted { TextsNoted past.old.end desk.now.notes desk.now.kept }
    requires place { place ≤ length desk.now.kept.timeline }
    requires serves { CanBegin desk.now.kept place first.now }
    ensures text { HoldsHeld (D.told past.old.disk) desk.now ⊎ (some_deliver desk.now.kept.timeline ≡ false) → first.now.store.store ≡ store_at desk.now.kept first.now.count
        → IfOk result (λ text. text ≡ plan_at desk.now.kept place) }
    ensures due { IsErrOf result BodiesFault.Failed → IsTrue (some_deliver desk.now.kept.timeline) }
    ensures cause { BodiesCause (D.told past.old.disk) (D.told past.new.disk) result }
    ensures still { IsPastRead D.told past.old past.new }
{
    desk.stands();
    let texts = new_texts(alloc, &[])?;
    let reading = Reading::of(past, desk, &texts, desk.next());
    let items = desk.all_items();
    let mut bodies = Deliveries { reading, items };
    plan_behind(alloc, desk, first, &mut bodies, place)
}

/// The same from the newest snapshot that can serve.
fn plan_from_newest<D: Disk>(
    alloc: Global,
    past: &mut Past<D>,
    desk: &mail_desk::Desk,
    place: usize,
) -> Result<Text, BodiesFault>
    requires noted { TextsNoted past.old.end desk.now.notes desk.now.kept }
    requires marked { MarkedBefore past.old.end desk.now.marks }
    requires place { place ≤ length desk.now.kept.timeline }
    ensures text { HoldsHeld (D.told past.old.disk) desk.now ⊎ (reads_behind desk.now.kept place ≡ false) → IfOk result (λ text. text ≡ plan_at desk.now.kept place) }
    ensures due { IsErrOf result BodiesFault.Failed → IsTrue (reads_behind desk.now.kept place) }
    ensures cause { BodiesCause (D.told past.old.disk) (D.told past.new.disk) result }
    ensures still { IsPastRead D.told past.old past.new }
{
    match beginning(alloc, past, desk, place) {
        Ok(first) => plan_reading(alloc, past, desk, &first, place),
        Err(ReadFault::Disk) => Err(BodiesFault::Failed),
        Err(ReadFault::NoMemory) => Err(BodiesFault::NoMemory),
    }
}

/// Of items that are performed one after the other, each is resolved on the store that those before it lead to. This does
/// nothing.
pub fn items_are_resolved_in_turn()
    ensures { (s : MailStore) (before later : List TheItem) (i : TheItem) → resolved s (before ++ i ∷ later) ≡ resolved s before ++ resolved_on (run s before) i ∷ resolved (run s (before ++ i ∷ [])) later }
{}

/// The plan of a desk's items later than a point.
fn plan_in<D: Disk>(
    alloc: Global,
    journal: &mut Journal<D>,
    desk: &mail_desk::Desk,
    point: u32,
) -> Result<Text, CycleFault>
    requires noted { TextsNoted journal.old.gate desk.now.notes desk.now.kept }
    requires marked { MarkedBefore journal.old.gate desk.now.marks }
    ensures text { IfOk result (Plans desk.now.kept point (HoldsHeld (D.told journal.old.disk) desk.now)) }
    ensures why { IfErr result (PlansNone desk.now.kept point (D.told journal.old.disk) (D.told journal.new.disk)) }
    ensures ok { OnOk result ((D.told journal.new.disk).failed_reads ≡ (D.told journal.old.disk).failed_reads) }
    ensures still { IsOnlyRead D.told journal.old journal.new }
{
    let Some(place) = position_of(desk.all_items(), point) else {
        return Err(CycleFault::Point { given: point });
    };
    match plan_from_newest(alloc, &mut journal.past, desk, place) {
        Ok(text) => Ok(text),
        Err(BodiesFault::Failed) => Err(CycleFault::Disk),
        Err(BodiesFault::NoMemory) => Err(CycleFault::NoMemory),
    }
}

impl<D: Disk> Desk<D> {
    /// The levels of the items later than a point: two items of one level could be done side by side, and what commutes could
    /// change places. It begins with the newest snapshot at or before the point, and each delivery's text behind that is read,
    /// once; at `Disk` a read failed, and a later call may succeed. Nothing changes. In time that grows as the search for the point,
    /// the mailboxes, what the items behind the snapshot touch and these texts.
    pub fn plan_text(&mut self, alloc: Global, point: u32) -> Result<Text, CycleFault>
        ensures text { IfOk result (Plans self.old.kept point (HoldsTexts D.told self.old)) }
        ensures why { IfErr result (PlansNone self.old.kept point (D.told self.old.disk) (D.told self.new.disk)) }
        ensures ok { OnOk result ((D.told self.new.disk).failed_reads ≡ (D.told self.old.disk).failed_reads) }
        ensures still { IsStill D.told self.old self.new }
    {
        plan_in(alloc, &mut self.journal, &self.desk, point)
    }
}
