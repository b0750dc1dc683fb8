//! What is due to be performed again.
//!
//! A place behind more items than 32 bits count would be told as want of memory; numbers end long before.
//!
//! Want of memory is told of a cycle only where one is due.
ghost use Rattle.std.specs.Prelude.{◌≡◌, ℕ, ◌+◌, ◌++◌, ◌≤◌, length, nat_le, IfErr, IfOk, IsErrOf, IsTrue, OnErr, OnOk, Some};
ghost use Rattle.verb_core.specs.Items.{IsTimeline};
ghost use Rattle.repair_desk.specs.Repairs.{are_known, is_among};
ghost use Rattle.cycle_rules.specs.Asking.{IsRewinds, due_anew};
ghost use Rattle.cycle_rules.specs.Repairing.{leaves_numbers_for};
ghost use Rattle.cycle_rules.specs.Withdrawals.{withdraw_due_at};
ghost use Rattle.withdraw.specs.Coming.{CanComeBack};
ghost use Rattle.store_kept.specs.Kept.{Kept};
ghost use Rattle.mail_cycle.specs.Refusing.{IsRefusalBy, IsRefusalOf};
ghost use Rattle.mail_cycle.specs.Tasks.{IsBehind, restoring};

use crate::{Before, CycleRefused};
use repair_desk::{EditedBehind, NumberSet};
use std::alloc::Global;
use std::marker::Model;
use stored_items::{StoredItem, StoredItems};
use undo_base::{Copies, LAST_MOMENT, LAST_NUMBER, NoMemory, Numbers, Text};
use verb_bytes::CycleAsk;
use verb_core::House;
use withdraw::laws::{the_front_stays, unedited_timelines_are_timelines};
use withdraw::{UndoneBehind, unedit_behind};

/// What is asked: repairs behind a point; or that these items come in the place of those in force behind the place of a repair, the
/// point of which is this number.
#[derive(Drop)]
pub enum Work<'a> {
    Asked(&'a CycleAsk),
    Restored(StoredItems, u32),
}

/// A repair of the timeline of a store in use, at a moment.
#[derive(Drop)]
pub struct Due<'a> {
    before: Before<'a>,
    at: u64,
    place: usize,
    work: Work<'a>,
}

impl<'a> Model for Due<'a> {
    ghost use Rattle.mail_cycle.specs.Tasks.{IsTask, Task, task_by};

    ghost Value = { Task };

    ghost view = { λ d. task_by d.before d.at d.place d.work };

    ghost invariant = { λ d. IsTask (task_by d.before d.at d.place d.work) };
}

/// Whether numbers are left for a repair, its acts and a notice to each user.
fn has_numbers(house: &House, next: u32, acts: usize) -> bool
    ensures { result ≡ nat_le (next + 1 + acts + length house.now.accounts) LAST_NUMBER }
{
    let wanted = acts.saturating_add(house.accounts.len());
    wanted < LAST_NUMBER as usize && next as usize + 1 + wanted <= LAST_NUMBER as usize
}

/// Adds copies of items at the end.
fn push_copies(alloc: Global, items: &mut StoredItems, more: &[StoredItem]) -> Result<(), NoMemory>
    ensures { OnOk result (items.new ≡ items.old ++ more.now) }
{
    for item in more {
        items.push(item.copy(alloc)?)?;
    }
    Ok(())
}

/// How many items these are, in 32 bits. More than these hold find no memory.
fn count_of(items: &[StoredItem]) -> Result<u32, NoMemory>
    ensures { IfOk result (λ count. count ≡ length items.now) }
{
    match u32::try_from(items.len()) {
        Ok(count) => Ok(count),
        Err(_) => Err(NoMemory),
    }
}

/// The items that come back behind those of a front, of which the first so many are not copied.
fn restored(
    alloc: Global,
    front: &[StoredItem],
    later: &[StoredItem],
    from: usize,
) -> Result<EditedBehind, NoMemory>
    requires { from ≤ length front.now }
    ensures { (place point : ℕ) → IfOk result (IsBehind (restoring place point front.now later.now) from) }
{
    let kept = count_of(later)?;
    let mut items = StoredItems::new(alloc);
    push_copies(alloc, &mut items, front.split_at(from).1)?;
    push_copies(alloc, &mut items, later)?;
    Ok(EditedBehind {
        items,
        kept,
        unmatched: Numbers::new(alloc),
    })
}

impl<'a> Work<'a> {
    ghost use Rattle.mail_cycle.specs.Tasks.{repair_by, texts_by};

    /// How many acts come in.
    fn acts(&self) -> usize
        ensures { (s : Kept) (at place : ℕ) → result ≡ (repair_by s at place self.now).acts }
    {
        match self {
            Work::Asked(ask) => ask.inserts.len(),
            Work::Restored(_, _) => 0,
        }
    }

    /// The number of the item at the place, or 0.
    fn point(&self) -> u32
        ensures { (s : Kept) (at place : ℕ) → result ≡ (repair_by s at place self.now).point }
    {
        match self {
            Work::Asked(ask) => ask.point,
            Work::Restored(_, point) => *point,
        }
    }

    /// The later items as users were shown them.
    fn shown<'s>(&'s self, before: &'s Before<'_>, place: usize) -> &'s [StoredItem]
        requires { place ≤ length before.now.timeline }
        ensures { (at : ℕ) → result.now ≡ (repair_by before.now at place self.now).before }
    {
        match self {
            Work::Asked(_) => before.later(place),
            Work::Restored(later, _) => later.as_slice(),
        }
    }

    /// The texts that come in, by the numbers of their items.
    fn texts(&self) -> &[(u32, Text)]
        ensures { result.now ≡ texts_by self.now }
    {
        match self {
            Work::Asked(ask) => ask.replaces.as_slice(),
            Work::Restored(_, _) => &[],
        }
    }

    /// The numbers of those that go.
    fn drops(&self, alloc: Global) -> Result<NumberSet, NoMemory>
        ensures { (s : Kept) (at place : ℕ) → IfOk result (λ set. (n : ℕ) → is_among set n ≡ is_among (repair_by s at place self.now).drops n) }
    {
        match self {
            Work::Asked(ask) => NumberSet::of(alloc, ask.drops.as_slice()),
            Work::Restored(_, _) => Ok(NumberSet::new(alloc)),
        }
    }

    /// The items that are to be performed, but for the first so many, of which no copy is made, and what is told of the repair.
    fn items_behind(
        &self,
        alloc: Global,
        before: &Before<'_>,
        at: u64,
        place: usize,
        from: usize,
    ) -> Result<EditedBehind, NoMemory>
        requires from { from ≤ place }
        requires place { place ≤ length before.now.timeline }
        requires numbers { IsTrue (leaves_numbers_for before.now (repair_by before.now at place self.now).acts) }
        ensures { IfOk result (IsBehind (repair_by before.now at place self.now) from) }
    {
        match self {
            Work::Asked(ask) => before.repaired(alloc, ask, at, from, place),
            Work::Restored(later, _) => {
                restored(alloc, before.through(place), later.as_slice(), from)
            }
        }
    }
}

impl<'a> Due<'a> {
    ghost use Rattle.mail_cycle.specs.Tasks.{IsCycle, IsTask, withdrawal_task};

    /// The cycle that is asked for at a moment under a new key: the timeline has the point, and numbers are left.
    pub fn cycle(before: Before<'a>, at: u64, ask: &'a CycleAsk) -> Result<Due<'a>, CycleRefused>
        requires moment { at ≤ LAST_MOMENT }
        requires acts { IsTrue (are_known before.house ask.now.inserts) }
        ensures due { IfOk result (IsCycle before.entry at ask.now) }
        ensures refused { IfErr result (IsRefusalOf before.entry ask.now (due_anew before.entry at ask.now)) }
        ensures undue { OnErr result (IsRewinds (due_anew before.entry at ask.now) → ⊥) }
    {
        before.stands();
        let Some(place) = before.place_of(ask.point) else {
            return Err(CycleRefused::Point { given: ask.point });
        };
        if !has_numbers(before.house(), before.next(), ask.inserts.len()) {
            return Err(CycleRefused::Numbers {
                next: before.next(),
            });
        }
        Ok(Due {
            before,
            at,
            place,
            work: Work::Asked(ask),
        })
    }

    /// The withdrawal of what the last cycle left, which can come back among the items in force: numbers are left.
    pub fn withdrawal(
        alloc: Global,
        before: Before<'a>,
        at: u64,
        last: &UndoneBehind,
    ) -> Result<Due<'a>, CycleRefused>
        requires moment { at ≤ LAST_MOMENT }
        requires timeline { IsTimeline before.house before.timeline }
        requires back { CanComeBack before.house before.timeline last.now }
        ensures due { IfOk result (λ due. due ≡ withdrawal_task before.entry at last.now) }
        ensures left { OnOk result (IsTrue (leaves_numbers_for before.entry 0)) }
        ensures refused { IfErr result (IsRefusalBy before.entry last.now.cycle (withdraw_due_at before.entry at (Some last.now))) }
        ensures unread { IsErrOf result CycleRefused.Disk → ⊥ }
    {
        before.stands();
        the_front_stays();
        unedited_timelines_are_timelines();
        if !has_numbers(before.house(), before.next(), 0) {
            return Err(CycleRefused::Numbers {
                next: before.next(),
            });
        }
        let place = last.position as usize;
        let later = unedit_behind(alloc, before.later(0), last, place)?;
        Ok(Due {
            before,
            at,
            place,
            work: Work::Restored(later, last.point),
        })
    }

    /// What holds of each: this does nothing.
    pub fn stands(&self)
        ensures task { IsTask self.now }
        ensures numbers { self.now.kept.next + 1 + self.now.repair.acts + length self.now.kept.house.accounts ≤ LAST_NUMBER }
        ensures moment { self.now.at ≤ LAST_MOMENT }
        ensures place { self.now.repair.place ≤ length self.now.kept.timeline }
    {
        let _ = &self.at;
    }

    /// The store in use.
    pub(crate) fn before(&self) -> &Before<'a>
        ensures { result.now ≡ self.now.kept }
    {
        &self.before
    }

    /// The moment.
    pub(crate) fn at(&self) -> u64
        ensures { result ≡ self.now.at }
    {
        self.at
    }

    /// How many of the first items stay.
    pub fn place(&self) -> usize
        ensures place { result ≡ self.now.repair.place }
        ensures within { result ≤ length self.now.kept.timeline }
    {
        self.place
    }

    /// How many acts come in.
    pub(crate) fn acts(&self) -> usize
        ensures { result ≡ self.now.repair.acts }
    {
        self.work.acts()
    }

    /// How many items are never compared: those through the place, and the acts.
    pub(crate) fn front(&self) -> usize
        ensures { result ≡ self.now.repair.place + self.now.repair.acts }
    {
        self.before.front_with(self.place, self.work.acts())
    }

    /// The number of the item at the place, or 0.
    pub(crate) fn point(&self) -> u32
        ensures { result ≡ self.now.repair.point }
    {
        self.work.point()
    }

    /// The later items as users were shown them.
    pub(crate) fn shown(&self) -> &[StoredItem]
        ensures { result.now ≡ self.now.repair.before }
    {
        self.work.shown(&self.before, self.place)
    }

    /// The texts that come in, by the numbers of their items.
    pub fn texts(&self) -> &[(u32, Text)]
        ensures { result.now ≡ self.now.texts }
    {
        self.work.texts()
    }

    /// The numbers of those that go.
    pub(crate) fn drops(&self, alloc: Global) -> Result<NumberSet, NoMemory>
        ensures { IfOk result (λ set. (n : ℕ) → is_among set n ≡ is_among self.now.repair.drops n) }
    {
        self.work.drops(alloc)
    }

    /// The items that are to be performed, but for the first so many, and what is told of the repair.
    pub(crate) fn items_behind(&self, alloc: Global, from: usize) -> Result<EditedBehind, NoMemory>
        requires { from ≤ self.now.repair.place }
        ensures { IfOk result (IsBehind self.now.repair from) }
    {
        self.work
            .items_behind(alloc, &self.before, self.at, self.place, from)
    }
}
