//! What a repair leaves: made ready, and put in place.
//!
//! A cycle's outcome brings the notes of its texts on a shelf of its own. The desk's shelf takes them and keeps its marks, so
//! that putting the outcome in place takes no memory.
//!
//! `Desk::replace` cuts the items, and their rows in the index of numbers, behind `from` and puts the new ones there, in room
//! that `Desk::remake` made before the record was sealed. The index is put in order again, which is one pass where it is in order
//! already. Where the texts lie is listed anew before that, for all items.
ghost use Rattle.std.specs.Prelude.{◌≡◌, ◌+◌, ◌-◌, ◌<◌, ◌≤◌, [], length, if◌then◌else◌, Some, None, IfOk, OnOk, Ok, vec_len, vec_capacity};
ghost use Rattle.std.specs.List.{AllByRecursion};
ghost use Rattle.verb_core.specs.declared.mailbox.Body.{Body as TheBody};
ghost use Rattle.verb_core.specs.Items.{NumbersApart};
ghost use Rattle.shelf.specs.Marks.{marks_at_or_before};
ghost use Rattle.shelf.specs.Notes.{note_of};
ghost use Rattle.store_kept.specs.Texts.{items_behind};
ghost use Rattle.mail_desk.specs.Noting.{IsNotedIn, renoted};
ghost use Rattle.mail_desk.specs.Remaking.{CanReplace, FitsIn, LeavesUndone, Remakes, asked_left, remade_as, timeline_left, undone_left};
ghost use Rattle.mail_desk.specs.Timeline.{SizesOf};

use crate::Desk;
use crate::noting::{Fresh, noted_anew};
use crate::numbered::Numbered;
use box_store::Store;
use paradox::Report;
use shelf::Shelf;
use std::alloc::Global;
use store_kept::{Base, put_report};
use stored_items::{StoredItem, StoredItems};
use undo_base::{Name, NoMemory};
use verb_core::Stamps;
use withdraw::UndoneBehind;

/// What a repair leaves of a desk: the store, how many of the first items stay where they are and those behind them, the stamp of each
/// mailbox, and the next number. And the place behind which all is performed anew, how many items stand before its notices, how many
/// entered, the report, and whether it can be withdrawn.
#[derive(Drop)]
pub struct Left {
    pub store: Store,
    pub from: usize,
    pub behind: StoredItems,
    pub stamps: Stamps,
    pub next: u32,
    pub place: u32,
    pub placed: u32,
    pub entered: u32,
    pub report: Report,
    pub undoes: bool,
}

/// The same under the key of its request, with where the texts lie, and room for the items behind the place, where they are to be
/// kept. It can be put in place with no memory taken.
#[derive(Drop)]
pub struct Remade {
    pub(crate) left: Left,
    pub(crate) key: Name,
    pub(crate) shelf: Shelf,
    pub(crate) later: Vec<StoredItem>,
}

impl Remade {
    /// What the cycle reports.
    pub fn report(&self) -> &Report
        ensures { result.now ≡ self.now.left.report }
    {
        &self.left.report
    }
}

/// The items behind its place, where they are to be kept.
fn later_in<'a>(items: &'a [StoredItem], left: &Left) -> &'a [StoredItem]
    requires { left.now.place ≤ length items.now }
    ensures { result.now ≡ items_behind (undone_left items.now left.now) }
{
    if left.undoes {
        return items.split_at(left.place as usize).1;
    }
    items.split_at(items.len()).1
}

/// Where the texts of all items lie that may be asked for afterwards.
fn noted_over(
    alloc: Global,
    base: &Base,
    items: &[StoredItem],
    old: &Shelf,
    fresh: &Fresh,
    left: &Left,
) -> Result<Shelf, NoMemory>
    requires from { left.now.from ≤ length items.now }
    requires place { left.now.place ≤ length items.now }
    requires apart { NumbersApart (timeline_left items.now left.now) }
    requires noted { AllByRecursion (IsNotedIn old.now.notes) items.now }
    ensures notes { IfOk result (λ shelf. (body : TheBody) → note_of shelf.notes body ≡ renoted old.now.notes fresh.now base.now.texts (asked_left items.now left.now) body) }
    ensures sizes { IfOk result (λ shelf. SizesOf shelf.notes base.now.texts (asked_left items.now left.now)) }
{
    let later = later_in(items, left);
    noted_anew(
        alloc,
        old,
        fresh,
        base.texts(),
        items.split_at(left.from).0,
        left.behind.as_slice(),
        later,
    )
}

/// Makes room for one report more, and for the items that come in, and notes where the texts of all items lie that may be asked for
/// afterwards.
fn noted_with_room(
    alloc: Global,
    base: &Base,
    reports: &mut Vec<(Name, Report)>,
    timeline: &mut Numbered,
    old: &Shelf,
    fresh: &Fresh,
    left: &Left,
) -> Result<Shelf, NoMemory>
    requires from { left.now.from ≤ length timeline.old.items }
    requires place { left.now.place ≤ length timeline.old.items }
    requires apart { NumbersApart (timeline_left timeline.old.items left.now) }
    requires noted { AllByRecursion (IsNotedIn old.now.notes) timeline.old.items }
    ensures same { reports.new.items ≡ reports.old.items }
    ensures items { timeline.new.items ≡ timeline.old.items }
    ensures room { OnOk result (vec_len reports.new < vec_capacity reports.new) }
    ensures places { OnOk result (length left.now.behind ≤ timeline.new.room) }
    ensures notes { IfOk result (λ shelf. (body : TheBody) → note_of shelf.notes body ≡ renoted old.now.notes fresh.now base.now.texts (asked_left timeline.old.items left.now) body) }
    ensures sizes { IfOk result (λ shelf. SizesOf shelf.notes base.now.texts (asked_left timeline.old.items left.now)) }
{
    reports.reserve(1)?;
    timeline.make_room_for(left.behind.len())?;
    noted_over(alloc, base, timeline.as_slice(), old, fresh, left)
}

/// Room for the items behind a place.
fn room_behind(alloc: Global, items: usize, place: u32) -> Result<Vec<StoredItem>, NoMemory>
    requires { place ≤ items }
    ensures none { IfOk result (λ later. later.items ≡ []) }
    ensures room { IfOk result (λ later. vec_len later + (items - place) ≤ vec_capacity later) }
{
    Ok(Vec::with_capacity(alloc, items - place as usize)?)
}

/// What is left, with its notes and room for what it leaves to be withdrawn.
fn completed(
    alloc: Global,
    key: Name,
    left: Left,
    shelf: Result<Shelf, NoMemory>,
    items: usize,
) -> Result<Remade, NoMemory>
    requires { left.place ≤ items }
    ensures shelf { IfOk result (λ made. shelf ≡ Ok made.shelf) }
    ensures left { IfOk result (λ made. made.left ≡ left) }
    ensures key { IfOk result (λ made. made.key ≡ key) }
    ensures none { IfOk result (λ made. made.later.items ≡ []) }
    ensures room { IfOk result (λ made. vec_len made.later + (items - left.place) ≤ vec_capacity made.later) }
{
    let shelf = match shelf {
        Ok(shelf) => shelf,
        Err(NoMemory) => {
            drop(left);
            drop(key);
            return Err(NoMemory);
        }
    };
    match room_behind(alloc, items, left.place) {
        Ok(later) => Ok(Remade {
            left,
            key,
            shelf,
            later,
        }),
        Err(NoMemory) => {
            drop(left);
            drop(key);
            drop(shelf);
            Err(NoMemory)
        }
    }
}

/// What a cycle leaves to be withdrawn.
fn undone(
    left: bool,
    report: &Report,
    later: Vec<StoredItem>,
    position: u32,
    placed: u32,
) -> Option<UndoneBehind>
    ensures { result ≡ (if left then Some (record { cycle = report.now.cycle; point = report.now.point; later = later.items; position = position; placed = placed }) else None) }
{
    if left {
        return Some(UndoneBehind {
            cycle: report.cycle,
            point: report.point,
            later: StoredItems::from_vec(later),
            position,
            placed,
        });
    }
    drop(later);
    None
}

/// Puts a value in the place of another.
fn put<T: Drop>(place: &mut T, value: T)
    ensures { place.new ≡ value }
{
    *place = value;
}

impl Desk {
    /// Makes what a repair leaves ready, under the key of its request. That is where the texts of all items lie that may be asked for afterwards, in
    /// any order of numbers, and room for the items and for the report. A text keeps the note that its body had; another lies in the repair's own
    /// record, and a notice's, which no record holds, is noted there from 0. The desk stays as it was but for its room.
    pub fn remake(
        &mut self,
        alloc: Global,
        key: Name,
        left: Left,
        fresh: &Fresh,
    ) -> Result<Remade, NoMemory>
        requires fits { FitsIn self.old.kept left }
        requires undone { LeavesUndone self.old.kept left }
        ensures kept { self.new.kept ≡ self.old.kept }
        ensures same { self.new.notes ≡ self.old.notes }
        ensures marks { self.new.marks ≡ self.old.marks }
        ensures remakes { IfOk result (Remakes self.old self.new key left fresh.now) }
    {
        let shelf = noted_with_room(
            alloc,
            &self.base,
            &mut self.reports,
            &mut self.timeline,
            &self.shelf,
            fresh,
            &left,
        );
        completed(alloc, key, left, shelf, self.timeline.as_slice().len())
    }

    /// Puts what a repair leaves in place, and forgets the snapshots behind its place. The first items stay where they are. It
    /// takes no memory.
    pub fn replace(&mut self, remade: Remade)
        requires { CanReplace remade self.old }
        ensures kept { self.new.kept ≡ remade_as self.old.kept remade }
        ensures notes { self.new.notes ≡ remade.shelf.notes }
        ensures marks { self.new.marks ≡ marks_at_or_before remade.left.place self.old.marks }
    {
        let Remade {
            left,
            key,
            shelf,
            later,
        } = remade;
        let Left {
            store,
            from,
            behind,
            stamps,
            next,
            place,
            placed,
            entered,
            report,
            undoes,
        } = left;
        put(&mut self.store, store);
        let later = self.timeline.go_on(from, behind, place as usize, later);
        put(
            &mut self.undone,
            undone(undoes, &report, later, place, placed),
        );
        put(&mut self.stamps, stamps);
        self.shelf.take_notes(shelf);
        self.shelf.forget_after(place);
        self.next = next;
        self.since += entered;
        put_report(&mut self.reports, key, report);
    }
}
