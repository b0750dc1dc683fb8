//! The timeline after the repairs that are asked for.
//!
//! The timeline comes as it is kept in memory: stored items, which contracts see as whole items. A repair copies no text but that
//! of an act that comes in, for a moment.
//!
//! `edit` asks nothing of the timeline. Of a list that has a number twice, the first item of the point's number is the point, and
//! each later item of a number is dropped or gets its text.
//!
//! `kept` is 32 bits wide: more later items than these hold find no memory. A timeline's distinct numbers do not allow so many.
//!
//! `edit_at` takes the place of a point that was found before, so that Point and Numbers are refused before anything is copied.
ghost use Rattle.std.specs.Prelude.{◌≡◌, ◌+◌, ◌++◌, ◌≤◌, ◌^◌, drop, length, map, Some, IfOk, IfErr, IsErr};
ghost use Rattle.repair_desk.specs.Refusing.{IsRefusalOf};
ghost use Rattle.repair_desk.specs.Repairs.{edited as edits, edited_at, edited_behind, inserted, kept as kept_of, repaired, unmatched as unmatched_of};

use crate::asked::Asked;
use crate::inserts::push_inserts;
use crate::items::push_copies;
use crate::later::{push_kept, withdrawn};
use crate::point::position_of;
use crate::unmatched::unmatched;
use std::alloc::Global;
use stored_items::{StoredItem, StoredItems};
use undo_base::{LAST_NUMBER, NoMemory, Numbers};
use verb_bytes::CycleAsk;

/// A repaired timeline: its items, how many of the later ones stayed, those of them that users made and that went, and the
/// asked numbers that did nothing.
#[derive(Drop)]
pub struct Edited {
    pub items: StoredItems,
    pub kept: u32,
    pub withdrawn: StoredItems,
    pub unmatched: Numbers,
}

/// A repaired timeline behind its first so many items: the items there, how many of the later ones stayed, and the asked numbers
/// that did nothing.
#[derive(Drop)]
pub struct EditedBehind {
    pub items: StoredItems,
    pub kept: u32,
    pub unmatched: Numbers,
}

/// Why a timeline was not repaired. `Point` has the point that the timeline does not have.
#[derive(Clone, Copy, Debug, PartialEq, Eq)]
pub enum EditRefused {
    Point { given: u32 },
    NoMemory,
}

impl From<NoMemory> for EditRefused {
    ghost use Rattle.std.specs.Prelude.{◌≡◌};
    ghost use Rattle.repair_desk.specs.declared.editing.EditRefused.TheVariants.{NoMemory as no_memory};

    ghost from_gives = { λ _ refused. refused ≡ no_memory };

    fn from(_: NoMemory) -> Self {
        EditRefused::NoMemory
    }
}

/// The items of the new timeline behind the first so many: those through the place, the acts, and the later ones that stay.
fn new_items(
    alloc: Global,
    front: &[StoredItem],
    later: &[StoredItem],
    ask: &CycleAsk,
    asked: &Asked<'_>,
    c: u32,
    at: u64,
    from: usize,
) -> Result<StoredItems, NoMemory>
    requires asked { asked.now ≡ ask.now }
    requires numbers { c + length ask.now.inserts ≤ LAST_NUMBER }
    requires from { from ≤ length front.now }
    ensures { IfOk result (λ items. items ≡ drop from (front.now ++ inserted c at ask.now.inserts ++ map (repaired ask.now c) (kept_of ask.now later.now))) }
{
    let mut items = StoredItems::new(alloc);
    push_copies(alloc, &mut items, front.split_at(from).1)?;
    push_inserts(alloc, &mut items, ask.inserts.as_slice(), c, at)?;
    push_kept(alloc, &mut items, asked, later, c)?;
    Ok(items)
}

/// How many later items stay.
fn count_kept(asked: &Asked<'_>, later: &[StoredItem]) -> usize
    ensures { result ≡ length (kept_of asked.now later.now) }
{
    let mut count = 0;
    for item in later {
        if !asked.drops(item) {
            count += 1;
        }
    }
    count
}

/// The same in 32 bits. More than these hold find no memory.
fn kept_later(asked: &Asked<'_>, later: &[StoredItem]) -> Result<u32, NoMemory>
    ensures count { IfOk result (λ count. count ≡ length (kept_of asked.now later.now)) }
    ensures more { IsErr result → 2 ^ 32 ≤ length (kept_of asked.now later.now) }
{
    match u32::try_from(count_kept(asked, later)) {
        Ok(count) => Ok(count),
        Err(_) => Err(NoMemory),
    }
}

/// The repaired timeline behind the first so many items, from those through the place and the later ones.
fn behind(
    alloc: Global,
    front: &[StoredItem],
    later: &[StoredItem],
    ask: &CycleAsk,
    asked: &Asked<'_>,
    c: u32,
    at: u64,
    from: usize,
) -> Result<EditedBehind, NoMemory>
    requires asked { asked.now ≡ ask.now }
    requires numbers { c + length ask.now.inserts ≤ LAST_NUMBER }
    requires from { from ≤ length front.now }
    ensures items { IfOk result (λ edited. edited.items ≡ drop from (front.now ++ inserted c at ask.now.inserts ++ map (repaired ask.now c) (kept_of ask.now later.now))) }
    ensures kept { IfOk result (λ edited. edited.kept ≡ length (kept_of ask.now later.now)) }
    ensures unmatched { IfOk result (λ edited. edited.unmatched ≡ unmatched_of ask.now later.now) }
{
    let kept = kept_later(asked, later)?;
    let unmatched = unmatched(alloc, ask, asked, later)?;
    let items = new_items(alloc, front, later, ask, asked, c, at, from)?;
    Ok(EditedBehind {
        items,
        kept,
        unmatched,
    })
}

/// The same as `edit_at`, but for the first so many items, none of which the repairs touch, and for those that go: of these no
/// copy is made. In time that grows as the items behind them.
pub fn edit_behind(
    alloc: Global,
    timeline: &[StoredItem],
    ask: &CycleAsk,
    c: u32,
    at: u64,
    from: usize,
    place: usize,
) -> Result<EditedBehind, NoMemory>
    requires from { from ≤ place }
    requires place { place ≤ length timeline.now }
    requires numbers { c + length ask.now.inserts ≤ LAST_NUMBER }
    ensures { IfOk result (λ edited. edited ≡ edited_behind timeline.now ask.now c at from place) }
{
    let (front, later) = timeline.split_at(place);
    let asked = Asked::of(alloc, ask)?;
    behind(alloc, front, later, ask, &asked, c, at, from)
}

/// The timeline after the repairs of the cycle `c` at a moment, cut behind the place of its point, which `position_of` finds.
pub fn edit_at(
    alloc: Global,
    timeline: &[StoredItem],
    ask: &CycleAsk,
    c: u32,
    at: u64,
    place: usize,
) -> Result<Edited, NoMemory>
    requires place { place ≤ length timeline.now }
    requires numbers { c + length ask.now.inserts ≤ LAST_NUMBER }
    ensures { IfOk result (λ edited. edited ≡ edited_at timeline.now ask.now c at place) }
{
    let (front, later) = timeline.split_at(place);
    let asked = Asked::of(alloc, ask)?;
    let withdrawn = withdrawn(alloc, &asked, later)?;
    let whole = behind(alloc, front, later, ask, &asked, c, at, 0)?;
    Ok(Edited {
        items: whole.items,
        kept: whole.kept,
        withdrawn,
        unmatched: whole.unmatched,
    })
}

/// The timeline after the repairs of the cycle `c` at a moment. That is the items through the point, the acts that come in with
/// the numbers behind `c`, and the later items that stay, those whose text was replaced with the rev `c`. In time that grows as
/// the timeline and the ask times the logarithm of the ask, beside the copies of texts.
pub fn edit(
    alloc: Global,
    timeline: &StoredItems,
    ask: &CycleAsk,
    c: u32,
    at: u64,
) -> Result<Edited, EditRefused>
    requires { c + length ask.now.inserts ≤ LAST_NUMBER }
    ensures ok { IfOk result (λ edited. edits timeline.now ask.now c at ≡ Some edited) }
    ensures point { IfErr result (IsRefusalOf timeline.now ask.now) }
{
    match position_of(timeline.as_slice(), ask.point) {
        Some(place) => Ok(edit_at(alloc, timeline.as_slice(), ask, c, at, place)?),
        None => Err(EditRefused::Point { given: ask.point }),
    }
}
