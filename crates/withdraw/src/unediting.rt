//! The timeline without the last cycle.
ghost use Rattle.std.specs.Prelude.{◌≡◌, ◌++◌, ◌≤◌, drop, length, map, IfOk, OnOk};
ghost use Rattle.withdraw.specs.Unediting.{as_shown, unedited, unedited_behind};

use crate::numbered::ByNumber;
use crate::undone::{Undone, UndoneBehind};
use std::alloc::Global;
use stored_items::{StoredItem, StoredItems};
use undo_base::{Copies, NoMemory};

/// The items behind the first so many.
fn behind(items: &[StoredItem], count: usize) -> &[StoredItem]
    ensures { result.now ≡ drop count items.now }
{
    if count < items.len() {
        items.split_at(count).1
    } else {
        &[]
    }
}

/// Adds copies of items at the end.
fn push_copies(alloc: Global, items: &mut StoredItems, more: &[StoredItem]) -> Result<(), NoMemory>
    ensures { OnOk result (items.new ≡ items.old ++ more.now) }
{
    for item in more {
        items.push(item.copy(alloc)?)?;
    }
    Ok(())
}

/// The same, as they are shown among others.
fn push_shown(
    alloc: Global,
    items: &mut StoredItems,
    present: &ByNumber<'_>,
    before: &[StoredItem],
) -> Result<(), NoMemory>
    ensures { OnOk result (items.new ≡ items.old ++ map (as_shown present.now) before.now) }
{
    for item in before {
        items.push(present.as_shown(alloc, item)?)?;
    }
    Ok(())
}

/// The timeline without the last cycle, of the present one. First stand the items before the cycle, each with its own text and
/// rev, where those that are there at present show what they show there. Behind them stand those that came after the cycle's own,
/// its notices first. In time that grows as both lists times the logarithm of the present one.
pub fn unedit(alloc: Global, present: &StoredItems, last: &Undone) -> Result<StoredItems, NoMemory>
    ensures { IfOk result (λ items. items ≡ unedited present.now last.now) }
{
    let shown = ByNumber::of(alloc, present.as_slice())?;
    let mut items = StoredItems::new(alloc);
    push_shown(alloc, &mut items, &shown, last.before.as_slice())?;
    push_copies(
        alloc,
        &mut items,
        behind(present.as_slice(), last.placed as usize),
    )?;
    Ok(items)
}

/// The same by what stood behind the point alone, but for the first so many items, which the cycle did not touch: of these no
/// copy is made.
pub fn unedit_behind(
    alloc: Global,
    present: &[StoredItem],
    last: &UndoneBehind,
    from: usize,
) -> Result<StoredItems, NoMemory>
    requires from { from ≤ last.now.position }
    requires position { last.now.position ≤ length present.now }
    ensures { IfOk result (λ items. items ≡ drop from (unedited_behind present.now last.now)) }
{
    let (front, later) = present.split_at(last.position as usize);
    let shown = ByNumber::of(alloc, later)?;
    let mut items = StoredItems::new(alloc);
    push_copies(alloc, &mut items, front.split_at(from).1)?;
    push_shown(alloc, &mut items, &shown, last.later.as_slice())?;
    push_copies(alloc, &mut items, behind(present, last.placed as usize))?;
    Ok(items)
}
