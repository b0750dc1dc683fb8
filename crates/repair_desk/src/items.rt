//! Items, with another text.
//!
//! A notice has a text, but it can't be replaced.
//!
//! A replaced text takes the whole place of the stored body, trace lines included; it may be empty. It is not looked at as mail:
//! filters look at it when its delivery is done again.
//!
//! A notice can be dropped, and be a point. Dropping one tells nobody, unless somebody had read it.
ghost use Rattle.std.specs.Prelude.{◌≡◌, ◌++◌, Some, IfOk, OnOk};
ghost use Rattle.repair_desk.specs.Repairs.{repaired as is_repaired, replaced_by, takes_text as has_text};

use crate::asked::Asked;
use std::alloc::Global;
use stored_items::{StoredItem, StoredItems};
use undo_base::{Copies, NoMemory, Text};

/// Whether an item has a text that can be replaced: all but a notice's.
pub(crate) fn takes_text(item: &StoredItem) -> bool
    ensures { result ≡ has_text item.now.deed }
{
    item.has_text() && !item.is_notice()
}

/// A copy of an item with another text, under the rev `c`, where it can have one.
fn item_with_text(
    alloc: Global,
    item: &StoredItem,
    text: &Text,
    c: u32,
) -> Result<StoredItem, NoMemory>
    ensures { IfOk result (λ copy. copy ≡ replaced_by c item.now (Some text.now)) }
{
    if takes_text(item) {
        item.replaced(alloc, text, c)
    } else {
        item.copy(alloc)
    }
}

/// A copy of an item, with the text that is asked for it.
pub(crate) fn repaired(
    alloc: Global,
    asked: &Asked<'_>,
    item: &StoredItem,
    c: u32,
) -> Result<StoredItem, NoMemory>
    ensures { IfOk result (λ copy. copy ≡ is_repaired asked.now c item.now) }
{
    match asked.text(item) {
        Some(text) => item_with_text(alloc, item, text, c),
        None => item.copy(alloc),
    }
}

/// Adds copies of items at the end.
pub(crate) fn push_copies(
    alloc: Global,
    items: &mut StoredItems,
    more: &[StoredItem],
) -> Result<(), NoMemory>
    ensures { OnOk result (items.new ≡ items.old ++ more.now) }
{
    for item in more {
        items.push(item.copy(alloc)?)?;
    }
    Ok(())
}
