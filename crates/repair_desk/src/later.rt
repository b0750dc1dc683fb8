//! The later items, those that stay and those that go.
//!
//! Acts and notices can be dropped; nobody made them, so they are not withdrawn.
ghost use Rattle.std.specs.Prelude.{◌≡◌, ◌++◌, map, IfOk, OnOk};
ghost use Rattle.repair_desk.specs.Repairs.{kept, repaired as is_repaired, withdrawn as withdrawn_of};

use crate::asked::Asked;
use crate::items::repaired;
use std::alloc::Global;
use stored_items::{StoredItem, StoredItems};
use undo_base::{Copies, NoMemory};

/// Adds the later items that stay at the end, with the texts that are asked for them.
pub(crate) fn push_kept(
    alloc: Global,
    items: &mut StoredItems,
    asked: &Asked<'_>,
    later: &[StoredItem],
    c: u32,
) -> Result<(), NoMemory>
    ensures { OnOk result (items.new ≡ items.old ++ map (is_repaired asked.now c) (kept asked.now later.now)) }
{
    for item in later {
        if !asked.drops(item) {
            items.push(repaired(alloc, asked, item, c)?)?;
        }
    }
    Ok(())
}

/// Copies of the later items that go and that a user made.
pub(crate) fn withdrawn(
    alloc: Global,
    asked: &Asked<'_>,
    later: &[StoredItem],
) -> Result<StoredItems, NoMemory>
    ensures { IfOk result (λ items. items ≡ withdrawn_of asked.now later.now) }
{
    let mut items = StoredItems::new(alloc);
    for item in later {
        if asked.drops(item) && item.item().by.is_some() {
            items.push(item.copy(alloc)?)?;
        }
    }
    Ok(items)
}
