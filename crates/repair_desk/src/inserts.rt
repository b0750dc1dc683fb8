//! The acts that come in.
ghost use Rattle.std.specs.Prelude.{◌≡◌, ◌+◌, ◌≤◌, ◌++◌, length, OnOk};
ghost use Rattle.repair_desk.specs.Repairs.{inserted};

use std::alloc::Global;
use stored_items::{StoredItem, StoredItems};
use undo_base::{LAST_NUMBER, NoMemory};
use verb_core::{Act, Item};

/// Adds the items of acts at the end, with the numbers behind `c`.
pub(crate) fn push_inserts(
    alloc: Global,
    items: &mut StoredItems,
    acts: &[Act],
    c: u32,
    at: u64,
) -> Result<(), NoMemory>
    requires { c + length acts.now ≤ LAST_NUMBER }
    ensures { OnOk result (items.new ≡ items.old ++ inserted c at acts.now) }
{
    let mut number = c;
    for act in acts {
        number += 1;
        let item = Item::of_act(alloc, number, at, act)?;
        items.push(StoredItem::of(alloc, item))?;
    }
    Ok(())
}
