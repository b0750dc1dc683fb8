//! Notices, as items that are performed last.
//!
//! The items of notices have rev 0, no user, and show nothing.
ghost use Rattle.std.specs.Prelude.{◌≡◌, ◌+◌, ◌≤◌, length, IfOk};
ghost use Rattle.cycle_rules.specs.Cycles.{notice_item as item_of, notice_items};

use std::alloc::Global;
use undo_base::{Copies, LAST_NUMBER, NoMemory, Text, User};
use verb_core::{Deed, Item, Items, Shown};

/// A notice as an item.
fn notice_item(alloc: Global, number: u32, at: u64, notice: &(User, Text)) -> Result<Item, NoMemory>
    ensures { IfOk result (λ item. item ≡ item_of number at notice.now) }
{
    Ok(Item {
        number,
        at,
        by: None,
        rev: 0,
        deed: Deed::Notice {
            user: notice.0,
            text: notice.1.copy(alloc)?,
        },
        shown: Shown::Nothing,
    })
}

/// Notices as items of a moment, with the numbers behind the given one.
pub(crate) fn items_of(
    alloc: Global,
    notices: &[(User, Text)],
    last: u32,
    at: u64,
) -> Result<Items, NoMemory>
    requires { last + length notices.now ≤ LAST_NUMBER }
    ensures { IfOk result (λ items. items ≡ notice_items last at notices.now) }
{
    let mut items = Items::new(alloc);
    let mut number = last;
    for notice in notices {
        number += 1;
        items.push(notice_item(alloc, number, at, notice)?)?;
    }
    Ok(items)
}
