//! What items show after a cycle.
ghost use Rattle.std.specs.Prelude.{◌≡◌, IfOk, OnOk};
ghost use Rattle.cycle_rules.specs.Judging.{shown_after, shown_by};

use crate::judge::rest;
use paradox::broken;
use std::alloc::Global;
use stored_items::{StoredItem, StoredItems};
use undo_base::{Copies, NoMemory};
use verb_core::Shown;

/// Lets an item show the first of these answers, where what it showed no longer holds.
#[tactic(auto, using(crate::proofs::Heard::broken_stored))]
fn show_one(alloc: Global, item: &mut StoredItem, now: &[Shown]) -> Result<(), NoMemory>
    ensures { OnOk result (item.new ≡ shown_by item.old now.now) }
{
    if let Some(shown) = now.first() {
        if broken(item.item(), shown).is_some() {
            item.show(shown.copy(alloc)?);
        }
    }
    Ok(())
}

/// Lets the items behind the first so many show their answers, where what they showed no longer holds.
fn show_all(
    alloc: Global,
    front: usize,
    items: &mut Vec<StoredItem>,
    now: &[Shown],
) -> Result<(), NoMemory>
    ensures { OnOk result (items.new.items ≡ shown_after front items.old.items now.now) }
{
    let mut left = front;
    let mut now = now;
    for item in items.iter_mut() {
        if left == 0 {
            show_one(alloc, item, now)?;
            now = rest(now);
        } else {
            left -= 1;
        }
    }
    Ok(())
}

/// The items, of which those behind the first so many show their answers, where what they showed no longer holds.
pub(crate) fn show(
    alloc: Global,
    front: usize,
    items: StoredItems,
    now: &[Shown],
) -> Result<StoredItems, NoMemory>
    ensures { IfOk result (λ all. all ≡ shown_after front items now.now) }
{
    let mut items = items.into_vec();
    match show_all(alloc, front, &mut items, now) {
        Ok(()) => Ok(StoredItems::from_vec(items)),
        Err(NoMemory) => Err(NoMemory),
    }
}
