//! The plan of items.
//!
//! The level of an item is told as the least number from 1 that passes, up to one behind the number of earlier items, which
//! always passes. A plan of more than 4,294,967,294 items finds no memory, since its places could not be numbers of 32 bits.
ghost use Rattle.std.specs.Prelude.{◌≡◌, ◌≤◌, ◌<◌, ◌+◌, length, IfOk, OnOk};
ghost use Rattle.replay_plan.specs.Placing.{levels_by_item, levels_of};
ghost use Rattle.replay_plan.specs.Slots.{bound, Leads, SameTaken, IsUntaken};

use crate::Levels;
use crate::by_level::gathered;
use crate::last::{item_bound, raise_item};
use crate::skips::{free_level, take_item};
use crate::slots::Table;
use std::alloc::Global;
use touch_rules::{Touch, TouchList, TouchSet};
use undo_base::NoMemory;

/// The level of an item: the first above those of the earlier items with which it does not commute that none has of which
/// it is not independent.
fn level_of<'a>(
    alloc: Global,
    last: &Table<'a>,
    next: &mut Table<'a>,
    touches: &'a [Touch],
    end: u32,
) -> Result<u32, NoMemory>
    requires few { bound last.now touches.now < end }
    requires leads { Leads end next.old }
    ensures same { OnOk result (SameTaken next.old next.new) }
    ensures leads { OnOk result (Leads end next.new) }
    ensures level { IfOk result (IsUntaken next.old touches.now (bound last.now touches.now + 1)) }
{
    let low = item_bound(alloc, last, touches)? + 1;
    free_level(next, touches, low, end)
}

/// The level of each item.
fn each_level(alloc: Global, all: &[TouchSet]) -> Result<Vec<u32>, NoMemory>
    requires { length all.now < 4294967295 }
    ensures { IfOk result (λ levels. levels.items ≡ levels_by_item all.now) }
{
    let end = all.len() as u32 + 1;
    let mut last = Table::new(alloc);
    let mut next = Table::new(alloc);
    let mut levels = Vec::new(alloc);
    for place in 0..all.len() {
        let touches = all[place].as_slice();
        let level = level_of(alloc, &last, &mut next, touches, end)?;
        raise_item(alloc, &mut last, touches, level)?;
        take_item(&mut next, touches, level, end)?;
        levels.push(level)?;
    }
    Ok(levels)
}

/// The plan of items, by what each touches. More than 4,294,967,294 items find no memory.
pub fn plan(alloc: Global, all: &TouchList) -> Result<Levels, NoMemory>
    ensures { IfOk result (λ levels. levels ≡ levels_of all.now) }
{
    if all.len() >= 4294967295 {
        return Err(NoMemory);
    }
    let levels = each_level(alloc, all.as_slice())?;
    gathered(alloc, levels.as_slice())
}
