//! The levels that are taken at a place, and the next that is not.
//!
//! A level is noted as taken at the place of a touch, and not at its user too. Two items that meet only by an Every do not
//! commute, so the later one has a higher level by the last levels alone. So a RENAME costs no more than a touch of one mailbox,
//! whatever its user has. Any other touch costs one look more than without and one note.
//!
//! A level that is taken leads to a later one past levels that are taken too. What a search passes is made to lead further, so
//! that it is not passed again and again. Where an item touches several places, each place's levels are passed in turn until all
//! let it stay: that may take as many turns as levels are passed.
ghost use Rattle.std.specs.Prelude.{◌≡◌, ◌≤◌, ◌<◌, ◌||◌, max, nat_lt, IfOk, OnOk, [], ◌∷◌};
ghost use Rattle.std.specs.List.{list_any};
ghost use Rattle.replay_plan.specs.declared.slots.Part.TheVariants.{Level};
ghost use Rattle.replay_plan.specs.Slots.{spot_on, level_at, is_at, Leads, SameTaken, IsNextFree, IsPast, IsUntaken};

use crate::parts::slot_on;
use crate::slots::{Part, Table};
use touch_rules::Touch;
use undo_base::NoMemory;

/// Where a level leads; 0 where it is not taken.
fn look<'a>(next: &Table<'a>, touch: &'a Touch, written: bool, level: u32) -> u32
    ensures { result ≡ level_at next.now (spot_on touch.now written (Level level)) }
{
    let slot = slot_on(touch, Part::Level(level));
    next.get(&slot, written)
}

/// With a level that is taken leading as far as the one that it leads to.
fn shorten<'a>(
    next: &mut Table<'a>,
    touch: &'a Touch,
    written: bool,
    level: u32,
    further: u32,
    end: u32,
) -> Result<(), NoMemory>
    requires leads { Leads end next.old }
    requires taken { 1 ≤ further }
    requires further { further ≡ level_at next.old (spot_on touch.now written (Level level)) }
    ensures same { OnOk result (SameTaken next.old next.new) }
    ensures leads { OnOk result (Leads end next.new) }
{
    let beyond = look(next, touch, written, further);
    if beyond > 0 {
        let slot = slot_on(touch, Part::Level(level));
        next.set(slot, written, beyond)?;
    }
    Ok(())
}

/// The first level from one on that is not taken. What is passed over is shortened, so that it is not passed again.
fn first_free<'a>(
    next: &mut Table<'a>,
    touch: &'a Touch,
    written: bool,
    level: u32,
    end: u32,
) -> Result<u32, NoMemory>
    requires leads { Leads end next.old }
    ensures same { OnOk result (SameTaken next.old next.new) }
    ensures leads { OnOk result (Leads end next.new) }
    ensures free { IfOk result (IsNextFree end next.old (spot_on touch.now written (Level level)) level) }
{
    let mut free = level;
    let mut further = look(next, touch, written, free);
    while further > 0 {
        shorten(next, touch, written, free, further, end)?;
        free = further;
        further = look(next, touch, written, free);
    }
    Ok(free)
}

/// A level from one on, past levels that are taken for an item; it is the same level where that one is free.
fn past_item<'a>(
    next: &mut Table<'a>,
    touches: &'a [Touch],
    level: u32,
    end: u32,
) -> Result<u32, NoMemory>
    requires leads { Leads end next.old }
    ensures same { OnOk result (SameTaken next.old next.new) }
    ensures leads { OnOk result (Leads end next.new) }
    ensures past { IfOk result (IsPast end next.old touches.now level) }
{
    let mut free = level;
    for touch in touches {
        free = first_free(next, touch, !touch.writes(), free, end)?;
    }
    Ok(free)
}

/// The first level from one on that is not taken for an item.
pub(crate) fn free_level<'a>(
    next: &mut Table<'a>,
    touches: &'a [Touch],
    low: u32,
    end: u32,
) -> Result<u32, NoMemory>
    requires leads { Leads end next.old }
    ensures same { OnOk result (SameTaken next.old next.new) }
    ensures leads { OnOk result (Leads end next.new) }
    ensures free { IfOk result (IsUntaken next.old touches.now low) }
{
    let mut level = low;
    let mut free = past_item(next, touches, level, end)?;
    while free > level {
        level = free;
        free = past_item(next, touches, level, end)?;
    }
    Ok(level)
}

/// With a level that is taken by a touch. One that is taken already leads as far as before.
fn take_touch<'a>(
    next: &mut Table<'a>,
    touch: &'a Touch,
    level: u32,
    end: u32,
) -> Result<(), NoMemory>
    requires leads { Leads end next.old }
    requires below { level < end }
    ensures taken { OnOk result ((spot : _) → nat_lt 0 (level_at next.new spot) ≡ (is_at (Level level ∷ []) touch.now spot || nat_lt 0 (level_at next.old spot))) }
    ensures leads { OnOk result (Leads end next.new) }
{
    let slot = slot_on(touch, Part::Level(level));
    next.raise(slot, touch.writes(), level + 1)?;
    Ok(())
}

/// With a level that is taken by an item.
pub(crate) fn take_item<'a>(
    next: &mut Table<'a>,
    touches: &'a [Touch],
    level: u32,
    end: u32,
) -> Result<(), NoMemory>
    requires leads { Leads end next.old }
    requires below { level < end }
    ensures taken { OnOk result ((spot : _) → nat_lt 0 (level_at next.new spot) ≡ (list_any (λ a. is_at (Level level ∷ []) a spot) touches.now || nat_lt 0 (level_at next.old spot))) }
    ensures leads { OnOk result (Leads end next.new) }
{
    for touch in touches {
        take_touch(next, touch, level, end)?;
    }
    Ok(())
}
