//! The last levels of the parts of places.
ghost use Rattle.std.specs.Prelude.{◌≡◌, ◌<◌, [], ◌∷◌, max, map, IfOk, OnOk, if◌then◌else◌};
ghost use Rattle.std.specs.List.{list_any};
ghost use Rattle.replay_plan.specs.Placing.{highest};
ghost use Rattle.replay_plan.specs.Slots.{level_at, parts_of, asked_by, asked_on, is_at, bound};

use crate::parts::{asked, parts, slot_on};
use crate::slots::{Part, Table, higher};
use std::alloc::Global;
use touch_rules::Touch;
use undo_base::NoMemory;

/// With the level of a touch at these parts of its place.
fn raise_parts<'a>(
    last: &mut Table<'a>,
    touch: &'a Touch,
    parts: &[Part],
    level: u32,
) -> Result<(), NoMemory>
    ensures { OnOk result ((spot : _) → level_at last.new spot ≡ max (if list_any (λ part. is_at (part ∷ []) touch.now spot) parts.now then level else 0) (level_at last.old spot)) }
{
    for part in parts {
        let slot = slot_on(touch, *part);
        last.raise(slot, touch.writes(), level)?;
    }
    Ok(())
}

/// With the level of a touch.
fn raise_touch<'a>(
    alloc: Global,
    last: &mut Table<'a>,
    touch: &'a Touch,
    level: u32,
) -> Result<(), NoMemory>
    ensures { OnOk result ((spot : _) → level_at last.new spot ≡ max (if is_at (parts_of touch.now) touch.now spot then level else 0) (level_at last.old spot)) }
{
    let parts = parts(alloc, touch)?;
    raise_parts(last, touch, parts.as_slice(), level)?;
    Ok(())
}

/// With the level of an item.
pub(crate) fn raise_item<'a>(
    alloc: Global,
    last: &mut Table<'a>,
    touches: &'a [Touch],
    level: u32,
) -> Result<(), NoMemory>
    ensures { OnOk result ((spot : _) → level_at last.new spot ≡ max (if list_any (λ a. is_at (parts_of a) a spot) touches.now then level else 0) (level_at last.old spot)) }
{
    for touch in touches {
        raise_touch(alloc, last, touch, level)?;
    }
    Ok(())
}

/// The highest level at these parts of a touch's place.
fn highest_at<'a>(last: &Table<'a>, touch: &'a Touch, parts: &[Part]) -> u32
    ensures { result ≡ highest (map (λ part. level_at last.now (asked_on touch.now part)) parts.now) }
{
    let mut high = 0;
    for part in parts {
        let slot = slot_on(touch, *part);
        high = higher(high, last.get(&slot, !touch.writes()));
    }
    high
}

/// The last level behind which a touch must come.
fn touch_bound<'a>(alloc: Global, last: &Table<'a>, touch: &'a Touch) -> Result<u32, NoMemory>
    ensures { IfOk result (λ level. level ≡ highest (map (λ part. level_at last.now (asked_on touch.now part)) (asked_by touch.now))) }
{
    let parts = asked(alloc, touch)?;
    Ok(highest_at(last, touch, parts.as_slice()))
}

/// The last level behind which an item must come.
pub(crate) fn item_bound<'a>(
    alloc: Global,
    last: &Table<'a>,
    touches: &'a [Touch],
) -> Result<u32, NoMemory>
    ensures { IfOk result (λ level. level ≡ bound last.now touches.now) }
{
    let mut high = 0;
    for touch in touches {
        let level = touch_bound(alloc, last, touch)?;
        high = higher(high, level);
    }
    Ok(high)
}
