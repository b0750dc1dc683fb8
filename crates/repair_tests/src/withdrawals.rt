//! A timeline whose last cycle is taken back: `unedit`, a call of the interface that the program does not make.

use crate::edits::{are_items, edited, has_text_at, timeline};
use repair_desk::{EditRefused, Edited};
use std::alloc::Global;
use std::test::Fail;
use stored_items::StoredItems;
use withdraw::{Undone, unedit};

/// What the cycle 8 behind item 2 left to be withdrawn: item 5 went, an act came in, and item 4 got another text.
fn undone(alloc: Global) -> Result<Undone, Fail> {
    Ok(Undone {
        cycle: 8,
        before: timeline(alloc)?,
        position: 1,
        placed: 4,
    })
}

fn are_before(items: &StoredItems) -> bool {
    are_items(items, &[(2, 0), (3, 0), (4, 0), (5, 0)]) && has_text_at(items, 2, 3)
}

/// Whether the items of before are there again, with the old text of item 4.
fn comes_back(alloc: Global, present: &StoredItems) -> Result<bool, Fail> {
    let last = undone(alloc)?;
    let unedited = unedit(alloc, present, &last);
    drop(last);
    let items = unedited?;
    let back = are_before(&items);
    drop(items);
    Ok(back)
}

fn is_taken_back(alloc: Global, found: &Result<Edited, EditRefused>) -> Result<bool, Fail> {
    match found {
        Ok(edited) => comes_back(alloc, &edited.items),
        Err(_) => Ok(false),
    }
}

fn comes_back_from(alloc: Global, timeline: &StoredItems) -> Result<bool, Fail> {
    let found = edited(alloc, timeline, 2)?;
    let back = is_taken_back(alloc, &found);
    drop(found);
    back
}

#[test]
fn a_cycle_is_taken_back(rt: HostRuntime) -> Result<(), Fail> {
    let timeline = timeline(rt.alloc())?;
    let back = comes_back_from(rt.alloc(), &timeline);
    drop(timeline);
    let back = back?;
    assert!(rt; back);
    Ok(())
}
