//! The items of users that are broken or withdrawn.
ghost use Rattle.std.specs.Prelude.{◌≡◌, [], ◌++◌, drop, IfOk, OnOk};
ghost use Rattle.cycle_rules.specs.Judging.{judged, reason_by as reason_due, with_told};

use crate::Shows;
use paradox::{BrokenItem, BrokenList, Reason, broken};
use repair_desk::NumberSet;
use std::alloc::Global;
use stored_items::StoredItem;
use undo_base::NoMemory;
use verb_core::Shown;

/// Why what an item showed no longer holds: it shows the first of these answers now.
#[tactic(auto, using(crate::proofs::Heard::broken_stored))]
fn reason_by(item: &StoredItem, now: &[Shown]) -> Option<Reason>
    ensures { result ≡ reason_due item.now now.now }
{
    match now.first() {
        Some(shown) => broken(item.item(), shown),
        None => None,
    }
}

/// The answers but the first.
pub(crate) fn rest(now: &[Shown]) -> &[Shown]
    ensures { result.now ≡ drop 1 now.now }
{
    match now.split_first() {
        Some((_, rest)) => rest,
        None => now,
    }
}

/// The answers behind the first so many.
pub(crate) fn behind(now: &[Shown], count: usize) -> &[Shown]
    ensures { result.now ≡ drop count now.now }
{
    if count <= now.len() {
        &now[count..]
    } else {
        &[]
    }
}

/// Adds an item that is told of for a reason, if there is one.
#[tactic(auto, using(crate::proofs::Heard::told_stored))]
fn tell(
    alloc: Global,
    list: &mut BrokenList,
    item: &StoredItem,
    reason: Option<Reason>,
) -> Result<(), NoMemory>
    ensures { OnOk result (list.new ≡ list.old ++ with_told item.now reason []) }
{
    let Some(reason) = reason else {
        return Ok(());
    };
    match BrokenItem::of(alloc, item.item(), reason)? {
        Some(told) => list.push(told),
        None => Ok(()),
    }
}

/// The broken and the withdrawn among later items, in their order: those of the numbers went, and each other one has its
/// answer in the list.
pub(crate) fn judge(
    alloc: Global,
    drops: &NumberSet,
    later: &[StoredItem],
    now: &[Shown],
) -> Result<BrokenList, NoMemory>
    ensures { IfOk result (λ list. list ≡ judged drops.now later.now now.now) }
{
    let mut list = BrokenList::new(alloc);
    let mut now = now;
    for item in later {
        if drops.contains(item.item().number) {
            tell(alloc, &mut list, item, Some(Reason::Withdrawn))?;
        } else {
            tell(alloc, &mut list, item, reason_by(item, now))?;
            now = rest(now);
        }
    }
    Ok(list)
}
