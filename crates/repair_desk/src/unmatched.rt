//! The asked numbers that did nothing.
//!
//! Whether an asked number did something is decided by the number: where it did, none of its askings is unmatched, and where it
//! did not, each of them is. So the first of two texts for one item, which the second outdoes, is not unmatched, and a number
//! that is asked twice in vain stands twice.
//!
//! Two texts for one item, of which the last counts, both did something: neither is unmatched. A number asked twice to be dropped
//! is matched twice, or unmatched twice.
ghost use Rattle.std.specs.Prelude.{◌≡◌, ℕ, List, ◌++◌, map, IfOk, OnOk};
ghost use Rattle.repair_desk.specs.Repairs.{dropped, is_among, missing, numbers_of, replaced, unmatched as unmatched_of};

use crate::asked::Asked;
use crate::numbers::NumberSet;
use std::alloc::Global;
use stored_items::StoredItem;
use undo_base::{NoMemory, Numbers, Text};
use verb_bytes::CycleAsk;

/// The numbers of the later items that go.
fn dropped_numbers(
    alloc: Global,
    asked: &Asked<'_>,
    later: &[StoredItem],
) -> Result<NumberSet, NoMemory>
    ensures { IfOk result (λ set. (n : ℕ) → is_among set n ≡ is_among (numbers_of (dropped asked.now later.now)) n) }
{
    let mut set = NumberSet::new(alloc);
    for item in later {
        if asked.drops(item) {
            set.insert(item.item().number)?;
        }
    }
    Ok(set)
}

/// The numbers of the later items that stay with another text.
fn replaced_numbers(
    alloc: Global,
    asked: &Asked<'_>,
    later: &[StoredItem],
) -> Result<NumberSet, NoMemory>
    ensures { IfOk result (λ set. (n : ℕ) → is_among set n ≡ is_among (numbers_of (replaced asked.now later.now)) n) }
{
    let mut set = NumberSet::new(alloc);
    for item in later {
        if asked.replaces(item) {
            set.insert(item.item().number)?;
        }
    }
    Ok(set)
}

/// Adds the numbers to be dropped that are not in the set.
fn push_drops(numbers: &mut Numbers, drops: &[u32], met: &NumberSet) -> Result<(), NoMemory>
    ensures { OnOk result (numbers.new ≡ numbers.old ++ missing met.now drops.now) }
{
    for number in drops {
        if !met.contains(*number) {
            numbers.push(*number)?;
        }
    }
    Ok(())
}

/// Adds the numbers that were to get another text and are not in the set.
fn push_replaces(
    numbers: &mut Numbers,
    replaces: &[(u32, Text)],
    met: &NumberSet,
) -> Result<(), NoMemory>
    ensures { OnOk result (numbers.new ≡ numbers.old ++ missing met.now (map (λ (r : ℕ × List ℕ). r.0) replaces.now)) }
{
    for replace in replaces {
        if !met.contains(replace.0) {
            numbers.push(replace.0)?;
        }
    }
    Ok(())
}

/// The asked numbers that did nothing.
pub(crate) fn unmatched(
    alloc: Global,
    ask: &CycleAsk,
    asked: &Asked<'_>,
    later: &[StoredItem],
) -> Result<Numbers, NoMemory>
    requires { asked.now ≡ ask.now }
    ensures { IfOk result (λ numbers. numbers ≡ unmatched_of ask.now later.now) }
{
    let dropped = dropped_numbers(alloc, asked, later)?;
    let replaced = replaced_numbers(alloc, asked, later)?;
    let mut numbers = Numbers::new(alloc);
    push_drops(&mut numbers, ask.drops.as_slice(), &dropped)?;
    push_replaces(&mut numbers, ask.replaces.as_slice(), &replaced)?;
    Ok(numbers)
}
