//! What is told of a cycle.
//!
//! The mailboxes of the report are those that have the cycle's number as their stamp: no stamp before it can have that number.
ghost use Rattle.std.specs.Prelude.{◌≡◌, IfOk};
ghost use Rattle.repair_desk.specs.Repairs.{numbers_of as numbers_in};
ghost use Rattle.cycle_rules.specs.Cycles.{renewed_by as renewed_in};

use paradox::Renewals;
use std::alloc::Global;
use undo_base::{Copies, NoMemory, Numbers};
use verb_core::{BoxId, Item};

/// The numbers of items.
pub(crate) fn numbers_of(alloc: Global, items: &[Item]) -> Result<Numbers, NoMemory>
    ensures { IfOk result (λ numbers. numbers ≡ numbers_in items.now) }
{
    let mut numbers = Numbers::new(alloc);
    for item in items {
        numbers.push(item.number)?;
    }
    Ok(numbers)
}

/// The mailboxes that have the stamp of the cycle `c`.
pub(crate) fn renewed_by(
    alloc: Global,
    c: u32,
    stamps: &[(BoxId, u32)],
) -> Result<Renewals, NoMemory>
    ensures { IfOk result (λ renewed. renewed ≡ renewed_in c stamps.now) }
{
    let mut renewed = Renewals::new(alloc);
    for row in stamps {
        if row.1 == c {
            renewed.push((row.0.copy(alloc)?, row.1))?;
        }
    }
    Ok(renewed)
}
