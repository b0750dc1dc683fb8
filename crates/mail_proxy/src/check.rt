//! The command `check`: the counts of a store, and its digest.
//!
//! That `check` writes nothing is said of the images: opening begins with a sync, which adds none.
ghost use Rattle.std.specs.Prelude.{◌≡◌, ◌++◌, IfOk, OnOk};
ghost use Rattle.mail_proxy.specs.Check.{Checks, TellsCounts, check_text, count_line, counts_text};
ghost use Rattle.mail_proxy.specs.Plans.{end_of, output_of};

use crate::opening::unopened;
use crate::plan::{LastLine, Plan, only_line};
use mail_desk::Counts;
use std::alloc::Global;
use time_desk::Desk;
use undo_base::{NoMemory, Text};
use undo_outside::Disk;

/// Opens the store, and tells its counts and its digest.
pub fn plan_check<D: Disk + Drop>(alloc: Global, disk: D) -> (Plan, D)
    ensures { Checks D.told disk (end_of result.0 result.1) }
{
    match Desk::start(alloc, disk) {
        Ok(desk) => {
            let plan = plan_counts(alloc, &desk);
            (plan, desk.into_disk())
        }
        Err((disk, fault)) => (unopened(alloc, fault), disk),
    }
}

fn plan_counts<D: Disk + Drop>(alloc: Global, desk: &Desk<D>) -> Plan
    ensures { TellsCounts desk.now.kept result.status (output_of result) }
{
    match check_text(alloc, desk) {
        Ok(body) => Plan {
            status: 0,
            body,
            last: LastLine::Nothing,
        },
        Err(NoMemory) => only_line(alloc, 8, LastLine::NoMemory),
    }
}

/// The counts of the store, and its digest.
fn check_text<D: Disk + Drop>(alloc: Global, desk: &Desk<D>) -> Result<Text, NoMemory>
    ensures { IfOk result (λ text. text ≡ check_text desk.now.kept) }
{
    let digest = desk.digest(alloc)?;
    let mut text = counts_text(alloc, desk.counts())?;
    text.extend(b"digest ")?;
    text.extend(digest.bytes())?;
    text.extend(b"\n")?;
    Ok(text)
}

/// The six lines of the counts.
pub fn counts_text(alloc: Global, counts: Counts) -> Result<Text, NoMemory>
    ensures { IfOk result (λ text. text ≡ counts_text counts) }
{
    let mut text = Text::new(alloc);
    push_count(alloc, &mut text, b"cycles", u64::from(counts.cycles))?;
    push_count(alloc, &mut text, b"items", u64::from(counts.items))?;
    push_count(alloc, &mut text, b"messages", counts.messages)?;
    push_count(alloc, &mut text, b"next", u64::from(counts.next))?;
    push_count(alloc, &mut text, b"notices", u64::from(counts.notices))?;
    push_count(alloc, &mut text, b"users", u64::from(counts.users))?;
    Ok(text)
}

/// Adds a line of a name and a number.
pub fn push_count(alloc: Global, text: &mut Text, name: &[u8], count: u64) -> Result<(), NoMemory>
    ensures { OnOk result (text.new ≡ text.old ++ count_line name.now count) }
{
    text.extend(name)?;
    let number = format!(in alloc; " {count}\n")?;
    text.extend(number.as_bytes())
}
