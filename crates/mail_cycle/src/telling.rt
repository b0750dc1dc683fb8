//! What users are told after a repair.
ghost use Rattle.std.specs.Prelude.{◌≡◌, ◌+◌, ◌≤◌, drop, length, IfOk};
ghost use Rattle.std.specs.List.{AllByRecursion};
ghost use Rattle.verb_core.specs.Items.{IsWellFormed};
ghost use Rattle.paradox.specs.Letters.{notices as notices_of};
ghost use Rattle.repair_desk.specs.Repairs.{numbers_of as numbers_in};
ghost use Rattle.cycle_rules.specs.Repairing.{notice_items};
ghost use Rattle.cycle_rules.specs.Judging.{judged};

use crate::Due;
use crate::judge::{behind, judge};
use crate::notices::items_of;
use crate::report::numbers_of;
use paradox::{BrokenList, notices};
use std::alloc::Global;
use undo_base::{NoMemory, Numbers};
use verb_core::{Items, Shown};

/// The broken and withdrawn items, and the notices of them with their numbers.
#[derive(Drop)]
pub(crate) struct Told {
    pub(crate) broken: BrokenList,
    pub(crate) notices: Items,
    pub(crate) numbers: Numbers,
}

/// The broken and withdrawn items behind the place, by what the acts that come in and the items that stay show there.
fn judge_later(alloc: Global, due: &Due<'_>, shows: &[Shown]) -> Result<BrokenList, NoMemory>
    ensures { IfOk result (λ list. list ≡ judged due.now.repair.drops due.now.repair.before (drop due.now.repair.acts shows.now)) }
{
    let drops = due.drops(alloc)?;
    let now = behind(shows, due.acts());
    judge(alloc, &drops, due.shown(), now)
}

/// The notices of the list, as items.
fn notices_for(alloc: Global, due: &Due<'_>, list: &BrokenList) -> Result<Items, NoMemory>
    ensures items { IfOk result (λ items. items ≡ notice_items (due.now.kept.next + due.now.repair.acts) due.now.at (notices_of due.now.kept.house due.now.kept.next due.now.at list.now)) }
{
    due.stands();
    let before = due.before();
    let notices = notices(alloc, before.house(), before.next(), due.at(), list)?;
    let last = before.next() + due.acts() as u32;
    items_of(alloc, notices.as_slice(), last, due.at())
}

/// What users are told of the items behind the place, by what the acts that come in and the items that stay show there.
pub(crate) fn tell_users(alloc: Global, due: &Due<'_>, shows: &[Shown]) -> Result<Told, NoMemory>
    ensures broken { IfOk result (λ told. told.broken ≡ judged due.now.repair.drops due.now.repair.before (drop due.now.repair.acts shows.now)) }
    ensures notices { IfOk result (λ told. told.notices ≡ notice_items (due.now.kept.next + due.now.repair.acts) due.now.at (notices_of due.now.kept.house due.now.kept.next due.now.at told.broken)) }
    ensures numbers { IfOk result (λ told. told.numbers ≡ numbers_in told.notices) }
    ensures few { IfOk result (λ told. length told.numbers ≤ length due.now.kept.house.accounts) }
    ensures formed { IfOk result (λ told. AllByRecursion (IsWellFormed due.now.kept.house) told.notices) }
{
    let broken = judge_later(alloc, due, shows)?;
    let notices = notices_for(alloc, due, &broken)?;
    match numbers_of(alloc, notices.as_slice()) {
        Ok(numbers) => Ok(Told {
            broken,
            notices,
            numbers,
        }),
        Err(NoMemory) => Err(NoMemory),
    }
}
