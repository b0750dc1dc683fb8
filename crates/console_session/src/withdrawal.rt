//! Withdrawals of the last cycle: sealed, put in place and then answered.
ghost use Rattle.std.specs.Prelude.{◌≡◌, ◌≤◌, ◌<◌, None, Ok, false};
ghost use Rattle.store_kept.specs.Kept.{report_of};
ghost use Rattle.console_http.specs.declared.request.Asked.TheVariants.{Whole};
ghost use Rattle.console_http.specs.declared.request.Route.TheVariants as route;
ghost use Rattle.console_session.specs.Hearing.{AnswersRequest, TellsWithdrawFault};

use crate::cycle::{tell_disk_fault, tell_report};
use crate::reply::{After, Reply, run_out_of_memory, tell, tell_only, tell_unsealed};
use box_store::Steps;
use console_replies::{numbers_json, report_json, uncycled_json};
use paradox::Report;
use std::alloc::Global;
use std::marker::Brand;
use std::sync::ledger::{Blank, Ledger};
use std::thread::Threads;
use time_desk::laws::seals_join;
use time_desk::{Desk, WithdrawFault};
use undo_base::{LAST_MOMENT, Name};
use undo_outside::{Disk, Gate};

/// Tells why a cycle was not withdrawn, over a desk that is closed or is not.
fn tell_fault(alloc: Global, fault: WithdrawFault, closed: bool) -> Reply
    ensures { TellsWithdrawFault closed fault result }
{
    match fault {
        WithdrawFault::Cycle { given } => {
            tell(alloc, 422, uncycled_json(alloc, given), After::Closes)
        }
        WithdrawFault::Numbers { next } => {
            tell(alloc, 507, numbers_json(alloc, next), After::Closes)
        }
        WithdrawFault::Disk => tell_disk_fault(alloc, closed),
        WithdrawFault::NoMemory => run_out_of_memory(alloc),
        WithdrawFault::Closed => tell_unsealed(alloc),
    }
}

/// A withdrawal under a new key, over a counter that is made of the blank ledger.
fn withdraw_anew<D: Disk, R: Threads + Sync, G: Gate, L: Ledger>(
    rt: &R,
    alloc: Global,
    desk: &mut Desk<D>,
    at: u64,
    key: &Name,
    of: u32,
    gate: &G,
    blank: Blank,
) -> Reply
    requires name { blank.name ≡ L.name }
    requires parts { blank.parts ≡ L.parts }
    requires some { 0 < blank.parts }
    requires open { desk.old.closed ≡ false }
    requires moment { at ≤ LAST_MOMENT }
    requires fresh { report_of desk.old.kept.reports key.now ≡ None }
    ensures { AnswersRequest D.told at (Ok (Whole (route.Withdraw key.now of))) desk.old desk.new result }
{
    seals_join::<D>();
    let mut steps: Steps<L> = Steps::new(blank);
    match desk.withdraw(rt, alloc, at, key, of, gate, &mut steps) {
        Ok(report) => tell_only(
            alloc,
            200,
            report_json(alloc, &report, desk.house()),
            After::Rewinds,
        ),
        Err(fault) => tell_fault(alloc, fault, desk.closed()),
    }
}

/// POST /withdraw. A key that an earlier cycle or withdrawal had is answered with its report.
pub fn withdraw<D: Disk, R: Threads + Sync, G: Gate>(
    rt: &R,
    alloc: Global,
    desk: &mut Desk<D>,
    at: u64,
    key: &Name,
    of: u32,
    gate: &G,
) -> Reply
    requires open { desk.old.closed ≡ false }
    requires moment { at ≤ LAST_MOMENT }
    ensures { AnswersRequest D.told at (Ok (Whole (route.Withdraw key.now of))) desk.old desk.new result }
{
    seals_join::<D>();
    match desk.report(key) {
        Some(report) => tell_report(alloc, desk, report),
        None => withdraw_anew::<D, R, G, Brand>(rt, alloc, desk, at, key, of, gate, Blank::new(1)),
    }
}
