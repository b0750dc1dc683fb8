//! Cycles: sealed, put in place and then answered; or only tried.
//!
//! A trial performs what the cycle would, and is refused as the cycle would be, but for its key, which it does not look at.
ghost use Rattle.std.specs.Prelude.{◌≡◌, ◌≤◌, ◌<◌, IsTrue, None, Ok, false};
ghost use Rattle.store_kept.specs.Kept.{report_of};
ghost use Rattle.repair_desk.specs.Repairs.{are_known};
ghost use Rattle.console_replies.specs.Reports.{report_data};
ghost use Rattle.console_http.specs.declared.request.Asked.TheVariants.{Whole};
ghost use Rattle.console_http.specs.declared.request.Route.TheVariants as route;
ghost use Rattle.console_session.specs.Answers.{answer};
ghost use Rattle.console_session.specs.Hearing.{AnswersRequest, Tells, TellsCycleFault, TellsDiskFault};
ghost use Rattle.console_session.specs.declared.reply.After.TheVariants as after;

use crate::reply::{After, Reply, run_out_of_memory, tell, tell_only, tell_unread, tell_unsealed};
use box_store::Steps;
use console_replies::{numbers_json, point_json, report_json};
use paradox::Report;
use std::alloc::Global;
use std::marker::Brand;
use std::sync::ledger::{Blank, Ledger};
use std::thread::Threads;
use time_desk::laws::seals_join;
use time_desk::{CycleFault, Desk};
use undo_base::LAST_MOMENT;
use undo_outside::{Disk, Gate};
use verb_bytes::CycleAsk;

/// Tells of a fault of the disk: of a record that could not be sealed where the desk is closed, else of a text that could not
/// be read.
pub(crate) fn tell_disk_fault(alloc: Global, closed: bool) -> Reply
    ensures { TellsDiskFault closed result }
{
    if closed {
        tell_unsealed(alloc)
    } else {
        tell_unread(alloc)
    }
}

/// Tells why a cycle was not done, or what was asked of the past not told, over a desk that is closed or is not.
pub(crate) fn tell_fault(alloc: Global, fault: CycleFault, closed: bool) -> Reply
    ensures { TellsCycleFault closed fault result }
{
    match fault {
        CycleFault::Point { given } => { tell(alloc, 422, point_json(alloc, given), After::Closes) }
        CycleFault::Numbers { next } => tell(alloc, 507, numbers_json(alloc, next), After::Closes),
        CycleFault::Disk => tell_disk_fault(alloc, closed),
        CycleFault::NoMemory => run_out_of_memory(alloc),
        CycleFault::Closed => tell_unsealed(alloc),
    }
}

/// Tells the report of a cycle or a withdrawal that changes nothing now.
pub(crate) fn tell_report<D: Disk>(alloc: Global, desk: &Desk<D>, report: &Report) -> Reply
    ensures { Tells (answer 200 (report_data desk.now.kept.house report.now)) after.Closes result }
{
    tell(
        alloc,
        200,
        report_json(alloc, report, desk.house()),
        After::Closes,
    )
}

/// A cycle under a new key, over a counter that is made of the blank ledger.
fn rewind<D: Disk, R: Threads + Sync, G: Gate, L: Ledger>(
    rt: &R,
    alloc: Global,
    desk: &mut Desk<D>,
    at: u64,
    ask: CycleAsk,
    gate: &G,
    blank: Blank,
) -> Reply
    requires name { blank.name ≡ L.name }
    requires parts { blank.parts ≡ L.parts }
    requires some { 0 < blank.parts }
    requires open { desk.old.closed ≡ false }
    requires moment { at ≤ LAST_MOMENT }
    requires known { IsTrue (are_known desk.old.kept.house ask.inserts) }
    requires fresh { report_of desk.old.kept.reports ask.key ≡ None }
    ensures { AnswersRequest D.told at (Ok (Whole (route.Cycle ask))) desk.old desk.new result }
{
    seals_join::<D>();
    let mut steps: Steps<L> = Steps::new(blank);
    match desk.cycle(rt, alloc, at, ask, gate, &mut steps) {
        Ok(report) => tell_only(
            alloc,
            200,
            report_json(alloc, &report, desk.house()),
            After::Rewinds,
        ),
        Err(fault) => tell_fault(alloc, fault, desk.closed()),
    }
}

/// POST /cycle. A key that an earlier cycle or withdrawal had is answered with its report.
pub fn cycle<D: Disk, R: Threads + Sync, G: Gate>(
    rt: &R,
    alloc: Global,
    desk: &mut Desk<D>,
    at: u64,
    ask: CycleAsk,
    gate: &G,
) -> Reply
    requires open { desk.old.closed ≡ false }
    requires moment { at ≤ LAST_MOMENT }
    requires known { IsTrue (are_known desk.old.kept.house ask.inserts) }
    ensures { AnswersRequest D.told at (Ok (Whole (route.Cycle ask))) desk.old desk.new result }
{
    seals_join::<D>();
    match desk.report(&ask.key) {
        Some(report) => tell_report(alloc, desk, report),
        None => rewind::<D, R, G, Brand>(rt, alloc, desk, at, ask, gate, Blank::new(1)),
    }
}

/// POST /try. Where a text could not be read nothing is sealed and the desk stays as it was.
pub fn try_cycle<D: Disk, R: Threads + Sync, G: Gate>(
    rt: &R,
    alloc: Global,
    desk: &mut Desk<D>,
    at: u64,
    ask: &CycleAsk,
    gate: &G,
) -> Reply
    requires moment { at ≤ LAST_MOMENT }
    requires known { IsTrue (are_known desk.old.kept.house ask.now.inserts) }
    ensures { AnswersRequest D.told at (Ok (Whole (route.Try ask.now))) desk.old desk.new result }
{
    seals_join::<D>();
    match desk.try_cycle(rt, alloc, at, ask, gate) {
        Ok(report) => tell_report(alloc, desk, &report),
        Err(fault) => tell_fault(alloc, fault, false),
    }
}
