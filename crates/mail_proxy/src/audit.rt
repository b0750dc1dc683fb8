//! The command `audit`: whether the records of a store are true.
//!
//! An audit that can't perform a Cycle or Withdraw record, since a text could not be read, ends with status 5.
ghost use Rattle.std.specs.Prelude.{None};
ghost use Rattle.mail_proxy.specs.Auditing.{Audits, AuditsAt, LieThere, TellsAudit, TellsUnaudited};
ghost use Rattle.mail_proxy.specs.Plans.{end_of, output_of};
ghost use Rattle.desk_journal.specs.Reading.{IsStill};

use crate::opening::unopened;
use crate::plan::{LastLine, Plan, only_line};
use seal_log::{ReadFault, one_reading};
use std::alloc::Global;
use time_desk::Desk;
use undo_base::{NoMemory, Text};
use undo_outside::Disk;

/// Opens the store, and tells whether its records are true.
pub fn plan_audit<D: Disk + Drop>(alloc: Global, disk: D) -> (Plan, D)
    ensures { Audits D.told disk (end_of result.0 result.1) }
{
    one_reading();
    match Desk::start(alloc, disk) {
        Ok(mut desk) => {
            let plan = audit_desk(alloc, &mut desk);
            (plan, desk.into_disk())
        }
        Err((disk, fault)) => (unopened(alloc, fault), disk),
    }
}

/// Tells whether the records of a desk are true.
fn audit_desk<D: Disk + Drop>(alloc: Global, desk: &mut Desk<D>) -> Plan
    ensures still { IsStill D.told desk.old desk.new }
    ensures audits { AuditsAt D.told (LieThere D.told desk.old) desk.old desk.new result.status (output_of result) }
{
    match desk.audit(alloc) {
        Ok(found) => tell_truth(alloc, found),
        Err(fault) => unaudited(alloc, fault),
    }
}

/// What is told of a record that is not true, or where each is.
fn tell_truth(alloc: Global, found: Option<u64>) -> Plan
    ensures { TellsAudit found result.status (output_of result) }
{
    match found {
        Some(place) => only_line(alloc, 12, LastLine::FalseRecord(place)),
        None => tell_true(alloc),
    }
}

fn tell_true(alloc: Global) -> Plan
    ensures { TellsAudit None result.status (output_of result) }
{
    match Text::of(alloc, b"true\n") {
        Ok(body) => Plan {
            status: 0,
            body,
            last: LastLine::Nothing,
        },
        Err(NoMemory) => only_line(alloc, 8, LastLine::NoMemory),
    }
}

/// What is answered where the records were not read to their end.
fn unaudited(alloc: Global, fault: ReadFault) -> Plan
    ensures { TellsUnaudited fault result.status (output_of result) }
{
    match fault {
        ReadFault::Disk => only_line(alloc, 5, LastLine::DiskFault),
        ReadFault::NoMemory => only_line(alloc, 8, LastLine::NoMemory),
    }
}
