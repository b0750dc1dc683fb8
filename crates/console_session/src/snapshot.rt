//! A snapshot that the operator asks for: sealed, and then answered.
ghost use Rattle.std.specs.Prelude.{◌≡◌, ℕ, Ok, false};
ghost use Rattle.console_http.specs.declared.request.Asked.TheVariants.{Whole};
ghost use Rattle.console_http.specs.declared.request.Route.TheVariants as route;
ghost use Rattle.console_session.specs.Hearing.{AnswersRequest, TellsSealFault};

use crate::reply::{After, Reply, run_out_of_memory, tell_only, tell_unsealed};
use console_replies::items_json;
use seal_log::SealFault;
use std::alloc::Global;
use time_desk::Desk;
use undo_outside::Disk;

/// Tells why the record of a snapshot or an upgrade was not sealed.
pub(crate) fn tell_fault(alloc: Global, fault: SealFault) -> Reply
    ensures { TellsSealFault fault result }
{
    match fault {
        SealFault::Disk => tell_unsealed(alloc),
        SealFault::NoMemory => run_out_of_memory(alloc),
        SealFault::Closed => tell_unsealed(alloc),
    }
}

/// POST /snapshot.
pub fn snapshot<D: Disk>(alloc: Global, desk: &mut Desk<D>) -> Reply
    requires { desk.old.closed ≡ false }
    ensures { (at : ℕ) → AnswersRequest D.told at (Ok (Whole route.Snapshot)) desk.old desk.new result }
{
    match desk.snapshot(alloc) {
        Ok(items) => tell_only(alloc, 200, items_json(alloc, items), After::Closes),
        Err(fault) => tell_fault(alloc, fault),
    }
}
