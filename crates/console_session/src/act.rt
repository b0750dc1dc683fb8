//! The operator's acts: sealed, performed and then answered.
//!
//! An act that is done, or that could not be sealed, is answered as that or not at all.
ghost use Rattle.std.specs.Prelude.{◌≡◌, IsTrue, Ok, false};
ghost use Rattle.std.specs.List.{list_all};
ghost use Rattle.verb_core.specs.declared.item.Deed.TheVariants.{Act as Acts};
ghost use Rattle.verb_core.specs.Items.{users_in};
ghost use Rattle.verb_core.specs.Store.{is_known};
ghost use Rattle.console_http.specs.declared.request.Asked.TheVariants.{Whole};
ghost use Rattle.console_http.specs.declared.request.Route.TheVariants as route;
ghost use Rattle.console_session.specs.Hearing.{AnswersRequest, TellsFault};

use crate::reply::{After, Reply, run_out_of_memory, tell, tell_only, tell_unsealed};
use console_replies::{number_json, numbers_json};
use std::alloc::Global;
use time_desk::laws::seals_join;
use time_desk::{ActFault, Desk};
use undo_outside::Disk;
use verb_core::Act;

/// Tells why an act was not done.
fn tell_fault(alloc: Global, fault: ActFault) -> Reply
    ensures { TellsFault fault result }
{
    match fault {
        ActFault::Numbers { next } => { tell(alloc, 507, numbers_json(alloc, next), After::Closes) }
        ActFault::Disk => tell_unsealed(alloc),
        ActFault::NoMemory => run_out_of_memory(alloc),
        ActFault::Closed => tell_unsealed(alloc),
    }
}

/// POST /act.
pub fn act<D: Disk>(alloc: Global, desk: &mut Desk<D>, at: u64, asked: Act) -> Reply
    requires open { desk.old.closed ≡ false }
    requires known { IsTrue (list_all (is_known desk.old.kept.house) (users_in (Acts asked))) }
    ensures { AnswersRequest D.told at (Ok (Whole (route.Act asked))) desk.old desk.new result }
{
    seals_join::<D>();
    match desk.act(alloc, at, asked) {
        Ok(number) => tell_only(alloc, 200, number_json(alloc, number), After::Closes),
        Err(fault) => tell_fault(alloc, fault),
    }
}
