//! An upgrade that the operator asks for, after which names may have superiors: sealed, and then answered.
//!
//! An upgrade of a store that was upgraded before is answered alike and closes nobody, so that who lost the answer may ask again.
//! Its body is read all the same.
//!
//! An upgrade that is sealed is answered or not, as an act is; that IMAP clients are sent away does not depend on it.
ghost use Rattle.std.specs.Prelude.{◌≡◌, Ok, false};
ghost use Rattle.console_http.specs.declared.request.Asked.TheVariants.{Whole};
ghost use Rattle.console_http.specs.declared.request.Route.TheVariants as route;
ghost use Rattle.console_session.specs.Hearing.{AnswersRequest};

use crate::reply::{After, Reply, tell, tell_only};
use crate::snapshot::tell_fault;
use console_replies::upgraded_json;
use std::alloc::Global;
use time_desk::Desk;
use time_desk::laws::seals_join;
use undo_outside::Disk;

/// POST /upgrade. A store that was upgraded before is told to be so, and nothing is sealed.
pub fn upgrade<D: Disk>(alloc: Global, desk: &mut Desk<D>, at: u64) -> Reply
    requires { desk.old.closed ≡ false }
    ensures { AnswersRequest D.told at (Ok (Whole route.Upgrade)) desk.old desk.new result }
{
    seals_join::<D>();
    if desk.upgraded() {
        return tell(alloc, 200, upgraded_json(alloc), After::Closes);
    }
    match desk.upgrade(alloc, at) {
        Ok(()) => tell_only(alloc, 200, upgraded_json(alloc), After::Upgrades),
        Err(fault) => tell_fault(alloc, fault),
    }
}
