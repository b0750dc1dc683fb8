//! A console connection, as far as its bytes came.
//!
//! A session holds the bytes that came, and answers over the desk on its disk. It asks for an open desk, since serving ends with
//! the first record that was not sealed.
//!
//! A stop is done with its answer: where no memory is found for that, the operator is told of want of memory and serving goes on.
//!
//! What comes behind a request is not looked at, in the same piece or later: the connection is closed.
ghost use Rattle.std.specs.Prelude.{◌≡◌, ◌<◌, ◌≤◌, ◌++◌, [], false, length, Ok};
ghost use Rattle.console_http.specs.Requests.{AskKnows, KnowsUsers};
ghost use Rattle.console_http.specs.declared.request.Asked.TheVariants.{Whole};
ghost use Rattle.console_session.specs.Hearing.{Hears, AnswersRequest, is_failure};
ghost use Rattle.console_session.specs.declared.reply.After.TheVariants.{Waits};

use crate::act::act;
use crate::cycle::{cycle, try_cycle};
use crate::reply::{After, Reply, silent, tell};
use crate::routes::{
    tell_body, tell_box, tell_conf, tell_plan, tell_refused, tell_status, tell_timeline,
};
use crate::snapshot::snapshot;
use crate::upgrade::upgrade;
use crate::withdrawal::withdraw;
use console_head::laws::what_waits_is_bounded;
use console_http::laws::acts_name_known_users;
use console_http::{Asked, Coming, HttpRefused, Route, read_coming};
use console_replies::stopped_json;
use std::alloc::Global;
use std::marker::Model;
use std::thread::Threads;
use time_desk::Desk;
use time_desk::laws::seals_join;
use undo_base::{LAST_MOMENT, NoMemory, Text};
use undo_outside::{Disk, Gate};

/// The bytes of a connection that has not had its answer, and what is known of them.
#[derive(Drop)]
pub struct ConsoleSession {
    came: Text,
    coming: Coming,
}

impl Model for ConsoleSession {
    ghost use Rattle.std.specs.Prelude.{◌≡◌, List, ℕ};
    ghost use Rattle.console_session.specs.declared.session.ConsoleSession.TheInside.{Inside};
    ghost use Rattle.console_session.specs.Hearing.{StaysKnown};

    ghost Value = { List ℕ };

    ghost view = { λ s. s.came };

    ghost invariant = { λ s. StaysKnown s.coming s.came × ((other : Inside) → s ≡ record other { came = s.came; coming = s.coming }) };
}

/// Answers a route.
fn follow<D: Disk, R: Threads + Sync, G: Gate>(
    rt: &R,
    alloc: Global,
    desk: &mut Desk<D>,
    at: u64,
    route: Route,
    gate: &G,
) -> Reply
    requires open { desk.old.closed ≡ false }
    requires moment { at ≤ LAST_MOMENT }
    requires known { KnowsUsers desk.old.kept.house route }
    ensures { AnswersRequest D.told at (Ok (Whole route)) desk.old desk.new result }
{
    seals_join::<D>();
    match route {
        Route::Status => tell_status(alloc, desk),
        Route::Timeline { start } => tell_timeline(alloc, desk, start),
        Route::Box { user, name } => tell_box(alloc, desk, user, &name),
        Route::Body { number } => tell_body(alloc, desk, number),
        Route::Conf => tell_conf(alloc, desk),
        Route::Plan { point } => tell_plan(alloc, desk, point),
        Route::Act(asked) => act(alloc, desk, at, asked),
        Route::Cycle(ask) => cycle(rt, alloc, desk, at, ask, gate),
        Route::Try(ask) => try_cycle(rt, alloc, desk, at, &ask, gate),
        Route::Snapshot => snapshot(alloc, desk),
        Route::Stop => tell(alloc, 200, stopped_json(alloc), After::Stops),
        Route::Upgrade => upgrade(alloc, desk, at),
        Route::Withdraw { key, of } => withdraw(rt, alloc, desk, at, &key, of, gate),
    }
}

/// Answers what is asked, if it is a request already.
fn serve<D: Disk, R: Threads + Sync, G: Gate>(
    rt: &R,
    alloc: Global,
    desk: &mut Desk<D>,
    at: u64,
    asked: Result<Asked, HttpRefused>,
    gate: &G,
) -> Reply
    requires open { desk.old.closed ≡ false }
    requires moment { at ≤ LAST_MOMENT }
    requires known { AskKnows desk.old.kept.house asked }
    ensures { AnswersRequest D.told at asked desk.old desk.new result }
{
    seals_join::<D>();
    match asked {
        Ok(Asked::NotYet) => silent(alloc, After::Waits),
        Ok(Asked::Whole { route }) => follow(rt, alloc, desk, at, route, gate),
        Err(why) => tell_refused(alloc, why),
    }
}

impl ConsoleSession {
    /// A connection from which nothing has come.
    pub fn new(alloc: Global) -> ConsoleSession
        ensures { result ≡ [] }
    {
        ConsoleSession {
            came: Text::new(alloc),
            coming: Coming::new(),
        }
    }

    /// Hears bytes that came. While they and those before are not yet a request nothing is said; else they are answered once,
    /// and the connection is to be closed. What follows a request is not looked at.
    pub fn hear<D: Disk, R: Threads + Sync, G: Gate>(
        &mut self,
        rt: &R,
        alloc: Global,
        desk: &mut Desk<D>,
        at: u64,
        gate: &G,
        bytes: &[u8],
    ) -> Reply
        requires open { desk.old.closed ≡ false }
        requires moment { at ≤ LAST_MOMENT }
        ensures heard { Hears D.told at self.old bytes.now desk.old desk.new result }
        ensures waits { result.after ≡ Waits → self.new ≡ self.old ++ bytes.now }
        ensures bound { result.after ≡ Waits → length self.new < 4210688 }
        ensures closed { desk.new.closed ≡ is_failure result.after }
    {
        if let Err(NoMemory) = self.came.extend(bytes) {
            return silent(alloc, After::Closes);
        }
        acts_name_known_users();
        what_waits_is_bounded();
        let asked = read_coming(alloc, &mut self.coming, desk.house(), self.came.bytes());
        serve(rt, alloc, desk, at, asked, gate)
    }
}
