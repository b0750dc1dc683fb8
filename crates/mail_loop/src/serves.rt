//! The serving of turns: what is made of the bytes that come over a connection whose session takes the units of a stream,
//! whatever it speaks.
ghost use Rattle.std.specs.Prelude.{◌≡◌, ◌≢◌, ◌≤◌, ℕ, [], Bool, List, Option, Some, IfOk, OnErr, OnOk, false, true};
ghost use Rattle.undo_base.specs.declared.keys.User.{User};
ghost use Rattle.verb_core.specs.Store.{MailStore};
ghost use Rattle.verb_bytes.specs.declared.journal.JournalRecord.{JournalRecord};
ghost use Rattle.store_kept.specs.Kept.{Kept, store_of};
ghost use Rattle.mail_loop.specs.Asked.{HaveSealed};
ghost use Rattle.mail_loop.specs.Hindrance.{Hindrance};
ghost use Rattle.mail_loop.specs.Machine.{heard_if_fed};
ghost use Rattle.mail_loop.specs.Session.{Took, hindered, is_home, session_by};
ghost use Rattle.mail_loop.specs.State.{Seats};
ghost use Rattle.mail_loop.specs.Took.{Takes, TakesUnit, TellsTurns, answered_alone};
ghost use Rattle.mail_loop.specs.Turn.{Turn};
ghost use Rattle.mail_loop.specs.TurnCounts.{TurnCounts};
ghost use Rattle.mail_loop.specs.Turns.{Source, hears_turns};

use crate::reply::{Reply, Turned, empty_reply, going_on};
use crate::speaks::Speaks;
use std::alloc::Global;
use time_desk::Desk;
use time_desk::laws::seals_join;
use undo_base::{LAST_MOMENT, NoMemory, Users};
use undo_outside::Disk;

/// A session that takes the units of a stream.
pub trait Serves: Speaks {
    type Stream;

    type Unit;

    /// What its stream gives.
    ghost source: { Source Self.Stream Self Self.Unit };

    /// What it makes of a unit, where these users have their maildrops in use.
    ghost takes: { List User → ℕ → Kept → Self → Self.Unit → Took Self };

    /// What comes of a unit for which it finds no memory.
    ghost runs_out_of_memory: { Kept → Self → Self.Unit → Turn Self };

    /// Whether what it was told of a store is what is there.
    ghost is_current: { MailStore → Self → Bool };

    /// Adds bytes to the stream.
    fn feed(stream: &mut Self::Stream, bytes: &[u8]) -> Result<(), NoMemory>
        ensures { OnOk result (stream.new ≡ source.fed stream.old bytes.now) };

    /// Gives the next unit of the stream, if a whole one is there.
    fn next_unit(alloc: Global, stream: &mut Self::Stream) -> Result<Option<Self::Unit>, NoMemory>
        ensures next { IfOk result (λ unit. TakesUnit source takes stream.old unit stream.new) }
        ensures err { OnErr result (source.units stream.old ≢ []) };

    /// Serves a unit, and adds its answer to the reply. `users` are those of the other POP3 clients. `current` says that what the
    /// session was told of the store is known to be what is there; a unit that reads texts or asks something of the desk unsets it.
    fn take_unit<D: Disk + Drop>(
        &mut self,
        alloc: Global,
        desk: &mut Desk<D>,
        at: u64,
        users: &Users,
        unit: Self::Unit,
        current: &mut bool,
        reply: &mut Reply,
    )
        requires moment { at ≤ LAST_MOMENT }
        requires free { Self.speech.is_free self.old ≡ true }
        requires home { is_home Self.speech desk.old.kept.house self.old ≡ true }
        requires stays { reply.old.closes ≡ false }
        requires current { current.old ≡ true → is_current (store_of desk.old.kept) self.old ≡ true }
        requires sealed { desk.old.closed ≡ false }
        ensures free { Self.speech.is_free self.new ≡ true }
        ensures home { is_home Self.speech desk.new.kept.house self.new ≡ true }
        ensures house { desk.new.kept.house ≡ desk.old.kept.house }
        ensures turn { (h : Hindrance) × ((others : Seats) →
            Takes (HaveSealed D.told desk.old desk.new) (hindered (session_by Self.speech (takes users.now) runs_out_of_memory) h at desk.old.kept others self.old unit) reply.old desk.new.kept self.new reply.new) }
        ensures current { current.new ≡ true → is_current (store_of desk.new.kept) self.new ≡ true };
}

/// Serves the units that are whole, each of which is a turn. Between them the store changes only by what they ask, so what a
/// session was told of it is known to be current until one of them asks something.
fn serve_turns<S: Serves, D: Disk + Drop>(
    alloc: Global,
    desk: &mut Desk<D>,
    stream: &mut S::Stream,
    dialog: &mut S,
    conn: u32,
    at: u64,
    users: &Users,
) -> Reply
    requires moment { at ≤ LAST_MOMENT }
    requires sealed { desk.old.closed ≡ false }
    requires free { S.speech.is_free dialog.old ≡ true }
    requires home { is_home S.speech desk.old.kept.house dialog.old ≡ true }
    ensures free { S.speech.is_free dialog.new ≡ true }
    ensures home { is_home S.speech desk.new.kept.house dialog.new ≡ true }
    ensures house { desk.new.kept.house ≡ desk.old.kept.house }
    ensures turns { (seats : Seats) → (hs : List Hindrance) × (failed : List JournalRecord) × (counts : TurnCounts) × HaveSealed D.told desk.old desk.new failed counts ×
        TellsTurns (hears_turns S.source (session_by S.speech (S.takes users.now) S.runs_out_of_memory) hs at (record { kept = desk.old.kept; seats = seats }) conn dialog.old stream.old)
        seats conn result desk.new.kept failed counts (S.source.seat stream.new dialog.new) }
{
    seals_join::<D>();
    let mut reply = empty_reply(alloc, conn, false);
    let mut current = false;
    loop {
        let unit = match S::next_unit(alloc, stream) {
            Ok(Some(unit)) => unit,
            Ok(None) => return reply,
            Err(NoMemory) => {
                reply.closes = true;
                return reply;
            }
        };
        dialog.take_unit(alloc, desk, at, users, unit, &mut current, &mut reply);
        if reply.closes {
            return reply;
        }
    }
}

/// Serves the bytes that came over a connection. `in_use` are the users of the other POP3 clients; where no memory was found for
/// them, or for the bytes, the connection is closed.
pub fn hear_turns<S: Serves, D: Disk + Drop>(
    alloc: Global,
    desk: &mut Desk<D>,
    stream: &mut S::Stream,
    dialog: &mut S,
    conn: u32,
    at: u64,
    in_use: &Result<Users, NoMemory>,
    bytes: &[u8],
) -> Turned
    requires moment { at ≤ LAST_MOMENT }
    requires sealed { desk.old.closed ≡ false }
    requires free { S.speech.is_free dialog.old ≡ true }
    requires home { is_home S.speech desk.old.kept.house dialog.old ≡ true }
    ensures free { S.speech.is_free dialog.new ≡ true }
    ensures home { is_home S.speech desk.new.kept.house dialog.new ≡ true }
    ensures house { desk.new.kept.house ≡ desk.old.kept.house }
    ensures heard { (seats : Seats) (users : List User) → IfOk in_use.now (λ us. us ≡ users) → (no_memory : Bool) × (hs : List Hindrance) × (failed : List JournalRecord) × (counts : TurnCounts) ×
        HaveSealed D.told desk.old desk.new failed counts ×
        (heard_if_fed no_memory conn (record { kept = desk.old.kept; seats = seats })
        (hears_turns S.source (session_by S.speech (S.takes users) S.runs_out_of_memory) hs at (record { kept = desk.old.kept; seats = seats }) conn dialog.old (S.source.fed stream.old bytes.now))
        ≡ answered_alone conn result desk.new.kept failed counts [] (S.source.seat stream.new dialog.new) seats) }
{
    seals_join::<D>();
    let users = match in_use {
        Ok(users) => users,
        Err(NoMemory) => return going_on(empty_reply(alloc, conn, true)),
    };
    match S::feed(stream, bytes) {
        Ok(()) => going_on(serve_turns(alloc, desk, stream, dialog, conn, at, users)),
        Err(NoMemory) => going_on(empty_reply(alloc, conn, true)),
    }
}
