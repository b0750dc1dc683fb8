//! The turn of a console: its session answers one request over the desk.
//!
//! IMAP clients are told and closed also where no memory was found for the operator's answer to a cycle that was done. One who
//! joins later in the same run is served as ever.
//!
//! The room for the strings of an event is taken before its cycle: where it is not found nothing is done, and serving ends for
//! want of memory.
ghost use Rattle.std.specs.Prelude.{◌≡◌, ◌≤◌, Bool, List, false};
ghost use Rattle.verb_bytes.specs.declared.journal.JournalRecord.{JournalRecord};
ghost use Rattle.console_head.specs.Request.{Stage};
ghost use Rattle.mail_loop.specs.State.{Http as HttpSeat, Seats};
ghost use Rattle.mail_loop.specs.Asked.{HaveSealed};
ghost use Rattle.mail_loop.specs.TurnCounts.{TurnCounts};
ghost use Rattle.mail_loop.specs.ConsoleTurn.{AreSaid, ConsoleReading, sequel_of};
ghost use Rattle.mail_loop.specs.Hindrance.{Hindrance};
ghost use Rattle.mail_loop.specs.Machine.{hears};
ghost use Rattle.mail_loop.specs.Took.{answered_alone, turned_as};

use crate::aftermath::Aftermath;
use crate::reply::Turned;
use console_session::{After, ConsoleSession};
use std::alloc::Global;
use std::thread::Threads;
use time_desk::Desk;
use time_desk::laws::seals_join;
use undo_base::LAST_MOMENT;
use undo_outside::{Disk, Gate};

/// What follows a console's answer: whether its connection is closed, whether serving is asked to stop, and what follows for the
/// other connections.
#[derive(Drop)]
struct Sequel {
    closes: bool,
    stops: bool,
    aftermath: Aftermath,
}

fn sequel_of(after: After) -> Sequel
    ensures { result ≡ sequel_of after }
{
    let (closes, stops, aftermath) = match after {
        After::Waits => (false, false, Aftermath::Quiet),
        After::Closes => (true, false, Aftermath::Quiet),
        After::Stops => (true, true, Aftermath::Quiet),
        After::Fails => (true, false, Aftermath::Quiet),
        After::Rewinds => (true, false, Aftermath::Rewound),
        After::Upgrades => (true, false, Aftermath::Upgraded),
    };
    Sequel {
        closes,
        stops,
        aftermath,
    }
}

/// What a connection is told of a console's answer, and what follows it.
fn turned_of(conn: u32, answer: console_session::Reply) -> Turned
    ensures { result ≡ turned_as conn answer }
{
    let console_session::Reply { said, after } = answer;
    let Sequel {
        closes,
        stops,
        aftermath,
    } = sequel_of(after);
    Turned {
        conn,
        said,
        closes,
        stops,
        aftermath,
    }
}

/// Serves the bytes that came over a console's connection.
pub fn hear_console<R: Threads + Sync, D: Disk + Drop, G: Gate>(
    rt: &R,
    alloc: Global,
    desk: &mut Desk<D>,
    console: &mut ConsoleSession,
    conn: u32,
    at: u64,
    gate: &G,
    bytes: &[u8],
) -> Turned
    requires moment { at ≤ LAST_MOMENT }
    requires sealed { desk.old.closed ≡ false }
    ensures house { desk.new.kept.house ≡ desk.old.kept.house }
    ensures heard { (seats : Seats) → (no_memory : Bool) × (hs : List Hindrance) × (stage : Stage) × (failed : List JournalRecord) × (counts : TurnCounts) ×
        HaveSealed D.told desk.old desk.new failed counts × (readings : List ConsoleReading) × AreSaid readings ×
        (hears no_memory hs stage at (record { kept = desk.old.kept; seats = seats }) conn (HttpSeat console.old) bytes.now
        ≡ answered_alone conn result desk.new.kept failed counts readings (HttpSeat console.new) seats) }
{
    seals_join::<D>();
    let answer = console.hear(rt, alloc, desk, at, gate, bytes);
    turned_of(conn, answer)
}
