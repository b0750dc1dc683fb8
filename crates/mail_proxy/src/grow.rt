//! The command `grow`: generated events are served over a store in memory.
//!
//! `grow` never ends with 7: of 100,000 rounds there are 700,008 events, so the end comes.
ghost use Rattle.std.specs.Prelude.{◌≡◌, false, IfOk};
ghost use Rattle.mail_proxy.specs.Check.{TellsText};
ghost use Rattle.mail_proxy.specs.Generated.{generated};
ghost use Rattle.mail_proxy.specs.Growing.{Grows, ServesGenerated, grown_text};
ghost use Rattle.mail_proxy.specs.Plans.{output_of};

use crate::check::{counts_text, push_count};
use crate::counting_link::CountingLink;
use crate::generating::generate;
use crate::init::unmade;
use crate::plan::{LastLine, Plan, only_line};
use crate::play::playing_desk;
use crate::serving::{MOST_EVENTS, outcome_over, plan_of};
use journal_laws::runs_keep_mail;
use mail_desk::Counts;
use mail_loop::serve_events;
use std::alloc::Global;
use std::thread::Threads;
use time_desk::Desk;
use undo_base::{NoMemory, Text};
use undo_outside::{Disk, Events, Gate};

/// Generates the events of so many rounds, and serves them over a store in memory, which has the house of `play`.
pub fn plan_grow<R: Threads + Sync, G: Gate>(rt: &R, alloc: Global, rounds: u32, gate: &G) -> Plan
    ensures { Grows rounds result.status (output_of result) }
{
    runs_keep_mail();
    match generate(alloc, rounds) {
        Ok(events) => grow_events(rt, alloc, rounds, events, gate),
        Err(NoMemory) => only_line(alloc, 8, LastLine::NoMemory),
    }
}

/// Serves the events over a new store.
fn grow_events<R: Threads + Sync, G: Gate>(
    rt: &R,
    alloc: Global,
    rounds: u32,
    events: Events,
    gate: &G,
) -> Plan
    requires { events ≡ generated rounds }
    ensures { Grows rounds result.status (output_of result) }
{
    runs_keep_mail();
    match playing_desk(alloc) {
        Ok(desk) => {
            let mut desk = desk;
            let plan = serve_generated(rt, alloc, &mut desk, rounds, events, gate);
            drop(desk.into_disk());
            plan
        }
        Err(fault) => unmade(alloc, fault),
    }
}

/// Serves the events over a link in memory. What is written is how many rounds there were and the counts, or after a fault
/// the last line.
fn serve_generated<R: Threads + Sync, D: Disk + Drop, G: Gate>(
    rt: &R,
    alloc: Global,
    desk: &mut Desk<D>,
    rounds: u32,
    events: Events,
    gate: &G,
) -> Plan
    requires { desk.old.closed ≡ false }
    ensures { ServesGenerated D.told rounds events desk.old desk.new result.status (output_of result) }
{
    let mut link = CountingLink::new(alloc, events);
    let ended = serve_events(rt, alloc, desk, &mut link, gate, MOST_EVENTS);
    match outcome_over(&link, ended) {
        Ok(()) => {
            drop(link);
            plan_grown(alloc, rounds, desk.counts())
        }
        Err(fault) => {
            drop(link);
            plan_of(Err(fault), Text::new(alloc))
        }
    }
}

/// What is answered where all events were served.
fn plan_grown(alloc: Global, rounds: u32, counts: Counts) -> Plan
    ensures { TellsText (grown_text rounds counts) result.status (output_of result) }
{
    match grown_text(alloc, rounds, counts) {
        Ok(body) => Plan {
            status: 0,
            body,
            last: LastLine::Nothing,
        },
        Err(NoMemory) => only_line(alloc, 8, LastLine::NoMemory),
    }
}

/// How many rounds there were, and the six lines of the counts.
fn grown_text(alloc: Global, rounds: u32, counts: Counts) -> Result<Text, NoMemory>
    ensures { IfOk result (λ text. text ≡ grown_text rounds counts) }
{
    let mut text = Text::new(alloc);
    push_count(alloc, &mut text, b"rounds", u64::from(rounds))?;
    text.extend(counts_text(alloc, counts)?.bytes())?;
    Ok(text)
}
