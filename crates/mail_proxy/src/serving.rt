//! Serving the events of a script over a desk.
//!
//! Status 5 of `script` and `serve` after opening says that a write or a sync failed, counted from the disk as it was before
//! `run`.
//!
//! A bad text is told before the store is touched.
ghost use Rattle.std.specs.Prelude.{◌≡◌, false};
ghost use Rattle.mail_proxy.specs.Lines.{line_text};
ghost use Rattle.mail_proxy.specs.Plans.{output_of};
ghost use Rattle.mail_proxy.specs.Script.{ServesOver, last_line, or_no_memory, status_of, unless_left_out};

use crate::counting_link::CountingLink;
use crate::plan::{LastLine, Plan};
use mail_loop::{ServeFault, serve_events};
use script_link::transcript;
use std::alloc::Global;
use std::thread::Threads;
use time_desk::Desk;
use undo_base::{NoMemory, Text};
use undo_outside::{Disk, Events, Gate, Link};

/// The most events that a command serves; more than come in any run.
pub const MOST_EVENTS: u64 = 1 << 40;

/// Serves the events over a link in memory. What is written is the transcript and the last line; the transcript is left out
/// where no memory is found for it. Where a string was left out and no fault came the last line tells want of memory.
pub fn serve_script<R: Threads + Sync, D: Disk + Drop, G: Gate>(
    rt: &R,
    alloc: Global,
    desk: &mut Desk<D>,
    events: Events,
    gate: &G,
) -> Plan
    requires { desk.old.closed ≡ false }
    ensures { ServesOver D.told events desk.old desk.new result.status (output_of result) }
{
    let mut link = CountingLink::new(alloc, events);
    let ended = serve_events(rt, alloc, desk, &mut link, gate, MOST_EVENTS);
    let served = outcome_over(&link, ended);
    match transcript(alloc, link.log()) {
        Ok(transcript) => {
            drop(link);
            plan_of(served, transcript)
        }
        Err(NoMemory) => {
            drop(link);
            plan_of(or_out_of_memory(served), Text::new(alloc))
        }
    }
}

/// What serving over a link came to: want of memory where a call of the link found none, and no fault came before.
pub fn outcome_over(link: &CountingLink, ended: Result<(), ServeFault>) -> Result<(), ServeFault>
    ensures { result ≡ unless_left_out (⟦<CountingLink as Link>⟧.told link.now).out_of_memory ended }
{
    if link.out_of_memory() == 0 {
        ended
    } else {
        or_out_of_memory(ended)
    }
}

/// Want of memory, where no fault came before.
fn or_out_of_memory(served: Result<(), ServeFault>) -> Result<(), ServeFault>
    ensures { result ≡ or_no_memory served }
{
    match served {
        Ok(()) => Err(ServeFault::NoMemory),
        Err(fault) => Err(fault),
    }
}

/// What is answered where serving ended so, after this transcript.
pub fn plan_of(served: Result<(), ServeFault>, transcript: Text) -> Plan
    ensures status { result.status ≡ status_of served }
    ensures body { result.body ≡ transcript }
    ensures last { line_text result.last ≡ last_line served }
{
    let (status, last) = match served {
        Ok(()) => (0, LastLine::Nothing),
        Err(ServeFault::Link) => (4, LastLine::LinkFault),
        Err(ServeFault::Disk) => (5, LastLine::DiskFault),
        Err(ServeFault::Turns) => (7, LastLine::TooMany),
        Err(ServeFault::NoMemory) => (8, LastLine::NoMemory),
    };
    Plan {
        status,
        body: transcript,
        last,
    }
}
