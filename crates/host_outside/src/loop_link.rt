//! The connections of this machine as a link, which tells its counts alone.
//!
//! What no clause covers, and tests/system alone shows, is that a listener listens at the port that it was made for. So are the
//! modes of a new stream, the moments of events, and the lines on standard error. Also that what waits is sent on, and what is
//! waited for read, at each visit; of which sockets the system tells, and which it is asked of. Which seats are called and
//! visited when is none either, beyond the order of a round; nor that something is told where something came.
ghost use Rattle.std.specs.Prelude.{◌≡◌, ◌≢◌, ◌<◌, ◌≤◌, ◌+◌, ℕ, false, true, None, Some, Ok, IfSome, is_err, length, OnOk, OnErr};
ghost use Rattle.undo_outside.specs.Calls.{Closes, Rose};
ghost use Rattle.host_outside.specs.LoopLink.{told_by};
ghost use Rattle.host_outside.specs.Seats.{EndsConnection, IsSent, Turns};
ghost use Rattle.host_outside.specs.Seats as spec;

use crate::sockets::Sockets;
use crate::starting::{OWN, Step, behind, items_in, what_comes};
use std::alloc::Global;
use std::net::Net;
use std::time::Clock;
use undo_base::NoMemory;
use undo_outside::{Event, Fault, Link, LinkFault};

/// Three ports on 127.0.0.1, or four, and at most 1,000 connections, numbered from 1 on. The lowest number that no connection
/// has is given to the next one.
#[derive(Drop)]
pub struct LoopLink<R: Net> {
    sockets: Sockets<R>,
    /// When it was made, in milliseconds of a clock that is not set back.
    made: u64,
    /// How far it has got with asking how many items there are, and what it was told.
    step: Step,
    items: Option<u64>,
    faults: u64,
    failed_last: bool,
    missed: u64,
    out_of_memory: u64,
    out_of_memory_last: bool,
}

impl<R: Net + Clock + Eprint> LoopLink<R> {
    /// For these ports, of SMTP, IMAP and HTTP, and for one of POP3 where that is to be served; for port 0 the system chooses one.
    /// It listens from the first `next` on. Without the three, or where one can't be had, each `next` fails.
    pub fn open(
        rt: R,
        alloc: Global,
        ports: Option<(u16, u16, u16)>,
        pop: Option<u16>,
    ) -> LoopLink<R>
        ensures { (result.sockets.ports ≡ ports) × (result.sockets.pop ≡ pop) }
    {
        let sockets = Sockets::open(rt, alloc, ports, pop);
        let made = sockets.millis();
        LoopLink {
            sockets,
            made,
            step: Step::Joins,
            items: None,
            faults: 0,
            failed_last: false,
            missed: 0,
            out_of_memory: 0,
            out_of_memory_last: false,
        }
    }

    /// Counts whether a call found no memory.
    fn note_want<T>(&mut self, told: Result<T, NoMemory>) -> Result<T, NoMemory>
        ensures told { result ≡ told }
        ensures last { self.new.out_of_memory_last ≡ is_err told }
        ensures same { OnOk told (self.new.out_of_memory ≡ self.old.out_of_memory) }
        ensures rose { OnErr told (Rose self.old.out_of_memory self.new.out_of_memory × (self.new.out_of_memory ≤ self.old.out_of_memory + 1)) }
        ensures others { (self.new.faults ≡ self.old.faults) × (self.new.failed_last ≡ self.old.failed_last) × (self.new.missed ≡ self.old.missed) }
    {
        self.out_of_memory_last = told.is_err();
        if told.is_err() {
            self.out_of_memory = self.out_of_memory.saturating_add(1);
        }
        told
    }

    /// Ends serving, which came to that status: a console that was answered gets its answer. What answered a stop goes out here,
    /// once the store is closed.
    pub fn finish(&mut self, status: u8) {
        self.sockets.tell_answered();
        self.sockets.tell_end(status);
    }

    /// The next event: the first are those of its own question, over a connection of its own.
    fn come(&mut self) -> Result<Option<Event>, NoMemory>
        ensures { self.new ≡ record self.old { sockets = self.new.sockets; step = self.new.step } }
    {
        if !self.sockets.listen()? {
            return Ok(None);
        }
        match what_comes(self.step, self.sockets.alloc())? {
            Some(what) => {
                self.step = behind(self.step);
                Ok(Some(self.sockets.event(OWN, what)))
            }
            None => self.sockets.next(),
        }
    }

    /// Sends a string, or takes the answer to its own question. Answers whether it may still arrive whole.
    fn hand_on(&mut self, conn: u32, bytes: &[u8]) -> Result<bool, NoMemory>
        ensures sent { conn ≢ 1001 → result ≡ Ok true → (place : ℕ) × (spec.place_of conn ≡ Some place)
            × Turns place (IsSent R.Stream.contents bytes.now) self.old.sockets.seats.items self.new.sockets.seats.items }
        ensures others { self.new ≡ record self.old { sockets = self.new.sockets; items = self.new.items } }
    {
        if conn == OWN {
            self.items = items_in(bytes);
            return Ok(true);
        }
        self.sockets.send(conn, bytes)
    }
}

impl<R: Net + Clock + Eprint> Link for LoopLink<R> {
    ghost told = { told_by };

    fn next(&mut self) -> Result<Event, LinkFault> {
        let came = self.come();
        match self.note_want(came)? {
            Some(event) => {
                self.failed_last = false;
                Ok(event)
            }
            None => {
                self.faults = self.faults.saturating_add(1);
                self.failed_last = true;
                Err(Fault::Failed)
            }
        }
    }

    fn send(&mut self, conn: u32, bytes: &[u8]) -> Result<(), LinkFault> {
        let sent = self.hand_on(conn, bytes);
        if self.note_want(sent)? {
            return Ok(());
        }
        self.missed = self.missed.saturating_add(1);
        Err(Fault::Failed)
    }

    fn close(&mut self, conn: u32) -> Result<(), NoMemory>
        ensures call { Closes (told_by self.old) (told_by self.new) conn result }
        ensures ends { IfSome (spec.place_of conn) (λ place. place < length self.old.sockets.seats.items
            → Turns place EndsConnection self.old.sockets.seats.items self.new.sockets.seats.items) }
    {
        if conn == OWN {
            self.sockets.tell_begin(self.made, self.items);
        }
        self.sockets.close(conn);
        self.out_of_memory_last = false;
        Ok(())
    }
}
