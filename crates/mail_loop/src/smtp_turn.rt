//! The turns of an SMTP client: a line of its stream.
//!
//! A session whose connection closes while the outcome of a delivery is due is put back to a new one: between two lines no
//! outcome is ever due. The machine forgets that session in any case.
ghost use Rattle.std.specs.Prelude.{◌≡◌, ℕ, false, true};
ghost use Rattle.smtp_lines.specs.declared.line.SmtpLine.{SmtpLine as TheLine};
ghost use Rattle.store_kept.specs.Kept.{Kept};
ghost use Rattle.mail_loop.specs.Session.{hindered};
ghost use Rattle.mail_loop.specs.Hindrance.{Hindrance};
ghost use Rattle.mail_loop.specs.SmtpTurn.{is_free, out_of_memory, smtp_session, takes};
ghost use Rattle.mail_loop.specs.State.{Seats};
ghost use Rattle.mail_loop.specs.Took.{IsNone, Takes};
ghost use Rattle.mail_loop.specs.Turns.{smtp_source};

use crate::out::of_smtp;
use crate::reply::{Reply, say};
use crate::serves::Serves;
use crate::turn::{close, go_on};
use smtp_lines::{Cutter, SmtpLine};
use smtp_session::{SmtpSession, memory_text};
use std::alloc::Global;
use time_desk::Desk;
use time_desk::laws::seals_join;
use undo_base::{NoMemory, Users};
use undo_outside::Disk;

/// No memory was found for a line. In a text nothing can be said of it.
fn run_out_of_memory(session: &mut SmtpSession, reply: &mut Reply)
    requires free { is_free session.old ≡ true }
    requires stays { reply.old.closes ≡ false }
    ensures free { is_free session.new ≡ true }
    ensures turn { (at : ℕ) → (kept : Kept) → (line : TheLine) → (h : Hindrance) ×
        ((others : Seats) → Takes IsNone (hindered smtp_session h at kept others session.old line) reply.old kept session.new reply.new) }
{
    if session.is_in_text() {
        close(session, reply);
    } else {
        say(reply, memory_text(), false);
    }
}

impl Serves for SmtpSession {
    type Stream = Cutter;

    type Unit = SmtpLine;

    ghost source = { smtp_source };

    ghost takes = { λ users. takes };

    ghost runs_out_of_memory = { out_of_memory };

    ghost is_current = { λ store d. true };

    fn feed(stream: &mut Cutter, bytes: &[u8]) -> Result<(), NoMemory> {
        stream.feed(bytes)
    }

    fn next_unit(alloc: Global, stream: &mut Cutter) -> Result<Option<SmtpLine>, NoMemory> {
        stream.next(alloc)
    }

    fn take_unit<D: Disk + Drop>(
        &mut self,
        alloc: Global,
        desk: &mut Desk<D>,
        at: u64,
        users: &Users,
        line: SmtpLine,
        current: &mut bool,
        reply: &mut Reply,
    ) {
        seals_join::<D>();
        let (_users, _current) = (users, current);
        match self.take(alloc, desk.house(), desk.conf(), at, &line) {
            Ok(out) => go_on(alloc, desk, self, at, of_smtp(alloc, out), reply),
            Err(NoMemory) => run_out_of_memory(self, reply),
        }
    }
}
