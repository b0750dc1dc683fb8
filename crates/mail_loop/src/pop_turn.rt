//! The turns of a POP3 client: a line of its stream.
//!
//! Of want of memory for a line of a POP3 client it is told `-ERR No memory.`, and nothing changes: also of QUIT, which has not
//! been taken then.
ghost use Rattle.std.specs.Prelude.{◌≡◌, false, true};
ghost use Rattle.pop_session.specs.Dialog.{AsksAsUser, IsNext, is_at_home, is_free};
ghost use Rattle.mail_loop.specs.Asked.{HaveSealed};
ghost use Rattle.mail_loop.specs.Hindrance.{Hindrance, under};
ghost use Rattle.mail_loop.specs.PopTurn.{of_pop, out_of_memory, pop_speech, takes};
ghost use Rattle.mail_loop.specs.Session.{followed};
ghost use Rattle.mail_loop.specs.Took.{AreThere, Takes};
ghost use Rattle.mail_loop.specs.Turns.{pop_source};

use crate::out::of_pop;
use crate::reply::{Reply, say};
use crate::serves::Serves;
use crate::turn::{follow, read_out_of_memory};
use pop_session::{PopOut, PopSession, memory_text};
use smtp_lines::{Cutter, SmtpLine};
use std::alloc::Global;
use time_desk::Desk;
use time_desk::laws::seals_join;
use undo_base::{NoMemory, Users};
use undo_outside::Disk;

/// Does what comes of a line.
fn obey<D: Disk + Drop>(
    alloc: Global,
    desk: &mut Desk<D>,
    session: &mut PopSession,
    at: u64,
    out: PopOut,
    reply: &mut Reply,
)
    requires next { IsNext out session.old }
    requires user { AsksAsUser out session.old }
    requires there { AreThere desk.old.kept (of_pop out) }
    requires stays { reply.old.closes ≡ false }
    requires home { is_at_home desk.old.kept.house session.old ≡ true }
    requires sealed { desk.old.closed ≡ false }
    ensures free { is_free session.new ≡ true }
    ensures home { is_at_home desk.new.kept.house session.new ≡ true }
    ensures house { desk.new.kept.house ≡ desk.old.kept.house }
    ensures turn { (h : Hindrance) ×
        Takes (HaveSealed D.told desk.old desk.new) (under h at desk.old.kept (λ service. followed pop_speech service desk.old.kept (of_pop out) session.old)) reply.old desk.new.kept session.new reply.new }
{
    seals_join::<D>();
    match of_pop(alloc, out) {
        Ok(out) => follow(alloc, desk, session, at, out, reply),
        Err(NoMemory) => read_out_of_memory(alloc, session, reply),
    }
}

impl Serves for PopSession {
    type Stream = Cutter;

    type Unit = SmtpLine;

    ghost source = { pop_source };

    ghost takes = { λ users at kept d line. takes users kept d line };

    ghost runs_out_of_memory = { out_of_memory };

    ghost is_current = { λ store d. true };

    fn feed(stream: &mut Cutter, bytes: &[u8]) -> Result<(), NoMemory> {
        stream.feed(bytes)
    }

    fn next_unit(alloc: Global, stream: &mut Cutter) -> Result<Option<SmtpLine>, NoMemory> {
        stream.next(alloc)
    }

    fn take_unit<D: Disk + Drop>(
        &mut self,
        alloc: Global,
        desk: &mut Desk<D>,
        at: u64,
        users: &Users,
        line: SmtpLine,
        current: &mut bool,
        reply: &mut Reply,
    ) {
        seals_join::<D>();
        let _current = current;
        desk.stands();
        let (house, store, stamps, sizes) = (
            desk.house(),
            desk.store(),
            desk.stamps(),
            desk.shelf(),
        );
        match self.take(alloc, house, store, stamps, sizes, users, &line) {
            Ok(out) => obey(alloc, desk, self, at, out, reply),
            Err(NoMemory) => say(reply, memory_text(), false),
        }
    }
}
