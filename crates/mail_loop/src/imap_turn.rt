//! The turns of an IMAP client: a command, a literal mark or a bad line of its stream.
//!
//! Where no memory is found for reading a command nothing is said and the connection closes.
//!
//! A literal mark, a bad line and lines that are no command are answered, or their connection is closed: of want of memory only a
//! command that was read is told.
ghost use Rattle.std.specs.Prelude.{◌≡◌, ℕ, Ok, Err, true, false};
ghost use Rattle.verb_core.specs.declared.conf.House.{House as TheHouse};
ghost use Rattle.verb_core.specs.Store.{MailStore};
ghost use Rattle.imap_lines.specs.Command.{ReadsCommand, Reading};
ghost use Rattle.imap_session.specs.Dialog.{is_at_home, is_free, is_view_current};
ghost use Rattle.store_kept.specs.Kept.{store_of, Kept};
ghost use Rattle.mail_loop.specs.Asked.{HaveSealed};
ghost use Rattle.mail_loop.specs.Hindrance.{Hindrance};
ghost use Rattle.mail_loop.specs.ImapTurn.{out_of_memory, takes};
ghost use Rattle.mail_loop.specs.Took.{IsNone, Takes};
ghost use Rattle.mail_loop.specs.ImapTook.{IsAnswered, is_not_yet, obeyed_under};
ghost use Rattle.mail_loop.specs.Turns.{imap_source};

use crate::out::of_imap;
use crate::reply::{Reply, say};
use crate::serves::Serves;
use crate::turn::{close, follow};
use imap_lines::{ImapCommand, ImapRefused, read_command};
use imap_session::{ImapSession, bad_line, no_memory, ready, refused, stays_current};
use imap_stream::{Next, Pieces};
use std::alloc::Global;
use time_desk::Desk;
use time_desk::laws::seals_join;
use undo_base::{NoMemory, Text, Users};
use undo_outside::Disk;

/// Tells what was made for it, or closes the connection where no memory was found for that.
fn answer(session: &mut ImapSession, text: Result<Text, NoMemory>, reply: &mut Reply)
    requires free { is_free session.old ≡ true }
    ensures free { is_free session.new ≡ true }
    ensures home { (house : TheHouse) → is_at_home house session.old ≡ true → is_at_home house session.new ≡ true }
    ensures view { (store : MailStore) → is_view_current store session.old ≡ true → is_view_current store session.new ≡ true }
    ensures answered { IsAnswered text session.old reply.old session.new reply.new }
{
    match text {
        Ok(text) => say(reply, text.bytes(), false),
        Err(NoMemory) => close(session, reply),
    }
}

/// Serves a command. `current` says that the session's view is known to be of exactly what lies in its mailbox.
fn take_command<D: Disk + Drop>(
    alloc: Global,
    desk: &mut Desk<D>,
    session: &mut ImapSession,
    at: u64,
    command: &ImapCommand,
    current: &mut bool,
    reply: &mut Reply,
)
    requires free { is_free session.old ≡ true }
    requires stays { reply.old.closes ≡ false }
    requires home { is_at_home desk.old.kept.house session.old ≡ true }
    requires current { current.old ≡ true → is_view_current (store_of desk.old.kept) session.old ≡ true }
    requires sealed { desk.old.closed ≡ false }
    ensures free { is_free session.new ≡ true }
    ensures home { is_at_home desk.new.kept.house session.new ≡ true }
    ensures house { desk.new.kept.house ≡ desk.old.kept.house }
    ensures turn { (h : Hindrance) ×
        Takes (HaveSealed D.told desk.old desk.new) (obeyed_under h at desk.old.kept session.old (Ok command.now)) reply.old desk.new.kept session.new reply.new }
    ensures current { current.new ≡ true → is_view_current (store_of desk.new.kept) session.new ≡ true }
{
    seals_join::<D>();
    desk.stands();
    let (house, store, sizes) = (desk.house(), desk.store(), desk.shelf());
    let known = *current;
    let deep = desk.upgraded();
    *current = false;
    match session.take_known(alloc, house, store, sizes, deep, command, known) {
        Ok(out) => {
            *current = stays_current(known, command, &out);
            follow(alloc, desk, session, at, of_imap(out), reply)
        }
        Err(NoMemory) => answer(session, no_memory(alloc, &command.tag), reply),
    }
}

/// Refuses lines that are no command. Where no memory was found for reading them nothing can be said.
fn refuse(alloc: Global, session: &mut ImapSession, why: &ImapRefused, reply: &mut Reply)
    requires free { is_free session.old ≡ true }
    requires stays { reply.old.closes ≡ false }
    ensures free { is_free session.new ≡ true }
    ensures home { (house : TheHouse) → is_at_home house session.old ≡ true → is_at_home house session.new ≡ true }
    ensures view { (store : MailStore) → is_view_current store session.old ≡ true → is_view_current store session.new ≡ true }
    ensures turn { (at : ℕ) → (kept : Kept) → (reading : Reading) → ReadsCommand reading (Err why.now) → (h : Hindrance) ×
        Takes IsNone (obeyed_under h at kept session.old reading) reply.old kept session.new reply.new }
{
    match why {
        ImapRefused::NoMemory => close(session, reply),
        ImapRefused::NoTag => answer(session, refused(alloc, why), reply),
        ImapRefused::Unknown { tag: _ } => answer(session, refused(alloc, why), reply),
        ImapRefused::Argument { tag: _ } => answer(session, refused(alloc, why), reply),
    }
}

fn is_not_yet(next: &Next) -> bool
    ensures { result ≡ is_not_yet next.now }
{
    matches!(next, Next::NotYet)
}

impl Serves for ImapSession {
    type Stream = Pieces;

    type Unit = Next;

    ghost source = { imap_source };

    ghost takes = { λ users at kept d next. takes kept d next };

    ghost runs_out_of_memory = { out_of_memory };

    ghost is_current = { is_view_current };

    fn feed(stream: &mut Pieces, bytes: &[u8]) -> Result<(), NoMemory> {
        stream.feed(bytes)
    }

    fn next_unit(alloc: Global, stream: &mut Pieces) -> Result<Option<Next>, NoMemory> {
        let next = stream.next(alloc)?;
        if is_not_yet(&next) {
            drop(next);
            return Ok(None);
        }
        Ok(Some(next))
    }

    fn take_unit<D: Disk + Drop>(
        &mut self,
        alloc: Global,
        desk: &mut Desk<D>,
        at: u64,
        users: &Users,
        next: Next,
        current: &mut bool,
        reply: &mut Reply,
    ) {
        seals_join::<D>();
        let _users = users;
        match next {
            Next::Command(raw) => match read_command(alloc, &raw) {
                Ok(command) => {
                    take_command(alloc, desk, self, at, &command, current, reply);
                    drop(command);
                }
                Err(why) => {
                    refuse(alloc, self, &why, reply);
                    drop(why);
                }
            },
            Next::Ask { length: _ } => say(reply, ready(), false),
            Next::Bad(line) => answer(self, bad_line(alloc, &line), reply),
            Next::NotYet => {}
        }
    }
}
