//! What follows in a turn once the session took a unit of its stream: what is said, the texts that are read for it, and what it asks
//! of the desk.
//!
//! A read that fails ends what is read for, is told once, and is counted once by the disk, by the turn and by its step, whether
//! it is told or not. Where an IMAP client's session finds no memory for it, the session is told once more, of want of memory.
//! Where it finds none for that either, or the string of the event has none, the connection closes. A failed read in serving
//! leaves status 0: its answer told it.
//!
//! A refusal for whose answer the session finds no memory is told again as want of memory, and an item for whose answer it finds
//! none closes the connection. An answer for which the session has memory, but the string of the event has none, closes the
//! connection as a memory text does.
//!
//! An answer that changes nothing in what is kept and finds no memory closes its connection, as the memory text does that finds
//! none.
//!
//! The session is told of an outcome again, as of want of memory, only after a refusal (`is_refused`). After an item that is
//! kept, and after a failed seal, the connection closes without that answer.
ghost use Rattle.std.specs.Prelude.{◌≡◌, is_some, true, false, IsTrue};
ghost use Rattle.std.specs.List.{list_all};
ghost use Rattle.verb_core.specs.declared.conf.House.{House as TheHouse};
ghost use Rattle.verb_core.specs.Live.{is_users};
ghost use Rattle.store_kept.specs.Kept.{Kept};
ghost use Rattle.store_kept.specs.Texts.{has_text_kept};
ghost use Rattle.mail_loop.specs.Asked.{HaveSealed};
ghost use Rattle.mail_loop.specs.Session.{followed, is_home, is_said, pursued, submits};
ghost use Rattle.mail_loop.specs.Hindrance.{Hindrance, under};
ghost use Rattle.mail_loop.specs.Took.{AreThere, AsksAs, IsAwaitedLast, IsDueNext, IsNext, IsTold, ReadsOutOfMemory, SettlesAgain, SettlesOrAsks, Takes, asked_in};

use crate::asking::{ask_desk, is_refused};
use crate::out::Out;
use crate::reply::{Reply, say};
use crate::speaks::Speaks;
use imap_session::Bodies0;
use seal_log::ReadFault;
use std::alloc::Global;
use time_desk::Desk;
use time_desk::laws::seals_join;
use undo_base::NoMemory;
use undo_outside::Disk;
use verb_core::{Ask, Item, Refused, SubmitFault};

/// The connection closes, with no answer, and the session is over.
pub fn close<S: Speaks>(session: &mut S, reply: &mut Reply)
    ensures over { session.new ≡ S.speech.opening }
    ensures free { S.speech.is_free session.new ≡ true }
    ensures home { (house : TheHouse) → is_home S.speech house session.new ≡ true }
    ensures closed { reply.new ≡ record reply.old { closes = true } }
{
    session.end();
    reply.closes = true;
}

/// What is said goes into the reply. Gives what is asked.
fn tell(reply: &mut Reply, out: Out) -> Option<Ask>
    ensures told { IsTold out reply.old reply.new }
    ensures asks { result ≡ asked_in out }
{
    match out {
        Out::Say(text) => {
            say(reply, text.bytes(), false);
            None
        }
        Out::Bye(text) => {
            say(reply, text.bytes(), true);
            None
        }
        Out::Read(_) => None,
        Out::Submit(ask) => Some(ask),
    }
}

/// Tells the session of want of memory, where its ask was refused. An item that is kept is left unanswered.
fn settle_again<S: Speaks, D: Disk + Drop>(
    alloc: Global,
    desk: &Desk<D>,
    session: &mut S,
    was_refused: bool,
    reply: &mut Reply,
)
    requires due { S.speech.is_due session.old ≡ true }
    requires stays { reply.old.closes ≡ false }
    requires home { is_home S.speech desk.now.kept.house session.old ≡ true }
    ensures free { S.speech.is_free session.new ≡ true }
    ensures home { is_home S.speech desk.now.kept.house session.new ≡ true }
    ensures settled { SettlesAgain S.speech was_refused desk.now.kept session.old reply.old session.new reply.new }
{
    if !was_refused {
        return close(session, reply);
    }
    let out_of_memory = Err(SubmitFault::Refused(Refused::NoMemory));
    match session.take_outcome(alloc, desk.store(), desk.stamps(), &out_of_memory) {
        Ok(out) => {
            drop(tell(reply, out));
            drop(out_of_memory);
        }
        Err(NoMemory) => {
            close(session, reply);
            drop(out_of_memory);
        }
    }
}

/// Tells the session what became of its ask. Gives what it asks further, of which nothing was told yet.
fn settle<S: Speaks, D: Disk + Drop>(
    alloc: Global,
    desk: &Desk<D>,
    session: &mut S,
    outcome: &Result<Item, SubmitFault>,
    reply: &mut Reply,
) -> Option<Ask>
    requires due { S.speech.is_due session.old ≡ true }
    requires stays { reply.old.closes ≡ false }
    requires home { is_home S.speech desk.now.kept.house session.old ≡ true }
    ensures next { IsDueNext S.speech session.new result }
    ensures home { is_home S.speech desk.now.kept.house session.new ≡ true }
    ensures settled { SettlesOrAsks S.speech outcome.now desk.now.kept session.old reply.old session.new reply.new result }
{
    match session.take_outcome(alloc, desk.store(), desk.stamps(), outcome) {
        Ok(out) => tell(reply, out),
        Err(NoMemory) => {
            settle_again(alloc, desk, session, is_refused(outcome), reply);
            None
        }
    }
}

/// Asks the desk for who is logged in, and tells the session what became of that. Where that leads to a further ask the desk is asked
/// that too: a turn of its own. The first stays done, whatever becomes of it.
fn submit<S: Speaks, D: Disk + Drop>(
    alloc: Global,
    desk: &mut Desk<D>,
    session: &mut S,
    at: u64,
    ask: Ask,
    reply: &mut Reply,
)
    requires due { S.speech.is_due session.old ≡ true }
    requires user { is_users ask ≡ is_some (S.speech.user session.old) }
    requires stays { reply.old.closes ≡ false }
    requires home { is_home S.speech desk.old.kept.house session.old ≡ true }
    requires sealed { desk.old.closed ≡ false }
    ensures free { S.speech.is_free session.new ≡ true }
    ensures home { is_home S.speech desk.new.kept.house session.new ≡ true }
    ensures house { desk.new.kept.house ≡ desk.old.kept.house }
    ensures turn { (h : Hindrance) ×
        Takes (HaveSealed D.told desk.old desk.new) (under h at desk.old.kept (λ service. pursued S.speech service desk.old.kept session.old (service.asked (S.speech.user session.old) ask))) reply.old desk.new.kept session.new reply.new }
{
    seals_join::<D>();
    let outcome = ask_desk(alloc, desk, session, at, ask, reply);
    let next = settle(alloc, desk, session, &outcome, reply);
    drop(outcome);
    match next {
        None => {}
        Some(further) => {
            let last = ask_desk(alloc, desk, session, at, further, reply);
            drop(settle(alloc, desk, session, &last, reply));
            drop(last);
        }
    }
}

/// Does what comes of a unit whose session wants no texts, or has them.
pub fn go_on<S: Speaks, D: Disk + Drop>(
    alloc: Global,
    desk: &mut Desk<D>,
    session: &mut S,
    at: u64,
    out: Out,
    reply: &mut Reply,
)
    requires awaited { IsAwaitedLast S.speech out session.old }
    requires user { AsksAs S.speech out session.old }
    requires stays { reply.old.closes ≡ false }
    requires home { is_home S.speech desk.old.kept.house session.old ≡ true }
    requires sealed { desk.old.closed ≡ false }
    ensures free { S.speech.is_free session.new ≡ true }
    ensures home { is_home S.speech desk.new.kept.house session.new ≡ true }
    ensures house { desk.new.kept.house ≡ desk.old.kept.house }
    ensures turn { (h : Hindrance) ×
        Takes (HaveSealed D.told desk.old desk.new) (under h at desk.old.kept (λ service. submits S.speech service desk.old.kept out session.old)) reply.old desk.new.kept session.new reply.new }
    ensures still { is_said out ≡ true → (desk.new ≡ desk.old) × (session.new ≡ session.old) × IsTold out reply.old reply.new }
{
    seals_join::<D>();
    match out {
        Out::Say(text) => say(reply, text.bytes(), false),
        Out::Bye(text) => say(reply, text.bytes(), true),
        Out::Read(_) => {}
        Out::Submit(ask) => submit(alloc, desk, session, at, ask, reply),
    }
}

/// Tells the session that no memory was found for its texts.
pub fn read_out_of_memory<S: Speaks>(alloc: Global, session: &mut S, reply: &mut Reply)
    requires reading { S.speech.takes_texts session.old ≡ true }
    requires stays { reply.old.closes ≡ false }
    ensures free { S.speech.is_free session.new ≡ true }
    ensures home { (house : TheHouse) → is_home S.speech house session.old ≡ true → is_home S.speech house session.new ≡ true }
    ensures read { (kept : Kept) → ReadsOutOfMemory S.speech kept session.old reply.old session.new reply.new }
{
    let out_of_memory = Err(ReadFault::NoMemory);
    match session.take_texts(alloc, &out_of_memory) {
        Ok(out) => {
            drop(tell(reply, out));
            drop(out_of_memory);
        }
        Err(NoMemory) => {
            close(session, reply);
            drop(out_of_memory);
        }
    }
}

/// Reads the texts that the session wants, and hands them to it, or why one was not read.
fn read<S: Speaks, D: Disk + Drop>(
    alloc: Global,
    desk: &mut Desk<D>,
    session: &mut S,
    at: u64,
    bodies: &Bodies0,
    reply: &mut Reply,
)
    requires reading { S.speech.takes_texts session.old ≡ true }
    requires there { IsTrue (list_all (has_text_kept desk.old.kept) bodies.now) }
    requires stays { reply.old.closes ≡ false }
    requires home { is_home S.speech desk.old.kept.house session.old ≡ true }
    requires sealed { desk.old.closed ≡ false }
    ensures free { S.speech.is_free session.new ≡ true }
    ensures home { is_home S.speech desk.new.kept.house session.new ≡ true }
    ensures house { desk.new.kept.house ≡ desk.old.kept.house }
    ensures turn { (h : Hindrance) ×
        Takes (HaveSealed D.told desk.old desk.new) (under h at desk.old.kept (λ service. followed S.speech service desk.old.kept (Out.Read bodies.now) session.old)) reply.old desk.new.kept session.new reply.new }
{
    seals_join::<D>();
    let texts = desk.texts(alloc, bodies.as_slice());
    match session.take_texts(alloc, &texts) {
        Ok(out) => {
            go_on(alloc, desk, session, at, out, reply);
            drop(texts);
        }
        Err(NoMemory) => {
            read_out_of_memory(alloc, session, reply);
            drop(texts);
        }
    }
}

/// Does what comes of a unit of the stream.
pub fn follow<S: Speaks, D: Disk + Drop>(
    alloc: Global,
    desk: &mut Desk<D>,
    session: &mut S,
    at: u64,
    out: Out,
    reply: &mut Reply,
)
    requires awaited { IsNext S.speech out session.old }
    requires user { AsksAs S.speech out session.old }
    requires there { AreThere desk.old.kept out }
    requires stays { reply.old.closes ≡ false }
    requires home { is_home S.speech desk.old.kept.house session.old ≡ true }
    requires sealed { desk.old.closed ≡ false }
    ensures free { S.speech.is_free session.new ≡ true }
    ensures home { is_home S.speech desk.new.kept.house session.new ≡ true }
    ensures house { desk.new.kept.house ≡ desk.old.kept.house }
    ensures turn { (h : Hindrance) ×
        Takes (HaveSealed D.told desk.old desk.new) (under h at desk.old.kept (λ service. followed S.speech service desk.old.kept out session.old)) reply.old desk.new.kept session.new reply.new }
    ensures still { is_said out ≡ true → (desk.new.kept ≡ desk.old.kept) × (session.new ≡ session.old) }
{
    seals_join::<D>();
    match out {
        Out::Read(bodies) => {
            read(alloc, desk, session, at, &bodies, reply);
            drop(bodies);
        }
        other => go_on(alloc, desk, session, at, other, reply),
    }
}
