//! The session of a client.
ghost use Rattle.std.specs.Prelude.{◌≡◌, ◌≤◌, IsTrue, IfOk, OnErr, true};
ghost use Rattle.shelf.specs.Notes.{size_of};
ghost use Rattle.verb_core.specs.declared.conf.House.{House as TheHouse};
ghost use Rattle.verb_core.specs.Boxes.{is_rising};
ghost use Rattle.verb_core.specs.Store.{is_house, IsValid};
ghost use Rattle.pop_session.specs.Sound.{held_of, messages_of};
ghost use Rattle.pop_session.specs.Sound as sound;
ghost use Rattle.pop_session.specs.Dialog as spec;
ghost use Rattle.pop_session.specs.Dialog.{AsksAsUser, IsNext, ReadsOf, heard, is_at_home, is_due, is_free, is_reading, opening, settle, took, turn, user_of};

use crate::dialog::{Awaits, Dialog, Pending, Stage};
use crate::obey::take_line;
use crate::out::PopOut;
use crate::settle::{hear, settle as settle_dialog};
use crate::update::new_dialog;
use box_store::Store;
use seal_log::ReadFault;
use shelf::Shelf;
use smtp_lines::SmtpLine;
use std::alloc::Global;
use std::marker::Model;
use undo_base::{NoMemory, Text, User, Users};
use verb_core::{House, Item, Stamps, SubmitFault};

/// The session of a client from its greeting to its last answer (RFC 1939, sections 4 to 7). A line is given to `take`; where
/// its answer is `Read` the text goes to `read`, and where that of any call is `Submit` the outcome goes to `done`.
#[derive(Drop)]
pub struct PopSession {
    dialog: Dialog,
}

impl Model for PopSession {
    ghost use Rattle.std.specs.Prelude.{◌≡◌};
    ghost use Rattle.pop_session.specs.declared.dialog.Dialog.{Dialog as TheDialog};
    ghost use Rattle.pop_session.specs.declared.session.PopSession.TheInside.{Inside};
    ghost use Rattle.pop_session.specs.Sound.{IsSoundDialog};

    ghost Value = { TheDialog };

    ghost view = { λ s. s.dialog };

    ghost invariant = { λ s. IsSoundDialog s.dialog × ((other : Inside) → s ≡ record other { dialog = s.dialog }) };
}

impl PopSession {
    /// A session in which nobody is logged in, which takes no memory.
    pub fn new() -> PopSession
        ensures { result ≡ opening }
    {
        PopSession {
            dialog: new_dialog(),
        }
    }

    /// Takes one line, without its CRLF: at most 1,022 octets are a command (RFC 1939, sections 5 to 7; no APOP). `in_use` are the
    /// users of the other sessions, not that of this one. `sizes` has the lengths of the stored texts in octets. Every refusal
    /// is an answer; a call that found no memory has changed nothing.
    pub fn take(
        &mut self,
        alloc: Global,
        house: &House,
        store: &Store,
        stamps: &Stamps,
        sizes: &Shelf,
        in_use: &Users,
        line: &SmtpLine,
    ) -> Result<PopOut, NoMemory>
        requires house { IsTrue (is_house house.now) }
        requires valid { IsValid store.now.store }
        requires rising { IsTrue (is_rising stamps.now) }
        requires home { is_at_home house.now self.old ≡ true }
        requires free { is_free self.old ≡ true }
        ensures ok { IfOk result (λ out. turn house.now store.now.store stamps.now (size_of sizes.now.notes) in_use.now self.old line.now ≡ took out self.new) }
        ensures next { IfOk result (λ out. IsNext out self.new) }
        ensures user { IfOk result (λ out. AsksAsUser out self.new) }
        ensures reads { IfOk result (λ out. ReadsOf store.now.store out) }
        ensures stays { is_at_home house.now self.new ≡ true }
        ensures err { OnErr result (self.new ≡ self.old) }
    {
        take_line(
            alloc,
            house,
            store,
            stamps,
            sizes,
            in_use,
            &mut self.dialog,
            line,
        )
    }

    /// Takes the text that the last `take` asked for, or why it can't be had: then the session goes on. The answer to RETR or
    /// TOP is made here (RFC 1939, section 3: byte-stuffing) and kept until the outcome of its FETCH comes. A call that found no
    /// memory has changed nothing, and the text is still due.
    pub fn read(
        &mut self,
        alloc: Global,
        text: &Result<Text, ReadFault>,
    ) -> Result<PopOut, NoMemory>
        requires { is_reading self.old ≡ true }
        ensures ok { IfOk result (λ out. heard self.old text.now ≡ took out self.new) }
        ensures next { IfOk result (λ out. IsNext out self.new) }
        ensures user { IfOk result (λ out. AsksAsUser out self.new) }
        ensures home { (house : TheHouse) → is_at_home house self.old ≡ true → is_at_home house self.new ≡ true }
        ensures err { OnErr result (self.new ≡ self.old) }
    {
        hear(alloc, &mut self.dialog, text)
    }

    /// Takes the outcome of what the last call asked. It can ask again: QUIT's EXPUNGE, after its STORE (RFC 1939, section 6). A
    /// refused PASS leaves nobody logged in, a refused QUIT and a failed seal close the connection. A call that found no memory
    /// has changed nothing, and the outcome is still due.
    pub fn done(
        &mut self,
        alloc: Global,
        store: &Store,
        stamps: &Stamps,
        outcome: &Result<Item, SubmitFault>,
    ) -> Result<PopOut, NoMemory>
        requires { is_due self.old ≡ true }
        ensures ok { IfOk result (λ out. settle self.old outcome.now ≡ took out self.new) }
        ensures next { IfOk result (λ out. IsNext out self.new) }
        ensures user { IfOk result (λ out. AsksAsUser out self.new) }
        ensures home { (house : TheHouse) → is_at_home house self.old ≡ true → is_at_home house self.new ≡ true }
        ensures err { OnErr result (self.new ≡ self.old) }
    {
        let _store = store;
        let _stamps = stamps;
        settle_dialog(alloc, &mut self.dialog, outcome)
    }

    /// Who is logged in; while the outcome of a PASS is due, whom it names. Nobody after the last answer. Takes no memory.
    pub fn user(&self) -> Option<User>
        ensures { result ≡ user_of self.now }
    {
        match &self.dialog.stage {
            Stage::Authorization { name: _ } => user_entering(&self.dialog.awaits),
            Stage::Transaction { user, maildrop: _ } => Some(*user),
        }
    }

    #[tactic(auto, using(crate::proofs::Turns::held_none))]
    /// How many octets of an answer with a message's text are held: none, unless the outcome of a RETR or TOP is due. Takes no
    /// memory.
    pub fn held(&self) -> usize
        ensures value { result ≡ held_of self.now }
        ensures rest { is_free self.now ≡ true → held_of self.now ≡ 0 }
    {
        octets_held(&self.dialog.awaits)
    }

    #[tactic(auto, using(crate::proofs::Turns::few_messages))]
    /// How many messages of the maildrop are known, marked or not: 0 to 65,536, and 0 before login. Takes no memory.
    pub fn messages(&self) -> usize
        ensures value { result ≡ messages_of self.now }
        ensures most { messages_of self.now ≤ 65536 }
    {
        match &self.dialog.stage {
            Stage::Authorization { name: _ } => 0,
            Stage::Transaction { user: _, maildrop } => maildrop.messages.len(),
        }
    }

    /// Whether nothing is awaited.
    pub fn is_free(&self) -> bool
        ensures { result ≡ is_free self.now }
    {
        matches!(&self.dialog.awaits, Awaits::Nothing)
    }

    /// Whether a text is awaited.
    pub fn is_reading(&self) -> bool
        ensures { result ≡ is_reading self.now }
    {
        matches!(&self.dialog.awaits, Awaits::Text { .. })
    }

    /// Whether the outcome of what was asked is awaited.
    pub fn is_due(&self) -> bool
        ensures { result ≡ is_due self.now }
    {
        matches!(&self.dialog.awaits, Awaits::Outcome { .. })
    }
}

fn user_in(pending: &Pending) -> Option<User>
    ensures { result ≡ spec.user_pending pending.now }
{
    match pending {
        Pending::Enter { user, maildrop: _ } => Some(*user),
        Pending::Tell { answer: _ } => None,
        Pending::Mark { .. } => None,
        Pending::Remove => None,
    }
}

fn user_entering(awaits: &Awaits) -> Option<User>
    ensures { result ≡ spec.user_entering awaits.now }
{
    match awaits {
        Awaits::Nothing => None,
        Awaits::Text { wanted: _ } => None,
        Awaits::Outcome { pending } => user_in(pending),
    }
}

fn octets_in(pending: &Pending) -> usize
    ensures { result ≡ sound.octets_pending pending.now }
{
    match pending {
        Pending::Enter { .. } => 0,
        Pending::Tell { answer } => answer.bytes().len(),
        Pending::Mark { .. } => 0,
        Pending::Remove => 0,
    }
}

fn octets_held(awaits: &Awaits) -> usize
    ensures { result ≡ sound.held_in awaits.now }
{
    match awaits {
        Awaits::Nothing => 0,
        Awaits::Text { wanted: _ } => 0,
        Awaits::Outcome { pending } => octets_in(pending),
    }
}
