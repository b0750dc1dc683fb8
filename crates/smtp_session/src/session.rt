//! The session of an SMTP client.
ghost use Rattle.std.specs.Prelude.{◌≡◌, ◌≤◌, IsTrue, IfOk, OnErr, false, true};
ghost use Rattle.verb_core.specs.Store.{is_house};
ghost use Rattle.smtp_session.specs.Dialog.{is_due, is_writing, opening, settle, turn, turns};
ghost use Rattle.smtp_session.specs.Limits.{AsksWithin, held_of, kept_of};

use crate::answer::SmtpOut;
use crate::dialog::{Dialog, Transaction, take_line};
use crate::ending::settle_dialog;
use crate::kept::{kept, text_octets};
use smtp_lines::SmtpLine;
use std::alloc::Global;
use std::marker::Model;
use undo_base::{LAST_MOMENT, NoMemory};
use verb_core::{Conf, House, Item, SubmitFault};

/// The session of an SMTP client from its greeting to its last answer.
#[derive(Drop)]
pub struct SmtpSession {
    dialog: Dialog,
}

impl Model for SmtpSession {
    ghost use Rattle.std.specs.Prelude.{◌≡◌};
    ghost use Rattle.smtp_session.specs.declared.dialog.Dialog.{Dialog as TheDialog};
    ghost use Rattle.smtp_session.specs.Limits.{IsSmall, same_fields};

    ghost Value = { TheDialog };

    ghost use Rattle.smtp_session.specs.declared.session.SmtpSession.TheInside.{Inside};

    ghost view = { λ s. s.dialog };

    ghost invariant = { λ s. IsSmall s.dialog × ((other : Inside) → s ≡ record other { dialog = same_fields s.dialog other.dialog }) };
}

impl SmtpSession {
    /// A session with no greeting yet, which takes no memory.
    pub fn new() -> SmtpSession
        ensures { result ≡ opening }
    {
        SmtpSession {
            dialog: Dialog {
                client: None,
                transaction: Transaction::Idle,
            },
        }
    }

    /// Takes one line at a moment. A call that found no memory has changed nothing.
    pub fn take(
        &mut self,
        alloc: Global,
        house: &House,
        conf: &Conf,
        at: u64,
        line: &SmtpLine,
    ) -> Result<SmtpOut, NoMemory>
        requires house { IsTrue (is_house house.now) }
        requires moment { at ≤ LAST_MOMENT }
        requires free { is_due self.old ≡ false }
        ensures ok { IfOk result (λ out. turn house.now conf.now at self.old line.now ≡ turns out self.new) }
        ensures within { IfOk result AsksWithin }
        ensures held { held_of self.new ≤ 1048576 }
        ensures err { OnErr result (self.new ≡ self.old) }
    {
        // The host's name is short, and so is the body that is asked.
        let _host = house.host.bytes();
        take_line(alloc, house, conf, at, &mut self.dialog, line)
    }

    /// Takes the outcome of what the last `take` asked. A call that found no memory has changed nothing, and the outcome
    /// is still due.
    pub fn done(
        &mut self,
        alloc: Global,
        outcome: &Result<Item, SubmitFault>,
    ) -> Result<SmtpOut, NoMemory>
        requires due { is_due self.old ≡ true }
        ensures ok { IfOk result (λ out. settle self.old outcome.now ≡ turns out self.new) }
        ensures err { OnErr result (self.new ≡ self.old) }
    {
        settle_dialog(alloc, &mut self.dialog, outcome)
    }

    /// How many octets of a text are held. Takes no memory.
    pub fn held(&self) -> usize
        ensures value { result ≡ held_of self.now }
        ensures most { held_of self.now ≤ 1048576 }
    {
        match &self.dialog.transaction {
            Transaction::Idle => 0,
            Transaction::Begun { .. } => 0,
            Transaction::Writing {
                path: _,
                to: _,
                text,
            } => text_octets(text),
            Transaction::Due { .. } => 0,
        }
    }

    /// How many octets are kept of what the client said, each recipient's name counted once. Takes no memory.
    pub fn kept(&self) -> usize
        ensures value { result ≡ kept_of self.now }
        ensures most { kept_of self.now ≤ 1249030 }
    {
        kept(&self.dialog)
    }

    /// Whether the outcome of what was asked is due.
    pub fn is_due(&self) -> bool
        ensures { result ≡ is_due self.now }
    {
        matches!(&self.dialog.transaction, Transaction::Due { .. })
    }

    /// Whether a text is being taken: where `take` finds no memory then, nothing can be answered.
    pub fn is_in_text(&self) -> bool
        ensures { result ≡ is_writing self.now }
    {
        matches!(&self.dialog.transaction, Transaction::Writing { .. })
    }
}
