//! The session of an IMAP client.
//!
//! Where no memory is found for a command the session stays as it was. But no mailbox is selected after a SELECT or EXAMINE,
//! wherever the memory was missing, as after any refusal of one.
ghost use Rattle.std.specs.Prelude.{◌≡◌, IsTrue, IfOk, OnOk, OnErr, true};
ghost use Rattle.shelf.specs.Notes.{size_of};
ghost use Rattle.verb_core.specs.Boxes.{is_rising};
ghost use Rattle.verb_core.specs.Store.{is_house, IsValid};
ghost use Rattle.imap_session.specs.Dialog.{AsksAsUser, IsNext, ReadsOf, heard, is_at_home, is_due, is_free, is_reading, opening, settle, took, turn, without_memory};
ghost use Rattle.imap_session.specs.Dialog as spec;

use crate::dialog::{Awaits, Dialog};
use crate::fetch::hear;
use crate::obey::obey;
use crate::out::ImapOut;
use crate::settle::settle as settle_dialog;
use box_store::Store;
use imap_lines::ImapCommand;
use seal_log::ReadFault;
use shelf::Shelf;
use std::alloc::Global;
use std::marker::Model;
use undo_base::{Name, NoMemory, Texts, User};
use verb_core::{House, Item, Stamps, SubmitFault};

/// The session of an IMAP client from its greeting to its last answer.
#[derive(Drop)]
pub struct ImapSession {
    dialog: Dialog,
}

impl Model for ImapSession {
    ghost use Rattle.std.specs.Prelude.{◌≡◌};
    ghost use Rattle.imap_session.specs.declared.dialog.Dialog.{Dialog as TheDialog};
    ghost use Rattle.imap_session.specs.declared.session.ImapSession.TheInside.{Inside};
    ghost use Rattle.imap_session.specs.Sound.{IsSoundDialog};
    ghost use Rattle.search_verb.specs.contracts.building.Search as search;
    ghost use Rattle.std.specs.Coded.{codes};

    ghost Value = { TheDialog };

    ghost coded = { Prim.hlevel (codes, search.the_row.coded) };

    ghost view = { λ s. s.dialog };

    ghost invariant = { λ s. IsSoundDialog s.dialog × ((other : Inside) → s ≡ record other { dialog = s.dialog }) };
}

impl ImapSession {
    /// A session in which nobody is logged in, which takes no memory.
    pub fn new() -> ImapSession
        ensures { result ≡ opening }
    {
        ImapSession {
            dialog: Dialog {
                user: None,
                selected: None,
                awaits: Awaits::Nothing,
            },
        }
    }

    /// Takes one command, where the store is deep or not: what comes of it later is told by the same. A SELECT or EXAMINE that found no memory leaves no mailbox selected; any other command that
    /// found none has changed nothing.
    pub fn take(
        &mut self,
        alloc: Global,
        house: &House,
        store: &Store,
        stamps: &Stamps,
        sizes: &Shelf,
        deep: bool,
        command: &ImapCommand,
    ) -> Result<ImapOut, NoMemory>
        requires house { IsTrue (is_house house.now) }
        requires valid { IsValid store.now.store }
        requires home { is_at_home house.now self.old ≡ true }
        requires free { is_free self.old ≡ true }
        ensures ok { IfOk result (λ out. turn house.now store.now.store (size_of sizes.now.notes) deep self.old command.now ≡ took out self.new) }
        ensures next { IfOk result (λ out. IsNext out self.new) }
        ensures user { IfOk result (λ out. AsksAsUser out self.new) }
        ensures reads { IfOk result (λ out. ReadsOf store.now.store out) }
        ensures stays { is_at_home house.now self.new ≡ true }
        ensures err { OnErr result (self.new ≡ without_memory command.now.what self.old) }
        ensures rests { OnErr result (is_free self.new ≡ true) }
    {
        let _stamps = stamps;
        self.take_known(alloc, house, store, sizes, deep, command, false)
    }

    /// `take`, where it may be known that the view is current: then a NOOP or CHECK does not look at the mailbox.
    pub fn take_known(
        &mut self,
        alloc: Global,
        house: &House,
        store: &Store,
        sizes: &Shelf,
        deep: bool,
        command: &ImapCommand,
        current: bool,
    ) -> Result<ImapOut, NoMemory>
        requires house { IsTrue (is_house house.now) }
        requires valid { IsValid store.now.store }
        requires home { is_at_home house.now self.old ≡ true }
        requires free { is_free self.old ≡ true }
        requires current { current ≡ true → spec.is_view_current store.now.store self.old ≡ true }
        ensures ok { IfOk result (λ out. turn house.now store.now.store (size_of sizes.now.notes) deep self.old command.now ≡ took out self.new) }
        ensures next { IfOk result (λ out. IsNext out self.new) }
        ensures user { IfOk result (λ out. AsksAsUser out self.new) }
        ensures reads { IfOk result (λ out. ReadsOf store.now.store out) }
        ensures stays { is_at_home house.now self.new ≡ true }
        ensures current { IfOk result (λ out. spec.stays_current current command.now.what out ≡ true → spec.is_view_current store.now.store self.new ≡ true) }
        ensures err { OnErr result (self.new ≡ without_memory command.now.what self.old) }
        ensures rests { OnErr result (is_free self.new ≡ true) }
    {
        obey(
            alloc,
            house,
            store,
            sizes,
            deep,
            &mut self.dialog,
            command,
            current,
        )
    }

    /// Takes the texts that the last `take` asked for, in order, or why they can't be had. A call that found no memory has
    /// changed nothing, and the texts are still due.
    pub fn read(
        &mut self,
        alloc: Global,
        texts: &Result<Texts, ReadFault>,
    ) -> Result<ImapOut, NoMemory>
        requires { is_reading self.old ≡ true }
        ensures ok { IfOk result (λ out. heard self.old texts.now ≡ took out self.new) }
        ensures next { IfOk result (λ out. IsNext out self.new) }
        ensures user { IfOk result (λ out. AsksAsUser out self.new) }
        ensures stays { self.new.user ≡ self.old.user }
        ensures err { OnErr result (self.new ≡ self.old) }
    {
        hear(alloc, &mut self.dialog, texts)
    }

    /// Takes the outcome of what the last call asked, with the store and the stamps after it. A call that found no memory
    /// has changed nothing, and the outcome is still due.
    pub fn done(
        &mut self,
        alloc: Global,
        store: &Store,
        stamps: &Stamps,
        outcome: &Result<Item, SubmitFault>,
    ) -> Result<ImapOut, NoMemory>
        requires valid { IsValid store.now.store }
        requires rising { IsTrue (is_rising stamps.now) }
        requires due { is_due self.old ≡ true }
        ensures ok { IfOk result (λ out. settle store.now.store stamps.now self.old outcome.now ≡ took out self.new) }
        ensures free { OnOk result (is_free self.new ≡ true) }
        ensures stays { self.new.user ≡ self.old.user }
        ensures err { OnErr result (self.new ≡ self.old) }
    {
        settle_dialog(alloc, store, stamps, &mut self.dialog, outcome)
    }

    /// Who is logged in. Takes no memory.
    pub fn user(&self) -> Option<User>
        ensures { result ≡ self.now.user }
    {
        self.dialog.user
    }

    /// Whether that user's mailbox of that name is selected. Takes no memory.
    pub fn holds(&self, user: User, name: &Name) -> bool
        ensures { result ≡ spec.holds self.now user name.now }
    {
        match (self.dialog.user, &self.dialog.selected) {
            (Some(own), Some(selected)) => {
                own == user && selected.mailbox.bytes() == name.bytes()
            }
            _ => false,
        }
    }

    /// Whether nothing is awaited.
    pub fn is_free(&self) -> bool
        ensures { result ≡ is_free self.now }
    {
        matches!(&self.dialog.awaits, Awaits::Nothing)
    }

    /// Whether texts are awaited.
    pub fn is_reading(&self) -> bool
        ensures { result ≡ is_reading self.now }
    {
        matches!(&self.dialog.awaits, Awaits::Texts { .. })
    }

    /// Whether the outcome of what was asked is awaited.
    pub fn is_due(&self) -> bool
        ensures { result ≡ is_due self.now }
    {
        matches!(&self.dialog.awaits, Awaits::Outcome { .. })
    }
}
