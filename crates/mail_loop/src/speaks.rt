//! A session, whatever it speaks: what the loop knows of it once it took a unit of its stream.
//!
//! A session may see the other connections: the machine hands them to each turn, and the clause of `hear` speaks of the tables in
//! which the connection stands. The sessions there are make no use of that.
ghost use Rattle.std.specs.Prelude.{◌≡◌, true, IfOk, IsTrue, Ok, OnErr};
ghost use Rattle.verb_core.specs.declared.conf.House.{House as TheHouse};
ghost use Rattle.verb_core.specs.Boxes.{is_rising};
ghost use Rattle.verb_core.specs.Store.{IsValid};
ghost use Rattle.mail_loop.specs.Session.{Speech, is_home, took};
ghost use Rattle.mail_loop.specs.SmtpTurn.{smtp_speech};
ghost use Rattle.mail_loop.specs.ImapTurn.{imap_speech};
ghost use Rattle.mail_loop.specs.PopTurn.{pop_speech, text_of};
ghost use Rattle.mail_loop.specs.Took.{AsksAs, GoesOn, IsAwaitedLast};

use crate::out::{Out, of_imap, of_pop_told, of_smtp};
use box_store::Store;
use imap_session::ImapSession;
use pop_session::PopSession;
use seal_log::ReadFault;
use smtp_session::SmtpSession;
use std::alloc::Global;
use std::mem;
use undo_base::{NoMemory, Text, Texts, User};
use verb_core::{Item, Stamps, SubmitFault};

/// A session.
pub trait Speaks {
    /// How it goes on.
    ghost speech: { Speech Self };

    /// Who asks: who is logged in. Takes no memory.
    fn asker(&self) -> Option<User>
        ensures { result ≡ speech.user self.now };

    /// It is over, and is as at first.
    fn end(&mut self)
        ensures { self.new ≡ speech.opening };

    /// Takes the texts that it asked for, in order, or why they can't be had. A call that found no memory has changed nothing.
    fn take_texts(
        &mut self,
        alloc: Global,
        texts: &Result<Texts, ReadFault>,
    ) -> Result<Out, NoMemory>
        requires { speech.takes_texts self.old ≡ true }
        ensures ok { IfOk result (λ out. speech.heard self.old texts.now ≡ took out self.new) }
        ensures next { IfOk result (λ out. GoesOn speech texts.now out self.new) }
        ensures user { IfOk result (λ out. AsksAs speech out self.new) }
        ensures home { (house : TheHouse) → is_home speech house self.old ≡ true → is_home speech house self.new ≡ true }
        ensures err { OnErr result (self.new ≡ self.old) };

    /// Takes the outcome of its ask, with the store and the stamps after it. It may ask further. A call that found no memory has
    /// changed nothing.
    fn take_outcome(
        &mut self,
        alloc: Global,
        store: &Store,
        stamps: &Stamps,
        outcome: &Result<Item, SubmitFault>,
    ) -> Result<Out, NoMemory>
        requires valid { IsValid store.now.store }
        requires rising { IsTrue (is_rising stamps.now) }
        requires due { speech.is_due self.old ≡ true }
        ensures ok { IfOk result (λ out. speech.settle store.now.store stamps.now self.old outcome.now ≡ took out self.new) }
        ensures next { IfOk result (λ out. IsAwaitedLast speech out self.new) }
        ensures user { IfOk result (λ out. AsksAs speech out self.new) }
        ensures home { (house : TheHouse) → is_home speech house self.old ≡ true → is_home speech house self.new ≡ true }
        ensures err { OnErr result (self.new ≡ self.old) };
}

impl Speaks for SmtpSession {
    ghost speech = { smtp_speech };

    fn asker(&self) -> Option<User> {
        None
    }

    fn end(&mut self) {
        drop(mem::replace(self, SmtpSession::new()));
    }

    fn take_texts(
        &mut self,
        alloc: Global,
        texts: &Result<Texts, ReadFault>,
    ) -> Result<Out, NoMemory> {
        let _texts = texts;
        Ok(Out::Say(Text::new(alloc)))
    }

    fn take_outcome(
        &mut self,
        alloc: Global,
        store: &Store,
        stamps: &Stamps,
        outcome: &Result<Item, SubmitFault>,
    ) -> Result<Out, NoMemory> {
        let (_store, _stamps) = (store, stamps);
        let out = self.done(alloc, outcome)?;
        Ok(of_smtp(alloc, out))
    }
}

impl Speaks for ImapSession {
    ghost speech = { imap_speech };

    fn asker(&self) -> Option<User> {
        self.user()
    }

    fn end(&mut self) {
        drop(mem::replace(self, ImapSession::new()));
    }

    fn take_texts(
        &mut self,
        alloc: Global,
        texts: &Result<Texts, ReadFault>,
    ) -> Result<Out, NoMemory> {
        let out = self.read(alloc, texts)?;
        Ok(of_imap(out))
    }

    fn take_outcome(
        &mut self,
        alloc: Global,
        store: &Store,
        stamps: &Stamps,
        outcome: &Result<Item, SubmitFault>,
    ) -> Result<Out, NoMemory> {
        let out = self.done(alloc, store, stamps, outcome)?;
        Ok(of_imap(out))
    }
}

/// The one text that was read, or why it was not.
fn one_text(
    alloc: Global,
    texts: &Result<Texts, ReadFault>,
) -> Result<Result<Text, ReadFault>, NoMemory>
    ensures { IfOk result (λ text. text ≡ text_of texts.now) }
{
    match texts {
        Ok(texts) => Ok(Ok(first_text(alloc, texts)?)),
        Err(why) => Ok(Err(*why)),
    }
}

fn first_text(alloc: Global, texts: &Texts) -> Result<Text, NoMemory>
    ensures { IfOk result (λ text. Ok text ≡ text_of (Ok texts.now)) }
{
    match texts.get(0) {
        Some(text) => text.copy(alloc),
        None => Ok(Text::new(alloc)),
    }
}

impl Speaks for PopSession {
    ghost speech = { pop_speech };

    fn asker(&self) -> Option<User> {
        self.user()
    }

    fn end(&mut self) {
        drop(mem::replace(self, PopSession::new()));
    }

    fn take_texts(
        &mut self,
        alloc: Global,
        texts: &Result<Texts, ReadFault>,
    ) -> Result<Out, NoMemory> {
        let text = one_text(alloc, texts)?;
        let out = self.read(alloc, &text)?;
        Ok(of_pop_told(out))
    }

    fn take_outcome(
        &mut self,
        alloc: Global,
        store: &Store,
        stamps: &Stamps,
        outcome: &Result<Item, SubmitFault>,
    ) -> Result<Out, NoMemory> {
        let out = self.done(alloc, store, stamps, outcome)?;
        Ok(of_pop_told(out))
    }
}
