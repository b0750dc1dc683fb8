//! What commands do to a dialog.
//!
//! SELECT of a mailbox that is not there, or that is no name, leaves none selected; one whose arguments are not in the grammar is
//! no SELECT.
//!
//! After a SELECT or EXAMINE for which no memory was found no mailbox is selected, as after one that is refused. So a client that
//! sends on without waiting can do nothing to the mailbox before.
ghost use Rattle.std.specs.Prelude.{◌≡◌, ◌++◌, [], true, IsTrue, IfOk, OnErr, IfSome};
ghost use Rattle.verb_core.specs.Live.{mail_of as mail_in};
ghost use Rattle.verb_core.specs.Store.{is_house, IsValid};
ghost use Rattle.imap_session.specs.declared.dialog.Awaits.{Awaits as TheAwaits};
ghost use Rattle.verb_core.specs.declared.ask.Refused.TheVariants.{NoBox};
ghost use Rattle.imap_view.specs.Names.{mailbox_of as mailbox_named};
ghost use Rattle.imap_view.specs.Views as views;
ghost use Rattle.imap_session.specs.Words as words;
ghost use Rattle.imap_session.specs.Dialog.{took};
ghost use Rattle.imap_session.specs.Dialog as spec;

use crate::dialog::{Awaits, Dialog, Pending, Selected, Wanted};
use crate::out::ImapOut;
use crate::words::{Answer, Word, push_tagged, tagged};
use box_store::Store;
use imap_view::{account_of, is_current, mail_of, mailbox_of, news, view_of};
use std::alloc::Global;
use std::mem;
use undo_base::{Name, NoMemory, Text, User};
use verb_core::{Ask, House, Refused};

/// An answer, and the dialog goes on.
pub(crate) fn say(alloc: Global, tag: &Name, answer: Answer) -> Result<ImapOut, NoMemory>
    ensures { IfOk result (λ out. out ≡ ImapOut.Say (words.tagged tag.now answer)) }
{
    Ok(ImapOut::Say(tagged(alloc, tag, answer)?))
}

/// Nothing is said.
pub(crate) fn say_nothing(alloc: Global) -> ImapOut
    ensures { result ≡ ImapOut.Say [] }
{
    ImapOut::Say(Text::new(alloc))
}

/// Data and then the answer.
pub(crate) fn tell(mut text: Text, tag: &Name, answer: Answer) -> Result<ImapOut, NoMemory>
    ensures { IfOk result (λ out. out ≡ ImapOut.Say (text ++ words.tagged tag.now answer)) }
{
    push_tagged(&mut text, tag, answer)?;
    Ok(ImapOut::Say(text))
}

/// Done; a view is told of its mailbox first, and follows it. The messages are not looked at where the view is known to be current.
pub(crate) fn follow_view(
    alloc: Global,
    store: &Store,
    user: Option<User>,
    selected: &mut Selected,
    tag: &Name,
    word: Word,
    current: bool,
) -> Result<ImapOut, NoMemory>
    requires valid { IsValid store.now.store }
    requires order { views.is_in_order selected.old.view ≡ true }
    requires current { current ≡ true → views.is_current (mail_in store.now.store user selected.old.mailbox) selected.old.view ≡ true }
    ensures said { IfOk result (λ out. out ≡ ImapOut.Say (views.news (mail_in store.now.store user selected.old.mailbox) selected.old.view ++ words.tagged tag.now (Answer.Done word))) }
    ensures view { IfOk result (λ out. selected.new ≡ record selected.old { view = views.view_of (mail_in store.now.store user selected.old.mailbox) }) }
    ensures err { OnErr result (selected.new ≡ selected.old) }
{
    let entries = mail_of(store, user, &selected.mailbox);
    if is_current(entries, &selected.view, current) {
        return say(alloc, tag, Answer::Done(word));
    }
    let text = news(alloc, entries, &selected.view)?;
    let view = view_of(alloc, entries)?;
    let out = tell(text, tag, Answer::Done(word))?;
    selected.view = view;
    Ok(out)
}

/// Done; the view of the selected mailbox is told of it first, and follows it.
pub(crate) fn follow(
    alloc: Global,
    store: &Store,
    user: Option<User>,
    selected: &mut Option<Selected>,
    tag: &Name,
    word: Word,
    current: bool,
) -> Result<ImapOut, NoMemory>
    requires valid { IsValid store.now.store }
    requires current { current ≡ true → spec.is_shown store.now.store user selected.old ≡ true }
    requires order { IfSome selected.old (λ s. views.is_in_order s.view ≡ true) }
    ensures ok { IfOk result (λ out. (awaits : TheAwaits) →
        spec.follow store.now.store tag.now word (record { user = user; selected = selected.old; awaits = awaits }) selected.old
        ≡ took out (record { user = user; selected = selected.new; awaits = awaits })) }
    ensures err { OnErr result (selected.new ≡ selected.old) }
{
    match selected {
        None => say(alloc, tag, Answer::Done(word)),
        Some(selected) => follow_view(alloc, store, user, selected, tag, word, current),
    }
}

/// This is awaited from now on.
pub(crate) fn wait_for(dialog: &mut Dialog, awaits: Awaits)
    ensures { dialog.new ≡ record dialog.old { awaits = awaits } }
{
    drop(mem::replace(&mut dialog.awaits, awaits));
}

/// This mailbox is selected from now on, or none.
pub(crate) fn hold(selected: &mut Option<Selected>, now: Option<Selected>)
    ensures { selected.new ≡ now }
{
    drop(mem::replace(selected, now));
}

/// Texts are awaited.
pub(crate) fn wait_for_texts(dialog: &mut Dialog, tag: Name, wanted: Wanted)
    ensures { dialog.new ≡ spec.awaiting_texts tag wanted dialog.old }
{
    wait_for(dialog, Awaits::Texts { tag, wanted });
}

/// The store is asked, and the outcome is awaited.
pub(crate) fn submit(dialog: &mut Dialog, tag: Name, asked: Ask, pending: Pending) -> ImapOut
    ensures { spec.asks asked tag pending dialog.old ≡ took result dialog.new }
{
    wait_for(dialog, Awaits::Outcome { tag, pending });
    ImapOut::Submit(asked)
}

pub(crate) fn capability(alloc: Global, tag: &Name) -> Result<ImapOut, NoMemory>
    ensures { IfOk result (λ out. out ≡ ImapOut.Say (words.capability_text ++ words.tagged tag.now (Answer.Done Word.Capability))) }
{
    let text = Text::of(alloc, b"* CAPABILITY IMAP4rev1\r\n")?;
    tell(text, tag, Answer::Done(Word::Capability))
}

pub(crate) fn logout(alloc: Global, tag: &Name) -> Result<ImapOut, NoMemory>
    ensures { IfOk result (λ out. out ≡ ImapOut.Bye (words.bye_text ++ words.tagged tag.now (Answer.Done Word.Logout))) }
{
    let mut text = Text::of(alloc, b"* BYE Bye.\r\n")?;
    push_tagged(&mut text, tag, Answer::Done(Word::Logout))?;
    Ok(ImapOut::Bye(text))
}

pub(crate) fn login(
    alloc: Global,
    house: &House,
    dialog: &mut Dialog,
    tag: &Name,
    name: &Text,
    password: &Text,
) -> Result<ImapOut, NoMemory>
    requires { IsTrue (is_house house.now) }
    ensures ok { IfOk result (λ out. spec.login house.now tag.now dialog.old dialog.old.user name.now password.now ≡ took out dialog.new) }
    ensures err { OnErr result (dialog.new ≡ dialog.old) }
{
    if dialog.user.is_some() {
        return say(alloc, tag, Answer::WrongState);
    }
    match account_of(house, name, password) {
        None => say(alloc, tag, Answer::LoginFailed),
        Some(number) => {
            let out = say(alloc, tag, Answer::Done(Word::Login))?;
            dialog.user = Some(User(number as u8));
            Ok(out)
        }
    }
}

fn select_none(alloc: Global, dialog: &mut Dialog, tag: &Name) -> Result<ImapOut, NoMemory>
    ensures ok { IfOk result (λ out. spec.says tag.now (Answer.Refused NoBox) (spec.unselected dialog.old) ≡ took out dialog.new) }
    ensures err { OnErr result (dialog.new ≡ dialog.old) }
{
    let out = say(alloc, tag, Answer::Refused(Refused::NoBox))?;
    hold(&mut dialog.selected, None);
    Ok(out)
}

fn select_named(
    alloc: Global,
    dialog: &mut Dialog,
    tag: &Name,
    mailbox: Name,
    writes: bool,
) -> Result<ImapOut, NoMemory>
    ensures ok { IfOk result (λ out. spec.asks (Ask.Select mailbox) tag.now (Pending.Select mailbox writes) dialog.old ≡ took out dialog.new) }
    ensures err { OnErr result (dialog.new ≡ dialog.old) }
{
    let copy = mailbox.copy(alloc)?;
    let tag = tag.copy(alloc)?;
    let pending = Pending::Select {
        mailbox: copy,
        writes,
    };
    Ok(submit(dialog, tag, Ask::Select { mailbox }, pending))
}

fn begin_select(
    alloc: Global,
    deep: bool,
    dialog: &mut Dialog,
    tag: &Name,
    mailbox: &Text,
    writes: bool,
) -> Result<ImapOut, NoMemory>
    ensures ok { IfOk result (λ out. spec.select tag.now dialog.old dialog.old.user (mailbox_named deep mailbox.now) writes ≡ took out dialog.new) }
    ensures err { OnErr result (dialog.new ≡ dialog.old) }
{
    match dialog.user {
        None => say(alloc, tag, Answer::WrongState),
        Some(_) => match mailbox_of(alloc, deep, mailbox)? {
            None => select_none(alloc, dialog, tag),
            Some(mailbox) => select_named(alloc, dialog, tag, mailbox, writes),
        },
    }
}

/// SELECT and EXAMINE. Where no memory is found for it, no mailbox is selected any more.
pub(crate) fn select(
    alloc: Global,
    deep: bool,
    dialog: &mut Dialog,
    tag: &Name,
    mailbox: &Text,
    writes: bool,
) -> Result<ImapOut, NoMemory>
    ensures ok { IfOk result (λ out. spec.select tag.now dialog.old dialog.old.user (mailbox_named deep mailbox.now) writes ≡ took out dialog.new) }
    ensures err { OnErr result (dialog.new ≡ spec.unselected dialog.old) }
{
    match begin_select(alloc, deep, dialog, tag, mailbox, writes) {
        Ok(out) => Ok(out),
        Err(NoMemory) => {
            hold(&mut dialog.selected, None);
            Err(NoMemory)
        }
    }
}

/// Asks that the mailbox's messages with `\Deleted` go.
fn submit_expunge(dialog: &mut Dialog, tag: Name, mailbox: Name) -> ImapOut
    ensures { spec.asks (Ask.Expunge mailbox None) tag (Pending.Follow Word.Expunge) dialog.old ≡ took result dialog.new }
{
    let asked = Ask::Expunge {
        mailbox,
        only: None,
    };
    let pending = Pending::Follow {
        word: Word::Expunge,
    };
    submit(dialog, tag, asked, pending)
}

pub(crate) fn expunge(alloc: Global, dialog: &mut Dialog, tag: &Name) -> Result<ImapOut, NoMemory>
    ensures ok { IfOk result (λ out. spec.expunge tag.now dialog.old dialog.old.selected ≡ took out dialog.new) }
    ensures err { OnErr result (dialog.new ≡ dialog.old) }
{
    match &dialog.selected {
        None => say(alloc, tag, Answer::WrongState),
        Some(selected) => {
            if !selected.writes {
                return say(alloc, tag, Answer::ReadOnly);
            }
            let mailbox = selected.mailbox.copy(alloc)?;
            let tag = tag.copy(alloc)?;
            Ok(submit_expunge(dialog, tag, mailbox))
        }
    }
}
