//! CREATE, DELETE, RENAME, SUBSCRIBE and UNSUBSCRIBE (RFC 3501, sections 6.3.3 to 6.3.7).
//!
//! Every mailbox is subscribed to: LSUB gives what LIST gives, and SUBSCRIBE and UNSUBSCRIBE are done whatever they name.
//!
//! RENAME to what is no name is refused first. Of one from what is no name to a name, the first refusal of the store that would
//! hold is told. It is told by the shape that new names have in a store that is deep or not. What is no name is no superior and
//! has no inferiors.
ghost use Rattle.std.specs.Prelude.{◌≡◌, IfOk, OnErr};
ghost use Rattle.imap_view.specs.Names.{made_mailbox_of as made_mailbox_named, mailbox_of as mailbox_named};
ghost use Rattle.imap_session.specs.Dialog.{took};
ghost use Rattle.imap_session.specs.Dialog as spec;

use crate::commands::{say, submit};
use crate::dialog::{Dialog, Pending};
use crate::out::ImapOut;
use crate::words::{Answer, Word};
use imap_view::{made_mailbox_of, mailbox_of};
use std::alloc::Global;
use undo_base::{Name, NoMemory, Text};
use verb_core::{Ask, Refused, is_fixed, is_new_name};

fn create_named(
    alloc: Global,
    dialog: &mut Dialog,
    tag: &Name,
    mailbox: Name,
) -> Result<ImapOut, NoMemory>
    ensures ok { IfOk result (λ out. spec.asks (Ask.Create mailbox) tag.now (Pending.Plain Word.Create) dialog.old ≡ took out dialog.new) }
    ensures err { OnErr result (dialog.new ≡ dialog.old) }
{
    let tag = tag.copy(alloc)?;
    let pending = Pending::Plain { word: Word::Create };
    Ok(submit(dialog, tag, Ask::Create { mailbox }, pending))
}

pub(crate) fn create(
    alloc: Global,
    deep: bool,
    dialog: &mut Dialog,
    tag: &Name,
    mailbox: &Text,
) -> Result<ImapOut, NoMemory>
    ensures ok { IfOk result (λ out. spec.create tag.now dialog.old dialog.old.user (made_mailbox_named deep mailbox.now) ≡ took out dialog.new) }
    ensures err { OnErr result (dialog.new ≡ dialog.old) }
{
    match dialog.user {
        None => say(alloc, tag, Answer::WrongState),
        Some(_) => match made_mailbox_of(alloc, deep, mailbox)? {
            None => say(alloc, tag, Answer::Refused(Refused::NameShape)),
            Some(mailbox) => create_named(alloc, dialog, tag, mailbox),
        },
    }
}

fn delete_named(
    alloc: Global,
    dialog: &mut Dialog,
    tag: &Name,
    mailbox: Name,
) -> Result<ImapOut, NoMemory>
    ensures ok { IfOk result (λ out. spec.asks (Ask.Delete mailbox) tag.now (Pending.Leave Word.Delete) dialog.old ≡ took out dialog.new) }
    ensures err { OnErr result (dialog.new ≡ dialog.old) }
{
    let tag = tag.copy(alloc)?;
    let pending = Pending::Leave { word: Word::Delete };
    Ok(submit(dialog, tag, Ask::Delete { mailbox }, pending))
}

pub(crate) fn delete(
    alloc: Global,
    deep: bool,
    dialog: &mut Dialog,
    tag: &Name,
    mailbox: &Text,
) -> Result<ImapOut, NoMemory>
    ensures ok { IfOk result (λ out. spec.delete tag.now dialog.old dialog.old.user (mailbox_named deep mailbox.now) ≡ took out dialog.new) }
    ensures err { OnErr result (dialog.new ≡ dialog.old) }
{
    match dialog.user {
        None => say(alloc, tag, Answer::WrongState),
        Some(_) => match mailbox_of(alloc, deep, mailbox)? {
            None => say(alloc, tag, Answer::Refused(Refused::NoBox)),
            Some(mailbox) => delete_named(alloc, dialog, tag, mailbox),
        },
    }
}

/// Why a mailbox that is not there can't get a name.
fn target_refused(deep: bool, target: &Name) -> Refused
    ensures { result ≡ spec.target_refused deep target.now }
{
    let target = target.bytes();
    if !is_new_name(deep, target) {
        return Refused::NameShape;
    }
    if is_fixed(target) {
        return Refused::Fixed;
    }
    Refused::NoBox
}

fn rename_named(
    alloc: Global,
    dialog: &mut Dialog,
    tag: &Name,
    mailbox: Name,
    target: Name,
) -> Result<ImapOut, NoMemory>
    ensures ok { IfOk result (λ out. spec.asks (Ask.Rename mailbox target) tag.now (Pending.Leave Word.Rename) dialog.old ≡ took out dialog.new) }
    ensures err { OnErr result (dialog.new ≡ dialog.old) }
{
    let tag = tag.copy(alloc)?;
    let pending = Pending::Leave { word: Word::Rename };
    Ok(submit(dialog, tag, Ask::Rename { mailbox, target }, pending))
}

fn rename_to(
    alloc: Global,
    deep: bool,
    dialog: &mut Dialog,
    tag: &Name,
    mailbox: Option<Name>,
    target: Name,
) -> Result<ImapOut, NoMemory>
    ensures ok { IfOk result (λ out. spec.rename_to tag.now dialog.old deep target mailbox ≡ took out dialog.new) }
    ensures err { OnErr result (dialog.new ≡ dialog.old) }
{
    match mailbox {
        None => say(alloc, tag, Answer::Refused(target_refused(deep, &target))),
        Some(mailbox) => rename_named(alloc, dialog, tag, mailbox, target),
    }
}

pub(crate) fn rename(
    alloc: Global,
    deep: bool,
    dialog: &mut Dialog,
    tag: &Name,
    mailbox: &Text,
    target: &Text,
) -> Result<ImapOut, NoMemory>
    ensures ok { IfOk result (λ out. spec.rename tag.now dialog.old dialog.old.user deep (mailbox_named deep target.now) (mailbox_named deep mailbox.now) ≡ took out dialog.new) }
    ensures err { OnErr result (dialog.new ≡ dialog.old) }
{
    match dialog.user {
        None => say(alloc, tag, Answer::WrongState),
        Some(_) => match mailbox_of(alloc, deep, target)? {
            None => say(alloc, tag, Answer::Refused(Refused::NameShape)),
            Some(target) => {
                let mailbox = mailbox_of(alloc, deep, mailbox)?;
                rename_to(alloc, deep, dialog, tag, mailbox, target)
            }
        },
    }
}

/// SUBSCRIBE and UNSUBSCRIBE, which change nothing.
pub(crate) fn subscribe(
    alloc: Global,
    dialog: &Dialog,
    tag: &Name,
    word: Word,
) -> Result<ImapOut, NoMemory>
    ensures { IfOk result (λ out. spec.subscribe tag.now dialog.now dialog.now.user word ≡ took out dialog.now) }
{
    match dialog.user {
        None => say(alloc, tag, Answer::WrongState),
        Some(_) => say(alloc, tag, Answer::Done(word)),
    }
}
