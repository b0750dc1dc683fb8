//! APPEND, CHECK, CLOSE and COPY (RFC 3501, sections 6.3.11, 6.4.1, 6.4.2 and 6.4.7).
//!
//! The target of a COPY that is no name is looked at after the message numbers.
//!
//! COPY to a target that is no name is answered as a COPY to a missing one: `No such mailbox` where the selected mailbox is gone,
//! else TRYCREATE.
ghost use Rattle.std.specs.Prelude.{◌≡◌, true, not, IfOk, OnErr, IfSome};
ghost use Rattle.verb_core.specs.Store.{IsValid};
ghost use Rattle.imap_session.specs.declared.dialog.Awaits.{Awaits as TheAwaits};
ghost use Rattle.imap_view.specs.Names.{mailbox_of as mailbox_named};
ghost use Rattle.imap_view.specs.Views.{is_in_order};
ghost use Rattle.imap_session.specs.Words as words;
ghost use Rattle.imap_session.specs.Dialog.{took};
ghost use Rattle.imap_session.specs.Dialog as spec;

use crate::commands::{follow_view, say, submit};
use crate::dialog::{Dialog, Pending, Selected};
use crate::out::ImapOut;
use crate::words::{Answer, Word, copy_word};
use box_store::Store;
use imap_lines::SetText;
use imap_view::{is_there, keys_at, mailbox_of, places_named};
use std::alloc::Global;
use undo_base::{Flags, Keys, Name, NoMemory, Text, User};
use verb_core::{Ask, Refused};

fn submit_append(
    alloc: Global,
    dialog: &mut Dialog,
    tag: &Name,
    mailbox: Name,
    flags: Flags,
    moment: Option<u64>,
    text: &Text,
) -> Result<ImapOut, NoMemory>
    ensures ok { IfOk result (λ out. spec.asks (Ask.Append mailbox flags moment text.now) tag.now (Pending.Follow Word.Append) dialog.old ≡ took out dialog.new) }
    ensures err { OnErr result (dialog.new ≡ dialog.old) }
{
    let tag = tag.copy(alloc)?;
    let text = text.copy(alloc)?;
    let asked = Ask::Append {
        mailbox,
        flags,
        moment,
        text,
    };
    let pending = Pending::Follow { word: Word::Append };
    Ok(submit(dialog, tag, asked, pending))
}

pub(crate) fn append(
    alloc: Global,
    deep: bool,
    dialog: &mut Dialog,
    tag: &Name,
    mailbox: &Text,
    flags: Flags,
    moment: Option<u64>,
    text: &Text,
) -> Result<ImapOut, NoMemory>
    ensures ok { IfOk result (λ out. spec.append tag.now dialog.old dialog.old.user (mailbox_named deep mailbox.now) flags moment text.now ≡ took out dialog.new) }
    ensures err { OnErr result (dialog.new ≡ dialog.old) }
{
    match dialog.user {
        None => say(alloc, tag, Answer::WrongState),
        Some(_) => match mailbox_of(alloc, deep, mailbox)? {
            None => say(alloc, tag, Answer::Refused(Refused::TryCreate)),
            Some(mailbox) => submit_append(alloc, dialog, tag, mailbox, flags, moment, text),
        },
    }
}

pub(crate) fn check(
    alloc: Global,
    store: &Store,
    user: Option<User>,
    selected: &mut Option<Selected>,
    tag: &Name,
    current: bool,
) -> Result<ImapOut, NoMemory>
    requires valid { IsValid store.now.store }
    requires current { current ≡ true → spec.is_shown store.now.store user selected.old ≡ true }
    requires order { IfSome selected.old (λ s. is_in_order s.view ≡ true) }
    ensures ok { IfOk result (λ out. (awaits : TheAwaits) →
        spec.check store.now.store tag.now (record { user = user; selected = selected.old; awaits = awaits }) selected.old
        ≡ took out (record { user = user; selected = selected.new; awaits = awaits })) }
    ensures err { OnErr result (selected.new ≡ selected.old) }
{
    match selected {
        None => say(alloc, tag, Answer::WrongState),
        Some(selected) => follow_view(alloc, store, user, selected, tag, Word::Check, current),
    }
}

/// CLOSE, which removes nothing after EXAMINE.
pub(crate) fn close(alloc: Global, dialog: &mut Dialog, tag: &Name) -> Result<ImapOut, NoMemory>
    ensures ok { IfOk result (λ out. spec.close tag.now dialog.old dialog.old.selected ≡ took out dialog.new) }
    ensures err { OnErr result (dialog.new ≡ dialog.old) }
{
    match &dialog.selected {
        None => say(alloc, tag, Answer::WrongState),
        Some(selected) => {
            let mailbox = selected.mailbox.copy(alloc)?;
            let removes = selected.writes;
            let tag = tag.copy(alloc)?;
            let asked = Ask::Close { mailbox, removes };
            Ok(submit(dialog, tag, asked, Pending::Close))
        }
    }
}

fn submit_copy(
    alloc: Global,
    dialog: &mut Dialog,
    tag: &Name,
    mailbox: Name,
    keys: Keys,
    target: Name,
    by_uid: bool,
) -> Result<ImapOut, NoMemory>
    ensures ok { IfOk result (λ out. spec.asks (Ask.Copy mailbox keys target (not by_uid)) tag.now (Pending.Follow (words.copy_word by_uid)) dialog.old ≡ took out dialog.new) }
    ensures err { OnErr result (dialog.new ≡ dialog.old) }
{
    let tag = tag.copy(alloc)?;
    let asked = Ask::Copy {
        mailbox,
        keys,
        target,
        strict: !by_uid,
    };
    let pending = Pending::Follow {
        word: copy_word(by_uid),
    };
    Ok(submit(dialog, tag, asked, pending))
}

/// Why a COPY to what names no mailbox is refused.
fn no_target(store: &Store, user: Option<User>, mailbox: &Name) -> Refused
    ensures { result ≡ spec.no_target store.now.store user mailbox.now }
{
    if is_there(store, user, mailbox) {
        Refused::TryCreate
    } else {
        Refused::NoBox
    }
}

/// COPY and UID COPY.
pub(crate) fn copy(
    alloc: Global,
    store: &Store,
    deep: bool,
    dialog: &mut Dialog,
    tag: &Name,
    set: &SetText,
    target: &Text,
    by_uid: bool,
) -> Result<ImapOut, NoMemory>
    requires { IfSome dialog.old.selected (λ s. is_in_order s.view ≡ true) }
    ensures ok { IfOk result (λ out. spec.copy store.now.store tag.now dialog.old dialog.old.selected set.now (mailbox_named deep target.now) by_uid ≡ took out dialog.new) }
    ensures err { OnErr result (dialog.new ≡ dialog.old) }
{
    let Some(selected) = &dialog.selected else {
        return say(alloc, tag, Answer::WrongState);
    };
    let Some(places) = places_named(alloc, &selected.view, set, by_uid)? else {
        return say(alloc, tag, Answer::BadNumber);
    };
    let Some(target) = mailbox_of(alloc, deep, target)? else {
        let why = no_target(store, dialog.user, &selected.mailbox);
        return say(alloc, tag, Answer::Refused(why));
    };
    let keys = keys_at(alloc, &selected.view, &places)?;
    let mailbox = selected.mailbox.copy(alloc)?;
    submit_copy(alloc, dialog, tag, mailbox, keys, target, by_uid)
}
