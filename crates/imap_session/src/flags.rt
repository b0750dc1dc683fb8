//! STORE: the messages that it names, and what it asks of the store.
ghost use Rattle.std.specs.Prelude.{◌≡◌, not, true, IfOk, OnErr, IfSome};
ghost use Rattle.shelf.specs.Notes.{size_of};
ghost use Rattle.verb_core.specs.Store.{IsValid};
ghost use Rattle.imap_view.specs.Views.{is_in_order};
ghost use Rattle.imap_session.specs.Dialog.{took};
ghost use Rattle.imap_session.specs.Dialog as spec;

use crate::commands::{say, submit};
use crate::dialog::{Dialog, Pending};
use crate::out::ImapOut;
use crate::words::Answer;
use box_store::Store;
use imap_fetch::{Messages, StoreForm};
use imap_lines::SetText;
use imap_view::{keys_at, mail_of, places_named, rows_at};
use shelf::Shelf;
use std::alloc::Global;
use undo_base::{Keys, Name, NoMemory};
use verb_core::Ask;

/// Asks that the messages' flags change.
fn submit_store(
    dialog: &mut Dialog,
    tag: Name,
    mailbox: Name,
    keys: Keys,
    form: StoreForm,
    silent: bool,
    rows: Messages,
) -> ImapOut
    ensures { spec.asks (Ask.Store mailbox keys form.how form.flags (not form.by_uid)) tag (Pending.Store form silent rows) dialog.old ≡ took result dialog.new }
{
    let asked = Ask::Store {
        mailbox,
        keys,
        how: form.how,
        flags: form.flags,
        strict: !form.by_uid,
    };
    submit(dialog, tag, asked, Pending::Store { form, silent, rows })
}

/// STORE and UID STORE.
pub(crate) fn store_flags(
    alloc: Global,
    store: &Store,
    sizes: &Shelf,
    dialog: &mut Dialog,
    tag: &Name,
    form: StoreForm,
    silent: bool,
    set: &SetText,
) -> Result<ImapOut, NoMemory>
    requires valid { IsValid store.now.store }
    requires order { IfSome dialog.old.selected (λ s. is_in_order s.view ≡ true) }
    ensures ok { IfOk result (λ out. spec.store store.now.store (size_of sizes.now.notes) tag.now dialog.old dialog.old.selected form silent set.now ≡ took out dialog.new) }
    ensures err { OnErr result (dialog.new ≡ dialog.old) }
{
    let Some(selected) = &dialog.selected else {
        return say(alloc, tag, Answer::WrongState);
    };
    if !selected.writes {
        return say(alloc, tag, Answer::ReadOnly);
    }
    let Some(places) = places_named(alloc, &selected.view, set, form.by_uid)? else {
        return say(alloc, tag, Answer::BadNumber);
    };
    let entries = mail_of(store, dialog.user, &selected.mailbox);
    let rows = rows_at(alloc, sizes, entries, &selected.view, &places)?;
    let keys = keys_at(alloc, &selected.view, &places)?;
    let mailbox = selected.mailbox.copy(alloc)?;
    let tag = tag.copy(alloc)?;
    Ok(submit_store(dialog, tag, mailbox, keys, form, silent, rows))
}
