//! One command.
//!
//! A NOOP that finds the view to be the mailbox takes no memory for a view. It still compares each message, since nothing in a
//! mailbox tells that it did not change. But between the commands that came in one piece the store changes only by what they ask.
//! So behind a NOOP or CHECK the view is known to be current, and a further one compares nothing. That ends where a command reads
//! texts, asks something of the store or finds no memory (`stays_current`). It is known while one piece is served alone; the
//! session keeps nothing of it.
ghost use Rattle.std.specs.Prelude.{◌≡◌, true, IsTrue, IfOk, OnErr, IfSome};
ghost use Rattle.shelf.specs.Notes.{size_of};
ghost use Rattle.verb_core.specs.Store.{is_house, IsValid};
ghost use Rattle.imap_view.specs.Views.{is_in_order};
ghost use Rattle.imap_session.specs.Dialog.{took};
ghost use Rattle.imap_session.specs.Dialog as spec;

use crate::append::{append, check, close, copy};
use crate::boxes::{create, delete, rename, subscribe};
use crate::commands::{capability, expunge, follow, login, logout, say, select};
use crate::dialog::Dialog;
use crate::fetch::fetch;
use crate::flags::store_flags;
use crate::lists::{list, status};
use crate::out::ImapOut;
use crate::search::search;
use crate::words::{Answer, Word};
use box_store::Store;
use imap_fetch::StoreForm;
use imap_lines::{ImapCommand, ImapWhat};
use shelf::Shelf;
use std::alloc::Global;
use undo_base::NoMemory;
use verb_core::House;

/// Whether a command tells the view of its mailbox, and the view follows.
fn follows_view(what: &ImapWhat) -> bool
    ensures { result ≡ spec.follows_view what.now }
{
    matches!(what, ImapWhat::Noop | ImapWhat::Check)
}

fn is_said(out: &ImapOut) -> bool
    ensures { result ≡ spec.is_said out.now }
{
    match out {
        ImapOut::Say(_) => true,
        ImapOut::Read(_) => false,
        ImapOut::Submit(_) => false,
        ImapOut::Bye(_) => false,
    }
}

/// Whether the view is known to be current behind a command, of which this came. Takes no memory.
pub fn stays_current(current: bool, command: &ImapCommand, out: &ImapOut) -> bool
    ensures { result ≡ spec.stays_current current command.now.what out.now }
{
    is_said(out) && (current || follows_view(&command.what))
}

/// One command with its tag, where the store is deep or not. `current` says that the view is known to be current.
pub(crate) fn obey(
    alloc: Global,
    house: &House,
    store: &Store,
    sizes: &Shelf,
    deep: bool,
    dialog: &mut Dialog,
    command: &ImapCommand,
    current: bool,
) -> Result<ImapOut, NoMemory>
    requires house { IsTrue (is_house house.now) }
    requires valid { IsValid store.now.store }
    requires current { current ≡ true → spec.is_view_current store.now.store dialog.old ≡ true }
    requires order { IfSome dialog.old.selected (λ s. is_in_order s.view ≡ true) }
    ensures ok { IfOk result (λ out. spec.obey house.now store.now.store (size_of sizes.now.notes) deep command.now.tag dialog.old command.now.what ≡ took out dialog.new) }
    ensures err { OnErr result (dialog.new ≡ spec.without_memory command.now.what dialog.old) }
{
    let tag = &command.tag;
    match &command.what {
        ImapWhat::Noop => follow(
            alloc,
            store,
            dialog.user,
            &mut dialog.selected,
            tag,
            Word::Noop,
            current,
        ),
        ImapWhat::Logout => logout(alloc, tag),
        ImapWhat::Login { user, password } => login(alloc, house, dialog, tag, user, password),
        ImapWhat::Select { mailbox } => select(alloc, deep, dialog, tag, mailbox, true),
        ImapWhat::Expunge => expunge(alloc, dialog, tag),
        ImapWhat::Fetch { set, asked, by_uid } => {
            fetch(alloc, store, sizes, dialog, tag, asked, set, *by_uid)
        }
        ImapWhat::Store {
            set,
            how,
            silent,
            flags,
            by_uid,
        } => {
            let form = StoreForm {
                how: *how,
                flags: *flags,
                by_uid: *by_uid,
            };
            store_flags(alloc, store, sizes, dialog, tag, form, *silent, set)
        }
        ImapWhat::Capability => capability(alloc, tag),
        ImapWhat::Examine { mailbox } => select(alloc, deep, dialog, tag, mailbox, false),
        ImapWhat::Create { mailbox } => create(alloc, deep, dialog, tag, mailbox),
        ImapWhat::Delete { mailbox } => delete(alloc, deep, dialog, tag, mailbox),
        ImapWhat::Rename { mailbox, target } => rename(alloc, deep, dialog, tag, mailbox, target),
        ImapWhat::Subscribe { mailbox: _ } => subscribe(alloc, dialog, tag, Word::Subscribe),
        ImapWhat::Unsubscribe { mailbox: _ } => subscribe(alloc, dialog, tag, Word::Unsubscribe),
        ImapWhat::List { reference, pattern } => list(
            alloc, deep, dialog, tag, false, reference, pattern,
        ),
        ImapWhat::Lsub { reference, pattern } => list(
            alloc, deep, dialog, tag, true, reference, pattern,
        ),
        ImapWhat::Status { mailbox, asked } => status(alloc, deep, dialog, tag, mailbox, asked),
        ImapWhat::Append {
            mailbox,
            flags,
            moment,
            text,
        } => append(alloc, deep, dialog, tag, mailbox, *flags, *moment, text),
        ImapWhat::Check => check(
            alloc,
            store,
            dialog.user,
            &mut dialog.selected,
            tag,
            current,
        ),
        ImapWhat::Close => close(alloc, dialog, tag),
        ImapWhat::Copy {
            set,
            target,
            by_uid,
        } => copy(alloc, store, deep, dialog, tag, set, target, *by_uid),
        ImapWhat::Search {
            charset,
            key,
            by_uid,
        } => search(alloc, store, sizes, dialog, tag, charset, key, *by_uid),
        ImapWhat::Authenticate => say(alloc, tag, Answer::NotOffered),
    }
}
