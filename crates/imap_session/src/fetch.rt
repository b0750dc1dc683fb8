//! FETCH: the messages that it names, the texts that it needs, and what it asks of the store.
//!
//! A FETCH whose messages are all gone by UID, or that shows no text, asks the store at once. One that the store is to refuse (a
//! message that a sequence number names is gone, more than 65,536 keys, more than 268,435,456 octets) reads no text.
//!
//! UID FETCH and UID STORE ask for the keys of all messages of the view that they name, also of those that are gone; gone ones
//! don't count in the octets.
ghost use Rattle.std.specs.Prelude.{◌≡◌, map, true, false, IfOk, OnErr, IfSome, Ok, Err};
ghost use Rattle.shelf.specs.Notes.{size_of};
ghost use Rattle.verb_core.specs.Store.{IsValid};
ghost use Rattle.imap_fetch.specs.Asked.{attributes_of as attributes_in};
ghost use Rattle.imap_view.specs.Views.{is_in_order};
ghost use Rattle.imap_session.specs.Fetching as fetching_spec;
ghost use Rattle.imap_session.specs.Dialog.{took};
ghost use Rattle.imap_session.specs.Dialog as spec;

use crate::commands::{say, say_nothing, submit, wait_for, wait_for_texts};
use crate::dialog::{Awaits, Dialog, Fetching, Pending, Selected, Wanted};
use crate::out::{Bodies0, ImapOut};
use crate::search::search_texts;
use crate::words::Answer;
use box_store::Store;
use imap_fetch::{
    Attributes, FetchForm, Message, attributes_of, body_sections, octets_asked, sets_seen,
    shows_body,
};
use imap_lines::{FetchAsks, SetText};
use imap_view::{keys_at, mail_of, places_named, rows_at};
use seal_log::ReadFault;
use shelf::Shelf;
use std::alloc::{AllocError, Global};
use std::mem;
use undo_base::{Copies, MOST_FETCHED, MOST_KEYS, Name, NoMemory, Places, Texts};
use verb_core::{Ask, Body, Refused};

/// A FETCH of messages at these places of the view.
fn fetching_of(
    alloc: Global,
    store: &Store,
    sizes: &Shelf,
    dialog: &Dialog,
    selected: &Selected,
    attributes: Attributes,
    by_uid: bool,
    places: &Places,
) -> Result<Fetching, NoMemory>
    requires { IsValid store.now.store }
    ensures { IfOk result (λ f. f ≡ spec.fetching store.now.store (size_of sizes.now.notes) dialog.now selected.now attributes by_uid places.now) }
{
    let entries = mail_of(store, dialog.user, &selected.mailbox);
    let rows = rows_at(alloc, sizes, entries, &selected.view, places)?;
    let keys = keys_at(alloc, &selected.view, places)?;
    let mailbox = selected.mailbox.copy(alloc)?;
    let octets = octets_asked(&rows, &attributes);
    let sets_seen = selected.writes && sets_seen(&attributes);
    Ok(Fetching {
        mailbox,
        keys,
        octets,
        form: FetchForm {
            attributes,
            by_uid,
            sets_seen,
        },
        rows,
    })
}

/// Whether the store is to refuse it.
fn is_refused_unread(fetching: &Fetching) -> bool
    ensures { result ≡ fetching_spec.is_refused_unread fetching.now }
{
    let keys = fetching.keys.len();
    (!fetching.form.by_uid && fetching.rows.len() < keys)
        || MOST_KEYS < keys
        || MOST_FETCHED < fetching.octets
}

/// The bodies of messages.
pub(crate) fn all_bodies(alloc: Global, rows: &[Message]) -> Result<Vec<Body>, AllocError>
    ensures { IfOk result (λ bodies. bodies.items ≡ map (λ m. m.entry.body) rows.now) }
{
    rows.iter().map(|row| row.entry.body).collect(alloc)
}

/// The bodies whose texts it needs.
fn bodies_of(alloc: Global, fetching: &Fetching) -> Result<Bodies0, NoMemory>
    ensures { IfOk result (λ bodies. bodies ≡ fetching_spec.bodies_of fetching.now) }
{
    if body_sections(&fetching.form.attributes) == 0 || is_refused_unread(fetching) {
        return Ok(Bodies0::new(alloc));
    }
    let bodies = all_bodies(alloc, fetching.rows.as_slice())?;
    Ok(Bodies0::from_vec(bodies))
}

/// Asks the store for a FETCH with the texts that it needs.
fn submit_fetch(dialog: &mut Dialog, tag: Name, fetching: Fetching, texts: Texts) -> ImapOut
    ensures { spec.asks (fetching_spec.ask_of fetching) tag (Pending.Fetch fetching.form fetching.rows texts) dialog.old ≡ took result dialog.new }
{
    let Fetching {
        mailbox,
        keys,
        octets,
        form,
        rows,
    } = fetching;
    let sets_seen = form.sets_seen;
    let shows_body = shows_body(&form.attributes);
    let strict = !form.by_uid;
    let asked = Ask::Fetch {
        mailbox,
        keys,
        sets_seen,
        shows_body,
        strict,
        asked: octets,
    };
    submit(dialog, tag, asked, Pending::Fetch { form, rows, texts })
}

/// The texts are read first, where it needs any.
fn begin_fetch(
    alloc: Global,
    dialog: &mut Dialog,
    tag: Name,
    fetching: Fetching,
    bodies: Bodies0,
) -> ImapOut
    ensures { spec.begin_fetch tag dialog.old fetching bodies ≡ took result dialog.new }
{
    if bodies.is_empty() {
        drop(bodies);
        submit_fetch(dialog, tag, fetching, Texts::new(alloc))
    } else {
        wait_for_texts(dialog, tag, Wanted::Fetch(fetching));
        ImapOut::Read(bodies)
    }
}

/// A FETCH of messages that were found.
fn fetch_them(
    alloc: Global,
    dialog: &mut Dialog,
    tag: &Name,
    fetching: Fetching,
) -> Result<ImapOut, NoMemory>
    ensures ok { IfOk result (λ out. spec.begin_fetch tag.now dialog.old fetching (fetching_spec.bodies_of fetching) ≡ took out dialog.new) }
    ensures err { OnErr result (dialog.new ≡ dialog.old) }
{
    let bodies = match bodies_of(alloc, &fetching) {
        Ok(bodies) => bodies,
        Err(NoMemory) => {
            drop(fetching);
            return Err(NoMemory);
        }
    };
    match tag.copy(alloc) {
        Ok(tag) => Ok(begin_fetch(alloc, dialog, tag, fetching, bodies)),
        Err(NoMemory) => {
            drop(fetching);
            drop(bodies);
            Err(NoMemory)
        }
    }
}

fn fetch_in(
    alloc: Global,
    store: &Store,
    sizes: &Shelf,
    dialog: &mut Dialog,
    tag: &Name,
    attributes: Attributes,
    set: &SetText,
    by_uid: bool,
) -> Result<ImapOut, NoMemory>
    requires valid { IsValid store.now.store }
    requires order { IfSome dialog.old.selected (λ s. is_in_order s.view ≡ true) }
    ensures ok { IfOk result (λ out. spec.fetch_in store.now.store (size_of sizes.now.notes) tag.now dialog.old dialog.old.selected attributes set.now by_uid ≡ took out dialog.new) }
    ensures err { OnErr result (dialog.new ≡ dialog.old) }
{
    let Some(selected) = &dialog.selected else {
        return say(alloc, tag, Answer::WrongState);
    };
    let Some(places) = places_named(alloc, &selected.view, set, by_uid)? else {
        return say(alloc, tag, Answer::BadNumber);
    };
    let fetching = fetching_of(
        alloc, store, sizes, dialog, selected, attributes, by_uid, &places,
    );
    drop(places);
    fetch_them(alloc, dialog, tag, fetching?)
}

/// FETCH and UID FETCH.
pub(crate) fn fetch(
    alloc: Global,
    store: &Store,
    sizes: &Shelf,
    dialog: &mut Dialog,
    tag: &Name,
    asked: &FetchAsks,
    set: &SetText,
    by_uid: bool,
) -> Result<ImapOut, NoMemory>
    requires valid { IsValid store.now.store }
    requires order { IfSome dialog.old.selected (λ s. is_in_order s.view ≡ true) }
    ensures ok { IfOk result (λ out. spec.fetch store.now.store (size_of sizes.now.notes) tag.now dialog.old (attributes_in asked.now) set.now by_uid ≡ took out dialog.new) }
    ensures err { OnErr result (dialog.new ≡ dialog.old) }
{
    let attributes = attributes_of(alloc, asked)?;
    fetch_in(alloc, store, sizes, dialog, tag, attributes, set, by_uid)
}

fn fault_answer(fault: ReadFault) -> Answer
    ensures { result ≡ spec.fault_answer fault }
{
    match fault {
        ReadFault::Disk => Answer::DiskFault,
        ReadFault::NoMemory => Answer::Refused(Refused::NoMemory),
    }
}

/// The texts can't be had. Where there is no memory for the answer they are still due.
fn miss_texts(
    alloc: Global,
    dialog: &mut Dialog,
    tag: Name,
    wanted: Wanted,
    fault: ReadFault,
) -> Result<ImapOut, NoMemory>
    ensures ok { IfOk result (λ out. spec.says tag (spec.fault_answer fault) dialog.old ≡ took out dialog.new) }
    ensures err { OnErr result (dialog.new ≡ spec.awaiting_texts tag wanted dialog.old) }
{
    match say(alloc, &tag, fault_answer(fault)) {
        Ok(out) => {
            drop(tag);
            drop(wanted);
            Ok(out)
        }
        Err(NoMemory) => {
            wait_for_texts(dialog, tag, wanted);
            Err(NoMemory)
        }
    }
}

/// Goes on with the texts of a FETCH. Where there is no memory for them they are still due.
fn fetch_texts(
    alloc: Global,
    dialog: &mut Dialog,
    tag: Name,
    fetching: Fetching,
    texts: &Texts,
) -> Result<ImapOut, NoMemory>
    ensures ok { IfOk result (λ out. spec.asks (fetching_spec.ask_of fetching) tag (Pending.Fetch fetching.form fetching.rows texts.now) dialog.old ≡ took out dialog.new) }
    ensures err { OnErr result (dialog.new ≡ spec.awaiting_texts tag (Wanted.Fetch fetching) dialog.old) }
{
    match texts.copy(alloc) {
        Ok(texts) => Ok(submit_fetch(dialog, tag, fetching, texts)),
        Err(NoMemory) => {
            wait_for_texts(dialog, tag, Wanted::Fetch(fetching));
            Err(NoMemory)
        }
    }
}

/// Goes on with the texts. Where no memory is found they are still due.
fn go_on(
    alloc: Global,
    dialog: &mut Dialog,
    tag: Name,
    wanted: Wanted,
    texts: &Texts,
) -> Result<ImapOut, NoMemory>
    ensures ok { IfOk result (λ out. spec.asks (spec.wanted_ask wanted texts.now) tag (spec.wanted_pending wanted texts.now) dialog.old ≡ took out dialog.new) }
    ensures err { OnErr result (dialog.new ≡ spec.awaiting_texts tag wanted dialog.old) }
{
    match wanted {
        Wanted::Fetch(fetching) => fetch_texts(alloc, dialog, tag, fetching, texts),
        Wanted::Search(searching) => search_texts(alloc, dialog, tag, searching, texts.as_slice()),
    }
}

/// The texts that a FETCH or a SEARCH needs, or why they can't be had. Where none are awaited nothing is said.
pub(crate) fn hear(
    alloc: Global,
    dialog: &mut Dialog,
    texts: &Result<Texts, ReadFault>,
) -> Result<ImapOut, NoMemory>
    ensures ok { IfOk result (λ out. spec.heard dialog.old texts.now ≡ took out dialog.new) }
    ensures err { OnErr result (dialog.new ≡ dialog.old) }
{
    match mem::replace(&mut dialog.awaits, Awaits::Nothing) {
        Awaits::Texts { tag, wanted } => match texts {
            Ok(texts) => go_on(alloc, dialog, tag, wanted, texts),
            Err(fault) => miss_texts(alloc, dialog, tag, wanted, *fault),
        },
        Awaits::Outcome { tag, pending } => {
            wait_for(dialog, Awaits::Outcome { tag, pending });
            Ok(say_nothing(alloc))
        }
        Awaits::Nothing => Ok(say_nothing(alloc)),
    }
}
