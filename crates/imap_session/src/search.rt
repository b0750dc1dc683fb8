//! SEARCH: the messages that match, the texts that it needs, and what it asks of the store.
ghost use Rattle.std.specs.Prelude.{◌≡◌, ◌+◌, ◌<◌, ◌++◌, ◌∷◌, [], Ok, min, length, flat_map, get_or, true, IfOk, OnErr, OnOk, if◌then◌else◌};
ghost use Rattle.std.specs.Fmt.{decimal};
ghost use Rattle.std.specs.List.{range_with_len};
ghost use Rattle.shelf.specs.Notes.{size_of};
ghost use Rattle.verb_core.specs.Live.{mail_of as mail_in};
ghost use Rattle.verb_core.specs.Store.{IsValid};
ghost use Rattle.imap_view.specs.Views.{is_by_uid};
ghost use Rattle.imap_view.specs.Named.{rows_at as rows_in, untold};
ghost use Rattle.search_verb.specs.Meets.{needed};
ghost use Rattle.imap_session.specs.Searching as search_spec;
ghost use Rattle.imap_session.specs.Words as words;
ghost use Rattle.imap_session.specs.Dialog.{took};
ghost use Rattle.imap_session.specs.Dialog as spec;

use crate::commands::{say, submit, tell, wait_for_texts};
use crate::dialog::{Dialog, Pending, Searching, Selected, Wanted};
use crate::fetch::all_bodies;
use crate::out::{Bodies0, ImapOut};
use crate::words::{Answer, search_word};
use box_store::Store;
use imap_fetch::{Message, Messages};
use imap_tokens::is_same_word;
use imap_view::{Known, View, entry_at, length_of, mail_of, rows_at};
use itoa::Buffer;
use search_verb::{Candidate, Look, Search};
use shelf::Shelf;
use std::alloc::{AllocError, Global};
use undo_base::{Copies, Key, Keys, MOST_FETCHED, Name, NoMemory, Places, Text, Uids, User};
use verb_core::{Ask, Entry};

/// What a SEARCH asks of the store, and what is to be said of it then.
struct Found {
    tag: Name,
    asked: Ask,
    pending: Pending,
}

/// The messages that a SEARCH found: their keys, and the numbers that are told of them.
#[derive(Drop)]
struct Hits {
    keys: Keys,
    numbers: Uids,
}

fn is_known_charset(charset: &Option<Text>) -> bool
    ensures { result ≡ search_spec.is_known_charset charset.now }
{
    match charset {
        None => true,
        Some(name) => {
            is_same_word(name.bytes(), b"US-ASCII") || is_same_word(name.bytes(), b"UTF-8")
        }
    }
}

/// How many messages a view has.
fn count_of(view: &View) -> Result<u32, NoMemory>
    ensures { IfOk result (λ count. count ≡ length view.now) }
{
    if view.len() > u32::MAX as usize {
        return Err(NoMemory);
    }
    Ok(view.len() as u32)
}

#[tactic(auto, using(crate::proofs::Found::place_end))]
fn all_places(alloc: Global, count: u32) -> Result<Places, NoMemory>
    ensures { IfOk result (λ places. places ≡ range_with_len 0 count) }
{
    let mut places = Places::new(alloc);
    for place in 0..count {
        places.push(place)?;
    }
    Ok(places)
}

fn last_uid(view: &View) -> u64
    ensures { result ≡ search_spec.last_uid view.now }
{
    match view.as_slice().last() {
        None => 0,
        Some(known) => known.uid,
    }
}

/// A SEARCH that looks at no texts, with no list of the view's messages.
fn bare_searching(
    alloc: Global,
    selected: &Selected,
    key: &Search,
    by_uid: bool,
) -> Result<Searching, NoMemory>
    ensures { IfOk result (λ q. q ≡ spec.bare_searching selected.now key.now by_uid) }
{
    let last_place = count_of(&selected.view)?;
    let mailbox = selected.mailbox.copy(alloc)?;
    let key = key.copy(alloc)?;
    Ok(Searching {
        mailbox,
        key,
        by_uid,
        last_place,
        last_uid: last_uid(&selected.view),
        rows: Messages::new(alloc),
    })
}

/// The messages of a view that are still there.
fn all_rows(
    alloc: Global,
    store: &Store,
    sizes: &Shelf,
    user: Option<User>,
    selected: &Selected,
) -> Result<Messages, NoMemory>
    requires { IsValid store.now.store }
    ensures { IfOk result (λ rows. rows ≡ rows_in (size_of sizes.now.notes) (mail_in store.now.store user selected.now.mailbox) selected.now.view (search_spec.all_places selected.now.view)) }
{
    let entries = mail_of(store, user, &selected.mailbox);
    let places = all_places(alloc, count_of(&selected.view)?)?;
    rows_at(alloc, sizes, entries, &selected.view, &places)
}

/// A SEARCH of the selected mailbox.
fn searching_of(
    alloc: Global,
    store: &Store,
    sizes: &Shelf,
    dialog: &Dialog,
    selected: &Selected,
    key: &Search,
    by_uid: bool,
) -> Result<Searching, NoMemory>
    requires { IsValid store.now.store }
    ensures { IfOk result (λ q. q ≡ spec.searching store.now.store (size_of sizes.now.notes) dialog.now selected.now key.now by_uid) }
{
    let rows = all_rows(alloc, store, sizes, dialog.user, selected)?;
    match bare_searching(alloc, selected, key, by_uid) {
        Ok(mut searching) => {
            searching.rows = rows;
            Ok(searching)
        }
        Err(NoMemory) => {
            drop(rows);
            Err(NoMemory)
        }
    }
}

fn is_of_texts(look: Look) -> bool
    ensures { result ≡ search_spec.is_of_texts look }
{
    match look {
        Look::Nothing => false,
        Look::Size => false,
        Look::Text => true,
    }
}

fn is_of_more(look: Look) -> bool
    ensures { result ≡ search_spec.is_of_more look }
{
    match look {
        Look::Nothing => false,
        Look::Size => true,
        Look::Text => true,
    }
}

fn add_size(total: u64, row: &Message) -> u64
    ensures { result ≡ min (total + row.now.size) 18446744073709551615 }
{
    total.saturating_add(row.size as u64)
}

#[tactic(auto, unfolding(crate::specs::Searching::total_size))]
fn total_size(rows: &[Message]) -> u64
    ensures { result ≡ search_spec.total_size rows.now }
{
    let mut total: u64 = 0;
    for row in rows {
        total = add_size(total, row);
    }
    total
}

/// How many octets of texts it looks at.
fn octets_of(searching: &Searching) -> u64
    ensures { result ≡ search_spec.octets_of searching.now }
{
    if is_of_texts(searching.key.looks()) {
        total_size(searching.rows.as_slice())
    } else {
        0
    }
}

fn is_too_large(searching: &Searching) -> bool
    ensures { result ≡ search_spec.is_too_large searching.now }
{
    MOST_FETCHED < octets_of(searching)
}

fn text_at(texts: &[Text], place: usize) -> &[u8]
    ensures { result.now ≡ get_or texts.now place [] }
{
    match texts.get(place) {
        None => b"",
        Some(text) => text.bytes(),
    }
}

/// Whether a message matches.
fn finds(
    alloc: Global,
    searching: &Searching,
    texts: &[Text],
    place: usize,
    row: &Message,
) -> Result<bool, NoMemory>
    ensures { IfOk result (λ found. found ≡ search_spec.finds searching.now texts.now place row.now) }
{
    let flags = row.entry.flags;
    let what = Candidate {
        place: row.place,
        uid: row.entry.uid,
        last_place: searching.last_place,
        last_uid: searching.last_uid,
        answered: flags.answered,
        flagged: flags.flagged,
        deleted: flags.deleted,
        seen: flags.seen,
        draft: flags.draft,
        at: row.entry.at,
        size: row.size,
        text: text_at(texts, place),
    };
    searching.key.finds(alloc, &what)
}

/// Adds a message, where it matches.
fn keep(
    alloc: Global,
    found: &mut Messages,
    searching: &Searching,
    texts: &[Text],
    place: usize,
    row: &Message,
) -> Result<(), NoMemory>
    ensures { OnOk result (found.new ≡ found.old ++ search_spec.kept searching.now texts.now place row.now) }
{
    if finds(alloc, searching, texts, place, row)? {
        found.push(*row)?;
    }
    Ok(())
}

/// The messages that match.
fn matching(alloc: Global, searching: &Searching, texts: &[Text]) -> Result<Messages, NoMemory>
    ensures { IfOk result (λ rows. rows ≡ search_spec.found_from searching.now texts.now 0 searching.now.rows) }
{
    let mut found = Messages::new(alloc);
    let rows = searching.rows.as_slice();
    for (place, row) in rows.iter().enumerate() {
        keep(alloc, &mut found, searching, texts, place, row)?;
    }
    Ok(found)
}

/// The messages that match; none where the store is to refuse it.
fn found_of(alloc: Global, searching: &Searching, texts: &[Text]) -> Result<Messages, NoMemory>
    ensures { IfOk result (λ rows. rows ≡ search_spec.found searching.now texts.now) }
{
    if is_too_large(searching) {
        Ok(Messages::new(alloc))
    } else {
        matching(alloc, searching, texts)
    }
}

fn keys_vec(alloc: Global, rows: &[Message]) -> Result<Vec<Key>, AllocError>
    ensures { IfOk result (λ keys. keys.items ≡ search_spec.keys_of rows.now) }
{
    rows.iter().map(|row| row.entry.key).collect(alloc)
}

fn keys_of(alloc: Global, rows: &Messages) -> Result<Keys, NoMemory>
    ensures { IfOk result (λ keys. keys ≡ search_spec.keys_of rows.now) }
{
    let keys = keys_vec(alloc, rows.as_slice())?;
    Ok(Keys::from_vec(keys))
}

/// The number that is told of a message: its UID, or its number in the view.
fn number_told(by_uid: bool, number: u32, uid: u64) -> u64
    ensures { result ≡ (if by_uid then uid else number) }
{
    if by_uid { uid } else { u64::from(number) }
}

fn number_of(by_uid: bool, row: &Message) -> u64
    ensures { result ≡ search_spec.number_of by_uid row.now }
{
    number_told(by_uid, row.place, row.entry.uid)
}

fn numbers_vec(alloc: Global, by_uid: bool, rows: &[Message]) -> Result<Vec<u64>, AllocError>
    ensures { IfOk result (λ numbers. numbers.items ≡ search_spec.numbers_of by_uid rows.now) }
{
    rows.iter().map(|row| number_of(by_uid, row)).collect(alloc)
}

fn numbers_of(alloc: Global, by_uid: bool, rows: &Messages) -> Result<Uids, NoMemory>
    ensures { IfOk result (λ numbers. numbers ≡ search_spec.numbers_of by_uid rows.now) }
{
    let numbers = numbers_vec(alloc, by_uid, rows.as_slice())?;
    Ok(Uids::from_vec(numbers))
}

/// What it asks of the store for the messages of these keys, and what is to be said of their numbers then.
fn found_told(
    alloc: Global,
    tag: &Name,
    searching: &Searching,
    keys: Keys,
    numbers: Uids,
) -> Result<Found, NoMemory>
    ensures tag { IfOk result (λ f. f.tag ≡ tag.now) }
    ensures asked { IfOk result (λ f. f.asked ≡ search_spec.ask_of searching.now keys) }
    ensures pending { IfOk result (λ f. f.pending ≡ Pending.Search searching.now.by_uid numbers) }
{
    let mailbox = searching.mailbox.copy(alloc)?;
    let tag = tag.copy(alloc)?;
    Ok(Found {
        tag,
        asked: Ask::Fetch {
            mailbox,
            keys,
            sets_seen: false,
            shows_body: is_of_more(searching.key.looks()),
            strict: false,
            asked: octets_of(searching),
        },
        pending: Pending::Search {
            by_uid: searching.by_uid,
            numbers,
        },
    })
}

/// The same where it found these messages.
fn found_as(
    alloc: Global,
    tag: &Name,
    searching: &Searching,
    rows: &Messages,
) -> Result<Found, NoMemory>
    ensures tag { IfOk result (λ f. f.tag ≡ tag.now) }
    ensures asked { IfOk result (λ f. f.asked ≡ search_spec.ask_for searching.now rows.now) }
    ensures pending { IfOk result (λ f. f.pending ≡ spec.pending_for searching.now rows.now) }
{
    let keys = keys_of(alloc, rows)?;
    let numbers = numbers_of(alloc, searching.by_uid, rows)?;
    found_told(alloc, tag, searching, keys, numbers)
}

/// What it asks of the store with the texts that it needs, and what is to be said then.
fn found_with(
    alloc: Global,
    tag: &Name,
    searching: &Searching,
    texts: &[Text],
) -> Result<Found, NoMemory>
    ensures tag { IfOk result (λ f. f.tag ≡ tag.now) }
    ensures asked { IfOk result (λ f. f.asked ≡ search_spec.search_ask searching.now texts.now) }
    ensures pending { IfOk result (λ f. f.pending ≡ spec.search_pending searching.now texts.now) }
{
    let rows = found_of(alloc, searching, texts)?;
    found_as(alloc, tag, searching, &rows)
}

/// Whether a message matches what is told without its text. It takes no memory.
fn meets_told(searching: &Searching, number: u32, entry: &Entry, size: u32) -> bool
    ensures { result ≡ search_spec.finds searching.now [] 0 (record { place = number; entry = entry.now; size = size }) }
{
    let flags = entry.flags;
    let what = Candidate {
        place: number,
        uid: entry.uid,
        last_place: searching.last_place,
        last_uid: searching.last_uid,
        answered: flags.answered,
        flagged: flags.flagged,
        deleted: flags.deleted,
        seen: flags.seen,
        draft: flags.draft,
        at: entry.at,
        size,
        text: b"",
    };
    searching.key.matches(&what)
}

/// Adds a message, where it matches what is told without its text.
fn keep_told(
    found: &mut Hits,
    searching: &Searching,
    number: u32,
    entry: &Entry,
    size: u32,
) -> Result<(), NoMemory>
    ensures keys { OnOk result (found.new.keys ≡ found.old.keys ++ search_spec.keys_of (search_spec.kept searching.now [] 0 (record { place = number; entry = entry.now; size = size }))) }
    ensures numbers { OnOk result (found.new.numbers ≡ found.old.numbers ++ search_spec.numbers_of searching.now.by_uid (search_spec.kept searching.now [] 0 (record { place = number; entry = entry.now; size = size }))) }
{
    if meets_told(searching, number, entry, size) {
        found.keys.push(entry.key)?;
        found
            .numbers
            .push(number_told(searching.by_uid, number, entry.uid))?;
    }
    Ok(())
}

/// Adds the message at a place of a view, where it matches what is told without its size and its text.
fn keep_bare(
    found: &mut Hits,
    searching: &Searching,
    entries: &[Entry],
    view: &[Known],
    place: u32,
) -> Result<(), NoMemory>
    requires order { is_by_uid entries.now ≡ true }
    requires few { place < 4294967295 }
    ensures keys { OnOk result (found.new.keys ≡ found.old.keys ++ search_spec.keys_of (search_spec.bare_kept untold searching.now entries.now view.now place)) }
    ensures numbers { OnOk result (found.new.numbers ≡ found.old.numbers ++ search_spec.numbers_of searching.now.by_uid (search_spec.bare_kept untold searching.now entries.now view.now place)) }
{
    match entry_at(entries, view, place) {
        None => Ok(()),
        Some(entry) => keep_told(found, searching, place + 1, entry, 0),
    }
}

/// The messages of a view that match, in one pass: nothing is kept of the others, and no size is looked up.
fn matching_bare(
    alloc: Global,
    searching: &Searching,
    entries: &[Entry],
    view: &[Known],
) -> Result<Hits, NoMemory>
    requires order { is_by_uid entries.now ≡ true }
    requires few { length view.now < 4294967295 }
    ensures keys { IfOk result (λ hits. hits.keys ≡ search_spec.keys_of (search_spec.bare_found untold searching.now entries.now view.now)) }
    ensures numbers { IfOk result (λ hits. hits.numbers ≡ search_spec.numbers_of searching.now.by_uid (search_spec.bare_found untold searching.now entries.now view.now)) }
{
    let mut found = Hits {
        keys: Keys::new(alloc),
        numbers: Uids::new(alloc),
    };
    for place in 0..view.len() as u32 {
        keep_bare(&mut found, searching, entries, view, place)?;
    }
    Ok(found)
}

/// The same with its size, which is looked for behind that of the message before.
fn keep_sized(
    found: &mut Hits,
    searching: &Searching,
    sizes: &Shelf,
    entries: &[Entry],
    view: &[Known],
    place: u32,
    near: &mut usize,
) -> Result<(), NoMemory>
    requires order { is_by_uid entries.now ≡ true }
    requires few { place < 4294967295 }
    ensures keys { OnOk result (found.new.keys ≡ found.old.keys ++ search_spec.keys_of (search_spec.bare_kept (size_of sizes.now.notes) searching.now entries.now view.now place)) }
    ensures numbers { OnOk result (found.new.numbers ≡ found.old.numbers ++ search_spec.numbers_of searching.now.by_uid (search_spec.bare_kept (size_of sizes.now.notes) searching.now entries.now view.now place)) }
{
    match entry_at(entries, view, place) {
        None => Ok(()),
        Some(entry) => {
            let size = length_of(sizes, entry.body, near);
            keep_told(found, searching, place + 1, entry, size)
        }
    }
}

/// The messages of a view that match with the size of each, in one pass of the view and of what is noted of texts.
fn matching_sized(
    alloc: Global,
    searching: &Searching,
    sizes: &Shelf,
    entries: &[Entry],
    view: &[Known],
) -> Result<Hits, NoMemory>
    requires order { is_by_uid entries.now ≡ true }
    requires few { length view.now < 4294967295 }
    ensures keys { IfOk result (λ hits. hits.keys ≡ search_spec.keys_of (search_spec.bare_found (size_of sizes.now.notes) searching.now entries.now view.now)) }
    ensures numbers { IfOk result (λ hits. hits.numbers ≡ search_spec.numbers_of searching.now.by_uid (search_spec.bare_found (size_of sizes.now.notes) searching.now entries.now view.now)) }
{
    let mut found = Hits {
        keys: Keys::new(alloc),
        numbers: Uids::new(alloc),
    };
    let mut near = 0;
    for place in 0..view.len() as u32 {
        keep_sized(
            &mut found, searching, sizes, entries, view, place, &mut near,
        )?;
    }
    Ok(found)
}

/// The messages of a view that match, of a search that looks at no texts.
fn matching_told(
    alloc: Global,
    searching: &Searching,
    sizes: &Shelf,
    entries: &[Entry],
    view: &[Known],
) -> Result<Hits, NoMemory>
    requires order { is_by_uid entries.now ≡ true }
    ensures keys { IfOk result (λ hits. hits.keys ≡ search_spec.keys_of (search_spec.bare_found (search_spec.told (needed searching.now.key) (size_of sizes.now.notes)) searching.now entries.now view.now)) }
    ensures numbers { IfOk result (λ hits. hits.numbers ≡ search_spec.numbers_of searching.now.by_uid (search_spec.bare_found (search_spec.told (needed searching.now.key) (size_of sizes.now.notes)) searching.now entries.now view.now)) }
{
    if view.len() >= u32::MAX as usize {
        return Err(NoMemory);
    }
    if is_of_more(searching.key.looks()) {
        matching_sized(alloc, searching, sizes, entries, view)
    } else {
        matching_bare(alloc, searching, entries, view)
    }
}

/// What it asks of the store where it looks at no texts, and what is to be said then.
fn found_bare(
    alloc: Global,
    tag: &Name,
    searching: &Searching,
    sizes: &Shelf,
    entries: &[Entry],
    view: &View,
) -> Result<Found, NoMemory>
    requires order { is_by_uid entries.now ≡ true }
    ensures tag { IfOk result (λ f. f.tag ≡ tag.now) }
    ensures asked { IfOk result (λ f. f.asked ≡ search_spec.ask_for searching.now (search_spec.bare_found (search_spec.told (needed searching.now.key) (size_of sizes.now.notes)) searching.now entries.now view.now)) }
    ensures pending { IfOk result (λ f. f.pending ≡ spec.pending_for searching.now (search_spec.bare_found (search_spec.told (needed searching.now.key) (size_of sizes.now.notes)) searching.now entries.now view.now)) }
{
    let Hits { keys, numbers } = matching_told(alloc, searching, sizes, entries, view.as_slice())?;
    found_told(alloc, tag, searching, keys, numbers)
}

/// The same of the selected mailbox.
fn found_in(
    alloc: Global,
    store: &Store,
    sizes: &Shelf,
    dialog: &Dialog,
    selected: &Selected,
    tag: &Name,
    key: &Search,
    by_uid: bool,
) -> Result<Found, NoMemory>
    requires { IsValid store.now.store }
    ensures { IfOk result (λ f. spec.asks f.asked f.tag f.pending dialog.now ≡ spec.search_bare store.now.store (size_of sizes.now.notes) tag.now dialog.now selected.now key.now by_uid) }
{
    let entries = mail_of(store, dialog.user, &selected.mailbox);
    let searching = bare_searching(alloc, selected, key, by_uid)?;
    found_bare(alloc, tag, &searching, sizes, entries, &selected.view)
}

fn submit_found(dialog: &mut Dialog, found: Found) -> ImapOut
    ensures { spec.asks found.asked found.tag found.pending dialog.old ≡ took result dialog.new }
{
    let Found {
        tag,
        asked,
        pending,
    } = found;
    submit(dialog, tag, asked, pending)
}

/// The bodies whose texts it needs.
fn bodies_of(alloc: Global, searching: &Searching) -> Result<Bodies0, NoMemory>
    ensures { IfOk result (λ bodies. bodies ≡ search_spec.search_bodies searching.now) }
{
    if !is_of_texts(searching.key.looks()) || is_too_large(searching) {
        return Ok(Bodies0::new(alloc));
    }
    let bodies = all_bodies(alloc, searching.rows.as_slice())?;
    Ok(Bodies0::from_vec(bodies))
}

fn read_first(dialog: &mut Dialog, tag: Name, searching: Searching, bodies: Bodies0) -> ImapOut
    ensures { spec.reads tag (Wanted.Search searching) bodies dialog.old ≡ took result dialog.new }
{
    wait_for_texts(dialog, tag, Wanted::Search(searching));
    ImapOut::Read(bodies)
}

/// The texts are read first, where it needs any.
fn begin_search(
    alloc: Global,
    dialog: &mut Dialog,
    tag: &Name,
    searching: Searching,
    bodies: Bodies0,
) -> Result<ImapOut, NoMemory>
    ensures ok { IfOk result (λ out. spec.begin_search tag.now dialog.old searching bodies ≡ took out dialog.new) }
    ensures err { OnErr result (dialog.new ≡ dialog.old) }
{
    if bodies.is_empty() {
        drop(bodies);
        let found = found_with(alloc, tag, &searching, &[]);
        drop(searching);
        Ok(submit_found(dialog, found?))
    } else {
        match tag.copy(alloc) {
            Ok(tag) => Ok(read_first(dialog, tag, searching, bodies)),
            Err(NoMemory) => {
                drop(searching);
                drop(bodies);
                Err(NoMemory)
            }
        }
    }
}

/// SEARCH and UID SEARCH.
pub(crate) fn search(
    alloc: Global,
    store: &Store,
    sizes: &Shelf,
    dialog: &mut Dialog,
    tag: &Name,
    charset: &Option<Text>,
    key: &Search,
    by_uid: bool,
) -> Result<ImapOut, NoMemory>
    requires valid { IsValid store.now.store }
    ensures ok { IfOk result (λ out. spec.search store.now.store (size_of sizes.now.notes) tag.now dialog.old dialog.old.selected charset.now key.now by_uid ≡ took out dialog.new) }
    ensures err { OnErr result (dialog.new ≡ dialog.old) }
{
    let Some(selected) = &dialog.selected else {
        return say(alloc, tag, Answer::WrongState);
    };
    if !is_known_charset(charset) {
        return say(alloc, tag, Answer::BadCharset);
    }
    if !is_of_texts(key.looks()) {
        let found = found_in(alloc, store, sizes, dialog, selected, tag, key, by_uid)?;
        return Ok(submit_found(dialog, found));
    }
    let searching = searching_of(alloc, store, sizes, dialog, selected, key, by_uid)?;
    match bodies_of(alloc, &searching) {
        Ok(bodies) => begin_search(alloc, dialog, tag, searching, bodies),
        Err(NoMemory) => {
            drop(searching);
            Err(NoMemory)
        }
    }
}

/// Goes on with the texts of a SEARCH. Where no memory is found they are still due.
pub(crate) fn search_texts(
    alloc: Global,
    dialog: &mut Dialog,
    tag: Name,
    searching: Searching,
    texts: &[Text],
) -> Result<ImapOut, NoMemory>
    ensures ok { IfOk result (λ out. spec.asks (search_spec.search_ask searching texts.now) tag (spec.search_pending searching texts.now) dialog.old ≡ took out dialog.new) }
    ensures err { OnErr result (dialog.new ≡ spec.awaiting_texts tag (Wanted.Search searching) dialog.old) }
{
    match found_with(alloc, &tag, &searching, texts) {
        Ok(found) => {
            drop(tag);
            drop(searching);
            Ok(submit_found(dialog, found))
        }
        Err(NoMemory) => {
            wait_for_texts(dialog, tag, Wanted::Search(searching));
            Err(NoMemory)
        }
    }
}

fn push_number(out: &mut Text, number: u64) -> Result<(), NoMemory>
    ensures { OnOk result (out.new ≡ out.old ++ 32 ∷ decimal number) }
{
    let mut digits = Buffer::new();
    out.extend(b" ")?;
    out.extend(digits.format(number).as_bytes())
}

fn push_numbers(out: &mut Text, numbers: &[u64]) -> Result<(), NoMemory>
    ensures { OnOk result (out.new ≡ out.old ++ flat_map (λ n. 32 ∷ decimal n) numbers.now) }
{
    for number in numbers {
        push_number(out, *number)?;
    }
    Ok(())
}

/// The numbers that a SEARCH found.
fn search_line(alloc: Global, numbers: &Uids) -> Result<Text, NoMemory>
    ensures { IfOk result (λ text. text ≡ search_spec.search_line numbers.now) }
{
    let mut out = Text::of(alloc, b"* SEARCH")?;
    push_numbers(&mut out, numbers.as_slice())?;
    out.extend(b"\r\n")?;
    Ok(out)
}

/// What it found is told.
pub(crate) fn searched(
    alloc: Global,
    tag: &Name,
    by_uid: bool,
    numbers: &Uids,
) -> Result<ImapOut, NoMemory>
    ensures { IfOk result (λ out. out ≡ ImapOut.Say (search_spec.search_line numbers.now ++ words.tagged tag.now (Answer.Done (words.search_word by_uid)))) }
{
    let text = search_line(alloc, numbers)?;
    tell(text, tag, Answer::Done(search_word(by_uid)))
}
