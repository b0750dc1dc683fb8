//! What the store tells of a mailbox.
//!
//! A mailbox without a stamp has stamp 0, which never comes about.
//!
//! `status_facts`, `select_facts` and `ImapSession::done` ask that the stamps rise by user and name, besides that the store is
//! valid: a mailbox's stamp is found by halves. Those of a desk do, since they name its mailboxes, which rise.
//!
//! `status_facts` counts the unseen messages only where UNSEEN is asked, and `select_facts` only looks for the first of them.
//! What was not asked for is none. What each promises is that the answer, STATUS's line or SELECT's lines, is that of all facts
//! (`facts_at`).
ghost use Rattle.std.specs.Prelude.{◌≡◌, ◌+◌, Bool, true, option_map, unwrap_or, count_by, position, if◌then◌else◌, IfOk, IsTrue};
ghost use Rattle.imap_text.specs.Answers.{select_lines, status_line};
ghost use Rattle.verb_core.specs.Boxes.{box_cmp, box_of, is_rising, next_at, row_at};
ghost use Rattle.verb_core.specs.Live as live;
ghost use Rattle.verb_core.specs.Store.{IsValid};
ghost use Rattle.imap_view.specs.Facts as fact;
ghost use Rattle.imap_view.specs.Views as spec;

use crate::messages::number;
use box_store::Store;
use imap_text::BoxFacts;
use std::cmp::Ordering;
use undo_base::{Name, NoMemory, StatusAsk, StatusAsks, User};
use verb_core::{BoxId, Entry, Stamps};

fn asker(user: Option<User>) -> User
    ensures { result ≡ live.asker user }
{
    match user {
        Some(user) => user,
        None => User(0),
    }
}

/// What lies in a mailbox: nothing where it is missing.
pub fn mail_of<'a>(store: &'a Store, user: Option<User>, name: &Name) -> &'a [Entry]
    requires { IsValid store.now.store }
    ensures mail { result.now ≡ live.mail_of store.entry.now.store user name.now }
    ensures order { spec.is_by_uid result.now ≡ true }
{
    match store.mailbox(asker(user), name) {
        Some(mailbox) => mailbox.entries.as_slice(),
        None => &[],
    }
}

/// Whether a user's mailbox is there. Takes no memory.
pub fn is_there(store: &Store, user: Option<User>, name: &Name) -> bool
    ensures { result ≡ fact.is_there store.now.store user name.now }
{
    match store.mailbox(asker(user), name) {
        Some(_) => true,
        None => false,
    }
}

/// The next UID of a mailbox: 0 where it is missing.
fn next_of(store: &Store, user: Option<User>, name: &Name) -> u64
    ensures { result ≡ next_at (box_of (live.asker user) name.now) store.now.store.boxes }
{
    match store.mailbox(asker(user), name) {
        Some(mailbox) => mailbox.next,
        None => 0,
    }
}

/// How a row lies to the mailbox of that user and name.
fn compare(row: &(BoxId, u32), user: User, name: &Name) -> Ordering
    ensures { result ≡ box_cmp row.now.0 (box_of user name.now) }
{
    match row.0.user.0.cmp(&user.0) {
        Ordering::Less => Ordering::Less,
        Ordering::Equal => row.0.name.bytes().cmp(name.bytes()),
        Ordering::Greater => Ordering::Greater,
    }
}

/// The stamp of a mailbox, found by halves: 0 where it is missing.
fn stamp_at(stamps: &[(BoxId, u32)], user: User, name: &Name) -> u32
    requires { IsTrue (is_rising stamps.now) }
    ensures { result ≡ unwrap_or (row_at (box_of user name.now) stamps.now) 0 }
{
    match stamps.binary_search_by(|row| compare(row, user, name)) {
        Ok(place) => stamps[place].1,
        Err(_) => 0,
    }
}

/// The UIDVALIDITY of a mailbox.
fn stamp_of(stamps: &Stamps, user: Option<User>, name: &Name) -> u32
    requires { IsTrue (is_rising stamps.now) }
    ensures { result ≡ fact.stamp_of stamps.now user name.now }
{
    stamp_at(stamps.as_slice(), asker(user), name)
}

fn is_unseen(entry: &Entry) -> bool
    ensures { result ≡ spec.is_unseen entry.now }
{
    !entry.flags.seen
}

fn count_unseen(entries: &[Entry]) -> Result<u32, NoMemory>
    ensures { IfOk result (λ n. n ≡ count_by spec.is_unseen entries.now) }
{
    number(entries.iter().filter(|entry| is_unseen(entry)).count())
}

fn find_unseen(entries: &[Entry]) -> Option<usize>
    ensures { result ≡ position spec.is_unseen entries.now }
{
    entries.iter().position(is_unseen)
}

/// The number, from 1, of the first message that lacks `\Seen`.
fn first_unseen(entries: &[Entry]) -> Result<Option<u32>, NoMemory>
    ensures { IfOk result (λ n. n ≡ option_map (λ place. place + 1) (position spec.is_unseen entries.now)) }
{
    match find_unseen(entries) {
        None => Ok(None),
        Some(place) => {
            let place = number(place)?;
            match place.checked_add(1) {
                None => Err(NoMemory),
                Some(number) => Ok(Some(number)),
            }
        }
    }
}

fn is_unseen_asked(ask: StatusAsk) -> bool
    ensures { result ≡ fact.is_unseen_asked ask }
{
    match ask {
        StatusAsk::Messages => false,
        StatusAsk::Recent => false,
        StatusAsk::UidNext => false,
        StatusAsk::UidValidity => false,
        StatusAsk::Unseen => true,
    }
}

fn asks_unseen(asked: &[StatusAsk]) -> bool
    ensures { result ≡ fact.asks_unseen asked.now }
{
    asked.iter().any(|ask| is_unseen_asked(*ask))
}

/// How many messages lack `\Seen`, where that is asked.
fn count_asked(entries: &[Entry], asked: &[StatusAsk]) -> Result<u32, NoMemory>
    ensures { IfOk result (λ n. n ≡ (if fact.asks_unseen asked.now then count_by spec.is_unseen entries.now else 0)) }
{
    if asks_unseen(asked) {
        count_unseen(entries)
    } else {
        Ok(0)
    }
}

/// What a mailbox tells of itself where STATUS asks so. The messages are looked at only where those that lack `\Seen` are
/// asked for, and the first of these is not looked for.
pub fn status_facts(
    store: &Store,
    stamps: &Stamps,
    user: Option<User>,
    name: &Name,
    asked: &StatusAsks,
) -> Result<BoxFacts, NoMemory>
    requires valid { IsValid store.now.store }
    requires rising { IsTrue (is_rising stamps.now) }
    ensures { IfOk result (λ facts. status_line name.now asked.now facts ≡ status_line name.now asked.now (fact.facts_at store.now.store stamps.now user name.now)) }
{
    let entries = mail_of(store, user, name);
    Ok(BoxFacts {
        messages: number(entries.len())?,
        next: next_of(store, user, name),
        stamp: stamp_of(stamps, user, name),
        unseen: count_asked(entries, asked.as_slice())?,
        first_unseen: None,
    })
}

/// What a mailbox tells of itself where it is selected. The messages are looked at up to the first that lacks `\Seen`, and
/// how many lack it is not counted.
pub fn select_facts(
    store: &Store,
    stamps: &Stamps,
    user: Option<User>,
    name: &Name,
) -> Result<BoxFacts, NoMemory>
    requires valid { IsValid store.now.store }
    requires rising { IsTrue (is_rising stamps.now) }
    ensures { IfOk result (λ facts. (writes : Bool) → select_lines facts writes ≡ select_lines (fact.facts_at store.now.store stamps.now user name.now) writes) }
{
    let entries = mail_of(store, user, name);
    Ok(BoxFacts {
        messages: number(entries.len())?,
        next: next_of(store, user, name),
        stamp: stamp_of(stamps, user, name),
        unseen: 0,
        first_unseen: first_unseen(entries)?,
    })
}
