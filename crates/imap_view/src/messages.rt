//! The messages of its mailbox that a session knows, and how it is told of changes (RFC 3501, section 7).
//!
//! A message of a view is found in its mailbox by UID and key together. In every state that is reached one of them would do.
//!
//! A view is told of by what lies in the mailbox: after it was told, it is all that lies there.
//!
//! More than 4,294,967,294 messages in a view find no memory.
ghost use Rattle.std.specs.Prelude.{◌≡◌, ◌+◌, ◌<◌, ◌≤◌, true, ◌++◌, ◌∷◌, [], length, option_copied, IfOk, OnOk, if◌then◌else◌};
ghost use Rattle.std.specs.List.Sorted.{IsBinarySearchResult, IsSearchInRange};
ghost use Rattle.std.specs.Ordering.{nat_cmp};
ghost use Rattle.imap_view.specs.Views.{AreBelow, IsReached, exists_text};
ghost use Rattle.imap_view.specs.Views as spec;

use imap_text::render_expunge;
use std::alloc::{AllocError, Global};
use undo_base::{Key, NoMemory, Places, Sequence, Text};
use verb_core::Entry;

/// A message that a session knows.
#[derive(Clone, Copy, Debug, PartialEq, Eq)]
pub struct Known {
    pub uid: u64,
    pub key: Key,
}

/// The messages that a session knows, by rising UID.
pub type View = Sequence<Known>;

/// A count that 32 bits hold; more of anything finds no memory.
pub(crate) fn number(count: usize) -> Result<u32, NoMemory>
    ensures { IfOk result (λ n. n ≡ count) }
{
    if count > u32::MAX as usize {
        return Err(NoMemory);
    }
    Ok(count as u32)
}

fn is_message(known: Known, entry: &Entry) -> bool
    ensures { result ≡ spec.is_message known entry.now }
{
    known.uid == entry.uid && known.key == entry.key
}

fn search_entries(entries: &[Entry], uid: u64) -> Result<usize, usize>
    ensures bound { IsSearchInRange result (length entries.now) }
    ensures place { IsBinarySearchResult (λ entry. nat_cmp entry.uid uid) entries.now result }
{
    entries.binary_search_by_key(&uid, |entry| entry.uid)
}

/// The entry of a message, where it is still there.
fn find_entry(entries: &[Entry], known: Known) -> Option<&Entry>
    requires { spec.is_by_uid entries.now ≡ true }
    ensures { option_copied result ≡ spec.entry_of entries.now known }
{
    match search_entries(entries, known.uid) {
        Ok(place) => {
            let entry = &entries[place];
            if is_message(known, entry) {
                Some(entry)
            } else {
                None
            }
        }
        Err(_) => None,
    }
}

/// The entry of a message, where it is still there. It is looked for at a place first, where it lies unless one before it went.
pub(crate) fn find_near(entries: &[Entry], place: usize, known: Known) -> Option<&Entry>
    requires { spec.is_by_uid entries.now ≡ true }
    ensures { option_copied result ≡ spec.entry_of entries.now known }
{
    if place < entries.len() {
        let entry = &entries[place];
        if is_message(known, entry) {
            return Some(entry);
        }
    }
    find_entry(entries, known)
}

#[tactic(auto, using(crate::proofs::Order::below_more))]
/// The first place from one on whose entry has no UID below another.
fn skip_entries(entries: &[Entry], from: usize, uid: u64) -> usize
    requires within { from ≤ length entries.now }
    requires below { AreBelow (λ e. e.uid) entries.now uid from }
    ensures within { result ≤ length entries.now }
    ensures below { AreBelow (λ e. e.uid) entries.now uid result }
    ensures reached { IsReached (λ e. e.uid) entries.now uid result }
{
    let mut at = from;
    while at < entries.len() && entries[at].uid < uid {
        at += 1;
    }
    at
}

#[tactic(auto, using(crate::proofs::Order::below_more))]
/// The first place from one on whose message has no UID below another.
fn skip_known(view: &[Known], from: usize, uid: u64) -> usize
    requires within { from ≤ length view.now }
    requires below { AreBelow (λ k. k.uid) view.now uid from }
    ensures within { result ≤ length view.now }
    ensures below { AreBelow (λ k. k.uid) view.now uid result }
    ensures reached { IsReached (λ k. k.uid) view.now uid result }
{
    let mut at = from;
    while at < view.len() && view[at].uid < uid {
        at += 1;
    }
    at
}

/// Whether a message is no longer there, where the first entry with no lower UID stands at a place.
fn is_lost(entries: &[Entry], at: usize, known: Known) -> bool
    requires order { spec.is_by_uid entries.now ≡ true }
    requires below { AreBelow (λ e. e.uid) entries.now known.uid at }
    requires reached { IsReached (λ e. e.uid) entries.now known.uid at }
    ensures { result ≡ spec.is_lost entries.now known }
{
    if at < entries.len() {
        return !is_message(known, &entries[at]);
    }
    true
}

/// Whether a view lacks the message of an entry, where the first message with no lower UID stands at a place.
fn is_new(view: &[Known], at: usize, entry: &Entry) -> bool
    requires order { spec.is_in_order view.now ≡ true }
    requires below { AreBelow (λ k. k.uid) view.now entry.now.uid at }
    requires reached { IsReached (λ k. k.uid) view.now entry.now.uid at }
    ensures { result ≡ spec.is_new view.now entry.now }
{
    if at < view.len() {
        return !is_message(view[at], entry);
    }
    true
}

/// Adds the number of the message at a place, if it is no longer there.
fn push_lost(lost: &mut Places, is_lost: bool, place: usize) -> Result<(), NoMemory>
    requires { place < 18446744073709551615 }
    ensures { OnOk result (lost.new ≡ lost.old ++ (if is_lost then (place + 1) ∷ [] else [])) }
{
    if is_lost {
        lost.push(number(place + 1)?)?;
    }
    Ok(())
}

/// The numbers of the messages that are no longer there, in one walk of the view and the mailbox.
fn lost_in(alloc: Global, entries: &[Entry], view: &[Known]) -> Result<Places, NoMemory>
    requires order { spec.is_by_uid entries.now ≡ true }
    requires view { spec.is_in_order view.now ≡ true }
    ensures { IfOk result (λ lost. lost ≡ spec.lost_in entries.now view.now) }
{
    let mut lost = Places::new(alloc);
    let mut at = 0;
    for (place, known) in view.iter().enumerate() {
        at = skip_entries(entries, at, known.uid);
        push_lost(&mut lost, is_lost(entries, at, *known), place)?;
    }
    Ok(lost)
}

/// Whether the mailbox has a message that the view lacks, in one walk of both.
fn has_more(entries: &[Entry], view: &[Known]) -> bool
    requires order { spec.is_by_uid entries.now ≡ true }
    requires view { spec.is_in_order view.now ≡ true }
    ensures { result ≡ spec.has_more entries.now view.now }
{
    let mut at = 0;
    for entry in entries {
        at = skip_known(view, at, entry.uid);
        if is_new(view, at, entry) {
            return true;
        }
    }
    false
}

fn push_exists(alloc: Global, out: &mut Text, count: usize) -> Result<(), NoMemory>
    ensures { OnOk result (out.new ≡ out.old ++ exists_text count) }
{
    let line = format!(in alloc; "* {count} EXISTS\r\n")?;
    out.extend(line.as_bytes())
}

/// What a view is told of its mailbox.
pub fn news(alloc: Global, entries: &[Entry], view: &View) -> Result<Text, NoMemory>
    requires order { spec.is_by_uid entries.now ≡ true }
    requires view { spec.is_in_order view.now ≡ true }
    ensures { IfOk result (λ text. text ≡ spec.news entries.now view.now) }
{
    let lost = lost_in(alloc, entries, view.as_slice())?;
    let mut text = render_expunge(alloc, &lost)?;
    if has_more(entries, view.as_slice()) {
        push_exists(alloc, &mut text, entries.len())?;
    }
    Ok(text)
}

/// Whether the entries are the messages, one by one.
fn is_same(entries: &[Entry], view: &[Known]) -> bool
    ensures { result ≡ spec.is_current entries.now view.now }
{
    if entries.len() != view.len() {
        return false;
    }
    for (place, known) in view.iter().enumerate() {
        if !is_message(*known, &entries[place]) {
            return false;
        }
    }
    true
}

#[tactic(auto, using(crate::proofs::Views::current_is, crate::proofs::Views::current_quiet))]
/// Whether a view is of exactly what lies in the mailbox, so that there is nothing to tell; where that is known, the messages
/// are not looked at. Takes no memory.
pub fn is_current(entries: &[Entry], view: &View, known: bool) -> bool
    requires known { known ≡ true → spec.is_current entries.now view.now ≡ true }
    ensures whole { result ≡ spec.is_current entries.now view.now }
    ensures quiet { result ≡ true → spec.news entries.now view.now ≡ [] }
    ensures same { result ≡ true → spec.view_of entries.now ≡ view.now }
{
    if known {
        return true;
    }
    is_same(entries, view.as_slice())
}

fn known_of(entry: &Entry) -> Known
    ensures { result ≡ spec.known_of entry.now }
{
    Known {
        uid: entry.uid,
        key: entry.key,
    }
}

fn all_known(alloc: Global, entries: &[Entry]) -> Result<Vec<Known>, AllocError>
    ensures { IfOk result (λ view. view.items ≡ spec.view_of entries.now) }
{
    entries.iter().map(|entry| known_of(entry)).collect(alloc)
}

/// A view of all that lies in a mailbox.
pub fn view_of(alloc: Global, entries: &[Entry]) -> Result<View, NoMemory>
    ensures { IfOk result (λ view. view ≡ spec.view_of entries.now) }
{
    let view = all_known(alloc, entries)?;
    Ok(View::from_vec(view))
}
