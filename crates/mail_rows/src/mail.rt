//! The mail of one mailbox: what comes to its end, what changes and what goes. Nothing here takes memory.
ghost use Rattle.std.specs.Prelude.{◌≡◌, ◌+◌, ◌≤◌, ◌<◌, ◌^◌, [], ◌∷◌, ◌++◌, ◌&&◌, IsTrue, length, remove as left_at, vec_len, vec_capacity};
ghost use Rattle.verb_core.specs.KeyOrder.{keys_rise, keys_rise_from, last_key};
ghost use Rattle.verb_core.specs.Mailboxes.{no_mail, put_all, with_entries, emptied, expunged, without as left_out};
ghost use Rattle.mail_rows.specs.Mail.{flags_set, all_flags_set};
ghost use Rattle.mail_rows.specs.Mail.{numbered};

use crate::places::key_place;
use crate::room::move_over;
use crate::{FlagChange, KeySet};
use std::alloc::Global;
use std::mem;
use undo_base::Key;
use verb_core::{Entries, Entry, Mailbox, keys_rise_from, last_key};

/// Takes the entries out of a mailbox.
pub fn take_entries(alloc: Global, mailbox: &mut Mailbox) -> Entries
    ensures list { result ≡ mailbox.old.entries }
    ensures mailbox { mailbox.new ≡ emptied mailbox.old }
{
    mem::replace(&mut mailbox.entries, Entries::new(alloc))
}

/// Adds mail under the UIDs from the first on. There is room for it.
fn add_mail(list: &mut Vec<Entry>, mail: &[Entry], first: u64)
    requires room { vec_len list.old + length mail.now ≤ vec_capacity list.old }
    requires uids { first + length mail.now < 2 ^ 64 }
    ensures { list.new.items ≡ list.old.items ++ numbered first mail.now }
{
    let mut uid = first;
    for entry in mail {
        list.push_reserved(Entry { uid, ..*entry });
        uid += 1;
    }
}

/// A mailbox's list with new mail, and an empty list: the mail goes to the list's end where there is room, or all of it
/// into the spare list.
fn joined(
    mut list: Vec<Entry>,
    mut spare: Vec<Entry>,
    mail: &[Entry],
    first: u64,
) -> (Vec<Entry>, Vec<Entry>)
    requires empty { spare.items ≡ [] }
    requires room { length list.items + length mail.now ≤ vec_capacity spare }
    requires uids { first + length mail.now < 2 ^ 64 }
    ensures list { result.0.items ≡ list.items ++ numbered first mail.now }
    ensures spare { result.1.items ≡ [] }
{
    if mail.len() <= list.capacity() - list.len() {
        add_mail(&mut list, mail, first);
        (list, spare)
    } else {
        move_over(&mut list, &mut spare);
        add_mail(&mut spare, mail, first);
        (spare, list)
    }
}

/// Whether keys that are known to rise still do with mail behind them.
fn rise_on(in_order: bool, list: &[Entry], mail: &[Entry]) -> bool
    ensures { result ≡ (in_order && keys_rise_from (last_key None list.now) mail.now) }
{
    in_order && keys_rise_from(last_key(list), mail)
}

/// Puts mail at the end of a mailbox. The spare list has room for all; an empty list comes back.
pub fn put_mail(
    alloc: Global,
    mailbox: &mut Mailbox,
    spare: Vec<Entry>,
    mail: &[Entry],
) -> Vec<Entry>
    requires empty { spare.items ≡ [] }
    requires room { length mailbox.old.entries + length mail.now ≤ vec_capacity spare }
    requires uids { mailbox.old.next + length mail.now < 2 ^ 64 }
    ensures mailbox { mailbox.new ≡ put_all mail.now mailbox.old }
    ensures spare { result.items ≡ [] }
{
    let first = mailbox.next;
    let (list, in_order) = take_entries(alloc, mailbox).into_parts();
    let in_order = rise_on(in_order, list.as_slice(), mail);
    let (list, spare) = joined(list, spare, mail, first);
    mailbox.entries = Entries::from_parts(list, in_order);
    mailbox.next = first + mail.len() as u64;
    spare
}

/// A mailbox with this mail, whose UIDs begin at 1.
pub fn begun_anew(mut list: Vec<Entry>) -> Mailbox
    ensures { result ≡ put_all list.items no_mail }
{
    let mut next = 1;
    for entry in list.iter_mut() {
        entry.uid = next;
        next += 1;
    }
    Mailbox {
        next,
        entries: Entries::from_vec(list),
    }
}

/// Other flags for the entry at a place, where there is one.
fn set_flag(list: &mut Vec<Entry>, change: FlagChange)
    ensures { list.new.items ≡ flags_set change list.old.items }
{
    if change.place < list.len() {
        list[change.place].flags = change.flags;
    }
}

/// Other flags for the entries at places.
pub fn set_flags(alloc: Global, mailbox: &mut Mailbox, changes: &[FlagChange])
    ensures { mailbox.new ≡ with_entries (all_flags_set changes.now) mailbox.old }
{
    let (mut list, in_order) = take_entries(alloc, mailbox).into_parts();
    for change in changes {
        set_flag(&mut list, *change);
    }
    mailbox.entries = Entries::from_parts(list, in_order);
}

/// The entries of these keys that have `\Deleted` go.
pub fn expunge(alloc: Global, mailbox: &mut Mailbox, keys: &KeySet)
    ensures { mailbox.new ≡ with_entries (expunged keys.now) mailbox.old }
{
    let mut list = take_entries(alloc, mailbox).into_vec();
    list.retain(|entry| !(keys.contains(entry.key) && entry.flags.deleted));
    mailbox.entries = Entries::from_vec(list);
}

/// The entries of a list whose keys rise, but for the one at a place. Those behind it are moved in memory.
fn without_place(mut list: Vec<Entry>, place: usize) -> Entries
    requires rising { IsTrue (keys_rise list.items) }
    requires within { place < length list.items }
    ensures { result ≡ left_at list.items place }
{
    list.remove(place);
    Entries::from_parts(list, true)
}

/// The entries of a list whose keys rise, but for that of a key, which is found by halves.
fn left_by_halves(list: Vec<Entry>, key: Key) -> Entries
    requires { IsTrue (keys_rise list.items) }
    ensures { result ≡ left_out (key ∷ []) list.items }
{
    match key_place(list.as_slice(), key) {
        None => Entries::from_parts(list, true),
        Some(place) => without_place(list, place),
    }
}

/// The entries of a list but for those of a key. One pass over the list.
fn left_by_pass(mut list: Vec<Entry>, key: Key) -> Entries
    ensures { result ≡ left_out (key ∷ []) list.items }
{
    list.retain(|entry| entry.key != key);
    Entries::from_vec(list)
}

/// The entries of a key go.
pub fn remove(alloc: Global, mailbox: &mut Mailbox, key: Key)
    ensures { mailbox.new ≡ with_entries (left_out (key ∷ [])) mailbox.old }
{
    let (list, in_order) = take_entries(alloc, mailbox).into_parts();
    mailbox.entries = if in_order {
        left_by_halves(list, key)
    } else {
        left_by_pass(list, key)
    };
}

/// The entries of a mailbox but for those of these keys.
pub fn without(mailbox: Mailbox, keys: &KeySet) -> Vec<Entry>
    ensures { result.items ≡ left_out keys.now mailbox.entries }
{
    let mut list = mailbox.entries.into_vec();
    list.retain(|entry| !keys.contains(entry.key));
    list
}
