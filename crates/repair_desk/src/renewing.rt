//! The stamps after a cycle.
//!
//! `renew` asks no more than that the stamps name the mailboxes of the store before the cycle. Where the UIDs of a mailbox rise,
//! as those of every valid store do, an old entry is found by its UID, by halves; else it is looked for from the first. The rows
//! of both stores are read where they lie: none is copied.
//!
//! Whether a mailbox extends another is a test that computes; that it goes on from one cycle to the next is a law.
ghost use Rattle.std.specs.Prelude.{◌≡◌, ℕ, map, IfOk, IsTrue};
ghost use Rattle.std.specs.List.{list_any};
ghost use Rattle.verb_core.specs.declared.mailbox.BoxId.{BoxId as TheBoxId};
ghost use Rattle.verb_core.specs.declared.mailbox.Mailbox.{Mailbox as TheMailbox};
ghost use Rattle.verb_core.specs.Boxes.{box_cmp, is_rising, row_at};
ghost use Rattle.verb_core.specs.Mailboxes.{is_mailbox};
ghost use Rattle.repair_desk.specs.Renewals.{UidsRise, extends as is_extended, is_old as is_old_mail, renewed, same_mail as is_same_mail, stamp_after as is_stamp_after};

use box_store::Store;
use std::alloc::Global;
use std::cmp::Ordering;
use undo_base::{Copies, NoMemory};
use verb_core::{BoxId, Entry, Mailbox, Stamps};

/// Whether a UID names the same message with the same text.
fn same_mail(one: &Entry, other: &Entry) -> bool
    ensures { result ≡ is_same_mail one.now other.now }
{
    one.uid == other.uid && one.key == other.key && one.body.is_same(other.body)
}

/// Whether the UIDs of a mailbox rise, and stay below the next.
fn in_order(old: &Mailbox) -> bool
    ensures { result ≡ is_mailbox old.now }
{
    let mut low = 0;
    let mut rest = old.entries.as_slice();
    while let [entry, others @ ..] = rest {
        if entry.uid <= low {
            return false;
        }
        low = entry.uid;
        rest = others;
    }
    low < old.next
}

/// Whether one of the entries is the same mail, found by its UID.
fn finds_mail(entries: &[Entry], entry: &Entry) -> bool
    requires { UidsRise entries.now }
    ensures { result ≡ list_any (is_same_mail entry.now) entries.now }
{
    match entries.binary_search_by_key(&entry.uid, |other| other.uid) {
        Ok(place) => same_mail(entry, &entries[place]),
        Err(_) => false,
    }
}

/// Whether one of the entries is the same mail: found by its UID where the UIDs rise, as those of a valid store do.
fn has_mail(old: &Mailbox, rising: bool, entry: &Entry) -> bool
    requires { rising ≡ is_mailbox old.now }
    ensures { result ≡ list_any (is_same_mail entry.now) old.now.entries }
{
    let entries = old.entries.as_slice();
    if rising {
        finds_mail(entries, entry)
    } else {
        entries.iter().any(|other| same_mail(entry, other))
    }
}

/// Whether an entry below the old next UID is an old one.
fn is_old(old: &Mailbox, rising: bool, entry: &Entry) -> bool
    requires { rising ≡ is_mailbox old.now }
    ensures { result ≡ is_old_mail old.now entry.now }
{
    old.next <= entry.uid || has_mail(old, rising, entry)
}

/// Whether a mailbox is extended by another.
fn extends(old: &Mailbox, new: &Mailbox) -> bool
    ensures { result ≡ is_extended old.now new.now }
{
    if new.next < old.next {
        return false;
    }
    let rising = in_order(old);
    for entry in new.entries.as_slice() {
        if !is_old(old, rising, entry) {
            return false;
        }
    }
    true
}

/// How a stamp's mailbox lies to another, by user and then by name.
fn compare(row: &(BoxId, u32), id: &BoxId) -> Ordering
    ensures { result ≡ box_cmp row.now.0 id.now }
{
    match row.0.user.0.cmp(&id.user.0) {
        Ordering::Less => Ordering::Less,
        Ordering::Equal => row.0.name.bytes().cmp(id.name.bytes()),
        Ordering::Greater => Ordering::Greater,
    }
}

/// The stamp of a mailbox, found by halves.
fn stamp_of(stamps: &[(BoxId, u32)], id: &BoxId) -> Option<u32>
    requires { IsTrue (is_rising stamps.now) }
    ensures { result ≡ row_at id.now stamps.now }
{
    match stamps.binary_search_by(|row| compare(row, id)) {
        Ok(place) => Some(stamps[place].1),
        Err(_) => None,
    }
}

/// The stamp of a row after the cycle `c`.
fn stamp_after(before: &Store, stamps: &[(BoxId, u32)], row: &(BoxId, Mailbox), c: u32) -> u32
    requires { IsTrue (is_rising stamps.now) }
    ensures { result ≡ is_stamp_after before.now.store.boxes stamps.now c row.now }
{
    match before.mailbox(row.0.user, &row.0.name) {
        Some(old) => {
            if extends(old, &row.1) {
                stamp_of(stamps, &row.0).unwrap_or(c)
            } else {
                c
            }
        }
        None => c,
    }
}

fn renewed_stamps(
    alloc: Global,
    before: &Store,
    rows: &[(BoxId, Mailbox)],
    stamps: &[(BoxId, u32)],
    c: u32,
) -> Result<Stamps, NoMemory>
    requires { IsTrue (is_rising stamps.now) }
    ensures { IfOk result (λ new. new ≡ renewed before.now.store.boxes rows.now stamps.now c) }
{
    let mut new = Stamps::new(alloc);
    for row in rows {
        let stamp = stamp_after(before, stamps, row, c);
        new.push((row.0.copy(alloc)?, stamp))?;
    }
    Ok(new)
}

/// The stamps after the cycle `c`: a mailbox that was there before and is extended keeps its stamp, every other one has
/// the stamp `c` (RFC 3501, section 2.3.1.1). In time that grows as the entries times the logarithm of a mailbox, where the
/// store before is valid; no row of a store is copied.
pub fn renew(
    alloc: Global,
    before: &Store,
    after: &Store,
    stamps: &Stamps,
    c: u32,
) -> Result<Stamps, NoMemory>
    requires named { map (λ (r : TheBoxId × ℕ). r.0) stamps.now ≡ map (λ (r : TheBoxId × TheMailbox). r.0) before.now.store.boxes }
    ensures { IfOk result (λ new. new ≡ renewed before.now.store.boxes after.now.store.boxes stamps.now c) }
{
    let _named = before.boxes();
    renewed_stamps(alloc, before, after.boxes(), stamps.as_slice(), c)
}
