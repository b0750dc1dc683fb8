//! When a Base can stand: its next number, its mailboxes, its stamps and its reports.
//!
//! Aliases and filters of a Base stand in the order in which they are in force, as in a snapshot: no order is asked of aliases.
//!
//! Users that are known: those of aliases, mailboxes, stamps, and of the `broken` and `renewed` of reports. Nothing else binds
//! the numbers in a report; its verbs are the thirteen of users.
//!
//! A Base's next number may lie below the house's first one; numbers go on from the Base's.
ghost use Rattle.std.specs.Prelude.{◌≡◌, ℕ, List, nat_le, nat_lt, [], ◌∷◌, map, ◌&&◌, ◌++◌, Bool, IfOk, OnOk};
ghost use Rattle.std.specs.List.{list_all, IsAllAdjacentAnswer};
ghost use Rattle.std.specs.List.Sorted.{IsPermutation, IsSortedBy};
ghost use Rattle.undo_base.specs.declared.keys.Key.{Key as TheKey};
ghost use Rattle.undo_base.specs.declared.keys.User.{User as TheUser};
ghost use Rattle.paradox.specs.declared.reports.BrokenItem.{BrokenItem as TheBrokenItem};
ghost use Rattle.paradox.specs.declared.reports.Report.{Report as TheReport};
ghost use Rattle.verb_core.specs.declared.mailbox.BoxId.{BoxId as TheBoxId};
ghost use Rattle.verb_core.specs.declared.mailbox.Entry.{Entry as TheEntry};
ghost use Rattle.verb_core.specs.declared.mailbox.Mailbox.{Mailbox as TheMailbox};
ghost use Rattle.verb_core.specs.Boxes.{box_cmp, is_rising};
ghost use Rattle.verb_core.specs.KeyOrder.{key_cmp};
ghost use Rattle.verb_core.specs.Store.{is_known};
ghost use Rattle.box_store.specs.Making.{makes_store as makes_store_of};
ghost use Rattle.store_kept.specs.Founding.{are_reports as may_report, are_stamps as may_stamp, base_stands, entries_of, is_entry_below, once_each as has_each_once, users_told};
ghost use Rattle.store_kept.specs.Kept.{is_by_key, key_cmp as report_cmp};
ghost use Rattle.mail_desk.specs.Founding.{based_of};
ghost use Rattle.desk_journal.specs.Once.{comes_before, held_cmp, keys_held, keys_of_row};

use box_store::makes_store;
use mail_desk::BaseParts;
use paradox::Report;
use std::alloc::Global;
use std::cmp::Ordering;
use undo_base::{END_OF_NUMBERS, Key, Name, NoMemory, User};
use verb_core::{BoxId, Entry, House, Mailbox};

/// A user, and the key of a message of theirs.
type HeldKey = (User, Key);

// ---- numbers

/// Whether a number can be the next of a journal: one behind the last, where numbers are used up.
fn is_next(next: u32) -> bool
    ensures { result ≡ nat_le next END_OF_NUMBERS }
{
    next <= END_OF_NUMBERS
}

/// Whether the numbers that an entry names are below the next.
fn is_below(next: u32, entry: &Entry) -> bool
    ensures { result ≡ is_entry_below next entry.now }
{
    entry.key.item < next && entry.body.origin < next && entry.body.rev < next
}

/// The same of the entries of a mailbox.
fn row_is_below(next: u32, row: &(BoxId, Mailbox)) -> bool
    ensures { result ≡ list_all (is_entry_below next) row.now.1.entries }
{
    row.1
        .entries
        .as_slice()
        .iter()
        .all(|entry| is_below(next, entry))
}

/// The same of each mailbox.
fn rows_are_below(next: u32, rows: &[(BoxId, Mailbox)]) -> bool
    ensures { result ≡ list_all (λ (r : TheBoxId × TheMailbox). list_all (is_entry_below next) r.1.entries) rows.now }
{
    rows.iter().all(|row| row_is_below(next, row))
}

/// The same of the entries of all mailboxes.
fn are_below(next: u32, rows: &[(BoxId, Mailbox)]) -> bool
    ensures { result ≡ list_all (is_entry_below next) (entries_of rows.now) }
{
    rows_are_below(next, rows)
}

// ---- keys

/// Adds the key of an entry, with its user.
fn push_key(keys: &mut Vec<HeldKey>, user: User, entry: &Entry) -> Result<(), NoMemory>
    ensures { OnOk result (keys.new.items ≡ keys.old.items ++ (user, entry.now.key) ∷ []) }
{
    keys.push((user, entry.key))?;
    Ok(())
}

/// The same of entries.
fn push_each(keys: &mut Vec<HeldKey>, user: User, entries: &[Entry]) -> Result<(), NoMemory>
    ensures { OnOk result (keys.new.items ≡ keys.old.items ++ map (λ (e : TheEntry). (user, e.key)) entries.now) }
{
    for entry in entries {
        push_key(keys, user, entry)?;
    }
    Ok(())
}

/// Adds the keys in a mailbox, each with its user.
fn push_keys(keys: &mut Vec<HeldKey>, row: &(BoxId, Mailbox)) -> Result<(), NoMemory>
    ensures { OnOk result (keys.new.items ≡ keys.old.items ++ keys_of_row row.now) }
{
    push_each(keys, row.0.user, row.1.entries.as_slice())
}

/// The keys that the users have.
fn held_keys(alloc: Global, rows: &[(BoxId, Mailbox)]) -> Result<Vec<HeldKey>, NoMemory>
    ensures { IfOk result (λ keys. keys.items ≡ keys_held rows.now) }
{
    let mut keys = Vec::new(alloc);
    for row in rows {
        push_keys(&mut keys, row)?;
    }
    Ok(keys)
}

/// How a key lies to another, by item and then by index.
fn compare_keys(a: &Key, b: &Key) -> Ordering
    ensures { result ≡ key_cmp a.now b.now }
{
    match a.item.cmp(&b.item) {
        Ordering::Less => Ordering::Less,
        Ordering::Equal => a.index.cmp(&b.index),
        Ordering::Greater => Ordering::Greater,
    }
}

/// How a user's key lies to another, by user and then by key.
fn compare_held(a: &HeldKey, b: &HeldKey) -> Ordering
    ensures { result ≡ held_cmp a.now b.now }
{
    match a.0.0.cmp(&b.0.0) {
        Ordering::Less => Ordering::Less,
        Ordering::Equal => compare_keys(&a.1, &b.1),
        Ordering::Greater => Ordering::Greater,
    }
}

/// Puts keys in their order.
fn sort_keys(keys: &mut Vec<HeldKey>)
    ensures same { IsPermutation keys.old.items keys.new.items }
    ensures ordered { IsSortedBy comes_before keys.new.items }
{
    keys.sort_unstable_by(|a, b| compare_held(a, b));
}

/// Whether each key comes before the next.
fn do_rise(keys: &[HeldKey]) -> bool
    ensures { IsAllAdjacentAnswer (λ (a b : TheUser × TheKey) (t : Bool). t ≡ comes_before a b) keys.now result }
{
    keys.is_sorted_by(|a, b| compare_held(a, b).is_lt())
}

/// Whether no user has a key twice. It takes memory for the keys.
fn once_each(alloc: Global, rows: &[(BoxId, Mailbox)]) -> Result<bool, NoMemory>
    ensures { IfOk result (λ once. once ≡ has_each_once rows.now) }
{
    let mut keys = held_keys(alloc, rows)?;
    sort_keys(&mut keys);
    Ok(do_rise(keys.as_slice()))
}

// ---- stamps

/// How a mailbox lies to another, by user and then by name.
fn compare_boxes(a: &BoxId, b: &BoxId) -> Ordering
    ensures { result ≡ box_cmp a.now b.now }
{
    match a.user.0.cmp(&b.user.0) {
        Ordering::Less => Ordering::Less,
        Ordering::Equal => a.name.bytes().cmp(b.name.bytes()),
        Ordering::Greater => Ordering::Greater,
    }
}

/// Whether stamps stand by user and name.
fn stamps_rise(stamps: &[(BoxId, u32)]) -> bool
    ensures { result ≡ is_rising stamps.now }
{
    stamps.is_sorted_by(|a, b| compare_boxes(&a.0, &b.0).is_lt())
}

/// Whether a stamp is below the next number, and its user is known.
fn is_stamp(house: &House, next: u32, row: &(BoxId, u32)) -> bool
    ensures { result ≡ (nat_lt row.now.1 next && is_known house.now row.now.0.user) }
{
    row.1 < next && house.knows(row.0.user)
}

/// The same of each stamp.
fn all_stamp(house: &House, next: u32, stamps: &[(BoxId, u32)]) -> bool
    ensures { result ≡ list_all (λ (r : TheBoxId × ℕ). nat_lt r.1 next && is_known house.now r.0.user) stamps.now }
{
    stamps.iter().all(|row| is_stamp(house, next, row))
}

/// Whether these can be the stamps of a base.
fn are_stamps(house: &House, next: u32, stamps: &[(BoxId, u32)]) -> bool
    ensures { result ≡ may_stamp house.now next stamps.now }
{
    stamps_rise(stamps) && all_stamp(house, next, stamps)
}

// ---- reports

/// How the key of a report lies to that of another.
fn compare_reports(a: &(Name, Report), b: &(Name, Report)) -> Ordering
    ensures { result ≡ report_cmp a.now.0 b.now.0 }
{
    a.0.bytes().cmp(b.0.bytes())
}

/// Whether reports stand by key.
fn reports_rise(reports: &[(Name, Report)]) -> bool
    ensures { result ≡ is_by_key reports.now }
{
    reports.is_sorted_by(|a, b| compare_reports(a, b).is_lt())
}

/// Whether the users of a report's broken items are known.
fn broken_are_known(house: &House, report: &Report) -> bool
    ensures { result ≡ list_all (λ (b : TheBrokenItem). is_known house.now b.user) report.now.broken }
{
    report
        .broken
        .as_slice()
        .iter()
        .all(|row| house.knows(row.user))
}

/// Whether the users of its renewed mailboxes are known.
fn boxes_are_known(house: &House, report: &Report) -> bool
    ensures { result ≡ list_all (λ (r : TheBoxId × ℕ). is_known house.now r.0.user) report.now.renewed }
{
    report
        .renewed
        .as_slice()
        .iter()
        .all(|row| house.knows(row.0.user))
}

/// Whether the users whom a report names are known.
fn names_known(house: &House, report: &Report) -> bool
    ensures { result ≡ list_all (is_known house.now) (users_told report.now) }
{
    broken_are_known(house, report) && boxes_are_known(house, report)
}

/// The same of the report of a row.
fn row_names_known(house: &House, row: &(Name, Report)) -> bool
    ensures { result ≡ list_all (is_known house.now) (users_told row.now.1) }
{
    names_known(house, &row.1)
}

/// The same of each report.
fn all_name_known(house: &House, reports: &[(Name, Report)]) -> bool
    ensures { result ≡ list_all (λ (r : List ℕ × TheReport). list_all (is_known house.now) (users_told r.1)) reports.now }
{
    reports.iter().all(|row| row_names_known(house, row))
}

/// Whether these can be the reports of a base.
fn are_reports(house: &House, reports: &[(Name, Report)]) -> bool
    ensures { result ≡ may_report house.now reports.now }
{
    reports_rise(reports) && all_name_known(house, reports)
}

// ---- all of it

/// Whether the numbers of a base can be such, its mailboxes make a store, and its stamps and reports can be such.
fn are_parts(house: &House, parts: &BaseParts) -> bool
    ensures { result ≡ (nat_le parts.now.next END_OF_NUMBERS && makes_store_of house.now parts.now.conf parts.now.rows && list_all (is_entry_below parts.now.next) (entries_of parts.now.rows) && may_stamp house.now parts.now.next parts.now.stamps && may_report house.now parts.now.reports) }
{
    is_next(parts.next)
        && makes_store(house, &parts.conf, parts.rows.as_slice())
        && are_below(parts.next, parts.rows.as_slice())
        && are_stamps(house, parts.next, parts.stamps.as_slice())
        && are_reports(house, parts.reports.as_slice())
}

/// Whether a Base can stand, but for what is wanted of the texts and the items behind it. It takes memory for the keys in it.
pub fn can_found(alloc: Global, house: &House, parts: &BaseParts) -> Result<bool, NoMemory>
    ensures { IfOk result (λ can. can ≡ base_stands house.now (based_of parts.now)) }
{
    if !are_parts(house, parts) {
        return Ok(false);
    }
    once_each(alloc, parts.rows.as_slice())
}
