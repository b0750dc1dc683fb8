//! What a cycle begins with: the newest snapshot in the journal that can serve, or else the store before the first item.
//!
//! A snapshot that does not hold what was written is passed over for the next older one, and at last for the opening store. On a
//! disk that holds its texts that never comes. It is said of what the reads give of an honest disk, whatever lies on it (`passes`
//! of `newest` and `beginning`).
ghost use Rattle.std.specs.Prelude.{◌≡◌, ◌<◌, ◌≤◌, ◌+◌, ℕ, false, List, [], Some, None, Ok, take, length, option_map, IfOk, IfSome, IsErrOf, IsTrue};
ghost use Rattle.std.specs.List.{AllByRecursion, list_all};
ghost use Rattle.verb_core.specs.declared.mailbox.Entry.{Entry as TheEntry};
ghost use Rattle.verb_bytes.specs.declared.journal.JournalRecord.{JournalRecord as TheRecord};
ghost use Rattle.verb_bytes.specs.Spelling.{HasSpelling, Spells, record_bytes};
ghost use Rattle.seal_log.specs.Causes.{ReadAtCause};
ghost use Rattle.seal_log.specs.Journal.{LiesAt};
ghost use Rattle.seal_log.specs.Settled.{Holds};
ghost use Rattle.time_desk.specs.Serving.{BeginsBy, CanServe, FindsLast, FindsNewest, IsNewest, CanBegin, ServesBy, SpelledBy, bytes_at, can_serve as serves, rows_in, store_from, store_in};
ghost use Rattle.time_desk.specs.Replaying.{some_marked};
ghost use Rattle.desk_journal.specs.Stored.{MarkLies, MarkedBefore, MarksLie, store_at};
ghost use Rattle.desk_journal.specs.Telling.{HoldsHeld, IsPastRead};
ghost use Rattle.store_kept.specs.Texts.{all_bodies, has_text_among};

use crate::redo::begun;
use box_store::{RowsRefused, Store, makes_store, rows_make_valid_stores};
use desk_journal::Past;
use mail_cycle::{Beginning, opened};
use mail_desk::Desk;
use mail_desk::laws::{bases_carry, bodies_have_texts};
use seal_log::{Place, ReadFault};
use std::alloc::Global;
use undo_base::{NoMemory, Text};
use undo_outside::Disk;
use verb_bytes::laws::one_spelling;
use verb_bytes::{BadBytes, JournalRecord, decode_record};
use verb_core::laws::steps_keep_validity;
use verb_core::{BoxId, Conf, Entry, Mailbox, Rows};

/// The record that a payload spells, where it spells one.
fn record_of(alloc: Global, payload: &Text) -> Result<Option<JournalRecord>, ReadFault>
    ensures found { (what : TheRecord) → Spells what payload.now → IfOk result (λ found. found ≡ Some what) }
    ensures read { IfOk result (SpelledBy payload.now) }
    ensures never { IsErrOf result ReadFault.Disk → ⊥ }
{
    match decode_record(alloc, payload.bytes()) {
        Ok(what) => Ok(Some(what)),
        Err(BadBytes::Place { .. }) => Ok(None),
        Err(BadBytes::NoMemory) => Err(ReadFault::NoMemory),
    }
}

/// The record at a place, where its payload spells one.
fn record_at<D: Disk>(
    alloc: Global,
    past: &mut Past<D>,
    place: Place,
) -> Result<Option<JournalRecord>, ReadFault>
    requires place { place.gate + 5 + place.length ≤ past.old.end }
    ensures found { (payloads : List (List ℕ)) (what : TheRecord) → Holds (D.told past.old.disk) payloads → HasSpelling what
        → LiesAt payloads place.gate place.length (record_bytes what) → IfOk result (λ found. found ≡ Some what) }
    ensures read { (D.told past.old.disk).honest → IfOk result (SpelledBy (bytes_at (D.told past.old.disk) place)) }
    ensures cause { ReadAtCause (D.told past.old.disk) (D.told past.new.disk) result }
    ensures still { IsPastRead D.told past.old past.new }
{
    match past.read(alloc, place, 0, place.length) {
        Ok(payload) => record_of(alloc, &payload),
        Err(fault) => Err(fault),
    }
}

/// The configuration and the rows of a record that is a snapshot of so many items; of any other, none.
fn rows_of(what: JournalRecord, count: u32) -> Option<(Conf, Rows)>
    ensures { result ≡ rows_in count what }
{
    match what {
        JournalRecord::Snapshot { items, conf, rows } => {
            if items == count {
                return Some((conf, rows));
            }
            drop(conf);
            drop(rows);
            None
        }
        other => {
            drop(other);
            None
        }
    }
}

/// Whether the body of each entry has a text among the first so many items.
fn have_texts(desk: &Desk, count: u32, entries: &[Entry]) -> bool
    ensures { result ≡ list_all (λ (e : TheEntry). has_text_among desk.now.kept (take count desk.now.kept.timeline) e.body) entries.now }
{
    entries
        .iter()
        .all(|entry| desk.has_text_before(entry.body, count as usize))
}

/// The same of all rows.
fn rows_have_texts(desk: &Desk, count: u32, rows: &[(BoxId, Mailbox)]) -> bool
    ensures { result ≡ all_bodies (has_text_among desk.now.kept (take count desk.now.kept.timeline)) rows.now }
{
    rows.iter()
        .all(|row| have_texts(desk, count, row.1.entries.as_slice()))
}

/// Whether rows make a store of the house, each body of which has a text among the first so many items.
fn can_serve(desk: &Desk, count: u32, conf: &Conf, rows: &[(BoxId, Mailbox)]) -> bool
    ensures { result ≡ serves desk.now.kept count conf.now rows.now }
{
    makes_store(desk.house(), conf, rows) && rows_have_texts(desk, count, rows)
}

/// The store that the first items left can serve: this does nothing.
fn fronts_serve(desk: &Desk)
    ensures { (count : ℕ) → CanServe desk.now.kept count (store_at desk.now.kept count) }
{
    desk.stands();
    steps_keep_validity();
    bodies_have_texts();
    bases_carry();
}

/// The store of rows, where it can serve.
fn store_of_rows(
    alloc: Global,
    desk: &Desk,
    count: u32,
    conf: Conf,
    rows: Rows,
) -> Result<Option<Store>, ReadFault>
    ensures serves { IfOk result (λ found. IfSome found (λ store. CanServe desk.now.kept count store.store)) }
    ensures exact { IfOk result (λ found. option_map (λ store. store.store) found ≡ store_from desk.now.kept count conf rows) }
    ensures never { IsErrOf result ReadFault.Disk → ⊥ }
{
    rows_make_valid_stores();
    if !can_serve(desk, count, &conf, rows.as_slice()) {
        drop(conf);
        drop(rows);
        return Ok(None);
    }
    match Store::from_rows(alloc, desk.house(), conf, rows) {
        Ok(store) => Ok(Some(store)),
        Err(RowsRefused::Row { .. }) => Ok(None),
        Err(RowsRefused::NoMemory) => Err(ReadFault::NoMemory),
    }
}

/// The store of a record that is a snapshot of so many items, where it can serve.
fn store_of_record(
    alloc: Global,
    desk: &Desk,
    count: u32,
    what: JournalRecord,
) -> Result<Option<Store>, ReadFault>
    ensures serves { IfOk result (λ found. IfSome found (λ store. CanServe desk.now.kept count store.store)) }
    ensures exact { IfOk result (λ found. option_map (λ store. store.store) found ≡ store_in desk.now.kept count what) }
    ensures never { IsErrOf result ReadFault.Disk → ⊥ }
{
    match rows_of(what, count) {
        Some((conf, rows)) => store_of_rows(alloc, desk, count, conf, rows),
        None => Ok(None),
    }
}

/// The store of the snapshot that is marked, where it can serve.
fn marked_store<D: Disk>(
    alloc: Global,
    past: &mut Past<D>,
    desk: &Desk,
    count: u32,
    place: Place,
) -> Result<Option<Store>, ReadFault>
    requires place { place.gate + 5 + place.length ≤ past.old.end }
    ensures serves { IfOk result (λ found. IfSome found (λ store. CanServe desk.now.kept count store.store)) }
    ensures found { (payloads : List (List ℕ)) → Holds (D.told past.old.disk) payloads → MarkLies payloads desk.now.kept (count, place)
        → IfOk result (λ found. option_map (λ store. store.store) found ≡ Some (store_at desk.now.kept count)) }
    ensures read { (D.told past.old.disk).honest
        → IfOk result (λ found. ServesBy desk.now.kept count (bytes_at (D.told past.old.disk) place) (option_map (λ store. store.store) found)) }
    ensures cause { ReadAtCause (D.told past.old.disk) (D.told past.new.disk) result }
    ensures still { IsPastRead D.told past.old past.new }
{
    fronts_serve(desk);
    rows_make_valid_stores();
    one_spelling();
    match record_at(alloc, past, place) {
        Ok(Some(what)) => store_of_record(alloc, desk, count, what),
        Ok(None) => Ok(None),
        Err(fault) => Err(fault),
    }
}

/// The newest of the snapshots that are marked, the last that can serve: each one behind it is passed over.
fn newest<D: Disk>(
    alloc: Global,
    past: &mut Past<D>,
    desk: &Desk,
    marks: &[(u32, Place)],
) -> Result<Option<Beginning>, ReadFault>
    requires marked { MarkedBefore past.old.end marks.now }
    ensures serves { IfOk result (λ found. IfSome found (λ first. CanServe desk.now.kept first.count first.store.store)) }
    ensures few { (place : ℕ) → AllByRecursion (λ (m : ℕ × Place). m.0 ≤ place) marks.now → IfOk result (λ found. IfSome found (λ first. first.count ≤ place)) }
    ensures newest { (payloads : List (List ℕ)) → Holds (D.told past.old.disk) payloads → MarksLie payloads desk.now.kept marks.now
        → IfOk result (FindsLast desk.now.kept marks.now) }
    ensures passes { (D.told past.old.disk).honest → IfOk result (FindsNewest (D.told past.old.disk) desk.now.kept marks.now) }
    ensures none { marks.now ≡ [] → result ≡ Ok None }
    ensures cause { ReadAtCause (D.told past.old.disk) (D.told past.new.disk) result }
    ensures still { IsPastRead D.told past.old past.new }
{
    for i in (0..marks.len()).rev() {
        let (count, place) = marks[i];
        match marked_store(alloc, past, desk, count, place) {
            Ok(Some(store)) => {
                return Ok(Some(Beginning {
                    store,
                    count: count as usize,
                }));
            }
            Ok(None) => {}
            Err(fault) => return Err(fault),
        }
    }
    Ok(None)
}

/// The store before the first item.
fn at_first(alloc: Global, desk: &Desk) -> Result<Beginning, ReadFault>
    ensures count { IfOk result (λ first. first.count ≡ 0) }
    ensures store { IfOk result (λ first. first.store.store ≡ desk.now.kept.base) }
    ensures serves { IfOk result (λ first. CanServe desk.now.kept 0 first.store.store) }
    ensures never { IsErrOf result ReadFault.Disk → ⊥ }
{
    fronts_serve(desk);
    match opened(&begun(desk), alloc) {
        Ok(first) => Ok(first),
        Err(NoMemory) => Err(ReadFault::NoMemory),
    }
}

/// How many items a place of the timeline has before it: 32 bits hold it.
fn position_of(desk: &Desk, place: usize) -> u32
    requires { place ≤ length desk.now.kept.timeline }
    ensures { result ≡ place }
{
    desk.stands();
    place as u32
}

/// What a cycle behind a place begins with: the newest snapshot at or before it, or the store before the first item. One whose
/// bytes, read back, are no snapshot that makes a store of the house is passed over for the next older one.
pub(crate) fn beginning<D: Disk>(
    alloc: Global,
    past: &mut Past<D>,
    desk: &Desk,
    place: usize,
) -> Result<Beginning, ReadFault>
    requires marked { MarkedBefore past.old.end desk.now.marks }
    requires place { place ≤ length desk.now.kept.timeline }
    ensures serves { IfOk result (CanBegin desk.now.kept place) }
    ensures newest { HoldsHeld (D.told past.old.disk) desk.now → IfOk result (IsNewest desk.now.kept place) }
    ensures passes { (D.told past.old.disk).honest → IfOk result (BeginsBy (D.told past.old.disk) desk.now place) }
    ensures first { some_marked desk.now.kept place ≡ false → IfOk result (λ first. (first.count ≡ 0) × (first.store.store ≡ desk.now.kept.base)) }
    ensures due { IsErrOf result ReadFault.Disk → IsTrue (some_marked desk.now.kept place) }
    ensures cause { ReadAtCause (D.told past.old.disk) (D.told past.new.disk) result }
    ensures still { IsPastRead D.told past.old past.new }
{
    desk.stands();
    let marks = desk.marks_at_or_before(position_of(desk, place));
    match newest(alloc, past, desk, marks) {
        Ok(Some(first)) => Ok(first),
        Ok(None) => at_first(alloc, desk),
        Err(fault) => Err(fault),
    }
}
