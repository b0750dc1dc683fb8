//! An audit: whether each record behind the journal's front is true of what was kept before it. The journal is read once more, and its
//! records are performed in memory, beside the desk.
//!
//! A record that, read again by an audit, decodes no more counts as not true, at its gate (`unread` of `Desk::audit`). The clause
//! speaks of a disk that holds other payloads than it gave when the desk was opened, and is honest by then. Neither disk of the
//! program is such a one. `MemDisk` gives again what it gave, and of a file nothing is claimed (tests/system changes an octet
//! between the two readings).
//!
//! What the journal opens with is taken as given, and an audit reads it whole: opening leaves out the texts of long records. So an
//! audit reads each octet of a journal, whose records are true, once more than opening or for the first time (tests/faults).
//!
//! Where a frame goes past the end of the journal an audit tells its gate too. No clause says it, since none of desk_journal's
//! says that a length which goes past the end gives no place.
ghost use Rattle.std.specs.Prelude.{◌≡◌, ◌<◌, ◌≤◌, ◌+◌, ◌++◌, ◌^◌, [], ℕ, List, None, Some, Ok, Err, true, false, IfOk, IfErr, IfSome, OnOk, IsErrOf, length};
ghost use Rattle.std.specs.List.{All, AllByRecursion};
ghost use Rattle.std.specs.Option.{option_or};
ghost use Rattle.verb_bytes.specs.declared.journal.JournalRecord.{JournalRecord as TheRecord};
ghost use Rattle.verb_bytes.specs.declared.journal.JournalRecord.TheVariants.{Verb};
ghost use Rattle.verb_bytes.specs.Spelling.{HasSpelling, record_bytes};
ghost use Rattle.verb_core.specs.Items.{text_in};
ghost use Rattle.seal_log.specs.Causes.{ReadAtCause};
ghost use Rattle.seal_log.specs.Journal.{sealed, IsPayload, LiesAt};
ghost use Rattle.seal_log.specs.Loading.{places_from};
ghost use Rattle.seal_log.specs.Settled.{Holds};
ghost use Rattle.store_kept.specs.Kept.{Kept};
ghost use Rattle.desk_journal.specs.Reading.{IsStill};
ghost use Rattle.mail_desk.specs.Timeline.{NotesText, body_of};
ghost use Rattle.desk_journal.specs.Records.{after_records, can_follow as follows, payloads_of, state};
ghost use Rattle.desk_journal.specs.Stored.{AreNoted, KeepsMarks, MarksLie, NotesTexts, TextsHeld, TextsStored};
ghost use Rattle.desk_journal.specs.Telling.{IsOnlyRead, IsPastRead};
ghost use Rattle.time_desk.specs.Auditing.{Judges, JudgesItem, LeadsUnread, LeavesUnread, SpellsNoRecord, false_or_behind, false_record, first_false as first_of};
ghost use Rattle.time_desk.specs.Standing.{IsFormed, SpellsNothing};

use crate::front::begin_at;
use crate::heads::SHORT;
use crate::standing::{can_follow, follow, length_at, snapshot_is_true, without_reads};
use crate::start::{record_at, revs_stay};
use crate::{Desk, StartFault};
use desk_journal::{Journal, Past};
use seal_log::{Place, Places, ReadFault};
use std::alloc::Global;
use undo_base::{NoMemory, after, before};
use undo_outside::Disk;
use verb_bytes::laws::{one_spelling, spelled_items_are_formed};
use verb_bytes::{JournalRecord, item_text_from};
use verb_core::{Item, Shown};

// ---- one record

/// What a fault tells of the record that was to be read: there is none, or the read failed.
fn none_there(fault: StartFault) -> Result<Option<JournalRecord>, ReadFault>
    ensures spelled { IfOk result (λ found. IfSome found HasSpelling) }
    ensures long { (n : ℕ) → IfOk result (λ found. IfSome found (λ what. n ≡ length (record_bytes what))) }
    ensures none { IfOk result (λ found. found ≡ None) }
    ensures nothing { (payload : List ℕ) (gate : ℕ) → SpellsNothing payload gate fault → IfOk result (λ found. SpellsNoRecord payload) }
    ensures ok { fault ≡ StartFault.Disk → OnOk result ⊥ }
    ensures disk { IsErrOf result ReadFault.Disk → fault ≡ StartFault.Disk }
    ensures no_memory { IsErrOf result ReadFault.NoMemory → fault ≡ StartFault.NoMemory }
{
    match fault {
        StartFault::Damaged { .. } => Ok(None),
        StartFault::NotFormatted => Ok(None),
        StartFault::Disk => Err(ReadFault::Disk),
        StartFault::NoMemory => Err(ReadFault::NoMemory),
    }
}

/// The record at a place, where its payload spells one.
fn record_there<D: Disk>(
    alloc: Global,
    past: &mut Past<D>,
    place: Place,
) -> Result<Option<JournalRecord>, ReadFault>
    requires place { place.gate + 5 + place.length ≤ past.old.end }
    ensures spelled { IfOk result (λ found. IfSome found HasSpelling) }
    ensures long { IfOk result (λ found. IfSome found (λ what. place.length ≡ length (record_bytes what))) }
    ensures read { (payloads : List (List ℕ)) (what : TheRecord) → Holds (D.told past.old.disk) payloads
        → LiesAt payloads place.gate place.length (record_bytes what) → HasSpelling what → IfOk result (λ found. found ≡ Some what) }
    ensures none { (payloads : List (List ℕ)) (payload : List ℕ) → Holds (D.told past.old.disk) payloads
        → LiesAt payloads place.gate place.length payload → SpellsNoRecord payload → IfOk result (λ found. found ≡ None) }
    ensures still { IsPastRead D.told past.old past.new }
    ensures cause { ReadAtCause (D.told past.old.disk) (D.told past.new.disk) result }
{
    one_spelling();
    match record_at(alloc, past, place) {
        Ok(what) => Ok(Some(what)),
        Err(fault) => none_there(fault),
    }
}

/// Whether an item shows what its deed showed.
fn shows(item: &Item, shown: &Shown) -> bool
    ensures same { result ≡ true → item.now.shown ≡ shown.now }
    ensures other { result ≡ false → item.now.shown ≡ shown.now → ⊥ }
{
    item.shown == *shown
}

/// Performs an item that can follow, and answers whether it shows what its deed shows.
fn enter_judged(
    alloc: Global,
    desk: &mut mail_desk::Desk,
    item: Item,
    place: Place,
    from: u32,
) -> Result<bool, NoMemory>
    requires formed { IsFormed item }
    requires follows { follows desk.old.kept item ≡ true }
    ensures judged { IfOk result (λ truth. JudgesItem desk.old.kept item truth desk.new.kept) }
    ensures noted { OnOk result (NotesText (text_in item.deed) (body_of item) place from desk.old.notes desk.new.notes) }
    ensures marks { OnOk result (desk.new.marks ≡ desk.old.marks) }
{
    match desk.ready_item(alloc, item) {
        Ok(ready) => {
            let (item, shown) = desk.enter_shown(ready, place, from);
            let same = shows(&item, &shown);
            drop(item);
            drop(shown);
            Ok(same)
        }
        Err(NoMemory) => Err(NoMemory),
    }
}

/// The same of a user's record that may not follow: such a one is not true.
fn judge_item(
    alloc: Global,
    desk: &mut mail_desk::Desk,
    end: u64,
    item: Item,
    place: Place,
) -> Result<bool, NoMemory>
    requires spelled { HasSpelling (Verb item) }
    requires place { place.gate + 5 + place.length ≤ end }
    requires long { place.length ≡ length (record_bytes (Verb item)) }
    ensures judged { IfOk result (λ truth. Judges desk.old.kept (Verb item) truth desk.new.kept) }
    ensures noted { IfOk result (λ truth. truth ≡ true → NotesTexts end place (record_bytes (Verb item)) desk.old desk.new) }
    ensures marked { IfOk result (λ truth. truth ≡ true → KeepsMarks end place (record_bytes (Verb item)) desk.old desk.new) }
{
    spelled_items_are_formed();
    desk.stands();
    if !can_follow(desk, &item) {
        drop(item);
        return Ok(false);
    }
    let _length = length_at(place);
    let from = item_text_from(&item);
    enter_judged(alloc, desk, item, place, from)
}

/// Performs a record, and answers whether it is true: one that can't stand is not.
fn judge_record<D: Disk>(
    alloc: Global,
    past: &mut Past<D>,
    desk: &mut mail_desk::Desk,
    what: JournalRecord,
    place: Place,
) -> Result<bool, ReadFault>
    requires spelled { HasSpelling what }
    requires noted { AreNoted past.old.end desk.old }
    requires place { place.gate + 5 + place.length ≤ past.old.end }
    requires long { place.length ≡ length (record_bytes what) }
    ensures judged { (payloads : List (List ℕ)) → TextsHeld (D.told past.old.disk) payloads desk.old.kept desk.old.notes desk.old.marks
        → IfOk result (λ truth. Judges desk.old.kept what truth desk.new.kept) }
    ensures texts { (payloads : List (List ℕ)) → TextsHeld (D.told past.old.disk) payloads desk.old.kept desk.old.notes desk.old.marks
        → LiesAt payloads place.gate place.length (record_bytes what)
        → IfOk result (λ truth. truth ≡ true → TextsStored payloads desk.new.notes desk.new.kept) }
    ensures marks { (payloads : List (List ℕ)) → TextsHeld (D.told past.old.disk) payloads desk.old.kept desk.old.notes desk.old.marks
        → LiesAt payloads place.gate place.length (record_bytes what)
        → IfOk result (λ truth. truth ≡ true → MarksLie payloads desk.new.kept desk.new.marks) }
    ensures noted { IfOk result (λ truth. truth ≡ true → AreNoted past.old.end desk.new) }
    ensures still { IsPastRead D.told past.old past.new }
    ensures cause { ReadAtCause (D.told past.old.disk) (D.told past.new.disk) result }
{
    match what {
        JournalRecord::Verb(item) => {
            without_reads(judge_item(alloc, desk, past.end(), item, place))
        }
        JournalRecord::Snapshot { items, conf, rows } => {
            without_reads(snapshot_is_true(alloc, desk, past.end(), items, conf, rows, place))
        }
        other => follow(alloc, past, desk, other, place),
    }
}

/// The same, and what the disk holds of the texts behind it.
fn judged<D: Disk>(
    alloc: Global,
    past: &mut Past<D>,
    desk: &mut mail_desk::Desk,
    what: JournalRecord,
    place: Place,
) -> Result<bool, ReadFault>
    requires spelled { HasSpelling what }
    requires noted { AreNoted past.old.end desk.old }
    requires place { place.gate + 5 + place.length ≤ past.old.end }
    requires long { place.length ≡ length (record_bytes what) }
    ensures judged { (payloads : List (List ℕ)) → TextsHeld (D.told past.old.disk) payloads desk.old.kept desk.old.notes desk.old.marks
        → IfOk result (λ truth. Judges desk.old.kept what truth desk.new.kept) }
    ensures texts { (payloads : List (List ℕ)) → TextsHeld (D.told past.old.disk) payloads desk.old.kept desk.old.notes desk.old.marks
        → LiesAt payloads place.gate place.length (record_bytes what)
        → IfOk result (λ truth. truth ≡ true → TextsHeld (D.told past.new.disk) payloads desk.new.kept desk.new.notes desk.new.marks) }
    ensures noted { IfOk result (λ truth. truth ≡ true → AreNoted past.old.end desk.new) }
    ensures still { IsPastRead D.told past.old past.new }
    ensures cause { ReadAtCause (D.told past.old.disk) (D.told past.new.disk) result }
{
    revs_stay(desk);
    judge_record(alloc, past, desk, what, place)
}

/// The same of the record at a place: one that decodes no more is not true.
fn judge<D: Disk>(
    alloc: Global,
    past: &mut Past<D>,
    desk: &mut mail_desk::Desk,
    place: Place,
) -> Result<bool, ReadFault>
    requires noted { AreNoted past.old.end desk.old }
    requires place { place.gate + 5 + place.length ≤ past.old.end }
    ensures judged { (payloads : List (List ℕ)) (what : TheRecord) → TextsHeld (D.told past.old.disk) payloads desk.old.kept desk.old.notes desk.old.marks
        → LiesAt payloads place.gate place.length (record_bytes what) → HasSpelling what → IfOk result (λ truth. Judges desk.old.kept what truth desk.new.kept) }
    ensures texts { (payloads : List (List ℕ)) (what : TheRecord) → TextsHeld (D.told past.old.disk) payloads desk.old.kept desk.old.notes desk.old.marks
        → LiesAt payloads place.gate place.length (record_bytes what) → HasSpelling what
        → IfOk result (λ truth. truth ≡ true → TextsHeld (D.told past.new.disk) payloads desk.new.kept desk.new.notes desk.new.marks) }
    ensures unread { (payloads : List (List ℕ)) (payload : List ℕ) → Holds (D.told past.old.disk) payloads
        → LiesAt payloads place.gate place.length payload → SpellsNoRecord payload → IfOk result (λ truth. truth ≡ false) }
    ensures noted { IfOk result (λ truth. truth ≡ true → AreNoted past.old.end desk.new) }
    ensures still { IsPastRead D.told past.old past.new }
    ensures cause { ReadAtCause (D.told past.old.disk) (D.told past.new.disk) result }
{
    match record_there(alloc, past, place) {
        Ok(Some(what)) => judged(alloc, past, desk, what, place),
        Ok(None) => Ok(false),
        Err(fault) => Err(fault),
    }
}

// ---- all of them

/// The gate of the first of the records at places that is not true of what is kept before it.
fn first_false<D: Disk>(
    alloc: Global,
    past: &mut Past<D>,
    desk: &mut mail_desk::Desk,
    places: &[Place],
) -> Result<Option<u64>, ReadFault>
    requires places { All (λ place. place.gate + 5 + place.length ≤ past.old.end) places.now }
    requires noted { AreNoted past.old.end desk.old }
    ensures found { (before : List (List ℕ)) (records : List TheRecord) (kept : Kept) → TextsHeld (D.told past.old.disk) (before ++ payloads_of records) desk.old.kept desk.old.notes desk.old.marks
        → places.now ≡ places_from (length (sealed before)) (payloads_of records) → after_records desk.old.kept records ≡ Some kept
        → IfOk result (λ found. found ≡ first_of desk.old.kept (length (sealed before)) records) }
    ensures unread { (before payloads : List (List ℕ)) (records : List TheRecord) → TextsHeld (D.told past.old.disk) (before ++ payloads) desk.old.kept desk.old.notes desk.old.marks
        → places.now ≡ places_from (length (sealed before)) payloads → LeadsUnread desk.old.kept payloads records
        → IfOk result (λ found. found ≡ option_or (first_of desk.old.kept (length (sealed before)) records) (Some (length (sealed (before ++ payloads_of records))))) }
    ensures still { IsPastRead D.told past.old past.new }
    ensures cause { ReadAtCause (D.told past.old.disk) (D.told past.new.disk) result }
{
    for place in places {
        match judge(alloc, past, desk, *place) {
            Ok(true) => {}
            Ok(false) => return Ok(Some(place.gate)),
            Err(fault) => return Err(fault),
        }
    }
    Ok(None)
}

/// Reads the long records at places whole.
fn read_each<D: Disk>(alloc: Global, past: &mut Past<D>, places: &[Place]) -> Result<(), ReadFault>
    requires places { All (λ place. place.gate + 5 + place.length ≤ past.old.end) places.now }
    ensures still { IsPastRead D.told past.old past.new }
    ensures cause { ReadAtCause (D.told past.old.disk) (D.told past.new.disk) result }
{
    for place in places {
        if place.length > SHORT {
            let _payload = past.read(alloc, *place, 0, place.length)?;
        }
    }
    Ok(())
}

/// What an audit found behind the front, whose long records are read whole where it found nothing.
fn with_front<D: Disk>(
    alloc: Global,
    past: &mut Past<D>,
    front: &[Place],
    found: Result<Option<u64>, ReadFault>,
) -> Result<Option<u64>, ReadFault>
    requires places { All (λ place. place.gate + 5 + place.length ≤ past.old.end) front.now }
    ensures same { IfOk result (λ gate. found ≡ Ok gate) }
    ensures still { IsPastRead D.told past.old past.new }
    ensures read { IfOk found (λ gate. ReadAtCause (D.told past.old.disk) (D.told past.new.disk) result) }
    ensures fault { IfErr found (λ fault. (result ≡ Err fault) × (past.new ≡ past.old)) }
{
    match found {
        Ok(None) => match read_each(alloc, past, front) {
            Ok(()) => Ok(None),
            Err(fault) => Err(fault),
        },
        Ok(Some(gate)) => Ok(Some(gate)),
        Err(fault) => Err(fault),
    }
}

/// The same of the records at all places of a journal, those behind its front: one at least. The front is read whole.
fn first_false_of<D: Disk>(
    alloc: Global,
    past: &mut Past<D>,
    places: &[Place],
) -> Result<Option<u64>, ReadFault>
    requires some { 0 < length places.now }
    requires places { All (λ place. place.gate + 5 + place.length ≤ past.old.end) places.now }
    ensures found { (records : List TheRecord) (kept : Kept) → state records ≡ Some kept → Holds (D.told past.old.disk) (payloads_of records)
        → places.now ≡ places_from 0 (payloads_of records) → IfOk result (λ found. found ≡ false_record records) }
    ensures unread { (payloads : List (List ℕ)) (records : List TheRecord) → LeavesUnread payloads records → Holds (D.told past.old.disk) payloads
        → places.now ≡ places_from 0 payloads → IfOk result (λ found. found ≡ false_or_behind records) }
    ensures still { IsPastRead D.told past.old past.new }
    ensures cause { ReadAtCause (D.told past.old.disk) (D.told past.new.disk) result }
{
    one_spelling();
    match begin_at(alloc, past, places, false) {
        Ok((desk, count)) => {
            let mut desk = desk;
            let others = after(places, count);
            let found = first_false(alloc, past, &mut desk, others);
            drop(desk);
            with_front(alloc, past, before(places, count), found)
        }
        Err(StartFault::Damaged { place }) => Ok(Some(place)),
        Err(StartFault::NotFormatted) => Ok(Some(0)),
        Err(StartFault::Disk) => Err(ReadFault::Disk),
        Err(StartFault::NoMemory) => Err(ReadFault::NoMemory),
    }
}

/// The place of the payload behind a gate before the end of the journal, where all of it lies before the end.
fn place_at<D: Disk>(past: &mut Past<D>, gate: u64) -> Result<Option<Place>, ReadFault>
    requires { gate ≤ past.old.end }
    ensures place { (payloads : List (List ℕ)) (count : ℕ) (payload : List ℕ) → Holds (D.told past.old.disk) payloads → LiesAt payloads gate count payload
        → count < 2 ^ 32 → gate + 5 + count ≤ past.old.end → IfOk result (λ found. found ≡ Some (record { gate = gate; length = count })) }
    ensures within { IfOk result (λ found. IfSome found (λ place. (place.gate ≡ gate) × (place.gate + 5 + place.length ≤ past.old.end))) }
    ensures still { IsPastRead D.told past.old past.new }
    ensures cause { ReadAtCause (D.told past.old.disk) (D.told past.new.disk) result }
{
    if past.end() - gate < 5 {
        return Ok(None);
    }
    past.place_at(gate)
}

/// The places of the payloads of a journal, one behind the other, and the gate behind them: the last, or one that is not there any more.
fn places_of<D: Disk>(alloc: Global, past: &mut Past<D>) -> Result<(Places, u64), ReadFault>
    ensures found { (payloads : List (List ℕ)) → Holds (D.told past.old.disk) payloads → AllByRecursion IsPayload payloads → past.old.end ≡ length (sealed payloads)
        → IfOk result (λ found. (found.0 ≡ places_from 0 payloads) × (found.1 ≡ past.old.end)) }
    ensures places { IfOk result (λ found. All (λ place. place.gate + 5 + place.length ≤ past.old.end) found.0) }
    ensures still { IsPastRead D.told past.old past.new }
    ensures cause { ReadAtCause (D.told past.old.disk) (D.told past.new.disk) result }
{
    let mut places = Places::new(alloc);
    let mut gate = 0;
    while gate < past.end() {
        match place_at(past, gate)? {
            Some(place) => {
                places.push(place)?;
                gate += 5 + u64::from(place.length);
            }
            None => return Ok((places, gate)),
        }
    }
    Ok((places, gate))
}

/// The gate of the first record of a journal that is not true.
fn audit_past<D: Disk>(alloc: Global, past: &mut Past<D>) -> Result<Option<u64>, ReadFault>
    ensures told { (records : List TheRecord) (kept : Kept) → state records ≡ Some kept → Holds (D.told past.old.disk) (payloads_of records)
        → AllByRecursion IsPayload (payloads_of records) → past.old.end ≡ length (sealed (payloads_of records)) → IfOk result (λ found. found ≡ false_record records) }
    ensures unread { (payloads : List (List ℕ)) (records : List TheRecord) → LeavesUnread payloads records → Holds (D.told past.old.disk) payloads
        → AllByRecursion IsPayload payloads → past.old.end ≡ length (sealed payloads) → IfOk result (λ found. found ≡ false_or_behind records) }
    ensures still { IsPastRead D.told past.old past.new }
    ensures cause { ReadAtCause (D.told past.old.disk) (D.told past.new.disk) result }
{
    let (places, gate) = places_of(alloc, past)?;
    if places.is_empty() {
        return Ok(Some(gate));
    }
    match first_false_of(alloc, past, places.as_slice())? {
        Some(place) => Ok(Some(place)),
        None => Ok(if gate < past.end() { Some(gate) } else { None }),
    }
}

impl<D: Disk> Desk<D> {
    /// The gate of the first record of the journal that is not true of what was kept before it. That is a user's whose item shows
    /// another answer than its deed has, or a snapshot of another store. None where each is true. What the journal opens with is taken
    /// as given. One that decodes no more counts as not true. At `Disk` a read failed. It takes the memory of another desk. In time that
    /// grows as that of opening the journal.
    pub fn audit(&mut self, alloc: Global) -> Result<Option<u64>, ReadFault>
        ensures told { (records : List TheRecord) (kept : Kept) → state records ≡ Some kept → Holds (D.told self.old.disk) (payloads_of records)
            → AllByRecursion IsPayload (payloads_of records) → self.old.gate ≡ length (sealed (payloads_of records)) → IfOk result (λ found. found ≡ false_record records) }
        // One that decodes no more, where what lies there is not what was read when the desk was opened.
        ensures unread { (payloads : List (List ℕ)) (records : List TheRecord) → LeavesUnread payloads records → Holds (D.told self.old.disk) payloads
            → AllByRecursion IsPayload payloads → self.old.gate ≡ length (sealed payloads) → IfOk result (λ found. found ≡ false_or_behind records) }
        ensures cause { ReadAtCause (D.told self.old.disk) (D.told self.new.disk) result }
        ensures still { IsStill D.told self.old self.new }
    {
        audit_past(alloc, &mut self.journal.past)
    }
}
