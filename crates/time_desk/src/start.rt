//! A desk from the journal on a disk.
//!
//! `start` tells the earliest place that is wrong: a record that can't stand before a frame that is cut behind it. A refusal
//! hands the disk back as it was.
ghost use Rattle.std.specs.Prelude.{◌≡◌, ◌<◌, ◌≤◌, ◌+◌, ◌++◌, [], ℕ, List, true, false, Some, None, Ok, Err, OnOk, IfOk, IfErr, length};
ghost use Rattle.std.specs.List.{All};
ghost use Rattle.verb_bytes.specs.declared.journal.JournalRecord.{JournalRecord as TheRecord};
ghost use Rattle.verb_bytes.specs.Spelling.{HasSpelling, Spells, record_bytes};
ghost use Rattle.seal_log.specs.Journal.{sealed, LiesAt};
ghost use Rattle.seal_log.specs.Loading.{places_from};
ghost use Rattle.seal_log.specs.Loads.{IsSurveyed};
ghost use Rattle.seal_log.specs.Log.{end_gate, is_cut, last_gate, leaves_open};
ghost use Rattle.seal_log.specs.Settled.{Holds, ReadsAlone};
ghost use Rattle.store_kept.specs.Coming.{HasUndoneTexts};
ghost use Rattle.store_kept.specs.Kept.{IsRun, Kept, store_of};
ghost use Rattle.desk_journal.specs.Permanence.{RevsBelow};
ghost use Rattle.time_desk.specs.Heads.{IsHead, headed};
ghost use Rattle.time_desk.specs.Opening.{IsStarted, Refuses, Starts};
ghost use Rattle.desk_journal.specs.Records.{after_record};
ghost use Rattle.time_desk.specs.Standing.{BreaksFor, Fails, FailsReading, LeadsTo, PerformsAt, ReadCounts, SpellsAll, SpellsNothing, StopsFor};
ghost use Rattle.desk_journal.specs.Stored.{AreNoted, HoldsTexts, SettledTexts, TextsHeld};
ghost use Rattle.desk_journal.specs.Telling.{IsPastRead};

use crate::front::begin_at;
use crate::heads::{HeadOf, head_at};
use crate::lying::follow_head;
use crate::permanence::records_let_uids_last;
use crate::standing::follow;
use crate::{Desk, StartFault};
use desk_journal::{Journal, Past};
use seal_log::{End, LoadFault, Log, Place, Survey, survey};
use std::alloc::Global;
use undo_base::{NoMemory, Text, after};
use undo_outside::Disk;
use verb_bytes::laws::one_spelling;
use verb_bytes::{BadBytes, JournalRecord, decode_record};

// ---- one payload

/// The record that a payload spells; where it spells none its gate is told.
fn decoded(alloc: Global, payload: &Text, gate: u64) -> Result<JournalRecord, StartFault>
    ensures spelled { IfOk result HasSpelling }
    ensures read { IfOk result (λ what. Spells what payload.now) }
    ensures bad { IfErr result (Fails ((what : TheRecord) → Spells what payload.now → ⊥) gate) }
{
    match decode_record(alloc, payload.bytes()) {
        Ok(what) => Ok(what),
        Err(BadBytes::Place { .. }) => Err(StartFault::Damaged { place: gate }),
        Err(BadBytes::NoMemory) => Err(StartFault::NoMemory),
    }
}

/// The record that the payload of a place spells, of the place's length. On no disk has it another, so none is told of.
fn decoded_at(alloc: Global, payload: &Text, place: Place) -> Result<JournalRecord, StartFault>
    ensures spelled { IfOk result HasSpelling }
    ensures long { IfOk result (λ what. place.length ≡ length (record_bytes what)) }
    ensures read { IfOk result (λ what. Spells what payload.now) }
    ensures bad { IfErr result (Fails ((what : TheRecord) → Spells what payload.now → ⊥) place.gate) }
{
    if payload.bytes().len() as u32 != place.length {
        return Err(StartFault::NoMemory);
    }
    decoded(alloc, payload, place.gate)
}

/// The record at a place.
pub(crate) fn record_at<D: Disk>(
    alloc: Global,
    past: &mut Past<D>,
    place: Place,
) -> Result<JournalRecord, StartFault>
    requires place { place.gate + 5 + place.length ≤ past.old.end }
    ensures spelled { IfOk result HasSpelling }
    ensures long { IfOk result (λ what. place.length ≡ length (record_bytes what)) }
    ensures read { (payloads : List (List ℕ)) (payload : List ℕ) → Holds (D.told past.old.disk) payloads
        → LiesAt payloads place.gate place.length payload → IfOk result (λ what. Spells what payload) }
    ensures bad { (payloads : List (List ℕ)) (payload : List ℕ) → Holds (D.told past.old.disk) payloads
        → LiesAt payloads place.gate place.length payload → IfErr result (SpellsNothing payload place.gate) }
    ensures still { IsPastRead D.told past.old past.new }
    ensures ok { OnOk result ((D.told past.new.disk).failed_reads ≡ (D.told past.old.disk).failed_reads) }
    ensures fault { IfErr result (ReadCounts (D.told past.old.disk) (D.told past.new.disk)) }
{
    let payload = past.read(alloc, place, 0, place.length)?;
    decoded_at(alloc, &payload, place)
}

/// Revs stay below the next number when records are performed, texts that can come back still can, and the store stays what the
/// items leave.
pub(crate) fn revs_stay(desk: &mail_desk::Desk)
    ensures revs { (what : TheRecord) (next : Kept) → IsRun desk.now.kept → RevsBelow desk.now.kept → HasUndoneTexts desk.now.kept → after_record desk.now.kept what ≡ Some next → RevsBelow next }
    ensures back { (what : TheRecord) (next : Kept) → IsRun desk.now.kept → RevsBelow desk.now.kept → HasUndoneTexts desk.now.kept → after_record desk.now.kept what ≡ Some next → HasUndoneTexts next }
    ensures runs { (what : TheRecord) (next : Kept) → IsRun desk.now.kept → after_record desk.now.kept what ≡ Some next → IsRun next }
{
    desk.stands();
    records_let_uids_last();
}

/// Performs a record; where it can't stand its gate is told.
fn performed<D: Disk>(
    alloc: Global,
    past: &mut Past<D>,
    desk: &mut mail_desk::Desk,
    what: JournalRecord,
    place: Place,
) -> Result<(), StartFault>
    requires spelled { HasSpelling what }
    requires noted { AreNoted past.old.end desk.old }
    requires place { place.gate + 5 + place.length ≤ past.old.end }
    requires long { place.length ≡ length (record_bytes what) }
    ensures next { (payloads : List (List ℕ)) → TextsHeld (D.told past.old.disk) payloads desk.old.kept desk.old.notes desk.old.marks
        → OnOk result (after_record desk.old.kept what ≡ Some desk.new.kept) }
    ensures bad { (payloads : List (List ℕ)) → TextsHeld (D.told past.old.disk) payloads desk.old.kept desk.old.notes desk.old.marks
        → IfErr result (FailsReading (after_record desk.old.kept what ≡ None) place.gate) }
    ensures texts { (payloads : List (List ℕ)) → TextsHeld (D.told past.old.disk) payloads desk.old.kept desk.old.notes desk.old.marks
        → LiesAt payloads place.gate place.length (record_bytes what)
        → OnOk result (TextsHeld (D.told past.new.disk) payloads desk.new.kept desk.new.notes desk.new.marks) }
    ensures noted { OnOk result (AreNoted past.old.end desk.new) }
    ensures still { IsPastRead D.told past.old past.new }
    ensures ok { OnOk result ((D.told past.new.disk).failed_reads ≡ (D.told past.old.disk).failed_reads) }
    ensures fault { IfErr result (ReadCounts (D.told past.old.disk) (D.told past.new.disk)) }
{
    revs_stay(desk);
    let stood = follow(alloc, past, desk, what, place)?;
    if stood {
        return Ok(());
    }
    Err(StartFault::Damaged { place: place.gate })
}

/// Reads the whole record at a place, and performs it.
fn perform_whole<D: Disk>(
    alloc: Global,
    past: &mut Past<D>,
    place: Place,
    desk: &mut mail_desk::Desk,
) -> Result<(), StartFault>
    requires noted { AreNoted past.old.end desk.old }
    requires place { place.gate + 5 + place.length ≤ past.old.end }
    ensures { PerformsAt D.told place past.old past.new desk.old desk.new result }
{
    one_spelling();
    match record_at(alloc, past, place) {
        Ok(what) => performed(alloc, past, desk, what, place),
        Err(fault) => Err(fault),
    }
}

/// Performs a record whose text is not read; where it can't stand its gate is told.
fn performed_head<D: Disk>(
    alloc: Global,
    past: &Past<D>,
    desk: &mut mail_desk::Desk,
    head: HeadOf,
    place: Place,
) -> Result<(), StartFault>
    requires head { IsHead head }
    requires noted { AreNoted past.now.end desk.old }
    requires place { place.gate + 5 + place.length ≤ past.now.end }
    requires long { place.length ≡ length (record_bytes (headed head)) }
    requires unfiltered { (store_of desk.old.kept).conf.filters ≡ [] }
    ensures next { OnOk result (after_record desk.old.kept (headed head) ≡ Some desk.new.kept) }
    ensures bad { IfErr result (Fails (after_record desk.old.kept (headed head) ≡ None) place.gate) }
    ensures texts { (payloads : List (List ℕ)) → TextsHeld (D.told past.now.disk) payloads desk.old.kept desk.old.notes desk.old.marks
        → LiesAt payloads place.gate place.length (record_bytes (headed head))
        → OnOk result (TextsHeld (D.told past.now.disk) payloads desk.new.kept desk.new.notes desk.new.marks) }
    ensures noted { OnOk result (AreNoted past.now.end desk.new) }
{
    revs_stay(desk);
    match follow_head(alloc, desk, past.end(), head, place) {
        Ok(stood) => {
            if stood {
                return Ok(());
            }
            Err(StartFault::Damaged { place: place.gate })
        }
        Err(NoMemory) => Err(StartFault::NoMemory),
    }
}

/// Reads the record at a place but for its text, where that can be done, and performs it; no filter looks at the text.
fn perform_unfiltered<D: Disk>(
    alloc: Global,
    past: &mut Past<D>,
    place: Place,
    desk: &mut mail_desk::Desk,
) -> Result<(), StartFault>
    requires noted { AreNoted past.old.end desk.old }
    requires unfiltered { (store_of desk.old.kept).conf.filters ≡ [] }
    requires place { place.gate + 5 + place.length ≤ past.old.end }
    ensures { PerformsAt D.told place past.old past.new desk.old desk.new result }
{
    one_spelling();
    match head_at(alloc, past, place) {
        Ok(Some(head)) => performed_head(alloc, past, desk, head, place),
        Ok(None) => perform_whole(alloc, past, place, desk),
        Err(fault) => Err(fault),
    }
}

/// Reads the record at a place, and performs it.
fn perform_at<D: Disk>(
    alloc: Global,
    past: &mut Past<D>,
    place: Place,
    desk: &mut mail_desk::Desk,
) -> Result<(), StartFault>
    requires noted { AreNoted past.old.end desk.old }
    requires place { place.gate + 5 + place.length ≤ past.old.end }
    ensures { PerformsAt D.told place past.old past.new desk.old desk.new result }
{
    if desk.conf().filters.is_empty() {
        perform_unfiltered(alloc, past, place, desk)
    } else {
        perform_whole(alloc, past, place, desk)
    }
}

// ---- all of them

/// Reads the records at places, and performs one after the other, up to the first that can't stand.
fn perform_all<D: Disk>(
    alloc: Global,
    past: &mut Past<D>,
    places: &[Place],
    desk: &mut mail_desk::Desk,
) -> Result<(), StartFault>
    requires places { All (λ place. place.gate + 5 + place.length ≤ past.old.end) places.now }
    requires noted { AreNoted past.old.end desk.old }
    ensures performed { (before payloads : List (List ℕ)) → TextsHeld (D.told past.old.disk) (before ++ payloads) desk.old.kept desk.old.notes desk.old.marks
        → places.now ≡ places_from (length (sealed before)) payloads → OnOk result (LeadsTo desk.old.kept payloads desk.new.kept) }
    ensures texts { (before payloads : List (List ℕ)) → TextsHeld (D.told past.old.disk) (before ++ payloads) desk.old.kept desk.old.notes desk.old.marks
        → places.now ≡ places_from (length (sealed before)) payloads
        → OnOk result (TextsHeld (D.told past.new.disk) (before ++ payloads) desk.new.kept desk.new.notes desk.new.marks) }
    ensures noted { OnOk result (AreNoted past.old.end desk.new) }
    ensures bad { (before payloads : List (List ℕ)) → TextsHeld (D.told past.old.disk) (before ++ payloads) desk.old.kept desk.old.notes desk.old.marks
        → places.now ≡ places_from (length (sealed before)) payloads
        → IfErr result (StopsFor desk.old.kept (length (sealed before)) payloads) }
    ensures still { IsPastRead D.told past.old past.new }
    ensures ok { OnOk result ((D.told past.new.disk).failed_reads ≡ (D.told past.old.disk).failed_reads) }
    ensures fault { IfErr result (ReadCounts (D.told past.old.disk) (D.told past.new.disk)) }
{
    for place in places {
        match perform_at(alloc, past, *place, desk) {
            Ok(()) => {}
            Err(fault) => return Err(fault),
        }
    }
    Ok(())
}

/// The desk, with the records at more places performed.
fn followed_by<D: Disk>(
    alloc: Global,
    past: &mut Past<D>,
    places: &[Place],
    desk: mail_desk::Desk,
) -> Result<mail_desk::Desk, StartFault>
    requires places { All (λ place. place.gate + 5 + place.length ≤ past.old.end) places.now }
    requires noted { AreNoted past.old.end desk }
    ensures performed { (before payloads : List (List ℕ)) → TextsHeld (D.told past.old.disk) (before ++ payloads) desk.kept desk.notes desk.marks
        → places.now ≡ places_from (length (sealed before)) payloads → IfOk result (λ led. LeadsTo desk.kept payloads led.kept) }
    ensures texts { (before payloads : List (List ℕ)) → TextsHeld (D.told past.old.disk) (before ++ payloads) desk.kept desk.notes desk.marks
        → places.now ≡ places_from (length (sealed before)) payloads
        → IfOk result (λ led. TextsHeld (D.told past.new.disk) (before ++ payloads) led.kept led.notes led.marks) }
    ensures noted { IfOk result (AreNoted past.old.end) }
    ensures bad { (before payloads : List (List ℕ)) → TextsHeld (D.told past.old.disk) (before ++ payloads) desk.kept desk.notes desk.marks
        → places.now ≡ places_from (length (sealed before)) payloads
        → IfErr result (StopsFor desk.kept (length (sealed before)) payloads) }
    ensures still { IsPastRead D.told past.old past.new }
    ensures ok { OnOk result ((D.told past.new.disk).failed_reads ≡ (D.told past.old.disk).failed_reads) }
    ensures fault { IfErr result (ReadCounts (D.told past.old.disk) (D.told past.new.disk)) }
{
    let mut desk = desk;
    match perform_all(alloc, past, places, &mut desk) {
        Ok(()) => Ok(desk),
        Err(fault) => {
            drop(desk);
            Err(fault)
        }
    }
}

/// The desk that the records at all places of a journal leave. Behind the last place stands a frame that is cut, or none.
fn read_all<D: Disk>(
    alloc: Global,
    past: &mut Past<D>,
    places: &[Place],
    cut: bool,
) -> Result<mail_desk::Desk, StartFault>
    requires some { 0 < length places.now }
    requires places { All (λ place. place.gate + 5 + place.length ≤ past.old.end) places.now }
    ensures read { (payloads : List (List ℕ)) → Holds (D.told past.old.disk) payloads → places.now ≡ places_from 0 payloads
        → IfOk result (λ desk. SpellsAll payloads desk.kept) }
    ensures texts { (payloads : List (List ℕ)) → Holds (D.told past.old.disk) payloads → places.now ≡ places_from 0 payloads
        → IfOk result (λ desk. TextsHeld (D.told past.new.disk) payloads desk.kept desk.notes desk.marks) }
    ensures noted { IfOk result (AreNoted past.old.end) }
    ensures bad { (payloads : List (List ℕ)) → Holds (D.told past.old.disk) payloads → places.now ≡ places_from 0 payloads
        → IfErr result (BreaksFor cut past.old.end payloads) }
    ensures still { IsPastRead D.told past.old past.new }
    ensures ok { OnOk result ((D.told past.new.disk).failed_reads ≡ (D.told past.old.disk).failed_reads) }
    ensures fault { IfErr result (ReadCounts (D.told past.old.disk) (D.told past.new.disk)) }
{
    match begin_at(alloc, past, places, cut) {
        Ok((desk, count)) => followed_by(alloc, past, after(places, count), desk),
        Err(fault) => Err(fault),
    }
}

// ---- the desk

/// Whether a frame that is cut stands behind the payloads of a journal.
fn ends_cut(end: &End) -> bool
    ensures { result ≡ is_cut end.now }
{
    match end {
        End::Whole(_) => false,
        End::Cut { .. } => true,
    }
}

/// The log behind the payloads of a journal; where a cut frame stands behind them its gate is told.
fn log_of(end: End) -> Result<Log, StartFault>
    ensures whole { IfOk result (λ log. (is_cut end ≡ false) × (last_gate log ≡ end_gate end)) }
    ensures open { IfOk result (λ log. leaves_open end ≡ true → log.closed ≡ false) }
    ensures cut { IfErr result (Fails (is_cut end ≡ true) (end_gate end)) }
{
    match end {
        End::Whole(log) => Ok(log),
        End::Cut { gate } => Err(StartFault::Damaged { place: gate }),
    }
}

/// The same beside the desk that the records leave.
fn ended(end: End, desk: mail_desk::Desk) -> Result<(Log, mail_desk::Desk), StartFault>
    ensures whole { IfOk result (λ parts. (is_cut end ≡ false) × (last_gate parts.0 ≡ end_gate end) × (parts.1 ≡ desk)) }
    ensures open { IfOk result (λ parts. leaves_open end ≡ true → parts.0.closed ≡ false) }
    ensures cut { IfErr result (Fails (is_cut end ≡ true) (end_gate end)) }
{
    match log_of(end) {
        Ok(log) => Ok((log, desk)),
        Err(fault) => {
            drop(desk);
            Err(fault)
        }
    }
}

/// The same of what was seen of a journal.
fn opened_from<D: Disk>(
    alloc: Global,
    past: &mut Past<D>,
    seen: Survey,
) -> Result<(Log, mail_desk::Desk), StartFault>
    requires end { end_gate seen.end ≡ past.old.end }
    requires places { All (λ place. place.gate + 5 + place.length ≤ past.old.end) seen.places }
    requires open { leaves_open seen.end ≡ true }
    ensures found { (image : List ℕ) → IsSurveyed image (D.told past.old.disk) (end_gate seen.end) seen.places (is_cut seen.end)
        → IfOk result (λ parts. IsStarted image (D.told past.new.disk) parts.1.kept (last_gate parts.0)) }
    ensures texts { (image : List ℕ) → IsSurveyed image (D.told past.old.disk) (end_gate seen.end) seen.places (is_cut seen.end)
        → IfOk result (λ parts. SettledTexts (D.told past.new.disk) (last_gate parts.0) parts.1.kept parts.1.notes parts.1.marks) }
    ensures noted { IfOk result (λ parts. AreNoted (last_gate parts.0) parts.1) }
    ensures bad { (image : List ℕ) → IsSurveyed image (D.told past.old.disk) (end_gate seen.end) seen.places (is_cut seen.end)
        → IfErr result (Refuses image) }
    ensures still { IsPastRead D.told past.old past.new }
    ensures ok { OnOk result ((D.told past.new.disk).failed_reads ≡ (D.told past.old.disk).failed_reads) }
    ensures fault { IfErr result (ReadCounts (D.told past.old.disk) (D.told past.new.disk)) }
    ensures open { IfOk result (λ parts. parts.0.closed ≡ false) }
    ensures gate { IfOk result (λ parts. last_gate parts.0 ≡ past.old.end) }
{
    let Survey { places, end } = seen;
    if places.is_empty() {
        return Err(StartFault::Damaged { place: end.gate() });
    }
    match read_all(alloc, past, places.as_slice(), ends_cut(&end)) {
        Ok(desk) => ended(end, desk),
        Err(fault) => {
            drop(end);
            Err(fault)
        }
    }
}

/// The desk that the records of a journal leave, of which this was seen.
fn opened<D: Disk>(alloc: Global, disk: D, seen: Survey) -> Result<Desk<D>, (D, StartFault)>
    requires end { end_gate seen.end < (D.told disk).size }
    requires places { All (λ place. place.gate + 5 + place.length ≤ end_gate seen.end) seen.places }
    requires open { leaves_open seen.end ≡ true }
    ensures found { (image : List ℕ) → IsSurveyed image (D.told disk) (end_gate seen.end) seen.places (is_cut seen.end)
        → IfOk result (λ desk. IsStarted image (D.told desk.disk) desk.kept desk.gate) }
    ensures texts { (image : List ℕ) → IsSurveyed image (D.told disk) (end_gate seen.end) seen.places (is_cut seen.end)
        → IfOk result (λ desk. SettledTexts (D.told desk.disk) desk.gate desk.kept desk.notes desk.marks) }
    ensures bad { (image : List ℕ) → IsSurveyed image (D.told disk) (end_gate seen.end) seen.places (is_cut seen.end)
        → IfErr result (λ refused. Refuses image refused.1) }
    ensures reads { IfOk result (λ desk. ReadsAlone (D.told disk) (D.told desk.disk)) }
    ensures read { IfErr result (λ refused. ReadsAlone (D.told disk) (D.told refused.0)) }
    ensures ok { IfOk result (λ desk. (D.told desk.disk).failed_reads ≡ (D.told disk).failed_reads) }
    ensures fault { IfErr result (λ refused. ReadCounts (D.told disk) (D.told refused.0) refused.1) }
    ensures open { IfOk result (λ desk. desk.closed ≡ false) }
{
    let mut past = Past::at(disk, seen.end.gate());
    match opened_from(alloc, &mut past, seen) {
        Ok((log, desk)) => Ok(Desk {
            journal: Journal::at(past.into_disk(), log),
            desk,
        }),
        Err(fault) => Err((past.into_disk(), fault)),
    }
}

impl<D: Disk> Desk<D> {
    /// The desk that the journal on a disk leaves. It writes nothing, and a refusal hands the disk back.
    pub fn start(alloc: Global, disk: D) -> Result<Desk<D>, (D, StartFault)>
        ensures started { IfOk result (λ desk. Starts (D.told disk) (D.told desk.disk) (Ok (desk.kept, desk.gate))) }
        ensures texts { (D.told disk).honest → IfOk result (HoldsTexts D.told) }
        ensures refused { IfErr result (λ refused. Starts (D.told disk) (D.told refused.0) (Err refused.1)) }
        ensures open { IfOk result (λ desk. desk.closed ≡ false) }
    {
        let mut disk = disk;
        match survey(alloc, &mut disk) {
            Ok(seen) => opened(alloc, disk, seen),
            Err(LoadFault::NotFormatted) => Err((disk, StartFault::NotFormatted)),
            Err(LoadFault::Damaged { place }) => Err((disk, StartFault::Damaged { place })),
            Err(LoadFault::Disk) => Err((disk, StartFault::Disk)),
            Err(LoadFault::NoMemory) => Err((disk, StartFault::NoMemory)),
        }
    }
}
