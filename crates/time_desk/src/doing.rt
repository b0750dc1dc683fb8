//! What the operator asks of the past, done: a repair in memory, whose record is sealed, and which is put in place.
ghost use Rattle.std.specs.Prelude.{◌≡◌, ◌≤◌, ℕ, false, None, length, IsTrue, IfOk, OnOk, IfErr, OnErr};
ghost use Rattle.seal_log.specs.Causes.{FindsMemory};
ghost use Rattle.seal_log.specs.Settled.{ReadsAlone};
ghost use Rattle.verb_bytes.specs.Spelling.{record_bytes};
ghost use Rattle.shelf.specs.Marks.{marks_at_or_before};
ghost use Rattle.store_kept.specs.Kept.{report_of};
ghost use Rattle.mail_cycle.specs.Leaving.{items_left};
ghost use Rattle.mail_desk.specs.Remaking.{CanReplace, remade_as};
ghost use Rattle.time_desk.specs.Cycling.{CanBeUndone, CycleWants, IsFit, after_rewound, asked_then};
ghost use Rattle.time_desk.specs.Replaying.{ToldOr};
ghost use Rattle.time_desk.specs.Requests.{Answered, Does, DoesNot, IsKnown, IsMadeFor, NotesFor, key_of, reads_of, record_of, undoes_of};
ghost use Rattle.desk_journal.specs.Lasting.{lasting};
ghost use Rattle.desk_journal.specs.Records.{is_spelled};
ghost use Rattle.desk_journal.specs.Stored.{AreNoted, HoldsTexts, Renotes};
ghost use Rattle.desk_journal.specs.Submitting.{SealsBytes};

use crate::CycleFault;
use crate::redo::{remade, rework};
use crate::request::{NewRecord, Request, spelled};
use box_store::Steps;
use desk_journal::Journal;
use mail_cycle::Rewound;
use mail_desk::{Desk, Remade};
use paradox::Report;
use seal_log::SealFault;
use std::alloc::Global;
use std::sync::ledger::Ledger;
use std::thread::Threads;
use undo_base::{Copies, LAST_MOMENT, NoMemory, Text};
use undo_outside::{Disk, Gate};

/// What a repair leaves, ready to be put in place, a copy of its report, and the bytes of its record.
#[derive(Drop)]
struct Found {
    remade: Remade,
    report: Report,
    bytes: Text,
}

/// Makes what a repair leaves ready, where it can be withdrawn and where it can't, for the record that is to be sealed.
fn ready_as(
    alloc: Global,
    desk: &mut Desk,
    undoes: bool,
    made: Rewound,
    what: NewRecord,
) -> Result<Found, NoMemory>
    requires fit { IsFit desk.old.kept made }
    requires undone { CanBeUndone desk.old.kept undoes made }
    ensures kept { desk.new.kept ≡ desk.old.kept }
    ensures same { desk.new.notes ≡ desk.old.notes }
    ensures same_marks { desk.new.marks ≡ desk.old.marks }
    ensures made { IfOk result (λ found. remade_as desk.old.kept found.remade ≡ after_rewound desk.old.kept what.key undoes made) }
    ensures report { IfOk result (λ found. found.report ≡ made.report) }
    ensures notes { IfOk result (λ found. Renotes desk.old.notes what.fresh desk.old.kept.texts (asked_then desk.old.kept undoes made) found.remade.shelf.notes) }
    ensures place { IfOk result (λ found. found.remade.left.place ≡ made.place) }
    ensures ready { IfOk result (λ found. CanReplace found.remade desk.new) }
    ensures bytes { IfOk result (λ found. found.bytes ≡ what.bytes) }
{
    let NewRecord { key, bytes, fresh } = what;
    let remade = remade(alloc, desk, key, undoes, made, &fresh);
    drop(fresh);
    match remade {
        Ok(remade) => match remade.report().copy(alloc) {
            Ok(report) => Ok(Found {
                remade,
                report,
                bytes,
            }),
            Err(NoMemory) => {
                drop(remade);
                drop(bytes);
                Err(NoMemory)
            }
        },
        Err(NoMemory) => {
            drop(bytes);
            Err(NoMemory)
        }
    }
}

/// Makes what a repair leaves ready, and the bytes of its record, which is to lie behind the last gate of a journal.
fn ready<D: Disk>(
    alloc: Global,
    journal: &Journal<D>,
    desk: &mut Desk,
    at: u64,
    asked: &Request<'_>,
    made: Rewound,
) -> Result<Found, NoMemory>
    requires fit { IsFit desk.old.kept made }
    requires undone { CanBeUndone desk.old.kept (undoes_of asked.now) made }
    ensures kept { desk.new.kept ≡ desk.old.kept }
    ensures same { desk.new.notes ≡ desk.old.notes }
    ensures same_marks { desk.new.marks ≡ desk.old.marks }
    ensures made { IfOk result (λ found. remade_as desk.old.kept found.remade ≡ after_rewound desk.old.kept (key_of asked.now) (undoes_of asked.now) made) }
    ensures report { IfOk result (λ found. found.report ≡ made.report) }
    ensures notes { IfOk result (λ found. NotesFor desk.old at asked.now (record { gate = journal.now.gate; length = length found.bytes }) made found.remade.shelf.notes) }
    ensures place { IfOk result (λ found. found.remade.left.place ≡ made.place) }
    ensures ready { IfOk result (λ found. CanReplace found.remade desk.new) }
    ensures bytes { IfOk result (λ found. found.bytes ≡ record_bytes (record_of desk.old.kept.next at asked.now)) }
    ensures spelled { OnOk result (IsTrue (is_spelled (record_of desk.old.kept.next at asked.now))) }
{
    match spelled(alloc, journal, desk, at, asked) {
        Ok(what) => ready_as(alloc, desk, asked.undoes(), made, what),
        Err(NoMemory) => {
            drop(made);
            Err(NoMemory)
        }
    }
}

/// Seals a record for which all is ready, then puts what it leaves in place, and gives the report.
fn seal_found<D: Disk>(
    alloc: Global,
    journal: &mut Journal<D>,
    desk: &mut Desk,
    found: Found,
) -> Result<Report, SealFault>
    requires open { journal.old.closed ≡ false }
    requires ready { CanReplace found.remade desk.old }
    ensures report { IfOk result (λ report. report ≡ found.report) }
    ensures sealed { SealsBytes D.told found.bytes journal.old journal.new result }
    ensures kept { OnOk result (desk.new.kept ≡ remade_as desk.old.kept found.remade) }
    ensures notes { OnOk result (desk.new.notes ≡ found.remade.shelf.notes) }
    ensures marks { OnOk result (desk.new.marks ≡ marks_at_or_before found.remade.left.place desk.old.marks) }
    ensures same { OnErr result (desk.new ≡ desk.old) }
{
    let Found {
        remade,
        report,
        bytes,
    } = found;
    match journal.seal(alloc, &bytes) {
        Ok(()) => {
            desk.replace(remade);
            Ok(report)
        }
        Err(fault) => {
            drop(remade);
            drop(report);
            Err(fault)
        }
    }
}

/// Seals what a repair leaves that is due to a request, and puts it in place.
fn put<D: Disk>(
    alloc: Global,
    journal: &mut Journal<D>,
    desk: &mut Desk,
    at: u64,
    asked: &Request<'_>,
    made: Rewound,
) -> Result<Report, CycleFault>
    requires open { journal.old.closed ≡ false }
    requires known { IsKnown desk.old.kept asked.now }
    requires anew { report_of desk.old.kept.reports (key_of asked.now) ≡ None }
    requires fit { IsFit desk.old.kept made }
    requires undone { CanBeUndone desk.old.kept (undoes_of asked.now) made }
    requires noted { AreNoted journal.old.gate desk.old }
    ensures done { (disk : D) → ReadsAlone (D.told disk) (D.told journal.old.disk)
        → IsMadeFor desk.old.kept at asked.now (ToldOr (HoldsTexts D.told (lasting desk.old (record journal.old { disk = disk }))) (reads_of desk.old.kept at asked.now)) made
        → IfOk result (λ report. Does D.told at asked.now (lasting desk.old (record journal.old { disk = disk })) (lasting desk.new journal.new) report) }
    ensures noted { IsMadeFor desk.old.kept at asked.now ⊥ made → AreNoted journal.new.gate desk.new }
    ensures timeline { OnOk result (desk.new.kept.timeline ≡ items_left desk.old.kept.timeline made) }
    ensures err { OnErr result (desk.new.kept ≡ desk.old.kept) }
    ensures notes { OnErr result (desk.new.notes ≡ desk.old.notes) }
    ensures marks { OnErr result (desk.new.marks ≡ desk.old.marks) }
    ensures reads { (D.told journal.new.disk).failed_reads ≡ (D.told journal.old.disk).failed_reads }
    ensures finds_memory { OnOk result (FindsMemory (D.told journal.old.disk) (D.told journal.new.disk)) }
    ensures wants { IfErr result (λ fault. CycleWants D.told journal.old.disk journal.new.disk fault) }
    ensures why { (disk : D) → ReadsAlone (D.told disk) (D.told journal.old.disk) → (D.told journal.old.disk).failed_reads ≡ (D.told disk).failed_reads
        → IsMadeFor desk.old.kept at asked.now (ToldOr (HoldsTexts D.told (lasting desk.old (record journal.old { disk = disk }))) (reads_of desk.old.kept at asked.now)) made
        → IfErr result (λ fault. DoesNot D.told at asked.now (lasting desk.old (record journal.old { disk = disk })) (lasting desk.new journal.new) fault) }
{
    desk.stands();
    match ready(alloc, journal, desk, at, asked, made) {
        Ok(found) => match seal_found(alloc, journal, desk, found) {
            Ok(report) => Ok(report),
            Err(fault) => Err(CycleFault::from(fault)),
        },
        Err(NoMemory) => Err(CycleFault::NoMemory),
    }
}

/// Does what is asked at a moment. A key that an earlier request had is answered with that one's report. Else a repair is worked out
/// beside the desk, its one record is sealed, and what it leaves takes the place of what was kept.
pub(crate) fn does<R: Threads + Sync, G: Gate, D: Disk, L: Ledger>(
    rt: &R,
    alloc: Global,
    journal: &mut Journal<D>,
    desk: &mut Desk,
    at: u64,
    asked: &Request<'_>,
    gate: &G,
    steps: &mut Steps<L>,
) -> Result<Report, CycleFault>
    requires moment { at ≤ LAST_MOMENT }
    requires known { IsKnown desk.old.kept asked.now }
    requires noted { AreNoted journal.old.gate desk.old }
    ensures answered { Answered D.told at asked.now (lasting desk.old journal.old) (lasting desk.new journal.new) steps.old steps.new result }
    ensures noted { AreNoted journal.new.gate desk.new }
{
    desk.stands();
    if let Some(report) = desk.report(asked.key()) {
        let copy = report.copy(alloc)?;
        return Ok(copy);
    }
    if journal.is_closed() {
        return Err(CycleFault::Closed);
    }
    let made = rework(rt, alloc, journal, desk, at, asked, gate, steps)?;
    put(alloc, journal, desk, at, asked, made)
}
