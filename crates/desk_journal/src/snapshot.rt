//! What the operator keeps of a moment: the store as it is, in a record of the journal, from which a later cycle can begin.
//!
//! POST /snapshot takes one at any time, also where nothing came since the last one. A desk that has counted as many as 64 bits
//! hold finds no memory for one more.
ghost use Rattle.std.specs.Prelude.{◌≡◌, false, length, IsTrue, IfOk, OnOk, IfErr, OnErr, IsErrOf};
ghost use Rattle.verb_bytes.specs.Spelling.{record_bytes};
ghost use Rattle.seal_log.specs.Causes.{SealWants};
ghost use Rattle.shelf.specs.Marks.{with_mark};
ghost use Rattle.store_kept.specs.Kept.{snapshotted};
ghost use Rattle.mail_desk.specs.Held.{CanMark};
ghost use Rattle.desk_journal.specs.Lasting.{lasting};
ghost use Rattle.desk_journal.specs.Records.{is_spelled, snapshot_record};
ghost use Rattle.desk_journal.specs.Stored.{MarkedBefore, TextsNoted};
ghost use Rattle.desk_journal.specs.Submitting.{SealsBytes, Snapshots, SnapshotsNone};

use crate::on_disk::Journal;
use box_store::rows_make_valid_stores;
use seal_log::SealFault;
use std::alloc::Global;
use store_digest::snapshot_text;
use undo_base::{NoMemory, Text};
use undo_outside::Disk;

/// Makes room for a snapshot, and the bytes of its record.
fn ready_snapshot(alloc: Global, desk: &mut mail_desk::Desk) -> Result<Text, NoMemory>
    ensures kept { desk.new.kept ≡ desk.old.kept }
    ensures notes { desk.new.notes ≡ desk.old.notes }
    ensures marks { desk.new.marks ≡ desk.old.marks }
    ensures ready { OnOk result (CanMark desk.new) }
    ensures bytes { IfOk result (λ bytes. bytes ≡ record_bytes (snapshot_record desk.old.kept)) }
    ensures spelled { OnOk result (IsTrue (is_spelled (snapshot_record desk.old.kept))) }
{
    desk.ready_mark()?;
    let items = desk.counts().items;
    snapshot_text(alloc, desk.store(), items)
}

/// Seals a snapshot for which all is ready, and then marks where it lies.
fn seal_snapshot<D: Disk>(
    alloc: Global,
    journal: &mut Journal<D>,
    desk: &mut mail_desk::Desk,
    bytes: &Text,
) -> Result<(), SealFault>
    requires open { journal.old.closed ≡ false }
    requires ready { CanMark desk.old }
    ensures sealed { SealsBytes D.told bytes.now journal.old journal.new result }
    ensures kept { OnOk result (desk.new.kept ≡ snapshotted desk.old.kept) }
    ensures notes { OnOk result (desk.new.notes ≡ desk.old.notes) }
    ensures marks { OnOk result (desk.new.marks ≡ with_mark (length desk.old.kept.timeline) (record { gate = journal.old.gate; length = length bytes.now }) desk.old.marks) }
    ensures same { OnErr result (desk.new ≡ desk.old) }
{
    let place = journal.next_place(bytes);
    match journal.seal(alloc, bytes) {
        Ok(()) => {
            desk.mark(place);
            Ok(())
        }
        Err(fault) => Err(fault),
    }
}

/// Takes a snapshot of a desk that is not closed.
pub fn snapshot_open<D: Disk>(
    alloc: Global,
    journal: &mut Journal<D>,
    desk: &mut mail_desk::Desk,
) -> Result<(), SealFault>
    requires open { journal.old.closed ≡ false }
    ensures ok { OnOk result (Snapshots D.told (lasting desk.old journal.old) (lasting desk.new journal.new) (length desk.old.kept.timeline)) }
    ensures noted { TextsNoted journal.old.gate desk.old.notes desk.old.kept → TextsNoted journal.new.gate desk.new.notes desk.new.kept }
    ensures marked { MarkedBefore journal.old.gate desk.old.marks → MarkedBefore journal.new.gate desk.new.marks }
    ensures err { OnErr result (desk.new.kept ≡ desk.old.kept) }
    ensures notes { OnErr result (desk.new.notes ≡ desk.old.notes) }
    ensures marks { OnErr result (desk.new.marks ≡ desk.old.marks) }
    ensures why { IfErr result (λ fault. SnapshotsNone D.told (lasting desk.old journal.old) (lasting desk.new journal.new) fault) }
    ensures reads { (D.told journal.new.disk).failed_reads ≡ (D.told journal.old.disk).failed_reads }
    ensures wants { SealWants D.told journal.old.disk journal.new.disk result }
    ensures not_closed { IsErrOf result SealFault.Closed → ⊥ }
{
    desk.stands();
    rows_make_valid_stores();
    match ready_snapshot(alloc, desk) {
        Ok(bytes) => match seal_snapshot(alloc, journal, desk, &bytes) {
            Ok(()) => Ok(()),
            Err(fault) => Err(fault),
        },
        Err(NoMemory) => Err(SealFault::NoMemory),
    }
}
