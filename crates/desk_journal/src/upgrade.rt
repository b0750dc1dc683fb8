//! The upgrade of a store: from its record on names may have superiors.
//!
//! An upgrade raises no count of items, and draws no number: it can be done behind the last number. Whether a store is deep is in
//! no snapshot and no digest, so `check` tells the same before and after. A second Upgrade record can't stand, and is told as
//! damage at its gate.
//!
//! An Upgrade record behind a Base that is deep can't stand, as a second one can't.
ghost use Rattle.std.specs.Prelude.{◌≡◌, false, OnOk, IfErr, OnErr, IsErrOf};
ghost use Rattle.seal_log.specs.Causes.{SealWants};
ghost use Rattle.store_kept.specs.Kept.{upgraded};
ghost use Rattle.desk_journal.specs.Lasting.{lasting};
ghost use Rattle.desk_journal.specs.Stored.{MarkedBefore, TextsNoted};
ghost use Rattle.desk_journal.specs.Submitting.{SealsBytes, Upgrades, UpgradesNone};

use crate::on_disk::Journal;
use crate::spelling::upgrade_bytes;
use seal_log::SealFault;
use std::alloc::Global;
use undo_base::{NoMemory, Text};
use undo_outside::Disk;

/// Seals the record of an upgrade, and then upgrades the desk.
fn seal_upgrade<D: Disk>(
    alloc: Global,
    journal: &mut Journal<D>,
    desk: &mut mail_desk::Desk,
    bytes: &Text,
) -> Result<(), SealFault>
    requires { journal.old.closed ≡ false }
    ensures sealed { SealsBytes D.told bytes.now journal.old journal.new result }
    ensures kept { OnOk result (desk.new.kept ≡ upgraded desk.old.kept) }
    ensures notes { desk.new.notes ≡ desk.old.notes }
    ensures marks { desk.new.marks ≡ desk.old.marks }
    ensures same { OnErr result (desk.new.kept ≡ desk.old.kept) }
{
    match journal.seal(alloc, bytes) {
        Ok(()) => {
            desk.upgrade();
            Ok(())
        }
        Err(fault) => Err(fault),
    }
}

/// Upgrades a desk that is not closed and was not upgraded before. A moment that no record can have finds no memory.
pub fn upgrade_open<D: Disk>(
    alloc: Global,
    journal: &mut Journal<D>,
    desk: &mut mail_desk::Desk,
    at: u64,
) -> Result<(), SealFault>
    requires open { journal.old.closed ≡ false }
    requires flat { desk.old.kept.deep ≡ false }
    ensures ok { OnOk result (Upgrades D.told at (lasting desk.old journal.old) (lasting desk.new journal.new)) }
    ensures kept { OnOk result (desk.new.kept ≡ upgraded desk.old.kept) }
    ensures noted { TextsNoted journal.old.gate desk.old.notes desk.old.kept → TextsNoted journal.new.gate desk.new.notes desk.new.kept }
    ensures marked { MarkedBefore journal.old.gate desk.old.marks → MarkedBefore journal.new.gate desk.new.marks }
    ensures err { OnErr result (desk.new.kept ≡ desk.old.kept) }
    ensures notes { desk.new.notes ≡ desk.old.notes }
    ensures marks { desk.new.marks ≡ desk.old.marks }
    ensures why { IfErr result (λ fault. UpgradesNone D.told at (lasting desk.old journal.old) (lasting desk.new journal.new) fault) }
    ensures reads { (D.told journal.new.disk).failed_reads ≡ (D.told journal.old.disk).failed_reads }
    ensures wants { SealWants D.told journal.old.disk journal.new.disk result }
    ensures not_closed { IsErrOf result SealFault.Closed → ⊥ }
{
    match upgrade_bytes(alloc, at) {
        Ok(bytes) => match seal_upgrade(alloc, journal, desk, &bytes) {
            Ok(()) => Ok(()),
            Err(fault) => Err(fault),
        },
        Err(NoMemory) => Err(SealFault::NoMemory),
    }
}
