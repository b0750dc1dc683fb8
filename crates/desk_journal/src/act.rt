//! What the operator does.
ghost use Rattle.std.specs.Prelude.{◌≡◌, ◌<◌, ℕ, List, [], ◌∷◌, Some, false, IsTrue, IfOk, OnOk, IfErr, OnErr, IsErrOf};
ghost use Rattle.std.specs.List.{list_all};
ghost use Rattle.verb_core.specs.Deeds.{act_item};
ghost use Rattle.verb_core.specs.declared.item.Deed.TheVariants.{Act as Acts};
ghost use Rattle.verb_core.specs.Items.{text_in, users_in};
ghost use Rattle.verb_core.specs.Store.{is_known};
ghost use Rattle.verb_bytes.specs.declared.journal.JournalRecord.TheVariants.{Operator};
ghost use Rattle.verb_bytes.specs.Places.{IsTextAt};
ghost use Rattle.seal_log.specs.Causes.{FindsMemory};
ghost use Rattle.store_kept.specs.Kept.{performed};
ghost use Rattle.mail_desk.specs.Entering.{CanEnter};
ghost use Rattle.desk_journal.specs.Lasting.{lasting};
ghost use Rattle.desk_journal.specs.Sealing.{IsRecordOf, Seals};
ghost use Rattle.desk_journal.specs.Stored.{MarkedBefore, TextsNoted};
ghost use Rattle.desk_journal.specs.Submitting.{ActWants, ActsNone, IsActOutcomeOf};
ghost use Rattle.desk_journal.specs.declared.fault.ActFault.TheVariants as act_faults;

use crate::ActFault;
use crate::on_disk::Journal;
use crate::seal::{Found, seal_ready};
use crate::spelling::act_bytes;
use seal_log::SealFault;
use std::alloc::Global;
use undo_base::{END_OF_NUMBERS, LAST_NUMBER, NoMemory};
use undo_outside::Disk;
use verb_bytes::act_text_from;
use verb_core::{Act, Deed, Item, Shown};

/// The item of an act.
pub fn item_of(number: u32, at: u64, act: Act) -> Item
    ensures { result ≡ act_item number at act }
{
    Item {
        number,
        at,
        by: None,
        rev: 0,
        deed: Deed::Act(act),
        shown: Shown::Nothing,
    }
}

/// The number of the next item, where one is left.
fn next_number(desk: &mail_desk::Desk) -> Result<u32, ActFault>
    ensures ok { IfOk result (λ number. (number ≡ desk.now.kept.next) × (number < END_OF_NUMBERS)) }
    ensures err { IfErr result (λ fault. (fault ≡ act_faults.Numbers desk.now.kept.next) × (desk.now.kept.next ≡ END_OF_NUMBERS)) }
{
    desk.stands();
    let next = desk.next();
    if next <= LAST_NUMBER {
        Ok(next)
    } else {
        Err(ActFault::Numbers { next })
    }
}

/// Makes all room for an act, and the bytes of its record.
fn ready_act(
    alloc: Global,
    desk: &mut mail_desk::Desk,
    at: u64,
    act: Act,
) -> Result<Found, NoMemory>
    requires known { IsTrue (list_all (is_known desk.old.kept.house) (users_in (Acts act))) }
    requires left { desk.old.kept.next < END_OF_NUMBERS }
    ensures kept { desk.new.kept ≡ desk.old.kept }
    ensures notes { desk.new.notes ≡ desk.old.notes }
    ensures marks { desk.new.marks ≡ desk.old.marks }
    ensures item { IfOk result (λ found. found.ready.item ≡ act_item desk.old.kept.next at act) }
    ensures ready { IfOk result (λ found. CanEnter found.ready desk.new) }
    ensures lies { IfOk result (λ found. (text : List ℕ) → text_in (Acts act) ≡ Some text → IsTextAt found.bytes found.from text) }
    ensures record { IfOk result (λ found. IsRecordOf (Operator desk.old.kept.next at act) found.bytes desk.old.kept (act_item desk.old.kept.next at act)) }
{
    let number = desk.next();
    let from = act_text_from(&act);
    let bytes = match act_bytes(alloc, number, at, &act) {
        Ok(bytes) => bytes,
        Err(NoMemory) => {
            drop(act);
            return Err(NoMemory);
        }
    };
    let ready = desk.ready_item(alloc, item_of(number, at, act))?;
    Ok(Found { ready, bytes, from })
}

/// Why an act was not done.
fn fault_of(fault: SealFault) -> ActFault
    requires { fault ≡ SealFault.Closed → ⊥ }
    ensures { IsActOutcomeOf fault result }
{
    match fault {
        SealFault::Disk => ActFault::Disk,
        SealFault::NoMemory => ActFault::NoMemory,
        SealFault::Closed => ActFault::Closed,
    }
}

/// Does an act on a desk that is not closed.
pub fn act_open<D: Disk>(
    alloc: Global,
    journal: &mut Journal<D>,
    desk: &mut mail_desk::Desk,
    at: u64,
    act: Act,
) -> Result<u32, ActFault>
    requires open { journal.old.closed ≡ false }
    requires known { IsTrue (list_all (is_known desk.old.kept.house) (users_in (Acts act))) }
    ensures number { IfOk result (λ number. number ≡ desk.old.kept.next) }
    ensures ok { OnOk result (Seals D.told (Operator desk.old.kept.next at act ∷ []) [] (lasting desk.old journal.old) (lasting desk.new journal.new)) }
    ensures performed { OnOk result (desk.new.kept ≡ performed desk.old.kept (act_item desk.old.kept.next at act)) }
    ensures noted { TextsNoted journal.old.gate desk.old.notes desk.old.kept → TextsNoted journal.new.gate desk.new.notes desk.new.kept }
    ensures marked { MarkedBefore journal.old.gate desk.old.marks → MarkedBefore journal.new.gate desk.new.marks }
    ensures err { IfErr result (λ fault. ActsNone D.told at act (lasting desk.old journal.old) (lasting desk.new journal.new) fault) }
    ensures same { OnErr result (desk.new.kept ≡ desk.old.kept) }
    ensures notes { OnErr result (desk.new.notes ≡ desk.old.notes) }
    ensures marks { OnErr result (desk.new.marks ≡ desk.old.marks) }
    ensures reads { (D.told journal.new.disk).failed_reads ≡ (D.told journal.old.disk).failed_reads }
    ensures finds_memory { OnOk result (FindsMemory (D.told journal.old.disk) (D.told journal.new.disk)) }
    ensures wants { IfErr result (λ fault. ActWants D.told journal.old.disk journal.new.disk fault) }
    ensures not_closed { IsErrOf result ActFault.Closed → ⊥ }
{
    desk.stands();
    let number = match next_number(desk) {
        Ok(number) => number,
        Err(fault) => {
            drop(act);
            return Err(fault);
        }
    };
    match ready_act(alloc, desk, at, act) {
        Ok(found) => match seal_ready(alloc, journal, desk, found) {
            Ok(item) => {
                drop(item);
                Ok(number)
            }
            Err(fault) => Err(fault_of(fault)),
        },
        Err(NoMemory) => Err(ActFault::NoMemory),
    }
}
