//! What users ask.
ghost use Rattle.std.specs.Prelude.{◌≡◌, ◌↔◌, ℕ, List, [], ◌∷◌, Ok, Some, false, IsTrue, IsSome, IfOk, OnOk, IfErr, OnErr, IsErrOf};
ghost use Rattle.std.specs.List.{list_all, cons_option};
ghost use Rattle.verb_core.specs.Live.{is_users, live};
ghost use Rattle.verb_core.specs.Store.{is_known};
ghost use Rattle.box_store.specs.Refusing.{IsRefusal};
ghost use Rattle.seal_log.specs.Causes.{FindsMemory};
ghost use Rattle.verb_bytes.specs.declared.journal.JournalRecord.TheVariants.{Verb};
ghost use Rattle.verb_core.specs.Items.{text_in};
ghost use Rattle.verb_bytes.specs.Places.{IsTextAt};
ghost use Rattle.store_kept.specs.Kept.{store_of};
ghost use Rattle.mail_desk.specs.Desk.{submitted};
ghost use Rattle.mail_desk.specs.Entering.{CanEnter};
ghost use Rattle.desk_journal.specs.Lasting.{lasting};
ghost use Rattle.desk_journal.specs.Sealing.{IsRecordOf, Seals};
ghost use Rattle.desk_journal.specs.Stored.{MarkedBefore, TextsNoted};
ghost use Rattle.desk_journal.specs.Submitting.{IsOutcomeOf, SubmitWants, SubmitsNone, WritesNone};

use crate::on_disk::Journal;
use crate::seal::{Found, seal_ready};
use crate::spelling::written;
use seal_log::SealFault;
use std::alloc::Global;
use undo_base::{NoMemory, User};
use undo_outside::Disk;
use verb_bytes::{item_text_from, spell_item};
use verb_core::{Ask, Item, Refused, SubmitFault};

/// Finds what is asked for at a moment, and makes all room for it and the bytes of its record.
fn find(
    alloc: Global,
    desk: &mut mail_desk::Desk,
    at: u64,
    by: Option<User>,
    ask: Ask,
) -> Result<Found, Refused>
    requires by { IsSome by ↔ IsTrue (is_users ask) }
    requires known { IsTrue (list_all (is_known desk.old.kept.house) (cons_option by [])) }
    ensures kept { desk.new.kept ≡ desk.old.kept }
    ensures notes { desk.new.notes ≡ desk.old.notes }
    ensures marks { desk.new.marks ≡ desk.old.marks }
    ensures item { IfOk result (λ found. live (store_of desk.old.kept) desk.old.kept.next at by ask desk.old.kept.deep ≡ Ok found.ready.item) }
    ensures ready { IfOk result (λ found. CanEnter found.ready desk.new) }
    ensures lies { IfOk result (λ found. (text : List ℕ) → text_in found.ready.item.deed ≡ Some text → IsTextAt found.bytes found.from text) }
    ensures record { IfOk result (λ found. IsRecordOf (Verb found.ready.item) found.bytes desk.old.kept found.ready.item) }
    ensures refused { IfErr result (λ refused. IsRefusal refused (live (store_of desk.old.kept) desk.old.kept.next at by ask desk.old.kept.deep)) }
{
    let ready = desk.ready(alloc, at, by, ask)?;
    let item = ready.item();
    let from = item_text_from(item);
    match written(spell_item(alloc, item)) {
        Ok(bytes) => Ok(Found { ready, bytes, from }),
        Err(NoMemory) => {
            drop(ready);
            Err(Refused::NoMemory)
        }
    }
}

/// Why an item was not submitted.
fn fault_of(fault: SealFault) -> SubmitFault
    requires { fault ≡ SealFault.Closed → ⊥ }
    ensures { IsOutcomeOf fault result }
{
    match fault {
        SealFault::Disk => SubmitFault::Disk,
        SealFault::NoMemory => SubmitFault::Refused(Refused::NoMemory),
        SealFault::Closed => SubmitFault::Closed,
    }
}

/// Asks for something of a desk that is not closed.
pub fn submit_open<D: Disk>(
    alloc: Global,
    journal: &mut Journal<D>,
    desk: &mut mail_desk::Desk,
    at: u64,
    by: Option<User>,
    ask: Ask,
) -> Result<Item, SubmitFault>
    requires by { IsSome by ↔ IsTrue (is_users ask) }
    requires known { IsTrue (list_all (is_known desk.old.kept.house) (cons_option by [])) }
    requires open { journal.old.closed ≡ false }
    ensures ok { IfOk result (λ item. submitted desk.old.kept at by ask ≡ record { outcome = Ok item; kept = desk.new.kept }) }
    ensures sealed { IfOk result (λ item. Seals D.told (Verb item ∷ []) [] (lasting desk.old journal.old) (lasting desk.new journal.new)) }
    ensures noted { TextsNoted journal.old.gate desk.old.notes desk.old.kept → TextsNoted journal.new.gate desk.new.notes desk.new.kept }
    ensures marked { MarkedBefore journal.old.gate desk.old.marks → MarkedBefore journal.new.gate desk.new.marks }
    ensures err { OnErr result (desk.new.kept ≡ desk.old.kept) }
    ensures notes { OnErr result (desk.new.notes ≡ desk.old.notes) }
    ensures marks { OnErr result (desk.new.marks ≡ desk.old.marks) }
    ensures why { IfErr result (λ fault. SubmitsNone D.told (live (store_of desk.old.kept) desk.old.kept.next at by ask desk.old.kept.deep)
        (lasting desk.old journal.old) (lasting desk.new journal.new) fault) }
    ensures writes_none { WritesNone result (lasting desk.old journal.old) (lasting desk.new journal.new) }
    ensures reads { (D.told journal.new.disk).failed_reads ≡ (D.told journal.old.disk).failed_reads }
    ensures finds_memory { OnOk result (FindsMemory (D.told journal.old.disk) (D.told journal.new.disk)) }
    ensures wants { IfErr result (λ fault. SubmitWants D.told journal.old.disk journal.new.disk fault) }
    ensures not_closed { IsErrOf result SubmitFault.Closed → ⊥ }
{
    desk.stands();
    match find(alloc, desk, at, by, ask) {
        Ok(found) => match seal_ready(alloc, journal, desk, found) {
            Ok(item) => Ok(item),
            Err(fault) => Err(fault_of(fault)),
        },
        Err(refused) => Err(SubmitFault::Refused(refused)),
    }
}
