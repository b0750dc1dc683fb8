//! One record, sealed, and its item then entered.
//!
//! The records of a run are what `Seals` names, in order, and the one whose sealing failed, if one did. That one could stand too,
//! so opening finds the journal with it or without it.
ghost use Rattle.std.specs.Prelude.{◌≡◌, ◌+◌, ℕ, List, length, Some, false, IfOk, OnOk, OnErr};
ghost use Rattle.verb_core.specs.Items.{text_in};
ghost use Rattle.verb_bytes.specs.Places.{IsTextAt};
ghost use Rattle.store_kept.specs.Kept.{performed};
ghost use Rattle.mail_desk.specs.Entering.{CanEnter};
ghost use Rattle.desk_journal.specs.Stored.{NotesTexts};
ghost use Rattle.desk_journal.specs.Submitting.{SealsBytes};

use crate::on_disk::Journal;
use mail_desk::{Desk, Ready};
use seal_log::SealFault;
use std::alloc::Global;
use undo_base::Text;
use undo_outside::Disk;
use verb_core::Item;

/// An item that can be entered, the bytes of its record, and how far behind their front its text lies.
#[derive(Drop)]
pub struct Found {
    pub ready: Ready,
    pub bytes: Text,
    pub from: u32,
}

/// Seals the record of an item for which all is ready, and then enters the item, and gives it back.
pub fn seal_ready<D: Disk>(
    alloc: Global,
    journal: &mut Journal<D>,
    desk: &mut Desk,
    found: Found,
) -> Result<Item, SealFault>
    requires open { journal.old.closed ≡ false }
    requires ready { CanEnter found.ready desk.old }
    requires lies { (text : List ℕ) → text_in found.ready.item.deed ≡ Some text → IsTextAt found.bytes found.from text }
    ensures sealed { SealsBytes D.told found.bytes journal.old journal.new result }
    ensures item { IfOk result (λ item. item ≡ found.ready.item) }
    ensures performed { OnOk result (desk.new.kept ≡ performed desk.old.kept found.ready.item) }
    ensures noted { OnOk result (NotesTexts (journal.old.gate + 5 + length found.bytes) (record { gate = journal.old.gate; length = length found.bytes }) found.bytes desk.old desk.new) }
    ensures marks { OnOk result (desk.new.marks ≡ desk.old.marks) }
    ensures same { OnErr result (desk.new ≡ desk.old) }
{
    desk.stands();
    let Found { ready, bytes, from } = found;
    let place = journal.next_place(&bytes);
    match journal.seal(alloc, &bytes) {
        Ok(()) => Ok(desk.enter(ready, place, from)),
        Err(fault) => {
            drop(ready);
            Err(fault)
        }
    }
}
