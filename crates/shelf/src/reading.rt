//! The texts of bodies, read where they lie.
ghost use Rattle.std.specs.Prelude.{◌≡◌, ◌<◌, ◌+◌, List, ℕ, Some, IfOk, slice_range};
ghost use Rattle.seal_log.specs.Causes.{ReadAtCause};
ghost use Rattle.seal_log.specs.Journal.{LiesAt};
ghost use Rattle.seal_log.specs.Log.{last_gate};
ghost use Rattle.seal_log.specs.Settled.{Holds, IsSettled, ReadsAlone};
ghost use Rattle.shelf.specs.declared.note.Note.{Note as TheNote};
ghost use Rattle.shelf.specs.Notes.{note_of, IsNotedBefore, noted_text};

use crate::Shelf;
use seal_log::{Log, ReadFault};
use std::alloc::Global;
use undo_base::Text;
use undo_outside::Disk;
use verb_core::Body;

impl Shelf {
    /// Reads the text of a body that was noted, in a payload of that log.
    pub fn text<D: Disk>(
        &self,
        alloc: Global,
        log: &Log,
        disk: &mut D,
        body: Body,
    ) -> Result<Text, ReadFault>
        requires noted { IsNotedBefore (last_gate log.now) (note_of self.now.notes body) }
        requires end { last_gate log.now < (D.told disk.old).size }

        ensures bytes { (D.told disk.old).honest → (note : TheNote) → note_of self.now.notes body ≡ Some note → IfOk result (λ text.
            text ≡ slice_range (D.told disk.old).content (note.place.gate + 5 + note.from) (note.place.gate + 5 + note.from + note.length)) }
        ensures payload { (payloads : List (List ℕ)) (payload : List ℕ) (note : TheNote) → note_of self.now.notes body ≡ Some note
            → Holds (D.told disk.old) payloads → LiesAt payloads note.place.gate note.place.length payload
            → IfOk result (λ text. text ≡ noted_text note payload) }
        ensures cause { ReadAtCause (D.told disk.old) (D.told disk.new) result }

        ensures settled { (gate : ℕ) (payloads : List (List ℕ)) → IsSettled (D.told disk.old) gate payloads
            → IsSettled (D.told disk.new) gate payloads }
        ensures held { (payloads : List (List ℕ)) → Holds (D.told disk.old) payloads → Holds (D.told disk.new) payloads }
        ensures only_reads { ReadsAlone (D.told disk.old) (D.told disk.new) }
    {
        match self.find(body) {
            Some(note) => log.read_at(alloc, disk, note.place, note.from, note.length),
            None => unreachable!(),
        }
    }
}
