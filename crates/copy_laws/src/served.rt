//! Copies of a store that is served. These functions do nothing: their contracts are laws of the definitions.
ghost use Rattle.std.specs.Prelude.{◌≡◌, ◌⊎◌, ◌++◌, ◌∷◌, ℕ, List, Ok, Err, Some};
ghost use Rattle.seal_log.specs.Settled.{IsSettled};
ghost use Rattle.verb_bytes.specs.declared.journal.JournalRecord.{JournalRecord};
ghost use Rattle.store_kept.specs.Kept.{Kept};
ghost use Rattle.desk_journal.specs.Crashing.{LeavesFront};
ghost use Rattle.desk_journal.specs.Lasting.{Lasting};
ghost use Rattle.desk_journal.specs.Records.{payloads_of, state};
ghost use Rattle.desk_journal.specs.Sealing.{ReadNoTexts, Seals};
ghost use Rattle.desk_journal.specs.Stored.{HoldsTexts};
ghost use Rattle.time_desk.specs.declared.fault.StartFault.TheVariants.{Damaged};
ghost use Rattle.time_desk.specs.Opening.{OpensAs};
ghost use Rattle.mail_loop.specs.Acknowledged.{AnswersLast, Course, Stretch, kept_at, sealed_in, steps_of};
ghost use Rattle.mail_loop.specs.Serving.{at_first};
ghost use Rattle.copy_laws.specs.Copies.{IsOfLength, IsToEnd, Look, copy_of};
ghost use Rattle.copy_laws.specs.Seen.{AreReads};
ghost use Rattle.copy_laws.specs.Answered.{HasAnswered, IsMendedTo, IsMendedToAnswered, IsMendedWith};

use crate::laws::{copies_of_a_disk, copies_stand};
use desk_journal::laws::{crashes_leave_states, seals_join};
use seal_log::one_reading;
use undo_outside::Disk;

/// A copy that was made while a desk sealed records stands for the records from before and the first of these. All of them can stand, so it opens.
/// One of the length of its first read does so too, or one closed gate mends it to that.
pub fn copies_of_a_desk<D: Disk>()
    ensures whole { (records added failed : List JournalRecord) (old new : Lasting D) (look : Look) (looks : List Look)
        → IsSettled (D.told old.disk) old.gate (payloads_of records) → state records ≡ Some old.kept → HoldsTexts D.told old ⊎ ReadNoTexts added
        → Seals D.told added failed old new → AreReads (D.told new.disk) (D.told old.disk).moment (look ∷ looks) → IsToEnd (look ∷ looks)
        → LeavesFront records (added ++ failed) (copy_of (look ∷ looks)) }
    ensures cut { (records added failed : List JournalRecord) (old new : Lasting D) (look : Look) (looks : List Look)
        → IsSettled (D.told old.disk) old.gate (payloads_of records) → state records ≡ Some old.kept → HoldsTexts D.told old ⊎ ReadNoTexts added
        → Seals D.told added failed old new → AreReads (D.told new.disk) (D.told old.disk).moment (look ∷ looks) → IsOfLength look looks
        → LeavesFront records (added ++ failed) (copy_of (look ∷ looks)) ⊎ IsMendedTo records (added ++ failed) (copy_of (look ∷ looks)) }
    ensures opens { (records others : List JournalRecord) (bytes : List ℕ) → (leaves : LeavesFront records others bytes) → OpensAs bytes (Ok leaves.kept) }
    // What is to be mended opens as damaged, at that very place.
    ensures told { (records others : List JournalRecord) (bytes : List ℕ) → (it : IsMendedTo records others bytes) → OpensAs bytes (Err (Damaged it.place)) }
{
    one_reading();
    copies_of_a_disk::<D>();
    crashes_leave_states::<D>();
}

/// What was answered before a copy began is in it, where what was answered lasts (`answered_is_kept` of mail_loop, and `run` hands it on). The copy is
/// begun behind the turns of a step, and read until the end is found. It stands for all records that were sealed by then, and maybe for more behind
/// them, and all of them can stand. So does one of the length of its first read, or one closed gate mends it to have them.
pub fn copies_have_what_was_answered<D: Disk>()
    ensures whole { (records : List JournalRecord) (first : Kept) (course before : List (Stretch D)) (w : Stretch D) (after : List (Stretch D)) (disk : D)
        (look : Look) (looks : List Look) → AnswersLast D.told records first course (D.told disk) → course ≡ before ++ w ∷ after
        → AreReads (D.told disk) (D.told w.telling.disk).moment (look ∷ looks) → IsToEnd (look ∷ looks)
        → HasAnswered (records ++ sealed_in before ++ w.sealed) (kept_at first (steps_of before) w.step) (copy_of (look ∷ looks)) }
    ensures cut { (records : List JournalRecord) (first : Kept) (course before : List (Stretch D)) (w : Stretch D) (after : List (Stretch D)) (disk : D)
        (look : Look) (looks : List Look) → AnswersLast D.told records first course (D.told disk) → course ≡ before ++ w ∷ after
        → AreReads (D.told disk) (D.told w.telling.disk).moment (look ∷ looks) → IsOfLength look looks
        → HasAnswered (records ++ sealed_in before ++ w.sealed) (kept_at first (steps_of before) w.step) (copy_of (look ∷ looks))
        ⊎ IsMendedWith (records ++ sealed_in before ++ w.sealed) (copy_of (look ∷ looks)) }
{
    one_reading();
    copies_stand();
}

/// So it is of what `serve_events` goes through (`WentThrough`), from a desk that holds its texts, whose disk was settled behind records that leave what it
/// kept. There all that a mended copy stands for can stand too.
pub fn copies_of_a_served_store<D: Disk>()
    ensures whole { (records : List JournalRecord) (old new : Lasting D) (course before : List (Stretch D)) (w : Stretch D) (after : List (Stretch D))
        (look : Look) (looks : List Look) → IsSettled (D.told old.disk) old.gate (payloads_of records) → state records ≡ Some old.kept → HoldsTexts D.told old
        → Course D.told (at_first old.kept) old course new → course ≡ before ++ w ∷ after
        → AreReads (D.told new.disk) (D.told w.telling.disk).moment (look ∷ looks) → IsToEnd (look ∷ looks)
        → HasAnswered (records ++ sealed_in before ++ w.sealed) (kept_at old.kept (steps_of before) w.step) (copy_of (look ∷ looks)) }
    ensures cut { (records : List JournalRecord) (old new : Lasting D) (course before : List (Stretch D)) (w : Stretch D) (after : List (Stretch D))
        (look : Look) (looks : List Look) → IsSettled (D.told old.disk) old.gate (payloads_of records) → state records ≡ Some old.kept → HoldsTexts D.told old
        → Course D.told (at_first old.kept) old course new → course ≡ before ++ w ∷ after
        → AreReads (D.told new.disk) (D.told w.telling.disk).moment (look ∷ looks) → IsOfLength look looks
        → HasAnswered (records ++ sealed_in before ++ w.sealed) (kept_at old.kept (steps_of before) w.step) (copy_of (look ∷ looks))
        ⊎ IsMendedToAnswered (records ++ sealed_in before ++ w.sealed) (kept_at old.kept (steps_of before) w.step) (copy_of (look ∷ looks)) }
{
    seals_join::<D>();
    crashes_leave_states::<D>();
    copies_of_a_disk::<D>();
}
