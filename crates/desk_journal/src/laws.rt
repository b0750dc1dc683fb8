//! What the definitions of sealing imply. These functions do nothing: their contracts are laws of the definitions.
ghost use Rattle.std.specs.Prelude.{◌≡◌, ◌⊎◌, ◌↔◌, ℕ, List, [], ◌∷◌, ◌++◌, take, None, Some, IsTrue};
ghost use Rattle.undo_outside.specs.Disk.{ReadFailed};
ghost use Rattle.seal_log.specs.Journal.{StandsForFront};
ghost use Rattle.verb_core.specs.declared.conf.Conf.{Conf};
ghost use Rattle.verb_core.specs.declared.conf.House.{House};
ghost use Rattle.verb_bytes.specs.declared.journal.JournalRecord.{JournalRecord};
ghost use Rattle.verb_bytes.specs.declared.journal.JournalRecord.TheVariants.{Format};
ghost use Rattle.store_kept.specs.Kept.{Kept};
ghost use Rattle.desk_journal.specs.Crashing.{LeavesFront};
ghost use Rattle.desk_journal.specs.Lasting.{Lasting, IsUnwritten};
ghost use Rattle.desk_journal.specs.Permanence.{IsSound, RevsBelow};
ghost use Rattle.desk_journal.specs.Reading.{HaveRead, IsStill, Reads, ReadsWell, both_read, failed_once, none_read, wrong_once};
ghost use Rattle.desk_journal.specs.Records.{are_true, is_true, opening_state, payloads_of, state, true_record};
ghost use Rattle.desk_journal.specs.Sealing.{ReadNoTexts, Seals};
ghost use Rattle.desk_journal.specs.Stored.{HoldsTexts};

use undo_outside::Disk;

/// A desk that was not written to, or was read alone, sealed nothing, and what was sealed at first and then was sealed from first to last.
pub fn seals_join<D: Disk>()
    ensures nothing { (a b : Lasting D) → IsUnwritten a b → Seals D.told [] [] a b }
    ensures still { (a b : Lasting D) → IsStill D.told a b → Seals D.told [] [] a b }
    ensures then { (added more failed : List JournalRecord) (a b c : Lasting D) → Seals D.told added [] a b → Seals D.told more failed b c
        → Seals D.told (added ++ more) failed a c }
{}

/// Where the records before could stand, what a crash leaves of calls that seal can stand too.
pub fn crashes_leave_states<D: Disk>()
    ensures each { (records added failed : List JournalRecord) (old new : Lasting D) (image : List ℕ) → state records ≡ Some old.kept
        → HoldsTexts D.told old ⊎ ReadNoTexts added → Seals D.told added failed old new → StandsForFront (payloads_of records) (payloads_of (added ++ failed)) image
        → LeavesFront records (added ++ failed) image }
    ensures sealed { (records added : List JournalRecord) (old new : Lasting D) → state records ≡ Some old.kept
        → HoldsTexts D.told old ⊎ ReadNoTexts added → Seals D.told added [] old new → state (records ++ added) ≡ Some new.kept }
{}

/// What is counted of turns that read. A turn in which no read failed counts nothing, and one that could not read a text counts
/// once. So does one that was given another than was stored, which comes only where the disk does not hold the texts. Of two runs
/// of turns both are counted.
pub fn turns_have_read<D: Disk>()
    ensures none { (a b : Lasting D) → ReadsWell D.told a b → HaveRead D.told a b none_read }
    ensures once { (a b : Lasting D) → ReadFailed (D.told a.disk) (D.told b.disk) → HaveRead D.told a b failed_once }
    ensures wrong { (a b : Lasting D) → ReadsWell D.told a b → (HoldsTexts D.told a → ⊥) → HaveRead D.told a b wrong_once }
    ensures then { (added failed : List JournalRecord) (r s : Reads) (a b c : Lasting D) → HaveRead D.told a b r → Seals D.told added failed a b
        → HaveRead D.told b c s → HaveRead D.told a c (both_read r s) }
{}

/// A record is true exactly where it is the one that would be made there. The records of a journal that was just made are true.
/// Behind true records all that calls seal is true, also the record whose sealing failed, and whatever of these a crash leaves.
pub fn records_stay_true<D: Disk>()
    ensures exact { (kept : Kept) (what : JournalRecord) → IsTrue (is_true kept what) ↔ what ≡ true_record kept what }
    ensures made { (house : House) (conf : Conf) → IsTrue (are_true (Format house conf ∷ [])) }
    ensures sealed { (records added failed : List JournalRecord) (old new : Lasting D) → state records ≡ Some old.kept
        → HoldsTexts D.told old ⊎ ReadNoTexts added → Seals D.told added failed old new → IsTrue (are_true records) → IsTrue (are_true (records ++ (added ++ failed))) }
    ensures crashed { (records added failed : List JournalRecord) (old new : Lasting D) (count : ℕ) → state records ≡ Some old.kept
        → HoldsTexts D.told old ⊎ ReadNoTexts added → Seals D.told added failed old new → IsTrue (are_true records)
        → IsTrue (are_true (records ++ take count (added ++ failed))) }
{}

/// What a journal opens with leaves what is sound, be it a Format alone or with a base, its texts and kept items. Each text has a rev
/// below the next number, nothing of it can come back, and no snapshot was taken.
pub fn fronts_are_sound()
    ensures sound { (records : List JournalRecord) (kept : Kept) → opening_state records ≡ Some kept → IsSound kept }
    ensures revs { (records : List JournalRecord) (kept : Kept) → opening_state records ≡ Some kept → RevsBelow kept }
    ensures first { (records : List JournalRecord) (kept : Kept) → opening_state records ≡ Some kept → (kept.undone ≡ None) × (kept.marks.places ≡ []) }
{}
