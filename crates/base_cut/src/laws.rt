//! What holds of every cut. These functions do nothing: their contracts are laws of the definitions.
ghost use Rattle.std.specs.Prelude.{◌≡◌, ◌⊎◌, ◌<◌, ◌≤◌, ℕ, List, [], ◌∷◌, ◌++◌, length, map, take};
ghost use Rattle.std.specs.List.{AllByRecursion};
ghost use Rattle.seal_log.specs.Journal.{sealed, IsPayload, StandsFor};
ghost use Rattle.seal_log.specs.Loading.{BeginsCut};
ghost use Rattle.verb_core.specs.declared.mailbox.Body.{Body};
ghost use Rattle.verb_bytes.specs.declared.journal.JournalRecord.{JournalRecord};
ghost use Rattle.verb_bytes.specs.Spelling.{record_bytes};
ghost use Rattle.base_cut.specs.declared.parts.CutParts.{CutParts};
ghost use Rattle.base_cut.specs.Cutting.{IsUnfinished, closed_journal, cut_payloads, records_behind};

use seal_log::one_reading;

/// The bytes of a cut stand for its payloads, which are the bytes of its records.
pub fn cuts_are_journals()
    ensures stands { (payloads : List (List ℕ)) → AllByRecursion IsPayload payloads → StandsFor (closed_journal payloads) payloads }
    ensures records { (parts : CutParts) (texts : Body → List ℕ) (format base : JournalRecord) → parts.head ≡ record_bytes format → parts.base ≡ record_bytes base
        → cut_payloads parts texts ≡ map record_bytes (format ∷ base ∷ records_behind parts texts) }
{}

/// What is left of the bytes of a cut where its end is missing is nothing, or it ends behind some of its payloads. There it ends
/// within the frame or before the gate of the next, and stands for no payloads.
pub fn cuts_stand_whole()
    ensures ends { (payloads : List (List ℕ)) (front back : List ℕ) → AllByRecursion IsPayload payloads → closed_journal payloads ≡ front ++ back → 0 < length back
        → (front ≡ []) ⊎ ((count : ℕ) × (part : List ℕ) × (count ≤ length payloads) × (front ≡ sealed (take count payloads) ++ part) × BeginsCut part) }
    ensures unfinished { (payloads : List (List ℕ)) (front back : List ℕ) → AllByRecursion IsPayload payloads → closed_journal payloads ≡ front ++ back → 0 < length back
        → IsUnfinished front }
    ensures none { (bytes : List ℕ) (payloads : List (List ℕ)) → IsUnfinished bytes → StandsFor bytes payloads → ⊥ }
{
    one_reading();
}
