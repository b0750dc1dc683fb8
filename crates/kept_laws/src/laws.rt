//! Laws of what a journal's records leave. These functions do nothing: their contracts are the laws.
//!
//! What a cycle shows anew is in the ranges of a Kept. Its keys are of its deed or of entries, its names are of mailboxes, and a
//! count that a cycle changes is less than the one before, or none.
ghost use Rattle.std.specs.Prelude.{◌≡◌, ℕ, List, Some};
ghost use Rattle.std.specs.List.{AllByRecursion};
ghost use Rattle.verb_core.specs.declared.item.Item.{Item};
ghost use Rattle.verb_bytes.specs.declared.journal.JournalRecord.{JournalRecord};
ghost use Rattle.verb_bytes.specs.declared.journal.JournalRecord.TheVariants.{Kept as KeptRecord};
ghost use Rattle.verb_bytes.specs.Spelling.{HasSpelling};
ghost use Rattle.seal_log.specs.Journal.{IsPayload};
ghost use Rattle.store_kept.specs.Kept.{Kept};
ghost use Rattle.cycle_rules.specs.Cutting.{base_at, cut};
ghost use Rattle.desk_journal.specs.Founding.{cut_records};
ghost use Rattle.desk_journal.specs.Records.{payloads_of, state};
ghost use Rattle.time_desk.specs.Cutting.{base_record};
ghost use Rattle.cut_laws.specs.Cuts.{CanBeWritten};
ghost use Rattle.kept_laws.specs.Again.{CanBeKeptAgain, HasFrame, UidsFit};

use box_store::rows_make_valid_stores;
use cut_laws::journals_can_be_cut;
use desk_journal::laws::fronts_are_sound;
use time_desk::permanence::{records_let_uids_last, states_are_sound};
use verb_core::laws::mail_is_kept;

/// The items that a journal's records leave can be kept again without their texts, those that cycles brought in and changed among them.
/// Where an item's Kept has a frame, it has a spelling.
pub fn items_can_be_kept_again()
    ensures { (records : List JournalRecord) (kept : Kept) → state records ≡ Some kept →
        AllByRecursion (λ (i : Item). HasFrame (KeptRecord i) → CanBeKeptAgain i) kept.timeline }
{
    states_are_sound();
    records_let_uids_last();
    fronts_are_sound();
}

/// The Base of a cut of what a journal's records leave has a spelling, where it has a frame and eight bytes hold the next UID of each of
/// its mailboxes.
pub fn bases_can_be_recorded()
    ensures { (records : List JournalRecord) (kept : Kept) (place : ℕ) → state records ≡ Some kept → HasFrame (base_record (cut kept place)) →
        UidsFit (base_at kept place) → HasSpelling (base_record (cut kept place)) }
{
    states_are_sound();
    records_let_uids_last();
    fronts_are_sound();
    journals_can_be_cut();
    mail_is_kept();
    rows_make_valid_stores();
}

/// What a journal's records leave can be written, cut at a place, just where each record of the cut has a frame and eight bytes hold each
/// next UID of its base. So a cut lacks a spelling in no other case; where it does it ends as for want of memory, however often it is asked
/// for.
pub fn cuts_can_be_written()
    ensures when { (records : List JournalRecord) (kept : Kept) (place : ℕ) → state records ≡ Some kept →
        AllByRecursion IsPayload (payloads_of (cut_records kept place)) → UidsFit (base_at kept place) → CanBeWritten kept place }
    ensures only { (kept : Kept) (place : ℕ) → CanBeWritten kept place → AllByRecursion IsPayload (payloads_of (cut_records kept place)) × UidsFit (base_at kept place) }
{
    items_can_be_kept_again();
    bases_can_be_recorded();
}
