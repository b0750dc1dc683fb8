//! What holds of runs of calls on a desk over its disk, and of an audit.
ghost use Rattle.std.specs.Prelude.{◌≡◌, true, List, None, Some};
ghost use Rattle.verb_bytes.specs.declared.journal.JournalRecord.{JournalRecord};
ghost use Rattle.store_kept.specs.Kept.{Kept};
ghost use Rattle.desk_journal.specs.Records.{are_true, state};
ghost use Rattle.time_desk.specs.Auditing.{false_record};

pub use desk_journal::laws::{crashes_leave_states, seals_join, turns_have_read};

/// Records that can stand are true exactly where an audit finds none that is not. This does nothing.
pub fn audits_settle_truth()
    ensures { (records : List JournalRecord) (kept : Kept) → state records ≡ Some kept
        → (false_record records ≡ None → are_true records ≡ true) × (are_true records ≡ true → false_record records ≡ None) }
{}
