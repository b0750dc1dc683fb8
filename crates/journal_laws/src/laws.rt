//! Laws of what a journal keeps. These functions do nothing: their contracts are the laws.
ghost use Rattle.std.specs.Prelude.{◌++◌, ℕ, List, Ok};
ghost use Rattle.seal_log.specs.Journal.{StandsForFront};
ghost use Rattle.seal_log.specs.Settled.{IsSettled};
ghost use Rattle.verb_bytes.specs.declared.journal.JournalRecord.{JournalRecord};
ghost use Rattle.store_kept.specs.Kept.{Kept};
ghost use Rattle.desk_journal.specs.Lasting.{Lasting};
ghost use Rattle.desk_journal.specs.Records.{payloads_of};
ghost use Rattle.time_desk.specs.Opening.{OpensAs};
ghost use Rattle.journal_laws.specs.Keeping.{IsJournalRun, IsLeftBy, KeepsMail};
ghost use Rattle.journal_laws.specs.Premises.{IsDeskRun};

use cut_laws::messages_of_a_base_have_one_fate;
use desk_journal::laws::crashes_leave_states;
use time_desk::permanence::{
    each_message_has_one_fate, records_let_uids_last, states_are_sound, uids_name_one_message,
};
use undo_outside::Disk;

/// In every state that a run leaves a user, name, UIDVALIDITY and UID name one message and one text (RFC 3501, section 2.3.1.1). Each message
/// that an item in force gave, or that lay in the base, lies with its user once, in one mailbox under one UID, or one item took it out. Nothing else
/// lies there. The run's records are verbs, acts, cycles, withdrawals, snapshots and an upgrade, in any number and order.
pub fn runs_keep_mail()
    ensures { (records added : List JournalRecord) (first : Kept) → IsJournalRun records added first → KeepsMail records added }
{
    states_are_sound();
    records_let_uids_last();
    uids_name_one_message();
    each_message_has_one_fate();
    messages_of_a_base_have_one_fate();
}

/// What a desk seals, over a disk that holds its texts or where no text is read for it, is such a run, with the record whose sealing failed behind it.
/// Each image that a crash may leave since it began opens as one of the states that it leaves.
pub fn desks_run<D: Disk>()
    ensures run { (records added failed : List JournalRecord) (old new : Lasting D) → IsDeskRun D.told records added failed old new → IsJournalRun records (added ++ failed) old.kept }
    ensures crashed { (records added failed : List JournalRecord) (old new : Lasting D) (image : List ℕ) → IsDeskRun D.told records added failed old new →
        IsSettled (D.told old.disk) old.gate (payloads_of records) → (D.told new.disk).since (D.told old.disk).moment image →
        (kept : Kept) × IsLeftBy records (added ++ failed) kept × OpensAs image (Ok kept) }
    ensures front { (records added failed : List JournalRecord) (old new : Lasting D) (image : List ℕ) → IsDeskRun D.told records added failed old new →
        StandsForFront (payloads_of records) (payloads_of (added ++ failed)) image →
        (kept : Kept) × IsLeftBy records (added ++ failed) kept × OpensAs image (Ok kept) }
{
    crashes_leave_states::<D>();
}
