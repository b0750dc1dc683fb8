//! Laws of the definitions of cuts. These functions do nothing: their contracts are the laws.
ghost use Rattle.std.specs.Prelude.{◌≡◌, ◌≢◌, ◌⊎◌, ◌+◌, ◌*◌, ◌<◌, ◌≤◌, ◌++◌, ℕ, List, length, Some, Result, Ok, Err};
ghost use Rattle.std.specs.List.{AllByRecursion};
ghost use Rattle.undo_base.specs.declared.limits.TheConstants.{END_OF_NUMBERS};
ghost use Rattle.undo_base.specs.declared.keys.Key.{Key};
ghost use Rattle.undo_base.specs.declared.keys.User.{User};
ghost use Rattle.seal_log.specs.Journal.{IsPayload};
ghost use Rattle.verb_core.specs.declared.item.Item.{Item};
ghost use Rattle.verb_core.specs.declared.mailbox.BoxId.{BoxId};
ghost use Rattle.verb_core.specs.Fates.{times_held};
ghost use Rattle.verb_bytes.specs.declared.journal.JournalRecord.{JournalRecord};
ghost use Rattle.verb_bytes.specs.declared.journal.JournalRecord.TheVariants.{Kept as KeptRecord};
ghost use Rattle.verb_bytes.specs.Decoding.{IsBytes};
ghost use Rattle.verb_bytes.specs.Spelling.{HasSpelling};
ghost use Rattle.store_kept.specs.Kept.{Kept};
ghost use Rattle.cycle_rules.specs.Cutting.{cut};
ghost use Rattle.mail_cycle.specs.Permanence.{UidsLast};
ghost use Rattle.base_cut.specs.declared.parts.CutParts.{CutParts};
ghost use Rattle.base_cut.specs.Cutting.{IsUnfinished};
ghost use Rattle.desk_journal.specs.Founding.{cut_records, founding_records};
ghost use Rattle.desk_journal.specs.Permanence.{IsSound, Message, RevsBelow, message_at};
ghost use Rattle.desk_journal.specs.Records.{StandsForRecords, after_records, payloads_of, state};
ghost use Rattle.time_desk.specs.declared.fault.StartFault.{StartFault};
ghost use Rattle.time_desk.specs.declared.fault.StartFault.TheVariants.{NotFormatted, Damaged};
ghost use Rattle.time_desk.specs.Cutting.{AreParts};
ghost use Rattle.time_desk.specs.Opening.{OpensAs, Starts};
ghost use Rattle.cut_laws.specs.Cuts.{AreSpelled, CanBeCut, CanBeFounded, CanBeWritten, IsAccountedFor, StartsAs, cut_journal};

use base_cut::laws::{cuts_are_journals, cuts_stand_whole};
use box_store::rows_make_valid_stores;
use cycle_rules::laws::cuts_keep_the_store;
use mail_cycle::laws::uids_last;
use store_kept::laws::reports_are_kept;
use time_desk::one_opening;
use time_desk::permanence::{records_let_uids_last, states_are_sound, uids_name_one_message};
use undo_outside::Disk;
use verb_bytes::laws::one_spelling;
use verb_core::laws::mail_is_kept;

/// The records of a cut, where each has a spelling, leave just what the cut is. What can be founded by its records is left by them.
pub fn cuts_open_as_they_are()
    ensures founded { (s : Kept) → CanBeFounded s → AreSpelled s → state (founding_records s) ≡ Some s }
    ensures cut { (s : Kept) (place : ℕ) → IsSound s → RevsBelow s → CanBeCut s → AreSpelled (cut s place) → state (cut_records s place) ≡ Some (cut s place) }
{
    mail_is_kept();
    rows_make_valid_stores();
}

/// What a journal's records leave can be cut. Its Format is one that a journal can begin with, its next number is one that a journal can
/// have, and its reports stand by key and name known users.
pub fn journals_can_be_cut()
    ensures { (records : List JournalRecord) (kept : Kept) → state records ≡ Some kept → CanBeCut kept }
{
    reports_are_kept();
    states_are_sound();
    records_let_uids_last();
}

/// A cut of what a journal's records leave is just what the records of the cut leave, where each has a spelling.
pub fn cuts_of_journals_open()
    ensures { (records : List JournalRecord) (kept : Kept) (place : ℕ) → state records ≡ Some kept → AreSpelled (cut kept place) →
        state (cut_records kept place) ≡ Some (cut kept place) }
{
    cuts_open_as_they_are();
    journals_can_be_cut();
    states_are_sound();
}

/// Where the records of a cut can be written, each of them has a spelling, and their journal, byte for byte, opens as the cut. They can be
/// where its parts are those of what is kept, the items in them have spellings, and each payload has a frame.
pub fn cuts_open()
    ensures written { (kept : Kept) (place : ℕ) (parts : CutParts) → AreParts (cut kept place) parts → AllByRecursion (λ (i : Item). HasSpelling (KeptRecord i)) parts.kept →
        AllByRecursion IsPayload (payloads_of (cut_records kept place)) → CanBeWritten kept place }
    ensures spelled { (records : List JournalRecord) (kept : Kept) (place : ℕ) → state records ≡ Some kept → CanBeWritten kept place → AreSpelled (cut kept place) }
    ensures opens { (records : List JournalRecord) (kept : Kept) (place : ℕ) → state records ≡ Some kept → CanBeWritten kept place →
        OpensAs (cut_journal kept place) (Ok (cut kept place)) }
    ensures whole { (image : List ℕ) (kept : Kept) (place : ℕ) (parts : CutParts) → OpensAs image (Ok kept) → AreParts (cut kept place) parts →
        AllByRecursion (λ (i : Item). HasSpelling (KeptRecord i)) parts.kept → AllByRecursion IsPayload (payloads_of (cut_records kept place)) →
        OpensAs (cut_journal kept place) (Ok (cut kept place)) }
{
    mail_is_kept();
    rows_make_valid_stores();
    states_are_sound();
    journals_can_be_cut();
    cuts_of_journals_open();
    cuts_are_journals();
}

/// So a desk that starts on a disk with these bytes keeps the cut, but for a fault of the disk and want of memory.
pub fn cuts_start<D: Disk>()
    ensures { (records : List JournalRecord) (kept : Kept) (place : ℕ) (old new : D) (result : Result (Kept × ℕ) StartFault) → state records ≡ Some kept →
        CanBeWritten kept place → (D.told old).honest → (D.told old).content ≡ cut_journal kept place → Starts (D.told old) (D.told new) result →
        StartsAs (cut kept place) result }
{
    cuts_open();
    one_opening();
}

/// The journal of a cut whose end is missing opens as no journal, or as damaged at a place.
pub fn beginnings_of_cuts_are_refused()
    ensures { (records : List JournalRecord) (kept : Kept) (place : ℕ) (front back : List ℕ) → state records ≡ Some kept → CanBeWritten kept place →
        cut_journal kept place ≡ front ++ back → 0 < length back → OpensAs front (Err NotFormatted) ⊎ ((at : ℕ) × OpensAs front (Err (Damaged at))) }
{
    cuts_open();
    cuts_of_journals_open();
    cuts_stand_whole();
}

/// What was written of a cut that stopped opens as no journal, or as damaged at a place, whatever its payloads spell.
pub fn stopped_cuts_are_refused()
    ensures { (bytes : List ℕ) → IsBytes bytes → IsUnfinished bytes → OpensAs bytes (Err NotFormatted) ⊎ ((at : ℕ) × OpensAs bytes (Err (Damaged at))) }
{
    one_spelling();
}

/// Over a cut each message stays under its UID, with its text, and what a client knows by UID lasts (RFC 3501, section 2.3.1.1). So it
/// is behind whatever records come next in the journal of the cut. A user, name, UIDVALIDITY and UID name no other message than they
/// did before the past was cut off.
pub fn uids_last_over_a_cut()
    ensures messages { (s : Kept) (place : ℕ) (id : BoxId) (stamp uid : ℕ) → IsSound s → message_at (cut s place) id stamp uid ≡ message_at s id stamp uid }
    ensures lasts { (s : Kept) (place : ℕ) → IsSound s → UidsLast s (cut s place) }
    ensures behind { (records more : List JournalRecord) (kept new : Kept) (place : ℕ) → state records ≡ Some kept → AreSpelled (cut kept place) →
        after_records (cut kept place) more ≡ Some new → UidsLast kept new }
    ensures one { (records more : List JournalRecord) (kept new : Kept) (place : ℕ) (id : BoxId) (stamp uid : ℕ) (m n : Message) → state records ≡ Some kept →
        AreSpelled (cut kept place) → after_records (cut kept place) more ≡ Some new → message_at kept id stamp uid ≡ Some m →
        message_at new id stamp uid ≡ Some n → m ≡ n }
{
    cuts_keep_the_store();
    uids_last();
    cuts_of_journals_open();
    states_are_sound();
    records_let_uids_last();
    uids_name_one_message();
}

/// Each message that lies in the base with a user, be it of a past that was cut off, has exactly one fate. In the store that is kept it
/// lies in one mailbox of that user under one UID; or one of the items took it out, an EXPUNGE, CLOSE, DELETE or Remove.
pub fn messages_of_a_base_have_one_fate()
    ensures { (records : List JournalRecord) (kept : Kept) (u : User) (key : Key) → state records ≡ Some kept → times_held u key kept.base.boxes ≢ 0 →
        IsAccountedFor kept u key }
{
    states_are_sound();
}

/// What a journal's records leave has as many items as there are numbers at most. Where the records are those of an image, the
/// mailboxes of its base, and 200 more for each item, are no more than four bytes count.
pub fn images_hold_few_mailboxes()
    ensures items { (records : List JournalRecord) (kept : Kept) → state records ≡ Some kept → length kept.timeline ≤ END_OF_NUMBERS }
    ensures mailboxes { (records : List JournalRecord) (kept : Kept) (image : List ℕ) → StandsForRecords records image → state records ≡ Some kept →
        length kept.base.boxes + 200 * length kept.timeline ≤ 4294967295 }
{
    journals_can_be_cut();
    states_are_sound();
}
