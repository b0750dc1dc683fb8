//! Records of which the text is not read and not looked at, performed: a user's item, and an operator's act.
ghost use Rattle.std.specs.Prelude.{◌≡◌, ◌≤◌, ◌+◌, [], Some, true, false, length, IfOk, OnOk};
ghost use Rattle.verb_core.specs.Deeds.{is_notice};
ghost use Rattle.verb_core.specs.Items.{text_in};
ghost use Rattle.verb_bytes.specs.declared.journal.JournalRecord.TheVariants.{Operator, Verb};
ghost use Rattle.verb_bytes.specs.Holes.{act_with};
ghost use Rattle.verb_bytes.specs.Places.{IsTextAt};
ghost use Rattle.verb_bytes.specs.Spelling.{HasSpelling, record_bytes};
ghost use Rattle.stored_items.specs.Stored.{whole};
ghost use Rattle.store_kept.specs.Kept.{store_of};
ghost use Rattle.mail_desk.specs.Timeline.{NotesText, body_of};
ghost use Rattle.desk_journal.specs.Records.{after_record};
ghost use Rattle.desk_journal.specs.Stored.{KeepsMarks, NotesTexts};
ghost use Rattle.time_desk.specs.Heads.{IsHead, headed};
ghost use Rattle.time_desk.specs.Standing.{Enters, IsFormed, Performs};

use crate::heads::HeadOf;
use crate::standing::can_follow;
use desk_journal::item_of;
use mail_desk::Desk;
use seal_log::Place;
use std::alloc::Global;
use undo_base::{NoMemory, PastText};
use verb_bytes::JournalRecord;
use verb_bytes::laws::spelled_items_are_formed;
use verb_core::{Act, Deed, Item};

/// A text that is not read. It lies so far behind the front of the record at a place.
#[derive(Drop)]
struct Lying {
    text: PastText,
    place: Place,
    from: u32,
}

/// Performs an item whose text lies elsewhere and is not looked at, where it can follow, and notes where the text lies.
fn enter_lying(alloc: Global, desk: &mut Desk, item: Item, lying: Lying) -> Result<bool, NoMemory>
    requires bare { IsFormed item }
    requires formed { IsFormed (whole item lying.text) }
    requires empty { text_in item.deed ≡ Some [] }
    requires plain { is_notice item.deed ≡ false }
    requires unfiltered { (store_of desk.old.kept).conf.filters ≡ [] }
    ensures entered { IfOk result (λ stood. Enters desk.old.kept (whole item lying.text) stood desk.new.kept) }
    ensures noted { IfOk result (λ stood. stood ≡ true → NotesText (text_in (whole item lying.text).deed) (body_of (whole item lying.text)) lying.place lying.from desk.old.notes desk.new.notes) }
    ensures marks { OnOk result (desk.new.marks ≡ desk.old.marks) }
{
    if !can_follow(desk, &item) {
        drop(item);
        drop(lying);
        return Ok(false);
    }
    let Lying { text, place, from } = lying;
    match desk.enter_lying(alloc, item, text, place, from) {
        Ok(()) => Ok(true),
        Err(NoMemory) => Err(NoMemory),
    }
}

/// The same of the item of a user's record whose text is not read and not looked at.
fn enter_verb_lying(
    alloc: Global,
    desk: &mut Desk,
    end: u64,
    item: Item,
    lying: Lying,
) -> Result<bool, NoMemory>
    requires bare { HasSpelling (Verb item) }
    requires spelled { HasSpelling (Verb (whole item lying.text)) }
    requires empty { text_in item.deed ≡ Some [] }
    requires plain { is_notice item.deed ≡ false }
    requires lies { IsTextAt (record_bytes (Verb (whole item lying.text))) lying.from lying.text }
    requires place { lying.place.gate + 5 + lying.place.length ≤ end }
    requires long { lying.place.length ≡ length (record_bytes (Verb (whole item lying.text))) }
    requires unfiltered { (store_of desk.old.kept).conf.filters ≡ [] }
    ensures entered { IfOk result (λ stood. Performs (after_record desk.old.kept (Verb (whole item lying.text))) stood desk.new.kept) }
    ensures noted { IfOk result (λ stood. stood ≡ true → NotesTexts end lying.place (record_bytes (Verb (whole item lying.text))) desk.old desk.new) }
    ensures marked { IfOk result (λ stood. stood ≡ true → KeepsMarks end lying.place (record_bytes (Verb (whole item lying.text))) desk.old desk.new) }
{
    spelled_items_are_formed();
    desk.stands();
    enter_lying(alloc, desk, item, lying)
}

/// The same of an operator's act.
fn enter_act_lying(
    alloc: Global,
    desk: &mut Desk,
    end: u64,
    number: u32,
    at: u64,
    act: Act,
    lying: Lying,
) -> Result<bool, NoMemory>
    requires bare { HasSpelling (Operator number at act) }
    requires spelled { HasSpelling (Operator number at (act_with lying.text act)) }
    requires empty { text_in (Deed.Act act) ≡ Some [] }
    requires lies { IsTextAt (record_bytes (Operator number at (act_with lying.text act))) lying.from lying.text }
    requires place { lying.place.gate + 5 + lying.place.length ≤ end }
    requires long { lying.place.length ≡ length (record_bytes (Operator number at (act_with lying.text act))) }
    requires unfiltered { (store_of desk.old.kept).conf.filters ≡ [] }
    ensures entered { IfOk result (λ stood. Performs (after_record desk.old.kept (Operator number at (act_with lying.text act))) stood desk.new.kept) }
    ensures noted { IfOk result (λ stood. stood ≡ true → NotesTexts end lying.place (record_bytes (Operator number at (act_with lying.text act))) desk.old desk.new) }
    ensures marked { IfOk result (λ stood. stood ≡ true → KeepsMarks end lying.place (record_bytes (Operator number at (act_with lying.text act))) desk.old desk.new) }
{
    spelled_items_are_formed();
    desk.stands();
    enter_lying(alloc, desk, item_of(number, at, act), lying)
}

/// Performs the record of a user's item or of an operator's act, of which the text is not read and not looked at, where it can stand,
/// and answers whether it can. No other record with a text of its own can stand behind a front.
pub(crate) fn follow_head(
    alloc: Global,
    desk: &mut Desk,
    end: u64,
    head: HeadOf,
    place: Place,
) -> Result<bool, NoMemory>
    requires head { IsHead head }
    requires place { place.gate + 5 + place.length ≤ end }
    requires long { place.length ≡ length (record_bytes (headed head)) }
    requires unfiltered { (store_of desk.old.kept).conf.filters ≡ [] }
    ensures entered { IfOk result (λ stood. Performs (after_record desk.old.kept (headed head)) stood desk.new.kept) }
    ensures noted { IfOk result (λ stood. stood ≡ true → NotesTexts end place (record_bytes (headed head)) desk.old desk.new) }
    ensures marked { IfOk result (λ stood. stood ≡ true → KeepsMarks end place (record_bytes (headed head)) desk.old desk.new) }
{
    let HeadOf { what, text, from } = head;
    let lying = Lying { text, place, from };
    match what {
        JournalRecord::Verb(item) => enter_verb_lying(alloc, desk, end, item, lying),
        JournalRecord::Operator { number, at, act } => {
            enter_act_lying(alloc, desk, end, number, at, act, lying)
        }
        other => {
            drop(other);
            drop(lying);
            Ok(false)
        }
    }
}
