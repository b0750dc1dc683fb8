//! Records whose texts are not read: where the text lies by the first bytes, and the record by the bytes around it.
ghost use Rattle.std.specs.Prelude.{◌≡◌, ◌≤◌, ◌+◌, ℕ, List, [], Some, IfOk, IfSome, IsTrue, length, min, option_copied};
ghost use Rattle.verb_bytes.specs.Holes.{HasHole, SpellsAround, most_text, own_text, parted};
ghost use Rattle.verb_bytes.specs.Places.{first_from, text_places_of};
ghost use Rattle.verb_bytes.specs.Spelling.{HasSpelling};

use crate::laws::holes_are_filled;
use crate::write::MOST_BODY;
use crate::{
    JournalRecord, TextPlace, act_text_from, body_text_from, decode_record, item_text_from,
    kept_text_from,
};
use std::alloc::Global;
use undo_base::{NoMemory, Text};

// ---- where the text may lie

/// The bytes behind so many, where there are so many.
fn behind(rest: &[u8], count: usize) -> Option<&[u8]> {
    if count <= rest.len() {
        Some(&rest[count..])
    } else {
        None
    }
}

/// The number of four bytes that comes first.
fn number(rest: &[u8]) -> Option<u32>
    ensures { IfSome result (λ n. 4 ≤ length rest.now) }
{
    match rest {
        [first, second, third, fourth, ..] => {
            Some(u32::from_be_bytes([*first, *second, *third, *fourth]))
        }
        _ => None,
    }
}

/// What stands behind a text.
fn behind_text(rest: &[u8]) -> Option<&[u8]> {
    let count = number(rest)?;
    let rest = behind(rest, 4)?;
    behind(rest, count as usize)
}

/// What stands behind a name.
fn behind_name(rest: &[u8]) -> Option<&[u8]> {
    match rest {
        [] => None,
        [count, rest @ ..] => behind(rest, usize::from(*count)),
    }
}

/// What stands behind a list of names.
fn behind_names(rest: &[u8]) -> Option<&[u8]> {
    let count = number(rest)?;
    let mut rest = behind(rest, 4)?;
    for _ in 0..count {
        rest = behind_name(rest)?;
    }
    Some(rest)
}

/// The text's field of an act that gives one.
fn text_of_act(rest: &[u8]) -> Option<&[u8]> {
    match rest {
        [6, _, rest @ ..] => behind_name(rest),
        _ => None,
    }
}

/// The text's field of a deed that brings one, but for a notice.
fn text_of_deed(rest: &[u8]) -> Option<&[u8]> {
    match rest {
        [1, rest @ ..] => behind_names(behind_text(rest)?),
        [2, rest @ ..] => behind(behind_name(rest)?, 9),
        [14, rest @ ..] => text_of_act(rest),
        _ => None,
    }
}

/// The text's field of a record of one text.
fn text_of_record(head: &[u8]) -> Option<&[u8]> {
    match head {
        [1, ..] => text_of_deed(behind(head, 14)?),
        [2, ..] => text_of_act(behind(head, 13)?),
        [9, ..] => behind(head, 9),
        [10, ..] => text_of_deed(behind(head, 18)?),
        _ => None,
    }
}

/// A range behind the first bytes and before the end, where it is one.
fn within(head: &[u8], before: usize, count: u32, size: u32) -> Option<TextPlace>
    requires { before ≤ length head.now }
    ensures { IfSome result (λ hole. (4 ≤ hole.from) × (hole.from ≤ length head.now) × (hole.from + hole.length ≤ size)) }
{
    if before < 4 || before > size as usize {
        return None;
    }
    let from = before as u32;
    if count > size - from {
        return None;
    }
    Some(TextPlace {
        from,
        length: count,
    })
}

/// Where the text of a record of so many bytes may lie, by the record's first bytes: a guess, which `decode_around` tries.
pub fn hole_at(head: &[u8], size: u32) -> Option<TextPlace>
    ensures { IfSome result (λ hole. (4 ≤ hole.from) × (hole.from ≤ length head.now) × (hole.from + hole.length ≤ size)) }
{
    let field = text_of_record(head)?;
    let count = number(field)?;
    let rest = field.len() - 4;
    if rest > head.len() {
        return None;
    }
    within(head, head.len() - rest, count, size)
}

// ---- the record

/// The bytes of a record with an empty text between two parts.
fn around(alloc: Global, front: &[u8], back: &[u8]) -> Result<Text, NoMemory>
    ensures { IfOk result (λ bytes. bytes ≡ parted front.now [] back.now) }
{
    let mut bytes = Text::of(alloc, front)?;
    bytes.extend(&[0, 0, 0, 0])?;
    bytes.extend(back)?;
    Ok(bytes)
}

/// How many bytes lie before the text of a record that has one of its own.
fn text_from(what: &JournalRecord) -> u32
    ensures { (text : List ℕ) → own_text what.now ≡ Some text → result ≡ min (first_from (text_places_of what.now)) u32.MAX }
{
    match what {
        JournalRecord::Verb(item) => item_text_from(item),
        JournalRecord::Operator { act, .. } => act_text_from(act),
        JournalRecord::Text { .. } => body_text_from(),
        JournalRecord::Kept(item) => kept_text_from(item),
        JournalRecord::Format(_, _) => 0,
        JournalRecord::Cycle { .. } => 0,
        JournalRecord::Snapshot { .. } => 0,
        JournalRecord::Upgrade { .. } => 0,
        JournalRecord::Withdraw { .. } => 0,
        JournalRecord::Base { .. } => 0,
    }
}

/// The text of a record that has one of its own.
fn text_of(what: &JournalRecord) -> Option<&Text>
    ensures { option_copied result ≡ own_text what.now }
{
    match what {
        JournalRecord::Verb(item) => item.deed.text(),
        JournalRecord::Operator { act, .. } => act.text(),
        JournalRecord::Text { text, .. } => Some(text),
        JournalRecord::Kept(item) => item.deed.text(),
        _ => None,
    }
}

/// How many bytes that may have.
fn most_of(what: &JournalRecord) -> u32
    ensures { result ≡ most_text what.now }
{
    match what {
        JournalRecord::Verb(_) => MOST_BODY,
        JournalRecord::Operator { .. } => MOST_BODY,
        _ => u32::MAX,
    }
}

/// Whether the text of its own is empty.
fn is_empty(what: &JournalRecord) -> bool
    ensures { IsTrue result → own_text what.now ≡ Some [] }
{
    match text_of(what) {
        Some(text) => text.bytes().is_empty(),
        None => false,
    }
}

/// Whether so many bytes, and the four of its length, lie before that text.
fn begins_behind(what: &JournalRecord, before: usize) -> bool
    ensures { (text : List ℕ) → own_text what.now ≡ Some text → IsTrue result → first_from (text_places_of what.now) ≡ before + 4 }
{
    let from = text_from(what);
    from != u32::MAX && from >= 4 && (from - 4) as usize == before
}

/// Whether a record has an empty text behind so many bytes, in whose place one of so many bytes may stand.
#[tactic(auto, using(crate::proofs::Around::a_hole))]
fn has_hole(what: &JournalRecord, before: usize, count: u32) -> bool
    ensures { IsTrue result → HasHole what.now before count }
{
    is_empty(what) && begins_behind(what, before) && count <= most_of(what)
}

/// The record that bytes with a text of so many bytes spell, whatever the text is, by the bytes before the text's length and
/// those behind the text. It stands there with an empty text. Where there is none, or no memory, the bytes are to be read whole.
pub fn decode_around(alloc: Global, front: &[u8], count: u32, back: &[u8]) -> Option<JournalRecord>
    ensures spelled { IfSome result HasSpelling }
    ensures hole { IfSome result (λ what. HasHole what (length front.now) count) }
    ensures around { IfSome result (SpellsAround front.now count back.now) }
{
    holes_are_filled();
    let bytes = match around(alloc, front, back) {
        Ok(bytes) => bytes,
        Err(NoMemory) => return None,
    };
    match decode_record(alloc, bytes.bytes()) {
        Ok(what) => {
            if has_hole(&what, front.len(), count) {
                Some(what)
            } else {
                drop(what);
                None
            }
        }
        Err(_) => None,
    }
}
