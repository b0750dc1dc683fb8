//! Records that are read but for their texts: the bytes before the text, and those behind it.
ghost use Rattle.std.specs.Prelude.{◌≡◌, ◌≤◌, ◌<◌, ◌+◌, ◌-◌, ℕ, List, false, IfErr, IfOk, IfSome, IsTrue, OnOk, is_some, length, slice_range, take};
ghost use Rattle.std.specs.Int.{to_be_bytes, w32};
ghost use Rattle.verb_bytes.specs.Holes.{HasHole, SpellsAround};
ghost use Rattle.verb_bytes.specs.Spelling.{HasSpelling, Spells, record_bytes};
ghost use Rattle.seal_log.specs.Journal.{LiesAt};
ghost use Rattle.seal_log.specs.Settled.{Holds};
ghost use Rattle.desk_journal.specs.Telling.{IsPastRead};
ghost use Rattle.time_desk.specs.Heads.{IsHead, has_notice as brings_notice, headed};
ghost use Rattle.time_desk.specs.Standing.{FailsReading, ReadCounts};

use crate::StartFault;
use desk_journal::Past;
use seal_log::Place;
use std::alloc::Global;
use undo_base::{PastText, Text, before};
use undo_outside::Disk;
use verb_bytes::laws::holes_are_filled;
use verb_bytes::{JournalRecord, TextPlace, decode_around, hole_at};

/// How many bytes are read of a record at first.
const FIRST: u32 = 512;
/// Records of no more bytes are read whole, by one read.
pub(crate) const SHORT: u32 = 1024;

/// A record with an empty text. Its own is not read, and lies so far behind the front of its payload.
#[derive(Drop)]
pub(crate) struct HeadOf {
    pub what: JournalRecord,
    pub text: PastText,
    pub from: u32,
}

/// Whether a record has a notice.
fn has_notice(what: &JournalRecord) -> bool
    ensures { result ≡ brings_notice what.now }
{
    match what {
        JournalRecord::Verb(item) => item.deed.is_notice(),
        JournalRecord::Kept(item) => item.deed.is_notice(),
        _ => false,
    }
}

/// Whether bytes are the four of a number.
fn spell_number(bytes: &[u8], number: u32) -> bool
    ensures { IsTrue result → bytes.now ≡ to_be_bytes w32 number }
{
    bytes == number.to_be_bytes().as_slice()
}

/// The bytes before a hole's length, where the length stands behind them.
fn before_hole(first: &[u8], hole: TextPlace) -> Option<&[u8]>
    requires least { 4 ≤ hole.from }
    requires within { hole.from ≤ length first.now }
    ensures front { IfSome result (λ front. front.now ≡ take (hole.from - 4) first.now) }
    ensures number { IsTrue (is_some result) → slice_range first.now (hole.from - 4) hole.from ≡ to_be_bytes w32 hole.length }
{
    let from = hole.from as usize;
    if spell_number(&first[from - 4..from], hole.length) {
        Some(before(first, from - 4))
    } else {
        None
    }
}

/// The record that the bytes round a hole spell, where its text is none of a notice.
fn decoded_around(alloc: Global, front: &[u8], count: u32, back: &[u8]) -> Option<JournalRecord>
    ensures spelled { IfSome result HasSpelling }
    ensures hole { IfSome result (λ what. HasHole what (length front.now) count) }
    ensures around { IfSome result (SpellsAround front.now count back.now) }
    ensures plain { IfSome result (λ what. brings_notice what ≡ false) }
{
    match decode_around(alloc, front, count, back) {
        Some(what) => {
            if has_notice(&what) {
                drop(what);
                return None;
            }
            Some(what)
        }
        None => None,
    }
}

/// Whether bytes behind a hole are so many that the record ends with them.
fn ends_record(place: Place, hole: TextPlace, back: &Text) -> bool
    requires { hole.from + hole.length ≤ place.length }
    ensures { IsTrue result → hole.from + hole.length + length back.now ≡ place.length }
{
    back.bytes().len() == (place.length - hole.from - hole.length) as usize
}

/// The head of the record at a place, by the bytes round its hole.
fn head_around<D: Disk>(
    alloc: Global,
    past: &Past<D>,
    place: Place,
    front: &[u8],
    hole: TextPlace,
    back: &Text,
) -> Option<HeadOf>
    requires place { place.gate + 5 + place.length ≤ past.now.end }
    requires least { hole.from ≡ length front.now + 4 }
    requires within { hole.from + hole.length ≤ place.length }
    ensures head { IfSome result IsHead }
    ensures long { IfSome result (λ head. place.length ≡ length (record_bytes (headed head))) }
    ensures read { (payloads : List (List ℕ)) (payload : List ℕ) → Holds (D.told past.now.disk) payloads
        → LiesAt payloads place.gate place.length payload → front.now ≡ take (length front.now) payload
        → slice_range payload (length front.now) hole.from ≡ to_be_bytes w32 hole.length
        → back.now ≡ slice_range payload (hole.from + hole.length) place.length → IfSome result (λ head. Spells (headed head) payload) }
{
    holes_are_filled();
    if !ends_record(place, hole, back) {
        return None;
    }
    match decoded_around(alloc, front, hole.length, back.bytes()) {
        Some(what) => Some(HeadOf {
            what,
            text: past.unread(place, hole.from, hole.length),
            from: hole.from,
        }),
        None => None,
    }
}

/// The same, by the first bytes with the length of the text. What stands behind the text is read.
fn head_behind<D: Disk>(
    alloc: Global,
    past: &mut Past<D>,
    place: Place,
    first: &[u8],
    hole: TextPlace,
) -> Result<Option<HeadOf>, StartFault>
    requires place { place.gate + 5 + place.length ≤ past.old.end }
    requires least { 4 ≤ hole.from }
    requires front { hole.from ≤ length first.now }
    requires within { hole.from + hole.length ≤ place.length }
    ensures head { IfOk result (λ found. IfSome found IsHead) }
    ensures long { IfOk result (λ found. IfSome found (λ head. place.length ≡ length (record_bytes (headed head)))) }
    ensures read { (payloads : List (List ℕ)) (payload : List ℕ) → Holds (D.told past.old.disk) payloads
        → LiesAt payloads place.gate place.length payload → first.now ≡ take (length first.now) payload
        → IfOk result (λ found. IfSome found (λ head. Spells (headed head) payload)) }
    ensures still { IsPastRead D.told past.old past.new }
    ensures bad { IfErr result (FailsReading ⊥ place.gate) }
    ensures ok { OnOk result ((D.told past.new.disk).failed_reads ≡ (D.told past.old.disk).failed_reads) }
    ensures fault { IfErr result (ReadCounts (D.told past.old.disk) (D.told past.new.disk)) }
{
    let Some(front) = before_hole(first, hole) else {
        return Ok(None);
    };
    let end = hole.from + hole.length;
    let back = past.read(alloc, place, end, place.length - end)?;
    Ok(head_around(alloc, past, place, front, hole, &back))
}

/// The head of the record at a place, where the record is long and has a text of its own. Where there is none the record is to be
/// read whole.
pub(crate) fn head_at<D: Disk>(
    alloc: Global,
    past: &mut Past<D>,
    place: Place,
) -> Result<Option<HeadOf>, StartFault>
    requires place { place.gate + 5 + place.length ≤ past.old.end }
    ensures head { IfOk result (λ found. IfSome found IsHead) }
    ensures long { IfOk result (λ found. IfSome found (λ head. place.length ≡ length (record_bytes (headed head)))) }
    ensures read { (payloads : List (List ℕ)) (payload : List ℕ) → Holds (D.told past.old.disk) payloads
        → LiesAt payloads place.gate place.length payload
        → IfOk result (λ found. IfSome found (λ head. Spells (headed head) payload)) }
    ensures still { IsPastRead D.told past.old past.new }
    ensures bad { IfErr result (FailsReading ⊥ place.gate) }
    ensures ok { OnOk result ((D.told past.new.disk).failed_reads ≡ (D.told past.old.disk).failed_reads) }
    ensures fault { IfErr result (ReadCounts (D.told past.old.disk) (D.told past.new.disk)) }
{
    if place.length <= SHORT {
        return Ok(None);
    }
    let first = past.read(alloc, place, 0, FIRST)?;
    let start = first.bytes();
    match hole_at(start, place.length) {
        Some(hole) => head_behind(alloc, past, place, start, hole),
        None => Ok(None),
    }
}
