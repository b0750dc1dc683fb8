//! A cut, written as it is read.
//!
//! The file of a cut is written as it is read: a text that can't be read leaves a beginning of it, and no line. Small records of
//! a kind are written together, some 262,144 octets at a time, so that the beginning may end before records that were ready. The
//! first gate takes no memory: want of memory while a cut is written comes behind a byte of it, unless the sink finds none.
ghost use Rattle.std.specs.Prelude.{◌≡◌, ◌+◌, ◌-◌, ◌≤◌, ◌∷◌, ◌++◌, [], ℕ, List, Some, IfErr, IfOk, IsErrOf, IsTrue, drop, length, take};
ghost use Rattle.std.specs.List.{AllByRecursion, list_all};
ghost use Rattle.std.specs.Int.{to_be_bytes, w32};
ghost use Rattle.verb_core.specs.Items.{text_in};
ghost use Rattle.verb_core.specs.Texts.{Rose, StaysTold};
ghost use Rattle.verb_bytes.specs.declared.journal.JournalRecord.TheVariants.{Kept};
ghost use Rattle.verb_bytes.specs.Spelling.{HasSpelling, record_bytes};
ghost use Rattle.base_cut.specs.Cutting.{IsGiven, IsKeptOf, IsTextOf, IsUnread, IsUnwritten, ReadsFor, WritesBehind, WritesCut, WritesEach, WritesFirst, WritesSealed, WritesWhole, body_of, cut_payloads, holds_all, holds_text, texts_of};

use crate::fault::fault_of_read;
use crate::framing::{write_first_payload, write_last_gate, write_payload, write_with_text};
use crate::gathering::Gathered;
use crate::{CutFault, CutParts};
use std::alloc::Global;
use undo_base::{NoMemory, Text};
use undo_outside::Sink;
use verb_bytes::{Unwritten, kept_text_from, spell_kept};
use verb_core::{Bodies, Body, Item};

/// The kind of a record of a body's text.
const TEXT: u8 = 9;

/// The text of a body that is held.
fn read_text<B: Bodies>(alloc: Global, body: Body, bodies: &mut B) -> Result<Text, CutFault>
    requires { IsTrue ((B.told bodies.old).holds body) }
    ensures given { IfOk result (IsGiven (B.told bodies.old) body) }
    ensures reads { ReadsFor B.told B.leads bodies.old bodies.new result }
    ensures unwritten { IfErr result IsUnwritten }
{
    match bodies.text(alloc, body) {
        Ok(text) => Ok(text),
        Err(fault) => Err(fault_of_read(fault)),
    }
}

// ---- the text of a body

/// What stands before the length of the text in a body's record.
fn before_text(alloc: Global, body: Body) -> Result<Vec<u8>, NoMemory>
    ensures { IfOk result (λ bytes. bytes.items ≡ 9 ∷ (to_be_bytes w32 body.origin ++ to_be_bytes w32 body.rev)) }
{
    let mut bytes = Vec::new(alloc);
    bytes.push(TEXT)?;
    bytes.extend_from_slice(&body.origin.to_be_bytes())?;
    bytes.extend_from_slice(&body.rev.to_be_bytes())?;
    Ok(bytes)
}

/// Writes the record of a body's text.
fn write_text<B: Bodies, W: Sink>(
    alloc: Global,
    body: Body,
    bodies: &mut B,
    out: &mut W,
) -> Result<(), CutFault>
    requires { IsTrue ((B.told bodies.old).holds body) }
    ensures wrote { (payload : List ℕ) × IsTextOf (B.told bodies.old) body payload × WritesSealed (payload ∷ []) (W.told out.old) (W.told out.new) result }
    ensures reads { ReadsFor B.told B.leads bodies.old bodies.new result }
{
    let text = read_text(alloc, body, bodies)?;
    let front = before_text(alloc, body)?;
    write_with_text(alloc, &front, text.bytes(), &[], out)
}

/// Writes the records of the texts of bodies, in order.
fn write_texts<B: Bodies, W: Sink>(
    alloc: Global,
    list: &[Body],
    bodies: &mut B,
    out: &mut W,
) -> Result<(), CutFault>
    requires { IsTrue (list_all (B.told bodies.old).holds list.now) }
    ensures wrote { WritesEach (IsTextOf (B.told bodies.old)) list.now (W.told out.old) (W.told out.new) result }
    ensures reads { ReadsFor B.told B.leads bodies.old bodies.new result }
{
    let mut gathered = Gathered::new(alloc);
    for body in list {
        write_text(alloc, *body, bodies, &mut gathered)?;
        gathered.write_many(out)?;
    }
    gathered.write_all(out)
}

// ---- an item

/// The bytes of the record of an item that has a spelling.
fn spelled(alloc: Global, item: &Item) -> Result<Text, NoMemory>
    requires { HasSpelling (Kept item.now) }
    ensures { IfOk result (λ bytes. bytes ≡ record_bytes (Kept item.now)) }
{
    match spell_kept(alloc, item) {
        Ok(bytes) => Ok(bytes),
        Err(Unwritten::Unspelled) => unreachable!(),
        Err(Unwritten::NoMemory) => Err(NoMemory),
    }
}

/// What stands before the length of a text of so many bytes that begins here, and what stands behind the text.
fn around(bytes: &[u8], from: usize, count: usize) -> (&[u8], &[u8])
    requires first { 4 ≤ from }
    requires within { from + count ≤ length bytes.now }
    ensures front { result.0.now ≡ take (from - 4) bytes.now }
    ensures back { result.1.now ≡ drop (from + count) bytes.now }
{
    (&bytes[..from - 4], &bytes[from + count..])
}

/// Writes the record of an item that has a text, where these are its bytes without that.
fn write_kept_with_text<B: Bodies, W: Sink>(
    alloc: Global,
    item: &Item,
    spelled: &Text,
    none: &Text,
    bodies: &mut B,
    out: &mut W,
) -> Result<(), CutFault>
    requires held { IsTrue ((B.told bodies.old).holds (body_of item.now)) }
    requires spelled { spelled.now ≡ record_bytes (Kept item.now) }
    requires none { text_in item.now.deed ≡ Some none.now }
    ensures wrote { (payload : List ℕ) × IsKeptOf (B.told bodies.old) item.now payload × WritesSealed (payload ∷ []) (W.told out.old) (W.told out.new) result }
    ensures reads { ReadsFor B.told B.leads bodies.old bodies.new result }
{
    let body = Body {
        origin: item.number,
        rev: item.rev,
    };
    let text = read_text(alloc, body, bodies)?;
    let from = kept_text_from(item) as usize;
    let (front, back) = around(spelled.bytes(), from, none.bytes().len());
    write_with_text(alloc, front, text.bytes(), back, out)
}

/// Writes the record of an item.
fn write_kept<B: Bodies, W: Sink>(
    alloc: Global,
    item: &Item,
    bodies: &mut B,
    out: &mut W,
) -> Result<(), CutFault>
    requires held { IsTrue (holds_text (B.told bodies.old).holds item.now) }
    requires spelled { HasSpelling (Kept item.now) }
    ensures wrote { (payload : List ℕ) × IsKeptOf (B.told bodies.old) item.now payload × WritesSealed (payload ∷ []) (W.told out.old) (W.told out.new) result }
    ensures reads { ReadsFor B.told B.leads bodies.old bodies.new result }
{
    let spelled = spelled(alloc, item)?;
    match item.deed.text() {
        Some(none) => write_kept_with_text(alloc, item, &spelled, none, bodies, out),
        None => write_payload(alloc, spelled.bytes(), out),
    }
}

/// Writes the records of items, in order.
fn write_kepts<B: Bodies, W: Sink>(
    alloc: Global,
    items: &[Item],
    bodies: &mut B,
    out: &mut W,
) -> Result<(), CutFault>
    requires held { IsTrue (list_all (holds_text (B.told bodies.old).holds) items.now) }
    requires spelled { AllByRecursion (λ i. HasSpelling (Kept i)) items.now }
    ensures wrote { WritesEach (IsKeptOf (B.told bodies.old)) items.now (W.told out.old) (W.told out.new) result }
    ensures reads { ReadsFor B.told B.leads bodies.old bodies.new result }
{
    let mut gathered = Gathered::new(alloc);
    for item in items {
        write_kept(alloc, item, bodies, &mut gathered)?;
        gathered.write_many(out)?;
    }
    gathered.write_all(out)
}

// ---- a cut

/// Writes the payloads of the Format and of the Base.
fn write_base<W: Sink>(alloc: Global, parts: &CutParts, out: &mut W) -> Result<(), CutFault>
    ensures writes { WritesFirst (parts.now.head ∷ parts.now.base ∷ []) (W.told out.old) (W.told out.new) result }
    ensures unread { IfErr result IsUnread }
{
    write_first_payload(parts.head.bytes(), out)?;
    write_payload(alloc, parts.base.bytes(), out)
}

/// Writes the records behind the base.
fn write_behind<B: Bodies, W: Sink>(
    alloc: Global,
    parts: &CutParts,
    bodies: &mut B,
    out: &mut W,
) -> Result<(), CutFault>
    requires held { IsTrue (holds_all (B.told bodies.old).holds parts.now) }
    requires spelled { AllByRecursion (λ i. HasSpelling (Kept i)) parts.now.kept }
    ensures wrote { WritesBehind (B.told bodies.old) parts.now (W.told out.old) (W.told out.new) result }
    ensures reads { ReadsFor B.told B.leads bodies.old bodies.new result }
{
    write_texts(alloc, parts.bodies.as_slice(), bodies, out)?;
    write_kepts(alloc, parts.kept.as_slice(), bodies, out)
}

/// Writes all of a cut.
fn write_whole<B: Bodies, W: Sink>(
    alloc: Global,
    parts: &CutParts,
    bodies: &mut B,
    out: &mut W,
) -> Result<(), CutFault>
    requires held { IsTrue (holds_all (B.told bodies.old).holds parts.now) }
    requires spelled { AllByRecursion (λ i. HasSpelling (Kept i)) parts.now.kept }
    ensures written { WritesCut (B.told bodies.old) parts.now (W.told out.old) (W.told out.new) result }
    ensures reads { ReadsFor B.told B.leads bodies.old bodies.new result }
{
    write_base(alloc, parts, out)?;
    write_behind(alloc, parts, bodies, out)?;
    write_last_gate(out)
}

/// Writes a cut: the payloads of the Format and of the Base, the texts of the bodies and the later items, each behind an open gate, and
/// a closed gate. A text is kept in memory until it is written, together with others where they are small. A first byte is written
/// before memory is wanted.
pub fn write_cut<B: Bodies, W: Sink>(
    alloc: Global,
    parts: &CutParts,
    bodies: &mut B,
    out: &mut W,
) -> Result<(), CutFault>
    requires held { IsTrue (holds_all (B.told bodies.old).holds parts.now) }
    requires spelled { AllByRecursion (λ i. HasSpelling (Kept i)) parts.now.kept }
    // What is written, where what is read is what was stored: the cut, or a first part of it that is no journal and has a byte, unless the sink
    // refused that.
    ensures exact { (B.told bodies.old).honest → WritesWhole (cut_payloads parts.now (texts_of (B.told bodies.old))) (W.told out.old) (W.told out.new) result }
    // The same with the texts that were given.
    ensures written { WritesCut (B.told bodies.old) parts.now (W.told out.old) (W.told out.new) result }
    // At `Read` a read failed, and none before it; else no read failed.
    ensures reads { ReadsFor B.told B.leads bodies.old bodies.new result }
    ensures rose { IsErrOf result CutFault.Read → Rose (B.told bodies.old).faults (B.told bodies.new).faults }
    ensures stays { StaysTold (B.told bodies.old) (B.told bodies.new) }
    ensures leads { B.leads bodies.old bodies.new }
{
    write_whole(alloc, parts, bodies, out)
}
