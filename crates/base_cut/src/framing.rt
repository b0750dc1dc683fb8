//! Payloads behind open gates, written as they come.
//!
//! The frames and gates of a cut's file are those of seal_log.
ghost use Rattle.std.specs.Prelude.{◌≡◌, ◌<◌, ◌^◌, ◌++◌, ◌∷◌, [], IfErr, IfOk, length};
ghost use Rattle.std.specs.Int.{to_be_bytes, w32};
ghost use Rattle.base_cut.specs.Cutting.{IsUnread, Writes, WritesFirst, WritesSealed};
ghost use Rattle.verb_bytes.specs.Holes.{parted};

use crate::CutFault;
use crate::fault::fault_of_write;
use crate::writing::write_all;
use std::alloc::Global;
use undo_base::NoMemory;
use undo_outside::Sink;

/// The byte of a gate behind which a frame stands.
const OPEN: u8 = 0x55;

/// The byte of the gate behind the last frame.
const CLOSED: u8 = 0x00;

/// An open gate, the length of its payload, and the payload's first bytes.
fn opened(alloc: Global, count: u32, front: &[u8]) -> Result<Vec<u8>, NoMemory>
    ensures { IfOk result (λ bytes. bytes.items ≡ 85 ∷ (to_be_bytes w32 count ++ front.now)) }
{
    let mut bytes = Vec::new(alloc);
    bytes.push(OPEN)?;
    bytes.extend_from_slice(&count.to_be_bytes())?;
    bytes.extend_from_slice(front)?;
    Ok(bytes)
}

/// The same, and the length of a text that follows.
fn opened_before_text(
    alloc: Global,
    count: u32,
    front: &[u8],
    length: u32,
) -> Result<Vec<u8>, NoMemory>
    ensures { IfOk result (λ bytes. bytes.items ≡ 85 ∷ (to_be_bytes w32 count ++ (front.now ++ to_be_bytes w32 length))) }
{
    let mut bytes = opened(alloc, count, front)?;
    bytes.extend_from_slice(&length.to_be_bytes())?;
    Ok(bytes)
}

/// Writes bytes whole.
fn write_piece<W: Sink>(bytes: &[u8], out: &mut W) -> Result<(), CutFault>
    ensures writes { Writes (W.told out.old) (W.told out.new) bytes.now result }
    ensures unread { IfErr result IsUnread }
{
    match write_all(out, bytes) {
        Ok(()) => Ok(()),
        Err(fault) => Err(fault_of_write(fault)),
    }
}

/// Writes three pieces, one after the other.
fn write_pieces<W: Sink>(
    first: &[u8],
    second: &[u8],
    third: &[u8],
    out: &mut W,
) -> Result<(), CutFault>
    ensures writes { Writes (W.told out.old) (W.told out.new) (first.now ++ (second.now ++ third.now)) result }
    ensures unread { IfErr result IsUnread }
{
    write_piece(first, out)?;
    write_piece(second, out)?;
    write_piece(third, out)
}

/// Writes the first gate of a file and the frame of a payload. It takes no memory, so that a byte is written unless the sink refuses it.
pub(crate) fn write_first_payload<W: Sink>(payload: &[u8], out: &mut W) -> Result<(), CutFault>
    requires { length payload.now < 2 ^ 32 }
    ensures writes { WritesFirst (payload.now ∷ []) (W.told out.old) (W.told out.new) result }
    ensures unread { IfErr result IsUnread }
{
    let count = payload.len() as u32;
    write_pieces(&[OPEN], &count.to_be_bytes(), payload, out)
}

/// Writes an open gate and the frame of a payload.
pub(crate) fn write_payload<W: Sink>(
    alloc: Global,
    payload: &[u8],
    out: &mut W,
) -> Result<(), CutFault>
    requires { length payload.now < 2 ^ 32 }
    ensures writes { WritesSealed (payload.now ∷ []) (W.told out.old) (W.told out.new) result }
    ensures unread { IfErr result IsUnread }
{
    let opened = opened(alloc, payload.len() as u32, &[])?;
    write_pieces(&opened, payload, &[], out)
}

/// The same of a payload that is a text behind its length between two parts. One of more bytes than a frame has finds no memory.
pub(crate) fn write_with_text<W: Sink>(
    alloc: Global,
    front: &[u8],
    text: &[u8],
    back: &[u8],
    out: &mut W,
) -> Result<(), CutFault>
    requires front { length front.now < 2 ^ 32 }
    requires text { length text.now < 2 ^ 32 }
    requires back { length back.now < 2 ^ 32 }
    ensures writes { WritesSealed (parted front.now text.now back.now ∷ []) (W.told out.old) (W.told out.new) result }
    ensures unread { IfErr result IsUnread }
{
    let count = front.len() as u64 + 4 + text.len() as u64 + back.len() as u64;
    if count > u64::from(u32::MAX) {
        return Err(CutFault::NoMemory);
    }
    let opened = opened_before_text(alloc, count as u32, front, text.len() as u32)?;
    write_pieces(&opened, text, back, out)
}

/// Writes the gate behind the last frame.
pub(crate) fn write_last_gate<W: Sink>(out: &mut W) -> Result<(), CutFault>
    ensures writes { Writes (W.told out.old) (W.told out.new) (0 ∷ []) result }
    ensures unread { IfErr result IsUnread }
{
    write_piece(&[CLOSED], out)
}
