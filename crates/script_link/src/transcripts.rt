//! Transcripts of what was sent.
ghost use Rattle.std.specs.Prelude.{◌≡◌, ◌++◌, ◌-◌, IfOk, OnOk, IsTrue, decimal, nat_eq, length, take, ◌≤◌};
ghost use Rattle.std.specs.List.{flat_map, ends_with};
ghost use Rattle.script_link.specs.Pieces.{pieces_of};
ghost use Rattle.script_link.specs.Texts.{spelled};
ghost use Rattle.undo_base.specs.LineEnd.{crlf};
ghost use Rattle.script_link.specs.Transcript.{lf, piece_text, note_text, transcript_of};

use crate::pieces::first_piece;
use crate::texts::write_bytes;
use std::alloc::Global;
use undo_base::{NoMemory, Text};
use undo_outside::{LinkNote, LinkNotes};

/// What was sent over a link, and which connections were closed, line by line.
pub fn transcript(alloc: Global, log: &LinkNotes) -> Result<Text, NoMemory>
    ensures { IfOk result (λ text. text ≡ transcript_of log.now) }
{
    let mut out = Text::new(alloc);
    for note in log.as_slice() {
        write_note(alloc, &mut out, note)?;
    }
    Ok(out)
}

fn write_note(alloc: Global, out: &mut Text, note: &LinkNote) -> Result<(), NoMemory>
    ensures { OnOk result (out.new ≡ out.old ++ note_text note.now) }
{
    match note {
        LinkNote::Sent { conn, bytes } => write_string(alloc, out, *conn, bytes.bytes()),
        LinkNote::Closed { conn } => {
            write_number(alloc, out, *conn)?;
            out.extend(b" closed\n")
        }
        _ => Ok(()),
    }
}

/// Writes the pieces of a string.
fn write_string(alloc: Global, out: &mut Text, conn: u32, bytes: &[u8]) -> Result<(), NoMemory>
    ensures { OnOk result (out.new ≡ out.old ++ flat_map (piece_text conn) (pieces_of bytes.now)) }
{
    let mut rest = bytes;
    while !rest.is_empty() {
        let (piece, others) = first_piece(rest);
        write_piece(alloc, out, conn, piece)?;
        rest = others;
    }
    Ok(())
}

fn write_piece(alloc: Global, out: &mut Text, conn: u32, piece: &[u8]) -> Result<(), NoMemory>
    ensures { OnOk result (out.new ≡ out.old ++ piece_text conn piece.now) }
{
    if is_line(piece) {
        write_marked(alloc, out, conn, b"< ", front(piece, piece.len() - 2))
    } else {
        write_marked(alloc, out, conn, b"+ ", piece)
    }
}

fn is_line(piece: &[u8]) -> bool
    ensures two { IsTrue result → 2 ≤ length piece.now }
    ensures value { result ≡ ends_with nat_eq piece.now crlf }
{
    piece.ends_with(b"\r\n")
}

fn front(bytes: &[u8], count: usize) -> &[u8]
    requires { count ≤ length bytes.now }
    ensures { result.now ≡ take count bytes.now }
{
    &bytes[..count]
}

fn write_marked(
    alloc: Global,
    out: &mut Text,
    conn: u32,
    mark: &[u8],
    text: &[u8],
) -> Result<(), NoMemory>
    ensures { OnOk result (out.new ≡ out.old ++ (decimal conn ++ mark.now ++ flat_map spelled text.now ++ lf)) }
{
    write_number(alloc, out, conn)?;
    out.extend(mark)?;
    write_bytes(out, text)?;
    out.extend(b"\n")
}

/// Adds a number in digits.
fn write_number(alloc: Global, out: &mut Text, number: u32) -> Result<(), NoMemory>
    ensures { OnOk result (out.new ≡ out.old ++ decimal number) }
{
    let digits = format!(in alloc; "{number}")?;
    out.extend(digits.as_bytes())
}
