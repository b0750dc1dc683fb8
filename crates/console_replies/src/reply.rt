//! Whole answers.
//!
//! An answer of more than 4,294,967,295 bytes finds no memory.
ghost use Rattle.std.specs.Prelude.{◌≡◌, ◌++◌, IsTrue, IfOk, OnOk};
ghost use Rattle.std.specs.Fmt.{decimal};
ghost use Rattle.console_replies.specs.Reply.{is_status, reason_of, reply_of, status_line, header_line, type_line, length_line, close_lines, head_lines};

use std::alloc::Global;
use undo_base::{NoMemory, Text};

/// The reason phrase of a status (RFC 9110, 15).
fn reason(status: u16) -> &'static [u8]
    ensures { result.now ≡ reason_of status }
{
    match status {
        200 => b"OK",
        400 => b"Bad Request",
        404 => b"Not Found",
        413 => b"Content Too Large",
        422 => b"Unprocessable Content",
        500 => b"Internal Server Error",
        503 => b"Service Unavailable",
        507 => b"Insufficient Storage",
        _ => b"",
    }
}

fn push_number(alloc: Global, out: &mut Text, number: u64) -> Result<(), NoMemory>
    ensures { OnOk result (out.new ≡ out.old ++ decimal number) }
{
    let digits = format!(in alloc; "{}", number)?;
    out.extend(digits.as_bytes())
}

fn push_status(alloc: Global, out: &mut Text, status: u16) -> Result<(), NoMemory>
    ensures { OnOk result (out.new ≡ out.old ++ status_line status) }
{
    out.extend(b"HTTP/1.1 ")?;
    push_number(alloc, out, status as u64)?;
    out.extend(b" ")?;
    out.extend(reason(status))?;
    out.extend(b"\r\n")
}

#[tactic(auto, unfolding(crate::specs::Reply::header_line))]
fn push_header(out: &mut Text, name: &[u8], value: &[u8]) -> Result<(), NoMemory>
    ensures { OnOk result (out.new ≡ out.old ++ header_line name.now value.now) }
{
    out.extend(name)?;
    out.extend(b": ")?;
    out.extend(value)?;
    out.extend(b"\r\n")
}

#[tactic(auto, unfolding(crate::specs::Reply::type_line))]
fn push_type(out: &mut Text, kind: &[u8]) -> Result<(), NoMemory>
    ensures { OnOk result (out.new ≡ out.old ++ type_line kind.now) }
{
    push_header(out, b"Content-Type", kind)
}

#[tactic(auto, unfolding(crate::specs::Reply::length_line))]
fn push_length(alloc: Global, out: &mut Text, size: usize) -> Result<(), NoMemory>
    ensures { OnOk result (out.new ≡ out.old ++ length_line size) }
{
    let digits = format!(in alloc; "{}", size)?;
    push_header(out, b"Content-Length", digits.as_bytes())
}

#[tactic(auto, unfolding(crate::specs::Reply::close_lines))]
fn push_close(out: &mut Text) -> Result<(), NoMemory>
    ensures { OnOk result (out.new ≡ out.old ++ close_lines) }
{
    out.extend(b"Connection: close\r\n\r\n")
}

fn push_head(alloc: Global, out: &mut Text, kind: &[u8], size: usize) -> Result<(), NoMemory>
    ensures { OnOk result (out.new ≡ out.old ++ head_lines kind.now size) }
{
    push_type(out, kind)?;
    push_length(alloc, out, size)?;
    push_close(out)
}

/// The answer of a status, with a body of a kind. One of more than `MOST_TEXT` bytes finds no memory.
pub fn render(alloc: Global, status: u16, kind: &[u8], body: &[u8]) -> Result<Text, NoMemory>
    requires { IsTrue (is_status status) }
    ensures { IfOk result (λ text. text ≡ reply_of status kind.now body.now) }
{
    let mut out = Text::new(alloc);
    push_status(alloc, &mut out, status)?;
    push_head(alloc, &mut out, kind, body.len())?;
    out.extend(body)?;
    Ok(out)
}
