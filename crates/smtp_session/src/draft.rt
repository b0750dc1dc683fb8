//! A text as it comes, line by line (RFC 5321, section 4.5.2).
//!
//! A text is `None` once it is too large. A line that a cutter cut makes it so by the same rule: what is kept of it has 1,048,576
//! bytes.
//!
//! In a text a line that was cut makes the text too large by rule, whatever its length.
ghost use Rattle.std.specs.Prelude.{◌≡◌, ◌+◌, ◌++◌, IfOk, OnOk, OnErr, length, ◌≤◌, option_map, option_copied, unwrap_or, vec_capacity, vec_len, []};
ghost use Rattle.smtp_session.specs.Bytes.{said};
ghost use Rattle.smtp_session.specs.Body.{body_of};
ghost use Rattle.smtp_session.specs.Text.{add_line, add_whole};

use crate::body::make_body;
use smtp_lines::{SmtpLine, unstuff};
use std::alloc::Global;
use std::mem;
use undo_base::{LAST_MOMENT, MOST_LITERAL, Name, NoMemory, Text};

/// Adds bytes for which there is room.
fn put(bytes: &mut Vec<u8>, more: &[u8])
    requires { vec_len bytes.old + length more.now ≤ vec_capacity bytes.old }
    ensures items { bytes.new.items ≡ bytes.old.items ++ more.now }
    ensures len { vec_len bytes.new ≡ vec_len bytes.old + length more.now }
    ensures room { vec_capacity bytes.old ≤ vec_capacity bytes.new }
{
    let Ok(()) = bytes.extend_from_slice(more) else {
        unreachable!()
    };
}

/// Adds a line with its CRLF, or nothing where there is no memory for both.
fn put_ended(bytes: &mut Vec<u8>, line: &[u8]) -> Result<(), NoMemory>
    requires { length line.now ≤ MOST_LITERAL }
    ensures ok { OnOk result (bytes.new.items ≡ bytes.old.items ++ said line.now) }
    ensures err { OnErr result (bytes.new.items ≡ bytes.old.items) }
    ensures most { length bytes.new.items ≤ length bytes.old.items + (length line.now + 2) }
{
    bytes.reserve(line.len() + 2)?;
    put(bytes, line);
    put(bytes, b"\r\n");
    Ok(())
}

/// The same at the end of a text: the line is copied once.
fn push_ended(alloc: Global, text: &mut Text, line: &[u8]) -> Result<(), NoMemory>
    requires { length text.old + (length line.now + 2) ≤ MOST_LITERAL }
    ensures ok { OnOk result (text.new ≡ text.old ++ said line.now) }
    ensures err { OnErr result (text.new ≡ text.old) }
{
    let mut bytes = mem::replace(text, Text::new(alloc)).into_vec();
    let added = put_ended(&mut bytes, line);
    *text = Text::from_vec(bytes);
    added
}

/// Adds a whole line to a text, which is none once it has more than `MOST_LITERAL` octets.
fn push_whole(alloc: Global, text: &mut Option<Text>, line: &[u8]) -> Result<(), NoMemory>
    ensures ok { OnOk result (text.new ≡ add_whole text.old line.now) }
    ensures err { OnErr result (text.new ≡ text.old) }
{
    let Some(held) = text else {
        return Ok(());
    };
    let line = unstuff(line);
    if held.bytes().len() + line.len() + 2 > MOST_LITERAL {
        *text = None;
        return Ok(());
    }
    push_ended(alloc, held, line)
}

/// Adds a line to a text. One that was cut makes the text too large.
pub(crate) fn push_line(
    alloc: Global,
    text: &mut Option<Text>,
    line: &SmtpLine,
) -> Result<(), NoMemory>
    ensures ok { OnOk result (text.new ≡ add_line text.old line.now) }
    ensures err { OnErr result (text.new ≡ text.old) }
{
    if line.long {
        *text = None;
        return Ok(());
    }
    push_whole(alloc, text, line.bytes.bytes())
}

/// The body of a text that has ended; none where the text was too large.
pub(crate) fn end_draft(
    alloc: Global,
    host: &Name,
    at: u64,
    client: Option<&Name>,
    path: &Text,
    text: &Option<Text>,
) -> Result<Option<Text>, NoMemory>
    requires { at ≤ LAST_MOMENT }
    ensures { IfOk result (λ body. body ≡ option_map (body_of host.now at (unwrap_or (option_copied client.entry) []) path.now) text.now) }
{
    match text {
        None => Ok(None),
        Some(text) => {
            let body = make_body(alloc, host, at, client, path, text)?;
            Ok(Some(body))
        }
    }
}
