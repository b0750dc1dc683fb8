//! A text as it is sent.
//!
//! An empty text is sent as one empty line. Lines end at CRLF alone: a dot behind a bare CR or LF is not doubled. TOP of a text
//! without an empty line tells all of it. RETR's octets are those that are stored.
ghost use Rattle.std.specs.Prelude.{◌≡◌, ◌≤◌, ◌<◌, ◌++◌, ◌∷◌, [], drop, flat_map, length, take, IfOk, OnOk};
ghost use Rattle.header_fields.specs.Lines.{is_end, joined, lines_of};
ghost use Rattle.std.specs.Prelude.{codes};
ghost use Rattle.pop_session.specs.Answer.{answer_text};
ghost use Rattle.pop_session.specs.Answer as words;
ghost use Rattle.pop_session.specs.Sending as spec;

use crate::answer::{Answer, write_answer};
use header_fields::header_len;
use std::alloc::Global;
use undo_base::{NoMemory, Text, after, before};

const CR: u8 = 13;

const LF: u8 = 10;

fn is_line_end(first: u8, second: u8) -> bool
    ensures { result ≡ is_end first second }
{
    first == CR && second == LF
}

/// How long the first line is, with its CRLF; all the bytes where there is none.
fn line_len(bytes: &[u8]) -> usize
    ensures within { result ≤ length bytes.now }
    ensures some { 0 < length bytes.now → 0 < result }
    ensures line { 0 < length bytes.now → lines_of bytes.now ≡ take result bytes.now ∷ lines_of (drop result bytes.now) }
{
    let mut rest = bytes;
    let mut passed = 0;
    while let [first, second, ..] = rest {
        if is_line_end(*first, *second) {
            return passed + 2;
        }
        rest = after(rest, 1);
        passed += 1;
    }
    bytes.len()
}

/// Adds a line, with one dot more where it begins with one.
fn push_dotted(text: &mut Text, line: &[u8]) -> Result<(), NoMemory>
    ensures { OnOk result (text.new ≡ text.old ++ spec.dotted line.now) }
{
    match line {
        [b'.', ..] => text.extend(b".")?,
        _ => {}
    }
    text.extend(line)
}

/// Adds the lines of bytes.
fn push_lines(text: &mut Text, bytes: &[u8]) -> Result<(), NoMemory>
    ensures { OnOk result (text.new ≡ text.old ++ flat_map spec.dotted (lines_of bytes.now)) }
{
    let mut rest = bytes;
    while let [_, ..] = rest {
        let count = line_len(rest);
        let line = before(rest, count);
        push_dotted(text, line)?;
        rest = after(rest, count);
    }
    Ok(())
}

fn ends_in_line_end(bytes: &[u8]) -> bool
    ensures { result ≡ spec.ends_in_line_end bytes.now }
{
    after(bytes, bytes.len().saturating_sub(2)) == b"\r\n".as_slice()
}

/// Adds bytes as they are sent.
fn push_sent(text: &mut Text, bytes: &[u8]) -> Result<(), NoMemory>
    ensures { OnOk result (text.new ≡ text.old ++ spec.sent bytes.now) }
{
    push_lines(text, bytes)?;
    if !ends_in_line_end(bytes) {
        text.extend(b"\r\n")?;
    }
    Ok(())
}

/// How many bytes so many lines have.
fn lines_len(bytes: &[u8], count: u64) -> usize
    ensures within { result ≤ length bytes.now }
    ensures value { take result bytes.now ≡ joined (take count (lines_of bytes.now)) }
{
    let mut passed = 0;
    let mut rest = bytes;
    let mut left = count;
    while left > 0 {
        let len = line_len(rest);
        passed += len;
        rest = after(rest, len);
        left -= 1;
    }
    passed
}

/// The header with its empty line, and so many lines of the rest.
fn top(bytes: &[u8], count: u64) -> &[u8]
    ensures { result.now ≡ spec.top count bytes.now }
{
    let head = header_len(bytes);
    let rest = after(bytes, head);
    let more = lines_len(rest, count);
    before(bytes, head + more)
}

fn answer_with(alloc: Global, answer: Answer, bytes: &[u8]) -> Result<Text, NoMemory>
    ensures { IfOk result (λ text. text ≡ answer_text answer ++ (spec.sent bytes.now ++ words.said (codes "."))) }
{
    let mut text = write_answer(alloc, answer)?;
    push_sent(&mut text, bytes)?;
    text.extend(b".\r\n")?;
    Ok(text)
}

/// The answer to RETR, or to TOP with its number of lines.
pub(crate) fn retrieved(
    alloc: Global,
    size: u32,
    lines: Option<u64>,
    bytes: &[u8],
) -> Result<Text, NoMemory>
    ensures { IfOk result (λ text. text ≡ spec.retrieved size lines bytes.now) }
{
    match lines {
        None => answer_with(alloc, Answer::Octets { size }, bytes),
        Some(count) => answer_with(alloc, Answer::Done, top(bytes, count)),
    }
}
