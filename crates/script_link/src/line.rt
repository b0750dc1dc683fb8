//! What one line of a script says.
//!
//! `line C ` with nothing behind the space is an empty text; only `data` demands a byte. A CR before LF is a byte of the line, so
//! it makes every line bad but a comment's.
//!
//! A connection that is not open may be named in a script; such events are ignored when they are served.
ghost use Rattle.std.specs.Prelude.{◌≡◌, ◌≤◌, ◌-◌, length, nat_eq, replicate, option_map, option_and_then, IfOk, IsTrue};
ghost use Rattle.std.specs.List.{starts_with};
ghost use Rattle.std.specs.Str.{bytes_eq};
ghost use Rattle.undo_outside.specs.declared.event.What.TheVariants.{Joined, Bytes, Idle};
ghost use Rattle.undo_base.specs.Digits.{number_between};
ghost use Rattle.script_link.specs.Numbers.{moment_of};
ghost use Rattle.script_link.specs.Line as spec;
ghost use Rattle.script_link.specs.Line.{said, event_of, is_skipped, first_part, other_parts, happens, happens_at, at_line, open_line, text_line, data_line, filling, filled, fill_line, gone_line, script_line};

use crate::numbers::{read_conn, read_moment};
use crate::pieces::{before_space, behind_space};
use crate::texts::unspell;
use std::alloc::Global;
use undo_base::{NoMemory, Text, after, read_number};
use undo_outside::{Event, Role, What};

/// What a line of a script says.
#[derive(Drop)]
pub enum ScriptLine {
    Skipped,
    Moment(u64),
    Happens(Event),
    Bad,
}

fn is_skipped_line(line: &[u8]) -> bool
    ensures { result ≡ is_skipped line.now }
{
    line.is_empty() || line[0] == b'#'
}

fn moment_line(text: &[u8]) -> ScriptLine
    ensures { result ≡ at_line (moment_of text.now) }
{
    match read_moment(text) {
        Some(moment) => ScriptLine::Moment(moment),
        None => ScriptLine::Bad,
    }
}

fn is_text(line: &[u8], text: &[u8]) -> bool
    ensures { result ≡ bytes_eq line.now text.now }
{
    line == text
}

fn has_prefix(line: &[u8], prefix: &[u8]) -> bool
    ensures bound { IsTrue result → length prefix.now ≤ length line.now }
    ensures value { result ≡ starts_with nat_eq line.now prefix.now }
{
    line.starts_with(prefix)
}

/// A line that says nothing of the grammar is bad.
fn happening(event: Option<Event>) -> ScriptLine
    ensures { result ≡ happens event }
{
    match event {
        Some(event) => ScriptLine::Happens(event),
        None => ScriptLine::Bad,
    }
}

/// What happens at the connection that a text names, if it is something.
fn event_at(at: u64, conn: &[u8], what: Option<What>) -> ScriptLine
    ensures { result ≡ happens (happens_at at conn.now what) }
{
    match read_conn(conn) {
        Some(conn) => happening(what.map(|what| Event { conn, at, what })),
        None => ScriptLine::Bad,
    }
}

fn joined(role: Option<Role>) -> Option<What>
    ensures { result ≡ option_map Joined role }
{
    match role {
        Some(role) => Some(What::Joined(role)),
        None => None,
    }
}

#[tactic(auto, unfolding(crate::specs::Line::open_line))]
fn read_open(at: u64, rest: &[u8]) -> ScriptLine
    ensures { result ≡ open_line at rest.now }
{
    event_at(
        at,
        before_space(rest),
        joined(Role::with_word(behind_space(rest))),
    )
}

fn said_bytes(bytes: Option<Text>) -> Result<Option<What>, NoMemory>
    ensures { IfOk result (λ what. what ≡ option_map (λ text. Bytes (said text)) bytes) }
{
    match bytes {
        Some(mut bytes) => {
            bytes.extend(b"\r\n")?;
            Ok(Some(What::Bytes(bytes)))
        }
        None => Ok(None),
    }
}

#[tactic(auto, unfolding(crate::specs::Line::text_line))]
fn read_text(alloc: Global, at: u64, rest: &[u8]) -> Result<ScriptLine, NoMemory>
    ensures { IfOk result (λ line. line ≡ text_line at rest.now) }
{
    let bytes = unspell(alloc, behind_space(rest))?;
    Ok(event_at(at, before_space(rest), said_bytes(bytes)?))
}

/// Bytes, if there are any.
fn some_bytes(bytes: Text) -> Option<What>
    ensures { result ≡ spec.some_bytes bytes }
{
    if bytes.bytes().is_empty() {
        None
    } else {
        Some(What::Bytes(bytes))
    }
}

#[tactic(auto, unfolding(crate::specs::Line::data_line))]
fn read_data(alloc: Global, at: u64, rest: &[u8]) -> Result<ScriptLine, NoMemory>
    ensures { IfOk result (λ line. line ≡ data_line at rest.now) }
{
    let bytes = unspell(alloc, behind_space(rest))?;
    Ok(event_at(at, before_space(rest), bytes.and_then(some_bytes)))
}

/// The letters of a line of a size, and CRLF.
fn filled_line(alloc: Global, size: u64) -> Result<Text, NoMemory>
    requires { 2 ≤ size }
    ensures { IfOk result (λ line. line ≡ said (replicate (size - 2) 97)) }
{
    let mut line = Text::new(alloc);
    for _ in 0..size - 2 {
        line.extend(b"a")?;
    }
    line.extend(b"\r\n")?;
    Ok(line)
}

/// So many lines of a size.
#[tactic(auto, using(crate::proofs::Fillings::filled_more))]
fn fill(alloc: Global, lines: u64, size: u64) -> Result<Text, NoMemory>
    requires { 2 ≤ size }
    ensures { IfOk result (λ text. text ≡ filling lines size) }
{
    let filled = filled_line(alloc, size)?;
    let line = filled.bytes();
    let mut text = Text::new(alloc);
    for _ in 0..lines {
        text.extend(line)?;
    }
    Ok(text)
}

fn read_filling(alloc: Global, numbers: &[u8]) -> Result<Option<What>, NoMemory>
    ensures { IfOk result (λ what. what ≡ filled numbers.now) }
{
    let Some(lines) = read_number(1, 2000, before_space(numbers)) else {
        return Ok(None);
    };
    let Some(size) = read_number(2, 1000, behind_space(numbers)) else {
        return Ok(None);
    };
    Ok(Some(What::Bytes(fill(alloc, lines, size)?)))
}

#[tactic(auto, unfolding(crate::specs::Line::fill_line))]
fn read_fill(alloc: Global, at: u64, rest: &[u8]) -> Result<ScriptLine, NoMemory>
    ensures { IfOk result (λ line. line ≡ fill_line at rest.now) }
{
    let what = read_filling(alloc, behind_space(rest))?;
    Ok(event_at(at, before_space(rest), what))
}

#[tactic(auto, unfolding(crate::specs::Line::gone_line))]
fn read_gone(at: u64, rest: &[u8]) -> ScriptLine
    ensures { result ≡ gone_line at rest.now }
{
    event_at(at, rest, Some(What::Left))
}

fn idle_line(at: u64) -> ScriptLine
    ensures { result ≡ ScriptLine.Happens (event_of 0 at Idle) }
{
    ScriptLine::Happens(Event {
        conn: 0,
        at,
        what: What::Idle,
    })
}

/// What a line says at a moment.
#[tactic(auto, unfolding(crate::specs::Line::script_line))]
pub fn read_line(alloc: Global, at: u64, line: &[u8]) -> Result<ScriptLine, NoMemory>
    ensures { IfOk result (λ r. r ≡ script_line at line.now) }
{
    if is_skipped_line(line) {
        Ok(ScriptLine::Skipped)
    } else if has_prefix(line, b"at ") {
        Ok(moment_line(after(line, 3)))
    } else if has_prefix(line, b"open ") {
        Ok(read_open(at, after(line, 5)))
    } else if has_prefix(line, b"line ") {
        read_text(alloc, at, after(line, 5))
    } else if has_prefix(line, b"data ") {
        read_data(alloc, at, after(line, 5))
    } else if has_prefix(line, b"fill ") {
        read_fill(alloc, at, after(line, 5))
    } else if has_prefix(line, b"gone ") {
        Ok(read_gone(at, after(line, 5)))
    } else if is_text(line, b"idle") {
        Ok(idle_line(at))
    } else {
        Ok(ScriptLine::Bad)
    }
}
