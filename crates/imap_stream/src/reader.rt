//! Reads a stream, as far as it has come.
ghost use Rattle.std.specs.Prelude.{◌≡◌, ◌≢◌, ◌+◌, ◌≤◌, [], length, take, drop, None, IfOk, IfSome, OnOk, OnErr};
ghost use Rattle.imap_stream.specs.Commands.{is_end, end_of, last_byte, awaited, nothing, tag_of_command, TakesNext, WantsMemory};
ghost use Rattle.imap_stream.specs.Holding.{tag_kept};
ghost use Rattle.imap_stream.specs.Reading.{IsSoundReader, IsOpen, IsSearched, IsSettled, EndsAt, Waits, GivesUp, Settles, seen};

use crate::begun::{
    Awaits, Begun, MOST_OCTETS, awaits_after, command_tag, end_line, none_begun, octets_awaited,
    take_literal,
};
use crate::{BadLine, LineFault, Next};
use std::alloc::Global;
use std::mem;
use undo_base::{Name, NoMemory};

/// What is read of a command, and where the reading of the stream stands.
#[derive(Debug, Drop)]
pub struct Reader {
    pub begun: Begun,
    pub awaits: Awaits,
    /// How many bytes are read.
    pub given: usize,
    /// At how many places of the next line no CRLF begins.
    pub scanned: usize,
}

/// At the beginning of a stream.
pub fn first_reader(alloc: Global) -> Reader
    ensures begun { result.begun ≡ nothing }
    ensures awaits { result.awaits ≡ Awaits.Line }
    ensures given { result.given ≡ 0 }
    ensures scanned { result.scanned ≡ 0 }
{
    Reader {
        begun: none_begun(alloc),
        awaits: Awaits::Line,
        given: 0,
        scanned: 0,
    }
}

fn is_line_end(first: u8, second: u8) -> bool
    ensures { result ≡ is_end first second }
{
    first == b'\r' && second == b'\n'
}

/// Where the first CRLF stands, of which it is known that it does not begin at so many first places.
fn line_end(bytes: &[u8], scanned: usize) -> Option<usize>
    requires within { scanned ≤ length bytes.now }
    requires scanned { end_of (take (scanned + 1) bytes.now) ≡ None }
    ensures value { result ≡ end_of bytes.now }
    ensures within { IfSome result (λ end. end + 2 ≤ length bytes.now) }
{
    let mut rest = &bytes[scanned..];
    let mut passed = scanned;
    while let [first, second, ..] = rest {
        if is_line_end(*first, *second) {
            return Some(passed);
        }
        rest = &rest[1..];
        passed += 1;
    }
    None
}

/// From where on is kept what has come of a line that is too long: its last byte.
fn skipped(bytes: &[u8], start: usize) -> usize
    requires { start ≤ length bytes.now }
    ensures within { result ≤ length bytes.now }
    ensures rest { drop result bytes.now ≡ last_byte (drop start bytes.now) }
{
    if start < bytes.len() {
        bytes.len() - 1
    } else {
        start
    }
}

/// Gives a line up that is too long, and what its command has.
fn give_up(alloc: Global, reader: &mut Reader, bytes: &[u8], start: usize) -> Result<(), NoMemory>
    requires { start ≤ length bytes.now }
    ensures ok { OnOk result (GivesUp reader.old bytes.now start reader.new) }
    ensures err { OnErr result (reader.new ≡ reader.old) }
    ensures tag { OnErr result (tag_of_command reader.old.begun (drop start bytes.now) ≢ None) }
{
    let tag = command_tag(alloc, &reader.begun, &bytes[start..])?;
    reader.begun = none_begun(alloc);
    reader.awaits = Awaits::End { tag };
    reader.given = skipped(bytes, start);
    reader.scanned = 0;
    Ok(())
}

/// Waits for the end of a line of a command.
fn wait_in_line(
    alloc: Global,
    reader: &mut Reader,
    bytes: &[u8],
    start: usize,
) -> Result<(), NoMemory>
    requires waits { Waits reader.old bytes.now start }
    requires open { IsOpen reader.old.awaits }
    ensures sound { IsSoundReader reader.new bytes.now }
    ensures none { (seen reader.old bytes.now).said ≡ [] }
    ensures same { seen reader.new bytes.now ≡ seen reader.old bytes.now }
    ensures searched { OnOk result (IsSearched reader.new bytes.now) }
    ensures settled { OnOk result (IsSettled reader.new bytes.now) }
    ensures wants { OnErr result (WantsMemory (seen reader.old bytes.now)) }
{
    let length = bytes.len() - start;
    if length > MOST_OCTETS + 1 - reader.begun.octets {
        give_up(alloc, reader, bytes, start)?;
        return Ok(());
    }
    reader.scanned = length.saturating_sub(1);
    Ok(())
}

/// Waits for the end of a line.
fn wait(alloc: Global, reader: &mut Reader, bytes: &[u8], start: usize) -> Result<(), NoMemory>
    requires { Waits reader.old bytes.now start }
    ensures sound { IsSoundReader reader.new bytes.now }
    ensures none { (seen reader.old bytes.now).said ≡ [] }
    ensures same { seen reader.new bytes.now ≡ seen reader.old bytes.now }
    ensures searched { OnOk result (IsSearched reader.new bytes.now) }
    ensures settled { OnOk result (IsSettled reader.new bytes.now) }
    ensures wants { OnErr result (WantsMemory (seen reader.old bytes.now)) }
{
    match &reader.awaits {
        Awaits::Line => wait_in_line(alloc, reader, bytes, start),
        Awaits::Literal { length: _ } => wait_in_line(alloc, reader, bytes, start),
        Awaits::End { tag: _ } => {
            reader.given = skipped(bytes, start);
            reader.scanned = 0;
            Ok(())
        }
    }
}

/// Puts the literal that stands before the next line into the command.
fn settle(alloc: Global, reader: &mut Reader, bytes: &[u8], start: usize) -> Result<(), NoMemory>
    requires given { reader.old.given ≤ start }
    requires start { start ≤ length bytes.now }
    ensures ok { OnOk result (Settles reader.old bytes.now start reader.new) }
    ensures err { OnErr result (reader.new ≡ reader.old) }
{
    take_literal(alloc, &mut reader.begun, &bytes[reader.given..start])?;
    reader.awaits = Awaits::Line;
    reader.given = start;
    Ok(())
}

/// Ends a line of a command.
fn end(alloc: Global, reader: &mut Reader, bytes: &[u8], place: usize) -> Result<Next, NoMemory>
    requires sound { IsSoundReader reader.old bytes.now }
    requires awaits { reader.old.awaits ≡ Awaits.Line }
    requires end { EndsAt reader.old.given bytes.now place }
    ensures sound { IsSoundReader reader.new bytes.now }
    ensures ok { IfOk result (λ next. TakesNext (seen reader.old bytes.now) next (seen reader.new bytes.now)) }
    ensures err { OnErr result (reader.new ≡ reader.old) }
{
    let from = reader.given;
    let next = end_line(alloc, &mut reader.begun, &bytes[from..from + place])?;
    reader.awaits = awaits_after(&next);
    reader.given = from + place + 2;
    reader.scanned = 0;
    Ok(next)
}

/// The tag of a command whose line is too long.
fn take_tag(awaits: &mut Awaits) -> Option<Name>
    ensures tag { result ≡ tag_kept awaits.old }
    ensures line { awaits.new ≡ Awaits.Line }
{
    match mem::replace(awaits, Awaits::Line) {
        Awaits::Line => None,
        Awaits::Literal { length: _ } => None,
        Awaits::End { tag } => tag,
    }
}

/// Ends a line that is too long.
fn end_long(alloc: Global, reader: &mut Reader, bytes: &[u8], place: usize) -> Next
    requires sound { IsSoundReader reader.old bytes.now }
    requires awaits { reader.old.awaits ≡ Awaits.End (tag_kept reader.old.awaits) }
    requires end { EndsAt reader.old.given bytes.now place }
    ensures sound { IsSoundReader reader.new bytes.now }
    ensures ok { TakesNext (seen reader.old bytes.now) result (seen reader.new bytes.now) }
{
    let tag = take_tag(&mut reader.awaits);
    reader.begun = none_begun(alloc);
    reader.given = reader.given + place + 2;
    reader.scanned = 0;
    Next::Bad(BadLine {
        tag,
        why: LineFault::Long,
    })
}

/// Ends a line, which begins at a place and ends behind it.
fn close(
    alloc: Global,
    reader: &mut Reader,
    bytes: &[u8],
    start: usize,
    place: usize,
) -> Result<Next, NoMemory>
    requires sound { IsSoundReader reader.old bytes.now }
    requires start { start ≡ reader.old.given + awaited reader.old.awaits }
    requires end { EndsAt start bytes.now place }
    ensures sound { IsSoundReader reader.new bytes.now }
    ensures ok { IfOk result (λ next. TakesNext (seen reader.old bytes.now) next (seen reader.new bytes.now)) }
    ensures err { OnErr result (seen reader.new bytes.now ≡ seen reader.old bytes.now) }
    ensures said { (seen reader.old bytes.now).said ≢ [] }
{
    match &reader.awaits {
        Awaits::Line => end(alloc, reader, bytes, place),
        Awaits::Literal { length: _ } => {
            settle(alloc, reader, bytes, start)?;
            end(alloc, reader, bytes, place)
        }
        Awaits::End { tag: _ } => Ok(end_long(alloc, reader, bytes, place)),
    }
}

/// What comes next.
pub fn take_next(alloc: Global, reader: &mut Reader, bytes: &[u8]) -> Result<Next, NoMemory>
    requires { IsSoundReader reader.old bytes.now }
    ensures sound { IsSoundReader reader.new bytes.now }
    ensures ok { IfOk result (λ next. TakesNext (seen reader.old bytes.now) next (seen reader.new bytes.now)) }
    ensures err { OnErr result (seen reader.new bytes.now ≡ seen reader.old bytes.now) }
    ensures wants { OnErr result (WantsMemory (seen reader.old bytes.now)) }
    ensures searched { IfOk result (λ next. next ≡ Next.NotYet → IsSearched reader.new bytes.now) }
    ensures settled { IfOk result (λ next. next ≡ Next.NotYet → IsSettled reader.new bytes.now) }
{
    let before = octets_awaited(&reader.awaits);
    if bytes.len() - reader.given < before {
        return Ok(Next::NotYet);
    }
    let start = reader.given + before;
    match line_end(&bytes[start..], reader.scanned) {
        Some(place) => close(alloc, reader, bytes, start, place),
        None => {
            wait(alloc, reader, bytes, start)?;
            Ok(Next::NotYet)
        }
    }
}
