//! How much of a stream is kept.
ghost use Rattle.std.specs.Prelude.{◌≡◌, ◌+◌, ◌≤◌, ◌<◌, [], drop, length, min};
ghost use Rattle.imap_stream.specs.Commands.{awaited, tag_of_command};
ghost use Rattle.imap_stream.specs.Holding.{octets_in, tag_kept, tag_octets, held_in};
ghost use Rattle.imap_stream.specs.Reading.{IsSoundReader, IsOpen, IsWithin, kept, parts_of, seen};

use crate::begun::{Awaits, Begun, MOST_OCTETS, octets_awaited, opening};
use crate::marks::read_tag;
use crate::reader::Reader;
use undo_base::Text;

/// How many bytes texts have.
fn octets_in(texts: &[Text]) -> usize
    ensures { result ≡ min (octets_in texts.now) 18446744073709551615 }
{
    let mut total: usize = 0;
    for text in texts {
        total = total.saturating_add(text.bytes().len());
    }
    total
}

/// How many bytes are kept of the command that is begun.
fn of_command(begun: &Begun) -> usize
    ensures { result ≡ min (octets_in begun.now.lines + octets_in begun.now.literals) 18446744073709551615 }
{
    octets_in(begun.lines.as_slice()).saturating_add(octets_in(begun.literals.as_slice()))
}

/// How many bytes the tag has of a command whose line is too long.
fn of_tag(awaits: &Awaits) -> usize
    ensures { result ≡ tag_octets (tag_kept awaits.now) }
{
    match awaits {
        Awaits::Line => 0,
        Awaits::Literal { length: _ } => 0,
        Awaits::End { tag: None } => 0,
        Awaits::End { tag: Some(tag) } => tag.bytes().len(),
    }
}

/// How many bytes the tag has of the command, of which this line is the next.
fn tag_length(begun: &Begun, line: &[u8]) -> usize
    ensures { result ≡ tag_octets (tag_of_command begun.now line.now) }
{
    match read_tag(opening(begun, line)) {
        None => 0,
        Some(tag) => tag.len(),
    }
}

/// How many bytes are kept of a line that has not ended, of a command whose lines and literals are kept too. Where it is too long these are the tag
/// and the last byte alone.
fn of_line(begun: &Begun, line: &[u8], came: usize) -> usize
    requires { begun.now.octets ≤ 65536 }
    ensures long { 65537 < begun.now.octets + length line.now → result ≡ tag_octets (tag_of_command begun.now line.now) + 1 }
    ensures short { begun.now.octets + length line.now ≤ 65537 → result ≡ min (octets_in begun.now.lines + octets_in begun.now.literals + came) 18446744073709551615 }
{
    if line.len() > MOST_OCTETS + 1 - begun.octets {
        tag_length(begun, line) + 1
    } else {
        of_command(begun).saturating_add(came)
    }
}

/// What follows so many bytes.
fn behind(bytes: &[u8], count: usize) -> &[u8]
    ensures { result.now ≡ drop count bytes.now }
{
    if count < bytes.len() {
        &bytes[count..]
    } else {
        &[]
    }
}

/// How many bytes are kept of a command, and of a line of it that has not ended.
fn of_open(reader: &Reader, came: &[u8]) -> usize
    requires begun { reader.now.begun.octets ≤ 65536 }
    ensures long { 65537 < reader.now.begun.octets + length (drop (awaited reader.now.awaits) came.now) → result ≡ tag_octets (tag_of_command reader.now.begun (drop (awaited reader.now.awaits) came.now)) + 1 }
    ensures short { reader.now.begun.octets + length (drop (awaited reader.now.awaits) came.now) ≤ 65537 → result ≡ min (octets_in reader.now.begun.lines + octets_in reader.now.begun.literals + length came.now) 18446744073709551615 }
{
    of_line(
        &reader.begun,
        behind(came, octets_awaited(&reader.awaits)),
        came.len(),
    )
}

/// How many bytes are kept of a command that is given up, and of its line.
fn of_end(reader: &Reader, came: &[u8]) -> usize
    ensures { result ≡ min (octets_in reader.now.begun.lines + octets_in reader.now.begun.literals + tag_octets (tag_kept reader.now.awaits) + min (length came.now) 1) 18446744073709551615 }
{
    of_command(&reader.begun)
        .saturating_add(of_tag(&reader.awaits))
        .saturating_add(came.len().min(1))
}

/// How many bytes were taken out of the stream, and are kept.
pub fn parts(reader: &Reader) -> usize
    requires begun { reader.now.begun.octets ≤ 65536 }
    requires limits { IsWithin reader.now.awaits reader.now.begun }
    ensures value { result ≡ parts_of reader.now }
    ensures most { parts_of reader.now ≤ 8454208 }
{
    of_command(&reader.begun).saturating_add(of_tag(&reader.awaits))
}

/// How many bytes are kept where nothing is whole.
pub fn held(reader: &Reader, bytes: &[u8]) -> usize
    requires { IsSoundReader reader.now bytes.now }
    ensures { (seen reader.now bytes.now).said ≡ [] → result ≡ held_in (seen reader.now bytes.now) }
{
    let came = behind(bytes, reader.given);
    match &reader.awaits {
        Awaits::Line => of_open(reader, came),
        Awaits::Literal { length: _ } => of_open(reader, came),
        Awaits::End { tag: _ } => of_end(reader, came),
    }
}
