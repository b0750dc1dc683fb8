//! What is read of a command.
//!
//! The 65,536 octets are those of all lines of a command together, with their literal marks, without CRLF and literals. They are
//! told when the CRLF has come. Of a line that is too long no more than its tag is kept until then.
//!
//! A literal that is refused is not taken: its command ends with its line, and the octets that follow are read as lines.
//!
//! A literal is invited on a line without a tag too; the command is refused when it has come whole.
ghost use Rattle.std.specs.Prelude.{◌≡◌, ◌≢◌, ◌+◌, ◌≤◌, length, None, IfOk, OnOk, OnErr};
ghost use Rattle.imap_stream.specs.Commands.{first_line, tag_of_command, nothing, with_literal, awaited, ended, marked, says_next};
ghost use Rattle.imap_stream.specs.Commands as spec;

use crate::marks::{Mark, read_mark, read_tag};
use crate::{BadLine, LineFault, Next, RawCommand};
use std::alloc::Global;
use std::mem;
use undo_base::{MOST_LITERAL, Name, NoMemory, Text, Texts};

/// The most octets of a command without its literals.
pub const MOST_OCTETS: usize = 65536;

/// The most literals of a command.
const MOST_LITERALS: usize = 8;

/// The lines and literals of a command so far.
#[derive(Debug, Drop)]
pub struct Begun {
    pub lines: Texts,
    pub literals: Texts,
    /// How many octets the lines have, literal marks included and CRLF excluded.
    pub octets: usize,
}

/// What a command goes on with.
#[derive(Debug, Drop)]
pub enum Awaits {
    Line,
    Literal { length: u32 },
    /// The end of a line that is too long. The command has this tag.
    End { tag: Option<Name> },
}

/// How many octets of a literal come before the next line.
pub fn octets_awaited(awaits: &Awaits) -> usize
    ensures { result ≡ awaited awaits.now }
{
    match awaits {
        Awaits::Line => 0,
        Awaits::Literal { length } => *length as usize,
        Awaits::End { tag: _ } => 0,
    }
}

/// What a command goes on with after this was told.
pub fn awaits_after(next: &Next) -> Awaits
    ensures { result ≡ spec.awaits_after next.now }
{
    match next {
        Next::Ask { length } => Awaits::Literal { length: *length },
        Next::Command(_command) => Awaits::Line,
        Next::Bad(_line) => Awaits::Line,
        Next::NotYet => Awaits::Line,
    }
}

/// Nothing of a command.
pub fn none_begun(alloc: Global) -> Begun
    ensures { result ≡ nothing }
{
    Begun {
        lines: Texts::new(alloc),
        literals: Texts::new(alloc),
        octets: 0,
    }
}

/// The first line of the command, of which this line is the next.
pub fn opening<'a>(begun: &'a Begun, line: &'a [u8]) -> &'a [u8]
    ensures { result.now ≡ first_line begun.entry.now.lines line.entry.now }
{
    match begun.lines.as_slice() {
        [] => line,
        [first, ..] => first.bytes(),
    }
}

/// The tag of the command, of which this line is the next.
pub fn command_tag(alloc: Global, begun: &Begun, line: &[u8]) -> Result<Option<Name>, NoMemory>
    ensures ok { IfOk result (λ tag. tag ≡ tag_of_command begun.now line.now) }
    ensures err { OnErr result (tag_of_command begun.now line.now ≢ None) }
{
    match read_tag(opening(begun, line)) {
        None => Ok(None),
        Some(tag) => Ok(Some(Name::of(alloc, tag)?)),
    }
}

/// A line that ends the command.
fn bad_line(alloc: Global, begun: &mut Begun, line: &[u8], why: LineFault) -> Result<Next, NoMemory>
    ensures ok { IfOk result (λ next. spec.closed (spec.bad begun.old line.now why) ≡ says_next next begun.new) }
    ensures err { OnErr result (begun.new ≡ begun.old) }
{
    let tag = command_tag(alloc, begun, line)?;
    *begun = none_begun(alloc);
    Ok(Next::Bad(BadLine { tag, why }))
}

/// A line that goes on after a literal.
fn ask(alloc: Global, begun: &mut Begun, line: &[u8], mark: Mark) -> Result<Next, NoMemory>
    requires place { mark.place ≤ length line.now }
    requires size { mark.size ≤ 1048576 }
    requires most { begun.old.octets + length line.now ≤ 65536 }
    ensures ok { IfOk result (λ next. spec.asked begun.old line.now mark ≡ says_next next begun.new) }
    ensures err { OnErr result (begun.new ≡ begun.old) }
{
    let kept = Text::of(alloc, &line[..mark.place])?;
    begun.lines.push(kept)?;
    begun.octets += line.len();
    Ok(Next::Ask {
        length: mark.size as u32,
    })
}

/// A line that ends with a literal mark.
fn end_marked(alloc: Global, begun: &mut Begun, line: &[u8], mark: Mark) -> Result<Next, NoMemory>
    requires place { mark.place ≤ length line.now }
    requires most { begun.old.octets + length line.now ≤ 65536 }
    ensures ok { IfOk result (λ next. marked begun.old line.now mark ≡ says_next next begun.new) }
    ensures err { OnErr result (begun.new ≡ begun.old) }
{
    if mark.size > MOST_LITERAL as u64 {
        bad_line(alloc, begun, line, LineFault::Literal { asked: mark.size })
    } else if begun.literals.len() >= MOST_LITERALS {
        bad_line(alloc, begun, line, LineFault::Many)
    } else {
        ask(alloc, begun, line, mark)
    }
}

/// The last line of a command.
fn whole(alloc: Global, begun: &mut Begun, line: &[u8]) -> Result<Next, NoMemory>
    ensures ok { IfOk result (λ next. spec.finished begun.old line.now ≡ says_next next begun.new) }
    ensures err { OnErr result (begun.new ≡ begun.old) }
{
    let line = Text::of(alloc, line)?;
    begun.lines.push(line)?;
    let done = mem::replace(begun, none_begun(alloc));
    Ok(Next::Command(RawCommand {
        lines: done.lines,
        literals: done.literals,
    }))
}

pub fn end_line(alloc: Global, begun: &mut Begun, line: &[u8]) -> Result<Next, NoMemory>
    requires { begun.old.octets ≤ 65536 }
    ensures ok { IfOk result (λ next. ended begun.old line.now ≡ says_next next begun.new) }
    ensures err { OnErr result (begun.new ≡ begun.old) }
{
    if line.len() > MOST_OCTETS - begun.octets {
        return bad_line(alloc, begun, line, LineFault::Long);
    }
    match read_mark(line) {
        None => whole(alloc, begun, line),
        Some(mark) => end_marked(alloc, begun, line, mark),
    }
}

/// Takes the literal that comes before the next line.
pub fn take_literal(alloc: Global, begun: &mut Begun, literal: &[u8]) -> Result<(), NoMemory>
    ensures ok { OnOk result (begun.new ≡ with_literal begun.old literal.now) }
    ensures err { OnErr result (begun.new ≡ begun.old) }
{
    let literal = Text::of(alloc, literal)?;
    begun.literals.push(literal)
}
