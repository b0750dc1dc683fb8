//! Lines that no command of the dialog answers: the greeting, bad lines, invitations and last words.
ghost use Rattle.std.specs.Prelude.{◌≡◌, IfOk};
ghost use Rattle.verb_core.specs.declared.ask.Refused.TheVariants.{NoMemory as WithoutMemory};
ghost use Rattle.imap_session.specs.Words as spec;

use crate::words::{Answer, tagged};
use imap_lines::{BadLine, ImapRefused, LineFault};
use std::alloc::Global;
use undo_base::{Name, NoMemory, Text};
use verb_core::{House, Refused};

/// What a new connection is told.
pub fn greeting(alloc: Global, house: &House) -> Result<Text, NoMemory>
    ensures { IfOk result (λ text. text ≡ spec.greeting_text house.now) }
{
    let mut text = Text::of(alloc, b"* OK ")?;
    text.extend(house.host.bytes())?;
    text.extend(b" IMAP4rev1 undomail\r\n")?;
    Ok(text)
}

fn fault_answer(why: LineFault) -> &'static [u8]
    ensures { result.now ≡ spec.fault_answer why }
{
    match why {
        LineFault::Long => b"BAD Line too long.",
        LineFault::Literal { asked: _ } => b"NO Too large.",
        LineFault::Many => b"BAD Too many literals.",
    }
}

fn tag_or_star(alloc: Global, tag: &Option<Name>) -> Result<Text, NoMemory>
    ensures { IfOk result (λ text. text ≡ spec.tag_or_star tag.now) }
{
    match tag {
        Some(tag) => Text::of(alloc, tag.bytes()),
        None => Text::of(alloc, b"*"),
    }
}

/// The answer to a bad line.
pub fn bad_line(alloc: Global, line: &BadLine) -> Result<Text, NoMemory>
    ensures { IfOk result (λ text. text ≡ spec.bad_line_text line.now) }
{
    let mut text = tag_or_star(alloc, &line.tag)?;
    text.extend(b" ")?;
    text.extend(fault_answer(line.why))?;
    text.extend(b"\r\n")?;
    Ok(text)
}

/// The answer to lines that are no command: nothing, where no memory was found for reading them.
pub fn refused(alloc: Global, why: &ImapRefused) -> Result<Text, NoMemory>
    ensures { IfOk result (λ text. text ≡ spec.unread_text why.now) }
{
    match why {
        ImapRefused::NoTag => Text::of(alloc, b"* BAD No tag.\r\n"),
        ImapRefused::Unknown { tag } => tagged(alloc, tag, Answer::UnknownCommand),
        ImapRefused::Argument { tag } => tagged(alloc, tag, Answer::BadArguments),
        ImapRefused::NoMemory => Ok(Text::new(alloc)),
    }
}

/// What is told of want of memory to the command of a tag.
pub fn no_memory(alloc: Global, tag: &Name) -> Result<Text, NoMemory>
    ensures { IfOk result (λ text. text ≡ spec.tagged tag.now (Answer.Refused WithoutMemory)) }
{
    tagged(alloc, tag, Answer::Refused(Refused::NoMemory))
}

/// A literal is invited. Takes no memory.
pub fn ready() -> &'static [u8]
    ensures { result.now ≡ spec.ready_text }
{
    b"+ Ready.\r\n"
}

/// The last words to a session whose mailbox another one renamed or deleted. Takes no memory.
pub fn changed() -> &'static [u8]
    ensures { result.now ≡ spec.changed_text }
{
    b"* BYE Mailbox changed.\r\n"
}

/// The last words to every session after a cycle. Takes no memory.
pub fn rewound() -> &'static [u8]
    ensures { result.now ≡ spec.rewound_text }
{
    b"* BYE The store was rewound.\r\n"
}

/// The last words to every session after an upgrade. Takes no memory.
pub fn upgraded() -> &'static [u8]
    ensures { result.now ≡ spec.upgraded_text }
{
    b"* BYE The store was upgraded.\r\n"
}
