//! Answers to an SMTP client.
ghost use Rattle.std.specs.Prelude.{◌≡◌, ℕ, ◌++◌, List, IfOk, codes, decimal};
ghost use Rattle.smtp_session.specs.Bytes.{said};
ghost use Rattle.smtp_session.specs.Answer.{answer_text, delivery_refused};

use std::alloc::Global;
use undo_base::{Name, NoMemory, Text};
use verb_core::{Ask, House, Refused};

/// What comes of a line: nothing, an answer, an ask of the store whose outcome is due then, or the last answer, after
/// which the connection is closed.
#[derive(Drop)]
pub enum SmtpOut {
    Nothing,
    Say(Text),
    Mail(Ask),
    Bye(Text),
}

/// What an SMTP client is answered (RFC 5321, section 4.2.3).
#[derive(Clone, Copy)]
pub enum Answer {
    Ready,
    Host,
    Done,
    Begin,
    Stored { number: u32 },
    CannotVerify,
    Closing,
    LineTooLong,
    UnknownCommand,
    NotImplemented,
    BadArgument,
    UnknownParameter,
    BadSequence,
    TooManyRecipients,
    NoMailbox,
    TextTooLarge,
    MailboxFull,
    NumbersUsedUp,
    NoMemory,
    DiskFault,
}

/// A line with the host's name between its ends.
fn with_host(alloc: Global, front: &[u8], host: &[u8], back: &[u8]) -> Result<Text, NoMemory>
    ensures { IfOk result (λ text. text ≡ said (front.now ++ host.now ++ back.now)) }
{
    let mut text = Text::of(alloc, front)?;
    text.extend(host)?;
    text.extend(back)?;
    text.extend(b"\r\n")?;
    Ok(text)
}

fn stored(alloc: Global, number: u32) -> Result<Text, NoMemory>
    ensures { IfOk result (λ text. text ≡ said (codes "250 OK " ++ decimal number)) }
{
    let text = format!(in alloc; "250 OK {number}\r\n")?;
    Text::of(alloc, text.as_bytes())
}

/// The text of an answer.
pub(crate) fn write_answer(alloc: Global, host: &[u8], answer: Answer) -> Result<Text, NoMemory>
    ensures { IfOk result (λ text. text ≡ answer_text host.now answer) }
{
    match answer {
        Answer::Ready => with_host(alloc, b"220 ", host, b" ESMTP undomail"),
        Answer::Host => with_host(alloc, b"250 ", host, b""),
        Answer::Done => Text::of(alloc, b"250 OK\r\n"),
        Answer::Begin => Text::of(alloc, b"354 End with a line of one dot\r\n"),
        Answer::Stored { number } => stored(alloc, number),
        Answer::CannotVerify => Text::of(alloc, b"252 Cannot verify\r\n"),
        Answer::Closing => with_host(alloc, b"221 ", host, b" closing"),
        Answer::LineTooLong => Text::of(alloc, b"500 Line too long\r\n"),
        Answer::UnknownCommand => Text::of(alloc, b"500 Unknown command\r\n"),
        Answer::NotImplemented => Text::of(alloc, b"502 Not implemented\r\n"),
        Answer::BadArgument => Text::of(alloc, b"501 Bad argument\r\n"),
        Answer::UnknownParameter => Text::of(alloc, b"555 Parameter not known\r\n"),
        Answer::BadSequence => Text::of(alloc, b"503 Bad sequence\r\n"),
        Answer::TooManyRecipients => Text::of(alloc, b"452 Too many recipients\r\n"),
        Answer::NoMailbox => Text::of(alloc, b"550 No such mailbox\r\n"),
        Answer::TextTooLarge => Text::of(alloc, b"552 Text too large\r\n"),
        Answer::MailboxFull => Text::of(alloc, b"552 Mailbox full\r\n"),
        Answer::NumbersUsedUp => Text::of(alloc, b"552 Numbers used up\r\n"),
        Answer::NoMemory => Text::of(alloc, memory_text()),
        Answer::DiskFault => with_host(alloc, b"421 ", host, b" disk fault"),
    }
}

/// An answer, after which the dialog goes on.
pub(crate) fn say(alloc: Global, host: &Name, answer: Answer) -> Result<SmtpOut, NoMemory>
    ensures { IfOk result (λ out. out ≡ SmtpOut.Say (answer_text host.now answer)) }
{
    let text = write_answer(alloc, host.bytes(), answer)?;
    Ok(SmtpOut::Say(text))
}

/// The last answer.
pub(crate) fn say_bye(alloc: Global, host: &Name, answer: Answer) -> Result<SmtpOut, NoMemory>
    ensures { IfOk result (λ out. out ≡ SmtpOut.Bye (answer_text host.now answer)) }
{
    let text = write_answer(alloc, host.bytes(), answer)?;
    Ok(SmtpOut::Bye(text))
}

/// What a new connection is told.
pub fn greeting(alloc: Global, house: &House) -> Result<Text, NoMemory>
    ensures { IfOk result (λ text. text ≡ answer_text house.now.host Answer.Ready) }
{
    write_answer(alloc, house.host.bytes(), Answer::Ready)
}

/// What is told of want of memory, which takes none.
pub fn memory_text() -> &'static [u8]
    ensures { (host : List ℕ) → result.now ≡ answer_text host Answer.NoMemory }
{
    b"452 No memory\r\n"
}

/// The answer to a delivery that is refused.
pub(crate) fn answer_to_delivery(refused: Refused) -> Answer
    ensures { result ≡ delivery_refused refused }
{
    match refused {
        Refused::UidWide => Answer::MailboxFull,
        Refused::Numbers { next: _ } => Answer::NumbersUsedUp,
        Refused::NoMemory => Answer::NoMemory,
        Refused::NoBox => Answer::NoMemory,
        Refused::Exists => Answer::NoMemory,
        Refused::HasInferiors => Answer::NoMemory,
        Refused::Fixed => Answer::NoMemory,
        Refused::NameShape => Answer::NoMemory,
        Refused::TryCreate => Answer::NoMemory,
        Refused::Gone => Answer::NoMemory,
        Refused::TooMany { asked: _ } => Answer::NoMemory,
        Refused::TooLarge { asked: _ } => Answer::NoMemory,
        Refused::BoxesFull => Answer::NoMemory,
    }
}
