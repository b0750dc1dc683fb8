//! Answers to a client.
ghost use Rattle.std.specs.Prelude.{◌≡◌, ◌∷◌, [], ◌++◌, IfOk, OnOk, codes, decimal};
ghost use Rattle.pop_session.specs.Answer as spec;

use crate::command::LineRefused;
use seal_log::ReadFault;
use std::alloc::Global;
use undo_base::{NoMemory, Text};
use verb_core::Refused;

/// What a client is told in one line (RFC 1939, section 3).
#[derive(Clone, Copy)]
pub enum Answer {
    Ready,
    Done,
    Marked,
    Closing,
    /// How many messages there are.
    Messages { count: u64 },
    /// How many messages there are, and their octets.
    Total { count: u64, octets: u64 },
    /// The octets of a message.
    Size { number: u64, size: u32 },
    /// The unique id of a message.
    Unique { number: u64, stamp: u32, uid: u64 },
    /// A text of so many octets follows.
    Octets { size: u32 },
    LineTooLong,
    UnknownCommand,
    BadArgument,
    WrongState,
    NoSuchMessage,
    LoginFailed,
    InUse,
    MessageGone,
    TooMany,
    DiskFault,
    NumbersUsedUp,
    NoMemory,
}

fn messages(alloc: Global, count: u64) -> Result<Text, NoMemory>
    ensures { IfOk result (λ text. text ≡ spec.said (codes "+OK " ++ decimal count ++ codes " messages")) }
{
    let text = format!(in alloc; "+OK {count} messages\r\n")?;
    Text::of(alloc, text.as_bytes())
}

fn total(alloc: Global, count: u64, octets: u64) -> Result<Text, NoMemory>
    ensures { IfOk result (λ text. text ≡ spec.said (codes "+OK " ++ spec.pair_text count 32 octets)) }
{
    let text = format!(in alloc; "+OK {count} {octets}\r\n")?;
    Text::of(alloc, text.as_bytes())
}

fn size_of(alloc: Global, number: u64, size: u32) -> Result<Text, NoMemory>
    ensures { IfOk result (λ text. text ≡ spec.said (codes "+OK " ++ spec.size_text number size)) }
{
    let text = format!(in alloc; "+OK {number} {size}\r\n")?;
    Text::of(alloc, text.as_bytes())
}

fn unique(alloc: Global, number: u64, stamp: u32, uid: u64) -> Result<Text, NoMemory>
    ensures { IfOk result (λ text. text ≡ spec.said (codes "+OK " ++ spec.unique_text number stamp uid)) }
{
    let text = format!(in alloc; "+OK {number} {stamp}.{uid}\r\n")?;
    Text::of(alloc, text.as_bytes())
}

fn octets(alloc: Global, size: u32) -> Result<Text, NoMemory>
    ensures { IfOk result (λ text. text ≡ spec.said (codes "+OK " ++ decimal size ++ codes " octets")) }
{
    let text = format!(in alloc; "+OK {size} octets\r\n")?;
    Text::of(alloc, text.as_bytes())
}

/// The text of an answer.
pub(crate) fn write_answer(alloc: Global, answer: Answer) -> Result<Text, NoMemory>
    ensures { IfOk result (λ text. text ≡ spec.answer_text answer) }
{
    match answer {
        Answer::Ready => Text::of(alloc, b"+OK undomail\r\n"),
        Answer::Done => Text::of(alloc, b"+OK\r\n"),
        Answer::Marked => Text::of(alloc, b"+OK Marked.\r\n"),
        Answer::Closing => Text::of(alloc, b"+OK Bye.\r\n"),
        Answer::Messages { count } => messages(alloc, count),
        Answer::Total { count, octets } => total(alloc, count, octets),
        Answer::Size { number, size } => size_of(alloc, number, size),
        Answer::Unique { number, stamp, uid } => unique(alloc, number, stamp, uid),
        Answer::Octets { size } => octets(alloc, size),
        Answer::LineTooLong => Text::of(alloc, b"-ERR Line too long.\r\n"),
        Answer::UnknownCommand => Text::of(alloc, b"-ERR Unknown command.\r\n"),
        Answer::BadArgument => Text::of(alloc, b"-ERR Bad argument.\r\n"),
        Answer::WrongState => Text::of(alloc, b"-ERR Wrong state.\r\n"),
        Answer::NoSuchMessage => Text::of(alloc, b"-ERR No such message.\r\n"),
        Answer::LoginFailed => Text::of(alloc, b"-ERR Login failed.\r\n"),
        Answer::InUse => Text::of(alloc, b"-ERR In use.\r\n"),
        Answer::MessageGone => Text::of(alloc, b"-ERR Message is gone.\r\n"),
        Answer::TooMany => Text::of(alloc, b"-ERR Too many messages.\r\n"),
        Answer::DiskFault => Text::of(alloc, b"-ERR Disk fault.\r\n"),
        Answer::NumbersUsedUp => Text::of(alloc, b"-ERR Numbers used up.\r\n"),
        Answer::NoMemory => Text::of(alloc, memory_text()),
    }
}

/// What a new connection is told (RFC 1939, section 4): `+OK undomail` and CRLF.
pub fn greeting(alloc: Global) -> Result<Text, NoMemory>
    ensures { IfOk result (λ text. text ≡ spec.answer_text Answer.Ready) }
{
    write_answer(alloc, Answer::Ready)
}

/// What is told where a call found no memory, with its CRLF. Takes none.
pub fn memory_text() -> &'static [u8]
    ensures { result.now ≡ spec.answer_text Answer.NoMemory }
{
    b"-ERR No memory.\r\n"
}

/// The answer to a line that is no command.
pub(crate) fn line_refused(refused: LineRefused) -> Answer
    ensures { result ≡ spec.line_refused refused }
{
    match refused {
        LineRefused::Long => Answer::LineTooLong,
        LineRefused::Unknown => Answer::UnknownCommand,
        LineRefused::Argument => Answer::BadArgument,
    }
}

/// The answer where a text can't be had.
pub(crate) fn read_refused(fault: ReadFault) -> Answer
    ensures { result ≡ spec.read_refused fault }
{
    match fault {
        ReadFault::Disk => Answer::DiskFault,
        ReadFault::NoMemory => Answer::NoMemory,
    }
}

/// The answer where the store refuses what was asked.
pub(crate) fn ask_refused(refused: Refused) -> Answer
    ensures { result ≡ spec.ask_refused refused }
{
    match refused {
        Refused::Gone => Answer::MessageGone,
        Refused::TooMany { asked: _ } => Answer::TooMany,
        Refused::Numbers { next: _ } => Answer::NumbersUsedUp,
        Refused::NoMemory => Answer::NoMemory,
        Refused::NoBox => Answer::NoMemory,
        Refused::Exists => Answer::NoMemory,
        Refused::HasInferiors => Answer::NoMemory,
        Refused::Fixed => Answer::NoMemory,
        Refused::NameShape => Answer::NoMemory,
        Refused::TryCreate => Answer::NoMemory,
        Refused::TooLarge { asked: _ } => Answer::NoMemory,
        Refused::BoxesFull => Answer::NoMemory,
        Refused::UidWide => Answer::NoMemory,
    }
}
