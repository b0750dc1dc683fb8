//! Lines, and the commands that they are (RFC 1939, section 3).
ghost use Rattle.std.specs.Prelude.{◌≡◌, ◌≤◌, ◌==◌, length, ok_or};
ghost use Rattle.std.specs.List.{after_first, before_first, list_any, position_or_len};
ghost use Rattle.smtp_lines.specs.Parts.{is_space as is_space_byte, is_spelled, trimmed};
ghost use Rattle.pop_session.specs.Command as spec;

use smtp_lines::SmtpLine;
use undo_base::{after, before, read_number};

/// The most octets of a line before its CRLF.
const MOST_COMMAND: usize = 1022;

/// A keyword that a command begins with.
#[derive(Clone, Copy)]
pub enum Keyword {
    User,
    Pass,
    Stat,
    List,
    Retr,
    Dele,
    Noop,
    Rset,
    Top,
    Uidl,
    Quit,
}

/// A command, with the numbers of messages and of lines that it names. The argument of USER or PASS stands in its line.
#[derive(Clone, Copy)]
pub enum Command {
    User,
    Pass,
    Stat,
    List { message: Option<u64> },
    Retr { message: u64 },
    Dele { message: u64 },
    Noop,
    Rset,
    Top { message: u64, lines: u64 },
    Uidl { message: Option<u64> },
    Quit,
}

/// Why a line is no command: the first of these that holds.
#[derive(Clone, Copy)]
pub enum LineRefused {
    Long,
    Unknown,
    Argument,
}

fn is_space(byte: u8) -> bool
    ensures { result ≡ is_space_byte byte }
{
    byte == b' '
}

/// Where a byte stands first, or the length where it doesn't stand.
fn place_of(bytes: &[u8], byte: u8) -> usize
    ensures within { result ≤ length bytes.now }
    ensures value { result ≡ position_or_len (λ b. b == byte) bytes.now }
{
    for (place, b) in bytes.iter().enumerate() {
        if *b == byte {
            return place;
        }
    }
    bytes.len()
}

/// What stands before the first space; all where there is none.
fn word(bytes: &[u8]) -> &[u8]
    ensures { result.now ≡ before_first is_space_byte bytes.now }
{
    before(bytes, place_of(bytes, b' '))
}

/// What stands behind the first space, or nothing.
fn behind_word(bytes: &[u8]) -> &[u8]
    ensures { result.now ≡ after_first is_space_byte bytes.now }
{
    let place = place_of(bytes, b' ');
    if place < bytes.len() {
        after(bytes, place + 1)
    } else {
        &[]
    }
}

/// A line without the spaces at its end.
fn trim(bytes: &[u8]) -> &[u8]
    ensures { result.now ≡ trimmed bytes.now }
{
    let mut count = bytes.len();
    while count > 0 && bytes[count - 1] == b' ' {
        count -= 1;
    }
    &bytes[..count]
}

fn is_word(bytes: &[u8], keyword: &[u8]) -> bool
    ensures { result ≡ is_spelled keyword.now bytes.now }
{
    bytes.eq_ignore_ascii_case(keyword)
}

/// The keyword that bytes spell, in any case.
fn read_keyword(bytes: &[u8]) -> Option<Keyword>
    ensures { result ≡ spec.keyword_of bytes.now }
{
    if is_word(bytes, b"USER") {
        Some(Keyword::User)
    } else if is_word(bytes, b"PASS") {
        Some(Keyword::Pass)
    } else if is_word(bytes, b"STAT") {
        Some(Keyword::Stat)
    } else if is_word(bytes, b"LIST") {
        Some(Keyword::List)
    } else if is_word(bytes, b"RETR") {
        Some(Keyword::Retr)
    } else if is_word(bytes, b"DELE") {
        Some(Keyword::Dele)
    } else if is_word(bytes, b"NOOP") {
        Some(Keyword::Noop)
    } else if is_word(bytes, b"RSET") {
        Some(Keyword::Rset)
    } else if is_word(bytes, b"TOP") {
        Some(Keyword::Top)
    } else if is_word(bytes, b"UIDL") {
        Some(Keyword::Uidl)
    } else if is_word(bytes, b"QUIT") {
        Some(Keyword::Quit)
    } else {
        None
    }
}

/// The number of a message.
fn read_message(text: &[u8]) -> Result<u64, LineRefused>
    ensures { result ≡ ok_or (spec.message_number text.now) LineRefused.Argument }
{
    read_number(1, 65536, text).ok_or(LineRefused::Argument)
}

/// A number of lines.
fn read_lines(text: &[u8]) -> Result<u64, LineRefused>
    ensures { result ≡ ok_or (spec.line_count text.now) LineRefused.Argument }
{
    read_number(0, 65535, text).ok_or(LineRefused::Argument)
}

fn read_alone(command: Command, argument: &[u8]) -> Result<Command, LineRefused>
    ensures { result ≡ spec.alone command argument.now }
{
    match argument {
        [] => Ok(command),
        _ => Err(LineRefused::Argument),
    }
}

fn has_space(bytes: &[u8]) -> bool
    ensures { result ≡ list_any is_space_byte bytes.now }
{
    bytes.iter().any(|byte| is_space(*byte))
}

fn read_user(argument: &[u8]) -> Result<Command, LineRefused>
    ensures { result ≡ spec.user_of argument.now }
{
    match argument {
        [] => Err(LineRefused::Argument),
        _ => {
            if has_space(argument) {
                Err(LineRefused::Argument)
            } else {
                Ok(Command::User)
            }
        }
    }
}

fn read_pass(argument: &[u8]) -> Result<Command, LineRefused>
    ensures { result ≡ spec.pass_of argument.now }
{
    match argument {
        [] => Err(LineRefused::Argument),
        _ => Ok(Command::Pass),
    }
}

fn read_list(argument: &[u8]) -> Result<Command, LineRefused>
    ensures { result ≡ spec.maybe_of Command.List argument.now }
{
    match argument {
        [] => Ok(Command::List { message: None }),
        _ => {
            let message = read_message(argument)?;
            Ok(Command::List {
                message: Some(message),
            })
        }
    }
}

fn read_uidl(argument: &[u8]) -> Result<Command, LineRefused>
    ensures { result ≡ spec.maybe_of Command.Uidl argument.now }
{
    match argument {
        [] => Ok(Command::Uidl { message: None }),
        _ => {
            let message = read_message(argument)?;
            Ok(Command::Uidl {
                message: Some(message),
            })
        }
    }
}

fn read_retr(argument: &[u8]) -> Result<Command, LineRefused>
    ensures { result ≡ spec.message_of Command.Retr argument.now }
{
    let message = read_message(argument)?;
    Ok(Command::Retr { message })
}

fn read_dele(argument: &[u8]) -> Result<Command, LineRefused>
    ensures { result ≡ spec.message_of Command.Dele argument.now }
{
    let message = read_message(argument)?;
    Ok(Command::Dele { message })
}

fn read_top(argument: &[u8]) -> Result<Command, LineRefused>
    ensures { result ≡ spec.top_of argument.now }
{
    let message = read_message(word(argument))?;
    let lines = read_lines(behind_word(argument))?;
    Ok(Command::Top { message, lines })
}

/// The command of a keyword and what stands behind it.
#[tactic(auto, unfolding(crate::specs::Command::spoken))]
fn read_spoken(keyword: Keyword, argument: &[u8]) -> Result<Command, LineRefused>
    ensures { result ≡ spec.spoken keyword argument.now }
{
    match keyword {
        Keyword::User => read_user(argument),
        Keyword::Pass => read_pass(argument),
        Keyword::Stat => read_alone(Command::Stat, argument),
        Keyword::List => read_list(argument),
        Keyword::Retr => read_retr(argument),
        Keyword::Dele => read_dele(argument),
        Keyword::Noop => read_alone(Command::Noop, argument),
        Keyword::Rset => read_alone(Command::Rset, argument),
        Keyword::Top => read_top(argument),
        Keyword::Uidl => read_uidl(argument),
        Keyword::Quit => read_alone(Command::Quit, argument),
    }
}

fn read_words(bytes: &[u8]) -> Result<Command, LineRefused>
    ensures { result ≡ spec.words_of bytes.now }
{
    let keyword = read_keyword(word(bytes)).ok_or(LineRefused::Unknown)?;
    read_spoken(keyword, behind_word(bytes))
}

/// The command that a line is. Takes no memory.
pub(crate) fn read_command(line: &SmtpLine) -> Result<Command, LineRefused>
    ensures { result ≡ spec.command_of line.now }
{
    let bytes = line.bytes.bytes();
    if line.long || bytes.len() > MOST_COMMAND {
        Err(LineRefused::Long)
    } else {
        read_words(trim(bytes))
    }
}

/// What stands behind a line's first space. Takes no memory.
pub(crate) fn argument(line: &SmtpLine) -> &[u8]
    ensures { result.now ≡ spec.argument_of line.now }
{
    behind_word(trim(line.bytes.bytes()))
}
