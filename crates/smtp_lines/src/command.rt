//! The commands of an SMTP client (RFC 5321, section 4.1.1).
//!
//! A command line is too long by the bytes before CRLF, spaces at its end included; a line that was cut is too long whatever was
//! kept of it.
//!
//! The word ends at the first space; the argument is all behind that space, less the spaces at the line's end. So `NOOP  x` has
//! the argument ` x`, `HELO  a` is 501, and a line that begins with a space has an empty word: 500.
//!
//! What RFC 5321 makes case-insensitive ignores case. MAIL, RCPT and HELO give their arguments as spelled; the session lowers
//! them. `VRFY` wants a non-empty argument.
//!
//! Want of memory is answered only for a line that is a command; a line that is to be refused is refused without memory.
ghost use Rattle.std.specs.Prelude.{◌≡◌, true, IfOk, Ok, Err};
ghost use Rattle.std.specs.List.{list_all};
ghost use Rattle.std.specs.Option.{option_copied};
ghost use Rattle.undo_base.specs.Name.{is_name};
ghost use Rattle.smtp_lines.specs.Parts.{is_short, is_visible};
ghost use Rattle.smtp_lines.specs.Path.{is_recipient};
ghost use Rattle.smtp_lines.specs.Command.{ReadsCommand, command_of, is_client, greeting, mail_of, rcpt_of, recipient, alone, noop_of, vrfy_of, spoken, words_of, refused_tail, recipient_path};
ghost use Rattle.smtp_lines.specs.declared.command.SmtpCommand.TheVariants.{Helo, Ehlo};

use crate::SmtpLine;
use crate::parts::{
    are_visible, before, before_the_last, behind, behind_the_last, has, has_length_of_name, trim,
};
use crate::path::{find_path, is_recipient_path, path_behind};
use crate::word::{Word, read_word};
use std::alloc::Global;
use undo_base::{Name, NoMemory, Text};

/// The most octets of a command line before its CRLF (RFC 5321, section 4.5.3.1.4, allows 510 or more).
const MOST_COMMAND: usize = 1022;

/// A command, with its arguments as they are spelled.
#[derive(Debug, Drop)]
pub enum SmtpCommand {
    Helo { client: Name },
    Ehlo { client: Name },
    Mail { path: Text },
    Rcpt { local: Name, domain: Option<Name> },
    Data,
    Rset,
    Noop { rest: Text },
    Vrfy { what: Text },
    Quit,
}

/// Why a line is no command: the first of these that holds.
#[derive(Clone, Copy, Debug, PartialEq, Eq)]
pub enum SmtpRefused {
    Long,
    Unknown,
    NotDone,
    Argument,
    Parameter,
    NoMemory,
}

impl From<NoMemory> for SmtpRefused {
    ghost use Rattle.std.specs.Prelude.{◌≡◌};
    ghost use Rattle.smtp_lines.specs.declared.command.SmtpRefused.TheVariants.{NoMemory as no_memory};

    ghost from_gives = { λ _ refused. refused ≡ no_memory };

    fn from(_: NoMemory) -> Self {
        SmtpRefused::NoMemory
    }
}

/// The command that a line is. The path of MAIL is the reverse path without its route; RCPT has no domain for
/// `postmaster` alone.
pub fn read_command(alloc: Global, line: &SmtpLine) -> Result<SmtpCommand, SmtpRefused>
    ensures { ReadsCommand (command_of line.now) result }
{
    let bytes = line.bytes.bytes();
    if line.long || bytes.len() > MOST_COMMAND {
        Err(SmtpRefused::Long)
    } else {
        read_words(alloc, trim(bytes))
    }
}

fn read_words(alloc: Global, bytes: &[u8]) -> Result<SmtpCommand, SmtpRefused>
    ensures { ReadsCommand (words_of bytes.now) result }
{
    match read_word(before(bytes, b' ')) {
        Some(word) => read_spoken(alloc, word, behind(bytes, b' ')),
        None => Err(SmtpRefused::Unknown),
    }
}

/// The command of a word and its argument.
#[tactic(auto, unfolding(crate::specs::Command::spoken))]
fn read_spoken(alloc: Global, word: Word, argument: &[u8]) -> Result<SmtpCommand, SmtpRefused>
    ensures { ReadsCommand (spoken word argument.now) result }
{
    match word {
        Word::Helo => read_helo(alloc, argument),
        Word::Ehlo => read_ehlo(alloc, argument),
        Word::Mail => read_mail(alloc, argument),
        Word::Rcpt => read_rcpt(alloc, argument),
        Word::Data => read_alone(argument, SmtpCommand::Data),
        Word::Rset => read_alone(argument, SmtpCommand::Rset),
        Word::Noop => read_noop(alloc, argument),
        Word::Vrfy => read_vrfy(alloc, argument),
        Word::Quit => read_alone(argument, SmtpCommand::Quit),
        Word::Expn => Err(SmtpRefused::NotDone),
        Word::Help => Err(SmtpRefused::NotDone),
    }
}

fn read_alone(argument: &[u8], command: SmtpCommand) -> Result<SmtpCommand, SmtpRefused>
    ensures { ReadsCommand (alone command argument.now) result }
{
    match argument {
        [] => Ok(command),
        _ => Err(SmtpRefused::Argument),
    }
}

fn is_client_name(bytes: &[u8]) -> bool
    ensures { result ≡ is_client bytes.now }
{
    has_length_of_name(bytes) && are_visible(bytes)
}

#[tactic(auto, using(crate::proofs::Named::client_name))]
fn read_helo(alloc: Global, argument: &[u8]) -> Result<SmtpCommand, SmtpRefused>
    ensures { ReadsCommand (greeting Helo argument.now) result }
{
    if !is_client_name(argument) {
        return Err(SmtpRefused::Argument);
    }
    let client = Name::of(alloc, argument)?;
    Ok(SmtpCommand::Helo { client })
}

#[tactic(auto, using(crate::proofs::Named::client_name))]
fn read_ehlo(alloc: Global, argument: &[u8]) -> Result<SmtpCommand, SmtpRefused>
    ensures { ReadsCommand (greeting Ehlo argument.now) result }
{
    if !is_client_name(argument) {
        return Err(SmtpRefused::Argument);
    }
    let client = Name::of(alloc, argument)?;
    Ok(SmtpCommand::Ehlo { client })
}

fn read_noop(alloc: Global, argument: &[u8]) -> Result<SmtpCommand, SmtpRefused>
    ensures { ReadsCommand (noop_of argument.now) result }
{
    let rest = Text::of(alloc, argument)?;
    Ok(SmtpCommand::Noop { rest })
}

fn read_vrfy(alloc: Global, argument: &[u8]) -> Result<SmtpCommand, SmtpRefused>
    ensures { ReadsCommand (vrfy_of argument.now) result }
{
    if argument.is_empty() {
        return Err(SmtpRefused::Argument);
    }
    let what = Text::of(alloc, argument)?;
    Ok(SmtpCommand::Vrfy { what })
}

/// Why what follows a path is refused, if it is.
fn read_tail(tail: &[u8]) -> Option<SmtpRefused>
    ensures { result ≡ refused_tail tail.now }
{
    match tail {
        [] => None,
        [b' ', ..] => Some(SmtpRefused::Parameter),
        _ => Some(SmtpRefused::Argument),
    }
}

fn make_mail(alloc: Global, path: &[u8]) -> Result<SmtpCommand, SmtpRefused>
    ensures { ReadsCommand (Ok (SmtpCommand.Mail path.now)) result }
{
    let path = Text::of(alloc, path)?;
    Ok(SmtpCommand::Mail { path })
}

fn read_mail(alloc: Global, argument: &[u8]) -> Result<SmtpCommand, SmtpRefused>
    ensures { ReadsCommand (mail_of argument.now) result }
{
    let rest = path_behind(argument, b"FROM:");
    match find_path(rest) {
        None => Err(SmtpRefused::Argument),
        Some(path) => match read_tail(behind(rest, b'>')) {
            Some(refused) => Err(refused),
            None => make_mail(alloc, path),
        },
    }
}

fn make_postmaster(alloc: Global, path: &[u8]) -> Result<SmtpCommand, SmtpRefused>
    requires { is_name path.now ≡ true }
    ensures { ReadsCommand (Ok (SmtpCommand.Rcpt path.now None)) result }
{
    let local = Name::of(alloc, path)?;
    Ok(SmtpCommand::Rcpt {
        local,
        domain: None,
    })
}

fn make_names(alloc: Global, local: &[u8], domain: &[u8]) -> Result<SmtpCommand, NoMemory>
    requires local { is_name local.now ≡ true }
    requires domain { is_name domain.now ≡ true }
    ensures { IfOk result (λ command. command ≡ SmtpCommand.Rcpt local.now (Some domain.now)) }
{
    let local = Name::of(alloc, local)?;
    let domain = Name::of(alloc, domain)?;
    Ok(SmtpCommand::Rcpt {
        local,
        domain: Some(domain),
    })
}

#[tactic(auto, using(crate::proofs::Named::postmaster_name, crate::proofs::Named::local_name, crate::proofs::Named::domain_name))]
fn make_rcpt(alloc: Global, path: &[u8]) -> Result<SmtpCommand, SmtpRefused>
    requires is { is_recipient path.now ≡ true }
    requires shows { list_all is_visible path.now ≡ true }
    ensures { ReadsCommand (Ok (recipient path.now)) result }
{
    if !has(path, b'@') {
        return make_postmaster(alloc, path);
    }
    let local = before_the_last(path, b'@');
    let domain = behind_the_last(path, b'@');
    Ok(make_names(alloc, local, domain)?)
}

fn find_recipient(rest: &[u8]) -> Option<&[u8]>
    ensures { option_copied result ≡ recipient_path rest.now }
{
    match find_path(rest) {
        None => None,
        Some(path) => {
            if is_recipient_path(path) {
                Some(path)
            } else {
                None
            }
        }
    }
}

fn read_rcpt(alloc: Global, argument: &[u8]) -> Result<SmtpCommand, SmtpRefused>
    ensures { ReadsCommand (rcpt_of argument.now) result }
{
    let rest = path_behind(argument, b"TO:");
    match find_recipient(rest) {
        None => Err(SmtpRefused::Argument),
        Some(path) => match read_tail(behind(rest, b'>')) {
            Some(refused) => Err(refused),
            None => make_rcpt(alloc, path),
        },
    }
}
