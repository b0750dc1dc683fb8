//! Commands as they stand in a stream.
//!
//! What RFC 3501, section 9, makes case-insensitive ignores case: words of commands, flags (`\seen`), months, attributes,
//! sections and STATUS items. Names of fields are kept as spelled, and repeated attributes too.
//!
//! Spaces at the end of a command's last line don't count, so a line `a ` has no tag. Spaces before a literal mark do count.
//!
//! The word ends at the first space. What comes without a space behind it belongs to the word: `NOOP` and a NUL is an unknown
//! word, `NOOP`, a space and a NUL has bad arguments. A word that a literal follows directly, with no space, is the word, and has
//! bad arguments.
//!
//! Want of memory is answered only for a command that has a tag.
ghost use Rattle.std.specs.Prelude.{◌≡◌, true, option_map, IfOk, Ok, Err};
ghost use Rattle.undo_base.specs.Name.{is_name};
ghost use Rattle.imap_lines.specs.Command.{ReadsCommand, command_of, heading_of, uid_heading_of, spoken};
ghost use Rattle.imap_lines.specs.Command as spec;

use crate::verbs::{Verb, message_verb, read_verb};
use crate::what::read_what;
use crate::{ImapCommand, ImapRefused, ImapWhat};
use imap_stream::{RawCommand, read_tag};
use imap_tokens::{at_space, before_space, behind_space, is_same_word, line_before, read_tokens};
use std::alloc::Global;
use undo_base::{Name, NoMemory, Text};

/// The verb behind `UID`, and what stands from the space behind it on.
fn read_uid_heading(line: &[u8]) -> Option<(Verb, bool, &[u8])>
    ensures { option_map (λ h. (h.0, h.1, h.2.now)) result ≡ uid_heading_of line.now }
{
    let verb = message_verb(before_space(line))?;
    Some((verb, true, at_space(line)))
}

/// The verb that a command begins with, whether it has the form with UIDs, and what stands from the space behind it on.
fn read_heading(line: &[u8]) -> Option<(Verb, bool, &[u8])>
    ensures { option_map (λ h. (h.0, h.1, h.2.now)) result ≡ heading_of line.now }
{
    let word = before_space(line);
    if is_same_word(word, b"UID") {
        return read_uid_heading(behind_space(line));
    }
    let verb = read_verb(word)?;
    Some((verb, false, at_space(line)))
}

/// Whether a command may have any arguments.
fn takes_all(verb: Verb) -> bool
    ensures { result ≡ spec.takes_all verb }
{
    matches!(verb, Verb::Authenticate)
}

/// What a verb asks with the arguments that stand in the rest of its line, in the lines that follow and in the literals.
fn read_spoken(
    alloc: Global,
    verb: Verb,
    by_uid: bool,
    line: &[u8],
    lines: &[Text],
    literals: &[Text],
) -> Result<Option<ImapWhat>, NoMemory>
    ensures { IfOk result (λ what. what ≡ spoken verb by_uid line.now lines.now literals.now) }
{
    if takes_all(verb) {
        return Ok(Some(ImapWhat::Authenticate));
    }
    let Some(tokens) = read_tokens(alloc, line, lines, literals)? else {
        return Ok(None);
    };
    read_what(alloc, verb, by_uid, tokens.as_slice())
}

/// The command behind a tag.
fn read_tagged(
    alloc: Global,
    tag: Name,
    line: &[u8],
    lines: &[Text],
    literals: &[Text],
) -> Result<ImapCommand, ImapRefused>
    ensures { ReadsCommand (spec.tagged tag line.now lines.now literals.now) result }
{
    match read_heading(line) {
        None => Err(ImapRefused::Unknown { tag }),
        Some((verb, by_uid, rest)) => {
            match read_spoken(alloc, verb, by_uid, rest, lines, literals)? {
                Some(what) => Ok(ImapCommand { tag, what }),
                None => Err(ImapRefused::Argument { tag }),
            }
        }
    }
}

/// The command behind a tag, which is a name.
fn read_named(
    alloc: Global,
    tag: &[u8],
    line: &[u8],
    lines: &[Text],
    literals: &[Text],
) -> Result<ImapCommand, ImapRefused>
    requires { is_name tag.now ≡ true }
    ensures { ReadsCommand (spec.tagged tag.now line.now lines.now literals.now) result }
{
    let tag = Name::of(alloc, tag)?;
    read_tagged(alloc, tag, line, lines, literals)
}

/// The command of a first line, of the lines that follow and of the literals.
fn read_lines(
    alloc: Global,
    line: &[u8],
    lines: &[Text],
    literals: &[Text],
) -> Result<ImapCommand, ImapRefused>
    ensures { ReadsCommand (spec.of_lines line.now lines.now literals.now) result }
{
    match read_tag(line) {
        None => Err(ImapRefused::NoTag),
        Some(tag) => read_named(alloc, tag, behind_space(line), lines, literals),
    }
}

/// Reads a command. The first refusal that holds is answered.
pub fn read_command(alloc: Global, raw: &RawCommand) -> Result<ImapCommand, ImapRefused>
    ensures { ReadsCommand (command_of raw.now) result }
{
    match raw.lines.as_slice() {
        [] => Err(ImapRefused::NoTag),
        [line, lines @ ..] => read_lines(
            alloc,
            line_before(line.bytes(), lines),
            lines,
            raw.literals.as_slice(),
        ),
    }
}
