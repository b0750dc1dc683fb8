//! The arguments of APPEND (RFC 3501, section 6.3.11).
//!
//! The date of APPEND is a quoted string, no literal.
ghost use Rattle.std.specs.Prelude.{◌≡◌, option_map, IfOk};
ghost use Rattle.imap_lines.specs.Append.{append_in};
ghost use Rattle.imap_lines.specs.Append as spec;

use crate::ImapWhat;
use imap_tokens::{
    Token, behind_space_token, is_open_token, literal_in, next_string, no_flag, quoted_in,
    read_date, read_flags,
};
use std::alloc::Global;
use undo_base::{Flags, NoMemory, Text};

/// Flags in their list, and what follows the space behind it.
fn spaced_flags(tokens: &[Token]) -> Option<(Flags, &[Token])>
    ensures { option_map (λ r. (r.0, r.1.now)) result ≡ spec.spaced_flags tokens.now }
{
    let (flags, rest) = read_flags(tokens)?;
    let rest = behind_space_token(rest)?;
    Some((flags, rest))
}

/// The flags of a message, if they stand first, and what follows.
fn first_flags(tokens: &[Token]) -> Option<(Flags, &[Token])>
    ensures { option_map (λ r. (r.0, r.1.now)) result ≡ spec.first_flags tokens.now }
{
    match tokens {
        [] => None,
        [first, rest @ ..] => {
            if is_open_token(first) {
                spaced_flags(rest)
            } else {
                Some((no_flag(), tokens))
            }
        }
    }
}

/// A date without its quotes, and what follows the space behind it.
fn spaced_date<'a>(text: &[u8], tokens: &'a [Token]) -> Option<(Option<u64>, &'a [Token])>
    ensures { option_map (λ r. (r.0, r.1.now)) result ≡ spec.spaced_date text.entry.now tokens.entry.now }
{
    let moment = read_date(text)?;
    let rest = behind_space_token(tokens)?;
    Some((Some(moment), rest))
}

/// The date of a message, if it stands first, and what follows.
fn first_date(tokens: &[Token]) -> Option<(Option<u64>, &[Token])>
    ensures { option_map (λ r. (r.0, r.1.now)) result ≡ spec.first_date tokens.now }
{
    match tokens {
        [] => None,
        [first, rest @ ..] => match quoted_in(first) {
            Some(text) => spaced_date(text, rest),
            None => Some((None, tokens)),
        },
    }
}

/// The literal that ends the command.
fn only_literal(tokens: &[Token]) -> Option<&[u8]>
    ensures { option_map (λ text. text.now) result ≡ spec.only_literal tokens.now }
{
    match tokens {
        [] => None,
        [first, rest @ ..] => {
            if rest.is_empty() {
                literal_in(first)
            } else {
                None
            }
        }
    }
}

/// Flags, moment and text of a message.
fn read_message(tokens: &[Token]) -> Option<(Flags, Option<u64>, &[u8])>
    ensures { option_map (λ r. (r.0, r.1, r.2.now)) result ≡ spec.message_in tokens.now }
{
    let (flags, rest) = first_flags(tokens)?;
    let (moment, rest) = first_date(rest)?;
    let text = only_literal(rest)?;
    Some((flags, moment, text))
}

/// The arguments of APPEND: a mailbox, flags and a date if they are there, and the text.
pub fn read_append(alloc: Global, tokens: &[Token]) -> Result<Option<ImapWhat>, NoMemory>
    ensures { IfOk result (λ what. what ≡ append_in tokens.now) }
{
    let Some((mailbox, rest)) = next_string(tokens) else {
        return Ok(None);
    };
    let Some(rest) = behind_space_token(rest) else {
        return Ok(None);
    };
    let Some((flags, moment, text)) = read_message(rest) else {
        return Ok(None);
    };
    Ok(Some(ImapWhat::Append {
        mailbox: Text::of(alloc, mailbox)?,
        flags,
        moment,
        text: Text::of(alloc, text)?,
    }))
}
