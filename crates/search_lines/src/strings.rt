//! The arguments of keys, each behind a space.
//!
//! A HEADER's name is any astring, also one that no field can have.
ghost use Rattle.std.specs.Prelude.{◌≡◌, option_map};
ghost use Rattle.search_lines.specs.Strings as spec;

use crate::days::read_day;
use imap_tokens::{
    Token, behind_space_token, next_word, quoted_in, read_count, string_in, word_in,
};

/// A date, with its quotes or without them.
fn dated(token: &Token) -> Option<i64>
    ensures { result ≡ spec.dated token.now }
{
    match word_in(token) {
        Some(text) => read_day(text),
        None => read_day(quoted_in(token)?),
    }
}

fn first_day(tokens: &[Token]) -> Option<(i64, &[Token])>
    ensures { option_map (λ r. (r.0, r.1.now)) result ≡ spec.first_day tokens.now }
{
    match tokens {
        [] => None,
        [first, rest @ ..] => {
            let day = dated(first)?;
            Some((day, rest))
        }
    }
}

/// A date in days since 1 January 1970, and what follows it.
pub(crate) fn next_day(tokens: &[Token]) -> Option<(i64, &[Token])>
    ensures { option_map (λ r. (r.0, r.1.now)) result ≡ spec.next_day tokens.now }
{
    first_day(behind_space_token(tokens)?)
}

/// A number from 0 on, and what follows it.
pub(crate) fn next_count(tokens: &[Token]) -> Option<(u32, &[Token])>
    ensures { option_map (λ r. (r.0, r.1.now)) result ≡ spec.next_count tokens.now }
{
    let (word, rest) = next_word(tokens)?;
    let count = read_count(word)?;
    Some((count, rest))
}

fn is_atom(token: &Token) -> bool
    ensures { result ≡ spec.is_atom token.now }
{
    word_in(token).is_some() && string_in(token).is_some()
}

fn behind_first_atom(tokens: &[Token]) -> Option<&[Token]>
    ensures { option_map (λ rest. rest.now) result ≡ spec.behind_first_atom tokens.now }
{
    match tokens {
        [] => None,
        [first, rest @ ..] => { if is_atom(first) { Some(rest) } else { None } }
    }
}

/// What follows an atom.
pub(crate) fn behind_atom(tokens: &[Token]) -> Option<&[Token]>
    ensures { option_map (λ rest. rest.now) result ≡ spec.behind_atom tokens.now }
{
    behind_first_atom(behind_space_token(tokens)?)
}
