//! The arguments of commands, each behind a space.
ghost use Rattle.std.specs.Prelude.{◌≡◌, option_map};
ghost use Rattle.imap_tokens.specs.Arguments as spec;

use crate::tokens::{Token, is_space_token, string_in, word_in};

/// What follows a space.
pub fn behind_space_token(tokens: &[Token]) -> Option<&[Token]>
    ensures { option_map (λ rest. rest.now) result ≡ spec.behind_space tokens.now }
{
    match tokens {
        [] => None,
        [first, rest @ ..] => {
            if is_space_token(first) {
                Some(rest)
            } else {
                None
            }
        }
    }
}

fn first_string(tokens: &[Token]) -> Option<(&[u8], &[Token])>
    ensures { option_map (λ r. (r.0.now, r.1.now)) result ≡ spec.first_string tokens.now }
{
    match tokens {
        [] => None,
        [first, rest @ ..] => {
            let text = string_in(first)?;
            Some((text, rest))
        }
    }
}

/// An astring, and what follows it.
pub fn next_string(tokens: &[Token]) -> Option<(&[u8], &[Token])>
    ensures { option_map (λ r. (r.0.now, r.1.now)) result ≡ spec.next_string tokens.now }
{
    first_string(behind_space_token(tokens)?)
}

fn first_word(tokens: &[Token]) -> Option<(&[u8], &[Token])>
    ensures { option_map (λ r. (r.0.now, r.1.now)) result ≡ spec.first_word tokens.now }
{
    match tokens {
        [] => None,
        [first, rest @ ..] => {
            let text = word_in(first)?;
            Some((text, rest))
        }
    }
}

/// A word, and what follows it.
pub fn next_word(tokens: &[Token]) -> Option<(&[u8], &[Token])>
    ensures { option_map (λ r. (r.0.now, r.1.now)) result ≡ spec.next_word tokens.now }
{
    first_word(behind_space_token(tokens)?)
}
