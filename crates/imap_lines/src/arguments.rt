//! The last arguments of commands.
//!
//! A literal is copied twice, into a token and into the command.
ghost use Rattle.std.specs.Prelude.{◌≡◌, option_map};
ghost use Rattle.imap_lines.specs.Arguments as spec;

use imap_tokens::{Token, behind_space_token, is_open_token, next_string, pattern_in};

/// The last argument, if it is an astring.
pub fn last_string(tokens: &[Token]) -> Option<&[u8]>
    ensures { option_map (λ text. text.now) result ≡ spec.last_string tokens.now }
{
    let (text, rest) = next_string(tokens)?;
    if rest.is_empty() { Some(text) } else { None }
}

/// Two arguments that are astrings, the last ones.
pub fn two_strings(tokens: &[Token]) -> Option<(&[u8], &[u8])>
    ensures { option_map (λ r. (r.0.now, r.1.now)) result ≡ spec.two_strings tokens.now }
{
    let (first, rest) = next_string(tokens)?;
    let second = last_string(rest)?;
    Some((first, second))
}

fn first_pattern(tokens: &[Token]) -> Option<&[u8]>
    ensures { option_map (λ text. text.now) result ≡ spec.first_pattern tokens.now }
{
    match tokens {
        [] => None,
        [first, rest @ ..] => {
            if rest.is_empty() {
                pattern_in(first)
            } else {
                None
            }
        }
    }
}

/// Two arguments, an astring and a pattern, the last ones.
pub fn string_and_pattern(tokens: &[Token]) -> Option<(&[u8], &[u8])>
    ensures { option_map (λ r. (r.0.now, r.1.now)) result ≡ spec.string_and_pattern tokens.now }
{
    let (first, rest) = next_string(tokens)?;
    let pattern = first_pattern(behind_space_token(rest)?)?;
    Some((first, pattern))
}

/// An astring, and what stands behind the parenthesis that opens a list as the next argument.
pub fn string_and_list(tokens: &[Token]) -> Option<(&[u8], &[Token])>
    ensures { option_map (λ r. (r.0.now, r.1.now)) result ≡ spec.string_and_list tokens.now }
{
    let (first, rest) = next_string(tokens)?;
    let list = in_list(behind_space_token(rest)?)?;
    Some((first, list))
}

/// What stands behind the parenthesis that opens a list.
fn in_list(tokens: &[Token]) -> Option<&[Token]>
    ensures { option_map (λ rest. rest.now) result ≡ spec.in_list tokens.now }
{
    match tokens {
        [] => None,
        [first, rest @ ..] => {
            if is_open_token(first) {
                Some(rest)
            } else {
                None
            }
        }
    }
}
