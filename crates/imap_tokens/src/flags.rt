//! Flags, as they are written.
//!
//! A flag is an atom, with or without a `\` before it; all but the five are ignored, `\*` is bad.
ghost use Rattle.std.specs.Prelude.{◌≡◌, true, option_map};
ghost use Rattle.imap_tokens.specs.Flags.{no_flags, unslashed, flag_added, token_added, flags_from, flags_in, bare_from};

use crate::tokens::{Token, is_close_token, is_space_token, word_in};
use crate::words::{is_same_word, is_whole_atom};
use undo_base::Flags;

pub fn no_flag() -> Flags
    ensures { result ≡ no_flags }
{
    Flags {
        answered: false,
        flagged: false,
        deleted: false,
        seen: false,
        draft: false,
    }
}

/// A flag without the `\` before it.
fn without_slash(word: &[u8]) -> &[u8]
    ensures { result.now ≡ unslashed word.now }
{
    match word {
        [] => word,
        [first, rest @ ..] => { if *first == b'\\' { rest } else { word } }
    }
}

/// Flags and one more, which counts if it is one of the five.
fn with_flag(flags: Flags, word: &[u8]) -> Option<Flags>
    ensures { result ≡ flag_added flags word.now }
{
    if !is_whole_atom(without_slash(word)) {
        return None;
    }
    let mut flags = flags;
    if is_same_word(word, b"\\ANSWERED") {
        flags.answered = true;
    } else if is_same_word(word, b"\\FLAGGED") {
        flags.flagged = true;
    } else if is_same_word(word, b"\\DELETED") {
        flags.deleted = true;
    } else if is_same_word(word, b"\\SEEN") {
        flags.seen = true;
    } else if is_same_word(word, b"\\DRAFT") {
        flags.draft = true;
    }
    Some(flags)
}

fn with_token(flags: Flags, token: &Token) -> Option<Flags>
    ensures { result ≡ token_added flags token.now }
{
    let word = word_in(token)?;
    with_flag(flags, word)
}

/// Flags, of which the first is still to come, up to the parenthesis that closes their list, and what follows it.
fn listed_flags(tokens: &[Token]) -> Option<(Flags, &[Token])>
    ensures { option_map (λ r. (r.0, r.1.now)) result ≡ flags_from true no_flags tokens.now }
{
    let mut flags = no_flag();
    let mut wanted = true;
    for (place, token) in tokens.iter().enumerate() {
        if wanted {
            flags = with_token(flags, token)?;
            wanted = false;
        } else if is_close_token(token) {
            return Some((flags, &tokens[place + 1..]));
        } else if is_space_token(token) {
            wanted = true;
        } else {
            return None;
        }
    }
    None
}

/// Flags, behind the parenthesis that opens their list, and what follows the list.
pub fn read_flags(tokens: &[Token]) -> Option<(Flags, &[Token])>
    ensures { option_map (λ r. (r.0, r.1.now)) result ≡ flags_in tokens.now }
{
    match tokens {
        [] => None,
        [first, rest @ ..] => {
            if is_close_token(first) {
                Some((no_flag(), rest))
            } else {
                listed_flags(tokens)
            }
        }
    }
}

/// Flags without parentheses.
pub fn read_bare_flags(tokens: &[Token]) -> Option<Flags>
    ensures { result ≡ bare_from true no_flags tokens.now }
{
    let mut flags = no_flag();
    let mut wanted = true;
    for token in tokens {
        if wanted {
            flags = with_token(flags, token)?;
            wanted = false;
        } else if is_space_token(token) {
            wanted = true;
        } else {
            return None;
        }
    }
    if wanted { None } else { Some(flags) }
}
