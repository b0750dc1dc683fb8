//! The arguments of SEARCH.
ghost use Rattle.std.specs.Prelude.{◌≡◌, option_map, IfOk};
ghost use Rattle.search_lines.specs.Sought as spec;

use crate::keys::read_whole;
use imap_tokens::{Token, behind_space_token, is_same_word, next_string, word_in};
use search_verb::Search;
use std::alloc::Global;
use undo_base::{NoMemory, Text};

/// What a SEARCH looks for, and the charset that it names for its strings.
#[derive(Debug, Drop)]
pub struct Sought {
    pub charset: Option<Text>,
    pub key: Search,
}

fn is_charset(token: &Token) -> bool
    ensures { result ≡ spec.is_charset token.now }
{
    match word_in(token) {
        Some(word) => is_same_word(word, b"CHARSET"),
        None => false,
    }
}

/// What follows the word `CHARSET`.
fn behind_charset(tokens: &[Token]) -> Option<&[Token]>
    ensures { option_map (λ rest. rest.now) result ≡ spec.behind_charset tokens.now }
{
    match tokens {
        [] => None,
        [first, rest @ ..] => { if is_charset(first) { Some(rest) } else { None } }
    }
}

/// A charset, and what follows the space behind it.
fn read_charset(tokens: &[Token]) -> Option<(&[u8], &[Token])>
    ensures { option_map (λ r. (r.0.now, r.1.now)) result ≡ spec.charset_in tokens.now }
{
    let (name, rest) = next_string(tokens)?;
    Some((name, behind_space_token(rest)?))
}

/// The keys behind the word `CHARSET`, with the charset.
fn read_with_charset(alloc: Global, tokens: &[Token]) -> Result<Option<Sought>, NoMemory>
    ensures { IfOk result (λ sought. sought ≡ spec.with_charset tokens.now) }
{
    let Some((name, rest)) = read_charset(tokens) else {
        return Ok(None);
    };
    let charset = Text::of(alloc, name)?;
    match read_whole(alloc, rest)? {
        None => Ok(None),
        Some(key) => Ok(Some(Sought {
            charset: Some(charset),
            key,
        })),
    }
}

/// The keys of a SEARCH that names no charset.
fn read_plain(alloc: Global, tokens: &[Token]) -> Result<Option<Sought>, NoMemory>
    ensures { IfOk result (λ sought. sought ≡ spec.plain_in tokens.now) }
{
    match read_whole(alloc, tokens)? {
        None => Ok(None),
        Some(key) => Ok(Some(Sought { charset: None, key })),
    }
}

/// The arguments of SEARCH and of UID SEARCH, if they are in the grammar.
pub fn read_sought(alloc: Global, tokens: &[Token]) -> Result<Option<Sought>, NoMemory>
    ensures { IfOk result (λ sought. sought ≡ spec.sought_in tokens.now) }
{
    let Some(rest) = behind_space_token(tokens) else {
        return Ok(None);
    };
    match behind_charset(rest) {
        Some(named) => read_with_charset(alloc, named),
        None => read_plain(alloc, rest),
    }
}
