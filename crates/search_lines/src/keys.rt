//! Keys, which may hold others up to a depth.
//!
//! The grammar of the arguments is a crate of its own, since imap_lines would pass a hundred functions by it.
//!
//! A command's keys, also one alone, are read as a list of which all must match. A size may begin with zeros, as the place of a
//! part. A key is as deep as the NOTs, ORs and parentheses round it: 64 NOTs may stand before SEEN.
ghost use Rattle.std.specs.Prelude.{◌≡◌, length, option_map, IfOk};
ghost use Rattle.search_lines.specs.Keys as spec;

use crate::leaves::{read_leaf, read_places};
use crate::words::{KeyWord, key_word};
use imap_tokens::{Token, behind_space_token, is_close_token, is_open_token, word_in};
use search_verb::{Search, Searches};
use std::alloc::Global;
use undo_base::NoMemory;

/// The end of keys: a parenthesis that closes them, or the end of the command.
fn at_end(closed: bool, tokens: &[Token]) -> Option<&[Token]>
    ensures { option_map (λ rest. rest.now) result ≡ spec.at_end closed tokens.now }
{
    match tokens {
        [] => { if closed { None } else { Some(tokens) } }
        [first, rest @ ..] => {
            if closed && is_close_token(first) {
                Some(rest)
            } else {
                None
            }
        }
    }
}

/// The messages that a set names, and what follows it.
fn read_set_key<'a>(
    alloc: Global,
    word: &[u8],
    tokens: &'a [Token],
) -> Result<Option<(Search, &'a [Token])>, NoMemory>
    ensures { IfOk result (λ found. option_map (λ r. (r.0, r.1.now)) found ≡ spec.set_key word.now tokens.entry.now) }
{
    match read_places(alloc, word)? {
        None => Ok(None),
        Some(key) => Ok(Some((key, tokens))),
    }
}

/// A key behind a space, and what follows it.
#[cycle(key)]
fn next_key(
    alloc: Global,
    depth: u32,
    tokens: &[Token],
) -> Result<Option<(Search, &[Token])>, NoMemory>
    ensures { IfOk result (λ found. option_map (λ r. (r.0, r.1.now)) found ≡ spec.next_key (spec.key_in depth) tokens.now) }
{
    match behind_space_token(tokens) {
        None => Ok(None),
        Some(rest) => read_key(alloc, depth, rest),
    }
}

/// A key that is not to match, and what follows it.
#[cycle(key)]
fn read_not(
    alloc: Global,
    depth: u32,
    tokens: &[Token],
) -> Result<Option<(Search, &[Token])>, NoMemory>
    ensures { IfOk result (λ found. option_map (λ r. (r.0, r.1.now)) found ≡ spec.not_in (spec.key_in depth) tokens.now) }
{
    match next_key(alloc, depth, tokens)? {
        None => Ok(None),
        Some((inner, rest)) => Ok(Some((Search::not(alloc, inner)?, rest))),
    }
}

/// Two keys of which one is to match, and what follows them.
#[cycle(key)]
fn read_or(
    alloc: Global,
    depth: u32,
    tokens: &[Token],
) -> Result<Option<(Search, &[Token])>, NoMemory>
    ensures { IfOk result (λ found. option_map (λ r. (r.0, r.1.now)) found ≡ spec.or_in (spec.key_in depth) tokens.now) }
{
    let Some((first, rest)) = next_key(alloc, depth, tokens)? else {
        return Ok(None);
    };
    match next_key(alloc, depth, rest)? {
        None => Ok(None),
        Some((second, rest)) => Ok(Some((Search::or(alloc, first, second)?, rest))),
    }
}

/// Keys with a space between each two up to their end, and what follows it.
#[tactic(auto, using(crate::proofs::Turns::next_key))]
#[cycle(key)]
fn read_keys(
    alloc: Global,
    depth: u32,
    closed: bool,
    tokens: &[Token],
) -> Result<Option<(Searches, &[Token])>, NoMemory>
    ensures { IfOk result (λ found. option_map (λ r. (r.0, r.1.now)) found ≡ spec.keys_in (spec.key_in depth) closed (length tokens.now) tokens.now) }
{
    let mut keys = Searches::new(alloc);
    let mut rest = tokens;
    let mut most = tokens.len();
    while most > 0 {
        let Some((key, behind)) = read_key(alloc, depth, rest)? else {
            return Ok(None);
        };
        keys.push(key)?;
        if let Some(after) = at_end(closed, behind) {
            return Ok(Some((keys, after)));
        }
        let Some(more) = behind_space_token(behind) else {
            return Ok(None);
        };
        rest = more;
        most -= 1;
    }
    Ok(None)
}

/// Keys in parentheses, behind the one that opens them, and what follows the one that closes them.
#[cycle(key)]
fn read_listed(
    alloc: Global,
    depth: u32,
    tokens: &[Token],
) -> Result<Option<(Search, &[Token])>, NoMemory>
    ensures { IfOk result (λ found. option_map (λ r. (r.0, r.1.now)) found ≡ spec.listed_in (spec.key_in depth) tokens.now) }
{
    match read_keys(alloc, depth, true, tokens)? {
        None => Ok(None),
        Some((keys, rest)) => Ok(Some((Search::all_of(keys), rest))),
    }
}

/// A key behind its word, and what follows it.
#[cycle(key)]
fn read_by(
    alloc: Global,
    depth: u32,
    word: KeyWord,
    tokens: &[Token],
) -> Result<Option<(Search, &[Token])>, NoMemory>
    ensures { IfOk result (λ found. option_map (λ r. (r.0, r.1.now)) found ≡ spec.key_by (spec.key_in depth) word tokens.now) }
{
    if word == KeyWord::Not {
        return read_not(alloc, depth, tokens);
    }
    if word == KeyWord::Or {
        return read_or(alloc, depth, tokens);
    }
    read_leaf(alloc, word, tokens)
}

/// A key behind the word that it begins with, and what follows it.
#[cycle(key)]
fn read_worded<'a>(
    alloc: Global,
    depth: u32,
    word: &[u8],
    tokens: &'a [Token],
) -> Result<Option<(Search, &'a [Token])>, NoMemory>
    ensures { IfOk result (λ found. option_map (λ r. (r.0, r.1.now)) found ≡ spec.worded_in (spec.key_in depth) word.now tokens.entry.now) }
{
    match key_word(word) {
        None => read_set_key(alloc, word, tokens),
        Some(known) => read_by(alloc, depth, known, tokens),
    }
}

/// A key, and what follows it. The keys that it holds hold one another this many deep at most.
#[cycle(key)]
fn read_opened(
    alloc: Global,
    depth: u32,
    tokens: &[Token],
) -> Result<Option<(Search, &[Token])>, NoMemory>
    ensures { IfOk result (λ found. option_map (λ r. (r.0, r.1.now)) found ≡ spec.opened_in (spec.key_in depth) tokens.now) }
{
    match tokens {
        [] => Ok(None),
        [first, rest @ ..] => {
            if is_open_token(first) {
                return read_listed(alloc, depth, rest);
            }
            match word_in(first) {
                None => Ok(None),
                Some(word) => read_worded(alloc, depth, word, rest),
            }
        }
    }
}

/// A key, and what follows it. In it, keys hold one another this many deep at most, itself the first.
#[tactic(auto, using(crate::proofs::Turns::none_held, crate::proofs::Turns::key_held))]
#[cycle(key)]
fn read_key(
    alloc: Global,
    depth: u32,
    tokens: &[Token],
) -> Result<Option<(Search, &[Token])>, NoMemory>
    ensures { IfOk result (λ found. option_map (λ r. (r.0, r.1.now)) found ≡ spec.key_in depth tokens.now) }
{
    if depth == 0 {
        Ok(None)
    } else {
        read_opened(alloc, depth - 1, tokens)
    }
}

/// The keys that end a command, of which all are to match.
pub(crate) fn read_whole(alloc: Global, tokens: &[Token]) -> Result<Option<Search>, NoMemory>
    ensures { IfOk result (λ key. key ≡ spec.whole_keys tokens.now) }
{
    match read_keys(alloc, 65, false, tokens)? {
        None => Ok(None),
        Some((keys, _)) => Ok(Some(Search::all_of(keys))),
    }
}
