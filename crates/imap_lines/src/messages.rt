//! The arguments of FETCH, STORE, COPY and SEARCH (RFC 3501, sections 6.4.4 to 6.4.8).
//!
//! STORE wants at least one flag where it has no parentheses; `()` is no flag.
ghost use Rattle.std.specs.Prelude.{◌≡◌, [], option_map, IfOk};
ghost use Rattle.imap_lines.specs.Messages.{how_in, listed_flags, store_flags, change_in, fetch_of, store_of, copy_of, search_of, with_sought};

use crate::ImapWhat;
use crate::arguments::last_string;
use crate::fetch::read_fetch;
use imap_tokens::{
    Token, behind_space_token, is_open_token, is_same_word, next_word, read_bare_flags, read_flags,
    read_set,
};
use search_lines::{Sought, read_sought};
use std::alloc::Global;
use undo_base::{Flags, How, NoMemory, Text};

/// How a STORE changes flags, and whether it does so without an answer.
fn read_how(word: &[u8]) -> Option<(How, bool)>
    ensures { result ≡ how_in word.now }
{
    if is_same_word(word, b"FLAGS") {
        return Some((How::Replace, false));
    }
    if is_same_word(word, b"FLAGS.SILENT") {
        return Some((How::Replace, true));
    }
    if is_same_word(word, b"+FLAGS") {
        return Some((How::Add, false));
    }
    if is_same_word(word, b"+FLAGS.SILENT") {
        return Some((How::Add, true));
    }
    if is_same_word(word, b"-FLAGS") {
        return Some((How::Take, false));
    }
    if is_same_word(word, b"-FLAGS.SILENT") {
        return Some((How::Take, true));
    }
    None
}

/// Flags in a list that ends the command.
fn last_flags(tokens: &[Token]) -> Option<Flags>
    ensures { result ≡ listed_flags tokens.now }
{
    let (flags, rest) = read_flags(tokens)?;
    if rest.is_empty() { Some(flags) } else { None }
}

/// Flags in a list or without parentheses, which end the command.
fn read_store_flags(tokens: &[Token]) -> Option<Flags>
    ensures { result ≡ store_flags tokens.now }
{
    match tokens {
        [] => None,
        [first, rest @ ..] => {
            if is_open_token(first) {
                last_flags(rest)
            } else {
                read_bare_flags(tokens)
            }
        }
    }
}

/// What a STORE changes, and how.
fn read_change(tokens: &[Token]) -> Option<(How, bool, Flags)>
    ensures { result ≡ change_in tokens.now }
{
    let (word, rest) = next_word(tokens)?;
    let (how, silent) = read_how(word)?;
    let flags = read_store_flags(behind_space_token(rest)?)?;
    Some((how, silent, flags))
}

/// The arguments of STORE.
pub fn read_store(
    alloc: Global,
    by_uid: bool,
    tokens: &[Token],
) -> Result<Option<ImapWhat>, NoMemory>
    ensures { IfOk result (λ what. what ≡ store_of by_uid tokens.now) }
{
    let Some((word, rest)) = next_word(tokens) else {
        return Ok(None);
    };
    let Some((how, silent, flags)) = read_change(rest) else {
        return Ok(None);
    };
    let Some(set) = read_set(alloc, word)? else {
        return Ok(None);
    };
    Ok(Some(ImapWhat::Store {
        set,
        how,
        silent,
        flags,
        by_uid,
    }))
}

/// The arguments of FETCH.
pub fn read_fetch_of(
    alloc: Global,
    by_uid: bool,
    tokens: &[Token],
) -> Result<Option<ImapWhat>, NoMemory>
    ensures { IfOk result (λ what. what ≡ fetch_of by_uid tokens.now) }
{
    let Some((word, rest)) = next_word(tokens) else {
        return Ok(None);
    };
    let Some(rest) = behind_space_token(rest) else {
        return Ok(None);
    };
    let Some(set) = read_set(alloc, word)? else {
        return Ok(None);
    };
    let Some(asked) = read_fetch(alloc, rest)? else {
        return Ok(None);
    };
    Ok(Some(ImapWhat::Fetch { set, asked, by_uid }))
}

/// The arguments of COPY.
pub fn read_copy(
    alloc: Global,
    by_uid: bool,
    tokens: &[Token],
) -> Result<Option<ImapWhat>, NoMemory>
    ensures { IfOk result (λ what. what ≡ copy_of by_uid tokens.now) }
{
    let Some((word, rest)) = next_word(tokens) else {
        return Ok(None);
    };
    let Some(target) = last_string(rest) else {
        return Ok(None);
    };
    let Some(set) = read_set(alloc, word)? else {
        return Ok(None);
    };
    let target = Text::of(alloc, target)?;
    Ok(Some(ImapWhat::Copy {
        set,
        target,
        by_uid,
    }))
}

fn search(by_uid: bool, sought: Sought) -> ImapWhat
    ensures { result ≡ with_sought by_uid sought }
{
    let Sought { charset, key } = sought;
    ImapWhat::Search {
        charset,
        key,
        by_uid,
    }
}

/// The arguments of SEARCH.
pub fn read_search(
    alloc: Global,
    by_uid: bool,
    tokens: &[Token],
) -> Result<Option<ImapWhat>, NoMemory>
    ensures { IfOk result (λ what. what ≡ search_of by_uid tokens.now) }
{
    match read_sought(alloc, tokens)? {
        None => Ok(None),
        Some(sought) => Ok(Some(search(by_uid, sought))),
    }
}
