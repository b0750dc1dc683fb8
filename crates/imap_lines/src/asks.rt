//! What FETCH and STATUS ask for, as it is written.
//!
//! `(FAST)` is bad: FAST stands alone. A list of attributes, STATUS items or fields has at least one.
ghost use Rattle.std.specs.Prelude.{◌≡◌, [], true, IfOk, option_map};
ghost use Rattle.imap_lines.specs.Asks.{status_in, statuses_from, part_in, tail_in};
ghost use Rattle.imap_lines.specs.Asks as spec;

use header_fields::{field_names_are_names, is_field_name};
use imap_tokens::{
    Token, find_byte, is_close_token, is_same_word, is_space_token, read_count, read_number,
    word_in,
};
use std::alloc::Global;
use undo_base::{Name, NoMemory, SectionAsk, Sequence, StatusAsk, StatusAsks};

/// An attribute that a FETCH asks for (RFC 3501, section 6.4.5).
#[derive(Drop)]
pub enum FetchAsk {
    Flags,
    Uid,
    InternalDate,
    Size,
    Rfc822,
    Rfc822Header,
    Rfc822Text,
    /// FLAGS, INTERNALDATE and RFC822.SIZE; it stands alone.
    Fast,
    Body { section: SectionAsk, peek: bool },
}

/// The items of a FETCH, in their order (RFC 3501, section 6.4.5).
pub type FetchAsks = Sequence<FetchAsk>;

fn read_status(word: &[u8]) -> Option<StatusAsk>
    ensures { result ≡ status_in word.now }
{
    if is_same_word(word, b"MESSAGES") {
        return Some(StatusAsk::Messages);
    }
    if is_same_word(word, b"RECENT") {
        return Some(StatusAsk::Recent);
    }
    if is_same_word(word, b"UIDNEXT") {
        return Some(StatusAsk::UidNext);
    }
    if is_same_word(word, b"UIDVALIDITY") {
        return Some(StatusAsk::UidValidity);
    }
    if is_same_word(word, b"UNSEEN") {
        return Some(StatusAsk::Unseen);
    }
    None
}

fn status_token(token: &Token) -> Option<StatusAsk>
    ensures { result ≡ spec.status_of token.now }
{
    read_status(word_in(token)?)
}

/// What a STATUS asks, behind the parenthesis that opens its list, which ends the command.
pub fn read_statuses(alloc: Global, tokens: &[Token]) -> Result<Option<StatusAsks>, NoMemory>
    ensures { IfOk result (λ asks. asks ≡ statuses_from true [] tokens.now) }
{
    let mut asks = StatusAsks::new(alloc);
    let mut wanted = true;
    for (place, token) in tokens.iter().enumerate() {
        if wanted {
            match status_token(token) {
                Some(ask) => asks.push(ask)?,
                None => return Ok(None),
            }
            wanted = false;
        } else if is_space_token(token) {
            wanted = true;
        } else if is_close_token(token) && place + 1 == tokens.len() {
            return Ok(Some(asks));
        } else {
            return Ok(None);
        }
    }
    Ok(None)
}

/// A field's name as a name, which it always is.
pub fn field_name(alloc: Global, bytes: &[u8]) -> Result<Option<Name>, NoMemory>
    ensures { IfOk result (λ name. name ≡ spec.field_in bytes.now) }
{
    if !is_field_name(bytes) {
        return Ok(None);
    }
    field_names_are_names();
    Ok(Some(Name::of(alloc, bytes)?))
}

/// Two numbers of a part: `o.n`.
fn read_numbers(from: &[u8], count: &[u8]) -> Option<(u32, u32)>
    ensures { result ≡ spec.numbers_in from.now count.now }
{
    let from = read_count(from)?;
    let count = read_number(count)?;
    Some((from, count))
}

/// The numbers of a part, of which this stands behind the `<`.
fn read_closed_part(bytes: &[u8]) -> Option<(u32, u32)>
    ensures { result ≡ spec.closed_part_in bytes.now }
{
    let [numbers @ .., close] = bytes else {
        return None;
    };
    if *close != b'>' {
        return None;
    }
    let place = find_byte(numbers, b'.')?;
    read_numbers(&numbers[..place], &numbers[place + 1..])
}

/// A part, or nothing.
pub fn read_part(bytes: &[u8]) -> Option<Option<(u32, u32)>>
    ensures { result ≡ part_in bytes.now }
{
    match bytes {
        [] => Some(None),
        [open, rest @ ..] => {
            if *open != b'<' {
                return None;
            }
            match read_closed_part(rest) {
                Some(part) => Some(Some(part)),
                None => None,
            }
        }
    }
}

/// What stands behind a section.
pub fn read_tail(bytes: &[u8]) -> Option<Option<(u32, u32)>>
    ensures { result ≡ tail_in bytes.now }
{
    match bytes {
        [] => None,
        [close, rest @ ..] => {
            if *close == b']' {
                read_part(rest)
            } else {
                None
            }
        }
    }
}
