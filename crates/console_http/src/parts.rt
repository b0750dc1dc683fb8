//! The parts of paths, and names.
ghost use Rattle.std.specs.Prelude.{◌≡◌, ◌≤◌, ◌==◌, length, IfOk, option_map, position, true};
ghost use Rattle.std.specs.List.{list_all, list_any, position_or_len, before_first, after_first};
ghost use Rattle.undo_base.specs.Name.{is_name as name_text, is_printable as printable};
ghost use Rattle.verb_core.specs.Recipients.{user_named};
ghost use Rattle.verb_core.specs.Store.{is_house};
ghost use Rattle.std.specs.Prelude.{IsTrue, bytes_eq};
ghost use Rattle.console_http.specs.Parts.{begins_with_hex as begins_hex, has_good_escapes as good_escapes, is_slash, part_of, number32, name_of, kept, box_name, is_local_byte as local_byte, is_local as local_text, local_of, field_of};

use header_fields::{field_names_are_names, is_field_name};
use percent_encoding::percent_decode;
use std::alloc::Global;
use undo_base::{MOST_NAME, Name, NoMemory, User, after, read_number as read_digits};
use verb_core::{Account, House};

fn begins_with_hex(bytes: &[u8]) -> bool
    ensures { result ≡ begins_hex bytes.now }
{
    match bytes {
        [high, low, ..] => high.is_ascii_hexdigit() && low.is_ascii_hexdigit(),
        _ => false,
    }
}

/// Whether two hexadecimal digits follow each `%` (RFC 3986, 2.1).
fn has_good_escapes(part: &[u8]) -> bool
    ensures { result ≡ good_escapes part.now }
{
    let mut rest = part;
    while let Some((byte, tail)) = rest.split_first() {
        if *byte == b'%' && !begins_with_hex(tail) {
            return false;
        }
        rest = tail;
    }
    true
}

fn has_slash(part: &[u8]) -> bool
    ensures { result ≡ list_any is_slash part.now }
{
    part.iter().any(|byte| *byte == b'/')
}

/// Where the first slash stands, or the length where none does.
fn place_of_slash(path: &[u8]) -> usize
    ensures within { result ≤ length path.now }
    ensures value { result ≡ position_or_len is_slash path.now }
{
    for (place, byte) in path.iter().enumerate() {
        if *byte == b'/' {
            return place;
        }
    }
    path.len()
}

/// The bytes before the first slash; all where there is none.
pub fn before_slash(path: &[u8]) -> &[u8]
    ensures { result.now ≡ before_first is_slash path.now }
{
    &path[..place_of_slash(path)]
}

/// What follows the first slash, or nothing.
pub fn behind_slash(path: &[u8]) -> &[u8]
    ensures { result.now ≡ after_first is_slash path.now }
{
    let place = place_of_slash(path);
    if place < path.len() {
        after(path, place + 1)
    } else {
        &[]
    }
}

/// What a part of a path says, unless an escape is bad or a slash stands in it.
pub fn read_part(alloc: Global, part: &[u8]) -> Result<Option<Vec<u8>>, NoMemory>
    ensures { IfOk result (λ r. option_map (λ v. v.items) r ≡ part_of part.now) }
{
    if has_slash(part) || !has_good_escapes(part) {
        return Ok(None);
    }
    let mut bytes = Vec::new(alloc);
    percent_decode(part).append_to(&mut bytes)?;
    Ok(Some(bytes))
}

/// A number of 32 bits, without a leading zero.
pub fn read_number(text: &[u8]) -> Option<u32>
    ensures { result ≡ number32 text.now }
{
    read_digits(0, u32::MAX as u64, text).map(|number| number as u32)
}

fn is_printable(byte: u8) -> bool
    ensures { result ≡ printable byte }
{
    32 <= byte && byte <= 126
}

fn are_printable(text: &[u8]) -> bool
    ensures { result ≡ list_all printable text.now }
{
    text.iter().all(|byte| is_printable(*byte))
}

fn is_name(text: &[u8]) -> bool
    ensures { result ≡ name_text text.now }
{
    1 <= text.len() && text.len() <= MOST_NAME && are_printable(text)
}

/// The name that the text spells, where it is one.
pub fn read_name(alloc: Global, text: &[u8]) -> Result<Option<Name>, NoMemory>
    ensures { IfOk result (λ name. name ≡ name_of text.now) }
{
    if !is_name(text) {
        return Ok(None);
    }
    Ok(Some(Name::of(alloc, text)?))
}

/// A name as it is kept: INBOX in any case is INBOX.
fn kept_name(alloc: Global, text: &[u8]) -> Result<Name, NoMemory>
    requires { name_text text.now ≡ true }
    ensures { IfOk result (λ name. name ≡ kept text.now) }
{
    if text.eq_ignore_ascii_case(b"inbox") {
        Name::of(alloc, b"INBOX")
    } else {
        Name::of(alloc, text)
    }
}

/// The name of a mailbox.
pub fn read_box(alloc: Global, text: &[u8]) -> Result<Option<Name>, NoMemory>
    ensures { IfOk result (λ name. name ≡ box_name text.now) }
{
    if !is_name(text) {
        return Ok(None);
    }
    Ok(Some(kept_name(alloc, text)?))
}

fn is_local_byte(byte: u8) -> bool
    ensures { result ≡ local_byte byte }
{
    byte.is_ascii_lowercase()
        || byte.is_ascii_digit()
        || byte == b'.'
        || byte == b'-'
        || byte == b'_'
}

fn are_local_bytes(text: &[u8]) -> bool
    ensures { result ≡ list_all local_byte text.now }
{
    text.iter().all(|byte| is_local_byte(*byte))
}

fn is_local(text: &[u8]) -> bool
    ensures { result ≡ local_text text.now }
{
    1 <= text.len() && text.len() <= 64 && are_local_bytes(text)
}

/// The local part of an alias.
#[tactic(auto, using(crate::proofs::Names::local_name))]
pub fn read_local(alloc: Global, text: &[u8]) -> Result<Option<Name>, NoMemory>
    ensures { IfOk result (λ name. name ≡ local_of text.now) }
{
    if !is_local(text) {
        return Ok(None);
    }
    Ok(Some(Name::of(alloc, text)?))
}

/// The name of a header field.
pub fn read_field(alloc: Global, text: &[u8]) -> Result<Option<Name>, NoMemory>
    ensures { IfOk result (λ name. name ≡ field_of text.now) }
{
    if !is_field_name(text) {
        return Ok(None);
    }
    field_names_are_names();
    Ok(Some(Name::of(alloc, text)?))
}

fn is_named(account: &Account, name: &[u8]) -> bool
    ensures { result ≡ bytes_eq account.now.name name.now }
{
    account.name.bytes() == name
}

fn find_account(accounts: &[Account], name: &[u8]) -> Option<usize>
    ensures { result ≡ position (λ account. bytes_eq account.name name.now) accounts.now }
{
    accounts.iter().position(|account| is_named(account, name))
}

/// The user of that name.
pub fn find_user(house: &House, name: &[u8]) -> Option<User>
    requires { IsTrue (is_house house.now) }
    ensures { result ≡ user_named house.now name.now }
{
    match find_account(house.accounts.as_slice(), name) {
        None => None,
        Some(place) => Some(User(place as u8)),
    }
}
