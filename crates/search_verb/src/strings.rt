//! Which messages a key matches, found in time that grows as strings and texts together, whatever repeats in them.
ghost use Rattle.std.specs.Prelude.{◌≡◌, ◌&&◌, map, IfOk};
ghost use Rattle.search_verb.specs.Asked.{all_of, asked_by};
ghost use Rattle.header_fields.specs.Values.{is_named as named, value_of};
ghost use Rattle.search_verb.specs.Meets.{does_match, facts_of, meets, has_field as field_has};
ghost use Rattle.search_verb.specs.Occurs.{occurs_in};

use crate::matching::matches;
use crate::occurs::occurs;
use crate::{Candidate, SearchKey};
use header_fields::{begins_field, behind_header, field_len, is_named, value_in};
use memchr::memmem;
use std::alloc::Global;
use undo_base::{NoMemory, after, before};

/// The longest string that is compared wherever its first byte stands.
const MOST_COMPARED: usize = 64;

/// Whether a string occurs in bytes, by copies of both in lower case.
fn occurs_in_copies(alloc: Global, string: &[u8], bytes: &[u8]) -> Result<bool, NoMemory>
    ensures { IfOk result (λ found. found ≡ occurs_in string.now bytes.now) }
{
    let string = string.to_ascii_lowercase(alloc)?;
    let bytes = bytes.to_ascii_lowercase(alloc)?;
    Ok(memmem::find(bytes.as_slice(), string.as_slice()).is_some())
}

/// Whether a string occurs in bytes. One that is short takes no memory, nor does one that is longer than the bytes.
fn finds_string(alloc: Global, string: &[u8], bytes: &[u8]) -> Result<bool, NoMemory>
    ensures { IfOk result (λ found. found ≡ occurs_in string.now bytes.now) }
{
    if string.len() <= MOST_COMPARED {
        return Ok(occurs(string, bytes));
    }
    if bytes.len() < string.len() {
        return Ok(false);
    }
    occurs_in_copies(alloc, string, bytes)
}

/// Whether a field has this name, and the string in its value.
fn finds_value(alloc: Global, name: &[u8], string: &[u8], field: &[u8]) -> Result<bool, NoMemory>
    ensures { IfOk result (λ found. found ≡ (named name.now field.now && occurs_in string.now (value_of field.now))) }
{
    if is_named(name, field) {
        finds_string(alloc, string, value_in(field))
    } else {
        Ok(false)
    }
}

/// Whether a string occurs in the value of a field of this name.
fn finds_field(alloc: Global, name: &[u8], string: &[u8], text: &[u8]) -> Result<bool, NoMemory>
    ensures { IfOk result (λ found. found ≡ field_has name.now string.now text.now) }
{
    let mut rest = text;
    while begins_field(rest) {
        let count = field_len(rest);
        if finds_value(alloc, name, string, before(rest, count))? {
            return Ok(true);
        }
        rest = after(rest, count);
    }
    Ok(false)
}

/// Whether a message matches a key, as `matches` says. Memory is taken for a long string and for what it is looked for in.
#[cycle(finds)]
pub(crate) fn finds(alloc: Global, key: &SearchKey, what: &Candidate<'_>) -> Result<bool, NoMemory>
    ensures { IfOk result (λ found. found ≡ does_match key.now what.now) }
{
    match key {
        SearchKey::Field { name, bytes } => {
            finds_field(alloc, name.bytes(), bytes.bytes(), what.text)
        }
        SearchKey::Body(bytes) => finds_string(alloc, bytes.bytes(), behind_header(what.text)),
        SearchKey::Text(bytes) => finds_string(alloc, bytes.bytes(), what.text),
        SearchKey::Not(inner) => Ok(!finds(alloc, inner, what)?),
        SearchKey::Or(first, second) => {
            if finds(alloc, first, what)? {
                return Ok(true);
            }
            finds(alloc, second, what)
        }
        SearchKey::And(keys) => finds_all(alloc, keys, what),
        _ => Ok(matches(key, what)),
    }
}

/// Whether a message matches all of these keys.
#[cycle(finds)]
fn finds_all(alloc: Global, keys: &[SearchKey], what: &Candidate<'_>) -> Result<bool, NoMemory>
    ensures { IfOk result (λ found. found ≡ meets (all_of (map asked_by keys.now)) (facts_of what.now)) }
{
    for i in 0..keys.len() {
        if !finds(alloc, &keys[i], what)? {
            return Ok(false);
        }
    }
    Ok(true)
}
