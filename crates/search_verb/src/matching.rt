//! Which messages a key matches.
//!
//! What a search looks at goes by the kind of its keys: a string of no bytes looks at the text too.
ghost use Rattle.std.specs.Prelude.{◌≡◌, map, int_lt, int_le, ℤ, pos};
ghost use Rattle.std.specs.Ordering.{int_eq};
ghost use Rattle.search_verb.specs.Asked.{all_of, asked_by};
ghost use Rattle.search_verb.specs.Meets.{does_match, facts_of, meets, looked_at, needed, is_within as within, is_among as among, day_of as the_day, has_field as field_has, greater as the_greater};

use crate::occurs::occurs;
use crate::{Candidate, Look, SearchKey, SearchRange};
use header_fields::{begins_field, behind_header, field_len, is_named, value_in};
use undo_base::{after, before};

/// Whether a number stands in a range.
fn is_within(last: u64, number: u64, range: &SearchRange) -> bool
    ensures { result ≡ within last number range.now }
{
    let from = range.from.map_or(last, u64::from);
    let to = range.to.map_or(last, u64::from);
    from.min(to) <= number && number <= from.max(to)
}

/// Whether a number stands in a set.
fn is_among(last: u64, number: u64, ranges: &[SearchRange]) -> bool
    ensures { result ≡ among last number ranges.now }
{
    ranges.iter().any(|range| is_within(last, number, range))
}

/// The day of a moment in UTC, from 1 January 1970.
fn day_of(at: u64) -> i64
    ensures { result ≡ the_day at }
{
    (at / 86400) as i64
}

/// Whether a string occurs in the value of a field of this name.
fn has_field(name: &[u8], string: &[u8], text: &[u8]) -> bool
    ensures { result ≡ field_has name.now string.now text.now }
{
    let mut rest = text;
    while begins_field(rest) {
        let count = field_len(rest);
        let field = before(rest, count);
        if is_named(name, field) && occurs(string, value_in(field)) {
            return true;
        }
        rest = after(rest, count);
    }
    false
}

/// Whether a message matches a key. The text is looked at once for each key in it that needs it, and not at all where `looks` is
/// not `Text`. It takes stack for each level of the key.
#[cycle(matches)]
pub fn matches(key: &SearchKey, what: &Candidate<'_>) -> bool
    ensures { result ≡ does_match key.now what.now }
{
    match key {
        SearchKey::All => true,
        SearchKey::None => false,
        SearchKey::Answered => what.answered,
        SearchKey::Deleted => what.deleted,
        SearchKey::Draft => what.draft,
        SearchKey::Flagged => what.flagged,
        SearchKey::Seen => what.seen,
        SearchKey::Places(ranges) => is_among(
            u64::from(what.last_place),
            u64::from(what.place),
            ranges.as_slice(),
        ),
        SearchKey::Uids(ranges) => is_among(what.last_uid, what.uid, ranges.as_slice()),
        SearchKey::Before(day) => day_of(what.at) < *day,
        SearchKey::On(day) => day_of(what.at) == *day,
        SearchKey::Since(day) => *day <= day_of(what.at),
        SearchKey::Larger(size) => *size < what.size,
        SearchKey::Smaller(size) => what.size < *size,
        SearchKey::Field { name, bytes } => has_field(name.bytes(), bytes.bytes(), what.text),
        SearchKey::Body(bytes) => occurs(bytes.bytes(), behind_header(what.text)),
        SearchKey::Text(bytes) => occurs(bytes.bytes(), what.text),
        SearchKey::Not(inner) => !matches(inner, what),
        SearchKey::Or(first, second) => matches(first, what) || matches(second, what),
        SearchKey::And(keys) => matches_all(keys, what),
    }
}

/// Whether a message matches all of these keys.
#[cycle(matches)]
fn matches_all(keys: &[SearchKey], what: &Candidate<'_>) -> bool
    ensures { result ≡ meets (all_of (map asked_by keys.now)) (facts_of what.now) }
{
    for i in 0..keys.len() {
        if !matches(&keys[i], what) {
            return false;
        }
    }
    true
}

/// The greater of two.
fn greater(first: Look, second: Look) -> Look
    ensures { result ≡ the_greater first second }
{
    match first {
        Look::Nothing => second,
        Look::Size => match second {
            Look::Nothing => Look::Size,
            Look::Size => Look::Size,
            Look::Text => Look::Text,
        },
        Look::Text => Look::Text,
    }
}

/// What of a message has to be looked at to tell whether it matches: the greatest that some key in it needs.
#[cycle(looks)]
pub fn looks(key: &SearchKey) -> Look
    ensures { result ≡ looked_at key.now }
{
    match key {
        SearchKey::All => Look::Nothing,
        SearchKey::Answered => Look::Nothing,
        SearchKey::Deleted => Look::Nothing,
        SearchKey::Draft => Look::Nothing,
        SearchKey::Flagged => Look::Nothing,
        SearchKey::Seen => Look::Nothing,
        SearchKey::None => Look::Nothing,
        SearchKey::Places(_) => Look::Nothing,
        SearchKey::Uids(_) => Look::Nothing,
        SearchKey::Before(_) => Look::Nothing,
        SearchKey::On(_) => Look::Nothing,
        SearchKey::Since(_) => Look::Nothing,
        SearchKey::Larger(_) => Look::Size,
        SearchKey::Smaller(_) => Look::Size,
        SearchKey::Field { .. } => Look::Text,
        SearchKey::Body(_) => Look::Text,
        SearchKey::Text(_) => Look::Text,
        SearchKey::Not(inner) => looks(inner),
        SearchKey::Or(first, second) => greater(looks(first), looks(second)),
        SearchKey::And(keys) => looks_of_all(keys),
    }
}

/// What of a message has to be looked at for all of these keys.
#[cycle(looks)]
fn looks_of_all(keys: &[SearchKey]) -> Look
    ensures { result ≡ needed (all_of (map asked_by keys.now)) }
{
    let mut most = Look::Nothing;
    for i in (0..keys.len()).rev() {
        most = greater(looks(&keys[i]), most);
    }
    most
}
