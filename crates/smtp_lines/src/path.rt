//! Paths in angle brackets (RFC 5321, section 4.1.2).
//!
//! The route of a path is dropped once. A reverse path of a route alone (`<@a:>`) is empty and accepted. `<@a:postmaster>` is
//! `postmaster` alone.
//!
//! A path ends at the first `>`. Directly behind it stands the end of the line, or a space (555), or anything else (501). A bad
//! path is 501 even where a parameter follows.
ghost use Rattle.std.specs.Prelude.{◌≡◌};
ghost use Rattle.std.specs.Option.{option_copied};
ghost use Rattle.std.specs.List.{list_all};
ghost use Rattle.smtp_lines.specs.Path.{begins_with, path_at, inside, is_path_byte, is_path, unrouted, path_of, is_recipient};

use crate::parts::{
    after, before, before_the_last, behind, behind_the_last, has, has_length_of_name, has_word,
    is_spelled_as, unspace,
};

/// The most bytes between the brackets (RFC 5321, section 4.5.3.1.3).
const MOST_PATH: usize = 254;

/// What follows the word before a path, and the spaces behind it; nothing where the word isn't there.
pub fn path_behind<'a>(argument: &'a [u8], word: &[u8]) -> &'a [u8]
    ensures { result.now ≡ path_at word.now argument.now }
{
    if has_word(argument, word) {
        unspace(after(argument, word.len()))
    } else {
        &[]
    }
}

fn is_byte_of_path(byte: u8) -> bool
    ensures { result ≡ is_path_byte byte }
{
    33 <= byte && byte <= 126 && byte != b'<'
}

fn are_bytes_of_path(bytes: &[u8]) -> bool
    ensures { result ≡ list_all is_path_byte bytes.now }
{
    bytes.iter().all(|byte| is_byte_of_path(*byte))
}

fn begins(bytes: &[u8], byte: u8) -> bool
    ensures { result ≡ begins_with byte bytes.now }
{
    match bytes {
        [] => false,
        [first, ..] => *first == byte,
    }
}

/// What stands between the brackets.
fn inside_of(bytes: &[u8]) -> &[u8]
    ensures { result.now ≡ inside bytes.now }
{
    match bytes {
        [] => &[],
        [_, rest @ ..] => before(rest, b'>'),
    }
}

fn begins_with_path(bytes: &[u8]) -> bool
    ensures { result ≡ is_path bytes.now }
{
    begins(bytes, b'<')
        && has(bytes, b'>')
        && inside_of(bytes).len() <= MOST_PATH
        && are_bytes_of_path(inside_of(bytes))
}

/// A path without its route.
fn unroute(path: &[u8]) -> Option<&[u8]>
    ensures { option_copied result ≡ unrouted path.now }
{
    if !begins(path, b'@') {
        Some(path)
    } else if has(path, b':') {
        Some(behind(path, b':'))
    } else {
        None
    }
}

/// The path that bytes begin with, without its brackets and its route.
pub fn find_path(bytes: &[u8]) -> Option<&[u8]>
    ensures { option_copied result ≡ path_of bytes.now }
{
    if begins_with_path(bytes) {
        unroute(inside_of(bytes))
    } else {
        None
    }
}

/// Whether a path names a recipient: a local part and a domain, or `postmaster` alone.
pub fn is_recipient_path(path: &[u8]) -> bool
    ensures { result ≡ is_recipient path.now }
{
    if has(path, b'@') {
        has_length_of_name(before_the_last(path, b'@'))
            && has_length_of_name(behind_the_last(path, b'@'))
    } else {
        is_spelled_as(path, b"postmaster")
    }
}
