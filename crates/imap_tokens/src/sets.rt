//! Sets of messages, as they are written.
ghost use Rattle.std.specs.Prelude.{◌≡◌, ◌+◌, ◌<◌, [], ◌∷◌, ◌++◌, length, take, drop, IfOk, IfSome, Some, None, option_map, if◌then◌else◌};
ghost use Rattle.imap_tokens.specs.Sets.{cut_at, end_in, two_in, range_in, set_in};

use crate::words::{is_same_word, read_number};
use imap_stream::{SetRange, SetText};
use std::alloc::Global;
use undo_base::NoMemory;

/// Where a byte stands first.
pub fn find_byte(bytes: &[u8], byte: u8) -> Option<usize>
    ensures value { option_map (λ n. (take n bytes.now, drop (n + 1) bytes.now)) result ≡ cut_at byte bytes.now }
    ensures within { IfSome result (λ n. n < length bytes.now) }
{
    for (place, other) in bytes.iter().enumerate() {
        if *other == byte {
            return Some(place);
        }
    }
    None
}

/// An end of a range.
fn read_end(bytes: &[u8]) -> Option<Option<u32>>
    ensures { result ≡ end_in bytes.now }
{
    if is_same_word(bytes, b"*") {
        return Some(None);
    }
    match read_number(bytes) {
        Some(number) => Some(Some(number)),
        None => None,
    }
}

/// A range of two ends.
fn read_two(from: &[u8], to: &[u8]) -> Option<SetRange>
    ensures { result ≡ two_in from.now to.now }
{
    let from = read_end(from)?;
    let to = read_end(to)?;
    Some(SetRange { from, to })
}

/// A range, or one number.
fn read_range(bytes: &[u8]) -> Option<SetRange>
    ensures { result ≡ range_in bytes.now }
{
    match find_byte(bytes, b':') {
        Some(place) => read_two(&bytes[..place], &bytes[place + 1..]),
        None => read_two(bytes, bytes),
    }
}

/// What stands before a byte and behind it, where it stands first.
fn cut(bytes: &[u8], byte: u8) -> Option<(&[u8], &[u8])>
    ensures value { option_map (λ parts. (parts.0.now, parts.1.now)) result ≡ cut_at byte bytes.now }
    ensures shorter { IfSome result (λ parts. length parts.1.now < length bytes.now) }
{
    let place = find_byte(bytes, byte)?;
    Some((&bytes[..place], &bytes[place + 1..]))
}

/// Adds a range to a set, if the bytes are one.
fn push_range(set: &mut SetText, bytes: &[u8]) -> Result<bool, NoMemory>
    ensures { IfOk result (λ good. option_map (λ range. set.old ++ range ∷ []) (range_in bytes.now) ≡ (if good then Some set.new else None)) }
{
    match read_range(bytes) {
        Some(range) => {
            set.push(range)?;
            Ok(true)
        }
        None => Ok(false),
    }
}

pub fn read_set(alloc: Global, bytes: &[u8]) -> Result<Option<SetText>, NoMemory>
    ensures { IfOk result (λ set. set ≡ set_in bytes.now) }
{
    let mut set = SetText::new(alloc);
    let mut rest = bytes;
    while let Some((range, more)) = cut(rest, b',') {
        if !push_range(&mut set, range)? {
            return Ok(None);
        }
        rest = more;
    }
    if push_range(&mut set, rest)? {
        Ok(Some(set))
    } else {
        Ok(None)
    }
}
