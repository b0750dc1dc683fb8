//! How many octets of a body the headers announce.
//!
//! Two lengths are the same where they are without the zeros in front: `029` is `29`. An empty value, a sign and a list (`1, 1`)
//! are no digits.
ghost use Rattle.std.specs.Prelude.{◌≡◌, ◌≤◌, All, length, map, min, true, find, option_copied, option_map, position, not, ◌==◌};
ghost use Rattle.std.specs.Char.{is_ascii_digit};
ghost use Rattle.std.specs.List.{list_all, list_any};
ghost use Rattle.std.specs.Str.{bytes_eq, str_to_ascii_lowercase};
ghost use Rattle.httparse.specs.Spans.{IsHeaderWithin, header_bytes};
ghost use Rattle.undo_base.specs.Digits.{number_of};
ghost use Rattle.console_head.specs.Lengths.{is_named as named, is_coding as coding, is_length as length_header, is_number as number, significant as significant_of, agrees as agrees_with, body_length as announced, from_place};

use crate::request::MOST_BODY;
use httparse::spans::HeaderSpan;
use undo_base::{after, are_digits, number_up_to};

fn is_named(name: &[u8], wanted: &[u8]) -> bool
    ensures { result ≡ bytes_eq (str_to_ascii_lowercase name.now) (str_to_ascii_lowercase wanted.now) }
{
    name.eq_ignore_ascii_case(wanted)
}

fn is_coding(text: &[u8], header: HeaderSpan) -> bool
    requires { IsHeaderWithin (length text.now) header }
    ensures { result ≡ coding (header_bytes text.now header) }
{
    is_named(header.name.of(text), b"transfer-encoding")
}

fn is_length(text: &[u8], header: HeaderSpan) -> bool
    requires { IsHeaderWithin (length text.now) header }
    ensures { result ≡ length_header (header_bytes text.now header) }
{
    is_named(header.name.of(text), b"content-length")
}

fn is_number(text: &[u8]) -> bool
    ensures { result ≡ number text.now }
{
    1 <= text.len() && are_digits(text)
}

fn find_significant(digits: &[u8]) -> Option<usize>
    ensures { result ≡ position (λ digit. not (digit == 48)) digits.now }
{
    digits.iter().position(|digit| *digit != b'0')
}

/// Digits without the zeros in front.
fn significant(digits: &[u8]) -> &[u8]
    ensures { result.now ≡ significant_of digits.now }
{
    match find_significant(digits) {
        Some(place) => after(digits, place),
        None => &[],
    }
}

fn agrees(text: &[u8], first: &[u8], header: HeaderSpan) -> bool
    requires { IsHeaderWithin (length text.now) header }
    ensures { result ≡ agrees_with first.now (header_bytes text.now header) }
{
    if !is_length(text, header) {
        return true;
    }
    let value = header.value.of(text);
    is_number(value) && significant(value) == significant(first)
}

/// What digits stand for, up to one more than a body may have.
fn number_in(digits: &[u8]) -> u32
    requires { list_all is_ascii_digit digits.now ≡ true }
    ensures { result ≡ min (number_of digits.now) 4194305 }
{
    number_up_to(u64::from(MOST_BODY) + 1, digits) as u32
}

fn has_coding(text: &[u8], headers: &[HeaderSpan]) -> bool
    requires { All (IsHeaderWithin (length text.now)) headers.now }
    ensures { result ≡ list_any (λ header. coding (header_bytes text.now header)) headers.now }
{
    for header in headers {
        if is_coding(text, *header) {
            return true;
        }
    }
    false
}

/// The value of the first length.
fn first_length<'a>(text: &'a [u8], headers: &[HeaderSpan]) -> Option<&'a [u8]>
    requires { All (IsHeaderWithin (length text.now)) headers.now }
    ensures { option_map (λ value. value.now) result ≡ option_map (λ header. (header_bytes text.now header).1) (find (λ header. length_header (header_bytes text.now header)) headers.now) }
{
    for header in headers {
        if is_length(text, *header) {
            return Some(header.value.of(text));
        }
    }
    None
}

fn all_agree(text: &[u8], first: &[u8], headers: &[HeaderSpan]) -> bool
    requires { All (IsHeaderWithin (length text.now)) headers.now }
    ensures { result ≡ list_all (λ header. agrees_with first.now (header_bytes text.now header)) headers.now }
{
    for header in headers {
        if !agrees(text, first, *header) {
            return false;
        }
    }
    true
}

/// How many octets the body has, up to one more than it may have.
pub fn body_length(text: &[u8], headers: &[HeaderSpan]) -> Option<u32>
    requires { All (IsHeaderWithin (length text.now)) headers.now }
    ensures { result ≡ option_map (λ n. min n 4194305) (announced (map (header_bytes text.now) headers.now)) }
{
    if has_coding(text, headers) {
        return None;
    }
    let Some(first) = first_length(text, headers) else {
        return Some(0);
    };
    if !all_agree(text, first, headers) {
        return None;
    }
    Some(number_in(first))
}
