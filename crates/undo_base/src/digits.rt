//! Numbers in digits.
//!
//! What digits are and what they stand for is said in one place, here, but for a date's fields of two and four digits, which
//! imap_tokens says. Numbers are read here: at most twelve digits, without a leading zero, between a least and a greatest number.
//! Digits of any number, with zeros in front, stand for a number up to a greatest.
ghost use Rattle.std.specs.Prelude.{◌≡◌, ◌≤◌, true, length, min};
ghost use Rattle.std.specs.Char.{is_ascii_digit};
ghost use Rattle.std.specs.List.{list_all};
ghost use Rattle.undo_base.specs.Digits.{is_decimal, number_of, number_between};

use crate::bytes::are_digits;

/// Whether the bytes are digits without a leading zero.
pub fn is_number(text: &[u8]) -> bool
    ensures { result ≡ is_decimal text.now }
{
    1 <= text.len() && (text.len() == 1 || text[0] != b'0') && are_digits(text)
}

/// What at most twelve digits stand for.
pub fn number_in(text: &[u8]) -> u64
    requires short { length text.now ≤ 12 }
    requires digits { list_all is_ascii_digit text.now ≡ true }
    ensures { result ≡ number_of text.now }
{
    let mut number = 0;
    for digit in text {
        number = 10 * number + (*digit - 48) as u64;
    }
    number
}

/// What digits stand for, and no more than the greatest number.
pub fn number_up_to(most: u64, digits: &[u8]) -> u64
    requires most { most ≤ 4294967296 }
    requires digits { list_all is_ascii_digit digits.now ≡ true }
    ensures { result ≡ min (number_of digits.now) most }
{
    let mut number = 0;
    for digit in digits {
        number = (10 * number + u64::from(*digit - b'0')).min(most);
    }
    number
}

/// A number of at most twelve digits without a leading zero, from low to high.
pub fn read_number(low: u64, high: u64, text: &[u8]) -> Option<u64>
    ensures { result ≡ number_between low high text.now }
{
    if !is_number(text) {
        return None;
    }
    if text.len() > 12 {
        return None;
    }
    let number = number_in(text);
    if low <= number && number <= high {
        Some(number)
    } else {
        None
    }
}
