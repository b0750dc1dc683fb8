//! Words, atoms and numbers.
//!
//! A number from 1 on (RFC 3501, section 9: nz-number), as in a set or of a part's octets, has no leading zero. One from 0 on
//! (number: one or more digits), as the place of a part, LARGER and SMALLER, may begin with any number of zeros. Both are at most
//! 4294967295.
ghost use Rattle.std.specs.Prelude.{◌≡◌, option_map};
ghost use Rattle.std.specs.List.{list_all};
ghost use Rattle.imap_stream.specs.LiteralMarks.{is_atom_byte};
ghost use Rattle.imap_tokens.specs.Words.{upper, is_word, after_word, is_atom, is_pattern_byte, number_in, count_in};

use imap_stream::is_atom_char;
use undo_base::{are_digits, number_up_to};

/// The greatest number that a command may spell.
const MOST_NUMBER: u64 = 4294967295;

fn upper_byte(byte: u8) -> u8
    ensures { result ≡ upper byte }
{
    if 97 <= byte && byte <= 122 {
        byte - 32
    } else {
        byte
    }
}

/// Whether the bytes are a word, which is given in capitals, ignoring case.
pub fn is_same_word(bytes: &[u8], word: &[u8]) -> bool
    ensures { result ≡ is_word word.now bytes.now }
{
    match word {
        [] => bytes.is_empty(),
        [letter, word @ ..] => match bytes {
            [] => false,
            [byte, bytes @ ..] => upper_byte(*byte) == *letter && is_same_word(bytes, word),
        },
    }
}

/// What follows a word, which is given in capitals, ignoring case.
pub fn behind_word<'a>(bytes: &'a [u8], word: &[u8]) -> Option<&'a [u8]>
    ensures { option_map (λ rest. rest.now) result ≡ after_word word.now bytes.entry.now }
{
    match word {
        [] => Some(bytes),
        [letter, word @ ..] => match bytes {
            [] => None,
            [byte, bytes @ ..] => {
                if upper_byte(*byte) == *letter {
                    behind_word(bytes, word)
                } else {
                    None
                }
            }
        },
    }
}

fn only_atom_chars(bytes: &[u8]) -> bool
    ensures { result ≡ list_all is_atom_byte bytes.now }
{
    bytes.iter().all(|byte| is_atom_char(*byte))
}

/// Whether the bytes are an atom (RFC 3501, section 9).
pub fn is_whole_atom(bytes: &[u8]) -> bool
    ensures { result ≡ is_atom bytes.now }
{
    !bytes.is_empty() && only_atom_chars(bytes)
}

fn is_pattern_char(byte: u8) -> bool
    ensures { result ≡ is_pattern_byte byte }
{
    is_atom_char(byte) || byte == b'%' || byte == b'*'
}

/// Whether each byte may stand in a pattern that is an atom.
pub fn only_pattern_chars(bytes: &[u8]) -> bool
    ensures { result ≡ list_all is_pattern_byte bytes.now }
{
    bytes.iter().all(|byte| is_pattern_char(*byte))
}

/// A number from 1 to 4294967295, without leading zeros (RFC 3501, section 9: nz-number).
pub fn read_number(bytes: &[u8]) -> Option<u32>
    ensures { result ≡ number_in bytes.now }
{
    undo_base::read_number(1, MOST_NUMBER, bytes).map(|number| number as u32)
}

/// A number from 0 to 4294967295, in one or more digits, of which the first may be zeros (RFC 3501, section 9: number).
pub fn read_count(bytes: &[u8]) -> Option<u32>
    ensures { result ≡ count_in bytes.now }
{
    if bytes.is_empty() || !are_digits(bytes) {
        return None;
    }
    let value = number_up_to(MOST_NUMBER + 1, bytes);
    if value > MOST_NUMBER {
        return None;
    }
    Some(value as u32)
}
