//! The tags of lines, and the marks of literals.
//!
//! A space behind the `}` makes it no mark. The digits of a mark may begin with zeros; eleven digits are no mark.
ghost use Rattle.std.specs.Prelude.{◌≡◌, ◌<◌, true, length, IfSome, option_map};
ghost use Rattle.std.specs.List.{list_all};
ghost use Rattle.undo_base.specs.Name.{is_name};
ghost use Rattle.imap_stream.specs.LiteralMarks.{is_atom_byte, is_tag_byte, is_tag, before_space, tag_of, all_digits, last_brace, size_in, mark_of};

use undo_base::{are_digits, number_in};

/// A literal mark in a line.
#[derive(Clone, Copy, Debug, PartialEq, Eq)]
pub struct Mark {
    /// Where it stands.
    pub place: usize,
    /// How many octets it announces.
    pub size: u64,
}

/// The most digits of a number.
const MOST_DIGITS: usize = 10;

/// Whether the bytes are 1 to 10 digits.
pub fn are_few_digits(bytes: &[u8]) -> bool
    ensures { result ≡ all_digits bytes.now }
{
    !bytes.is_empty() && bytes.len() <= MOST_DIGITS && are_digits(bytes)
}

/// Whether the byte may stand in an atom.
pub fn is_atom_char(byte: u8) -> bool
    ensures { result ≡ is_atom_byte byte }
{
    33 <= byte
        && byte <= 126
        && !(byte == b'('
            || byte == b')'
            || byte == b'{'
            || byte == b'%'
            || byte == b'*'
            || byte == b'"'
            || byte == b'\\')
}

fn is_tag_char(byte: u8) -> bool
    ensures { result ≡ is_tag_byte byte }
{
    is_atom_char(byte) && byte != b'+'
}

fn only_tag_chars(word: &[u8]) -> bool
    ensures { result ≡ list_all is_tag_byte word.now }
{
    word.iter().all(|byte| is_tag_char(*byte))
}

fn is_tag_word(word: &[u8]) -> bool
    ensures { result ≡ is_tag word.now }
{
    !word.is_empty() && word.len() <= 64 && only_tag_chars(word)
}

/// What stands before the first space.
pub fn first_word(line: &[u8]) -> Option<&[u8]>
    ensures { option_map (λ word. word.now) result ≡ before_space line.now }
{
    for (place, byte) in line.iter().enumerate() {
        if *byte == b' ' {
            return Some(&line[..place]);
        }
    }
    None
}

/// The tag of a line, which is a name.
#[tactic(auto, using(crate::proofs::TagNames::tag_name))]
pub fn read_tag(line: &[u8]) -> Option<&[u8]>
    ensures value { option_map (λ word. word.now) result ≡ tag_of line.now }
    ensures name { IfSome result (λ word. is_name word.now ≡ true) }
{
    let word = first_word(line)?;
    if is_tag_word(word) { Some(word) } else { None }
}

fn find_brace(line: &[u8]) -> Option<usize>
    ensures value { result ≡ last_brace line.now }
    ensures within { IfSome result (λ place. place < length line.now) }
{
    let mut found = None;
    for (place, byte) in line.iter().enumerate() {
        if *byte == b'{' {
            found = Some(place);
        }
    }
    found
}

/// The size that a mark has, of which this stands after the `{`.
fn size(tail: &[u8]) -> Option<u64>
    ensures { result ≡ size_in tail.now }
{
    let [digits @ .., close] = tail else {
        return None;
    };
    if *close == b'}' && are_few_digits(digits) {
        Some(number_in(digits))
    } else {
        None
    }
}

/// The literal mark that a line ends with.
pub fn read_mark(line: &[u8]) -> Option<Mark>
    ensures value { result ≡ mark_of line.now }
    ensures within { IfSome result (λ mark. mark.place < length line.now) }
{
    let place = find_brace(line)?;
    let size = size(&line[place + 1..])?;
    Some(Mark { place, size })
}
