//! Parts of a command line.
ghost use Rattle.std.specs.Prelude.{◌≡◌, ◌≤◌, ◌==◌, not, length, drop, IsTrue};
ghost use Rattle.std.specs.List.{list_any, list_all, position_or_len, suffix_len, before_first, after_first, before_last, after_last};
ghost use Rattle.smtp_lines.specs.Parts.{is_visible, is_short, trimmed, unspaced, is_spelled, starts_as};

use undo_base::MOST_NAME;

/// Where a byte stands first, or the length where it doesn't stand.
fn place_of(bytes: &[u8], byte: u8) -> usize
    ensures within { result ≤ length bytes.now }
    ensures value { result ≡ position_or_len (λ b. b == byte) bytes.now }
{
    for (place, b) in bytes.iter().enumerate() {
        if *b == byte {
            return place;
        }
    }
    bytes.len()
}

/// The bytes before the first such byte; all where there is none.
pub fn before(bytes: &[u8], byte: u8) -> &[u8]
    ensures { result.now ≡ before_first (λ b. b == byte) bytes.now }
{
    &bytes[..place_of(bytes, byte)]
}

/// What follows the first such byte, or nothing.
pub fn behind(bytes: &[u8], byte: u8) -> &[u8]
    ensures { result.now ≡ after_first (λ b. b == byte) bytes.now }
{
    let place = place_of(bytes, byte);
    if place < bytes.len() {
        after(bytes, place + 1)
    } else {
        &[]
    }
}

/// The bytes behind the first ones.
pub fn after(bytes: &[u8], count: usize) -> &[u8]
    requires { count ≤ length bytes.now }
    ensures { result.now ≡ drop count bytes.now }
{
    &bytes[count..]
}

/// Whether the byte is among them.
pub fn has(bytes: &[u8], byte: u8) -> bool
    ensures { result ≡ list_any (λ b. b == byte) bytes.now }
{
    bytes.iter().any(|b| *b == byte)
}

/// A line without the spaces at its end.
pub fn trim(bytes: &[u8]) -> &[u8]
    ensures { result.now ≡ trimmed bytes.now }
{
    let mut count = bytes.len();
    while count > 0 && bytes[count - 1] == b' ' {
        count -= 1;
    }
    &bytes[..count]
}

/// Bytes without the spaces at their head.
pub fn unspace(bytes: &[u8]) -> &[u8]
    ensures { result.now ≡ unspaced bytes.now }
{
    let mut rest = bytes;
    while let [b' ', more @ ..] = rest {
        rest = more;
    }
    rest
}

/// How many bytes follow the last such byte, or all.
fn count_at_end(bytes: &[u8], byte: u8) -> usize
    ensures within { result ≤ length bytes.now }
    ensures value { result ≡ suffix_len (λ b. not (b == byte)) bytes.now }
{
    let mut count = bytes.len();
    while count > 0 && bytes[count - 1] != byte {
        count -= 1;
    }
    bytes.len() - count
}

/// The bytes before the last such byte.
pub fn before_the_last(bytes: &[u8], byte: u8) -> &[u8]
    ensures { result.now ≡ before_last (λ b. b == byte) bytes.now }
{
    let end = bytes.len() - count_at_end(bytes, byte);
    &bytes[..end.saturating_sub(1)]
}

/// The bytes behind the last such byte.
pub fn behind_the_last(bytes: &[u8], byte: u8) -> &[u8]
    ensures { result.now ≡ after_last (λ b. b == byte) bytes.now }
{
    after(bytes, bytes.len() - count_at_end(bytes, byte))
}

/// Whether bytes are a word, ignoring case.
pub fn is_spelled_as(bytes: &[u8], word: &[u8]) -> bool
    ensures { result ≡ is_spelled word.now bytes.now }
{
    bytes.eq_ignore_ascii_case(word)
}

/// Whether bytes begin with a word, ignoring case.
pub fn has_word(bytes: &[u8], word: &[u8]) -> bool
    ensures within { IsTrue result → length word.now ≤ length bytes.now }
    ensures value { result ≡ starts_as word.now bytes.now }
{
    word.len() <= bytes.len() && is_spelled_as(&bytes[..word.len()], word)
}

fn is_visible_byte(byte: u8) -> bool
    ensures { result ≡ is_visible byte }
{
    33 <= byte && byte <= 126
}

/// Whether each byte shows.
pub fn are_visible(bytes: &[u8]) -> bool
    ensures { result ≡ list_all is_visible bytes.now }
{
    bytes.iter().all(|byte| is_visible_byte(*byte))
}

/// Whether there are as many bytes as a name may have.
pub fn has_length_of_name(bytes: &[u8]) -> bool
    ensures { result ≡ is_short bytes.now }
{
    1 <= bytes.len() && bytes.len() <= MOST_NAME
}
