//! Parts of a command's lines.
ghost use Rattle.std.specs.Prelude.{◌≡◌, ◌≤◌, ◌==◌, length, drop};
ghost use Rattle.std.specs.List.{position_or_len, before_first, after_first};
ghost use Rattle.imap_tokens.specs.Parts.{is_space, trimmed, from_space};
ghost use Rattle.imap_tokens.specs.Parts as spec;

use undo_base::Text;

/// A line without the spaces at its end.
pub fn trim(bytes: &[u8]) -> &[u8]
    ensures { result.now ≡ trimmed bytes.now }
{
    let mut count = bytes.len();
    while count > 0 && bytes[count - 1] == b' ' {
        count -= 1;
    }
    &bytes[..count]
}

/// A line before others: of the last one the spaces at its end don't count.
pub fn line_before<'a>(line: &'a [u8], lines: &[Text]) -> &'a [u8]
    ensures { result.now ≡ spec.line_before line.entry.now lines.entry.now }
{
    match lines {
        [] => trim(line),
        [_next, ..] => line,
    }
}

/// Where a space stands first, or the length where none stands.
fn space_in(bytes: &[u8]) -> usize
    ensures within { result ≤ length bytes.now }
    ensures value { result ≡ position_or_len is_space bytes.now }
{
    for (place, byte) in bytes.iter().enumerate() {
        if *byte == b' ' {
            return place;
        }
    }
    bytes.len()
}

/// What stands before the first space.
pub fn before_space(bytes: &[u8]) -> &[u8]
    ensures { result.now ≡ before_first is_space bytes.now }
{
    &bytes[..space_in(bytes)]
}

/// What stands from the first space on.
pub fn at_space(bytes: &[u8]) -> &[u8]
    ensures { result.now ≡ from_space bytes.now }
{
    &bytes[space_in(bytes)..]
}

/// What stands behind the first space, or nothing.
pub fn behind_space(bytes: &[u8]) -> &[u8]
    ensures { result.now ≡ after_first is_space bytes.now }
{
    let place = space_in(bytes);
    if place < bytes.len() {
        after(bytes, place + 1)
    } else {
        &[]
    }
}

/// What stands behind so many items.
pub fn after<T>(items: &[T], count: usize) -> &[T]
    requires { count ≤ length items.now }
    ensures { result.now ≡ drop count items.now }
{
    &items[count..]
}
