//! Fields of a header, one after the other.
ghost use Rattle.std.specs.Prelude.{◌≡◌, ◌≤◌, ◌<◌, true, false, [], ◌∷◌, length, take, drop};
ghost use Rattle.header_fields.specs.Fields.{is_blank as blank, is_folded as folded, begins_field as field_begins, fields_of};
ghost use Rattle.header_fields.specs.Header.{has_empty_line, empty_line_of};

use crate::lines::{begins_empty, line_len};
use undo_base::after;

/// Whether a byte is a space or a tab.
pub(crate) fn is_blank(byte: u8) -> bool
    ensures { result ≡ blank byte }
{
    byte == b' ' || byte == b'\t'
}

/// Whether what begins with these bytes goes on with the field before it.
fn is_folded(bytes: &[u8]) -> bool
    ensures { result ≡ folded bytes.now }
{
    match bytes {
        [] => false,
        [first, ..] => is_blank(*first),
    }
}

/// Whether a field comes first: neither the end nor the empty line that ends the header.
pub fn begins_field(bytes: &[u8]) -> bool
    ensures value { result ≡ field_begins bytes.now }
    ensures none { result ≡ false → fields_of bytes.now ≡ [] }
    ensures end { result ≡ false → empty_line_of bytes.now ≡ take 2 bytes.now }
{
    0 < bytes.len() && !begins_empty(bytes)
}

/// How long the first field of a header is, in bytes, with the lines that go on with it.
pub fn field_len(bytes: &[u8]) -> usize
    requires { field_begins bytes.now ≡ true }
    ensures within { result ≤ length bytes.now }
    ensures more { 0 < result }
    ensures fields { fields_of bytes.now ≡ take result bytes.now ∷ fields_of (drop result bytes.now) }
    ensures end { has_empty_line bytes.now ≡ has_empty_line (drop result bytes.now) }
{
    let mut passed = line_len(bytes);
    let mut rest = after(bytes, passed);
    while is_folded(rest) {
        let more = line_len(rest);
        passed += more;
        rest = after(rest, more);
    }
    passed
}
