//! The name and the value of a field.
ghost use Rattle.std.specs.Prelude.{◌≡◌, ◌≤◌, length};
ghost use Rattle.std.specs.List.{position_or_len, after_first, list_all};
ghost use Rattle.header_fields.specs.Values.{is_colon, is_field_byte as can_stand, is_field_name as can_be_asked, has_name as name_there, trimmed, name_of, is_named as named, without_end as ends_without, value_of};

use crate::fields::is_blank;
use crate::lines::is_empty_line;
use undo_base::{after, before};

/// Where the first colon stands, or the length where there is none.
fn colon_of(field: &[u8]) -> usize
    ensures within { result ≤ length field.now }
    ensures value { result ≡ position_or_len is_colon field.now }
{
    for (place, byte) in field.iter().enumerate() {
        if *byte == b':' {
            return place;
        }
    }
    field.len()
}

/// Whether a field has a name: without a colon it has none.
pub fn has_name(field: &[u8]) -> bool
    ensures { result ≡ name_there field.now }
{
    field.iter().any(|byte| *byte == b':')
}

/// Bytes without the spaces and tabs at their end.
fn trim(bytes: &[u8]) -> &[u8]
    ensures { result.now ≡ trimmed bytes.now }
{
    let mut count = bytes.len();
    while count > 0 && is_blank(bytes[count - 1]) {
        count -= 1;
    }
    &bytes[..count]
}

/// What stands before the first colon, without the blanks at its end: the name, where the field has one.
pub fn name_in(field: &[u8]) -> &[u8]
    ensures { result.now ≡ name_of field.now }
{
    trim(before(field, colon_of(field)))
}

/// Whether a field has this name, ignoring ASCII case.
pub fn is_named(name: &[u8], field: &[u8]) -> bool
    ensures { result ≡ named name.now field.now }
{
    has_name(field) && name_in(field).eq_ignore_ascii_case(name)
}

/// A letter, a digit, `-` or `_`.
fn is_field_byte(byte: u8) -> bool
    ensures { result ≡ can_stand byte }
{
    (48 <= byte && byte <= 57)
        || (65 <= byte && byte <= 90)
        || (97 <= byte && byte <= 122)
        || byte == b'-'
        || byte == b'_'
}

/// Whether each byte is one of these.
fn are_field_bytes(bytes: &[u8]) -> bool
    ensures { result ≡ list_all can_stand bytes.now }
{
    bytes.iter().all(|byte| is_field_byte(*byte))
}

/// Whether a field can be asked for by the name: it is 1 to 64 letters, digits, `-` and `_`.
pub fn is_field_name(name: &[u8]) -> bool
    ensures { result ≡ can_be_asked name.now }
{
    1 <= name.len() && name.len() <= 64 && are_field_bytes(name)
}

/// Bytes without the CRLF at their end.
fn without_end(bytes: &[u8]) -> &[u8]
    ensures { result.now ≡ ends_without bytes.now }
{
    let front = bytes.len().saturating_sub(2);
    if is_empty_line(after(bytes, front)) {
        before(bytes, front)
    } else {
        bytes
    }
}

/// What stands behind the first colon; nothing where there is none.
fn behind_colon(field: &[u8]) -> &[u8]
    ensures { result.now ≡ after_first is_colon field.now }
{
    let colon = colon_of(field);
    if colon < field.len() {
        after(field, colon + 1)
    } else {
        after(field, colon)
    }
}

/// The value of a field, with its folds and without the CRLF at its end; nothing where the field has no colon.
pub fn value_in(field: &[u8]) -> &[u8]
    ensures { result.now ≡ value_of field.now }
{
    without_end(behind_colon(field))
}
