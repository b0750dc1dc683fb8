//! What the texts of a configuration may be.
//!
//! The postmaster's name and the names in aliases are compared byte for byte; user names have no capital letters.
//!
//! A name that was tested and that `Name::read` would refuse would be told as want of memory; no tested name is refused.
ghost use Rattle.std.specs.Prelude.{◌≡◌, bytes_eq, map};
ghost use Rattle.std.specs.List.{list_all, list_any};
ghost use Rattle.undo_base.specs.Name.{is_printable};
ghost use Rattle.house_text.specs.Words as spec;

use undo_base::Name;

fn is_sized(text: &[u8], most: usize) -> bool
    ensures { result ≡ spec.is_sized most text.now }
{
    1 <= text.len() && text.len() <= most
}

fn are_visible(text: &[u8]) -> bool
    ensures { result ≡ list_all spec.is_visible text.now }
{
    text.iter().all(|b| 33 <= *b && *b <= 126)
}

fn are_printable(text: &[u8]) -> bool
    ensures { result ≡ list_all is_printable text.now }
{
    text.iter().all(|b| 32 <= *b && *b <= 126)
}

fn is_local_byte(b: u8) -> bool
    ensures { result ≡ spec.is_local_byte b }
{
    (97 <= b && b <= 122) || (48 <= b && b <= 57) || b == b'.' || b == b'-' || b == b'_'
}

fn are_local(text: &[u8]) -> bool
    ensures { result ≡ list_all spec.is_local_byte text.now }
{
    text.iter().all(|b| is_local_byte(*b))
}

/// A host or a domain.
pub fn is_host(text: &[u8]) -> bool
    ensures { result ≡ spec.is_host text.now }
{
    is_sized(text, 200) && are_visible(text)
}

/// Whether the text can be a password: 1 to 200 octets that print, spaces among them.
pub fn is_password(text: &[u8]) -> bool
    ensures { result ≡ spec.is_password text.now }
{
    is_sized(text, 200) && are_printable(text)
}

fn is_local(text: &[u8]) -> bool
    ensures { result ≡ spec.is_local text.now }
{
    is_sized(text, 64) && are_local(text)
}

fn is_postmaster(text: &[u8]) -> bool
    ensures { result ≡ spec.is_postmaster text.now }
{
    text == b"postmaster".as_slice()
}

/// A local part other than `postmaster`.
pub fn is_user_name(text: &[u8]) -> bool
    ensures { result ≡ spec.is_user_name text.now }
{
    is_local(text) && !is_postmaster(text)
}

/// Whether a text is one of the names.
fn has_name(names: &[Name], text: &[u8]) -> bool
    ensures { result ≡ list_any (bytes_eq text.now) names.now }
{
    names.iter().any(|name| text == name.bytes())
}

/// Whether no name stands twice.
pub fn are_distinct(names: &[Name]) -> bool
    ensures { result ≡ spec.are_distinct names.now }
{
    let mut rest = names;
    while let [name, others @ ..] = rest {
        if has_name(others, name.bytes()) {
            return false;
        }
        rest = others;
    }
    true
}
