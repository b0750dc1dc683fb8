//! A string in bytes, ASCII case aside.
ghost use Rattle.std.specs.Prelude.{◌≡◌, ◌<◌, length, slice_index};
ghost use Rattle.search_verb.specs.Occurs.{begins_with as with_begin, occurs_in};

use memchr::memchr2;
use undo_base::{after, before};

/// Whether bytes begin with a string.
fn begins_with(string: &[u8], bytes: &[u8]) -> bool
    ensures { result ≡ with_begin string.now bytes.now }
{
    string.len() <= bytes.len() && before(bytes, string.len()).eq_ignore_ascii_case(string)
}

/// Whether a string with this first byte occurs in bytes. The places of that byte in either case are the only ones that are tried.
fn occurs_from(first: u8, string: &[u8], bytes: &[u8]) -> bool
    requires some { 0 < length string.now }
    requires first { slice_index string.now 0 ≡ first }
    ensures { result ≡ occurs_in string.now bytes.now }
{
    let low = first.to_ascii_lowercase();
    let high = first.to_ascii_uppercase();
    let mut rest = bytes;
    while let Some(place) = memchr2(low, high, rest) {
        let here = after(rest, place);
        if begins_with(string, here) {
            return true;
        }
        rest = after(here, 1);
    }
    false
}

/// Whether a string occurs in bytes; one of no bytes occurs in all.
pub(crate) fn occurs(string: &[u8], bytes: &[u8]) -> bool
    ensures { result ≡ occurs_in string.now bytes.now }
{
    match string {
        [] => true,
        [first, ..] => occurs_from(*first, string, bytes),
    }
}
