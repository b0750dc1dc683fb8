//! The header of a text, and what follows it.
//!
//! A text without an empty line is all header. A lone CR or LF ends no line, so neither makes an empty line.
ghost use Rattle.std.specs.Prelude.{◌≡◌, ◌≤◌, length, take};
ghost use Rattle.header_fields.specs.Header.{header_of, behind_header as header_behind};

use crate::lines::{is_empty_line, line_len};
use undo_base::{after, before};

/// How long the header is, in bytes, with its empty line; the whole text where it has none.
pub fn header_len(text: &[u8]) -> usize
    ensures within { result ≤ length text.now }
    ensures header { take result text.now ≡ header_of text.now }
{
    let mut passed = 0;
    let mut rest = text;
    while passed < text.len() {
        let count = line_len(rest);
        let ends = is_empty_line(before(rest, count));
        passed += count;
        rest = after(rest, count);
        if ends {
            return passed;
        }
    }
    passed
}

/// What follows the header.
#[tactic(auto, using(crate::proofs::Together::behind_front))]
pub fn behind_header(text: &[u8]) -> &[u8]
    ensures { result.now ≡ header_behind text.now }
{
    after(text, header_len(text))
}
