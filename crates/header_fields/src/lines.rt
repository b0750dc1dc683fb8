//! Lines of a text.
ghost use Rattle.std.specs.Prelude.{◌≡◌, ◌≤◌, ◌<◌, [], ◌∷◌, length, take, drop};
ghost use Rattle.header_fields.specs.Lines.{is_end, lines_of, is_empty_line as empty_line, begins_empty as empty_begins};

use undo_base::after;

const CR: u8 = 13;

const LF: u8 = 10;

fn is_line_end(first: u8, second: u8) -> bool
    ensures { result ≡ is_end first second }
{
    first == CR && second == LF
}

/// How long the first line is, with its CRLF; all the bytes where there is none.
pub(crate) fn line_len(bytes: &[u8]) -> usize
    ensures within { result ≤ length bytes.now }
    ensures some { 0 < length bytes.now → 0 < result }
    ensures line { 0 < length bytes.now → lines_of bytes.now ≡ take result bytes.now ∷ lines_of (drop result bytes.now) }
{
    let mut rest = bytes;
    let mut passed = 0;
    while let [first, second, ..] = rest {
        if is_line_end(*first, *second) {
            return passed + 2;
        }
        rest = after(rest, 1);
        passed += 1;
    }
    bytes.len()
}

/// Whether a line is CRLF alone.
pub(crate) fn is_empty_line(line: &[u8]) -> bool
    ensures { result ≡ empty_line line.now }
{
    line == b"\r\n".as_slice()
}

/// Whether an empty line comes first.
pub(crate) fn begins_empty(bytes: &[u8]) -> bool
    ensures { result ≡ empty_begins bytes.now }
{
    match bytes {
        [first, second, ..] => is_line_end(*first, *second),
        _ => false,
    }
}
