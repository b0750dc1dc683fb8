//! Strings cut after each LF.
//!
//! A string without bytes has no pieces: nothing is written of it.
ghost use Rattle.std.specs.Prelude.{◌≡◌, ◌≢◌, ◌<◌, ◌≤◌, ℕ, ◌∷◌, ◌==◌, length, drop, slice_index, IfNone, IfSome};
ghost use Rattle.std.specs.Io.BufRead.{strip_last};
ghost use Rattle.std.specs.List.{position_or_len};
ghost use Rattle.script_link.specs.Pieces.{pieces_of};
ghost use Rattle.script_link.specs.Line.{first_part, other_parts};

use undo_base::after;

const LF: u8 = 10;

/// Where the first LF stands.
fn find_lf(bytes: &[u8]) -> Option<usize>
    ensures none { IfNone result ((k : ℕ) → k < length bytes.now → slice_index bytes.now k ≢ 10) }
    ensures before { IfSome result (λ place. (k : ℕ) → k < place → slice_index bytes.now k ≢ 10) }
    ensures found { IfSome result (λ place. (place < length bytes.now) × (slice_index bytes.now place ≡ 10)) }
{
    for (place, byte) in bytes.iter().enumerate() {
        if *byte == LF {
            return Some(place);
        }
    }
    None
}

/// The first piece, and what follows it.
pub fn first_piece(bytes: &[u8]) -> (&[u8], &[u8])
    requires { 0 < length bytes.now }
    ensures pieces { pieces_of bytes.now ≡ result.0.now ∷ pieces_of result.1.now }
    ensures shorter { length result.1.now < length bytes.now }
{
    match find_lf(bytes) {
        Some(place) => (&bytes[..place + 1], after(bytes, place + 1)),
        None => (bytes, &[]),
    }
}

/// A piece without its LF.
pub fn without_lf(piece: &[u8]) -> &[u8]
    ensures { result.now ≡ strip_last 10 piece.now }
{
    match piece {
        [line @ .., LF] => line,
        _ => piece,
    }
}

/// Where a byte stands first, or the length where it doesn't stand.
fn place_of(bytes: &[u8], byte: u8) -> usize
    ensures within { result ≤ length bytes.now }
    ensures value { result ≡ position_or_len (λ b. b == byte) bytes.now }
{
    for (place, b) in bytes.iter().enumerate() {
        if *b == byte {
            return place;
        }
    }
    bytes.len()
}

/// What stands before the first space.
pub fn before_space(bytes: &[u8]) -> &[u8]
    ensures { result.now ≡ first_part bytes.now }
{
    &bytes[..place_of(bytes, b' ')]
}

/// What follows the first space, or nothing.
pub fn behind_space(bytes: &[u8]) -> &[u8]
    ensures { result.now ≡ other_parts bytes.now }
{
    let place = place_of(bytes, b' ');
    if place < bytes.len() {
        after(bytes, place + 1)
    } else {
        &[]
    }
}
