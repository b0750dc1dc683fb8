//! How bytes are written in scripts and transcripts: a byte from 0x20 to 0x7d stands for itself, and `~` begins the others.
//!
//! What may be read is wider than what is written: `~x41` is read as `A`, and only bytes that have no other way are written by
//! their digits.
ghost use Rattle.std.specs.Prelude.{◌≡◌, ℕ, ◌<◌, ◌++◌, ◌∷◌, ◌&&◌, List, IfOk, IfSome, IfNone, IsTrue, OnOk, Option, None, option_map, length, drop, slice_index, ◌≤◌};
ghost use Rattle.std.specs.Option.{option_map_or};
ghost use Rattle.std.specs.List.{flat_map};
ghost use Rattle.script_link.specs.Texts as spec;
ghost use Rattle.script_link.specs.Texts.{named, numbered, spelled, unspelled};

use std::alloc::Global;
use undo_base::{NoMemory, Text, after};

fn is_plain(byte: u8) -> bool
    ensures { result ≡ spec.is_plain byte }
{
    32 <= byte && byte <= 125
}

fn is_hex(digit: u8) -> bool
    ensures { result ≡ spec.is_hex digit }
{
    (48 <= digit && digit <= 57) || (97 <= digit && digit <= 102)
}

fn hex_value(digit: u8) -> u8
    requires { IsTrue (spec.is_hex digit) }
    ensures value { result ≡ spec.hex_value digit }
    ensures small { result < 16 }
{
    if digit <= 57 { digit - 48 } else { digit - 87 }
}

/// What two digits stand for.
fn numbered_byte(high: u8, low: u8) -> Option<u8>
    ensures { (more : Option (List ℕ)) → numbered high low more ≡ option_map_or (λ byte. option_map (λ bytes. byte ∷ bytes) more) result None }
{
    if is_hex(high) && is_hex(low) {
        Some(16 * hex_value(high) + hex_value(low))
    } else {
        None
    }
}

/// What `~` and one more byte stand for.
fn named_byte(name: u8) -> Option<u8>
    ensures { (more : Option (List ℕ)) → named name more ≡ option_map_or (λ byte. option_map (λ bytes. byte ∷ bytes) more) result None }
{
    if name == b'~' {
        Some(b'~')
    } else if name == b'r' {
        Some(b'\r')
    } else if name == b'n' {
        Some(b'\n')
    } else {
        None
    }
}

/// The byte that two digits behind `~x` stand for, and how many bytes it takes there.
#[tactic(auto, using(crate::proofs::Spelling::numbered_one, crate::proofs::Spelling::numbered_short))]
fn behind_x(text: &[u8]) -> Option<(u8, usize)>
    ensures some { IfSome result (λ first. unspelled (126 ∷ 120 ∷ text.now) ≡ option_map (λ bytes. first.0 ∷ bytes) (unspelled (drop first.1 text.now))) }
    ensures within { IfSome result (λ first. first.1 ≤ length text.now) }
    ensures none { IfNone result (unspelled (126 ∷ 120 ∷ text.now) ≡ None) }
{
    if text.len() < 2 {
        return None;
    }
    match numbered_byte(text[0], text[1]) {
        Some(byte) => Some((byte, 2)),
        None => None,
    }
}

/// The byte that stands behind `~`, and how many bytes it takes there.
#[tactic(auto, using(crate::proofs::Spelling::tilde_x, crate::proofs::Spelling::tilde_named))]
fn behind_tilde(text: &[u8]) -> Option<(u8, usize)>
    requires { 0 < length text.now }
    ensures some { IfSome result (λ first. unspelled (126 ∷ text.now) ≡ option_map (λ bytes. first.0 ∷ bytes) (unspelled (drop first.1 text.now))) }
    ensures within { IfSome result (λ first. first.1 ≤ length text.now) }
    ensures none { IfNone result (unspelled (126 ∷ text.now) ≡ None) }
{
    if text[0] == b'x' {
        return match behind_x(after(text, 1)) {
            Some((byte, count)) => Some((byte, 1 + count)),
            None => None,
        };
    }
    match named_byte(text[0]) {
        Some(byte) => Some((byte, 1)),
        None => None,
    }
}

/// The byte that a text that begins with `~` stands for, and how many bytes it takes.
#[tactic(auto, using(crate::proofs::Spelling::first_tilde))]
fn marked_byte(text: &[u8]) -> Option<(u8, usize)>
    requires tilde { slice_index text.now 0 ≡ 126 }
    requires some { 0 < length text.now }
    ensures some { IfSome result (λ first. unspelled text.now ≡ option_map (λ bytes. first.0 ∷ bytes) (unspelled (drop first.1 text.now))) }
    ensures count { IfSome result (λ first. (0 < first.1) × (first.1 ≤ length text.now)) }
    ensures none { IfNone result (unspelled text.now ≡ None) }
{
    if text.len() == 1 {
        return None;
    }
    match behind_tilde(after(text, 1)) {
        Some((byte, count)) => Some((byte, 1 + count)),
        None => None,
    }
}

/// The first byte that a text stands for, and how many bytes it takes.
#[tactic(auto, using(crate::proofs::Spelling::first_plain))]
fn first_byte(text: &[u8]) -> Option<(u8, usize)>
    requires { 0 < length text.now }
    ensures some { IfSome result (λ first. unspelled text.now ≡ option_map (λ bytes. first.0 ∷ bytes) (unspelled (drop first.1 text.now))) }
    ensures count { IfSome result (λ first. (0 < first.1) × (first.1 ≤ length text.now)) }
    ensures none { IfNone result (unspelled text.now ≡ None) }
{
    if text[0] == b'~' {
        return marked_byte(text);
    }
    if is_plain(text[0]) {
        return Some((text[0], 1));
    }
    None
}

/// The bytes that a text stands for, or none where it has a bad byte.
#[tactic(auto, using(crate::proofs::Spelling::read_more, crate::proofs::Spelling::read_bad, crate::proofs::Spelling::read_all))]
pub fn unspell(alloc: Global, text: &[u8]) -> Result<Option<Text>, NoMemory>
    ensures { IfOk result (λ bytes. bytes ≡ unspelled text.now) }
{
    let mut bytes = Text::new(alloc);
    let mut rest = text;
    while !rest.is_empty() {
        let Some((byte, count)) = first_byte(rest) else {
            return Ok(None);
        };
        bytes.extend(&[byte])?;
        rest = after(rest, count);
    }
    Ok(Some(bytes))
}

fn hex_digit(number: u8) -> u8
    requires { number < 16 }
    ensures { result ≡ spec.hex_digit number }
{
    if number < 10 {
        48 + number
    } else {
        87 + number
    }
}

fn write_byte(out: &mut Text, byte: u8) -> Result<(), NoMemory>
    ensures { OnOk result (out.new ≡ out.old ++ spelled byte) }
{
    if is_plain(byte) {
        out.extend(&[byte])
    } else if byte == b'~' {
        out.extend(b"~~")
    } else if byte == b'\r' {
        out.extend(b"~r")
    } else if byte == b'\n' {
        out.extend(b"~n")
    } else {
        out.extend(&[b'~', b'x', hex_digit(byte / 16), hex_digit(byte % 16)])
    }
}

pub fn write_bytes(out: &mut Text, bytes: &[u8]) -> Result<(), NoMemory>
    ensures { OnOk result (out.new ≡ out.old ++ flat_map spelled bytes.now) }
{
    for byte in bytes {
        write_byte(out, *byte)?;
    }
    Ok(())
}
