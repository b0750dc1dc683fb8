//! The words of all answers.
ghost use Rattle.std.specs.Prelude.{◌≡◌, ◌≤◌, ◌++◌, ◌∷◌, [], IfOk, OnOk, flat_map, drop, if◌then◌else◌};
ghost use Rattle.std.specs.Fmt.{decimal};
ghost use Rattle.imap_text.specs.Words as spec;

use std::alloc::Global;
use undo_base::{Flags, NoMemory, Text};

/// Adds a number between two texts.
pub(crate) fn push_number(
    alloc: Global,
    out: &mut Text,
    before: &[u8],
    number: u64,
    after: &[u8],
) -> Result<(), NoMemory>
    ensures { OnOk result (out.new ≡ out.old ++ before.now ++ decimal number ++ after.now) }
{
    let digits = format!(in alloc; "{}", number)?;
    out.extend(before)?;
    out.extend(digits.as_bytes())?;
    out.extend(after)
}

/// Adds a line with a number between two texts.
pub(crate) fn push_number_line(
    alloc: Global,
    out: &mut Text,
    before: &[u8],
    number: u64,
    after: &[u8],
) -> Result<(), NoMemory>
    ensures { OnOk result (out.new ≡ out.old ++ spec.line (before.now ++ decimal number ++ after.now)) }
{
    out.extend(b"* ")?;
    push_number(alloc, out, before, number, after)?;
    out.extend(b"\r\n")
}

fn is_escaped(byte: u8) -> bool
    ensures { result ≡ spec.is_escaped byte }
{
    byte == b'"' || byte == b'\\'
}

fn push_escaped(out: &mut Text, byte: u8) -> Result<(), NoMemory>
    ensures { OnOk result (out.new ≡ out.old ++ spec.escaped byte) }
{
    if is_escaped(byte) {
        out.extend(b"\\")?;
    }
    out.extend(&[byte])
}

fn push_all_escaped(out: &mut Text, bytes: &[u8]) -> Result<(), NoMemory>
    ensures { OnOk result (out.new ≡ out.old ++ flat_map spec.escaped bytes.now) }
{
    for byte in bytes {
        push_escaped(out, *byte)?;
    }
    Ok(())
}

/// Adds a quoted string.
pub(crate) fn push_quoted(out: &mut Text, bytes: &[u8]) -> Result<(), NoMemory>
    ensures { OnOk result (out.new ≡ out.old ++ spec.quoted bytes.now) }
{
    out.extend(b"\"")?;
    push_all_escaped(out, bytes)?;
    out.extend(b"\"")
}

/// Adds a literal.
pub(crate) fn push_literal(alloc: Global, out: &mut Text, bytes: &[u8]) -> Result<(), NoMemory>
    ensures { OnOk result (out.new ≡ out.old ++ spec.literal bytes.now) }
{
    push_number(alloc, out, b"{", bytes.len() as u64, b"}\r\n")?;
    out.extend(bytes)
}

/// Adds a space, where something with a lower index stands before it.
pub(crate) fn push_space(out: &mut Text, index: usize) -> Result<(), NoMemory>
    ensures { OnOk result (out.new ≡ out.old ++ spec.space_before index) }
{
    if index == 0 {
        return Ok(());
    }
    out.extend(b" ")
}

fn push_flag(words: &mut Text, set: bool, word: &[u8]) -> Result<(), NoMemory>
    ensures { OnOk result (words.new ≡ words.old ++ flat_map spec.spaced_before (spec.only_where set word.now)) }
{
    if set {
        words.extend(b" ")?;
        words.extend(word)?;
    }
    Ok(())
}

/// The flags' words, each with a space before it.
fn flag_words(alloc: Global, flags: Flags) -> Result<Text, NoMemory>
    ensures { IfOk result (λ words. words ≡ flat_map spec.spaced_before (spec.flag_words flags)) }
{
    let mut words = Text::new(alloc);
    push_flag(&mut words, flags.answered, b"\\Answered")?;
    push_flag(&mut words, flags.flagged, b"\\Flagged")?;
    push_flag(&mut words, flags.deleted, b"\\Deleted")?;
    push_flag(&mut words, flags.seen, b"\\Seen")?;
    push_flag(&mut words, flags.draft, b"\\Draft")?;
    Ok(words)
}

fn without_first(bytes: &[u8]) -> &[u8]
    ensures { result.now ≡ drop 1 bytes.now }
{
    match bytes.split_first() {
        Some((_, rest)) => rest,
        None => bytes,
    }
}

/// Adds the flags that are set, in parentheses.
pub(crate) fn push_flags(alloc: Global, out: &mut Text, flags: Flags) -> Result<(), NoMemory>
    ensures { OnOk result (out.new ≡ out.old ++ spec.flag_list flags) }
{
    let words = flag_words(alloc, flags)?;
    out.extend(b"(")?;
    out.extend(without_first(words.bytes()))?;
    out.extend(b")")
}

/// Adds a line with flags between two texts.
pub(crate) fn push_flags_line(
    alloc: Global,
    out: &mut Text,
    before: &[u8],
    flags: Flags,
    after: &[u8],
) -> Result<(), NoMemory>
    ensures { OnOk result (out.new ≡ out.old ++ spec.line (before.now ++ spec.flag_list flags ++ after.now)) }
{
    out.extend(b"* ")?;
    out.extend(before)?;
    push_flags(alloc, out, flags)?;
    out.extend(after)?;
    out.extend(b"\r\n")
}
