//! The attributes of messages.
ghost use Rattle.std.specs.Prelude.{◌≡◌, ◌≤◌, ◌++◌, IfOk, OnOk, All, map};
ghost use Rattle.imap_text.specs.Words as words_spec;
ghost use Rattle.imap_text.specs.Answers as spec;

use crate::write::{push_flags, push_literal, push_number, push_space};
use crate::{FetchPart, FetchParts, FetchValue};
use civil_dates::push_imap_date;
use std::alloc::Global;
use undo_base::{LAST_MOMENT, NoMemory, Text};

fn push_date(alloc: Global, out: &mut Text, at: u64) -> Result<(), NoMemory>
    requires { at ≤ LAST_MOMENT }
    ensures { OnOk result (out.new ≡ out.old ++ words_spec.date_text at) }
{
    out.extend(b"\"")?;
    push_imap_date(alloc, out, at)?;
    out.extend(b"\"")
}

/// A moment as `" 7-Jan-2005 10:00:00 +0000"`, with its quotes (RFC 3501, 9).
pub fn date_text(alloc: Global, at: u64) -> Result<Text, NoMemory>
    requires { at ≤ LAST_MOMENT }
    ensures { IfOk result (λ text. text ≡ words_spec.date_text at) }
{
    let mut out = Text::new(alloc);
    push_date(alloc, &mut out, at)?;
    Ok(out)
}

fn push_value(alloc: Global, out: &mut Text, value: &FetchValue) -> Result<(), NoMemory>
    requires { spec.IsDated value.now }
    ensures { OnOk result (out.new ≡ out.old ++ spec.value_text value.now) }
{
    match value {
        FetchValue::Flags(flags) => push_flags(alloc, out, *flags),
        FetchValue::Number(number) => push_number(alloc, out, b"", *number, b""),
        FetchValue::Moment(at) => push_date(alloc, out, *at),
        FetchValue::Literal(text) => push_literal(alloc, out, text.bytes()),
    }
}

fn push_part(alloc: Global, out: &mut Text, part: &FetchPart) -> Result<(), NoMemory>
    requires { spec.HasDate part.now }
    ensures { OnOk result (out.new ≡ out.old ++ spec.part_text part.now) }
{
    out.extend(part.label.bytes())?;
    out.extend(b" ")?;
    push_value(alloc, out, &part.value)
}

fn push_parts(alloc: Global, out: &mut Text, parts: &[FetchPart]) -> Result<(), NoMemory>
    requires { All spec.HasDate parts.now }
    ensures { OnOk result (out.new ≡ out.old ++ words_spec.spaced (map spec.part_text parts.now)) }
{
    for (index, part) in parts.iter().enumerate() {
        push_space(out, index)?;
        push_part(alloc, out, part)?;
    }
    Ok(())
}

/// The attributes of the message with this number in the view (RFC 3501, 7.4.2).
pub fn render_fetch(alloc: Global, place: u32, parts: &FetchParts) -> Result<Text, NoMemory>
    requires { All spec.HasDate parts.now }
    ensures { IfOk result (λ text. text ≡ spec.fetch_line place parts.now) }
{
    let mut out = Text::new(alloc);
    push_number(alloc, &mut out, b"* ", place as u64, b" FETCH (")?;
    push_parts(alloc, &mut out, parts.as_slice())?;
    out.extend(b")\r\n")?;
    Ok(out)
}
