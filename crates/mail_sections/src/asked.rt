//! What a FETCH asks of a text.
ghost use Rattle.std.specs.Prelude.{◌≡◌, ◌++◌, length, IfOk, OnOk};
ghost use Rattle.mail_sections.specs.Sections.{asked_behind, part_of, fields_where, section_of, is_wanted as wanted};

use crate::listed::{ListedNames, is_wanted};
use header_fields::{begins_field, behind_header, field_len, header_len};
use std::alloc::Global;
use undo_base::{Names, NoMemory, Section, SectionAsk, Text, after, before};

/// So many bytes from a place on, or what is there.
fn part(bytes: &[u8], asked: Option<(u32, u32)>) -> &[u8]
    ensures { result.now ≡ part_of asked bytes.now }
{
    match asked {
        None => bytes,
        Some((first, count)) => {
            let rest = after(bytes, (first as usize).min(bytes.len()));
            before(rest, (count as usize).min(rest.len()))
        }
    }
}

/// What is asked of the bytes behind so many, of which so many were told.
fn behind(asked: Option<(u32, u32)>, passed: usize, told: usize) -> Option<(u32, u32)>
    ensures { result ≡ asked_behind asked passed told }
{
    match asked {
        None => None,
        Some((first, count)) => Some((
            (first as usize).saturating_sub(passed) as u32,
            (count as usize).saturating_sub(told) as u32,
        )),
    }
}

/// Tells of a piece what is asked, and answers what is asked of the bytes behind it.
fn tell(
    told: &mut Text,
    asked: Option<(u32, u32)>,
    piece: &[u8],
) -> Result<Option<(u32, u32)>, NoMemory>
    ensures told { OnOk result (told.new ≡ told.old ++ part_of asked piece.now) }
    ensures left { IfOk result (λ left. left ≡ asked_behind asked (length piece.now) (length (part_of asked piece.now))) }
{
    let wanted = part(piece, asked);
    told.extend(wanted)?;
    Ok(behind(asked, piece.len(), wanted.len()))
}

/// The fields that are wanted, and the empty line; of these the part that is asked. No more than that is copied.
fn fields(
    alloc: Global,
    text: &[u8],
    among: bool,
    names: &Names,
    asked: Option<(u32, u32)>,
) -> Result<Text, NoMemory>
    ensures { IfOk result (λ told. told ≡ part_of asked (fields_where (wanted among names.now) text.now)) }
{
    let listed = ListedNames::of(alloc, names)?;
    let mut told = Text::new(alloc);
    let mut left = asked;
    let mut rest = text;
    while begins_field(rest) {
        let count = field_len(rest);
        let field = before(rest, count);
        if is_wanted(among, &listed, field) {
            left = tell(&mut told, left, field)?;
        }
        rest = after(rest, count);
    }
    tell(&mut told, left, before(rest, rest.len().min(2)))?;
    Ok(told)
}

/// What is asked of a text (RFC 3501, section 6.4.5): all of it, its header through the first empty line, or what follows that. Or
/// the fields of the header with or without the listed names and the empty line. Of this it is the part that is asked. The text has
/// at most `MOST_TEXT` bytes. The one error is want of memory.
pub fn section(alloc: Global, text: &[u8], ask: &SectionAsk) -> Result<Text, NoMemory>
    ensures { IfOk result (λ told. told ≡ section_of ask.now text.now) }
{
    match &ask.what {
        Section::Whole => Text::of(alloc, part(text, ask.part)),
        Section::Header => Text::of(alloc, part(before(text, header_len(text)), ask.part)),
        Section::Text => Text::of(alloc, part(behind_header(text), ask.part)),
        Section::Fields { names } => fields(alloc, text, true, names, ask.part),
        Section::NotFields { names } => fields(alloc, text, false, names, ask.part),
    }
}
