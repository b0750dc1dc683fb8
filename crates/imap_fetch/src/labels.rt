//! The names of attributes as they are written.
ghost use Rattle.std.specs.Prelude.{◌≡◌, ◌++◌, IfOk, OnOk, codes};
ghost use Rattle.std.specs.Fmt.{decimal};
ghost use Rattle.imap_text.specs.Words.{spaced, space_before};
ghost use Rattle.undo_base.specs.declared.asks.Section.TheVariants.{Fields, NotFields};
ghost use Rattle.imap_fetch.specs.Told as spec;

use crate::Attribute;
use std::alloc::Global;
use undo_base::{Name, Names, NoMemory, Section, SectionAsk, Text};

fn push_name(out: &mut Text, index: usize, name: &Name) -> Result<(), NoMemory>
    ensures { OnOk result (out.new ≡ out.old ++ space_before index ++ name.now) }
{
    if index > 0 {
        out.extend(b" ")?;
    }
    out.extend(name.bytes())
}

fn push_names(out: &mut Text, names: &[Name]) -> Result<(), NoMemory>
    ensures { OnOk result (out.new ≡ out.old ++ spaced names.now) }
{
    for (index, name) in names.iter().enumerate() {
        push_name(out, index, name)?;
    }
    Ok(())
}

#[tactic(auto, unfolding(crate::specs::Told::field_list))]
fn push_listed(out: &mut Text, word: &[u8], names: &[Name]) -> Result<(), NoMemory>
    ensures { OnOk result (out.new ≡ out.old ++ spec.field_list word.now names.now) }
{
    out.extend(word)?;
    out.extend(b" (")?;
    push_names(out, names)?;
    out.extend(b")")
}

fn push_fields(out: &mut Text, names: &Names) -> Result<(), NoMemory>
    ensures { OnOk result (out.new ≡ out.old ++ spec.section_word (Fields names.now)) }
{
    push_listed(out, b"HEADER.FIELDS", names.as_slice())
}

fn push_others(out: &mut Text, names: &Names) -> Result<(), NoMemory>
    ensures { OnOk result (out.new ≡ out.old ++ spec.section_word (NotFields names.now)) }
{
    push_listed(out, b"HEADER.FIELDS.NOT", names.as_slice())
}

fn push_section(out: &mut Text, section: &Section) -> Result<(), NoMemory>
    ensures { OnOk result (out.new ≡ out.old ++ spec.section_word section.now) }
{
    match section {
        Section::Whole => Ok(()),
        Section::Header => out.extend(b"HEADER"),
        Section::Text => out.extend(b"TEXT"),
        Section::Fields { names } => push_fields(out, names),
        Section::NotFields { names } => push_others(out, names),
    }
}

fn push_origin(alloc: Global, out: &mut Text, part: Option<(u32, u32)>) -> Result<(), NoMemory>
    ensures { OnOk result (out.new ≡ out.old ++ spec.origin part) }
{
    match part {
        None => Ok(()),
        Some((first, _)) => {
            let digits = format!(in alloc; "<{}>", first)?;
            out.extend(digits.as_bytes())
        }
    }
}

fn body_label(alloc: Global, section: &SectionAsk) -> Result<Text, NoMemory>
    ensures { IfOk result (λ label. label ≡ spec.body_label section.now) }
{
    let mut out = Text::new(alloc);
    out.extend(b"BODY[")?;
    push_section(&mut out, &section.what)?;
    out.extend(b"]")?;
    push_origin(alloc, &mut out, section.part)?;
    Ok(out)
}

/// The name of an attribute: BODY.PEEK is written BODY, and a part with its first place (RFC 3501, section 7.4.2).
pub(crate) fn label(alloc: Global, attribute: &Attribute) -> Result<Text, NoMemory>
    ensures { IfOk result (λ label. label ≡ spec.label attribute.now) }
{
    match attribute {
        Attribute::Flags => Text::of(alloc, b"FLAGS"),
        Attribute::Uid => Text::of(alloc, b"UID"),
        Attribute::InternalDate => Text::of(alloc, b"INTERNALDATE"),
        Attribute::Size => Text::of(alloc, b"RFC822.SIZE"),
        Attribute::Rfc822 => Text::of(alloc, b"RFC822"),
        Attribute::Rfc822Header => Text::of(alloc, b"RFC822.HEADER"),
        Attribute::Rfc822Text => Text::of(alloc, b"RFC822.TEXT"),
        Attribute::Body { section, peek: _ } => body_label(alloc, section),
    }
}
