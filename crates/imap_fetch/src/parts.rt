//! The values of a message's attributes.
//!
//! Where a message has no text beside it, none of its bytes are told (`{0}`); a session hands over a text for each message
//! wherever a body section is asked for.
//!
//! A moment past the year 9999 is told as its last second, as one that is asked for is kept. So telling an entry has no condition.
ghost use Rattle.std.specs.Prelude.{◌≡◌, ◌++◌, IfOk, OnOk, map};
ghost use Rattle.imap_fetch.specs.Told as spec;

use crate::labels::label;
use crate::{Attribute, Message};
use imap_text::{FetchPart, FetchParts, FetchValue};
use mail_sections::section;
use std::alloc::Global;
use undo_base::{Flags, LAST_MOMENT, NoMemory, Section, SectionAsk, Text};

fn literal(alloc: Global, text: &[u8], asked: &SectionAsk) -> Result<FetchValue, NoMemory>
    ensures { IfOk result (λ value. value ≡ spec.literal_of asked.now text.now) }
{
    Ok(FetchValue::Literal(section(alloc, text, asked)?))
}

/// A section from its first place to its end.
fn all_of(what: Section) -> SectionAsk
    ensures { result ≡ spec.all_of what }
{
    SectionAsk { what, part: None }
}

fn value(
    alloc: Global,
    message: &Message,
    flags: Flags,
    text: &[u8],
    attribute: &Attribute,
) -> Result<FetchValue, NoMemory>
    ensures { IfOk result (λ value. value ≡ spec.value message.now flags text.now attribute.now) }
{
    match attribute {
        Attribute::Flags => Ok(FetchValue::Flags(flags)),
        Attribute::Uid => Ok(FetchValue::Number(message.entry.uid)),
        Attribute::InternalDate => Ok(FetchValue::Moment(message.entry.at.min(LAST_MOMENT))),
        Attribute::Size => Ok(FetchValue::Number(message.size as u64)),
        Attribute::Rfc822 => literal(alloc, text, &all_of(Section::Whole)),
        Attribute::Rfc822Header => literal(alloc, text, &all_of(Section::Header)),
        Attribute::Rfc822Text => literal(alloc, text, &all_of(Section::Text)),
        Attribute::Body { section, peek: _ } => literal(alloc, text, section),
    }
}

fn part(
    alloc: Global,
    message: &Message,
    flags: Flags,
    text: &[u8],
    attribute: &Attribute,
) -> Result<FetchPart, NoMemory>
    ensures { IfOk result (λ part. part ≡ spec.part_of message.now flags text.now attribute.now) }
{
    let label = label(alloc, attribute)?;
    let value = value(alloc, message, flags, text, attribute)?;
    Ok(FetchPart { label, value })
}

/// Adds these attributes of a message, with its flags by now and its text.
pub(crate) fn push_parts(
    alloc: Global,
    parts: &mut FetchParts,
    message: &Message,
    flags: Flags,
    text: &[u8],
    attributes: &[Attribute],
) -> Result<(), NoMemory>
    ensures { OnOk result (parts.new ≡ parts.old ++ map (spec.part_of message.now flags text.now) attributes.now) }
{
    for attribute in attributes {
        parts.push(part(alloc, message, flags, text, attribute)?)?;
    }
    Ok(())
}

/// Adds one attribute of a message, where it is wanted.
pub(crate) fn push_where(
    alloc: Global,
    parts: &mut FetchParts,
    message: &Message,
    flags: Flags,
    text: &[u8],
    wanted: bool,
    attribute: &Attribute,
) -> Result<(), NoMemory>
    ensures { OnOk result (parts.new ≡ parts.old ++ map (spec.part_of message.now flags text.now) (spec.only_where wanted attribute.now)) }
{
    if wanted {
        parts.push(part(alloc, message, flags, text, attribute)?)?;
    }
    Ok(())
}
