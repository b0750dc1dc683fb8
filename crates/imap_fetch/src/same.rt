//! Whether two attributes are the same: in their word, section, names as they are spelled, part and PEEK.
//!
//! Two attributes are the same where their words, their sections and PEEK are. So `(BODY[] BODY.PEEK[])` and `(RFC822 BODY[])`
//! tell the text twice, and each counts as a body section; a repeat counts once.
//!
//! Two sections are the same also in their field names as they are spelled and in their part. So `BODY[HEADER.FIELDS (To)]` and
//! `BODY[HEADER.FIELDS (TO)]` are two.
ghost use Rattle.std.specs.Prelude.{◌≡◌};
ghost use Rattle.imap_fetch.specs.declared.asked.Attribute.TheVariants.{Body};
ghost use Rattle.imap_fetch.specs.Asked as spec;

use crate::Attribute;
use undo_base::{Names, Section, SectionAsk};

fn same_names(names: &Names, others: &Names) -> bool
    ensures { result ≡ spec.same_names names.now others.now }
{
    names == others
}

fn section_kind(section: &Section) -> u8
    ensures { result ≡ spec.section_kind section.now }
{
    match section {
        Section::Whole => 0,
        Section::Header => 1,
        Section::Text => 2,
        Section::Fields { names: _ } => 3,
        Section::NotFields { names: _ } => 4,
    }
}

fn are_fields(names: &Names, section: &Section) -> bool
    ensures { result ≡ spec.are_fields names.now section.now }
{
    match section {
        Section::Whole => false,
        Section::Header => false,
        Section::Text => false,
        Section::Fields { names: others } => same_names(names, others),
        Section::NotFields { names: _ } => false,
    }
}

fn are_others(names: &Names, section: &Section) -> bool
    ensures { result ≡ spec.are_others names.now section.now }
{
    match section {
        Section::Whole => false,
        Section::Header => false,
        Section::Text => false,
        Section::Fields { names: _ } => false,
        Section::NotFields { names: others } => same_names(names, others),
    }
}

fn same_section(one: &Section, other: &Section) -> bool
    ensures { result ≡ spec.same_section one.now other.now }
{
    match one {
        Section::Whole => section_kind(other) == 0,
        Section::Header => section_kind(other) == 1,
        Section::Text => section_kind(other) == 2,
        Section::Fields { names } => are_fields(names, other),
        Section::NotFields { names } => are_others(names, other),
    }
}

fn same_part(one: Option<(u32, u32)>, other: Option<(u32, u32)>) -> bool
    ensures { result ≡ spec.same_part one other }
{
    match one {
        None => other.is_none(),
        Some((first, count)) => match other {
            None => false,
            Some((place, size)) => first == place && count == size,
        },
    }
}

fn same_peek(one: bool, other: bool) -> bool
    ensures { result ≡ spec.same_bool one other }
{
    one == other
}

fn same_ask(one: &SectionAsk, peek: bool, other: &SectionAsk, peeks: bool) -> bool
    ensures { result ≡ spec.is_body one.now peek (Body other.now peeks) }
{
    same_section(&one.what, &other.what)
        && same_part(one.part, other.part)
        && same_peek(peek, peeks)
}

fn is_body(section: &SectionAsk, peek: bool, attribute: &Attribute) -> bool
    ensures { result ≡ spec.is_body section.now peek attribute.now }
{
    match attribute {
        Attribute::Flags => false,
        Attribute::Uid => false,
        Attribute::InternalDate => false,
        Attribute::Size => false,
        Attribute::Rfc822 => false,
        Attribute::Rfc822Header => false,
        Attribute::Rfc822Text => false,
        Attribute::Body {
            section: other,
            peek: peeks,
        } => same_ask(section, peek, other, *peeks),
    }
}

fn kind(attribute: &Attribute) -> u8
    ensures { result ≡ spec.kind attribute.now }
{
    match attribute {
        Attribute::Flags => 0,
        Attribute::Uid => 1,
        Attribute::InternalDate => 2,
        Attribute::Size => 3,
        Attribute::Rfc822 => 4,
        Attribute::Rfc822Header => 5,
        Attribute::Rfc822Text => 6,
        Attribute::Body {
            section: _,
            peek: _,
        } => 7,
    }
}

pub(crate) fn is_flags(attribute: &Attribute) -> bool
    ensures { result ≡ spec.is_flags attribute.now }
{
    kind(attribute) == 0
}

pub(crate) fn is_uid(attribute: &Attribute) -> bool
    ensures { result ≡ spec.is_uid attribute.now }
{
    kind(attribute) == 1
}

pub(crate) fn is_size(attribute: &Attribute) -> bool
    ensures { result ≡ spec.is_size attribute.now }
{
    kind(attribute) == 3
}

/// Whether two are the same.
fn same(one: &Attribute, other: &Attribute) -> bool
    ensures { result ≡ spec.same one.now other.now }
{
    match one {
        Attribute::Body { section, peek } => is_body(section, *peek, other),
        Attribute::Flags => kind(other) == 0,
        Attribute::Uid => kind(other) == 1,
        Attribute::InternalDate => kind(other) == 2,
        Attribute::Size => kind(other) == 3,
        Attribute::Rfc822 => kind(other) == 4,
        Attribute::Rfc822Header => kind(other) == 5,
        Attribute::Rfc822Text => kind(other) == 6,
    }
}

/// Whether it is one of them.
pub(crate) fn is_asked(attribute: &Attribute, attributes: &[Attribute]) -> bool
    ensures { result ≡ spec.is_asked attribute.now attributes.now }
{
    attributes.iter().any(|other| same(attribute, other))
}
