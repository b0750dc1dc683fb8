//! The attributes that a FETCH asks for.
ghost use Rattle.std.specs.Prelude.{◌≡◌, ◌||◌, [], IfOk, OnOk, fold};
ghost use Rattle.imap_lines.specs.declared.asks.FetchAsk.TheVariants.{Fast};
ghost use Rattle.imap_fetch.specs.declared.asked.Attribute.TheVariants.{Body};
ghost use Rattle.imap_fetch.specs.Asked as spec;

use crate::Attributes;
use crate::same::{is_asked, is_size};
use imap_lines::{FetchAsk, FetchAsks};
use std::alloc::Global;
use undo_base::{Copies, NoMemory, SectionAsk};

/// An attribute that is told of a message (RFC 3501, section 6.4.5).
#[derive(Debug, Drop)]
pub enum Attribute {
    Flags,
    Uid,
    InternalDate,
    Size,
    /// The whole text, under the name RFC822.
    Rfc822,
    Rfc822Header,
    Rfc822Text,
    /// A section of the text; a peek does not set `\Seen`.
    Body { section: SectionAsk, peek: bool },
}

fn put_once(told: &mut Attributes, attribute: Attribute) -> Result<(), NoMemory>
    ensures { OnOk result (told.new ≡ spec.put_once told.old attribute) }
{
    if is_asked(&attribute, told.as_slice()) {
        return Ok(());
    }
    told.push(attribute)
}

fn put_fast(told: &mut Attributes) -> Result<(), NoMemory>
    ensures { OnOk result (told.new ≡ spec.put_ask told.old Fast) }
{
    put_once(told, Attribute::Flags)?;
    put_once(told, Attribute::InternalDate)?;
    put_once(told, Attribute::Size)
}

fn put_body(
    alloc: Global,
    told: &mut Attributes,
    section: &SectionAsk,
    peek: bool,
) -> Result<(), NoMemory>
    ensures { OnOk result (told.new ≡ spec.put_once told.old (Body section.now peek)) }
{
    let section = section.copy(alloc)?;
    put_once(told, Attribute::Body { section, peek })
}

fn put_ask(alloc: Global, told: &mut Attributes, ask: &FetchAsk) -> Result<(), NoMemory>
    ensures { OnOk result (told.new ≡ spec.put_ask told.old ask.now) }
{
    match ask {
        FetchAsk::Flags => put_once(told, Attribute::Flags),
        FetchAsk::Uid => put_once(told, Attribute::Uid),
        FetchAsk::InternalDate => put_once(told, Attribute::InternalDate),
        FetchAsk::Size => put_once(told, Attribute::Size),
        FetchAsk::Rfc822 => put_once(told, Attribute::Rfc822),
        FetchAsk::Rfc822Header => put_once(told, Attribute::Rfc822Header),
        FetchAsk::Rfc822Text => put_once(told, Attribute::Rfc822Text),
        FetchAsk::Fast => put_fast(told),
        FetchAsk::Body { section, peek } => put_body(alloc, told, section, *peek),
    }
}

/// The attributes that are asked for, each once.
#[tactic(auto, unfolding(crate::specs::Asked::attributes_of))]
pub fn attributes_of(alloc: Global, asks: &FetchAsks) -> Result<Attributes, NoMemory>
    ensures { IfOk result (λ attributes. attributes ≡ spec.attributes_of asks.now) }
{
    let mut told = Attributes::new(alloc);
    for ask in asks.as_slice() {
        put_ask(alloc, &mut told, ask)?;
    }
    Ok(told)
}

fn is_text(attribute: &Attribute) -> bool
    ensures { result ≡ spec.is_text attribute.now }
{
    match attribute {
        Attribute::Flags => false,
        Attribute::Uid => false,
        Attribute::InternalDate => false,
        Attribute::Size => false,
        Attribute::Rfc822 => true,
        Attribute::Rfc822Header => true,
        Attribute::Rfc822Text => true,
        Attribute::Body {
            section: _,
            peek: _,
        } => true,
    }
}

fn is_reading(attribute: &Attribute) -> bool
    ensures { result ≡ spec.is_reading attribute.now }
{
    match attribute {
        Attribute::Flags => false,
        Attribute::Uid => false,
        Attribute::InternalDate => false,
        Attribute::Size => false,
        Attribute::Rfc822 => true,
        Attribute::Rfc822Header => false,
        Attribute::Rfc822Text => true,
        Attribute::Body { section: _, peek } => !*peek,
    }
}

fn is_shown(attribute: &Attribute) -> bool
    ensures { result ≡ spec.is_text attribute.now || spec.is_size attribute.now }
{
    is_text(attribute) || is_size(attribute)
}

/// How many of them are texts.
pub fn body_sections(attributes: &Attributes) -> usize
    ensures { result ≡ spec.body_sections attributes.now }
{
    attributes
        .iter()
        .filter(|attribute| is_text(*attribute))
        .count()
}

/// Whether they set `\Seen`, where the mailbox was not opened by EXAMINE.
pub fn sets_seen(attributes: &Attributes) -> bool
    ensures { result ≡ spec.sets_seen attributes.now }
{
    attributes.iter().any(|attribute| is_reading(attribute))
}

/// Whether they show something of the text.
pub fn shows_body(attributes: &Attributes) -> bool
    ensures { result ≡ spec.shows_body attributes.now }
{
    attributes.iter().any(|attribute| is_shown(attribute))
}
