//! The attributes of a FETCH, as they are written.
ghost use Rattle.std.specs.Prelude.{◌≡◌, [], ◌∷◌, IfOk, OnOk, if◌then◌else◌};
ghost use Rattle.imap_tokens.specs.Tokens.{is_space};
ghost use Rattle.imap_lines.specs.Fetch as spec;

use crate::asks::{FetchAsk, FetchAsks, field_name, read_part, read_tail};
use imap_tokens::{
    Token, behind_word, find_byte, is_close_token, is_open_token, is_same_word, is_space_token,
    string_in, word_in,
};
use std::alloc::Global;
use std::mem;
use undo_base::{Names, NoMemory, Section, SectionAsk};

/// What is wanted next in attributes.
#[derive(Clone, Copy)]
pub enum Wanted {
    Attribute,
    /// An attribute has ended.
    Behind,
    /// The space before a list of field names.
    Gap,
    /// The parenthesis that opens a list of field names.
    Opening,
    FieldName,
    /// A field name has ended.
    BehindName,
    /// What stands behind a list of field names.
    Tail,
}

/// Which fields of a header are asked for.
#[derive(Clone, Copy)]
pub struct Kind {
    pub others: bool,
    pub peek: bool,
}

/// Attributes so far.
#[derive(Drop)]
pub struct Attributes {
    pub asks: FetchAsks,
    pub wanted: Wanted,
    pub kind: Kind,
    pub names: Names,
}

/// What an attribute begins with.
#[derive(Drop)]
pub enum Begins {
    Whole(FetchAsk),
    Fields(Kind),
}

fn read_plain(word: &[u8]) -> Option<FetchAsk>
    ensures { result ≡ spec.plain_in word.now }
{
    if is_same_word(word, b"FLAGS") {
        return Some(FetchAsk::Flags);
    }
    if is_same_word(word, b"UID") {
        return Some(FetchAsk::Uid);
    }
    if is_same_word(word, b"INTERNALDATE") {
        return Some(FetchAsk::InternalDate);
    }
    if is_same_word(word, b"RFC822.SIZE") {
        return Some(FetchAsk::Size);
    }
    if is_same_word(word, b"RFC822") {
        return Some(FetchAsk::Rfc822);
    }
    if is_same_word(word, b"RFC822.HEADER") {
        return Some(FetchAsk::Rfc822Header);
    }
    if is_same_word(word, b"RFC822.TEXT") {
        return Some(FetchAsk::Rfc822Text);
    }
    None
}

fn read_section(word: &[u8]) -> Option<Section>
    ensures { result ≡ spec.section_in word.now }
{
    if word.is_empty() {
        return Some(Section::Whole);
    }
    if is_same_word(word, b"HEADER") {
        return Some(Section::Header);
    }
    if is_same_word(word, b"TEXT") {
        return Some(Section::Text);
    }
    None
}

fn body(section: Section, part: Option<(u32, u32)>, peek: bool) -> FetchAsk
    ensures { result ≡ spec.body_of section peek part }
{
    FetchAsk::Body {
        section: SectionAsk {
            what: section,
            part,
        },
        peek,
    }
}

/// A section without field names, and what stands behind it.
fn read_whole(section: &[u8], rest: &[u8], peek: bool) -> Option<Begins>
    ensures { result ≡ spec.whole_in section.now rest.now peek }
{
    let section = read_section(section)?;
    let part = read_part(rest)?;
    Some(Begins::Whole(body(section, part, peek)))
}

/// What stands behind `BODY[`.
fn read_body(rest: &[u8], peek: bool) -> Option<Begins>
    ensures { result ≡ spec.body_in peek rest.now }
{
    if is_same_word(rest, b"HEADER.FIELDS") {
        return Some(Begins::Fields(Kind {
            others: false,
            peek,
        }));
    }
    if is_same_word(rest, b"HEADER.FIELDS.NOT") {
        return Some(Begins::Fields(Kind { others: true, peek }));
    }
    let place = find_byte(rest, b']')?;
    read_whole(&rest[..place], &rest[place + 1..], peek)
}

/// What an attribute begins with.
fn read_begins(word: &[u8]) -> Option<Begins>
    ensures { result ≡ spec.begins_in word.now }
{
    if let Some(ask) = read_plain(word) {
        return Some(Begins::Whole(ask));
    }
    if let Some(rest) = behind_word(word, b"BODY[") {
        return read_body(rest, false);
    }
    let rest = behind_word(word, b"BODY.PEEK[")?;
    read_body(rest, true)
}

/// Nothing is asked for yet.
fn nothing_asked(alloc: Global) -> Attributes
    ensures { result ≡ spec.nothing_asked }
{
    Attributes {
        asks: FetchAsks::new(alloc),
        wanted: Wanted::Attribute,
        kind: Kind {
            others: false,
            peek: false,
        },
        names: Names::new(alloc),
    }
}

/// Adds an attribute.
fn push_ask(alloc: Global, attributes: &mut Attributes, ask: FetchAsk) -> Result<(), NoMemory>
    ensures { OnOk result (attributes.new ≡ spec.with_ask attributes.old ask) }
{
    attributes.asks.push(ask)?;
    attributes.wanted = Wanted::Behind;
    attributes.names = Names::new(alloc);
    Ok(())
}

fn begin(alloc: Global, attributes: &mut Attributes, begins: Begins) -> Result<(), NoMemory>
    ensures { OnOk result (attributes.new ≡ spec.begun attributes.old begins) }
{
    match begins {
        Begins::Whole(ask) => push_ask(alloc, attributes, ask),
        Begins::Fields(kind) => {
            attributes.kind = kind;
            attributes.wanted = Wanted::Gap;
            attributes.names = Names::new(alloc);
            Ok(())
        }
    }
}

/// A token where an attribute is wanted.
fn attribute(alloc: Global, attributes: &mut Attributes, token: &Token) -> Result<bool, NoMemory>
    ensures { IfOk result (λ good. spec.with_token Wanted.Attribute attributes.old token.now ≡ (if good then Some attributes.new else None)) }
{
    let Some(word) = word_in(token) else {
        return Ok(false);
    };
    let Some(begins) = read_begins(word) else {
        return Ok(false);
    };
    begin(alloc, attributes, begins)?;
    Ok(true)
}

/// A token where a space is wanted.
fn gap(attributes: &mut Attributes, token: &Token, next: Wanted) -> bool
    ensures { (if is_space token.now then Some (spec.wanting attributes.old next) else None) ≡ (if result then Some attributes.new else None) }
{
    if is_space_token(token) {
        attributes.wanted = next;
        true
    } else {
        false
    }
}

/// A token where a list of field names is to open.
fn opening(attributes: &mut Attributes, token: &Token) -> bool
    ensures { spec.with_token Wanted.Opening attributes.old token.now ≡ (if result then Some attributes.new else None) }
{
    if is_open_token(token) {
        attributes.wanted = Wanted::FieldName;
        true
    } else {
        false
    }
}

/// A token where a field name is wanted.
fn name(alloc: Global, attributes: &mut Attributes, token: &Token) -> Result<bool, NoMemory>
    ensures { IfOk result (λ good. spec.with_token Wanted.FieldName attributes.old token.now ≡ (if good then Some attributes.new else None)) }
{
    let Some(text) = string_in(token) else {
        return Ok(false);
    };
    let Some(name) = field_name(alloc, text)? else {
        return Ok(false);
    };
    attributes.names.push(name)?;
    attributes.wanted = Wanted::BehindName;
    Ok(true)
}

/// A token behind a field name.
fn behind_name(attributes: &mut Attributes, token: &Token) -> bool
    ensures { spec.with_token Wanted.BehindName attributes.old token.now ≡ (if result then Some attributes.new else None) }
{
    if is_space_token(token) {
        attributes.wanted = Wanted::FieldName;
        true
    } else if is_close_token(token) {
        attributes.wanted = Wanted::Tail;
        true
    } else {
        false
    }
}

fn section_of(others: bool, names: Names) -> Section
    ensures { result ≡ spec.section_of others names }
{
    if others {
        Section::NotFields { names }
    } else {
        Section::Fields { names }
    }
}

/// A token behind a list of field names.
fn tail(alloc: Global, attributes: &mut Attributes, token: &Token) -> Result<bool, NoMemory>
    ensures { IfOk result (λ good. spec.with_token Wanted.Tail attributes.old token.now ≡ (if good then Some attributes.new else None)) }
{
    let Some(word) = word_in(token) else {
        return Ok(false);
    };
    let Some(part) = read_tail(word) else {
        return Ok(false);
    };
    let names = mem::replace(&mut attributes.names, Names::new(alloc));
    let section = section_of(attributes.kind.others, names);
    let ask = body(section, part, attributes.kind.peek);
    push_ask(alloc, attributes, ask)?;
    Ok(true)
}

/// One token more.
fn add(alloc: Global, attributes: &mut Attributes, token: &Token) -> Result<bool, NoMemory>
    ensures { IfOk result (λ good. spec.with_token attributes.old.wanted attributes.old token.now ≡ (if good then Some attributes.new else None)) }
{
    match attributes.wanted {
        Wanted::Attribute => attribute(alloc, attributes, token),
        Wanted::Behind => Ok(gap(attributes, token, Wanted::Attribute)),
        Wanted::Gap => Ok(gap(attributes, token, Wanted::Opening)),
        Wanted::Opening => Ok(opening(attributes, token)),
        Wanted::FieldName => name(alloc, attributes, token),
        Wanted::BehindName => Ok(behind_name(attributes, token)),
        Wanted::Tail => tail(alloc, attributes, token),
    }
}

fn is_behind(wanted: Wanted) -> bool
    ensures { result ≡ spec.is_behind wanted }
{
    match wanted {
        Wanted::Attribute => false,
        Wanted::Behind => true,
        Wanted::Gap => false,
        Wanted::Opening => false,
        Wanted::FieldName => false,
        Wanted::BehindName => false,
        Wanted::Tail => false,
    }
}

/// Attributes with a space between each two.
fn read_asks(alloc: Global, tokens: &[Token]) -> Result<Option<FetchAsks>, NoMemory>
    ensures { IfOk result (λ asks. asks ≡ spec.asks_in tokens.now) }
{
    let mut attributes = nothing_asked(alloc);
    for token in tokens {
        if !add(alloc, &mut attributes, token)? {
            return Ok(None);
        }
    }
    if is_behind(attributes.wanted) {
        Ok(Some(attributes.asks))
    } else {
        Ok(None)
    }
}

/// Whether the tokens are this word alone.
fn is_alone(tokens: &[Token], word: &[u8]) -> bool
    ensures { result ≡ spec.is_alone word.now tokens.now }
{
    match tokens {
        [] => false,
        [first, rest @ ..] => {
            if !rest.is_empty() {
                return false;
            }
            match word_in(first) {
                Some(text) => is_same_word(text, word),
                None => false,
            }
        }
    }
}

/// Whether the last token closes a list.
fn ends_closed(tokens: &[Token]) -> bool
    ensures { result ≡ spec.ends_closed tokens.now }
{
    match tokens.last() {
        Some(token) => is_close_token(token),
        None => false,
    }
}

/// Attributes behind the parenthesis that opens their list.
fn read_listed(alloc: Global, tokens: &[Token]) -> Result<Option<FetchAsks>, NoMemory>
    ensures { IfOk result (λ asks. asks ≡ spec.listed_in tokens.now) }
{
    if ends_closed(tokens) {
        read_asks(alloc, &tokens[..tokens.len() - 1])
    } else {
        Ok(None)
    }
}

fn only_fast(alloc: Global) -> Result<FetchAsks, NoMemory>
    ensures { IfOk result (λ asks. asks ≡ FetchAsk.Fast ∷ []) }
{
    let mut asks = FetchAsks::new(alloc);
    asks.push(FetchAsk::Fast)?;
    Ok(asks)
}

/// One attribute, or FAST.
fn read_single(alloc: Global, tokens: &[Token]) -> Result<Option<FetchAsks>, NoMemory>
    ensures { IfOk result (λ asks. asks ≡ spec.single_in tokens.now) }
{
    if is_alone(tokens, b"FAST") {
        return Ok(Some(only_fast(alloc)?));
    }
    let Some(asks) = read_asks(alloc, tokens)? else {
        return Ok(None);
    };
    if asks.len() == 1 {
        Ok(Some(asks))
    } else {
        Ok(None)
    }
}

/// One attribute, or a list in parentheses.
pub fn read_fetch(alloc: Global, tokens: &[Token]) -> Result<Option<FetchAsks>, NoMemory>
    ensures { IfOk result (λ asks. asks ≡ spec.fetch_in tokens.now) }
{
    match tokens {
        [] => Ok(None),
        [first, rest @ ..] => {
            if is_open_token(first) {
                read_listed(alloc, rest)
            } else {
                read_single(alloc, tokens)
            }
        }
    }
}
