//! The answers to FETCH and STORE.
//!
//! A message of which `\Seen` is set tells FLAGS as they are after the FETCH wherever FLAGS stands among the attributes. It
//! stands last, once, where it was not asked for and the message lacked `\Seen`.
//!
//! STORE tells the flags that it leaves also where they did not change.
ghost use Rattle.std.specs.Prelude.{◌≡◌, ◌++◌, IfOk, OnOk, map};
ghost use Rattle.std.specs.List.{list_any};
ghost use Rattle.imap_fetch.specs.Asked.{is_uid as is_uid_of, is_flags as is_flags_of};
ghost use Rattle.imap_fetch.specs.Told as spec;

use crate::flags::flags_fetched;
use crate::parts::{push_parts, push_where};
use crate::same::{is_flags, is_uid};
use crate::{Attribute, Attributes, Message, Messages};
use imap_text::{FetchParts, render_fetch};
use std::alloc::Global;
use undo_base::{Flags, How, NoMemory, Text, Texts};
use verb_core::flags_after;

/// How a FETCH is told: its attributes, whether it named its messages by UID, and whether it sets `\Seen`.
#[derive(Debug, Drop)]
pub struct FetchForm {
    pub attributes: Attributes,
    pub by_uid: bool,
    pub sets_seen: bool,
}

/// How a STORE is told: what it does to flags, and whether it named its messages by UID.
#[derive(Clone, Copy, Debug, PartialEq, Eq)]
pub struct StoreForm {
    pub how: How,
    pub flags: Flags,
    pub by_uid: bool,
}

fn is_newly_seen(form: &FetchForm, message: &Message) -> bool
    ensures { result ≡ spec.is_newly_seen form.now message.now }
{
    form.sets_seen && !message.entry.flags.seen
}

fn has_uid(attributes: &Attributes) -> bool
    ensures { result ≡ list_any is_uid_of attributes.now }
{
    attributes.iter().any(|attribute| is_uid(attribute))
}

fn has_flags(attributes: &Attributes) -> bool
    ensures { result ≡ list_any is_flags_of attributes.now }
{
    attributes.iter().any(|attribute| is_flags(attribute))
}

fn adds_uid(form: &FetchForm) -> bool
    ensures { result ≡ spec.adds_uid form.now }
{
    form.by_uid && !has_uid(&form.attributes)
}

fn adds_flags(form: &FetchForm, message: &Message) -> bool
    ensures { result ≡ spec.adds_flags form.now message.now }
{
    is_newly_seen(form, message) && !has_flags(&form.attributes)
}

/// What is told of a message.
fn attributes_told(
    alloc: Global,
    form: &FetchForm,
    message: &Message,
    text: &[u8],
) -> Result<FetchParts, NoMemory>
    ensures { IfOk result (λ parts. parts ≡ map (spec.part_of message.now (spec.flags_fetched form.now message.now) text.now) (spec.attributes_told form.now message.now)) }
{
    let flags = flags_fetched(form, message);
    let mut parts = FetchParts::new(alloc);
    push_where(
        alloc,
        &mut parts,
        message,
        flags,
        text,
        adds_uid(form),
        &Attribute::Uid,
    )?;
    push_parts(
        alloc,
        &mut parts,
        message,
        flags,
        text,
        form.attributes.as_slice(),
    )?;
    push_where(
        alloc,
        &mut parts,
        message,
        flags,
        text,
        adds_flags(form, message),
        &Attribute::Flags,
    )?;
    Ok(parts)
}

#[tactic(auto, unfolding(crate::specs::Told::fetched_line))]
fn push_fetched(
    alloc: Global,
    out: &mut Text,
    form: &FetchForm,
    message: &Message,
    text: &[u8],
) -> Result<(), NoMemory>
    ensures { OnOk result (out.new ≡ out.old ++ spec.fetched_line form.now message.now text.now) }
{
    let parts = attributes_told(alloc, form, message, text)?;
    let line = render_fetch(alloc, message.place, &parts)?;
    out.extend(line.bytes())
}

fn text_beside(texts: &[Text], index: usize) -> &[u8]
    ensures { result.now ≡ spec.text_beside texts.now index }
{
    match texts.get(index) {
        Some(text) => text.bytes(),
        None => b"",
    }
}

/// What a FETCH tells of these messages (RFC 3501, 7.4.2). The i-th text is that of the i-th message; there need be
/// none where no text is asked for.
pub fn fetch_lines(
    alloc: Global,
    form: &FetchForm,
    rows: &Messages,
    texts: &Texts,
) -> Result<Text, NoMemory>
    ensures { IfOk result (λ lines. lines ≡ spec.fetch_lines form.now rows.now texts.now) }
{
    let mut out = Text::new(alloc);
    let rows = rows.as_slice();
    let texts = texts.as_slice();
    for (index, row) in rows.iter().enumerate() {
        push_fetched(alloc, &mut out, form, row, text_beside(texts, index))?;
    }
    Ok(out)
}

#[tactic(auto, unfolding(crate::specs::Told::stored_line))]
fn push_stored(
    alloc: Global,
    out: &mut Text,
    form: StoreForm,
    message: &Message,
) -> Result<(), NoMemory>
    ensures { OnOk result (out.new ≡ out.old ++ spec.stored_line form message.now) }
{
    let flags = flags_after(form.how, form.flags, message.entry.flags);
    let mut parts = FetchParts::new(alloc);
    push_where(
        alloc,
        &mut parts,
        message,
        flags,
        b"",
        form.by_uid,
        &Attribute::Uid,
    )?;
    push_where(
        alloc,
        &mut parts,
        message,
        flags,
        b"",
        true,
        &Attribute::Flags,
    )?;
    let line = render_fetch(alloc, message.place, &parts)?;
    out.extend(line.bytes())
}

/// What a STORE that is not silent tells of these messages (RFC 3501, 6.4.6).
#[tactic(auto, unfolding(crate::specs::Told::store_lines))]
pub fn store_lines(alloc: Global, form: StoreForm, rows: &Messages) -> Result<Text, NoMemory>
    ensures { IfOk result (λ lines. lines ≡ spec.store_lines form rows.now) }
{
    let mut out = Text::new(alloc);
    for row in rows.as_slice() {
        push_stored(alloc, &mut out, form, row)?;
    }
    Ok(out)
}
