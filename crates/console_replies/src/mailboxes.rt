//! Mailboxes.
ghost use Rattle.std.specs.Prelude.{◌≡◌, ◌++◌, IfOk, OnOk, codes, map, string_bytes};
ghost use Rattle.serde_json.specs.Data.{put, string};
ghost use Rattle.serde_json.specs.View.{view, items_view, items_of, members_view};
ghost use Rattle.serde_json.specs.Written.{compact_text};
ghost use Rattle.console_replies.specs.Mailboxes.{letter as letter_of, letters as letters_of, entry_data, box_data};

use crate::objects::{Members, with_list, with_number, with_value};
use crate::text::text_of;
use serde_json::{Map, Value};
use std::alloc::{AllocError, Global};
use undo_base::{Flags, NoMemory, Text};
use verb_core::{Entry, Mailbox};

/// A flag's letter, or nothing.
fn letter(has: bool, text: &str) -> &str
    ensures { result.now ≡ letter_of has text.now }
{
    if has { text } else { "" }
}

fn push_letter(out: &mut String, has: bool, text: &str) -> Result<(), AllocError>
    ensures { OnOk result (string_bytes out.new ≡ string_bytes out.old ++ letter_of has text.now) }
{
    out.push_str(letter(has, text))?;
    Ok(())
}

/// A letter for each flag: Answered, Flagged, Deleted, Seen, Draft.
fn push_letters(out: &mut String, flags: Flags) -> Result<(), AllocError>
    ensures { OnOk result (string_bytes out.new ≡ string_bytes out.old ++ letters_of flags) }
{
    push_letter(out, flags.answered, "A")?;
    push_letter(out, flags.flagged, "F")?;
    push_letter(out, flags.deleted, "D")?;
    push_letter(out, flags.seen, "S")?;
    push_letter(out, flags.draft, "R")
}

fn letters(alloc: Global, flags: Flags) -> Result<String, AllocError>
    ensures { IfOk result (λ text. string_bytes text ≡ letters_of flags) }
{
    let mut out = String::new(alloc);
    push_letters(&mut out, flags)?;
    Ok(out)
}

fn with_flags(alloc: Global, members: Members, flags: Flags) -> Result<Members, AllocError>
    ensures { IfOk result (λ m. members_view m.entries ≡ put (codes "flags") (string (letters_of flags)) (members_view members.entries)) }
{
    let text = letters(alloc, flags)?;
    with_value(alloc, members, "flags", Value::String(text))
}

fn entry_value(alloc: Global, entry: Entry) -> Result<Value, AllocError>
    ensures { IfOk result (λ v. view v ≡ entry_data entry) }
{
    let members = with_number(alloc, Map::new(alloc), "at", entry.at)?;
    let members = with_flags(alloc, members, entry.flags)?;
    let members = with_number(alloc, members, "index", u64::from(entry.key.index))?;
    let members = with_number(alloc, members, "item", u64::from(entry.key.item))?;
    let members = with_number(alloc, members, "origin", u64::from(entry.body.origin))?;
    let members = with_number(alloc, members, "rev", u64::from(entry.body.rev))?;
    let members = with_number(alloc, members, "uid", entry.uid)?;
    Ok(Value::Object(members))
}

fn entry_values(alloc: Global, entries: &[Entry]) -> Result<Vec<Value>, AllocError>
    ensures { IfOk result (λ v. items_view v.items ≡ items_of (map entry_data entries.now)) }
{
    let mut values = Vec::new(alloc);
    for entry in entries {
        values.push(entry_value(alloc, *entry)?)?;
    }
    Ok(values)
}

fn box_value(alloc: Global, mailbox: &Mailbox, stamp: u32) -> Result<Value, AllocError>
    ensures { IfOk result (λ v. view v ≡ box_data mailbox.now stamp) }
{
    let values = entry_values(alloc, mailbox.entries.as_slice())?;
    let members = with_list(alloc, Map::new(alloc), "entries", values)?;
    let members = with_number(alloc, members, "next", mailbox.next)?;
    let members = with_number(alloc, members, "stamp", u64::from(stamp))?;
    Ok(Value::Object(members))
}

/// The answer to GET /box: a mailbox and its stamp.
#[tactic(auto, using(crate::proofs::Floats::box_has_none))]
pub fn box_json(alloc: Global, mailbox: &Mailbox, stamp: u32) -> Result<Text, NoMemory>
    ensures { IfOk result (λ text. text ≡ compact_text (box_data mailbox.now stamp)) }
{
    text_of(alloc, box_value(alloc, mailbox, stamp)?)
}
