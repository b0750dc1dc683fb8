//! Deeds as parts of records.
//!
//! The text of DELIVER, APPEND and Give, and a replaced text, has the range of a stored body. The sender of DELIVER and the
//! pattern of LIST have no range but that of their length.
//!
//! The limits of a deed's text and of what was shown are parameters of their fields, and so is the last kind of a deed. The
//! record of an item that is kept, where the past was cut off, holds the same with others than that of a user's item.
ghost use Rattle.std.specs.Prelude.{◌≤◌, ◌-◌};
ghost use Rattle.verb_core.specs.declared.item.Deed.TheVariants.{Deliver, Append, Fetch, Store, Copy, List as Names, Status, Select, Expunge, Close, Create, Rename, Delete, Act as Acts, Notice};
ghost use Rattle.verb_bytes.specs.Fields.{◌&◌, deed_kind_to, name_field};
ghost use Rattle.verb_bytes.specs.Readers.{Gives, nth_case, read1, read2, read3, read4, list_at, name_at, text_at, flags_at, moment_at, bool_at, user_at};
ghost use Rattle.verb_bytes.specs.Reading.{act_within_at, deed_at, deed_cases, any_text_at, keys_at, how_at};
ghost use Rattle.verb_bytes.specs.Spelling.{deed_fields_within, how_field, key_list};
ghost use Rattle.verb_bytes.specs.Writing.{Puts};

use crate::acts::{put_act, read_act};
use crate::cursor::{Cursor, Stop};
use crate::kinds::{LAST_KEPT_DEED, put_deed_kind, read_deed_kind};
use crate::part::{put_list, read_list};
use crate::write::{
    MOST_LISTED, MOST_TO, Unwritten, put_bool, put_byte, put_flags, put_name, put_text, put_u64,
    put_user,
};
use std::alloc::Global;
use undo_base::{Flags, How, Keys, LAST_MOMENT, Name, Names, Text, User};
use verb_core::{Act, Deed};

/// Writes how flags change.
fn put_how(out: &mut Text, how: How) -> Result<(), Unwritten>
    ensures { Puts (how_field how) out.old out.new result }
{
    match how {
        How::Replace => put_byte(out, 0, 2, 0),
        How::Add => put_byte(out, 0, 2, 1),
        How::Take => put_byte(out, 0, 2, 2),
    }
}

/// Reads how flags change.
fn read_how(cursor: &mut Cursor<'_>) -> Result<How, Stop>
    ensures { Gives how_at cursor.old.rest.now cursor.new.rest.now result }
{
    let byte = cursor.byte(0, 2)?;
    if byte == 0 {
        return Ok(How::Replace);
    }
    if byte == 1 {
        return Ok(How::Add);
    }
    Ok(How::Take)
}

/// Writes a deed of a kind up to the last, whose message has a text of at most so many bytes.
#[tactic(auto, using(crate::proofs::Puts::list_steps))]
pub(crate) fn put_deed(last: u8, most: u32, deed: &Deed, out: &mut Text) -> Result<(), Unwritten>
    ensures { Puts (deed_fields_within last most deed.now) out.old out.new result }
{
    match deed {
        Deed::Deliver { from, to, text } => put_deliver(last, most, from, to, text, out),
        Deed::Append {
            mailbox,
            flags,
            moment,
            text,
        } => put_append(last, most, mailbox, *flags, *moment, text, out),
        Deed::Fetch {
            mailbox,
            keys,
            sets_seen,
            shows_body,
        } => put_fetch(last, mailbox, keys, *sets_seen, *shows_body, out),
        Deed::Store {
            mailbox,
            keys,
            how,
            flags,
        } => put_store(last, mailbox, keys, *how, *flags, out),
        Deed::Copy {
            mailbox,
            keys,
            target,
        } => put_copy(last, mailbox, keys, target, out),
        Deed::List { pattern } => put_listing(last, pattern, out),
        Deed::Status { mailbox } => put_mailbox(last, 7, mailbox, out),
        Deed::Select { mailbox } => put_mailbox(last, 8, mailbox, out),
        Deed::Expunge { mailbox, keys } => put_keys(last, 9, mailbox, keys, out),
        Deed::Close { mailbox, keys } => put_keys(last, 10, mailbox, keys, out),
        Deed::Create { mailbox } => put_mailbox(last, 11, mailbox, out),
        Deed::Rename { mailbox, target } => put_rename(last, mailbox, target, out),
        Deed::Delete { mailbox, keys } => put_keys(last, 13, mailbox, keys, out),
        Deed::Act(act) => put_act_deed(last, most, act, out),
        Deed::Notice { user, text } => put_notice(last, most, *user, text, out),
    }
}

/// Reads a deed of a kind up to the last, whose message has a text of at most so many bytes.
pub(crate) fn read_deed(
    alloc: Global,
    last: u8,
    most: u32,
    cursor: &mut Cursor<'_>,
) -> Result<Deed, Stop>
    requires { last ≤ LAST_KEPT_DEED }
    ensures { Gives (deed_at last most) cursor.old.rest.now cursor.new.rest.now result }
{
    let kind = read_deed_kind(cursor, last)?;
    read_case(alloc, most, kind, cursor)
}

fn read_case(alloc: Global, most: u32, kind: u8, cursor: &mut Cursor<'_>) -> Result<Deed, Stop>
    requires first { 1 ≤ kind }
    requires last { kind ≤ LAST_KEPT_DEED }
    ensures { Gives (nth_case (kind - 1) (deed_cases most)) cursor.old.rest.now cursor.new.rest.now result }
{
    match kind {
        1 => read_deliver(alloc, most, cursor),
        2 => read_append(alloc, most, cursor),
        3 => read_fetch(alloc, cursor),
        4 => read_store(alloc, cursor),
        5 => read_copy(alloc, cursor),
        6 => read_listing(alloc, cursor),
        7 => read_status(alloc, cursor),
        8 => read_select(alloc, cursor),
        9 => read_expunge(alloc, cursor),
        10 => read_close(alloc, cursor),
        11 => read_create(alloc, cursor),
        12 => read_rename(alloc, cursor),
        13 => read_delete(alloc, cursor),
        14 => read_act_deed(alloc, most, cursor),
        _ => read_notice(alloc, most, cursor),
    }
}

fn read_deliver(alloc: Global, most: u32, cursor: &mut Cursor<'_>) -> Result<Deed, Stop>
    ensures { Gives (read3 Deliver any_text_at (list_at MOST_TO name_at) (text_at most)) cursor.old.rest.now cursor.new.rest.now result }
{
    let from = cursor.text(alloc, u32::MAX)?;
    let to = read_list(alloc, MOST_TO, cursor)?;
    let text = cursor.text(alloc, most)?;
    Ok(Deed::Deliver { from, to, text })
}

fn read_append(alloc: Global, most: u32, cursor: &mut Cursor<'_>) -> Result<Deed, Stop>
    ensures { Gives (read4 Append name_at flags_at moment_at (text_at most)) cursor.old.rest.now cursor.new.rest.now result }
{
    let mailbox = cursor.name(alloc)?;
    let flags = cursor.flags()?;
    let moment = cursor.u64(LAST_MOMENT)?;
    let text = cursor.text(alloc, most)?;
    Ok(Deed::Append {
        mailbox,
        flags,
        moment,
        text,
    })
}

fn read_fetch(alloc: Global, cursor: &mut Cursor<'_>) -> Result<Deed, Stop>
    ensures { Gives (read4 Fetch name_at keys_at bool_at bool_at) cursor.old.rest.now cursor.new.rest.now result }
{
    let mailbox = cursor.name(alloc)?;
    let keys = read_list(alloc, MOST_LISTED, cursor)?;
    let sets_seen = cursor.bool()?;
    let shows_body = cursor.bool()?;
    Ok(Deed::Fetch {
        mailbox,
        keys,
        sets_seen,
        shows_body,
    })
}

fn read_store(alloc: Global, cursor: &mut Cursor<'_>) -> Result<Deed, Stop>
    ensures { Gives (read4 Store name_at keys_at how_at flags_at) cursor.old.rest.now cursor.new.rest.now result }
{
    let mailbox = cursor.name(alloc)?;
    let keys = read_list(alloc, MOST_LISTED, cursor)?;
    let how = read_how(cursor)?;
    let flags = cursor.flags()?;
    Ok(Deed::Store {
        mailbox,
        keys,
        how,
        flags,
    })
}

fn read_copy(alloc: Global, cursor: &mut Cursor<'_>) -> Result<Deed, Stop>
    ensures { Gives (read3 Copy name_at keys_at name_at) cursor.old.rest.now cursor.new.rest.now result }
{
    let mailbox = cursor.name(alloc)?;
    let keys = read_list(alloc, MOST_LISTED, cursor)?;
    let target = cursor.name(alloc)?;
    Ok(Deed::Copy {
        mailbox,
        keys,
        target,
    })
}

fn read_listing(alloc: Global, cursor: &mut Cursor<'_>) -> Result<Deed, Stop>
    ensures { Gives (read1 Names any_text_at) cursor.old.rest.now cursor.new.rest.now result }
{
    let pattern = cursor.text(alloc, u32::MAX)?;
    Ok(Deed::List { pattern })
}

fn read_status(alloc: Global, cursor: &mut Cursor<'_>) -> Result<Deed, Stop>
    ensures { Gives (read1 Status name_at) cursor.old.rest.now cursor.new.rest.now result }
{
    let mailbox = cursor.name(alloc)?;
    Ok(Deed::Status { mailbox })
}

fn read_select(alloc: Global, cursor: &mut Cursor<'_>) -> Result<Deed, Stop>
    ensures { Gives (read1 Select name_at) cursor.old.rest.now cursor.new.rest.now result }
{
    let mailbox = cursor.name(alloc)?;
    Ok(Deed::Select { mailbox })
}

fn read_expunge(alloc: Global, cursor: &mut Cursor<'_>) -> Result<Deed, Stop>
    ensures { Gives (read2 Expunge name_at keys_at) cursor.old.rest.now cursor.new.rest.now result }
{
    let mailbox = cursor.name(alloc)?;
    let keys = read_list(alloc, MOST_LISTED, cursor)?;
    Ok(Deed::Expunge { mailbox, keys })
}

fn read_close(alloc: Global, cursor: &mut Cursor<'_>) -> Result<Deed, Stop>
    ensures { Gives (read2 Close name_at keys_at) cursor.old.rest.now cursor.new.rest.now result }
{
    let mailbox = cursor.name(alloc)?;
    let keys = read_list(alloc, MOST_LISTED, cursor)?;
    Ok(Deed::Close { mailbox, keys })
}

fn read_create(alloc: Global, cursor: &mut Cursor<'_>) -> Result<Deed, Stop>
    ensures { Gives (read1 Create name_at) cursor.old.rest.now cursor.new.rest.now result }
{
    let mailbox = cursor.name(alloc)?;
    Ok(Deed::Create { mailbox })
}

fn read_rename(alloc: Global, cursor: &mut Cursor<'_>) -> Result<Deed, Stop>
    ensures { Gives (read2 Rename name_at name_at) cursor.old.rest.now cursor.new.rest.now result }
{
    let mailbox = cursor.name(alloc)?;
    let target = cursor.name(alloc)?;
    Ok(Deed::Rename { mailbox, target })
}

fn read_delete(alloc: Global, cursor: &mut Cursor<'_>) -> Result<Deed, Stop>
    ensures { Gives (read2 Delete name_at keys_at) cursor.old.rest.now cursor.new.rest.now result }
{
    let mailbox = cursor.name(alloc)?;
    let keys = read_list(alloc, MOST_LISTED, cursor)?;
    Ok(Deed::Delete { mailbox, keys })
}

fn read_act_deed(alloc: Global, most: u32, cursor: &mut Cursor<'_>) -> Result<Deed, Stop>
    ensures { Gives (read1 Acts (act_within_at most)) cursor.old.rest.now cursor.new.rest.now result }
{
    let act = read_act(alloc, most, cursor)?;
    Ok(Deed::Act(act))
}

fn read_notice(alloc: Global, most: u32, cursor: &mut Cursor<'_>) -> Result<Deed, Stop>
    ensures { Gives (read2 Notice user_at (text_at most)) cursor.old.rest.now cursor.new.rest.now result }
{
    let user = cursor.user()?;
    let text = cursor.text(alloc, most)?;
    Ok(Deed::Notice { user, text })
}

#[tactic(auto, using(crate::proofs::Puts::list_steps))]
fn put_deliver(
    last: u8,
    most: u32,
    from: &Text,
    to: &Names,
    text: &Text,
    out: &mut Text,
) -> Result<(), Unwritten>
    ensures { Puts (deed_fields_within last most (Deliver from.now to.now text.now)) out.old out.new result }
{
    put_deed_kind(out, last, 1)?;
    put_text(out, u32::MAX, from)?;
    put_list(MOST_TO, to, out)?;
    put_text(out, most, text)
}

#[tactic(auto, using(crate::proofs::Puts::list_steps))]
fn put_append(
    last: u8,
    most: u32,
    mailbox: &Name,
    flags: Flags,
    moment: u64,
    text: &Text,
    out: &mut Text,
) -> Result<(), Unwritten>
    ensures { Puts (deed_fields_within last most (Append mailbox.now flags moment text.now)) out.old out.new result }
{
    put_deed_kind(out, last, 2)?;
    put_name(out, mailbox)?;
    put_flags(out, flags)?;
    put_u64(out, LAST_MOMENT, moment)?;
    put_text(out, most, text)
}

#[tactic(auto, using(crate::proofs::Puts::list_steps))]
fn put_fetch(
    last: u8,
    mailbox: &Name,
    keys: &Keys,
    sets_seen: bool,
    shows_body: bool,
    out: &mut Text,
) -> Result<(), Unwritten>
    ensures { Puts (deed_fields_within last 0 (Fetch mailbox.now keys.now sets_seen shows_body)) out.old out.new result }
{
    put_deed_kind(out, last, 3)?;
    put_name(out, mailbox)?;
    put_list(MOST_LISTED, keys, out)?;
    put_bool(out, sets_seen)?;
    put_bool(out, shows_body)
}

#[tactic(auto, using(crate::proofs::Puts::list_steps))]
fn put_store(
    last: u8,
    mailbox: &Name,
    keys: &Keys,
    how: How,
    flags: Flags,
    out: &mut Text,
) -> Result<(), Unwritten>
    ensures { Puts (deed_fields_within last 0 (Store mailbox.now keys.now how flags)) out.old out.new result }
{
    put_deed_kind(out, last, 4)?;
    put_name(out, mailbox)?;
    put_list(MOST_LISTED, keys, out)?;
    put_how(out, how)?;
    put_flags(out, flags)
}

#[tactic(auto, using(crate::proofs::Puts::list_steps))]
fn put_copy(
    last: u8,
    mailbox: &Name,
    keys: &Keys,
    target: &Name,
    out: &mut Text,
) -> Result<(), Unwritten>
    ensures { Puts (deed_fields_within last 0 (Copy mailbox.now keys.now target.now)) out.old out.new result }
{
    put_deed_kind(out, last, 5)?;
    put_name(out, mailbox)?;
    put_list(MOST_LISTED, keys, out)?;
    put_name(out, target)
}

#[tactic(auto, using(crate::proofs::Puts::list_steps))]
fn put_listing(last: u8, pattern: &Text, out: &mut Text) -> Result<(), Unwritten>
    ensures { Puts (deed_fields_within last 0 (Names pattern.now)) out.old out.new result }
{
    put_deed_kind(out, last, 6)?;
    put_text(out, u32::MAX, pattern)
}

#[tactic(auto, using(crate::proofs::Puts::list_steps))]
fn put_rename(last: u8, mailbox: &Name, target: &Name, out: &mut Text) -> Result<(), Unwritten>
    ensures { Puts (deed_fields_within last 0 (Rename mailbox.now target.now)) out.old out.new result }
{
    put_deed_kind(out, last, 12)?;
    put_name(out, mailbox)?;
    put_name(out, target)
}

/// Writes a deed of one mailbox.
#[tactic(auto, using(crate::proofs::Puts::list_steps))]
fn put_mailbox(last: u8, kind: u8, mailbox: &Name, out: &mut Text) -> Result<(), Unwritten>
    ensures { Puts (deed_kind_to last kind & name_field mailbox.now) out.old out.new result }
{
    put_deed_kind(out, last, kind)?;
    put_name(out, mailbox)
}

/// Writes a deed of one mailbox and some of its keys.
#[tactic(auto, using(crate::proofs::Puts::list_steps))]
fn put_keys(
    last: u8,
    kind: u8,
    mailbox: &Name,
    keys: &Keys,
    out: &mut Text,
) -> Result<(), Unwritten>
    ensures { Puts (deed_kind_to last kind & name_field mailbox.now & key_list keys.now) out.old out.new result }
{
    put_deed_kind(out, last, kind)?;
    put_name(out, mailbox)?;
    put_list(MOST_LISTED, keys, out)
}

/// Writes an act of the operator.
#[tactic(auto, using(crate::proofs::Puts::list_steps))]
fn put_act_deed(last: u8, most: u32, act: &Act, out: &mut Text) -> Result<(), Unwritten>
    ensures { Puts (deed_fields_within last most (Acts act.now)) out.old out.new result }
{
    put_deed_kind(out, last, 14)?;
    put_act(most, act, out)
}

/// Writes a notice.
#[tactic(auto, using(crate::proofs::Puts::list_steps))]
fn put_notice(last: u8, most: u32, user: User, text: &Text, out: &mut Text) -> Result<(), Unwritten>
    ensures { Puts (deed_fields_within last most (Notice user text.now)) out.old out.new result }
{
    put_deed_kind(out, last, 15)?;
    put_user(out, user)?;
    put_text(out, most, text)
}
