//! What was shown, as a part of records.
//!
//! The byte of a shown is out of its range where it is not the one of its deed.
ghost use Rattle.std.specs.Prelude.{◌≡◌, ◌≤◌};
ghost use Rattle.verb_core.specs.declared.item.Shown.TheVariants.{Seen, Names as Named, Count, Done, Copied, Put, Left, Way as Went, Moved};
ghost use Rattle.verb_bytes.specs.Fields.{◌&◌, byte_field, key_field, list_fields};
ghost use Rattle.verb_bytes.specs.Readers.{Gives, nth_case, read1, read2, list_at, option_at, name_at, key_at, u32_at, bool_at};
ghost use Rattle.verb_bytes.specs.Reading.{shown_cases, shown_at, any_list_at, sight_at, way_at};
ghost use Rattle.verb_bytes.specs.Spelling.{shown_fields_within, shown_kind, way_field};
ghost use Rattle.verb_bytes.specs.Writing.{Puts};

use crate::cursor::{Cursor, Stop};
use crate::kinds::LAST_SHOWN;
use crate::part::{Part, put_list, put_option, read_list, read_option};
use crate::write::{Unwritten, put_bool, put_byte, put_key, put_u32};
use std::alloc::Global;
use undo_base::{Keys, Text};
use verb_core::{Deed, Shown, Sight, Way};

impl Part for Sight {
    ghost use Rattle.verb_bytes.specs.Spelling.{sight_fields};
    ghost use Rattle.verb_bytes.specs.Reading.{sight_at};

    ghost fields = { sight_fields };

    ghost reader = { sight_at };

    #[tactic(auto, using(crate::proofs::Puts::list_steps))]
    fn put(&self, out: &mut Text) -> Result<(), Unwritten> {
        put_key(out, self.key)?;
        put_u32(out, u32::MAX, self.rev)
    }

    fn read(_alloc: Global, cursor: &mut Cursor<'_>) -> Result<Sight, Stop> {
        let key = cursor.key()?;
        let rev = cursor.u32(u32::MAX)?;
        Ok(Sight { key, rev })
    }
}

/// Writes how a RENAME went.
fn put_way(out: &mut Text, way: Way) -> Result<(), Unwritten>
    ensures { Puts (way_field way) out.old out.new result }
{
    match way {
        Way::Plain => put_byte(out, 0, 2, 0),
        Way::NoSource => put_byte(out, 0, 2, 1),
        Way::Merged => put_byte(out, 0, 2, 2),
    }
}

/// Reads how a RENAME went.
fn read_way(cursor: &mut Cursor<'_>) -> Result<Way, Stop>
    ensures { Gives way_at cursor.old.rest.now cursor.new.rest.now result }
{
    let byte = cursor.byte(0, 2)?;
    if byte == 0 {
        return Ok(Way::Plain);
    }
    if byte == 1 {
        return Ok(Way::NoSource);
    }
    Ok(Way::Merged)
}

/// The kind of shown that belongs to a deed.
pub(crate) fn kind_of(deed: &Deed) -> u8
    ensures kind { result ≡ shown_kind deed.now }
    ensures last { result ≤ LAST_SHOWN }
{
    match deed {
        Deed::Fetch { .. } => 1,
        Deed::List { .. } => 2,
        Deed::Status { .. } => 3,
        Deed::Select { .. } => 3,
        Deed::Store { .. } => 4,
        Deed::Copy { .. } => 5,
        Deed::Append { .. } => 6,
        Deed::Expunge { .. } => 7,
        Deed::Close { .. } => 7,
        Deed::Rename { .. } => 8,
        Deed::Delete { .. } => 9,
        _ => 0,
    }
}

/// Writes what was shown, which must be of this kind. At most so many keys are listed.
#[tactic(auto, using(crate::proofs::Puts::list_steps))]
pub(crate) fn put_shown(most: u32, kind: u8, shown: &Shown, out: &mut Text) -> Result<(), Unwritten>
    ensures { Puts (shown_fields_within most kind shown.now) out.old out.new result }
{
    match shown {
        Shown::Nothing => put_byte(out, kind, kind, 0),
        Shown::Seen(sights) => {
            put_byte(out, kind, kind, 1)?;
            put_list(most, sights, out)
        }
        Shown::Names(names) => {
            put_byte(out, kind, kind, 2)?;
            put_list(u32::MAX, names, out)
        }
        Shown::Count(count) => {
            put_byte(out, kind, kind, 3)?;
            put_option(count, out)
        }
        Shown::Done(keys) => put_keys(most, kind, 4, keys, out),
        Shown::Copied { keys, redirected } => {
            put_byte(out, kind, kind, 5)?;
            put_list(most, keys, out)?;
            put_bool(out, *redirected)
        }
        Shown::Put { redirected } => {
            put_byte(out, kind, kind, 6)?;
            put_bool(out, *redirected)
        }
        Shown::Left(keys) => put_keys(most, kind, 7, keys, out),
        Shown::Way(way) => {
            put_byte(out, kind, kind, 8)?;
            put_way(out, *way)
        }
        Shown::Moved(keys) => put_keys(most, kind, 9, keys, out),
    }
}

/// Reads what was shown, which must be of this kind. At most so many keys are listed.
pub(crate) fn read_shown(
    alloc: Global,
    most: u32,
    kind: u8,
    cursor: &mut Cursor<'_>,
) -> Result<Shown, Stop>
    requires { kind ≤ LAST_SHOWN }
    ensures { Gives (shown_at most kind) cursor.old.rest.now cursor.new.rest.now result }
{
    let found = cursor.byte(kind, kind)?;
    read_case(alloc, most, found, cursor)
}

fn read_case(alloc: Global, most: u32, kind: u8, cursor: &mut Cursor<'_>) -> Result<Shown, Stop>
    requires { kind ≤ LAST_SHOWN }
    ensures { Gives (nth_case kind (shown_cases most)) cursor.old.rest.now cursor.new.rest.now result }
{
    match kind {
        0 => Ok(Shown::Nothing),
        1 => read_seen(alloc, most, cursor),
        2 => read_names(alloc, cursor),
        3 => read_count(alloc, cursor),
        4 => read_done(alloc, most, cursor),
        5 => read_copied(alloc, most, cursor),
        6 => read_put(cursor),
        7 => read_left(alloc, most, cursor),
        8 => read_went(cursor),
        _ => read_moved(alloc, most, cursor),
    }
}

fn read_seen(alloc: Global, most: u32, cursor: &mut Cursor<'_>) -> Result<Shown, Stop>
    ensures { Gives (read1 Seen (list_at most sight_at)) cursor.old.rest.now cursor.new.rest.now result }
{
    let sights = read_list(alloc, most, cursor)?;
    Ok(Shown::Seen(sights))
}

fn read_names(alloc: Global, cursor: &mut Cursor<'_>) -> Result<Shown, Stop>
    ensures { Gives (read1 Named (any_list_at name_at)) cursor.old.rest.now cursor.new.rest.now result }
{
    let names = read_list(alloc, u32::MAX, cursor)?;
    Ok(Shown::Names(names))
}

fn read_count(alloc: Global, cursor: &mut Cursor<'_>) -> Result<Shown, Stop>
    ensures { Gives (read1 Count (option_at u32_at)) cursor.old.rest.now cursor.new.rest.now result }
{
    let count = read_option(alloc, cursor)?;
    Ok(Shown::Count(count))
}

fn read_done(alloc: Global, most: u32, cursor: &mut Cursor<'_>) -> Result<Shown, Stop>
    ensures { Gives (read1 Done (list_at most key_at)) cursor.old.rest.now cursor.new.rest.now result }
{
    let keys = read_list(alloc, most, cursor)?;
    Ok(Shown::Done(keys))
}

fn read_copied(alloc: Global, most: u32, cursor: &mut Cursor<'_>) -> Result<Shown, Stop>
    ensures { Gives (read2 Copied (list_at most key_at) bool_at) cursor.old.rest.now cursor.new.rest.now result }
{
    let keys = read_list(alloc, most, cursor)?;
    let redirected = cursor.bool()?;
    Ok(Shown::Copied { keys, redirected })
}

fn read_put(cursor: &mut Cursor<'_>) -> Result<Shown, Stop>
    ensures { Gives (read1 Put bool_at) cursor.old.rest.now cursor.new.rest.now result }
{
    let redirected = cursor.bool()?;
    Ok(Shown::Put { redirected })
}

fn read_left(alloc: Global, most: u32, cursor: &mut Cursor<'_>) -> Result<Shown, Stop>
    ensures { Gives (read1 Left (list_at most key_at)) cursor.old.rest.now cursor.new.rest.now result }
{
    let keys = read_list(alloc, most, cursor)?;
    Ok(Shown::Left(keys))
}

fn read_went(cursor: &mut Cursor<'_>) -> Result<Shown, Stop>
    ensures { Gives (read1 Went way_at) cursor.old.rest.now cursor.new.rest.now result }
{
    let way = read_way(cursor)?;
    Ok(Shown::Way(way))
}

fn read_moved(alloc: Global, most: u32, cursor: &mut Cursor<'_>) -> Result<Shown, Stop>
    ensures { Gives (read1 Moved (list_at most key_at)) cursor.old.rest.now cursor.new.rest.now result }
{
    let keys = read_list(alloc, most, cursor)?;
    Ok(Shown::Moved(keys))
}

/// Writes keys that were shown.
#[tactic(auto, using(crate::proofs::Puts::list_steps))]
fn put_keys(most: u32, kind: u8, code: u8, keys: &Keys, out: &mut Text) -> Result<(), Unwritten>
    ensures { Puts (byte_field kind kind code & list_fields most key_field keys.now) out.old out.new result }
{
    put_byte(out, kind, kind, code)?;
    put_list(most, keys, out)
}
