//! Records, read from their bytes.
//!
//! That bytes which are refused are not told as want of memory, no contract can say, since none says how much memory there is.
//! The tests of record_tests ask it, with ample memory, of each kind of field, cut and out of its range.
ghost use Rattle.std.specs.Prelude.{◌≡◌, ◌≤◌, ◌-◌, Ok};
ghost use Rattle.verb_bytes.specs.declared.journal.JournalRecord.{JournalRecord};
ghost use Rattle.verb_bytes.specs.declared.journal.JournalRecord.TheVariants.{Verb, Operator, Cycle, Upgrade, Withdraw, Kept};
ghost use Rattle.verb_bytes.specs.Readers.{Gives, nth_case, read1, read3, read4, u32_at, moment_at, name_at};
ghost use Rattle.verb_bytes.specs.Decoding.{Decodes, IsThis};
ghost use Rattle.verb_bytes.specs.Reading.{record_cases, record_at, any_list_at, base_at, base_of, filter_at, kept_at, keyed_report_at, row_at, stamp_at, text_record_at, scoped_filters_at, snapshot_at, act_at, item_at, cycle_ask_at, AnswersAll};
ghost use Rattle.verb_bytes.specs.Spelling.{Spells};

use crate::cursor::{Cursor, Stop};
use crate::items::read_kept;
use crate::kinds::{LAST_RECORD, read_record_kind};
use crate::part::{Part, read_list};
use crate::scopes::{read_scoped_filters, read_scoped_list};
use crate::settings::read_house;
use crate::{CycleAsk, JournalRecord};
use std::alloc::Global;
use undo_base::LAST_MOMENT;
use verb_core::{Act, Aliases, Body, Conf, Filters, Item};

/// Why bytes are not read as a record.
#[derive(Clone, Copy, Debug)]
pub enum BadBytes {
    /// The start of the first field that is cut or out of its range, or the place behind the last field where bytes
    /// follow.
    Place { place: usize },
    NoMemory,
}

fn read_verb(alloc: Global, cursor: &mut Cursor<'_>) -> Result<JournalRecord, Stop>
    ensures { Gives (read1 Verb item_at) cursor.old.rest.now cursor.new.rest.now result }
{
    let item = Item::read(alloc, cursor)?;
    Ok(JournalRecord::Verb(item))
}

fn read_operator(alloc: Global, cursor: &mut Cursor<'_>) -> Result<JournalRecord, Stop>
    ensures { Gives (read3 Operator u32_at moment_at act_at) cursor.old.rest.now cursor.new.rest.now result }
{
    let number = cursor.u32(u32::MAX)?;
    let at = cursor.u64(LAST_MOMENT)?;
    let act = Act::read(alloc, cursor)?;
    Ok(JournalRecord::Operator { number, at, act })
}

fn read_ask(alloc: Global, cursor: &mut Cursor<'_>) -> Result<CycleAsk, Stop>
    ensures { Gives cycle_ask_at cursor.old.rest.now cursor.new.rest.now result }
{
    let key = cursor.name(alloc)?;
    let point = cursor.u32(u32::MAX)?;
    let drops = read_list(alloc, u32::MAX, cursor)?;
    let replaces = read_list(alloc, u32::MAX, cursor)?;
    let inserts = read_list(alloc, u32::MAX, cursor)?;
    Ok(CycleAsk {
        key,
        point,
        drops,
        replaces,
        inserts,
    })
}

fn read_cycle(alloc: Global, cursor: &mut Cursor<'_>) -> Result<JournalRecord, Stop>
    ensures { Gives (read3 Cycle u32_at moment_at cycle_ask_at) cursor.old.rest.now cursor.new.rest.now result }
{
    let number = cursor.u32(u32::MAX)?;
    let at = cursor.u64(LAST_MOMENT)?;
    let ask = read_ask(alloc, cursor)?;
    Ok(JournalRecord::Cycle { number, at, ask })
}

fn read_upgrade(cursor: &mut Cursor<'_>) -> Result<JournalRecord, Stop>
    ensures { Gives (read1 Upgrade moment_at) cursor.old.rest.now cursor.new.rest.now result }
{
    let at = cursor.u64(LAST_MOMENT)?;
    Ok(JournalRecord::Upgrade { at })
}

fn read_withdraw(alloc: Global, cursor: &mut Cursor<'_>) -> Result<JournalRecord, Stop>
    ensures { Gives (read4 Withdraw u32_at moment_at name_at u32_at) cursor.old.rest.now cursor.new.rest.now result }
{
    let number = cursor.u32(u32::MAX)?;
    let at = cursor.u64(LAST_MOMENT)?;
    let key = cursor.name(alloc)?;
    let of = cursor.u32(u32::MAX)?;
    Ok(JournalRecord::Withdraw {
        number,
        at,
        key,
        of,
    })
}

fn read_scoped_snapshot(alloc: Global, cursor: &mut Cursor<'_>) -> Result<JournalRecord, Stop>
    ensures { Gives (snapshot_at scoped_filters_at) cursor.old.rest.now cursor.new.rest.now result }
{
    let items = cursor.u32(u32::MAX)?;
    let aliases = read_list(alloc, u32::MAX, cursor)?;
    let filters = read_scoped_filters(alloc, cursor)?;
    let rows = read_list(alloc, u32::MAX, cursor)?;
    let conf = Conf { aliases, filters };
    Ok(JournalRecord::Snapshot { items, conf, rows })
}

fn read_snapshot(alloc: Global, cursor: &mut Cursor<'_>) -> Result<JournalRecord, Stop>
    ensures { Gives (snapshot_at (any_list_at filter_at)) cursor.old.rest.now cursor.new.rest.now result }
{
    let items = cursor.u32(u32::MAX)?;
    let aliases = read_list(alloc, u32::MAX, cursor)?;
    let filters = read_list(alloc, u32::MAX, cursor)?;
    let rows = read_list(alloc, u32::MAX, cursor)?;
    let conf = Conf { aliases, filters };
    Ok(JournalRecord::Snapshot { items, conf, rows })
}

fn read_base(alloc: Global, cursor: &mut Cursor<'_>) -> Result<JournalRecord, Stop>
    ensures { Gives base_at cursor.old.rest.now cursor.new.rest.now result }
{
    let next = cursor.u32(u32::MAX)?;
    let deep = cursor.bool()?;
    let aliases = read_list(alloc, u32::MAX, cursor)?;
    let filters = read_scoped_list(alloc, cursor)?;
    read_base_rows(alloc, next, deep, aliases, filters, cursor)
}

/// Reads the mailboxes, their stamps and the reports, behind the other fields of a base.
fn read_base_rows(
    alloc: Global,
    next: u32,
    deep: bool,
    aliases: Aliases,
    filters: Filters,
    cursor: &mut Cursor<'_>,
) -> Result<JournalRecord, Stop>
    ensures { Gives (read3 (base_of next deep aliases filters) (any_list_at row_at) (any_list_at stamp_at) (any_list_at keyed_report_at)) cursor.old.rest.now cursor.new.rest.now result }
{
    let rows = read_list(alloc, u32::MAX, cursor)?;
    let stamps = read_list(alloc, u32::MAX, cursor)?;
    let reports = read_list(alloc, u32::MAX, cursor)?;
    Ok(JournalRecord::Base {
        next,
        deep,
        conf: Conf { aliases, filters },
        rows,
        stamps,
        reports,
    })
}

fn read_text(alloc: Global, cursor: &mut Cursor<'_>) -> Result<JournalRecord, Stop>
    ensures { Gives text_record_at cursor.old.rest.now cursor.new.rest.now result }
{
    let origin = cursor.u32(u32::MAX)?;
    let rev = cursor.u32(u32::MAX)?;
    let text = cursor.text(alloc, u32::MAX)?;
    Ok(JournalRecord::Text {
        body: Body { origin, rev },
        text,
    })
}

fn read_kept_record(alloc: Global, cursor: &mut Cursor<'_>) -> Result<JournalRecord, Stop>
    ensures { Gives (read1 Kept kept_at) cursor.old.rest.now cursor.new.rest.now result }
{
    let item = read_kept(alloc, cursor)?;
    Ok(JournalRecord::Kept(item))
}

fn read_case(alloc: Global, kind: u8, cursor: &mut Cursor<'_>) -> Result<JournalRecord, Stop>
    requires { kind ≤ LAST_RECORD }
    ensures { Gives (nth_case (kind - 0) record_cases) cursor.old.rest.now cursor.new.rest.now result }
{
    match kind {
        0 => read_house(alloc, cursor),
        1 => read_verb(alloc, cursor),
        2 => read_operator(alloc, cursor),
        3 => read_cycle(alloc, cursor),
        4 => read_snapshot(alloc, cursor),
        5 => read_upgrade(cursor),
        6 => read_scoped_snapshot(alloc, cursor),
        7 => read_withdraw(alloc, cursor),
        8 => read_base(alloc, cursor),
        9 => read_text(alloc, cursor),
        _ => read_kept_record(alloc, cursor),
    }
}

fn read_record(alloc: Global, cursor: &mut Cursor<'_>) -> Result<JournalRecord, Stop>
    ensures { Gives record_at cursor.old.rest.now cursor.new.rest.now result }
{
    let kind = read_record_kind(cursor)?;
    read_case(alloc, kind, cursor)
}

/// A place from the start, for so many bytes left. More than there are is the start.
fn refused_at(count: usize, left: usize) -> BadBytes
    ensures { result ≡ BadBytes.Place (count - left) }
{
    BadBytes::Place {
        place: count.saturating_sub(left),
    }
}

/// A record that was read of all bytes, where none is left.
fn all_of(bytes: &[u8], rest: &[u8], found: JournalRecord) -> Result<JournalRecord, BadBytes>
    requires { record_at bytes.now ≡ Ok (found, rest.now) }
    ensures { AnswersAll bytes.now result }
{
    if rest.is_empty() {
        Ok(found)
    } else {
        drop(found);
        Err(refused_at(bytes.len(), rest.len()))
    }
}

fn read_all(alloc: Global, bytes: &[u8]) -> Result<JournalRecord, BadBytes>
    ensures { AnswersAll bytes.now result }
{
    let mut cursor = Cursor { rest: bytes };
    match read_record(alloc, &mut cursor) {
        Ok(found) => all_of(bytes, cursor.rest, found),
        Err(Stop::At { left }) => Err(refused_at(bytes.len(), left)),
        Err(Stop::NoMemory) => Err(BadBytes::NoMemory),
    }
}

/// Reads a record: the one that the bytes spell.
pub fn decode_record(alloc: Global, bytes: &[u8]) -> Result<JournalRecord, BadBytes>
    // What is read is spelled so; or where the bytes are refused.
    ensures found { Decodes bytes.now result }
    // What is spelled so is read, unless no memory was found.
    ensures only { (what : JournalRecord) → Spells what bytes.now → IsThis what result }
{
    read_all(alloc, bytes)
}
