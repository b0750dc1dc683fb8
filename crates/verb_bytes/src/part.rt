//! Parts of records, and lists of them.
//!
//! A list of a record takes room as its elements are read, for as many again and four. So a record that announces 4,294,967,295
//! elements and has none takes no more than that.
//!
//! Lists of a house's accounts have at most 200 members, recipients of DELIVER 1,000, and keys of an item, those shown included,
//! 65,536. Other lists have no range but that of their count, and numbers of items, UIDs and revs none but that of their bytes.
ghost use Rattle.std.specs.Prelude.{◌≡◌, ◌≤◌, ◌+◌, ◌*◌, ℕ, List, [], ◌∷◌, ◌++◌, Result, Ok, Err, length, Option, IfErr, OnOk, OnErr, vec_len, vec_capacity};
ghost use Rattle.std.specs.List.{flat_map};
ghost use Rattle.verb_bytes.specs.Fields.{Field, list_fields, option_fields};
ghost use Rattle.verb_bytes.specs.Readers.{Gives, list_at, option_at, read1, times};
ghost use Rattle.verb_bytes.specs.Writing.{Puts};

use crate::cursor::{Cursor, Stop};
use crate::write::{Unwritten, put_byte, put_count};
use std::alloc::Global;
use undo_base::{NoMemory, Sequence, Text};

/// A part of a record: its fields, and how it is read.
pub(crate) trait Part: Sized + Drop {
    /// The fields that spell it.
    ghost fields: { Self → List Field };

    /// What is read at the front of bytes.
    ghost reader: { List ℕ → Result (Self × List ℕ) ℕ };

    /// Writes its fields at the end, where each value is in its range.
    fn put(&self, out: &mut Text) -> Result<(), Unwritten>
        ensures { Puts (fields self.now) out.old out.new result };

    fn read(alloc: Global, cursor: &mut Cursor<'_>) -> Result<Self, Stop>
        ensures { Gives reader cursor.old.rest.now cursor.new.rest.now result };
}

/// Adds an element. There is room for no more than as many again and four.
pub(crate) fn push_read<T: Drop>(items: &mut Vec<T>, item: T) -> Result<(), NoMemory>
    requires { vec_capacity items.old ≤ 2 * vec_len items.old + 4 }
    ensures ok { OnOk result (items.new.items ≡ items.old.items ++ item ∷ []) }
    ensures err { OnErr result (items.new.items ≡ items.old.items) }
    ensures room { vec_capacity items.new ≤ 2 * vec_len items.new + 4 }
{
    let count = items.len();
    if count == items.capacity() {
        items.reserve_exact(count + 4)?;
    }
    items.push_reserved(item);
    Ok(())
}

/// Reads so many elements. Memory is taken as they come, for as many again as came and four, whatever their count says.
fn read_items<T: Part>(
    alloc: Global,
    count: u32,
    cursor: &mut Cursor<'_>,
    items: &mut Vec<T>,
) -> Result<(), Stop>
    requires none { items.old.items ≡ [] }
    requires room { vec_capacity items.old ≤ 4 }
    ensures ok { OnOk result (times count T.reader cursor.old.rest.now ≡ Ok (items.new.items, cursor.new.rest.now)) }
    ensures err { IfErr result (λ stop. Gives {A = List T} (times count T.reader) cursor.old.rest.now cursor.new.rest.now (Err stop)) }
    ensures came { (rest : List ℕ) × (times (length items.new.items) T.reader cursor.old.rest.now ≡ Ok (items.new.items, rest)) }
    ensures room { vec_capacity items.new ≤ 2 * length items.new.items + 4 }
{
    for _ in 0..count {
        let item = T::read(alloc, cursor)?;
        push_read(items, item)?;
    }
    Ok(())
}

fn read_times<T: Part>(
    alloc: Global,
    count: u32,
    cursor: &mut Cursor<'_>,
) -> Result<Sequence<T>, Stop>
    ensures { Gives (times count T.reader) cursor.old.rest.now cursor.new.rest.now result }
{
    let mut items = Vec::new(alloc);
    match read_items(alloc, count, cursor, &mut items) {
        Ok(()) => Ok(Sequence::from_vec(items)),
        Err(stop) => Err(stop),
    }
}

/// Reads a list of at most so many elements. Memory is taken as they come, whatever the count says.
pub(crate) fn read_list<T: Part>(
    alloc: Global,
    most: u32,
    cursor: &mut Cursor<'_>,
) -> Result<Sequence<T>, Stop>
    ensures { Gives (list_at most T.reader) cursor.old.rest.now cursor.new.rest.now result }
{
    let count = cursor.u32(most)?;
    read_times(alloc, count, cursor)
}

fn put_each<T: Part>(items: &[T], out: &mut Text) -> Result<(), Unwritten>
    ensures { Puts (flat_map T.fields items.now) out.old out.new result }
{
    for item in items {
        item.put(out)?;
    }
    Ok(())
}

/// Writes at most so many elements.
#[tactic(auto, using(crate::proofs::Puts::list_steps))]
pub(crate) fn put_slice<T: Part>(most: u32, items: &[T], out: &mut Text) -> Result<(), Unwritten>
    ensures { Puts (list_fields most T.fields items.now) out.old out.new result }
{
    put_count(out, most, items.len())?;
    put_each(items, out)
}

/// Writes a list of at most so many elements.
pub(crate) fn put_list<T: Part>(
    most: u32,
    items: &Sequence<T>,
    out: &mut Text,
) -> Result<(), Unwritten>
    ensures { Puts (list_fields most T.fields items.now) out.old out.new result }
{
    put_slice(most, items.as_slice(), out)
}

/// Reads 0, or 1 and a value.
pub(crate) fn read_option<T: Part>(
    alloc: Global,
    cursor: &mut Cursor<'_>,
) -> Result<Option<T>, Stop>
    ensures { Gives (option_at T.reader) cursor.old.rest.now cursor.new.rest.now result }
{
    let byte = cursor.byte(0, 1)?;
    if byte == 0 {
        return Ok(None);
    }
    read_some(alloc, cursor)
}

fn read_some<T: Part>(alloc: Global, cursor: &mut Cursor<'_>) -> Result<Option<T>, Stop>
    ensures { Gives (read1 Some T.reader) cursor.old.rest.now cursor.new.rest.now result }
{
    let value = T::read(alloc, cursor)?;
    Ok(Some(value))
}

/// Writes 0, or 1 and a value.
#[tactic(auto, using(crate::proofs::Puts::list_steps))]
pub(crate) fn put_option<T: Part>(value: &Option<T>, out: &mut Text) -> Result<(), Unwritten>
    ensures { Puts (option_fields T.fields value.now) out.old out.new result }
{
    match value {
        None => put_byte(out, 0, 1, 0),
        Some(value) => {
            put_byte(out, 0, 1, 1)?;
            value.put(out)
        }
    }
}
