//! Filters with their scopes as parts of records.
//!
//! A snapshot of the kind with scopes in which each filter looks at the whole text is refused where its list of filters begins,
//! once the whole list was read. It is that field that is out of its range. A list that is cut or has a bad element is told by
//! that. A scope's byte is a field, and so is a field's name, of 1 to 64 letters, digits, `-` and `_`.
ghost use Rattle.std.specs.Prelude.{◌≡◌, ◌≤◌, ◌+◌, ◌*◌, ◌-◌, ◌∷◌, [], List, Ok, Err, length, vec_capacity, IfErr, OnOk};
ghost use Rattle.std.specs.List.{flat_map};
ghost use Rattle.verb_bytes.specs.Fields.{any_list_fields};
ghost use Rattle.verb_bytes.specs.Readers.{Gives, nth_case, times};
ghost use Rattle.verb_bytes.specs.Reading.{any_list_at, filter_of, other_scope_at, other_scopes, scope_at, scoped_at, scoped_filters_at};
ghost use Rattle.verb_bytes.specs.Spelling.{scope_fields, scoped_fields};
ghost use Rattle.verb_bytes.specs.Writing.{Puts};
ghost use Rattle.verb_core.specs.declared.conf.Filter.{Filter};

use crate::cursor::{Cursor, Stop};
use crate::part::{Part, push_read};
use crate::write::{Unwritten, put_byte, put_count, put_field_name};
use std::alloc::Global;
use undo_base::Text;
use verb_core::{Filter, Filters, Scope, are_of_body};

/// Writes what a filter looks at: a byte of at least this, and a field's name.
#[tactic(auto, using(crate::proofs::Puts::list_steps))]
fn put_scope(least: u8, scope: &Scope, out: &mut Text) -> Result<(), Unwritten>
    ensures { Puts (scope_fields least scope.now) out.old out.new result }
{
    match scope {
        Scope::Body => put_byte(out, least, 3, 0),
        Scope::Field(name) => {
            put_byte(out, least, 3, 1)?;
            put_field_name(out, name)
        }
        Scope::Sender => put_byte(out, least, 3, 2),
        Scope::Recipient => put_byte(out, least, 3, 3),
    }
}

/// Writes a filter with its scope behind it.
#[tactic(auto, using(crate::proofs::Puts::list_steps))]
pub(crate) fn put_scoped(least: u8, filter: &Filter, out: &mut Text) -> Result<(), Unwritten>
    ensures { Puts (scoped_fields least filter.now) out.old out.new result }
{
    filter.put(out)?;
    put_scope(least, &filter.scope, out)
}

fn put_each_scoped(filters: &[Filter], out: &mut Text) -> Result<(), Unwritten>
    ensures { Puts (flat_map (scoped_fields 0) filters.now) out.old out.new result }
{
    for filter in filters {
        put_scoped(0, filter, out)?;
    }
    Ok(())
}

/// Writes filters with their scopes.
#[tactic(auto, using(crate::proofs::Puts::list_steps))]
pub(crate) fn put_scoped_filters(filters: &Filters, out: &mut Text) -> Result<(), Unwritten>
    ensures { Puts (any_list_fields (scoped_fields 0) filters.now) out.old out.new result }
{
    put_count(out, u32::MAX, filters.len())?;
    put_each_scoped(filters.as_slice(), out)
}

/// Reads the scope that this many scopes but the whole text stand before.
fn read_other_scope(alloc: Global, place: u8, cursor: &mut Cursor<'_>) -> Result<Scope, Stop>
    requires { place ≤ 2 }
    ensures { Gives (nth_case place other_scopes) cursor.old.rest.now cursor.new.rest.now result }
{
    match place {
        0 => {
            let name = cursor.field_name(alloc)?;
            Ok(Scope::Field(name))
        }
        1 => Ok(Scope::Sender),
        _ => Ok(Scope::Recipient),
    }
}

fn read_scope(alloc: Global, cursor: &mut Cursor<'_>) -> Result<Scope, Stop>
    ensures { Gives scope_at cursor.old.rest.now cursor.new.rest.now result }
{
    let kind = cursor.byte(0, 3)?;
    if kind == 0 {
        return Ok(Scope::Body);
    }
    read_other_scope(alloc, kind - 1, cursor)
}

fn read_scope_but_body(alloc: Global, cursor: &mut Cursor<'_>) -> Result<Scope, Stop>
    ensures { Gives other_scope_at cursor.old.rest.now cursor.new.rest.now result }
{
    let kind = cursor.byte(1, 3)?;
    read_other_scope(alloc, kind - 1, cursor)
}

fn with_scope(filter: Filter, scope: Scope) -> Filter
    ensures { result ≡ filter_of filter.id filter.needle filter.file scope }
{
    Filter {
        id: filter.id,
        needle: filter.needle,
        file: filter.file,
        scope,
    }
}

/// Reads a filter of another scope than the whole text.
pub(crate) fn read_scoped_but_body(alloc: Global, cursor: &mut Cursor<'_>) -> Result<Filter, Stop>
    ensures { Gives (scoped_at other_scope_at) cursor.old.rest.now cursor.new.rest.now result }
{
    let filter = Filter::read(alloc, cursor)?;
    let scope = read_scope_but_body(alloc, cursor)?;
    Ok(with_scope(filter, scope))
}

fn read_scoped(alloc: Global, cursor: &mut Cursor<'_>) -> Result<Filter, Stop>
    ensures { Gives (scoped_at scope_at) cursor.old.rest.now cursor.new.rest.now result }
{
    let filter = Filter::read(alloc, cursor)?;
    let scope = read_scope(alloc, cursor)?;
    Ok(with_scope(filter, scope))
}

/// Reads so many filters. Memory is taken as they come, for as many again as came and four, whatever their count says.
fn read_each_scoped(
    alloc: Global,
    count: u32,
    cursor: &mut Cursor<'_>,
    filters: &mut Vec<Filter>,
) -> Result<(), Stop>
    requires none { filters.old.items ≡ [] }
    requires room { vec_capacity filters.old ≤ 4 }
    ensures ok { OnOk result (times count (scoped_at scope_at) cursor.old.rest.now ≡ Ok (filters.new.items, cursor.new.rest.now)) }
    ensures err { IfErr result (λ stop. Gives {A = List Filter} (times count (scoped_at scope_at)) cursor.old.rest.now cursor.new.rest.now (Err stop)) }
    ensures room { vec_capacity filters.new ≤ 2 * length filters.new.items + 4 }
{
    for _ in 0..count {
        let filter = read_scoped(alloc, cursor)?;
        push_read(filters, filter)?;
    }
    Ok(())
}

fn read_scoped_times(alloc: Global, count: u32, cursor: &mut Cursor<'_>) -> Result<Filters, Stop>
    ensures { Gives (times count (scoped_at scope_at)) cursor.old.rest.now cursor.new.rest.now result }
{
    let mut filters = Vec::new(alloc);
    match read_each_scoped(alloc, count, cursor, &mut filters) {
        Ok(()) => Ok(Filters::from_vec(filters)),
        Err(stop) => Err(stop),
    }
}

/// Reads filters with any scopes.
pub(crate) fn read_scoped_list(alloc: Global, cursor: &mut Cursor<'_>) -> Result<Filters, Stop>
    ensures { Gives (any_list_at (scoped_at scope_at)) cursor.old.rest.now cursor.new.rest.now result }
{
    let count = cursor.u32(u32::MAX)?;
    read_scoped_times(alloc, count, cursor)
}

/// Reads filters of which some looks at less than the whole text. Where none does, they are refused where their list begins.
pub(crate) fn read_scoped_filters(alloc: Global, cursor: &mut Cursor<'_>) -> Result<Filters, Stop>
    ensures { Gives scoped_filters_at cursor.old.rest.now cursor.new.rest.now result }
{
    let left = cursor.rest.len();
    let filters = read_scoped_list(alloc, cursor)?;
    if are_of_body(filters.as_slice()) {
        drop(filters);
        return Err(Stop::At { left });
    }
    Ok(filters)
}
