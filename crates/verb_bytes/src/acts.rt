//! The operator's acts as parts of records.
ghost use Rattle.std.specs.Prelude.{◌≤◌, ◌-◌};
ghost use Rattle.verb_core.specs.declared.item.Act.TheVariants.{SetAlias, DropAlias, SetFilter, DropFilter, Remove, Give};
ghost use Rattle.verb_bytes.specs.Readers.{Gives, nth_case, read1, read2, read3, name_at, text_at, user_at, key_at};
ghost use Rattle.verb_bytes.specs.Reading.{act_cases, any_list_at, filter_at, scoped_at, other_scope_at, act_within_at};
ghost use Rattle.verb_bytes.specs.Spelling.{act_fields, act_fields_within};
ghost use Rattle.verb_bytes.specs.Writing.{Puts};

use crate::cursor::{Cursor, Stop};
use crate::kinds::{LAST_ACT, put_act_kind, read_act_kind};
use crate::part::{Part, put_list, read_list};
use crate::scopes::{put_scoped, read_scoped_but_body};
use crate::write::{MOST_BODY, Unwritten, put_key, put_name, put_text, put_user};
use std::alloc::Global;
use undo_base::Text;
use verb_core::{Act, Filter};

impl Part for Act {
    ghost use Rattle.verb_bytes.specs.Spelling.{act_fields};
    ghost use Rattle.verb_bytes.specs.Reading.{act_at};

    ghost fields = { act_fields };

    ghost reader = { act_at };

    fn put(&self, out: &mut Text) -> Result<(), Unwritten> {
        put_act(MOST_BODY, self, out)
    }

    fn read(alloc: Global, cursor: &mut Cursor<'_>) -> Result<Act, Stop> {
        read_act(alloc, MOST_BODY, cursor)
    }
}

/// Writes an act, whose message has a text of at most so many bytes.
#[tactic(auto, using(crate::proofs::Puts::list_steps))]
pub(crate) fn put_act(most: u32, act: &Act, out: &mut Text) -> Result<(), Unwritten>
    ensures { Puts (act_fields_within most act.now) out.old out.new result }
{
    match act {
        Act::SetAlias { local, users } => {
            put_act_kind(out, 1)?;
            put_name(out, local)?;
            put_list(u32::MAX, users, out)
        }
        Act::DropAlias { local } => {
            put_act_kind(out, 2)?;
            put_name(out, local)
        }
        Act::SetFilter(filter) => put_set_filter(filter, out),
        Act::DropFilter { id } => {
            put_act_kind(out, 4)?;
            put_name(out, id)
        }
        Act::Remove { user, mailbox, key } => {
            put_act_kind(out, 5)?;
            put_user(out, *user)?;
            put_name(out, mailbox)?;
            put_key(out, *key)
        }
        Act::Give {
            user,
            mailbox,
            text,
        } => {
            put_act_kind(out, 6)?;
            put_user(out, *user)?;
            put_name(out, mailbox)?;
            put_text(out, most, text)
        }
    }
}

/// Reads an act, whose message has a text of at most so many bytes.
pub(crate) fn read_act(alloc: Global, most: u32, cursor: &mut Cursor<'_>) -> Result<Act, Stop>
    ensures { Gives (act_within_at most) cursor.old.rest.now cursor.new.rest.now result }
{
    let kind = read_act_kind(cursor)?;
    read_case(alloc, most, kind, cursor)
}

/// A filter of the whole text is one act, and one of another scope is another.
#[tactic(auto, using(crate::proofs::Puts::list_steps))]
fn put_set_filter(filter: &Filter, out: &mut Text) -> Result<(), Unwritten>
    ensures { Puts (act_fields (SetFilter filter.now)) out.old out.new result }
{
    if filter.scope.is_of_body() {
        put_act_kind(out, 3)?;
        filter.put(out)
    } else {
        put_act_kind(out, 7)?;
        put_scoped(1, filter, out)
    }
}

fn read_case(alloc: Global, most: u32, kind: u8, cursor: &mut Cursor<'_>) -> Result<Act, Stop>
    requires first { 1 ≤ kind }
    requires last { kind ≤ LAST_ACT }
    ensures { Gives (nth_case (kind - 1) (act_cases most)) cursor.old.rest.now cursor.new.rest.now result }
{
    match kind {
        1 => read_set_alias(alloc, cursor),
        2 => read_drop_alias(alloc, cursor),
        3 => read_set_filter(alloc, cursor),
        4 => read_drop_filter(alloc, cursor),
        5 => read_remove(alloc, cursor),
        6 => read_give(alloc, most, cursor),
        _ => read_set_scoped(alloc, cursor),
    }
}

fn read_set_alias(alloc: Global, cursor: &mut Cursor<'_>) -> Result<Act, Stop>
    ensures { Gives (read2 SetAlias name_at (any_list_at user_at)) cursor.old.rest.now cursor.new.rest.now result }
{
    let local = cursor.name(alloc)?;
    let users = read_list(alloc, u32::MAX, cursor)?;
    Ok(Act::SetAlias { local, users })
}

fn read_drop_alias(alloc: Global, cursor: &mut Cursor<'_>) -> Result<Act, Stop>
    ensures { Gives (read1 DropAlias name_at) cursor.old.rest.now cursor.new.rest.now result }
{
    let local = cursor.name(alloc)?;
    Ok(Act::DropAlias { local })
}

fn read_set_filter(alloc: Global, cursor: &mut Cursor<'_>) -> Result<Act, Stop>
    ensures { Gives (read1 SetFilter filter_at) cursor.old.rest.now cursor.new.rest.now result }
{
    let filter = Filter::read(alloc, cursor)?;
    Ok(Act::SetFilter(filter))
}

fn read_set_scoped(alloc: Global, cursor: &mut Cursor<'_>) -> Result<Act, Stop>
    ensures { Gives (read1 SetFilter (scoped_at other_scope_at)) cursor.old.rest.now cursor.new.rest.now result }
{
    let filter = read_scoped_but_body(alloc, cursor)?;
    Ok(Act::SetFilter(filter))
}

fn read_drop_filter(alloc: Global, cursor: &mut Cursor<'_>) -> Result<Act, Stop>
    ensures { Gives (read1 DropFilter name_at) cursor.old.rest.now cursor.new.rest.now result }
{
    let id = cursor.name(alloc)?;
    Ok(Act::DropFilter { id })
}

fn read_remove(alloc: Global, cursor: &mut Cursor<'_>) -> Result<Act, Stop>
    ensures { Gives (read3 Remove user_at name_at key_at) cursor.old.rest.now cursor.new.rest.now result }
{
    let user = cursor.user()?;
    let mailbox = cursor.name(alloc)?;
    let key = cursor.key()?;
    Ok(Act::Remove { user, mailbox, key })
}

fn read_give(alloc: Global, most: u32, cursor: &mut Cursor<'_>) -> Result<Act, Stop>
    ensures { Gives (read3 Give user_at name_at (text_at most)) cursor.old.rest.now cursor.new.rest.now result }
{
    let user = cursor.user()?;
    let mailbox = cursor.name(alloc)?;
    let text = cursor.text(alloc, most)?;
    Ok(Act::Give {
        user,
        mailbox,
        text,
    })
}
