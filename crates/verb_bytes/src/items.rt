//! Items as parts of records: a user's, as it is recorded, and any item, as it is kept.
//!
//! Whether a DELIVER has nobody as its actor, and every other deed somebody, is asked when a record is to stand, not here.
ghost use Rattle.verb_bytes.specs.Readers.{Gives, read1};
ghost use Rattle.verb_bytes.specs.Reading.{item_of, kept_at, shown_at};
ghost use Rattle.verb_bytes.specs.Spelling.{kept_fields, shown_kind};
ghost use Rattle.verb_bytes.specs.Writing.{Puts};

use crate::cursor::{Cursor, Stop};
use crate::deeds::{put_deed, read_deed};
use crate::kinds::{LAST_DEED, LAST_KEPT_DEED};
use crate::part::Part;
use crate::shown::{kind_of, put_shown, read_shown};
use crate::write::{MOST_BODY, MOST_LISTED, Unwritten, put_actor, put_condition, put_u32, put_u64};
use std::alloc::Global;
use undo_base::{LAST_MOMENT, Text, User};
use verb_core::{Deed, Item};

impl Part for Item {
    ghost use Rattle.verb_bytes.specs.Spelling.{item_fields};
    ghost use Rattle.verb_bytes.specs.Reading.{item_at};

    ghost fields = { item_fields };

    ghost reader = { item_at };

    #[tactic(auto, using(crate::proofs::Puts::list_steps))]
    fn put(&self, out: &mut Text) -> Result<(), Unwritten> {
        put_u32(out, u32::MAX, self.number)?;
        put_u64(out, LAST_MOMENT, self.at)?;
        put_actor(out, self.by)?;
        put_deed(LAST_DEED, MOST_BODY, &self.deed, out)?;
        put_shown(MOST_LISTED, kind_of(&self.deed), &self.shown, out)?;
        put_condition(out, self.rev == 0)
    }

    fn read(alloc: Global, cursor: &mut Cursor<'_>) -> Result<Item, Stop> {
        let number = cursor.u32(u32::MAX)?;
        let at = cursor.u64(LAST_MOMENT)?;
        let by = cursor.actor()?;
        let deed = read_deed(alloc, LAST_DEED, MOST_BODY, cursor)?;
        read_rest(alloc, MOST_LISTED, number, at, by, 0, deed, cursor)
    }
}

/// Reads what was shown, behind the other fields of an item. At most so many keys are listed.
fn read_rest(
    alloc: Global,
    most: u32,
    number: u32,
    at: u64,
    by: Option<User>,
    rev: u32,
    deed: Deed,
    cursor: &mut Cursor<'_>,
) -> Result<Item, Stop>
    ensures { Gives (read1 (item_of number at by rev deed) (shown_at most (shown_kind deed))) cursor.old.rest.now cursor.new.rest.now result }
{
    match read_shown(alloc, most, kind_of(&deed), cursor) {
        Ok(shown) => Ok(Item {
            number,
            at,
            by,
            rev,
            deed,
            shown,
        }),
        Err(stop) => {
            drop(deed);
            Err(stop)
        }
    }
}

/// Writes an item that is kept, with its rev. It may be an act or a notice.
#[tactic(auto, using(crate::proofs::Puts::list_steps))]
pub(crate) fn put_kept(item: &Item, out: &mut Text) -> Result<(), Unwritten>
    ensures { Puts (kept_fields item.now) out.old out.new result }
{
    put_u32(out, u32::MAX, item.number)?;
    put_u64(out, LAST_MOMENT, item.at)?;
    put_actor(out, item.by)?;
    put_u32(out, u32::MAX, item.rev)?;
    put_deed(LAST_KEPT_DEED, u32::MAX, &item.deed, out)?;
    put_shown(u32::MAX, kind_of(&item.deed), &item.shown, out)
}

/// Reads an item that is kept.
pub(crate) fn read_kept(alloc: Global, cursor: &mut Cursor<'_>) -> Result<Item, Stop>
    ensures { Gives kept_at cursor.old.rest.now cursor.new.rest.now result }
{
    let number = cursor.u32(u32::MAX)?;
    let at = cursor.u64(LAST_MOMENT)?;
    let by = cursor.actor()?;
    let rev = cursor.u32(u32::MAX)?;
    let deed = read_deed(alloc, LAST_KEPT_DEED, u32::MAX, cursor)?;
    read_rest(alloc, u32::MAX, number, at, by, rev, deed, cursor)
}
