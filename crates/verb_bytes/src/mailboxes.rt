//! Mailboxes as parts of records.
//!
//! Order is no range: that aliases, users of an alias and mailboxes rise is not asked here. Mailboxes that do not rise make no
//! store, and are refused there.
ghost use Rattle.verb_bytes.specs.Fields.{list_fields};
ghost use Rattle.verb_bytes.specs.Reading.{entry_at};
ghost use Rattle.verb_bytes.specs.Readers.{Gives, list_at};
ghost use Rattle.verb_bytes.specs.Spelling.{entry_fields};
ghost use Rattle.verb_bytes.specs.Writing.{Puts};

use crate::cursor::{Cursor, Stop};
use crate::part::{Part, put_slice, read_list};
use crate::write::{Unwritten, put_flags, put_key, put_name, put_u32, put_u64, put_user};
use std::alloc::Global;
use undo_base::{LAST_MOMENT, Text};
use verb_core::{Body, BoxId, Entries, Entry, EntryList, Mailbox};

impl Part for Entry {
    ghost use Rattle.verb_bytes.specs.Spelling.{entry_fields};
    ghost use Rattle.verb_bytes.specs.Reading.{entry_at};

    ghost fields = { entry_fields };

    ghost reader = { entry_at };

    #[tactic(auto, using(crate::proofs::Puts::list_steps))]
    fn put(&self, out: &mut Text) -> Result<(), Unwritten> {
        put_u64(out, u64::MAX, self.uid)?;
        put_key(out, self.key)?;
        put_u32(out, u32::MAX, self.body.origin)?;
        put_u32(out, u32::MAX, self.body.rev)?;
        put_flags(out, self.flags)?;
        put_u64(out, LAST_MOMENT, self.at)
    }

    fn read(_alloc: Global, cursor: &mut Cursor<'_>) -> Result<Entry, Stop> {
        let uid = cursor.u64(u64::MAX)?;
        let key = cursor.key()?;
        let origin = cursor.u32(u32::MAX)?;
        let rev = cursor.u32(u32::MAX)?;
        let flags = cursor.flags()?;
        let at = cursor.u64(LAST_MOMENT)?;
        Ok(Entry {
            uid,
            key,
            body: Body { origin, rev },
            flags,
            at,
        })
    }
}

/// Writes the entries of a mailbox.
fn put_mail(mail: &Entries, out: &mut Text) -> Result<(), Unwritten>
    ensures { Puts (list_fields u32.MAX entry_fields mail.now) out.old out.new result }
{
    put_slice(u32::MAX, mail.as_slice(), out)
}

/// Reads the entries of a mailbox.
fn read_mail(alloc: Global, cursor: &mut Cursor<'_>) -> Result<Entries, Stop>
    ensures { Gives (list_at u32.MAX entry_at) cursor.old.rest.now cursor.new.rest.now result }
{
    match read_list(alloc, u32::MAX, cursor) {
        Ok(entries) => Ok(Entries::from_vec(EntryList::into_vec(entries))),
        Err(stop) => Err(stop),
    }
}

impl Part for (BoxId, Mailbox) {
    ghost use Rattle.verb_bytes.specs.Spelling.{row_fields};
    ghost use Rattle.verb_bytes.specs.Reading.{row_at};

    ghost fields = { row_fields };

    ghost reader = { row_at };

    #[tactic(auto, using(crate::proofs::Puts::list_steps))]
    fn put(&self, out: &mut Text) -> Result<(), Unwritten> {
        put_user(out, self.0.user)?;
        put_name(out, &self.0.name)?;
        put_u64(out, u64::MAX, self.1.next)?;
        put_mail(&self.1.entries, out)
    }

    fn read(alloc: Global, cursor: &mut Cursor<'_>) -> Result<(BoxId, Mailbox), Stop> {
        let user = cursor.user()?;
        let name = cursor.name(alloc)?;
        let next = cursor.u64(u64::MAX)?;
        let entries = read_mail(alloc, cursor)?;
        Ok((BoxId { user, name }, Mailbox { next, entries }))
    }
}
