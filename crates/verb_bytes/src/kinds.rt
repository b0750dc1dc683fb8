//! What follows in a record: one byte tells the kind of record, one the act, one the deed. A new kind moves its last.
//!
//! The definitions cite limits and the last kind, act and deed by the constants of the code, so that each stands once. A
//! constant's value is then part of the definition. The last kind, act and deed are also tied to the rows, of which there are as
//! many.
ghost use Rattle.std.specs.Prelude.{◌≤◌, IfOk};
ghost use Rattle.verb_bytes.specs.Fields.{act_kind, deed_kind_to, record_kind};
ghost use Rattle.verb_bytes.specs.Readers.{Gives, act_kind_at, deed_kind_at, record_kind_at};
ghost use Rattle.verb_bytes.specs.Writing.{Puts};

use crate::cursor::{Cursor, Stop};
use crate::write::{Unwritten, put_byte};
use undo_base::Text;

/// The last kind of record. The first is 0.
pub(crate) const LAST_RECORD: u8 = 10;

/// The last act of the operator. The first is 1.
pub(crate) const LAST_ACT: u8 = 7;

/// The last deed of a user. The first is 1.
pub(crate) const LAST_DEED: u8 = 13;

/// The last deed of an item that is kept: the acts of the operator and the notices stand behind those of users.
pub(crate) const LAST_KEPT_DEED: u8 = 15;

/// The last reason in a report. The first is 0.
pub(crate) const LAST_REASON: u8 = 8;

/// The last kind of what is shown. The first is 0.
pub(crate) const LAST_SHOWN: u8 = 9;

pub(crate) fn put_record_kind(out: &mut Text, kind: u8) -> Result<(), Unwritten>
    ensures { Puts (record_kind kind) out.old out.new result }
{
    put_byte(out, 0, LAST_RECORD, kind)
}

pub(crate) fn read_record_kind(cursor: &mut Cursor<'_>) -> Result<u8, Stop>
    ensures gives { Gives record_kind_at cursor.old.rest.now cursor.new.rest.now result }
    ensures last { IfOk result (λ kind. kind ≤ LAST_RECORD) }
{
    cursor.byte(0, LAST_RECORD)
}

pub(crate) fn put_act_kind(out: &mut Text, kind: u8) -> Result<(), Unwritten>
    ensures { Puts (act_kind kind) out.old out.new result }
{
    put_byte(out, 1, LAST_ACT, kind)
}

pub(crate) fn read_act_kind(cursor: &mut Cursor<'_>) -> Result<u8, Stop>
    ensures gives { Gives act_kind_at cursor.old.rest.now cursor.new.rest.now result }
    ensures first { IfOk result (λ kind. 1 ≤ kind) }
    ensures last { IfOk result (λ kind. kind ≤ LAST_ACT) }
{
    cursor.byte(1, LAST_ACT)
}

/// The kind of a deed, of which this is the last.
pub(crate) fn put_deed_kind(out: &mut Text, last: u8, kind: u8) -> Result<(), Unwritten>
    ensures { Puts (deed_kind_to last kind) out.old out.new result }
{
    put_byte(out, 1, last, kind)
}

pub(crate) fn read_deed_kind(cursor: &mut Cursor<'_>, last: u8) -> Result<u8, Stop>
    ensures gives { Gives (deed_kind_at last) cursor.old.rest.now cursor.new.rest.now result }
    ensures first { IfOk result (λ kind. 1 ≤ kind) }
    ensures last { IfOk result (λ kind. kind ≤ last) }
{
    cursor.byte(1, last)
}
