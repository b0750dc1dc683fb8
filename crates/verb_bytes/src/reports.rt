//! What cycles reported, and the stamps of mailboxes, as parts of records.
//!
//! The order of a base's stamps and reports is no range: where these do not rise the base cannot stand, and opening tells its
//! gate, as for a spelling that is refused. Only what `decode_record` answers differs.
//!
//! The key of a report in a base is a name of 1 to 200 bytes, as in the records of cycles and withdrawals. At most 64 is a rule
//! of the console's requests; a journal in which a longer key stands opens, and so can be cut.
//!
//! The verb of an item that is told of is the byte of its deed, 1 to 13. Acts and notices, 14 and 15 in the record of an item
//! that is kept, are told of by no report.
ghost use Rattle.std.specs.Prelude.{◌≤◌, ◌-◌};
ghost use Rattle.verb_bytes.specs.Readers.{Gives, nth_case};
ghost use Rattle.verb_bytes.specs.Reading.{reason_at, reason_cases, verb_at, verb_cases};
ghost use Rattle.verb_bytes.specs.Spelling.{reason_field, verb_field};
ghost use Rattle.verb_bytes.specs.Writing.{Puts};

use crate::cursor::{Cursor, Stop};
use crate::kinds::{LAST_DEED, LAST_REASON, put_deed_kind, read_deed_kind};
use crate::part::{Part, put_list, put_option, read_list, read_option};
use crate::write::{Unwritten, put_byte, put_name, put_u32, put_user};
use paradox::{BrokenItem, Reason, Report, Verb};
use std::alloc::Global;
use undo_base::{Name, Text};
use verb_core::BoxId;

/// Writes a verb.
fn put_verb(out: &mut Text, verb: Verb) -> Result<(), Unwritten>
    ensures { Puts (verb_field verb) out.old out.new result }
{
    match verb {
        Verb::Deliver => put_deed_kind(out, LAST_DEED, 1),
        Verb::Append => put_deed_kind(out, LAST_DEED, 2),
        Verb::Fetch => put_deed_kind(out, LAST_DEED, 3),
        Verb::Store => put_deed_kind(out, LAST_DEED, 4),
        Verb::Copy => put_deed_kind(out, LAST_DEED, 5),
        Verb::List => put_deed_kind(out, LAST_DEED, 6),
        Verb::Status => put_deed_kind(out, LAST_DEED, 7),
        Verb::Select => put_deed_kind(out, LAST_DEED, 8),
        Verb::Expunge => put_deed_kind(out, LAST_DEED, 9),
        Verb::Close => put_deed_kind(out, LAST_DEED, 10),
        Verb::Create => put_deed_kind(out, LAST_DEED, 11),
        Verb::Rename => put_deed_kind(out, LAST_DEED, 12),
        Verb::Delete => put_deed_kind(out, LAST_DEED, 13),
    }
}

/// The verb of a kind of deed, which no byte follows.
fn verb_of(kind: u8, cursor: &mut Cursor<'_>) -> Result<Verb, Stop>
    requires first { 1 ≤ kind }
    requires last { kind ≤ LAST_DEED }
    ensures { Gives (nth_case (kind - 1) verb_cases) cursor.old.rest.now cursor.new.rest.now result }
{
    match kind {
        1 => Ok(Verb::Deliver),
        2 => Ok(Verb::Append),
        3 => Ok(Verb::Fetch),
        4 => Ok(Verb::Store),
        5 => Ok(Verb::Copy),
        6 => Ok(Verb::List),
        7 => Ok(Verb::Status),
        8 => Ok(Verb::Select),
        9 => Ok(Verb::Expunge),
        10 => Ok(Verb::Close),
        11 => Ok(Verb::Create),
        12 => Ok(Verb::Rename),
        _ => Ok(Verb::Delete),
    }
}

fn read_verb(cursor: &mut Cursor<'_>) -> Result<Verb, Stop>
    ensures { Gives verb_at cursor.old.rest.now cursor.new.rest.now result }
{
    let kind = read_deed_kind(cursor, LAST_DEED)?;
    verb_of(kind, cursor)
}

/// Writes a reason.
fn put_reason(out: &mut Text, reason: Reason) -> Result<(), Unwritten>
    ensures { Puts (reason_field reason) out.old out.new result }
{
    match reason {
        Reason::Missing => put_byte(out, 0, LAST_REASON, 0),
        Reason::Changed => put_byte(out, 0, LAST_REASON, 1),
        Reason::NoName => put_byte(out, 0, LAST_REASON, 2),
        Reason::Fewer => put_byte(out, 0, LAST_REASON, 3),
        Reason::Redirected => put_byte(out, 0, LAST_REASON, 4),
        Reason::Left => put_byte(out, 0, LAST_REASON, 5),
        Reason::Renamed => put_byte(out, 0, LAST_REASON, 6),
        Reason::Moved => put_byte(out, 0, LAST_REASON, 7),
        Reason::Withdrawn => put_byte(out, 0, LAST_REASON, 8),
    }
}

/// The reason of a byte, which no other follows.
fn reason_of(byte: u8, cursor: &mut Cursor<'_>) -> Result<Reason, Stop>
    requires { byte ≤ LAST_REASON }
    ensures { Gives (nth_case (byte - 0) reason_cases) cursor.old.rest.now cursor.new.rest.now result }
{
    match byte {
        0 => Ok(Reason::Missing),
        1 => Ok(Reason::Changed),
        2 => Ok(Reason::NoName),
        3 => Ok(Reason::Fewer),
        4 => Ok(Reason::Redirected),
        5 => Ok(Reason::Left),
        6 => Ok(Reason::Renamed),
        7 => Ok(Reason::Moved),
        _ => Ok(Reason::Withdrawn),
    }
}

fn read_reason(cursor: &mut Cursor<'_>) -> Result<Reason, Stop>
    ensures { Gives reason_at cursor.old.rest.now cursor.new.rest.now result }
{
    let byte = cursor.byte(0, LAST_REASON)?;
    reason_of(byte, cursor)
}

impl Part for BrokenItem {
    ghost use Rattle.verb_bytes.specs.Spelling.{broken_fields};
    ghost use Rattle.verb_bytes.specs.Reading.{broken_at};

    ghost fields = { broken_fields };

    ghost reader = { broken_at };

    #[tactic(auto, using(crate::proofs::Puts::list_steps))]
    fn put(&self, out: &mut Text) -> Result<(), Unwritten> {
        put_u32(out, u32::MAX, self.number)?;
        put_user(out, self.user)?;
        put_verb(out, self.verb)?;
        put_option(&self.mailbox, out)?;
        put_reason(out, self.reason)
    }

    fn read(alloc: Global, cursor: &mut Cursor<'_>) -> Result<BrokenItem, Stop> {
        let number = cursor.u32(u32::MAX)?;
        let user = cursor.user()?;
        let verb = read_verb(cursor)?;
        let mailbox = read_option(alloc, cursor)?;
        let reason = read_reason(cursor)?;
        Ok(BrokenItem {
            number,
            user,
            verb,
            mailbox,
            reason,
        })
    }
}

impl Part for (BoxId, u32) {
    ghost use Rattle.verb_bytes.specs.Spelling.{stamp_fields};
    ghost use Rattle.verb_bytes.specs.Reading.{stamp_at};

    ghost fields = { stamp_fields };

    ghost reader = { stamp_at };

    #[tactic(auto, using(crate::proofs::Puts::list_steps))]
    fn put(&self, out: &mut Text) -> Result<(), Unwritten> {
        put_user(out, self.0.user)?;
        put_name(out, &self.0.name)?;
        put_u32(out, u32::MAX, self.1)
    }

    fn read(alloc: Global, cursor: &mut Cursor<'_>) -> Result<(BoxId, u32), Stop> {
        let user = cursor.user()?;
        let name = cursor.name(alloc)?;
        let stamp = cursor.u32(u32::MAX)?;
        Ok((BoxId { user, name }, stamp))
    }
}

impl Part for Report {
    ghost use Rattle.verb_bytes.specs.Spelling.{report_fields};
    ghost use Rattle.verb_bytes.specs.Reading.{report_at};

    ghost fields = { report_fields };

    ghost reader = { report_at };

    #[tactic(auto, using(crate::proofs::Puts::list_steps))]
    fn put(&self, out: &mut Text) -> Result<(), Unwritten> {
        put_u32(out, u32::MAX, self.cycle)?;
        put_u32(out, u32::MAX, self.point)?;
        put_u32(out, u32::MAX, self.kept)?;
        put_list(u32::MAX, &self.broken, out)?;
        put_list(u32::MAX, &self.notices, out)?;
        put_list(u32::MAX, &self.renewed, out)?;
        put_list(u32::MAX, &self.unmatched, out)
    }

    fn read(alloc: Global, cursor: &mut Cursor<'_>) -> Result<Report, Stop> {
        let cycle = cursor.u32(u32::MAX)?;
        let point = cursor.u32(u32::MAX)?;
        let kept = cursor.u32(u32::MAX)?;
        let broken = read_list(alloc, u32::MAX, cursor)?;
        let notices = read_list(alloc, u32::MAX, cursor)?;
        let renewed = read_list(alloc, u32::MAX, cursor)?;
        let unmatched = read_list(alloc, u32::MAX, cursor)?;
        Ok(Report {
            cycle,
            point,
            kept,
            broken,
            notices,
            renewed,
            unmatched,
        })
    }
}

impl Part for (Name, Report) {
    ghost use Rattle.verb_bytes.specs.Spelling.{keyed_report_fields};
    ghost use Rattle.verb_bytes.specs.Reading.{keyed_report_at};

    ghost fields = { keyed_report_fields };

    ghost reader = { keyed_report_at };

    #[tactic(auto, using(crate::proofs::Puts::list_steps))]
    fn put(&self, out: &mut Text) -> Result<(), Unwritten> {
        put_name(out, &self.0)?;
        self.1.put(out)
    }

    fn read(alloc: Global, cursor: &mut Cursor<'_>) -> Result<(Name, Report), Stop> {
        let key = cursor.name(alloc)?;
        let report = Report::read(alloc, cursor)?;
        Ok((key, report))
    }
}
