//! The routes that look at the desk, and the refusals of requests.
//!
//! GET /timeline looks at the items where they lie.
ghost use Rattle.std.specs.Prelude.{◌≡◌, List, ℕ, IfOk, IsTrue, Some, unwrap_or};
ghost use Rattle.serde_json.specs.Written.{compact_text};
ghost use Rattle.console_replies.specs.Bodies.{body_data, error_data};
ghost use Rattle.console_replies.specs.Reply.{is_status};
ghost use Rattle.console_replies.specs.Timeline.{timeline_data};
ghost use Rattle.verb_core.specs.Boxes.{box_of, row_at};
ghost use Rattle.mail_desk.specs.Counting.{page};
ghost use Rattle.repair_desk.specs.Repairs.{position};
ghost use Rattle.time_desk.specs.Replaying.{plan_reads};
ghost use Rattle.desk_journal.specs.Reading.{IsStill};
ghost use Rattle.desk_journal.specs.Stored.{is_recorded};
ghost use Rattle.console_session.specs.Answers.{answer, body_answer, body_at, body_found, box_answer, conf_answer, counted_as, is_text_recorded, not_found, plan_answer, refused, status_answer, text_answer, timeline_answer};
ghost use Rattle.console_session.specs.Hearing.{Tells, TellsFound, TellsRead, TellsReadFault};
ghost use Rattle.console_session.specs.declared.reply.After.TheVariants as after;
ghost use Rattle.store_kept.specs.Texts.{has_text_kept, text_kept};

use crate::cycle::tell_fault;
use crate::reply::{After, Reply, run_out_of_memory, tell, tell_plainly, tell_unread};
use console_http::HttpRefused;
use console_replies::{
    ErrorWord, StatusCounts, body_json, box_json, conf_json, error_json, status_json, timeline_json,
};
use seal_log::ReadFault;
use std::alloc::Global;
use time_desk::Desk;
use undo_base::{Name, NoMemory, Text, User};
use undo_outside::Disk;
use verb_core::Body;

/// The counts in the console's words.
fn counted(counts: mail_desk::Counts) -> StatusCounts
    ensures { result ≡ counted_as counts }
{
    StatusCounts {
        cycles: counts.cycles,
        items: counts.items,
        messages: counts.messages,
        next: counts.next,
        notices: counts.notices,
        users: counts.users,
    }
}

/// GET /status.
pub fn tell_status<D: Disk>(alloc: Global, desk: &Desk<D>) -> Reply
    ensures { Tells (status_answer desk.now.kept) after.Closes result }
{
    let body = status_json(alloc, counted(desk.counts()));
    tell(alloc, 200, body, After::Closes)
}

/// The items from a place on.
fn timeline_text<D: Disk>(alloc: Global, desk: &Desk<D>, start: u32) -> Result<Text, NoMemory>
    ensures { IfOk result (λ text. text ≡ compact_text (timeline_data desk.now.kept.house (page desk.now.kept.timeline start))) }
{
    timeline_json(alloc, desk.house(), desk.items(start))
}

/// GET /timeline.
pub fn tell_timeline<D: Disk>(alloc: Global, desk: &Desk<D>, start: u32) -> Reply
    ensures { Tells (timeline_answer desk.now.kept start) after.Closes result }
{
    tell(alloc, 200, timeline_text(alloc, desk, start), After::Closes)
}

/// A route that names nothing.
fn tell_none(alloc: Global) -> Reply
    ensures { Tells not_found after.Closes result }
{
    tell(
        alloc,
        404,
        error_json(alloc, ErrorWord::Route),
        After::Closes,
    )
}

/// The stamp of a mailbox. Each that is there has one.
fn stamp<D: Disk>(desk: &Desk<D>, user: User, name: &Name) -> u32
    ensures { result ≡ unwrap_or (row_at (box_of user name.now) desk.now.kept.stamps) 0 }
{
    desk.stamp(user, name).unwrap_or(0)
}

/// GET /box.
pub fn tell_box<D: Disk>(alloc: Global, desk: &Desk<D>, user: User, name: &Name) -> Reply
    ensures { Tells (box_answer desk.now.kept user name.now) after.Closes result }
{
    match desk.store().mailbox(user, name) {
        Some(mailbox) => {
            let body = box_json(alloc, mailbox, stamp(desk, user, name));
            tell(alloc, 200, body, After::Closes)
        }
        None => tell_none(alloc),
    }
}

/// A text that was found, or that there is none.
fn tell_found(alloc: Global, found: Option<Text>, rev: u32) -> Reply
    ensures { Tells (text_answer found rev) after.Closes result }
{
    match found {
        Some(text) => {
            let body = body_json(alloc, text.bytes(), rev);
            tell(alloc, 200, body, After::Closes)
        }
        None => tell_none(alloc),
    }
}

/// Why a text was not read.
fn tell_unfound(alloc: Global, fault: ReadFault) -> Reply
    ensures { TellsReadFault fault result }
{
    match fault {
        ReadFault::Disk => tell_unread(alloc),
        ReadFault::NoMemory => run_out_of_memory(alloc),
    }
}

/// The text of a body.
fn tell_text<D: Disk>(alloc: Global, desk: &mut Desk<D>, body: Body) -> Reply
    requires { IsTrue (has_text_kept desk.old.kept body) }
    ensures told { (text : List ℕ) → text_kept desk.old.kept body ≡ Some text → TellsRead D.told (is_recorded desk.old.kept desk.old.kept.timeline body) (answer 200 (body_data text body.rev)) desk.old desk.new result }
    ensures still { IsStill D.told desk.old desk.new }
{
    match desk.body(alloc, body) {
        Ok(found) => tell_found(alloc, found, body.rev),
        Err(fault) => tell_unfound(alloc, fault),
    }
}

/// The body of an item's own text.
fn body_of(number: u32, rev: u32) -> Body
    ensures { result ≡ body_at number rev }
{
    Body {
        origin: number,
        rev,
    }
}

/// GET /body. The text is read where a record has it; the desk stays as it was.
pub fn tell_body<D: Disk>(alloc: Global, desk: &mut Desk<D>, number: u32) -> Reply
    ensures told { TellsFound D.told (is_text_recorded desk.old.kept number) (body_found desk.old.kept.timeline number) (body_answer desk.old.kept number) desk.old desk.new result }
    ensures still { IsStill D.told desk.old desk.new }
{
    match desk.rev(number) {
        Some(rev) => tell_text(alloc, desk, body_of(number, rev)),
        None => tell_none(alloc),
    }
}

/// GET /conf.
pub fn tell_conf<D: Disk>(alloc: Global, desk: &Desk<D>) -> Reply
    ensures { Tells (conf_answer desk.now.kept) after.Closes result }
{
    let body = conf_json(alloc, desk.house(), desk.conf());
    tell(alloc, 200, body, After::Closes)
}

/// GET /plan. Texts are read; the desk stays as it was.
pub fn tell_plan<D: Disk>(alloc: Global, desk: &mut Desk<D>, point: u32) -> Reply
    ensures told { TellsFound D.told (plan_reads desk.old.kept point) (position desk.old.kept.timeline point) (plan_answer desk.old.kept point) desk.old desk.new result }
    ensures still { IsStill D.told desk.old desk.new }
{
    match desk.plan_text(alloc, point) {
        Ok(text) => tell_plainly(alloc, text),
        Err(fault) => tell_fault(alloc, fault, false),
    }
}

/// The status of a refusal, and its word.
fn refusal(why: HttpRefused) -> (u16, ErrorWord)
    ensures answered { refused why ≡ answer result.0 (error_data result.1) }
    ensures status { IsTrue (is_status result.0) }
{
    match why {
        HttpRefused::Head => (400, ErrorWord::Head),
        HttpRefused::Size => (413, ErrorWord::Size),
        HttpRefused::Route => (404, ErrorWord::Route),
        HttpRefused::Json => (400, ErrorWord::Json),
        HttpRefused::NoMemory => (503, ErrorWord::Memory),
    }
}

/// A request that is refused.
pub fn tell_refused(alloc: Global, why: HttpRefused) -> Reply
    ensures { Tells (refused why) after.Closes result }
{
    let (status, word) = refusal(why);
    tell(alloc, status, error_json(alloc, word), After::Closes)
}
