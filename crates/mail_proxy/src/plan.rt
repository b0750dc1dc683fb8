//! What is to be answered and written, and the writing of it.
//!
//! A transcript that is left out at status 5 or 7 is taken for want of memory; nothing counts what the allocator refused.
ghost use Rattle.std.specs.Prelude.{◌≡◌, [], IfOk};
ghost use Rattle.base_cut.specs.Writing.{WritesAll, Wrote};
ghost use Rattle.mail_proxy.specs.Lines.{bad_line, damaged, false_record_at, is_nothing, line_text, no_memory};
ghost use Rattle.mail_proxy.specs.Shows.{Shows, first_fault};
ghost use Rattle.mail_proxy.specs.Plans.{output_of, refused_line, refused_status};

use crate::reading::ReadRefused;
use base_cut::write_all;
use std::alloc::Global;
use undo_base::{NoMemory, Text};
use undo_outside::{Fault, Sink, SinkFault};

/// The last line of the output.
#[derive(Clone, Copy)]
pub enum LastLine {
    Nothing,
    Usage,
    TooLong,
    BadConfiguration,
    BadLine(u32),
    NotEmpty,
    NotStore,
    LinkFault,
    DiskFault,
    ReadFault,
    TooMany,
    NoMemory,
    Damaged(u64),
    NoPoint,
    FalseRecord(u64),
}

/// What is to be answered and written: the transcript or the counts, and the last line.
#[derive(Drop)]
pub struct Plan {
    pub status: u8,
    pub body: Text,
    pub last: LastLine,
}

/// A last line alone.
pub fn only_line(alloc: Global, status: u8, last: LastLine) -> Plan
    ensures { result ≡ record { status = status; body = []; last = last } }
{
    Plan {
        status,
        body: Text::new(alloc),
        last,
    }
}

/// What is answered to a text that was not read.
pub fn unread(alloc: Global, refused: ReadRefused) -> Plan
    ensures status { result.status ≡ refused_status refused }
    ensures output { output_of result ≡ refused_line refused }
{
    match refused {
        ReadRefused::Failed => only_line(alloc, 6, LastLine::ReadFault),
        ReadRefused::TooLong => only_line(alloc, 2, LastLine::TooLong),
        ReadRefused::NoMemory => only_line(alloc, 8, LastLine::NoMemory),
    }
}

/// What is said where no memory is found.
const NO_MEMORY: &[u8] = b"undomail: no memory\n";

fn make_line(alloc: Global, last: LastLine) -> Result<Text, NoMemory>
    ensures { IfOk result (λ line. line ≡ line_text last) }
{
    match last {
        LastLine::Nothing => Ok(Text::new(alloc)),
        LastLine::Usage => Text::of(
            alloc,
            b"undomail: usage: undomail init STORE, serve STORE SMTP IMAP HTTP [POP], script STORE, play, grow ROUNDS, check STORE, cut STORE POINT, audit STORE\n",
        ),
        LastLine::TooLong => Text::of(alloc, b"undomail: text too long\n"),
        LastLine::BadConfiguration => Text::of(alloc, b"undomail: bad configuration\n"),
        LastLine::BadLine(line) => make_bad_line(alloc, line),
        LastLine::NotEmpty => Text::of(alloc, b"undomail: store is not empty\n"),
        LastLine::NotStore => Text::of(alloc, b"undomail: not a store\n"),
        LastLine::LinkFault => Text::of(alloc, b"undomail: link fault\n"),
        LastLine::DiskFault => Text::of(alloc, b"undomail: disk fault\n"),
        LastLine::ReadFault => Text::of(alloc, b"undomail: read fault\n"),
        LastLine::TooMany => Text::of(alloc, b"undomail: too many events\n"),
        LastLine::NoMemory => Text::of(alloc, NO_MEMORY),
        LastLine::Damaged(place) => make_damaged(alloc, place),
        LastLine::NoPoint => Text::of(alloc, b"undomail: no such point\n"),
        LastLine::FalseRecord(place) => make_false_record(alloc, place),
    }
}

fn make_bad_line(alloc: Global, line: u32) -> Result<Text, NoMemory>
    ensures { IfOk result (λ text. text ≡ bad_line line) }
{
    let text = format!(in alloc; "undomail: bad script line {line}\n")?;
    Text::of(alloc, text.as_bytes())
}

fn make_damaged(alloc: Global, place: u64) -> Result<Text, NoMemory>
    ensures { IfOk result (λ text. text ≡ damaged place) }
{
    let text = format!(in alloc; "undomail: damaged at {place}\n")?;
    Text::of(alloc, text.as_bytes())
}

fn make_false_record(alloc: Global, place: u64) -> Result<Text, NoMemory>
    ensures { IfOk result (λ text. text ≡ false_record_at place) }
{
    let text = format!(in alloc; "undomail: false record at {place}\n")?;
    Text::of(alloc, text.as_bytes())
}

fn is_nothing(last: LastLine) -> bool
    ensures { result ≡ is_nothing last }
{
    matches!(last, LastLine::Nothing)
}

fn write_last<W: Sink>(alloc: Global, last: LastLine, out: &mut W) -> Result<(), SinkFault>
    ensures { WritesAll (W.told out.old) (W.told out.new) (line_text last) result }
{
    if is_nothing(last) {
        return Ok(());
    }
    match make_line(alloc, last) {
        Ok(line) => write_all(out, line.bytes()),
        Err(NoMemory) => Err(Fault::NoMemory),
    }
}

fn write_plan<W: Sink>(alloc: Global, plan: &Plan, out: &mut W) -> Result<(), SinkFault>
    ensures { WritesAll (W.told out.old) (W.told out.new) (output_of plan.now) result }
{
    match write_all(out, plan.body.bytes()) {
        Ok(()) => write_last(alloc, plan.last, out),
        Err(fault) => Err(fault),
    }
}

/// Writes what is planned. The first fault decides the status.
pub fn show<W: Sink>(alloc: Global, plan: &Plan, out: &mut W) -> u8
    ensures { Shows plan.now.status (output_of plan.now) result (W.told out.old) (W.told out.new) }
{
    match write_plan(alloc, plan, out) {
        Ok(()) => plan.status,
        Err(Fault::Failed) => first_fault(plan.status, 9),
        Err(Fault::NoMemory) => first_fault(plan.status, 8),
    }
}

fn first_fault(status: u8, later: u8) -> u8
    ensures { result ≡ first_fault status later }
{
    if status == 0 { later } else { status }
}

/// What is answered where no memory is found for the words.
pub fn without_memory<W: Sink>(out: &mut W) -> u8
    ensures status { result ≡ 8 }
    ensures line { Wrote (W.told out.old) (W.told out.new) no_memory }
{
    let _ = write_all(out, NO_MEMORY);
    8
}
