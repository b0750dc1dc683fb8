//! The command `cut`: a store whose past went into its base, as a new one.
//!
//! Where the first write of a cut's file fails no last line follows, as for every write that failed. Where a read fails before
//! the first write the line of status 5 does.
//!
//! The point is looked up before the first byte.
ghost use Rattle.std.specs.Prelude.{◌≡◌, ℕ, List, IsTrue};
ghost use Rattle.std.specs.List.{AllByRecursion};
ghost use Rattle.verb_bytes.specs.declared.journal.JournalRecord.TheVariants.{Kept};
ghost use Rattle.verb_bytes.specs.Spelling.{HasSpelling};
ghost use Rattle.base_cut.specs.Cutting.{AreCut, holds_all};
ghost use Rattle.store_kept.specs.Texts.{has_text_kept};
ghost use Rattle.desk_journal.specs.Reading.{IsStill};
ghost use Rattle.desk_journal.specs.Stored.{HoldsTexts};
ghost use Rattle.time_desk.specs.Lending.{desk_told};
ghost use Rattle.mail_proxy.specs.Cutting.{Cuts, CutsAt, IsUncut, TellsUncut, WritesParts, cut_status};
ghost use Rattle.mail_proxy.specs.Plans.{output_of};
ghost use Rattle.mail_proxy.specs.Shows.{Shows};
ghost use Rattle.mail_proxy.specs.Texts.{End};

use crate::opening::unopened;
use crate::plan::{LastLine, Plan, only_line, show};
use base_cut::{CutFault, CutParts, write_cut};
use cut_laws::cuts_open;
use std::alloc::Global;
use time_desk::laws::seals_join;
use time_desk::{CycleFault, Desk};
use undo_outside::{Disk, Sink};

/// Opens the store, and writes what it is cut at a point. Once a byte of that is written no last line is.
pub fn cut_to<D: Disk + Drop, W: Sink>(alloc: Global, point: u32, disk: D, out: &mut W) -> (u8, D)
    ensures { (end : End D) × Cuts D.told disk point result.0 (W.told out.old) (W.told out.new) end
        × Shows end.status end.output result.0 (W.told out.old) (W.told out.new) × (result.1 ≡ end.disk) }
{
    match Desk::start(alloc, disk) {
        Ok(mut desk) => {
            let status = cut_desk(alloc, point, &mut desk, out);
            (status, desk.into_disk())
        }
        Err((disk, fault)) => (show(alloc, &unopened(alloc, fault), out), disk),
    }
}

/// Writes what a desk is cut at a point, or why it is not.
fn cut_desk<D: Disk + Drop, W: Sink>(
    alloc: Global,
    point: u32,
    desk: &mut Desk<D>,
    out: &mut W,
) -> u8
    ensures still { IsStill D.told desk.old desk.new }
    ensures cuts { (planned : ℕ) × (output : List ℕ) × CutsAt D.told (HoldsTexts D.told desk.old) point desk.old desk.new planned output result (W.told out.old) (W.told out.new)
        × Shows planned output result (W.told out.old) (W.told out.new) }
{
    desk.stands();
    seals_join::<D>();
    cuts_open();
    match desk.cut_parts(alloc, point) {
        Ok(parts) => {
            let status = write_parts(alloc, &parts, desk, out);
            drop(parts);
            status
        }
        Err(fault) => show(alloc, &uncut(alloc, fault), out),
    }
}

/// Writes a cut from its parts.
fn write_parts<D: Disk + Drop, W: Sink>(
    alloc: Global,
    parts: &CutParts,
    desk: &mut Desk<D>,
    out: &mut W,
) -> u8
    requires held { IsTrue (holds_all (has_text_kept desk.old.kept) parts.now) }
    requires spelled { AllByRecursion (λ i. HasSpelling (Kept i)) parts.now.kept }
    ensures still { IsStill D.told desk.old desk.new }
    ensures wrote { (payloads : List (List ℕ)) × AreCut (desk_told D.told desk.old) parts.now payloads
        × WritesParts D.told desk.old desk.new payloads result (W.told out.old) (W.told out.new) }
{
    match write_cut(alloc, parts, desk, out) {
        Ok(()) => 0,
        Err(fault) => status_of(fault),
    }
}

/// The status where a cut was not written whole.
fn status_of(fault: CutFault) -> u8
    ensures { result ≡ cut_status fault }
{
    match fault {
        CutFault::Read => 5,
        CutFault::Sink => 9,
        CutFault::NoMemory => 8,
    }
}

/// What is answered where nothing was written of a cut.
fn uncut(alloc: Global, fault: CycleFault) -> Plan
    requires { IsUncut fault }
    ensures { TellsUncut fault result.status (output_of result) }
{
    match fault {
        CycleFault::Point { .. } => only_line(alloc, 11, LastLine::NoPoint),
        CycleFault::Numbers { .. } => unreachable!(),
        CycleFault::Disk => only_line(alloc, 5, LastLine::DiskFault),
        CycleFault::NoMemory => only_line(alloc, 8, LastLine::NoMemory),
        CycleFault::Closed => unreachable!(),
    }
}
