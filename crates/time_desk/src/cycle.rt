//! What the operator asks of the past: a cycle, and a trial of one.
//!
//! The counter of steps has no bytes, so no test can see it. The clause `rewinds` speaks of it, and tests count the reads of a
//! cycle in its place, since each delivery that is performed has its text read.
//!
//! The bound on a cycle's steps speaks of what the records leave (`newest_at` over the positions that can serve), not of what
//! memory has. A cycle that is refused after all, for want of memory or at the disk, performed no more than these with a notice
//! for each account (`most`, `most_tried`). Whatever the disk holds, it is no more than the items in force, the acts that come in
//! and the accounts together (`few`).
//!
//! The moment of a cycle is that of the event in which the last byte of its request came. It may lie before moments in the
//! timeline: nothing is sorted by moments.
//!
//! A cycle without repairs at the last item is a cycle: it draws a number, keeps its report, and sends IMAP clients away.
//!
//! The record of a cycle has the request as it was asked, numbers in vain included. Opening does the cycle again, so its report
//! is told again under its key after any number of runs.
//!
//! A request under a key that a cycle had is answered from the report that is kept, before anything else is looked at.
//!
//! Memory for a cycle or a trial is wanted only where one is due (or, for `cycle`, a report is copied). Where the point or the
//! numbers are missing that is the answer.
ghost use Rattle.std.specs.Prelude.{◌≡◌, ◌+◌, ◌≤◌, length, option_copied, IsTrue, IfOk, OnOk, IfErr, OnErr};
ghost use Rattle.seal_log.specs.Causes.{FindsMemory};
ghost use Rattle.paradox.specs.declared.reports.Report.{Report as TheReport};
ghost use Rattle.store_kept.specs.Kept.{report_of};
ghost use Rattle.repair_desk.specs.Repairs.{are_known};
ghost use Rattle.cycle_rules.specs.Asking.{Rewinds, cycle_due, Repeats};
ghost use Rattle.cycle_rules.specs.Cycles.{Cycled};
ghost use Rattle.mail_cycle.specs.Permanence.{UidsStay};
ghost use Rattle.time_desk.specs.Cycling.{CycleWants, Cycles, CyclesNone, Tries, TriesNone, most_performed, most_tried};
ghost use Rattle.desk_journal.specs.Reading.{IsStill, ReadsWell};
ghost use Rattle.desk_journal.specs.Stored.{HoldsTexts};

use crate::doing::does;
use crate::permanence::records_let_uids_last;
use crate::redo::rework_alone;
use crate::request::Request;
use crate::{CycleFault, Desk};
use box_store::Steps;
use mail_cycle::Rewound;
use paradox::Report;
use std::alloc::Global;
use std::marker::Brand;
use std::sync::ledger::{Blank, Ledger};
use std::thread::Threads;
use undo_base::{LAST_MOMENT, Name};
use undo_outside::{Disk, Gate};
use verb_bytes::CycleAsk;

/// The report of what a cycle leaves.
fn report_in(made: Rewound) -> Report
    ensures { result ≡ made.report }
{
    let Rewound {
        store,
        behind,
        stamps,
        report,
        ..
    } = made;
    drop(store);
    drop(behind);
    drop(stamps);
    report
}

impl<D: Disk> Desk<D> {
    /// The report of the cycle that was asked for under a key. It takes no memory.
    pub fn report(&self, key: &Name) -> Option<&Report>
        ensures { option_copied result ≡ report_of self.now.kept.reports key.now }
    {
        self.desk.report(key)
    }

    /// Does the cycle that is asked for, at a moment. A key that a cycle had is answered with that cycle's report, also on a closed
    /// desk, and nothing changes. Else the cycle is performed beside the desk, its one record is sealed, and what it leaves takes
    /// the place of what was kept. It begins with the newest snapshot at or before its point, and each delivery's text behind that
    /// is read, once, but for those that the request brings. The items behind the point are worked out level by level on workers,
    /// each of which passes the gate before each item. At `Disk` what is kept is as before. Either a read failed, nothing changed,
    /// and a later call may succeed; or the desk is closed from then on, and the record may be in the journal or not. In time that
    /// grows as the timeline, the mailboxes and these texts.
    pub fn cycle<R: Threads + Sync, G: Gate, L: Ledger>(
        &mut self,
        rt: &R,
        alloc: Global,
        at: u64,
        ask: CycleAsk,
        gate: &G,
        steps: &mut Steps<L>,
    ) -> Result<Report, CycleFault>
        requires moment { at ≤ LAST_MOMENT }
        requires known { IsTrue (are_known self.old.kept.house ask.inserts) }
        ensures done { IfOk result (λ report. Cycles D.told at ask self.old self.new report) }
        ensures err { OnErr result (self.new.kept ≡ self.old.kept) }
        ensures notes { OnErr result (self.new.notes ≡ self.old.notes) }
        ensures marks { OnErr result (self.new.marks ≡ self.old.marks) }
        ensures why { IfErr result (λ fault. CyclesNone D.told at ask self.old self.new fault) }
        ensures rewinds { (due : Cycled) → cycle_due self.old.kept at ask ≡ Rewinds due → HoldsTexts D.told self.old
            → OnOk result (steps.new ≤ steps.old + most_performed self.old.kept ask due) }
        // A refusal comes before any item or behind some: no item is performed twice.
        ensures most { (due : Cycled) → cycle_due self.old.kept at ask ≡ Rewinds due → HoldsTexts D.told self.old
            → OnErr result (steps.new ≤ steps.old + most_tried self.old.kept ask due) }
        ensures few { OnErr result (steps.new ≤ steps.old + length self.old.kept.timeline + length ask.inserts + length self.old.kept.house.accounts) }
        ensures same { OnOk result (ReadsWell D.told self.old self.new) }
        // A write finds no memory only where the answer is want of memory, and none comes after it.
        ensures finds_memory { OnOk result (FindsMemory (D.told self.old.disk) (D.told self.new.disk)) }
        ensures wants { IfErr result (λ fault. CycleWants D.told self.old.disk self.new.disk fault) }
        ensures steps { OnOk result (steps.new ≤ steps.old + length self.new.kept.timeline) }
        ensures once { (earlier : TheReport) → cycle_due self.old.kept at ask ≡ Repeats earlier → steps.new ≡ steps.old }
        ensures uids { HoldsTexts D.told self.old → UidsStay self.old.kept self.new.kept }
    {
        self.stands();
        records_let_uids_last();
        let asked = Request::Cycle(&ask);
        let done = does(
            rt,
            alloc,
            &mut self.journal,
            &mut self.desk,
            at,
            &asked,
            gate,
            steps,
        );
        drop(ask);
        done
    }

    /// The report that `cycle` would give under a new key. Nothing changes, and nothing is written. At `Disk` a read failed.
    pub fn try_cycle<R: Threads + Sync, G: Gate>(
        &mut self,
        rt: &R,
        alloc: Global,
        at: u64,
        ask: &CycleAsk,
        gate: &G,
    ) -> Result<Report, CycleFault>
        requires moment { at ≤ LAST_MOMENT }
        requires known { IsTrue (are_known self.old.kept.house ask.now.inserts) }
        ensures ok { IfOk result (λ report. Tries self.old.kept at ask.now (HoldsTexts D.told self.old) report) }
        ensures why { IfErr result (λ fault. TriesNone self.old.kept at ask.now (D.told self.old.disk) (D.told self.new.disk) fault) }
        ensures same { OnOk result ((D.told self.new.disk).failed_reads ≡ (D.told self.old.disk).failed_reads) }
        ensures still { IsStill D.told self.old self.new }
    {
        let made = rework_alone::<R, G, D, Brand>(
            rt,
            alloc,
            &mut self.journal,
            &self.desk,
            at,
            &Request::Cycle(ask),
            gate,
            Blank::new(1),
        )?;
        Ok(report_in(made))
    }
}
