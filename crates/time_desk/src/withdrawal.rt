//! What the operator takes back: the last cycle.
ghost use Rattle.std.specs.Prelude.{◌≡◌, ◌+◌, ◌≤◌, Some, length, IfOk, OnOk, IfErr, OnErr};
ghost use Rattle.seal_log.specs.Causes.{FindsMemory};
ghost use Rattle.paradox.specs.declared.reports.Report.{Report as TheReport};
ghost use Rattle.withdraw.specs.declared.undone.UndoneBehind.{UndoneBehind};
ghost use Rattle.store_kept.specs.Kept.{undone_of};
ghost use Rattle.store_kept.specs.Texts.{items_asked};
ghost use Rattle.cycle_rules.specs.Asking.{Repeats};
ghost use Rattle.cycle_rules.specs.Withdrawals.{withdraw_due, withdrawn_at};
ghost use Rattle.mail_cycle.specs.Permanence.{UidsLast};
ghost use Rattle.time_desk.specs.Cycling.{most_begun, most_reworked};
ghost use Rattle.time_desk.specs.Withdrawing.{WithdrawalWants, Withdraws, WithdrawsNone};
ghost use Rattle.desk_journal.specs.Reading.{ReadsWell};
ghost use Rattle.desk_journal.specs.Stored.{HoldsTexts};

use crate::doing::does;
use crate::permanence::records_let_uids_last;
use crate::request::Request;
use crate::{Desk, WithdrawFault};
use box_store::Steps;
use paradox::Report;
use std::alloc::Global;
use std::sync::ledger::Ledger;
use std::thread::Threads;
use undo_base::{LAST_MOMENT, Name};
use undo_outside::{Disk, Gate};

impl<D: Disk> Desk<D> {
    /// Takes back the cycle of a number, at a moment, where it is the last of all cycles and withdrawals: the work since then stays.
    /// A key that a cycle or a withdrawal had is answered with its report, also on a closed desk, and nothing changes. Else the
    /// timeline without the cycle is performed beside the desk as a cycle is, with all that is said there of snapshots, reads,
    /// workers and faults. Its one record is sealed, and what it leaves takes the place of what was kept.
    pub fn withdraw<R: Threads + Sync, G: Gate, L: Ledger>(
        &mut self,
        rt: &R,
        alloc: Global,
        at: u64,
        key: &Name,
        of: u32,
        gate: &G,
        steps: &mut Steps<L>,
    ) -> Result<Report, WithdrawFault>
        requires { at ≤ LAST_MOMENT }
        ensures done { IfOk result (λ report. Withdraws D.told at key.now of self.old self.new report) }
        ensures err { OnErr result (self.new.kept ≡ self.old.kept) }
        ensures notes { OnErr result (self.new.notes ≡ self.old.notes) }
        ensures marks { OnErr result (self.new.marks ≡ self.old.marks) }
        ensures why { IfErr result (λ fault. WithdrawsNone D.told at key.now of self.old self.new fault) }
        ensures withdraws { (last : UndoneBehind) → undone_of self.old.kept of ≡ Some last → HoldsTexts D.told self.old
            → OnOk result (steps.new ≤ steps.old + most_reworked self.old.kept 0 (withdrawn_at self.old.kept at last)) }
        // A refusal comes before any item or behind some: no item is performed twice.
        ensures most { (last : UndoneBehind) → undone_of self.old.kept of ≡ Some last → HoldsTexts D.told self.old
            → OnErr result (steps.new ≤ steps.old + most_begun self.old.kept 0 (withdrawn_at self.old.kept at last)) }
        ensures few { OnErr result (steps.new ≤ steps.old + length (items_asked self.old.kept) + length self.old.kept.house.accounts) }
        ensures same { OnOk result (ReadsWell D.told self.old self.new) }
        // A write finds no memory only where the answer is want of memory, and none comes after it.
        ensures finds_memory { OnOk result (FindsMemory (D.told self.old.disk) (D.told self.new.disk)) }
        ensures wants { IfErr result (λ fault. WithdrawalWants D.told self.old.disk self.new.disk fault) }
        ensures steps { OnOk result (steps.new ≤ steps.old + length self.new.kept.timeline) }
        ensures once { (earlier : TheReport) → withdraw_due self.old.kept at key.now of ≡ Repeats earlier → steps.new ≡ steps.old }
        ensures uids { HoldsTexts D.told self.old → UidsLast self.old.kept self.new.kept }
    {
        self.stands();
        records_let_uids_last();
        let asked = Request::Withdrawal(key, of);
        match does(
            rt,
            alloc,
            &mut self.journal,
            &mut self.desk,
            at,
            &asked,
            gate,
            steps,
        ) {
            Ok(report) => Ok(report),
            Err(fault) => Err(WithdrawFault::from(fault)),
        }
    }
}
