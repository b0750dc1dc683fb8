//! What a cycle from a snapshot leaves of the step counter.
ghost use Rattle.std.specs.Prelude.{◌≡◌, ◌≤◌, [], Some, length, IfOk, OnOk};
ghost use Rattle.repair_desk.specs.Repairs.{position};
ghost use Rattle.desk_journal.specs.Stored.{HoldsTexts};

use box_store::Steps;
use mail_cycle::laws::{nothing_asked_changes_nothing, timelines_have_their_length};
use paradox::Report;
use seal_log::SealFault;
use std::alloc::Global;
use std::sync::ledger::Ledger;
use std::thread::Threads;
use time_desk::{CycleFault, Desk};
use undo_base::LAST_MOMENT;
use undo_outside::{Disk, Gate};
use verb_bytes::CycleAsk;

/// Takes a snapshot, and does a cycle without acts that come in. Behind the last item it begins with the snapshot and performs
/// nothing: the counter does not rise.
pub fn snapped_and_cycled<R: Threads + Sync, D: Disk, G: Gate, L: Ledger>(
    rt: &R,
    alloc: Global,
    desk: &mut Desk<D>,
    at: u64,
    ask: CycleAsk,
    gate: &G,
    steps: &mut Steps<L>,
) -> Result<Result<Report, CycleFault>, SealFault>
    requires moment { at ≤ LAST_MOMENT }
    requires inserts { ask.inserts ≡ [] }
    ensures rests { HoldsTexts D.told desk.old → position desk.old.kept.timeline ask.point ≡ Some (length desk.old.kept.timeline)
        → IfOk result (λ cycled. OnOk cycled (steps.new ≤ steps.old)) }
{
    nothing_asked_changes_nothing();
    timelines_have_their_length();
    match desk.snapshot(alloc) {
        Ok(_) => Ok(desk.cycle(rt, alloc, at, ask, gate, steps)),
        Err(fault) => {
            drop(ask);
            Err(fault)
        }
    }
}
