//! A repair in memory, beside the desk: of a cycle, of a trial of one, and of a withdrawal. It is also of those of the journal that
//! are performed again where a desk is started, one item after the other, since there are no workers.
//!
//! A Cycle record that is replayed when a store is opened reads the deliveries' texts of its timeline, of which opening itself
//! leaves the long ones out.
//!
//! Of the cycles that are performed again where a desk is started no clause bounds the steps: that counter is made there and lent
//! by nobody.
//!
//! Opening performs a Cycle record again with the snapshots that it has read so far, as the cycle did.
ghost use Rattle.std.specs.Prelude.{◌≡◌, ◌<◌, ◌≤◌, false, IsErrOf, IsTrue, IfOk, IfErr};
ghost use Rattle.mail_cycle.specs.Refusing.{IsRefusalBy};
ghost use Rattle.mail_cycle.specs.Tasks.{Begins};
ghost use Rattle.mail_desk.specs.Remaking.{CanReplace, remade_as};
ghost use Rattle.time_desk.specs.Cycling.{CanBeUndone, CanRework, IsFit, Reworks, ReworksAlone, after_rewound, asked_then};
ghost use Rattle.time_desk.specs.Planning.{BodiesCause};
ghost use Rattle.time_desk.specs.Replaying.{some_marked};
ghost use Rattle.time_desk.specs.Requests.{IsKnown, IsTaskFor, RedoesAloneFor, RedoesFor, anew_of, wanted_of};
ghost use Rattle.time_desk.specs.Serving.{IsNewest, CanBegin, unmarked};
ghost use Rattle.desk_journal.specs.Stored.{AreNoted, MarkedBefore, Renotes};
ghost use Rattle.desk_journal.specs.Telling.{HoldsHeld, IsOnlyRead, IsPastRead};

use crate::beginning::beginning;
use crate::deliveries::DueDeliveries;
use crate::request::Request;
use box_store::Steps;
use cycle_rules::laws::cycles_can_be_withdrawn;
use desk_journal::{Journal, NewTexts, Past, Reading};
use mail_cycle::laws::{
    cycles_leave_states, repairs_begin_anywhere, repairs_leave_states, withdrawals_leave_states,
};
use mail_cycle::{
    Before, Beginning, CycleRefused, Due, Rewound, rework_by_levels, rework_in_order,
};
use mail_desk::laws::bodies_have_texts;
use mail_desk::{Desk, Fresh, Left, Remade};
use seal_log::ReadFault;
use std::alloc::Global;
use std::marker::Brand;
use std::sync::ledger::{Blank, Ledger};
use std::thread::Threads;
use undo_base::{LAST_MOMENT, Name, NoMemory, Text};
use undo_outside::{Disk, Gate};
use verb_core::BodiesFault;

/// What a repair begins with.
pub(crate) fn begun(desk: &Desk) -> Before<'_>
    ensures { result ≡ unmarked desk.now.kept }
{
    desk.stands();
    Before::of(
        desk.base(),
        desk.store(),
        desk.all_items(),
        desk.stamps(),
        desk.next(),
        desk.reports(),
    )
}

/// The texts that a request brings, to be read beside those of the journal.
pub(crate) fn new_texts<'a>(
    alloc: Global,
    replaces: &'a [(u32, Text)],
) -> Result<NewTexts<'a>, BodiesFault>
    ensures texts { IfOk result (λ texts. texts ≡ replaces.now) }
    ensures memory { IfErr result (λ fault. fault ≡ BodiesFault.NoMemory) }
{
    match NewTexts::of(alloc, replaces) {
        Ok(texts) => Ok(texts),
        Err(NoMemory) => Err(BodiesFault::NoMemory),
    }
}

/// What a repair begins to perform with: the newest snapshot that can serve.
fn prepared<D: Disk>(
    alloc: Global,
    past: &mut Past<D>,
    desk: &Desk,
    due: &Due<'_>,
) -> Result<Beginning, BodiesFault>
    requires marked { MarkedBefore past.old.end desk.now.marks }
    requires kept { due.now.kept ≡ unmarked desk.now.kept }
    ensures serves { IfOk result (CanBegin desk.now.kept due.now.repair.place) }
    ensures begins { IfOk result (Begins due.now) }
    ensures newest { HoldsHeld (D.told past.old.disk) desk.now → IfOk result (IsNewest desk.now.kept due.now.repair.place) }
    ensures first { some_marked desk.now.kept due.now.repair.place ≡ false → IfOk result (λ first. (first.count ≡ 0) × (first.store.store ≡ desk.now.kept.base)) }
    ensures due { IsErrOf result BodiesFault.Failed → IsTrue (some_marked desk.now.kept due.now.repair.place) }
    ensures cause { BodiesCause (D.told past.old.disk) (D.told past.new.disk) result }
    ensures still { IsPastRead D.told past.old past.new }
{
    match beginning(alloc, past, desk, due.place()) {
        Ok(first) => Ok(first),
        Err(ReadFault::Disk) => Err(BodiesFault::Failed),
        Err(ReadFault::NoMemory) => Err(BodiesFault::NoMemory),
    }
}

/// What a repair leaves that is due, worked out level by level: the desk stays as it is. Texts are read before a gate.
pub(crate) fn rewound<R: Threads + Sync, G: Gate, D: Disk, L: Ledger>(
    rt: &R,
    alloc: Global,
    past: &mut Past<D>,
    desk: &Desk,
    due: &Due<'_>,
    gate: &G,
    steps: &mut Steps<L>,
) -> Result<Rewound, BodiesFault>
    requires noted { AreNoted past.old.end desk.now }
    requires can { CanRework D.told desk.now past.old.end due.now }
    ensures { Reworks D.told desk.now due.now past.old past.new steps.old steps.new result }
{
    desk.stands();
    due.stands();
    repairs_leave_states();
    repairs_begin_anywhere();
    bodies_have_texts();
    let first = prepared(alloc, past, desk, due)?;
    match new_texts(alloc, due.texts()) {
        Ok(texts) => {
            let reading = Reading::of(past, desk, &texts, desk.next());
            let mut bodies = DueDeliveries { reading, due };
            rework_by_levels(rt, alloc, due, first, &mut bodies, gate, steps)
        }
        Err(fault) => {
            drop(first);
            Err(fault)
        }
    }
}

/// The same, one item after the other with nothing counted, over a counter that is made of the blank ledger.
fn again<D: Disk, L: Ledger>(
    alloc: Global,
    past: &mut Past<D>,
    desk: &Desk,
    due: &Due<'_>,
    blank: Blank,
) -> Result<Rewound, BodiesFault>
    requires name { blank.name ≡ L.name }
    requires parts { blank.parts ≡ L.parts }
    requires some { 0 < blank.parts }
    requires noted { AreNoted past.old.end desk.now }
    requires can { CanRework D.told desk.now past.old.end due.now }
    ensures { ReworksAlone D.told desk.now due.now past.old past.new result }
{
    desk.stands();
    due.stands();
    repairs_leave_states();
    repairs_begin_anywhere();
    bodies_have_texts();
    let mut steps: Steps<L> = Steps::new(blank);
    let first = prepared(alloc, past, desk, due)?;
    match new_texts(alloc, due.texts()) {
        Ok(texts) => {
            let reading = Reading::of(past, desk, &texts, desk.next());
            let mut bodies = DueDeliveries { reading, due };
            rework_in_order(alloc, due, first, &mut bodies, &mut steps)
        }
        Err(fault) => {
            drop(first);
            Err(fault)
        }
    }
}

// ---- what is asked

/// What is due to a request at a moment, under a new key.
fn due_for<'a>(
    alloc: Global,
    desk: &'a Desk,
    at: u64,
    asked: &Request<'a>,
) -> Result<Due<'a>, CycleRefused>
    requires moment { at ≤ LAST_MOMENT }
    requires known { IsKnown desk.now.kept asked.now }
    ensures task { IfOk result (IsTaskFor desk.now.kept at asked.now) }
    ensures refused { IfErr result (IsRefusalBy desk.now.kept (wanted_of asked.now) (anew_of desk.now.kept at asked.now)) }
    ensures unread { IsErrOf result CycleRefused.Disk → ⊥ }
{
    desk.stands();
    match asked {
        Request::Cycle(ask) => Due::cycle(begun(desk), at, ask),
        Request::Withdrawal(_, of) => match desk.undone(*of) {
            Some(last) => Due::withdrawal(alloc, begun(desk), at, last),
            None => Err(CycleRefused::Point { given: *of }),
        },
    }
}

/// What comes of a request at a moment under a new key, beside the desk. Texts are read before a gate.
pub(crate) fn rework<R: Threads + Sync, G: Gate, D: Disk, L: Ledger>(
    rt: &R,
    alloc: Global,
    journal: &mut Journal<D>,
    desk: &Desk,
    at: u64,
    asked: &Request<'_>,
    gate: &G,
    steps: &mut Steps<L>,
) -> Result<Rewound, CycleRefused>
    requires noted { AreNoted journal.old.gate desk.now }
    requires moment { at ≤ LAST_MOMENT }
    requires known { IsKnown desk.now.kept asked.now }
    ensures redoes { RedoesFor D.told desk.now at asked.now journal.old.disk journal.new.disk (journal.new ≡ journal.old) steps.old steps.new result }
    ensures still { IsOnlyRead D.told journal.old journal.new }
{
    desk.stands();
    cycles_leave_states();
    cycles_can_be_withdrawn();
    withdrawals_leave_states();
    let due = due_for(alloc, desk, at, asked)?;
    let made = rewound(rt, alloc, &mut journal.past, desk, &due, gate, steps)?;
    Ok(made)
}

/// The same with nothing counted, over a counter that is made of the blank ledger.
pub(crate) fn rework_alone<R: Threads + Sync, G: Gate, D: Disk, L: Ledger>(
    rt: &R,
    alloc: Global,
    journal: &mut Journal<D>,
    desk: &Desk,
    at: u64,
    asked: &Request<'_>,
    gate: &G,
    blank: Blank,
) -> Result<Rewound, CycleRefused>
    requires name { blank.name ≡ L.name }
    requires parts { blank.parts ≡ L.parts }
    requires some { 0 < blank.parts }
    requires noted { AreNoted journal.old.gate desk.now }
    requires moment { at ≤ LAST_MOMENT }
    requires known { IsKnown desk.now.kept asked.now }
    ensures redoes { RedoesAloneFor D.told desk.now at asked.now journal.old.disk journal.new.disk result }
    ensures still { IsOnlyRead D.told journal.old journal.new }
{
    let mut steps: Steps<L> = Steps::new(blank);
    rework(rt, alloc, journal, desk, at, asked, gate, &mut steps)
}

/// What comes of a request whose record is read, performed again.
pub(crate) fn rework_again<D: Disk>(
    alloc: Global,
    past: &mut Past<D>,
    desk: &Desk,
    at: u64,
    asked: &Request<'_>,
) -> Result<Rewound, CycleRefused>
    requires noted { AreNoted past.old.end desk.now }
    requires moment { at ≤ LAST_MOMENT }
    requires known { IsKnown desk.now.kept asked.now }
    ensures redoes { RedoesAloneFor D.told desk.now at asked.now past.old.disk past.new.disk result }
    ensures still { IsPastRead D.told past.old past.new }
{
    desk.stands();
    cycles_leave_states();
    cycles_can_be_withdrawn();
    withdrawals_leave_states();
    let due = due_for(alloc, desk, at, asked)?;
    let made = again::<D, Brand>(alloc, past, desk, &due, Blank::new(1))?;
    Ok(made)
}

// ---- what it leaves

/// Makes what a repair leaves ready to be put in place, under a key, where it can be withdrawn and where it can't.
pub(crate) fn remade(
    alloc: Global,
    desk: &mut Desk,
    key: Name,
    undoes: bool,
    made: Rewound,
    fresh: &Fresh,
) -> Result<Remade, NoMemory>
    requires fit { IsFit desk.old.kept made }
    requires undone { CanBeUndone desk.old.kept undoes made }
    ensures kept { desk.new.kept ≡ desk.old.kept }
    ensures same { desk.new.notes ≡ desk.old.notes }
    ensures same_marks { desk.new.marks ≡ desk.old.marks }
    ensures made { IfOk result (λ remade. remade_as desk.old.kept remade ≡ after_rewound desk.old.kept key undoes made) }
    ensures report { IfOk result (λ remade. remade.left.report ≡ made.report) }
    ensures notes { IfOk result (λ remade. Renotes desk.old.notes fresh.now desk.old.kept.texts (asked_then desk.old.kept undoes made) remade.shelf.notes) }
    ensures place { IfOk result (λ remade. remade.left.place ≡ made.place) }
    ensures ready { IfOk result (λ remade. CanReplace remade desk.new) }
{
    let Rewound {
        store,
        place,
        from,
        behind,
        placed,
        stamps,
        next,
        entered,
        report,
        ..
    } = made;
    let left = Left {
        store,
        from,
        behind,
        stamps,
        next,
        place,
        placed,
        entered,
        report,
        undoes,
    };
    desk.remake(alloc, key, left, fresh)
}
