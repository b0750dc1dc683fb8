//! Courses of steps that a desk is asked for, each with what it should answer.
use crate::asks::{acted, mailed, snapped, upgraded};
use crate::cycles::{Asked, cycled, tried, withdrawn};
use crate::desks::{Kept, is_closed_at, keeps, kept, started, writes_of};
use crate::gates::{Holding, Noting};
use std::alloc::Global;
use std::test::Fail;
use std::thread::Threads;
use time_desk::Desk;
use undo_outside::{Gate, MemDisk};

/// What workers are asked for.
#[derive(Clone, Copy)]
pub(crate) enum Work {
    Cycle(Asked),
    Try(Asked),
    /// The withdrawal of a cycle, by a key.
    Withdraw(&'static str, u32),
}

/// Below which number items are counted as they pass the gate, and the range of those that pass, once each.
pub(crate) type Passing = (u32, u32, u32);

/// The items are not counted.
pub(crate) const OPEN: Passing = (0, 0, 0);

/// A step, and what it should answer.
#[derive(Clone, Copy)]
pub(crate) enum Step {
    /// A mail to ann for each number from the first on and below the second, but one to bob for the last.
    Fill(u32, u32),
    /// A mail to ann.
    Mail(u32),
    Act(u32),
    Snapshot(u32),
    Upgrade(u32),
    /// Whether names may have superiors.
    Upgraded(bool),
    Work(Work, Passing, u32),
    /// A cycle, whose items of a number and the next are worked out side by side.
    Beside(Asked, u32, u32),
    /// The desk is closed, and this is the next number.
    Closed(u32),
}

/// What a desk is asked for that is started over an image.
#[derive(Clone, Copy)]
pub(crate) struct Course<'a> {
    pub(crate) image: &'static [u8],
    /// The ordinal of the disk's call that fails; 0 where none does.
    pub(crate) failing: u32,
    pub(crate) first: &'a [Step],
    /// What leaves the store and the counts as they are.
    pub(crate) then: &'a [Step],
    /// How many writes are tried in all, where that is told.
    pub(crate) writes: Option<usize>,
}

/// Hands a desk a mail for each of these numbers.
fn fill(alloc: Global, desk: &mut Desk<MemDisk>, first: u32, end: u32) -> Result<bool, Fail> {
    let mut all = true;
    for number in first..end {
        let user = if number + 1 < end { "ann" } else { "bob" };
        all = mailed(alloc, desk, user)? == number && all;
    }
    Ok(all)
}

/// What workers answer who pass a gate.
fn worked<R: Threads + Sync, G: Gate>(
    rt: &R,
    alloc: Global,
    desk: &mut Desk<MemDisk>,
    work: Work,
    gate: &G,
) -> Result<u32, Fail> {
    match work {
        Work::Cycle(asked) => cycled(rt, alloc, desk, asked, gate),
        Work::Try(asked) => tried(rt, alloc, desk, asked, gate),
        Work::Withdraw(key, of) => withdrawn(rt, alloc, desk, key, of, gate),
    }
}

/// Whether workers answer this, and these items alone pass the gate.
fn passes<R: Threads + Sync>(
    rt: &R,
    alloc: Global,
    desk: &mut Desk<MemDisk>,
    work: Work,
    passing: Passing,
    told: u32,
) -> Result<bool, Fail> {
    let gate = Noting::below(alloc, passing.0)?;
    let answered = worked(rt, alloc, desk, work, &gate);
    let passed = gate.passed_within(passing.1, passing.2);
    drop(gate);
    Ok(answered? == told && passed)
}

/// Whether a cycle answers this, and the items of a number and the next are worked out side by side.
fn is_beside<R: Threads + Sync>(
    rt: &R,
    alloc: Global,
    desk: &mut Desk<MemDisk>,
    asked: Asked,
    first: u32,
    told: u32,
) -> Result<bool, Fail> {
    let gate = Holding::new(first, first.saturating_add(1));
    let answered = cycled(rt, alloc, desk, asked, &gate)?;
    Ok(answered == told && gate.held_and_saw())
}

/// Whether a step is answered as it should be.
fn does<R: Threads + Sync>(
    rt: &R,
    alloc: Global,
    desk: &mut Desk<MemDisk>,
    step: Step,
) -> Result<bool, Fail> {
    match step {
        Step::Fill(first, end) => fill(alloc, desk, first, end),
        Step::Mail(told) => Ok(mailed(alloc, desk, "ann")? == told),
        Step::Act(told) => Ok(acted(alloc, desk)? == told),
        Step::Snapshot(told) => Ok(snapped(alloc, desk) == told),
        Step::Upgrade(told) => Ok(upgraded(alloc, desk) == told),
        Step::Upgraded(told) => Ok(desk.upgraded() == told),
        Step::Work(work, passing, told) => passes(rt, alloc, desk, work, passing, told),
        Step::Beside(asked, first, told) => is_beside(rt, alloc, desk, asked, first, told),
        Step::Closed(next) => Ok(is_closed_at(desk, next)),
    }
}

/// The first of these steps that is answered otherwise, or how many they are.
fn answered<R: Threads + Sync>(
    rt: &R,
    alloc: Global,
    desk: &mut Desk<MemDisk>,
    steps: &[Step],
) -> Result<usize, Fail> {
    for (place, step) in steps.iter().enumerate() {
        if !does(rt, alloc, desk, *step)? {
            return Ok(place);
        }
    }
    Ok(steps.len())
}

/// What is told where another store or other counts are kept then.
const KEPT: usize = 98;

/// What is told where other writes were tried.
const WRITES: usize = 99;

/// The first of the steps behind the first ones that is answered otherwise, counted from 50 on.
fn misstep_then<R: Threads + Sync>(
    rt: &R,
    alloc: Global,
    desk: &mut Desk<MemDisk>,
    steps: &[Step],
    before: &Kept,
) -> Result<Option<usize>, Fail> {
    let place = answered(rt, alloc, desk, steps)?;
    if place < steps.len() {
        return Ok(Some(place.saturating_add(50)));
    }
    if keeps(alloc, desk, before)? {
        return Ok(None);
    }
    Ok(Some(KEPT))
}

/// The first step that is answered otherwise.
fn misstep<R: Threads + Sync>(
    rt: &R,
    alloc: Global,
    desk: &mut Desk<MemDisk>,
    course: &Course,
) -> Result<Option<usize>, Fail> {
    let place = answered(rt, alloc, desk, course.first)?;
    if place < course.first.len() {
        return Ok(Some(place));
    }
    let before = kept(alloc, desk)?;
    let found = misstep_then(rt, alloc, desk, course.then, &before);
    drop(before);
    found
}

/// The first step that is answered otherwise, and the disk that the desk leaves.
pub(crate) fn run<R: Threads + Sync>(
    rt: &R,
    alloc: Global,
    course: &Course,
) -> Result<(Option<usize>, MemDisk), Fail> {
    let mut desk = started(alloc, course.image, course.failing)?;
    let found = misstep(rt, alloc, &mut desk, course);
    let disk = desk.into_disk();
    match found {
        Ok(place) => Ok((place, disk)),
        Err(fail) => {
            drop(disk);
            Err(fail)
        }
    }
}

/// What goes wrong in a course.
fn wrong_in<R: Threads + Sync>(
    rt: &R,
    alloc: Global,
    course: &Course,
) -> Result<Option<usize>, Fail> {
    let (place, disk) = run(rt, alloc, course)?;
    let writes = writes_of(disk);
    if place.is_none() && course.writes.is_some_and(|told| told != writes) {
        return Ok(Some(WRITES));
    }
    Ok(place)
}

/// A hundred for each course before the first in which something goes wrong, and what that is: a step, 98 where something else is
/// kept, or 99 where other writes are tried.
pub(crate) fn first_wrong<R: Threads + Sync>(
    rt: &R,
    alloc: Global,
    courses: &[Course],
) -> Result<Option<usize>, Fail> {
    let mut before: usize = 0;
    for course in courses {
        if let Some(place) = wrong_in(rt, alloc, course)? {
            return Ok(Some(before.saturating_add(place)));
        }
        before = before.saturating_add(100);
    }
    Ok(None)
}
