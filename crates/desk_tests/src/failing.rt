//! Tests of what can't be sealed: it closes the desk, which then does nothing, and what is kept stays.
use crate::answers::{CLOSED, DISK, NO_CYCLE_2};
use crate::courses::{Course, OPEN, Step, Work, first_wrong};
use crate::desks::JOURNAL;
use std::test::Fail;

fn course<'a>(failing: u32, first: &'a [Step], then: &'a [Step], writes: usize) -> Course<'a> {
    Course {
        image: JOURNAL,
        failing,
        first,
        then,
        writes: Some(writes),
    }
}

/// The cycle 3 takes Work away, and its notice to ann is number 4.
fn cycle() -> [Step; 1] {
    [Step::Work(Work::Cycle(("one", 0, &[2], false)), OPEN, 3)]
}

/// A cycle is not sealed and closes the desk. One under a new key is not done any more; one under a key that a cycle had is answered
/// as it was, whatever it asks; and one can be tried.
fn cycles() -> [Step; 5] {
    [
        Step::Work(Work::Cycle(("two", 0, &[], false)), OPEN, DISK),
        Step::Work(Work::Cycle(("two", 0, &[], false)), OPEN, CLOSED),
        Step::Work(Work::Cycle(("one", 0, &[9], false)), OPEN, 3),
        Step::Work(Work::Try(("-", 0, &[], false)), OPEN, 5),
        Step::Closed(5),
    ]
}

/// A withdrawal is not sealed and closes the desk. One is not done any more, also where the cycle is not there; one under a key
/// that a cycle had is answered as that was, whatever it asks.
fn withdrawals() -> [Step; 5] {
    [
        Step::Work(Work::Withdraw("two", 2), OPEN, NO_CYCLE_2),
        Step::Work(Work::Withdraw("two", 3), OPEN, DISK),
        Step::Work(Work::Withdraw("two", 2), OPEN, CLOSED),
        Step::Work(Work::Withdraw("one", 9), OPEN, 3),
        Step::Closed(5),
    ]
}

// Ten calls start the desk, and four seal the first cycle. A cycle is one record, and so is a withdrawal: a write, a sync, a write
// and a sync.
#[test]
fn a_failed_cycle_or_withdrawal_closes_the_desk(rt: HostRuntime) -> Result<(), Fail> {
    let (cycle, cycles, withdrawals) = (cycle(), cycles(), withdrawals());
    let courses = [
        course(15, &cycle, &cycles, 3),
        course(16, &cycle, &cycles, 3),
        course(17, &cycle, &cycles, 4),
        course(18, &cycle, &cycles, 4),
        course(15, &cycle, &withdrawals, 3),
        course(16, &cycle, &withdrawals, 3),
        course(17, &cycle, &withdrawals, 4),
        course(18, &cycle, &withdrawals, 4),
    ];
    let wrong = first_wrong(&rt, rt.alloc(), &courses)?;
    assert_eq!(rt; wrong, None);
    Ok(())
}

/// A mail is not sealed. Then neither one nor an act is done any more.
fn mail() -> [Step; 4] {
    [
        Step::Mail(DISK),
        Step::Mail(CLOSED),
        Step::Act(CLOSED),
        Step::Closed(3),
    ]
}

/// The same of an act.
fn act() -> [Step; 4] {
    [
        Step::Act(DISK),
        Step::Mail(CLOSED),
        Step::Act(CLOSED),
        Step::Closed(3),
    ]
}

// Ten calls start the desk, and a seal is a write, a sync, a write and a sync. A closed desk writes nothing.
#[test]
fn a_failed_seal_closes_the_desk(rt: HostRuntime) -> Result<(), Fail> {
    let (mail, act) = (mail(), act());
    let courses = [
        course(11, &[], &mail, 1),
        course(12, &[], &mail, 1),
        course(13, &[], &mail, 2),
        course(14, &[], &mail, 2),
        course(11, &[], &act, 1),
        course(12, &[], &act, 1),
        course(13, &[], &act, 2),
        course(14, &[], &act, 2),
    ];
    let wrong = first_wrong(&rt, rt.alloc(), &courses)?;
    assert_eq!(rt; wrong, None);
    Ok(())
}
