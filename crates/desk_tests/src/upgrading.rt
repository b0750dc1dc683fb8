//! Tests of the upgrade of a store.
use crate::answers::{CLOSED, DISK};
use crate::courses::{Course, Step, first_wrong, run};
use crate::desks::{JOURNAL, restarted};
use std::alloc::Global;
use std::test::Fail;
use std::thread::Threads;
use undo_outside::MemDisk;

fn course<'a>(failing: u32, first: &'a [Step], then: &'a [Step]) -> Course<'a> {
    Course {
        image: JOURNAL,
        failing,
        first,
        then,
        writes: None,
    }
}

/// A desk is upgraded, once and again.
fn once() -> [Step; 4] {
    [
        Step::Upgraded(false),
        Step::Upgrade(0),
        Step::Upgrade(0),
        Step::Upgraded(true),
    ]
}

/// How many writes were tried, and whether a desk that is started again is upgraded.
fn reopened(alloc: Global, disk: MemDisk) -> Result<(usize, bool), Fail> {
    let writes = disk.writes();
    let desk = restarted(alloc, disk)?;
    let upgraded = desk.upgraded();
    drop(desk.into_disk());
    Ok((writes, upgraded))
}

/// The same behind those steps, and the first that is answered otherwise.
fn sealed<R: Threads + Sync>(rt: &R, alloc: Global) -> Result<(Option<usize>, usize, bool), Fail> {
    let steps = once();
    let (wrong, disk) = run(rt, alloc, &course(0, &[], &steps))?;
    let (writes, upgraded) = reopened(alloc, disk)?;
    Ok((wrong, writes, upgraded))
}

// A seal is two writes. What was sealed is there when the store is opened again.
#[test]
fn an_upgrade_is_sealed_once(rt: HostRuntime) -> Result<(), Fail> {
    let (wrong, writes, upgraded) = sealed(&rt, rt.alloc())?;
    assert_eq!(rt; wrong, None);
    assert_eq!(rt; writes, 2);
    assert!(rt; upgraded);
    Ok(())
}

/// An upgrade closes the desk, which stays as it was and upgrades no more.
fn closing() -> [Step; 3] {
    [
        Step::Upgrade(DISK),
        Step::Upgrade(CLOSED),
        Step::Upgraded(false),
    ]
}

/// A desk that was upgraded and then closed is told that it is upgraded.
fn closed() -> [Step; 4] {
    [
        Step::Upgrade(0),
        Step::Mail(DISK),
        Step::Upgrade(0),
        Step::Closed(3),
    ]
}

// Ten calls start the desk, and a seal is a write, a sync, a write and a sync.
#[test]
fn a_failed_upgrade_closes_the_desk(rt: HostRuntime) -> Result<(), Fail> {
    let (closing, closed) = (closing(), closed());
    let courses = [
        course(11, &closing, &[]),
        course(12, &closing, &[]),
        course(13, &closing, &[]),
        course(14, &closing, &[]),
        course(15, &closed, &[]),
    ];
    let wrong = first_wrong(&rt, rt.alloc(), &courses)?;
    assert_eq!(rt; wrong, None);
    Ok(())
}
