//! Tests of which items a cycle's workers, and a withdrawal's, pass the gate for, and that two of one level are worked out side by side.
use crate::courses::{Course, OPEN, Step, Work, first_wrong};
use crate::desks::{BEGUN, BEGUN_LATE};
use std::test::Fail;

/// Over a disk whose calls all succeed.
fn course<'a>(image: &'static [u8], steps: &'a [Step]) -> Course<'a> {
    Course {
        image,
        failing: 0,
        first: steps,
        then: &[],
        writes: None,
    }
}

/// Mail to ann and to bob.
fn beside() -> [Step; 2] {
    [Step::Fill(2, 4), Step::Beside(("one", 0, &[], false), 2, 4)]
}

/// The same behind a snapshot, by a cycle that begins with it.
fn behind() -> [Step; 4] {
    [
        Step::Fill(2, 5),
        Step::Snapshot(3),
        Step::Fill(5, 7),
        Step::Beside(("one", 4, &[], false), 5, 7),
    ]
}

#[test]
fn items_of_one_level_are_worked_out_side_by_side(rt: HostRuntime) -> Result<(), Fail> {
    let (beside, behind) = (beside(), behind());
    let courses = [course(BEGUN, &beside), course(BEGUN, &behind)];
    let wrong = first_wrong(&rt, rt.alloc(), &courses)?;
    assert_eq!(rt; wrong, None);
    Ok(())
}

/// Ten mails, a snapshot and three mails more: the kept items alone pass. A trial and a cycle begin at the snapshot's place, one at
/// a later point, one's point is the last item, and one lies before the snapshot.
fn kept_alone() -> [Step; 8] {
    [
        Step::Fill(2, 12),
        Step::Snapshot(10),
        Step::Fill(12, 15),
        Step::Work(Work::Try(("-", 11, &[], false)), (15, 12, 15), 15),
        Step::Work(Work::Cycle(("odd", 11, &[], false)), (15, 12, 15), 15),
        Step::Work(Work::Cycle(("even", 12, &[], false)), (16, 13, 15), 16),
        Step::Work(Work::Cycle(("last", 14, &[], false)), (17, 0, 0), 17),
        Step::Work(Work::Cycle(("first", 5, &[], false)), (18, 6, 15), 18),
    ]
}

/// An act that comes in, of number 6, passes where the point is the last item, and no other item does.
fn inserted() -> [Step; 2] {
    [
        Step::Fill(2, 5),
        Step::Work(Work::Cycle(("one", 4, &[], true)), (7, 6, 7), 5),
    ]
}

/// Each of sixty kept items, of numbers 999 to 1058.
fn late() -> [Step; 2] {
    [
        Step::Fill(999, 1059),
        Step::Work(Work::Cycle(("odd", 0, &[], false)), (1059, 999, 1059), 1059),
    ]
}

/// The withdrawal of a cycle that goes back behind the second mail lets the two behind it pass, and no other item.
fn back() -> [Step; 3] {
    [
        Step::Fill(2, 6),
        Step::Work(Work::Cycle(("one", 3, &[], false)), OPEN, 6),
        Step::Work(Work::Withdraw("two", 6), (8, 4, 6), 7),
    ]
}

#[test]
fn items_that_are_worked_out_pass_the_gate_alone(rt: HostRuntime) -> Result<(), Fail> {
    let (kept_alone, inserted, late, back) = (kept_alone(), inserted(), late(), back());
    let courses = [
        course(BEGUN, &kept_alone),
        course(BEGUN, &inserted),
        course(BEGUN_LATE, &late),
        course(BEGUN, &back),
    ];
    let wrong = first_wrong(&rt, rt.alloc(), &courses)?;
    assert_eq!(rt; wrong, None);
    Ok(())
}
