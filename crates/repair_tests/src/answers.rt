//! Notices byte for byte, of many users and many lines, and copies of a report.

use paradox::{BrokenItem, BrokenList, Notices, Reason, Renewals, Report, notices};
use std::alloc::Global;
use std::test::Fail;
use undo_base::{Copies, Name, Names, NoMemory, Numbers, User};
use verb_core::{Account, Accounts, BoxId, Deed, House, Item, Shown};

const AT: u64 = 1105092000;

fn name(alloc: Global, bytes: &[u8]) -> Result<Name, Fail> {
    Ok(Name::read(alloc, bytes)?)
}

fn ann(alloc: Global) -> Result<Account, Fail> {
    let password = name(alloc, b"p")?;
    Ok(Account {
        name: name(alloc, b"ann")?,
        password,
    })
}

/// So many accounts, each of them of an ann.
fn accounts(alloc: Global, count: u32) -> Result<Accounts, Fail> {
    let mut accounts = Accounts::new(alloc);
    for _ in 0..count {
        accounts.push(ann(alloc)?)?;
    }
    Ok(accounts)
}

fn domains(alloc: Global) -> Result<Names, Fail> {
    let mut domains = Names::new(alloc);
    domains.push(name(alloc, b"mail.test")?)?;
    Ok(domains)
}

pub(crate) fn house(alloc: Global, count: u32) -> Result<House, Fail> {
    let accounts = accounts(alloc, count)?;
    let domains = domains(alloc)?;
    Ok(House {
        host: name(alloc, b"mail.test")?,
        domains,
        accounts,
        postmaster: User(0),
        first: 2,
    })
}

fn rename(alloc: Global) -> Result<Deed, Fail> {
    let mailbox = name(alloc, b"Work")?;
    Ok(Deed::Rename {
        mailbox,
        target: name(alloc, b"Old")?,
    })
}

fn item(number: u32, user: u8, deed: Deed) -> Item {
    Item {
        number,
        at: AT,
        by: Some(User(user)),
        rev: 0,
        deed,
        shown: Shown::Nothing,
    }
}

/// A user's RENAME that no longer holds.
fn told(alloc: Global, number: u32, user: u8) -> Result<Option<BrokenItem>, Fail> {
    let deed = rename(alloc)?;
    Ok(told_of(alloc, item(number, user, deed))?)
}

fn told_of(alloc: Global, item: Item) -> Result<Option<BrokenItem>, NoMemory> {
    BrokenItem::of(alloc, &item, Reason::Renamed)
}

/// Adds what is told of an item.
fn push_told(list: &mut BrokenList, told: Option<BrokenItem>) -> Result<(), NoMemory> {
    match told {
        Some(told) => list.push(told),
        None => Ok(()),
    }
}

/// So many items, of each of so many users in turn.
fn broken_items(alloc: Global, count: u32, users: u8) -> Result<BrokenList, Fail> {
    let mut list = BrokenList::new(alloc);
    let mut user: u8 = 0;
    for place in 0..count {
        push_told(&mut list, told(alloc, place.saturating_add(1000), user)?)?;
        user = user.saturating_add(1);
        if user >= users {
            user = 0;
        }
    }
    Ok(list)
}

const TWO_LINES: &[u8] =
    b"From: undomail <postmaster@mail.test>\r\nTo: <ann@mail.test>\r\nSubject: Mail rewound and replayed, cycle 7\r\nDate: 7 Jan 2005 10:00:00 +0000\r\n\r\nThese answers that you were given no longer hold:\r\n1000 RENAME Work: the mailbox was not renamed\r\n1002 RENAME Work: the mailbox was not renamed\r\n";

/// The notices of so many items of so many users.
fn made(alloc: Global, count: u32, users: u8) -> Result<Notices, Fail> {
    let house = house(alloc, u32::from(users))?;
    let list = broken_items(alloc, count, users)?;
    if !house.is_sound() {
        return Err(Fail::new("the house is not sound"));
    }
    Ok(notices(alloc, &house, 7, AT, &list)?)
}

fn has_first(notices: &Notices, user: User, bytes: &[u8]) -> bool {
    match notices.get(0) {
        Some(found) => found.0 == user && found.1.bytes() == bytes,
        None => false,
    }
}

/// Whether there is one notice of so many bytes for each of so many users, in their order.
fn has_each(notices: &Notices, users: usize, bytes: usize) -> bool {
    notices.len() == users
        && notices.iter().enumerate().all(|(place, told)| told.0.0 as usize == place
            && told.1.bytes().len() == bytes)
}

fn few_have_first(alloc: Global) -> Result<bool, Fail> {
    let notices = made(alloc, 3, 2)?;
    let has = has_first(&notices, User(0), TWO_LINES);
    drop(notices);
    Ok(has)
}

fn none_have_any(alloc: Global) -> Result<bool, Fail> {
    let notices = made(alloc, 0, 2)?;
    let none = notices.is_empty();
    drop(notices);
    Ok(none)
}

/// Whether of so many items of so many users each has a notice of so many bytes.
fn made_have_each(alloc: Global, count: u32, users: u8, bytes: usize) -> Result<bool, Fail> {
    let notices = made(alloc, count, users)?;
    let has = has_each(&notices, usize::from(users), bytes);
    drop(notices);
    Ok(has)
}

// A line has 47 bytes, and what stands before the lines 191.
#[test]
fn notices_name_the_broken_items(rt: HostRuntime) -> Result<(), Fail> {
    let first = few_have_first(rt.alloc())?;
    let many = made_have_each(rt.alloc(), 1000, 200, 191 + 5 * 47)?;
    let long = made_have_each(rt.alloc(), 1000, 1, 191 + 1000 * 47)?;
    let none = none_have_any(rt.alloc())?;
    assert!(rt; first);
    assert!(rt; many);
    assert!(rt; long);
    assert!(rt; none);
    Ok(())
}

/// One mailbox of ann's, with its new stamp.
fn renewals(alloc: Global) -> Result<Renewals, Fail> {
    let name = name(alloc, b"Keep")?;
    let mut renewed = Renewals::new(alloc);
    let user = User(0);
    renewed.push((BoxId { user, name }, 7))?;
    Ok(renewed)
}

fn numbers(alloc: Global, list: &[u32]) -> Result<Numbers, Fail> {
    Ok(Numbers::from_vec(Vec::from_slice(alloc, list)?))
}

fn report(alloc: Global) -> Result<Report, Fail> {
    let broken = broken_items(alloc, 3, 2)?;
    let notices = numbers(alloc, &[8])?;
    let unmatched = numbers(alloc, &[99])?;
    Ok(Report {
        cycle: 7,
        point: 3,
        kept: 2,
        broken,
        notices,
        renewed: renewals(alloc)?,
        unmatched,
    })
}

fn is_copied(alloc: Global, report: &Report) -> Result<bool, Fail> {
    let copy = report.copy(alloc)?;
    let same = copy == *report;
    drop(copy);
    Ok(same)
}

#[test]
fn reports_are_copied(rt: HostRuntime) -> Result<(), Fail> {
    let report = report(rt.alloc())?;
    let broken = report.broken.len();
    let copied = is_copied(rt.alloc(), &report);
    drop(report);
    let copied = copied?;
    assert!(rt; broken == 3);
    assert!(rt; copied);
    Ok(())
}
