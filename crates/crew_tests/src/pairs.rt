//! Pairs of items by what they touch: which are independent, and which commute.
use crate::given::name;
use std::alloc::Global;
use std::test::Fail;
use touch_rules::{Touch, TouchSet, commutes, independent};
use undo_base::{Key, Keys, User};

/// What an item touches that touches one place.
fn one(alloc: Global, touch: Touch) -> Result<TouchSet, Fail> {
    let mut set = TouchSet::new(alloc);
    set.push(touch)?;
    Ok(set)
}

/// The delivery of that number to a user's INBOX.
fn sent(alloc: Global, user: u8, number: u32) -> Result<TouchSet, Fail> {
    let mailbox = name(alloc, b"INBOX")?;
    one(
        alloc,
        Touch::Tail {
            user: User(user),
            mailbox,
            number,
        },
    )
}

/// A STORE of the message of an item in a user's INBOX.
fn stored(alloc: Global, user: u8, item: u32) -> Result<TouchSet, Fail> {
    let mailbox = name(alloc, b"INBOX")?;
    let mut keys = Keys::new(alloc);
    keys.push(Key { item, index: 0 })?;
    one(
        alloc,
        Touch::Keys {
            user: User(user),
            mailbox,
            keys,
            writes: true,
        },
    )
}

/// A STATUS of a user's INBOX.
fn counted(alloc: Global, user: u8) -> Result<TouchSet, Fail> {
    let mailbox = name(alloc, b"INBOX")?;
    one(
        alloc,
        Touch::Whole {
            user: User(user),
            mailbox,
            writes: false,
        },
    )
}

/// A LIST of a user's names.
fn listed(alloc: Global, user: u8) -> Result<TouchSet, Fail> {
    one(
        alloc,
        Touch::Names {
            user: User(user),
            writes: false,
        },
    )
}

/// A RENAME of a user.
fn renamed(alloc: Global, user: u8) -> Result<TouchSet, Fail> {
    one(alloc, Touch::Every { user: User(user) })
}

/// An item by what it touches.
#[derive(Clone, Copy)]
enum Kind {
    /// The delivery of a number to a user's INBOX.
    Sent(u8, u32),
    /// A STORE of the message of an item there.
    Stored(u8, u32),
    Counted(u8),
    Listed(u8),
    Renamed(u8),
}

fn set(alloc: Global, kind: Kind) -> Result<TouchSet, Fail> {
    match kind {
        Kind::Sent(user, number) => sent(alloc, user, number),
        Kind::Stored(user, item) => stored(alloc, user, item),
        Kind::Counted(user) => counted(alloc, user),
        Kind::Listed(user) => listed(alloc, user),
        Kind::Renamed(user) => renamed(alloc, user),
    }
}

/// Whether two are independent, and whether they commute, each way round.
fn are(a: &TouchSet, b: &TouchSet, apart: bool, swap: bool) -> bool {
    independent(a, b) == apart
        && independent(b, a) == apart
        && commutes(a, b) == swap
        && commutes(b, a) == swap
}

fn are_with(
    alloc: Global,
    first: &TouchSet,
    second: Kind,
    apart: bool,
    swap: bool,
) -> Result<bool, Fail> {
    let second = set(alloc, second)?;
    let right = are(first, &second, apart, swap);
    drop(second);
    Ok(right)
}

/// Two items, whether they are independent, and whether they commute.
type Pair = (Kind, Kind, bool, bool);

fn is_right(alloc: Global, (first, second, apart, swap): Pair) -> Result<bool, Fail> {
    let first = set(alloc, first)?;
    let right = are_with(alloc, &first, second, apart, swap);
    drop(first);
    right
}

/// The place of the first of these pairs that is not so.
fn misplaced(alloc: Global, pairs: &[Pair]) -> Result<Option<usize>, Fail> {
    for (place, pair) in pairs.iter().enumerate() {
        if !is_right(alloc, *pair)? {
            return Ok(Some(place));
        }
    }
    Ok(None)
}

// Deliveries, changes, counts and renames.
#[test]
fn pairs_commute_as_the_table_says(rt: HostRuntime) -> Result<(), Fail> {
    let pairs: [Pair; 14] = [
        (Kind::Sent(3, 10), Kind::Sent(3, 11), false, false),
        (Kind::Sent(3, 10), Kind::Sent(4, 12), true, true),
        (Kind::Stored(3, 5), Kind::Stored(3, 6), false, true),
        (Kind::Stored(3, 5), Kind::Stored(3, 5), false, false),
        (Kind::Stored(3, 5), Kind::Sent(3, 10), false, true),
        (Kind::Stored(3, 10), Kind::Sent(3, 10), false, false),
        (Kind::Counted(3), Kind::Counted(3), true, true),
        (Kind::Counted(3), Kind::Sent(3, 10), false, false),
        (Kind::Renamed(3), Kind::Renamed(4), true, true),
        (Kind::Renamed(3), Kind::Renamed(3), false, false),
        (Kind::Renamed(3), Kind::Sent(3, 10), false, false),
        (Kind::Renamed(3), Kind::Counted(3), false, false),
        (Kind::Renamed(3), Kind::Listed(3), false, false),
        (Kind::Renamed(4), Kind::Listed(3), true, true),
    ];
    assert_eq!(rt; misplaced(rt.alloc(), &pairs)?, None);
    Ok(())
}
