//! Items of the timeline, and what their users were shown.
//!
//! Items, deeds, acts, asks and configurations cannot be printed or compared in code, and what was shown cannot be printed.
//! Nothing needs it, and each such derive costs some seconds of proof.
use crate::{Aims, Filter, Sights};
use undo_base::{Flags, How, Key, Keys, Name, Names, Text, User, Users};

/// How a RENAME went.
#[derive(Clone, Copy, PartialEq, Eq)]
pub enum Way {
    Plain,
    NoSource,
    Merged,
}

/// An act of the operator.
#[derive(Drop)]
pub enum Act {
    SetAlias {
        local: Name,
        users: Users,
    },
    DropAlias {
        local: Name,
    },
    SetFilter(Filter),
    DropFilter {
        id: Name,
    },
    Remove {
        user: User,
        mailbox: Name,
        key: Key,
    },
    Give {
        user: User,
        mailbox: Name,
        text: Text,
    },
}

/// What an item does.
#[derive(Drop)]
pub enum Deed {
    Deliver {
        from: Text,
        to: Names,
        text: Text,
    },
    Append {
        mailbox: Name,
        flags: Flags,
        moment: u64,
        text: Text,
    },
    Fetch {
        mailbox: Name,
        keys: Keys,
        sets_seen: bool,
        shows_body: bool,
    },
    Store {
        mailbox: Name,
        keys: Keys,
        how: How,
        flags: Flags,
    },
    Copy {
        mailbox: Name,
        keys: Keys,
        target: Name,
    },
    List {
        pattern: Text,
    },
    Status {
        mailbox: Name,
    },
    Select {
        mailbox: Name,
    },
    Expunge {
        mailbox: Name,
        keys: Keys,
    },
    Close {
        mailbox: Name,
        keys: Keys,
    },
    Create {
        mailbox: Name,
    },
    Rename {
        mailbox: Name,
        target: Name,
    },
    Delete {
        mailbox: Name,
        keys: Keys,
    },
    Act(Act),
    Notice {
        user: User,
        text: Text,
    },
}

/// A message as it was shown: its key, and the rev of its body.
#[derive(Clone, Copy, PartialEq, Eq)]
pub struct Sight {
    pub key: Key,
    pub rev: u32,
}

/// What a user was shown.
#[derive(Drop, PartialEq, Eq)]
pub enum Shown {
    Nothing,
    Seen(Sights),
    Names(Names),
    Count(Option<u32>),
    Done(Keys),
    Copied { keys: Keys, redirected: bool },
    Put { redirected: bool },
    Left(Keys),
    Way(Way),
    Moved(Keys),
}

/// One recorded action.
#[derive(Drop)]
pub struct Item {
    pub number: u32,
    pub at: u64,
    pub by: Option<User>,
    pub rev: u32,
    pub deed: Deed,
    pub shown: Shown,
}

/// A mailbox where an item's new entries go, or one that it looked for and did not find.
#[derive(Drop)]
pub struct Aim {
    pub user: User,
    pub mailbox: Name,
    pub index: u16,
}

/// An item with the mailboxes that its new entries go to, and those that were looked for in vain.
#[derive(Drop)]
pub struct Resolved {
    pub item: Item,
    pub aims: Aims,
    pub missed: Aims,
}
