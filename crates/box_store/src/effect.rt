//! Effects: what an item does, made from a store and applied to it, or to one that has the same mailboxes where the item
//! touches them.
//!
//! An effect names the entries whose flags change by their places, and those that go by their keys. Two aims of a delivery may be
//! one mailbox: the mail is put one after the other.
//!
//! What an item's effect does in another store is said of each that has the same mailboxes where the item touches them
//! (`IsEffect`), as `apply` is meant. Where it touches names of the item's user these are the same too. What a DELETE leaves
//! depends on whether its user has an inferior of the name, and what a RENAME does on all names of its user. So the names count
//! beside the mailboxes. A level leaves these names, so each item of a level may be worked out on the store before it.
use mail_rows::{FlagChange, KeySet, Put};
use undo_base::{Key, Name, Names, Sequence, User};
use verb_core::{Act, BoxId, Shown, Way};

/// A mailbox takes another name.
#[derive(Drop)]
pub struct Move {
    pub from: Name,
    pub to: Name,
}

/// What an item does to mailboxes, as large as what it changes.
#[derive(Drop)]
pub enum Work {
    /// New mail at the end of mailboxes, one after the other; none where the mailboxes stay as they are.
    Puts(Sequence<Put>),
    /// Other flags.
    Flags {
        mailbox: BoxId,
        flags: Sequence<FlagChange>,
    },
    /// The entries of these keys that have `\Deleted` go (RFC 3501, section 6.4.3).
    Expunge {
        mailbox: BoxId,
        keys: KeySet,
    },
    /// The entries of a key go.
    Remove {
        mailbox: BoxId,
        key: Key,
    },
    /// Empty mailboxes of a user come where there are none, one after the other (RFC 3501, section 6.3.3).
    Create {
        user: User,
        mailboxes: Names,
    },
    /// A mailbox and its inferiors take other names, below superiors that are made; or its entries move into another mailbox
    /// (RFC 3501, section 6.3.5).
    Rename {
        way: Way,
        user: User,
        source: Name,
        target: Name,
        made: Names,
        moves: Sequence<Move>,
    },
    /// A mailbox goes with the entries of these keys, and its others move to Lost+Found.
    Delete {
        user: User,
        mailbox: Name,
        keys: KeySet,
    },
}

/// What an item does to the mailboxes and, where it is an operator's act, to the configuration; and what its user is
/// shown.
#[derive(Drop)]
pub struct Effect {
    pub(crate) work: Work,
    pub(crate) act: Option<Act>,
    pub(crate) shown: Shown,
}
