//! Mailboxes and what lies in them.
//!
//! Rows and stamps hold pairs of `BoxId { user, name }` and a mailbox or a stamp.
use crate::Entries;
use undo_base::{Flags, Key, Name, User};

/// Names the text of a message: the item that brought it, and 0 or the cycle that replaced it.
#[derive(Clone, Copy, PartialEq, Eq)]
pub struct Body {
    pub origin: u32,
    pub rev: u32,
}

/// A message in a mailbox.
#[derive(Clone, Copy, PartialEq, Eq)]
pub struct Entry {
    pub uid: u64,
    pub key: Key,
    pub body: Body,
    pub flags: Flags,
    pub at: u64,
}

/// The next UID, and the entries by rising UID (RFC 3501, section 2.3.1.1).
#[derive(Drop)]
pub struct Mailbox {
    pub next: u64,
    pub entries: Entries,
}

/// Names a mailbox: whose it is, and its name.
#[derive(Drop, PartialEq, Eq)]
pub struct BoxId {
    pub user: User,
    pub name: Name,
}
