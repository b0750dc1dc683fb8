//! What answers tell.
use undo_base::{Flags, Text};

/// The value of an attribute of a message.
#[derive(Debug, Drop)]
pub enum FetchValue {
    Flags(Flags),
    Number(u64),
    /// Seconds since 1970 in UTC.
    Moment(u64),
    Literal(Text),
}

/// An attribute of a message: its name as it is written, and its value.
#[derive(Debug, Drop)]
pub struct FetchPart {
    pub label: Text,
    pub value: FetchValue,
}

/// What a mailbox tells of itself. `first_unseen` is a number in the view, from 1.
#[derive(Clone, Copy, Debug, PartialEq, Eq)]
pub struct BoxFacts {
    pub messages: u32,
    pub next: u64,
    pub stamp: u32,
    pub unseen: u32,
    pub first_unseen: Option<u32>,
}
