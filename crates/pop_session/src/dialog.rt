//! The state of a dialog.
use crate::maildrop::Maildrop;
use undo_base::{Key, Keys, Name, Text, User};

/// AUTHORIZATION, with the name that USER gave, or TRANSACTION, with the maildrop of the user who is logged in (RFC 1939,
/// sections 4 and 5).
#[derive(Drop)]
pub enum Stage {
    Authorization { name: Option<Text> },
    Transaction { user: User, maildrop: Maildrop },
}

/// A message whose text is to be told: its octets as they are stored, and for TOP the number of lines.
#[derive(Clone, Copy)]
pub struct Wanted {
    pub key: Key,
    pub size: u32,
    pub lines: Option<u64>,
}

/// What is to be done once the store has done what was asked.
#[derive(Drop)]
pub enum Pending {
    /// PASS: the maildrop is entered.
    Enter { user: User, maildrop: Maildrop },
    /// RETR and TOP: this is told.
    Tell { answer: Text },
    /// QUIT, which is in UPDATE (RFC 1939, section 6): these messages have `\Deleted` then, and are to be removed.
    Mark { mailbox: Name, keys: Keys },
    /// QUIT: the marked messages are removed.
    Remove,
}

/// What is awaited.
#[derive(Drop)]
pub enum Awaits {
    Nothing,
    /// The text that RETR or TOP needs.
    Text { wanted: Wanted },
    /// The outcome of what was asked of the store.
    Outcome { pending: Pending },
}

/// The stage, and what is awaited.
#[derive(Drop)]
pub struct Dialog {
    pub stage: Stage,
    pub awaits: Awaits,
}
