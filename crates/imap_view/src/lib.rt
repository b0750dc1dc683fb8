//! What an IMAP session knows of its mailbox, and what the store tells of it.
//!
//! `messages` is the view, the messages that a session knows, and how it is told of changes. `facts` has what the store tells of a mailbox. `named`
//! has the messages that a command names, `picks` finds those that it names by UID, and `names` the mailboxes and accounts. `laws` says that a client
//! can follow a view. What carries the crate: each call is the function of its name in specs/Views.antt, specs/Facts.antt, specs/Named.antt or
//! specs/Names.antt.
#![tactic(auto)]

mod facts;
pub mod laws;
mod messages;
mod named;
mod names;
mod picks;

pub use facts::{is_there, mail_of, select_facts, status_facts};
pub use messages::{Known, View, is_current, news, view_of};
pub use named::{entry_at, keys_at, length_of, places_named, rows_at};
pub use names::{account_of, made_mailbox_of, mailbox_of};
