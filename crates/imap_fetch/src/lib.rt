//! What an IMAP client is told of messages by FETCH and STORE.
//!
//! `asked` has the attributes that a FETCH asks for and what they mean for the store, `same` which of them are the same.
//! `messages` has the messages of a view as they lay before the command, `flags` what they are marked with afterwards. `labels`
//! has the names of their attributes, `parts` the values, and `lines` the answers. What carries the crate: `fetch_lines` and
//! `store_lines`, whose bytes are those of a definition over lists, written from RFC 3501, sections 6.4.5, 6.4.6 and 7.4.2.
#![tactic(auto)]

mod asked;
mod flags;
mod labels;
mod lines;
mod messages;
mod parts;
mod same;

pub use asked::{Attribute, attributes_of, body_sections, sets_seen, shows_body};
pub use lines::{FetchForm, StoreForm, fetch_lines, store_lines};
pub use messages::{Message, octets_asked};

/// Attributes, in the order in which they are told.
pub type Attributes = undo_base::Sequence<Attribute>;

/// Messages of a view, in rising order.
pub type Messages = undo_base::Sequence<Message>;
