//! IMAP's untagged answers, byte for byte.
//!
//! `facts` has what is told, `write` the words of all answers, and `fetch`, `boxes` and `expunge` the answers.
//! What carries the crate: each call's bytes are those of a definition over lists, written from RFC 3501, section 7.
//! `date_text` is asked for by the interface; the program calls `render_fetch`, which writes the same dates.
#![tactic(auto)]

mod boxes;
mod expunge;
mod facts;
mod fetch;
mod write;

pub use boxes::{delimiter, render_list, render_select, render_status};
pub use expunge::render_expunge;
pub use facts::{BoxFacts, FetchPart, FetchValue};
pub use fetch::{date_text, render_fetch};

/// The attributes of a message, in order.
pub type FetchParts = undo_base::Sequence<FetchPart>;
