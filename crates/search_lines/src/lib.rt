//! The arguments of an IMAP client's SEARCH (RFC 3501, sections 6.4.4 and 9), read from the tokens of a command.
//!
//! `words` has the words of keys, `days` reads their dates and `strings` their arguments. `leaves` reads a key that holds no other,
//! `keys` one that may hold others, up to a depth, and `sought` the whole. `laws` says what the definitions mean. What carries the
//! crate: `read_sought` gives `sought_in`, which `searches_are_spelled` says by the grammar of specs/Grammar.antt.
#![tactic(auto)]

mod days;
mod keys;
mod laws;
mod leaves;
mod sought;
mod strings;
mod words;

pub use laws::searches_are_spelled;
pub use sought::{Sought, read_sought};
