//! What a journal's records leave can be recorded again, by a cut: its base in a Base, and its items each in a Kept.
//!
//! A cut lacks a spelling just where a record of it is longer than a frame can hold or a UID of its base passed eight bytes. Then it ends
//! as for want of memory, however often it is asked for. What carries the crate: `cuts_can_be_written`.
#![tactic(auto)]

mod laws;

pub use laws::{bases_can_be_recorded, cuts_can_be_written, items_can_be_kept_again};
