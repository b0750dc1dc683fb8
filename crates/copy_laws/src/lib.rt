//! A copy of a store that is served is a store.
//!
//! `Copies` of specs/ says what a program gets that reads the journal's file in pieces while it grows. `Seen` says what it may see of the disk meanwhile,
//! and `Answered` which records are in it then. `laws` has what holds of any journal, and over a disk; `served` has what holds while a desk seals, and while
//! mail is served. What carries the crate: `copies_stand` and `copies_of_a_served_store`.
#![tactic(auto)]

mod laws;
mod served;

pub use laws::{
    beginnings_are_mended, copies_of_a_disk, copies_stand, damages_are_mended, reads_go_forward,
};
pub use served::{copies_have_what_was_answered, copies_of_a_desk, copies_of_a_served_store};
