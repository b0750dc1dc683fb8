//! From which snapshots of a journal a cycle can begin, said in the words of the journal's records.
//!
//! What is kept of a store in use has the places of its snapshots, kept up to date by each record (`Marks` of paradox). Here they
//! are shown to be those of the snapshots that the records themselves make usable (`IsUsable`), and `newest_at` the last of these.
//! What carries the crate: `cycles_begin_from_the_last_usable_snapshot`.
#![tactic(auto)]

mod laws;

pub use laws::{
    counts_are_the_records, cycles_begin_from_the_last_usable_snapshot,
    newest_at_is_the_last_at_or_before, newest_mark_is_the_greatest,
    places_are_the_usable_snapshots, places_rise,
};
