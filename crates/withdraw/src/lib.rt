//! Withdrawing a cycle: the timeline without it.
//!
//! `undone` is what the last cycle left to be withdrawn, whole and without the items through its point. `unediting` joins it to the
//! present timeline: `numbered` finds what an item shows at present by its number. In specs/, `Unediting` is the timeline without the
//! cycle, and `Coming` what holds of what the cycle left beside the items in force since. What carries the crate: `unedit` answers
//! `unedited`, and `unedit_behind` the same list but for its front, by `laws`, which has what holds of every such timeline.
#![tactic(auto)]

pub mod laws;
mod numbered;
mod undone;
mod unediting;

pub use undone::{Undone, UndoneBehind};
pub use unediting::{unedit, unedit_behind};
