//! Touches: what an item reads and writes, and which items commute (Brown and Patterson's tests).
//!
//! `touched` has the touches, `by_item` those of an item whose aims are known, `pairs` tells which items are independent
//! and which commute, and `laws` what commuting means for the store. `specs/` has the table of touches and the tests.
//! What carries the crate: `touches` gives what the table says, `commutes` and `independent` are its tests, and two items
//! that commute leave the same store and the same answers in either order. `commutes`, `independent` and `preferred` are asked
//! for by the interface; the program calls `touches`, and plans by the tables of replay_plan.
#![tactic(auto)]

mod by_item;
pub mod laws;
mod pairs;
mod touched;

pub use by_item::touches;
pub use pairs::{commutes, independent, preferred};
pub use touched::Touch;
use undo_base::Sequence;

/// The touches of an item.
pub type TouchSet = Sequence<Touch>;

/// The touches of items, one set for each, in order.
pub type TouchList = Sequence<TouchSet>;
