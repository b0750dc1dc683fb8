//! The operator's repairs of a timeline, and the stamps of mailboxes after them.
//!
//! `edit` (in `editing`) makes the new timeline. `edit_at` does where the place of the point is known, and `edit_behind` but for the first items,
//! which stay. `point` finds where it is cut; `items` copies items and makes those of acts. `inserts` and `later` make what stands behind the point;
//! `unmatched` tells the asked numbers that did nothing. `asked` has what is asked, to be looked up by number, and `numbers` sets of numbers. `renew`
//! (in `renewing`) makes the stamps after a cycle from the stores before and after it. What carries the crate: `edit` answers `edited`, exactly where
//! the timeline has the point; `renew` answers `renewed`. `laws` has what holds of every repaired timeline, and of stamps: an item extends the
//! mailboxes that stay. `edit` and `edit_at` are asked for by the interface; cycles call `edit_behind`.
#![tactic(auto)]

mod asked;
mod editing;
mod inserts;
mod items;
mod later;
pub mod laws;
mod numbers;
mod point;
mod renewing;
mod unmatched;

pub use editing::{EditRefused, Edited, EditedBehind, edit, edit_at, edit_behind};
pub use numbers::NumberSet;
pub use point::position_of;
pub use renewing::renew;
