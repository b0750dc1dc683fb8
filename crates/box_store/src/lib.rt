//! The mail store in memory, which meets the model of verb_core.
//!
//! `store` holds the mailboxes in rows and tells what it has; rows and single mailboxes are those of mail_rows. `make` makes
//! an item's effect, and `plan` says what of it is done to mailboxes. `reserve` makes room for it in `spares`; `apply` (with
//! `work` and `moving`) does it. `live` answers what a user asks, by `refusals` and `room`. `laws` has what holds of every item.
//! `rows` makes stores of rows that were read.
//! Smaller: `effect` is what an effect is, `asked` what an ask names; `steps` counts, and `threads` says what may cross
//! threads. `outline` makes outlines, in which no mail lies.
//! What carries the crate: `Store::perform` is `step`; `Store::effect`, `reserve` and `apply` are it in three parts, of
//! which the last takes no memory; `Store::live` is `live`.
//! `Store::from_rows` gives the valid store of the rows, or the place at which they are refused.
#![tactic(auto)]

mod apply;
mod asked;
mod effect;
mod laws;
mod live;
mod make;
mod moving;
mod names;
mod outline;
mod plan;
mod refusals;
mod reserve;
mod room;
mod rows;
mod spares;
mod steps;
mod store;
mod threads;
mod work;

pub use effect::{Effect, Move, Work};
pub use mail_rows::{FlagChange, KeySet, Put};
pub use names::{but_last, is_at_or_below, moved_name};
pub use rows::{RowsRefused, makes_store, rows_fault, rows_make_valid_stores};
pub use steps::Steps;
pub use store::Store;
pub use threads::types_cross_threads;
pub use verb_core::SubmitFault;
