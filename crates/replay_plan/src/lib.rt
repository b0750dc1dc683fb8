//! The plan of a replay: which items may be replayed side by side.
//!
//! `slots` keeps a level for each part of each place; `parts` tells which parts a touch is of and which it must come behind.
//! `last` keeps their last levels, `skips` the levels that are taken, `by_level` gathers the places of each level. `planning`
//! makes the plan of a list of items, and `telling` writes it as text. `laws` says what holds of each plan. `specs/` says what a
//! level is, over all earlier items, and how a plan is told. What carries the crate: `plan` gives each item the least level that
//! it may have.
#![tactic(auto)]

mod by_level;
mod last;
pub mod laws;
mod parts;
mod planning;
mod skips;
mod slots;
mod telling;

pub use planning::plan;
pub use telling::plan_text;
use undo_base::{Numbers, Sequence};

/// For each level, from 1, the places of its items, rising.
pub type Levels = Sequence<Numbers>;
