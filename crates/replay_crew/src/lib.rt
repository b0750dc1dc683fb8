//! A replay by levels: items that commute may come in another order, and those of one level are worked out side by side.
//!
//! `resolving` finds where each item's mail goes when its turn comes, with the texts that `reading` reads, and what each item
//! touches. `run` performs the items of a plan, level by level. The items of a level are worked out by workers on the one store
//! before it. What they do is then done in order by one thread, which puts each answer at its place. `laws` says what any order
//! gives in which only items that commute are turned, and that the plan is such an order. It says too that the items of a level
//! can be worked out on one store. In specs/, `Orders` has the orders, `Resolving` what it means that items are resolved,
//! `Outline` how an outline of the store goes on, and `Hearing` which texts are asked for. What carries the crate: `run_plan`
//! leaves the store that the timeline's order leaves, and gives each item its answer.
#![tactic(auto)]

pub mod laws;
mod level;
mod made;
mod reading;
mod resolving;
mod run;

pub use reading::{hear, text_for};
pub use resolving::{resolve, touch_all};
pub use run::run_plan;
use undo_base::Sequence;
use verb_core::{Resolved, Shown};

/// Items in order, each with its aims, and without its text but for notices.
pub type ResolvedList = Sequence<Resolved>;

/// What items show, in their order.
pub type Shows = Sequence<Shown>;
