//! A sealed journal: frames behind gates, each payload on the disk before its gate is opened.
//!
//! `frame` has the bytes, `place` where a payload lies, `fault` why a call was refused, `durable` a write with its sync. `log` formats, seals and
//! reads, and `loading` finds what is there, as `seen` has it. `reading` reads a payload, and `range` has a part of one that is not read; `laws` says
//! what the definitions imply. What carries the crate: `Log::seal`, `any_moment` (a crash at any moment leaves the payloads from before the call, with
//! the new one or without) and `sealed` (at `Ok` each image has it).
#![tactic(auto)]

mod durable;
mod fault;
mod frame;
mod laws;
mod loading;
mod log;
mod place;
mod range;
mod reading;
mod seen;

pub use fault::{LoadFault, ReadFault, SealFault};
pub use laws::{one_reading, places_stay, readings_agree};
pub use loading::{load, survey};
pub use log::{Log, format};
pub use place::{Place, Places};
pub use range::unread;
pub use reading::read_before;
pub use seen::{End, Survey};
