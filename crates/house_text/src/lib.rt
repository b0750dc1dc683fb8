//! The text of a configuration: a house and its aliases, written in TOML.
//!
//! `words` says what its texts may be, `tables` looks keys up. `accounts`, `house` and `aliases` read the parts, and `read` reads all of it.
//! `beginning` tells what some text can give, and `playing` has the house of `play`. What carries the crate: `read_config` gives what the text
//! configures, by the definition over what it means as TOML, and refuses every other text; `playing_config` gives that house.
#![tactic(auto)]

mod accounts;
mod aliases;
mod beginning;
mod house;
mod playing;
mod read;
mod tables;
mod words;

pub use beginning::can_begin;
pub use playing::{HOUSE, playing_config};
pub use read::{ConfigRefused, read_config};
