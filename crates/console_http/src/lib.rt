//! The operator's console: what a request asks.
//!
//! `parts` reads the parts of paths and the names in members. `members` has the members of a JSON object, `acts` the acts that
//! they make, `cycles` what is asked of a cycle. `pages` says which page a path is of, by a router; `request` puts them together
//! over `console_head`. `laws` says that acts and cycles name known users and can be recorded. What carries the crate:
//! `read_coming` answers what `Asks` says of a connection's bytes, up to want of memory. `read_request` is asked for by the
//! interface; the program calls `read_coming`, which knows what it has read before.
#![tactic(auto)]

mod acts;
mod cycles;
pub mod laws;
mod members;
mod pages;
mod parts;
mod request;

pub use console_head::Coming;
pub use request::{Asked, HttpRefused, Route, read_coming, read_request};
