//! Cutting the past off: a store whose past went into a base is written as a new journal.
//!
//! `parts` is what a cut is made of, `fault` why it was not written. `writing` writes bytes whole, `framing` a payload behind an
//! open gate, `cutting` the payloads of a cut, many of which `gathering` keeps until they are written together. `laws` says what
//! the definitions imply. In specs/, Writing is what a sink took, Cutting what a cut is. What carries the crate: `write_cut`. By
//! `exact` what is written is the cut, byte for byte, or a first part of it that is no journal. By `reads` one read failed where
//! that is told, and none where anything else is.
#![tactic(auto)]

mod cutting;
mod fault;
mod framing;
mod gathering;
pub mod laws;
mod parts;
mod writing;

pub use cutting::write_cut;
pub use fault::CutFault;
pub use parts::{BodyList, CutParts};
pub use writing::write_all;
