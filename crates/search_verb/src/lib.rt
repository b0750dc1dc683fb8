//! SEARCH: which messages a key matches (RFC 3501, section 6.4.4).
//!
//! `keys` has the keys and `candidate` what is known of a message; header_fields cuts the header of a text, `occurs` finds a
//! string in bytes, and `matching` puts them together. What carries the crate: `matches` answers `does_match`, and `looks` answers
//! `looked_at`, both with no memory and no refusal. `strings` gives the answers of `matches` in time that grows as strings and
//! texts together, and takes memory for it.
#![tactic(auto)]

mod building;
mod candidate;
mod copying;
mod keys;
mod laws;
mod matching;
mod occurs;
mod strings;

pub use building::{Search, Searches};
pub use candidate::{Candidate, Look};
pub use keys::{Bytes, SearchKey, SearchKeys, SearchRange, SearchRanges};
pub use laws::strings_occur_as_parts;
pub use matching::{looks, matches};
