//! Sections of a message's text: its header, what follows that, and fields of the header (RFC 3501, section 6.4.5).
//!
//! What a header, its lines and its fields are, is said in header_fields. What carries the crate: `section` answers the bytes of a
//! definition over them; `laws` says what the definition implies.
#![tactic(auto)]

mod asked; // what a FETCH asks for
mod laws; // what sections are together
mod listed; // the fields with a listed name

pub use asked::section;
pub use laws::{fields_are_the_header, header_and_text_are_all, listed_and_others_are_all};
