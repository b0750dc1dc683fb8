//! The header of a message: its lines, its fields, their names and values, and what follows it (RFC 5322, section 2).
//!
//! The one home of these rules: FETCH tells sections by them (mail_sections), and SEARCH looks at fields by them (search_verb). What
//! carries the crate: `header_len`, `field_len`, `is_named` and `value_in` answer what the definitions of specs/ say. `laws` says
//! that lines and fields are the text and its header, each byte once and in order, and that the name of a field is a name. Nothing
//! here takes memory.
#![tactic(auto)]

mod fields; // fields: a line, and the lines that go on with it
mod header; // how long the header is, and what follows it
mod laws; // what the parts of a text are together
mod lines; // lines, each with its CRLF
mod values; // the name and the value of a field

pub use fields::{begins_field, field_len};
pub use header::{behind_header, header_len};
pub use laws::{
    field_names_are_names, fields_are_the_header, header_and_rest_are_the_text, lines_are_the_text,
};
pub use values::{has_name, is_field_name, is_named, name_in, value_in};
