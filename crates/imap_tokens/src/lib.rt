//! What stands in the arguments of an IMAP client's commands (RFC 3501, section 9).
//!
//! `parts` has the parts of lines, `words` their words, atoms and numbers, `tokens` the tokens that lines and literals make.
//! `arguments` takes them one by one; `sets`, `flags` and `dates` read what stands in one; `laws` says what tokens, sets and flags are in the standard's words.
//! What carries the crate: `read_tokens` gives the tokens that lines and literals have, which `tokens_are_spelled` says by how they are spelled.
#![tactic(auto)]

mod arguments;
mod dates;
mod flags;
mod laws;
mod parts;
mod sets;
mod tokens;
mod words;

pub use arguments::{behind_space_token, next_string, next_word};
pub use dates::read_date;
pub use flags::{no_flag, read_bare_flags, read_flags};
pub use laws::{arguments_are_spelled, flags_are_spelled, sets_are_spelled, tokens_are_spelled};
pub use parts::{at_space, before_space, behind_space, line_before};
pub use sets::{find_byte, read_set};
pub use tokens::{
    Part, Token, Tokens, is_close_token, is_open_token, is_space_token, literal_in, pattern_in,
    quoted_in, read_tokens, string_in, word_in,
};
pub use words::{behind_word, is_same_word, read_count, read_number};
