//! Scripts of events, and transcripts of what was sent: the two texts of a run without clients.
//!
//! `pieces` cuts a string after each LF, and a line's parts at its spaces. `numbers` reads digits; `texts` reads and writes bytes
//! with `~`. `line` says what one line of a script says, and `script` reads all of them. `transcripts` writes what a link sent.
//! What carries the crate: `read_script` answers the events of the text or its first bad line, `transcript` is a function of the
//! link's notes, and `reads_what_is_written` joins them.
#![tactic(auto)]

mod laws;
mod line;
mod numbers;
mod pieces;
mod script;
mod texts;
mod transcripts;

pub use laws::reads_what_is_written;
pub use script::{BadScript, read_script};
pub use transcripts::transcript;
