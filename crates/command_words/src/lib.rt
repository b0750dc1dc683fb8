//! The words of the program: `init STORE`, `serve STORE SMTP IMAP HTTP [POP]`, `script STORE`, `play`, `grow ROUNDS`, `check STORE`,
//! `cut STORE POINT`, `audit STORE`.
//!
//! `commands` has the command that words are; `program` is the same for `clap`, which reads the words first. `shapes` finds the
//! command by the words themselves; `numbers` reads ports, rounds and points; `reading` puts them together. What carries the
//! crate: `read_words` answers a command only where `command_of` of specs/ gives it, and `Usage` only where it gives none, so
//! that only want of memory keeps either back. `laws` says what `command_of` means.
#![tactic(auto)]

mod commands;
mod laws;
mod numbers;
mod program;
mod reading;
mod shapes;

pub use commands::{Command, WordsRefused};
pub use laws::one_reading;
pub use reading::{pop_port, ports, read_words, store_path};
