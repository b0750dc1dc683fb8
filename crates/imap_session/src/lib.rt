//! The dialog with an IMAP client: a function of its state, the store and one command.
//!
//! `session` is the session with its three calls, and `dialog` its state; the messages that it knows are a view of
//! imap_view. `obey` takes a command: `commands`, `boxes`, `lists`, `append`, `fetch`, `search` and `flags` have what each does.
//! `settle` takes outcomes; `words` and `lines` write what is said, and `out` keeps it with what is asked. What carries
//! the crate: `ImapSession::take`, `read` and `done` are the functions `turn`, `heard` and `settle` of specs/Dialog.antt.
#![tactic(auto)]

mod append;
mod boxes;
mod commands;
mod dialog;
mod fetch;
mod flags;
mod lines;
mod lists;
mod obey;
mod out;
mod search;
mod session;
mod settle;
mod words;

pub use lines::{bad_line, changed, greeting, no_memory, ready, refused, rewound, upgraded};
pub use obey::stays_current;
pub use out::{Bodies0, ImapOut};
pub use session::ImapSession;
