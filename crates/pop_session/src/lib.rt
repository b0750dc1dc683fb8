//! The dialog with a POP3 client (RFC 1939): a function of its state, the store and one line.
//!
//! `session` is the session with its three calls, `dialog` its state. `obey` is what a line does to it: `login` has USER and PASS,
//! `transaction` the commands of a user who is logged in, `update` QUIT. `settle` takes texts and outcomes. `command` reads lines,
//! `maildrop` has the messages and how they are listed, `sending` a text as it is sent, `answer` and `out` what is said and asked.
//! What carries the crate: `PopSession::take`, `read` and `done` are the functions `turn`, `heard` and `settle` of
//! specs/Dialog.antt; `laws` says what a QUIT removes, and when it is answered.
#![tactic(auto)]

mod answer;
mod command;
mod dialog;
mod laws;
mod login;
mod maildrop;
mod obey;
mod out;
mod sending;
mod session;
mod settle;
mod transaction;
mod update;

pub use answer::{greeting, memory_text};
pub use laws::{a_quit_is_answered_when_it_is_done, a_quit_removes_the_marked};
pub use out::PopOut;
pub use session::PopSession;
