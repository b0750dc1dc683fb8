//! The dialog with an SMTP client: a function of its state and one line.
//!
//! `session` is the session with its two calls, `dialog` its state. `commands` has what each command does to it, `ending` how a
//! transaction ends. `recipients` and `draft` are its parts, `answer` and `body` write texts. `laws` says what the definitions
//! mean, `kept` how much is kept. What carries the crate: `SmtpSession::take` and `done` are the functions `turn` and `settle` of
//! specs/Dialog.antt.
#![tactic(auto)]

mod answer;
mod body;
mod commands;
mod dialog;
mod draft;
mod ending;
mod kept;
mod laws;
mod recipients;
mod session;

pub use answer::{Answer, SmtpOut, greeting, memory_text};
pub use laws::texts_are_their_lines;
pub use session::SmtpSession;
