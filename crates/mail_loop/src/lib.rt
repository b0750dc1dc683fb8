//! The desk behind its connections: turns of SMTP clients and IMAP clients, and the serving loop.
//!
//! A session answers an `out`; `speaks` is what the loop knows of any session, and `turn` what follows from what it answers, with what `asking` hands
//! to the desk. `serves` is the one serving of turns, of the units that a session's stream gives; `smtp_turn`, `imap_turn` and `pop_turn` say which
//! these are for an SMTP, an IMAP and a POP3 client, and take one. `console_turn` is a turn of a console. `maildrops` tells whose maildrops are in use.
//! `roles` says what each role is. `open_connection`, `reply`, `letters` and `serve` are the loop over any number of connections; `aftermath` is what
//! follows for the other connections, with the mailboxes that are `gone`.
//! `laws` says what turns of a stream are turns of, what licenses a hindrance, and that what was answered stays. In specs/, these are the machine:
//! `State`, `Roles` and `Afterwards`, `Turn`, `Session` and `Hindrance`, the sessions in `SmtpTurn`, `ImapTurn` and `PopTurn`, `ConsoleTurn`, `Turns`
//! and `Machine`. `Serving` has its runs, `Acknowledged` what a crash leaves of them. What carries the crate: `serves` and `uids` of `serve_events`,
//! and `answered_is_kept`.
#![tactic(auto)]

mod aftermath;
mod asking;
mod console_turn;
mod gone;
mod imap_turn;
mod laws;
mod letters;
mod maildrops;
mod open_connection;
mod out;
mod pop_turn;
mod reply;
mod roles;
mod serve;
mod serves;
mod smtp_turn;
mod speaks;
mod turn;

pub use laws::{answered_is_kept, hindrances_are_licensed, turns_are_of_the_whole_stream};
pub use serve::{ServeFault, serve_events};
pub use time_desk::Desk;
