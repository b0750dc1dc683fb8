//! The session of a console connection: one request, answered over a desk, and then the connection is closed (RFC 9112, 9.6).
//!
//! `reply` has what is said and what follows; `routes` the answers of the routes that look at the desk. `act`, `cycle` (with its trial),
//! `withdrawal`, `snapshot` and `upgrade` have the answers to each of these. `session` is a connection's bytes as far as they came. In specs/,
//! `Answers` has each answer over what the desk keeps, `ConsoleTurn` the turn of a request, `Hindrance` how it may go otherwise, `Hearing` what contracts
//! say of a session. What carries the crate: `ConsoleSession::hear` (`Hears`): at most one answer, by the definition, then closed.
#![tactic(auto)]

mod act;
mod cycle;
mod reply;
mod routes;
mod session;
mod snapshot;
mod upgrade;
mod withdrawal;

pub use reply::{After, Reply};
pub use session::ConsoleSession;
