//! Requests to the console, cut out of a connection's bytes as far as the bytes alone decide (RFC 9112).
//!
//! `lines` finds where a head ends, also where its bytes come one by one. `grammar` has the head read by `httparse`; `lengths`
//! tells how many octets of a body are announced. `request` puts them together; `laws` says that the pieces do not matter. What
//! carries the crate: `Coming::read` answers what `Says` says of the bytes that came. What it has learnt of them stays true when
//! more come (`IsKnown`), so no byte of a head is searched twice.
#![tactic(auto)]

mod grammar;
pub mod laws;
mod lengths;
mod lines;
mod request;

pub use lines::Lines;
pub use request::{Coming, HeadRefused, MOST_BODY, MOST_FIELDS, MOST_HEAD, Request};
