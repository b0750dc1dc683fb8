//! Tests of imap_session's `read` and `done`: what an IMAP client hears where its texts can't be read, of each outcome of what it
//! asks, and of two texts at once. And tests of calls of imap_stream and imap_text that the program does not make. They stand in a
//! crate of their own, since a crate with tests is proved twice.
//!
//! `given` has ann's INBOX with two messages, `talk` a session over it that has selected it, `tests` the tables, and `streams` whole
//! streams, sets and dates.
#![tactic(auto)]

#[cfg(test)]
mod given;
#[cfg(test)]
mod streams;
#[cfg(test)]
mod talk;
#[cfg(test)]
mod tests;
