//! Tests of smtp_session's `done`: what an SMTP client hears of each outcome of its delivery; and of smtp_lines' `cut_all`,
//! which the program does not call. They stand in a crate of their own, since a crate with tests is proved twice.
#![tactic(auto)]

#[cfg(test)]
mod streams;
#[cfg(test)]
mod tests;
