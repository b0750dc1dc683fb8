//! What a user is told depends on that user's mail alone.
//!
//! In specs/, `Agreeing` says when two stores in use agree on a user, `Clients` whose connection it is, and `Senders` what an SMTP client is told of.
//! `Told` says what two events have in common, `Others` what other users do, `Runs` when two runs are alike for a user, `Steps` what steps of others do.
//!
//! `clients` says that an IMAP client is told the same in two states that agree on its user. So does `fetchers` of a POP3 client, `senders` of an SMTP
//! client, and `connections` of a user's connection, whatever it speaks. By `others` items of other users leave the agreement, and whole steps of
//! theirs by `others_steps`. By `runs` a user's connections are told the same in two runs that are alike for the user. What carries the
//! crate: `users_are_served_their_own_mail`. Of a cycle, a withdrawal and an upgrade it takes as given that they leave the agreement.
#![tactic(auto)]

mod clients;
mod connections;
mod fetchers;
mod others;
mod others_steps;
mod runs;
mod senders;

pub use clients::{
    imap_clients_are_told_of_their_own_mail, imap_events_tell_of_their_own_mail,
    strangers_are_told_of_nobodys_mail,
};
pub use connections::connections_are_told_of_their_own_mail;
pub use fetchers::{pop_clients_are_told_of_their_own_mail, pop_events_tell_of_their_own_mail};
pub use others::{others_leave_agreement, others_tell_nothing, users_agree_again};
pub use others_steps::{
    others_perform_items, others_steps_leave_agreement, users_are_served_their_own_mail,
};
pub use runs::runs_tell_of_their_own_mail;
pub use senders::smtp_clients_are_told_of_nobodys_mail;
