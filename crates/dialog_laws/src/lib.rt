//! What the dialogs ask can be recorded, and a connection's stream may come in several events.
//!
//! `ranges` says that the record of what the store makes of an ask has a spelling, and that items keep the store's numbers and names in the ranges of
//! records. `smtp_client`, `imap_client` and `pop_client` say what the dialogs of SMTP, IMAP and POP3 ask. `events` says what two events of a
//! connection leave, and `fetching` what a QUIT of POP3 that was answered took away. What carries the crate: `smtp_clients_ask_for_deliveries`,
//! `imap_clients_ask_what_can_be_recorded` and `pop_clients_ask_what_can_be_recorded`.
#![tactic(auto)]

mod events;
mod fetching;
mod imap_client;
mod pop_client;
mod ranges;
mod smtp_client;

pub use events::{
    events_of_a_stream_join, imap_client_events_join, pop_client_events_join,
    smtp_client_events_join,
};
pub use fetching::an_answered_quit_removed_the_marked;
pub use imap_client::{
    commands_are_in_range, imap_clients_ask_what_can_be_recorded, imap_dialogs_have_names,
};
pub use pop_client::{pop_clients_ask_what_can_be_recorded, pop_dialogs_have_keys};
pub use ranges::{journals_leave_stores_in_range, live_items_have_spellings, stores_stay_in_range};
pub use smtp_client::{smtp_clients_ask_for_deliveries, smtp_dialogs_have_names};
