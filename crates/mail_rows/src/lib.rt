//! Rows of mailboxes, and what is done with one mailbox: all that needs no store and no effect.
//!
//! `rows` finds the place of a row and lets rows come and go; `lookup` finds mailboxes and names among rows, `opening`
//! makes the first rows. `mail` is what comes to a mailbox, changes and goes; `change` is what is to come and to change,
//! `new_mail` and `flags` say which of it an item brings. `sights` and `shown` are what a user is shown, with entries
//! looked up by `key_set`, `key_index` and `places`; `pattern` has the names of LIST. `reach` and `aims` find where an item's mail
//! goes, `held_conf` holds the configuration, `conf_change` makes what an act changes in it, and `filter_order` finds its
//! filters by halves.
//! What carries the crate: `shown_by` is what the model shows, `reach_of` is `sought`, `HeldConf` is changed as the model's
//! configuration is.
#![tactic(auto)]

pub mod aims;
mod change;
mod conf_change;
mod filter_order;
pub mod flags;
mod header;
mod held_conf;
pub mod inferiors;
mod key_index;
mod key_set;
pub mod lookup;
pub mod mail;
mod needles;
pub mod new_mail;
pub mod opening;
mod pattern;
mod places;
pub mod reach;
mod room;
pub mod rows;
pub mod shown;
pub mod sights;

pub use change::{FlagChange, Put};
pub use conf_change::ConfChange;
pub use held_conf::HeldConf;
pub use key_set::KeySet;
