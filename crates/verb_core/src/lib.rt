//! The verbs of the mail store: its parts, its items, and what each item does.
//!
//! `mailbox`, `mail` and `conf` are the parts of a store, `item` what is recorded, `deed` what a deed has, `actor` whose mailboxes an item acts on.
//! `fixed` has the names that are always there and those of new mailboxes, `superiors` their hierarchy, `flags` those that a STORE leaves. `ask` is
//! what is asked and refused, `bodies` where texts are read, `copy` and `copy_deeds` the copies, `recipients` whom a local part means. `threads` says
//! what may cross threads, and `laws` what holds of every store and item. `specs/` says what each item does to the store, what it answers, and what
//! is kept of a store in use.
#![tactic(auto)]

mod actor;
mod ask;
mod bodies;
mod conf;
mod copy;
mod copy_deeds;
mod deed;
mod fixed;
mod flags;
mod item;
pub mod laws;
mod mail;
mod mailbox;
mod recipients;
mod superiors;
mod threads;

pub use actor::{actor_of, who_acts};
pub use ask::{Ask, Refused, SubmitFault};
pub use bodies::{Bodies, BodiesFault};
pub use conf::{Account, Alias, Conf, Filter, House, Scope, are_of_body};
pub use fixed::{
    has_whole_parts, inbox_name, is_fixed, is_inbox, is_lost_found, is_new_name, is_slash,
    is_wildcard, lost_found_name,
};
pub use flags::flags_after;
pub use item::{Act, Aim, Deed, Item, Resolved, Shown, Sight, Way};
pub use mail::{Entries, EntriesView, keys_rise_from, last_key};
pub use mailbox::{Body, BoxId, Entry, Mailbox};
pub use recipients::resolve_local;
pub use superiors::{is_inferior, names_with_superiors};
pub use threads::types_cross_threads;
use undo_base::Sequence;

/// Entries, in order.
pub type EntryList = Sequence<Entry>;

/// Mailboxes, by rising user and name.
pub type Rows = Sequence<(BoxId, Mailbox)>;

/// The UIDVALIDITY of each mailbox, by rising user and name.
pub type Stamps = Sequence<(BoxId, u32)>;

/// Aliases, by rising local part.
pub type Aliases = Sequence<Alias>;

/// Filters, in the order in which they are tried.
pub type Filters = Sequence<Filter>;

/// The accounts of a house: that of the user with number i stands at place i.
pub type Accounts = Sequence<Account>;

/// Messages as they were shown, in order.
pub type Sights = Sequence<Sight>;

/// Where new entries go, in order.
pub type Aims = Sequence<Aim>;

/// Items, in order.
pub type Items = Sequence<Item>;
