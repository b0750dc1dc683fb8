//! The desk in memory: the mail store, the items that led to it without their texts, the stamps of its mailboxes, and where
//! each text lies and how long it is.
//!
//! `desk` has it and tells its parts, and `numbered` has its items, found by their numbers. `ready` finds what is asked for, makes
//! room for it and enters it, with what `restamp` makes ahead of the stamps, which `stamps` finds and changes where they lie.
//! `remake` makes what a cycle leaves ready and puts it in place. `texts` tells whether a body has a text, where it lies, and a
//! notice's, the one text in memory. `noting` notes texts, `marking` where snapshots lie, and `counts` has what is counted and
//! listed. What is kept is store_kept's `Kept`, of whole items. In specs/, `Desk` says what holds of it, `Timeline` its items,
//! texts and notes, `Places` where the items stand by their numbers. `Noting` says where texts lie after a cycle, `Stamping` what
//! a deed makes of the stamps. `Held` and `Entering` have the room for the next item and snapshot, `Remaking` what a repair
//! leaves. What carries the crate: `Desk::ready` finds the item that is due, or why there is none. With no memory taken,
//! `Desk::enter` (`performed`) keeps it last in the timeline and notes its text, and `Desk::replace` (`remade_as`, `renoted`) puts
//! a cycle in place. `Desk::mark` (`snapshotted`) marks where a snapshot lies.
#![tactic(auto)]

mod counts;
mod desk;
mod founding;
pub mod laws;
mod marking;
mod noting;
mod numbered;
mod ready;
mod remake;
mod restamp;
mod stamps;
mod texts;

pub use counts::Counts;
pub use desk::Desk;
pub use founding::{BaseParts, Founding};
pub use noting::Fresh;
pub use ready::Ready;
pub use remake::{Left, Remade};
