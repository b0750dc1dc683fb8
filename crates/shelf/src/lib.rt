//! Where the texts of messages lie, how long they are, and what a FETCH asks of one; and where snapshots lie.
//!
//! `note` is what is known of a text. `rows` keeps the notes in the order in which the bodies came to be, so that a new one goes
//! to the end. `marks` keeps the places of snapshots by their positions. `section`, which mail_sections has, is what is asked of a
//! text. `room` puts an element into a list that has room for it. `reading` reads a text where its note says, and
//! `Shelf::newest_at_or_before` tells the last snapshot that is not behind a position: both are asked for by the interface, and
//! tests alone call them. The program reads by seal_log's `read_before`, as opening does, where there is no log yet. What carries
//! the crate: `Shelf::find` and `Shelf::size` tell the last note of a body and its length. `Shelf::marks_at_or_before` tells the
//! snapshots that are not behind a position.
#![tactic(auto)]

mod marks;
mod note;
mod reading;
mod room;
mod rows;

pub use mail_sections::section;
pub use note::Note;
pub use room::insert_within;
pub use rows::Shelf;
