//! What is known of a text.
//!
//! The length of a text stays in memory, four bytes an item. A disk that is not honest may give a text of another length, and the
//! sizes that FETCH tells are claimed of every disk.
use seal_log::Place;

/// A text's bytes: so many of a payload in the journal, from a place in it on.
#[derive(Clone, Copy, Debug, PartialEq, Eq)]
pub struct Note {
    pub place: Place,
    pub from: u32,
    pub length: u32,
}
