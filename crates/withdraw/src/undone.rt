//! What the last cycle left to be withdrawn.
//!
//! The point is kept beside its position, because the report tells it.
use stored_items::StoredItems;

/// What is known of a cycle: its number, and the timeline just before it. And how many of these items stand through its point,
/// and how many items stood in the new timeline before its notices.
#[derive(Drop)]
pub struct Undone {
    pub cycle: u32,
    pub before: StoredItems,
    pub position: u32,
    pub placed: u32,
}

/// The same without the items through its point, which are at present what they were: the point, and of the timeline just before
/// the cycle the items that stood behind it.
#[derive(Drop)]
pub struct UndoneBehind {
    pub cycle: u32,
    pub point: u32,
    pub later: StoredItems,
    pub position: u32,
    pub placed: u32,
}
