//! Items as they are kept in memory: without their texts, which are read from the journal when they are asked for.
//!
//! `stored` has an item whose text is a `PastText`, so that contracts speak of whole items. `laws` has what an item has and does
//! without its text. What carries the crate: a `StoredItem` stands for a whole item, and `StoredItem::item` shows it without its text.
#![tactic(auto)]

pub mod laws;
mod stored;

pub use stored::StoredItem;
use undo_base::Sequence;

/// Items in order, each without its text but for notices.
pub type StoredItems = Sequence<StoredItem>;
