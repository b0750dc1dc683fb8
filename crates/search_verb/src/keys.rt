//! Search keys.
//!
//! What bounds the stack: `matches`, `looks`, `copy` and `drop` go down a key by one call for each level; the grammar allows 64.
use std::alloc::Global;
use undo_base::{Copies, NoMemory, Sequence, Text};

/// The string of a key, or the name of a field.
pub type Bytes = Text;

/// A range of numbers, either way. None stands for `*`, the last place or UID of the view.
#[derive(Clone, Copy, Debug, PartialEq, Eq)]
pub struct SearchRange {
    pub from: Option<u32>,
    pub to: Option<u32>,
}

impl Copies for SearchRange {
    fn copy(&self, _alloc: Global) -> Result<SearchRange, NoMemory> {
        Ok(*self)
    }
}

/// Ranges of numbers, in the order in which they are written.
pub type SearchRanges = Sequence<SearchRange>;

/// Keys which must all match.
pub type SearchKeys = Vec<SearchKey>;

/// What a SEARCH looks for (RFC 3501, section 6.4.4). A day is a number of days since 1 January 1970, below 0 for an earlier date.
/// Strings are compared without ASCII case. A key is as deep as its keys lie in one another: what walks it, drops it or prints it
/// takes stack for each level.
#[derive(Debug, Drop)]
pub enum SearchKey {
    All,
    Answered,
    Deleted,
    Draft,
    Flagged,
    Seen,
    /// Matches no message.
    None,
    Places(SearchRanges),
    Uids(SearchRanges),
    /// The message came before this day in UTC.
    Before(i64),
    /// It came on this day.
    On(i64),
    /// It came on this day or later.
    Since(i64),
    /// It has more bytes than these.
    Larger(u32),
    /// It has fewer.
    Smaller(u32),
    /// The string stands in the value of a field with this name.
    Field { name: Bytes, bytes: Bytes },
    /// The string stands in what follows the header.
    Body(Bytes),
    /// The string stands in the text.
    Text(Bytes),
    Not(Box<SearchKey>),
    Or(Box<SearchKey>, Box<SearchKey>),
    And(SearchKeys),
}
