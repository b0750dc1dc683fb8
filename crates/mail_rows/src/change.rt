//! What changes in a mailbox: mail that comes, and flags.
use undo_base::Flags;
use verb_core::{BoxId, EntryList};

/// New mail for a mailbox, in order. Its UIDs are those that come next there.
#[derive(Drop)]
pub struct Put {
    pub mailbox: BoxId,
    pub mail: EntryList,
}

/// Other flags for the entry at a place of a mailbox, from 0.
#[derive(Clone, Copy)]
pub struct FlagChange {
    pub place: usize,
    pub flags: Flags,
}
