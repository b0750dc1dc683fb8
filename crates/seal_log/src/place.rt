//! Where a payload lies in a journal.

use std::alloc::Global;
use undo_base::{Copies, NoMemory, Sequence};

/// The place of a payload's gate, and the payload's length in bytes.
#[derive(Clone, Copy, Debug, PartialEq, Eq)]
pub struct Place {
    pub gate: u64,
    pub length: u32,
}

/// Places, in order.
pub type Places = Sequence<Place>;

impl Copies for Place {
    fn copy(&self, _alloc: Global) -> Result<Place, NoMemory> {
        Ok(*self)
    }
}
