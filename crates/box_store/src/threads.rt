//! The types that workers share or hand back may cross threads.
use crate::{Effect, Store};
use undo_base::NoMemory;
use verb_core::{Resolved, Shown};

fn crosses<T: Send + Sync>() {}

/// These may be read by several threads, and handed from one to another.
pub fn types_cross_threads() {
    crosses::<Store>();
    crosses::<Effect>();
    crosses::<Resolved>();
    crosses::<Shown>();
    crosses::<NoMemory>();
}
