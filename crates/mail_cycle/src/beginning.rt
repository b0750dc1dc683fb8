//! Where a cycle begins to perform.
//!
//! What a cycle in memory begins with has no marks and is not deep: what is said of it holds for any.
ghost use Rattle.std.specs.Prelude.{◌≡◌, IfOk};
ghost use Rattle.verb_core.specs.Store.{IsValid};

use crate::Before;
use box_store::Store;
use std::alloc::Global;
use undo_base::NoMemory;

/// A store to which the first so many items of a timeline led.
#[derive(Drop)]
pub struct Beginning {
    pub store: Store,
    pub count: usize,
}

/// The store before the first item.
pub fn opened(before: &Before<'_>, alloc: Global) -> Result<Beginning, NoMemory>
    ensures store { IfOk result (λ first. first.store.store ≡ before.now.base) }
    ensures count { IfOk result (λ first. first.count ≡ 0) }
    ensures valid { IfOk result (λ first. IsValid first.store.store) }
    ensures house { IfOk result (λ first. first.store.store.house ≡ before.now.house) }
{
    match before.opened(alloc) {
        Ok(store) => Ok(Beginning { store, count: 0 }),
        Err(NoMemory) => Err(NoMemory),
    }
}
