//! Copies of keys.
ghost use Rattle.std.specs.Prelude.{◌≡◌, map, IfOk};
ghost use Rattle.search_verb.specs.Asked.{asked_by, Field};

use crate::{Bytes, Search, SearchKey, SearchKeys};
use std::alloc::Global;
use undo_base::{Copies, NoMemory};

impl Copies for Search {
    fn copy(&self, alloc: Global) -> Result<Search, NoMemory> {
        let key = copy_key(alloc, self.key())?;
        Ok(Search::of(key))
    }
}

/// A key in a box of its own that asks the same.
#[cycle(copy_key)]
fn copy_box(alloc: Global, key: &SearchKey) -> Result<Box<SearchKey>, NoMemory>
    ensures { IfOk result (λ copy. asked_by copy.value ≡ asked_by key.now) }
{
    Ok(Box::new(alloc, copy_key(alloc, key)?)?)
}

/// A key that asks the same.
#[cycle(copy_key)]
fn copy_key(alloc: Global, key: &SearchKey) -> Result<SearchKey, NoMemory>
    ensures { IfOk result (λ copy. asked_by copy ≡ asked_by key.now) }
{
    match key {
        SearchKey::All => Ok(SearchKey::All),
        SearchKey::Answered => Ok(SearchKey::Answered),
        SearchKey::Deleted => Ok(SearchKey::Deleted),
        SearchKey::Draft => Ok(SearchKey::Draft),
        SearchKey::Flagged => Ok(SearchKey::Flagged),
        SearchKey::Seen => Ok(SearchKey::Seen),
        SearchKey::None => Ok(SearchKey::None),
        SearchKey::Places(ranges) => Ok(SearchKey::Places(ranges.copy(alloc)?)),
        SearchKey::Uids(ranges) => Ok(SearchKey::Uids(ranges.copy(alloc)?)),
        SearchKey::Before(day) => Ok(SearchKey::Before(*day)),
        SearchKey::On(day) => Ok(SearchKey::On(*day)),
        SearchKey::Since(day) => Ok(SearchKey::Since(*day)),
        SearchKey::Larger(size) => Ok(SearchKey::Larger(*size)),
        SearchKey::Smaller(size) => Ok(SearchKey::Smaller(*size)),
        SearchKey::Field { name, bytes } => copy_field(alloc, name, bytes),
        SearchKey::Body(bytes) => Ok(SearchKey::Body(bytes.copy(alloc)?)),
        SearchKey::Text(bytes) => Ok(SearchKey::Text(bytes.copy(alloc)?)),
        SearchKey::Not(inner) => Ok(SearchKey::Not(copy_box(alloc, inner)?)),
        SearchKey::Or(first, second) => {
            let first = copy_box(alloc, first)?;
            let second = copy_box(alloc, second)?;
            Ok(SearchKey::Or(first, second))
        }
        SearchKey::And(keys) => Ok(SearchKey::And(copy_all(alloc, keys)?)),
    }
}

/// A key for a string in a field.
fn copy_field(alloc: Global, name: &Bytes, bytes: &Bytes) -> Result<SearchKey, NoMemory>
    ensures { IfOk result (λ copy. asked_by copy ≡ Field name.now bytes.now) }
{
    let name = name.copy(alloc)?;
    let bytes = bytes.copy(alloc)?;
    Ok(SearchKey::Field { name, bytes })
}

/// Keys that ask the same, in order.
#[cycle(copy_key)]
fn copy_all(alloc: Global, keys: &[SearchKey]) -> Result<SearchKeys, NoMemory>
    ensures { IfOk result (λ copies. map asked_by copies.items ≡ map asked_by keys.now) }
{
    let mut all = Vec::new(alloc);
    for i in 0..keys.len() {
        all.push(copy_key(alloc, &keys[i])?)?;
    }
    Ok(all)
}
