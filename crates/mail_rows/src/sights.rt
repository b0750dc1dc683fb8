//! Entries and keys as deeds show them.
ghost use Rattle.std.specs.Prelude.{◌≡◌, ◌&&◌, ◌++◌, ◌∷◌, [], not, IfOk, OnOk, Option, option_map, is_some, filter, filter_map, if◌then◌else◌};
ghost use Rattle.std.specs.List.{cons_option};
ghost use Rattle.verb_core.specs.declared.mailbox.Entry.{Entry as TheEntry};
ghost use Rattle.verb_core.specs.Mailboxes.{expunged, is_among, keys_of, sights, there, without};
ghost use Rattle.mail_rows.specs.Indexed.{found_at, sight_at, sights_by, there_by};

use crate::KeySet;
use crate::key_index::KeyIndex;
use std::alloc::Global;
use undo_base::{Key, Keys, NoMemory};
use verb_core::{EntriesView, Entry, Sight, Sights};

/// Adds the key, where it has an entry.
fn push_there(
    there: &mut Keys,
    index: &KeyIndex<'_>,
    key: Key,
    near: &mut usize,
) -> Result<(), NoMemory>
    ensures { OnOk result (there.new ≡ there.old ++ (if is_some (found_at index.now key) then key ∷ [] else [])) }
{
    if index.find_near(key, near).is_some() {
        there.push(key)?;
    }
    Ok(())
}

/// The keys that have an entry, in their order.
fn there_in(alloc: Global, index: &KeyIndex<'_>, keys: &[Key]) -> Result<Keys, NoMemory>
    ensures { IfOk result (λ there. there ≡ there_by index.now keys.now) }
{
    let mut there = Keys::new(alloc);
    let mut near = 0;
    for key in keys {
        push_there(&mut there, index, *key, &mut near)?;
    }
    Ok(there)
}

/// The keys that are among the entries, in their order.
pub fn there_of(alloc: Global, entries: &EntriesView<'_>, keys: &[Key]) -> Result<Keys, NoMemory>
    ensures { IfOk result (λ keys'. keys' ≡ there entries.now keys.now) }
{
    let index = KeyIndex::of(alloc, keys, entries)?;
    there_in(alloc, &index, keys)
}

/// The keys that are still among the entries once those with `\Deleted` are gone.
pub(crate) fn left_of(alloc: Global, entries: &[Entry], keys: &[Key]) -> Result<Keys, NoMemory>
    ensures { IfOk result (λ left. left ≡ there (expunged keys.now entries.now) keys.now) }
{
    let index = KeyIndex::of_kept(alloc, keys, entries)?;
    there_in(alloc, &index, keys)
}

/// Adds the key with the rev of its body, where it has an entry.
fn push_sight(
    sights: &mut Sights,
    index: &KeyIndex<'_>,
    key: Key,
    near: &mut usize,
) -> Result<(), NoMemory>
    ensures { OnOk result (sights.new ≡ sights.old ++ cons_option (sight_at index.now key) []) }
{
    match index.find_near(key, near) {
        None => Ok(()),
        Some(entry) => sights.push(Sight {
            key,
            rev: entry.body.rev,
        }),
    }
}

#[tactic(auto, using(crate::proofs::KeysSeen::sights_more))]
fn sights_in(alloc: Global, index: &KeyIndex<'_>, keys: &[Key]) -> Result<Sights, NoMemory>
    ensures { IfOk result (λ sights. sights ≡ sights_by index.now keys.now) }
{
    let mut sights = Sights::new(alloc);
    let mut near = 0;
    for key in keys {
        push_sight(&mut sights, index, *key, &mut near)?;
    }
    Ok(sights)
}

/// What FETCH shows of the keys.
pub(crate) fn sights_of(
    alloc: Global,
    entries: &EntriesView<'_>,
    keys: &[Key],
) -> Result<Sights, NoMemory>
    ensures { IfOk result (λ shown. shown ≡ sights entries.now keys.now) }
{
    let index = KeyIndex::of(alloc, keys, entries)?;
    sights_in(alloc, &index, keys)
}

/// Adds the entry's key, unless it is one of the keys.
fn push_other(others: &mut Keys, keys: &KeySet, entry: &Entry) -> Result<(), NoMemory>
    ensures { OnOk result (others.new ≡ others.old ++ (if not (is_among keys.now entry.now.key) then entry.now.key ∷ [] else [])) }
{
    if !keys.contains(entry.key) {
        others.push(entry.key)?;
    }
    Ok(())
}

/// The keys of the entries whose keys are none of these.
pub(crate) fn others_of(alloc: Global, entries: &[Entry], keys: &[Key]) -> Result<Keys, NoMemory>
    ensures { IfOk result (λ others. others ≡ keys_of (without keys.now entries.now)) }
{
    let keys = KeySet::of(alloc, keys)?;
    let mut others = Keys::new(alloc);
    for entry in entries {
        push_other(&mut others, &keys, entry)?;
    }
    Ok(others)
}

/// Adds the entry's key, where it has `\Deleted` and is one of the keys.
fn push_marked(marked: &mut Keys, only: &KeySet, entry: &Entry) -> Result<(), NoMemory>
    ensures { OnOk result (marked.new ≡ marked.old ++ (if entry.now.flags.deleted && is_among only.now entry.now.key then entry.now.key ∷ [] else [])) }
{
    if entry.flags.deleted && only.contains(entry.key) {
        marked.push(entry.key)?;
    }
    Ok(())
}

/// The keys of the entries that have `\Deleted` and are among the keys.
pub fn marked_among(alloc: Global, entries: &[Entry], only: &[Key]) -> Result<Keys, NoMemory>
    ensures { IfOk result (λ keys. keys ≡ keys_of (filter (λ e. e.flags.deleted && is_among only.now e.key) entries.now)) }
{
    let only = KeySet::of(alloc, only)?;
    let mut marked = Keys::new(alloc);
    for entry in entries {
        push_marked(&mut marked, &only, entry)?;
    }
    Ok(marked)
}
