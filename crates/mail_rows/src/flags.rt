//! The flags that a STORE changes.
ghost use Rattle.std.specs.Prelude.{◌≡◌, ◌++◌, ◌∷◌, [], IsTrue, IfOk, OnOk, if◌then◌else◌};
ghost use Rattle.verb_core.specs.KeyOrder.{keys_rise};
ghost use Rattle.verb_core.specs.Mailboxes.{changed, is_among};
ghost use Rattle.mail_rows.specs.Changes.{changes_from};

use crate::places::key_near;
use crate::{FlagChange, KeySet};
use std::alloc::Global;
use undo_base::{Flags, How, Key, NoMemory, Sequence};
use verb_core::{EntriesView, Entry, flags_after};

/// Adds the change of the entry at a place, if its key is one of the keys.
fn push_change(
    changes: &mut Sequence<FlagChange>,
    keys: &KeySet,
    how: How,
    given: Flags,
    place: usize,
    entry: &Entry,
) -> Result<(), NoMemory>
    ensures { OnOk result (changes.new ≡ changes.old ++ (if is_among keys.now entry.now.key then record { place = place; flags = changed how given entry.now.flags } ∷ [] else [])) }
{
    if keys.contains(entry.key) {
        changes.push(FlagChange {
            place,
            flags: flags_after(how, given, entry.flags),
        })?;
    }
    Ok(())
}

/// What a STORE changes, by one pass over the mailbox, each entry looked up among the keys.
fn changes_met(
    alloc: Global,
    entries: &[Entry],
    keys: &KeySet,
    how: How,
    given: Flags,
) -> Result<Sequence<FlagChange>, NoMemory>
    ensures { IfOk result (λ changes. changes ≡ changes_from 0 keys.now how given entries.now) }
{
    let mut changes = Sequence::new(alloc);
    for (place, entry) in entries.iter().enumerate() {
        push_change(&mut changes, keys, how, given, place, entry)?;
    }
    Ok(changes)
}

/// Adds the change of the entry of a key, where there is one.
fn push_found(
    changes: &mut Sequence<FlagChange>,
    entries: &[Entry],
    key: Key,
    how: How,
    given: Flags,
    near: &mut usize,
) -> Result<(), NoMemory>
    requires { IsTrue (keys_rise entries.now) }
    ensures { OnOk result (changes.new ≡ changes.old ++ changes_from 0 (key ∷ []) how given entries.now) }
{
    match key_near(entries, key, *near) {
        None => Ok(()),
        Some(place) => {
            *near = place.saturating_add(1);
            changes.push(FlagChange {
                place,
                flags: flags_after(how, given, entries[place].flags),
            })
        }
    }
}

/// What a STORE changes in a mailbox whose keys rise: the keys in their order, each looked for behind the one before it, and else found by halves.
fn changes_found(
    alloc: Global,
    entries: &[Entry],
    keys: &KeySet,
    how: How,
    given: Flags,
) -> Result<Sequence<FlagChange>, NoMemory>
    requires { IsTrue (keys_rise entries.now) }
    ensures { IfOk result (λ changes. changes ≡ changes_from 0 keys.now how given entries.now) }
{
    let mut changes = Sequence::new(alloc);
    let mut near = 0;
    for key in keys.keys().iter() {
        push_found(&mut changes, entries, *key, how, given, &mut near)?;
    }
    Ok(changes)
}

/// What a STORE changes in a mailbox.
pub fn changes_of(
    alloc: Global,
    entries: &EntriesView<'_>,
    keys: &KeySet,
    how: How,
    given: Flags,
) -> Result<Sequence<FlagChange>, NoMemory>
    ensures { IfOk result (λ changes. changes ≡ changes_from 0 keys.now how given entries.now) }
{
    if entries.is_in_order() {
        changes_found(alloc, entries.as_slice(), keys, how, given)
    } else {
        changes_met(alloc, entries.as_slice(), keys, how, given)
    }
}
