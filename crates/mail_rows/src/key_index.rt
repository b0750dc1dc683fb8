//! Entries that are looked up by key.
ghost use Rattle.std.specs.Prelude.{◌≡◌, ◌&&◌, IsTrue, IfOk, OnOk, Some, None, filter, not, if◌then◌else◌};
ghost use Rattle.std.specs.Option.{option_or};
ghost use Rattle.verb_core.specs.KeyOrder.{keys_rise};
ghost use Rattle.verb_core.specs.Mailboxes.{entry_of, is_among, same_key};
ghost use Rattle.mail_rows.specs.Indexed.{found_at, indexed, no_deleted};
ghost use Rattle.mail_rows.specs.Lookups.{beside, AreInOrder};

use crate::KeySet;
use crate::places::{entry_near, entry_of};
use std::alloc::Global;
use std::collections::BTreeMap;
use std::marker::Model;
use undo_base::{Key, NoMemory};
use verb_core::{EntriesView, Entry};

/// How an entry is found.
#[derive(Drop)]
enum Lookup<'a> {
    /// By halves, in mail whose keys rise.
    Halves(&'a [Entry]),
    /// In a map.
    Noted(BTreeMap<Key, Entry>),
}

/// For each of some keys its entry, by the least UID.
#[derive(Drop)]
pub(crate) struct KeyIndex<'a> {
    lookup: Lookup<'a>,
}

impl<'a> Model for KeyIndex<'a> {
    ghost use Rattle.std.specs.Prelude.{List};
    ghost use Rattle.undo_base.specs.declared.keys.Key.{Key};
    ghost use Rattle.verb_core.specs.declared.mailbox.Entry.{Entry};

    ghost Value = { List (Key × Entry) };

    ghost use Rattle.mail_rows.specs.Lookups.{beside, AreInOrder};

    ghost view = { λ s. beside s.lookup };

    ghost invariant = { λ s. AreInOrder s.lookup };
}

fn look_up(lookup: &Lookup<'_>, key: Key) -> Option<Entry>
    requires { AreInOrder lookup.now }
    ensures { result ≡ found_at (beside lookup.now) key }
{
    match lookup {
        Lookup::Halves(entries) => entry_of(entries, key),
        Lookup::Noted(found) => found.get(&key).copied(),
    }
}

fn look_up_near(lookup: &Lookup<'_>, key: Key, near: &mut usize) -> Option<Entry>
    requires { AreInOrder lookup.now }
    ensures { result ≡ found_at (beside lookup.now) key }
{
    match lookup {
        Lookup::Halves(entries) => entry_near(entries, key, near),
        Lookup::Noted(found) => found.get(&key).copied(),
    }
}

/// With the entry, where it is the first of its key, and that is one of the keys.
fn note(found: &mut BTreeMap<Key, Entry>, keys: &KeySet, entry: &Entry) -> Result<(), NoMemory>
    ensures { OnOk result ((key : _) → found_at found.new.entries key ≡ option_or (found_at found.old.entries key) (if is_among keys.now entry.now.key && same_key key entry.now.key then Some entry.now else None)) }
{
    if keys.contains(entry.key) && !found.contains_key(&entry.key) {
        found.insert(entry.key, *entry)?;
    }
    Ok(())
}

/// The entries of these keys. One pass over the mailbox, each entry looked up among the keys.
fn noted(alloc: Global, keys: &[Key], entries: &[Entry]) -> Result<BTreeMap<Key, Entry>, NoMemory>
    ensures { IfOk result (λ found. (key : _) → found_at found.entries key ≡ indexed keys.now entries.now key) }
{
    let keys = KeySet::of(alloc, keys)?;
    let mut found = BTreeMap::new(alloc);
    for entry in entries {
        note(&mut found, &keys, entry)?;
    }
    Ok(found)
}

/// The same of the entries without `\Deleted`.
fn noted_kept(
    alloc: Global,
    keys: &[Key],
    entries: &[Entry],
) -> Result<BTreeMap<Key, Entry>, NoMemory>
    ensures { IfOk result (λ found. (key : _) → found_at found.entries key ≡ indexed keys.now (filter no_deleted entries.now) key) }
{
    let keys = KeySet::of(alloc, keys)?;
    let mut found = BTreeMap::new(alloc);
    for entry in entries {
        if !entry.flags.deleted {
            note(&mut found, &keys, entry)?;
        }
    }
    Ok(found)
}

impl<'a> KeyIndex<'a> {
    /// The entries of mail whose keys rise.
    fn of_rising(entries: &'a [Entry]) -> KeyIndex<'a>
        requires { IsTrue (keys_rise entries.now) }
        ensures { (key : _) → found_at result key ≡ entry_of entries.now key }
    {
        KeyIndex {
            lookup: Lookup::Halves(entries),
        }
    }

    fn of_noted(found: BTreeMap<Key, Entry>) -> KeyIndex<'a>
        ensures { result ≡ found.entries }
    {
        KeyIndex {
            lookup: Lookup::Noted(found),
        }
    }

    /// The entries of these keys: those of a mailbox whose keys rise, as they are, or one pass over another mailbox.
    pub(crate) fn of(
        alloc: Global,
        keys: &[Key],
        entries: &EntriesView<'a>,
    ) -> Result<KeyIndex<'a>, NoMemory>
        ensures { IfOk result (λ index. (key : _) → IsTrue (is_among keys.now key) → found_at index key ≡ entry_of entries.now key) }
    {
        if entries.is_in_order() {
            return Ok(KeyIndex::of_rising(entries.as_slice()));
        }
        let found = noted(alloc, keys, entries.as_slice())?;
        Ok(KeyIndex::of_noted(found))
    }

    /// The same of the entries without `\Deleted`.
    pub(crate) fn of_kept(
        alloc: Global,
        keys: &[Key],
        entries: &[Entry],
    ) -> Result<KeyIndex<'a>, NoMemory>
        ensures { IfOk result (λ index. (key : _) → found_at index key ≡ indexed keys.now (filter no_deleted entries.now) key) }
    {
        let found = noted_kept(alloc, keys, entries)?;
        Ok(KeyIndex::of_noted(found))
    }

    /// The entry of a key.
    pub(crate) fn find(&self, key: Key) -> Option<Entry>
        ensures { result ≡ found_at self.now key }
    {
        look_up(&self.lookup, key)
    }

    /// The entry of a key; where keys rise it is looked for at a place first, and what is left there serves the next.
    pub(crate) fn find_near(&self, key: Key, near: &mut usize) -> Option<Entry>
        ensures { result ≡ found_at self.now key }
    {
        look_up_near(&self.lookup, key, near)
    }
}
