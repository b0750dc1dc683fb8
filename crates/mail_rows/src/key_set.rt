//! Keys that are looked up: whether a key is one of them, in time that grows as the logarithm of their number.
ghost use Rattle.std.specs.Prelude.{◌≡◌, ◌∷◌, IfOk, OnOk};
ghost use Rattle.verb_core.specs.Mailboxes.{is_among, same_key};

use std::alloc::Global;
use std::collections::BTreeSet;
use std::marker::Model;
use undo_base::{Key, NoMemory};

/// Keys, each once.
#[derive(Drop)]
pub struct KeySet {
    keys: BTreeSet<Key>,
}

impl Model for KeySet {
    ghost use Rattle.std.specs.Prelude.{List};
    ghost use Rattle.undo_base.specs.declared.keys.Key.{Key};

    ghost Value = { List Key };

    ghost view = { λ s. s.keys.keys };
}

impl KeySet {
    /// The keys of a list.
    pub fn of(alloc: Global, keys: &[Key]) -> Result<KeySet, NoMemory>
        ensures { IfOk result (λ set. (key : _) → is_among set key ≡ is_among keys.now key) }
    {
        let mut set = KeySet {
            keys: BTreeSet::new(alloc),
        };
        for key in keys {
            set.insert(*key)?;
        }
        Ok(set)
    }

    /// With one more key.
    pub(crate) fn insert(&mut self, key: Key) -> Result<(), NoMemory>
        ensures { OnOk result ((other : _) → is_among self.new other ≡ is_among (key ∷ self.old) other) }
    {
        self.keys.insert(key)?;
        Ok(())
    }

    /// The keys, in order.
    pub(crate) fn keys(&self) -> &BTreeSet<Key>
        ensures { result.now.keys ≡ self.now }
    {
        &self.keys
    }

    /// Whether the key is one of them.
    pub fn contains(&self, key: Key) -> bool
        ensures { result ≡ is_among self.now key }
    {
        self.keys.contains(&key)
    }
}
