//! The entries of a mailbox, with what is known of the order of their keys.
//!
//! That a mailbox has at most 4,294,967,295 entries is kept by box_store, whose effects find no memory past it; no definition
//! needs it.
ghost use Rattle.std.specs.Prelude.{◌≡◌, [], IsTrue, length};
ghost use Rattle.verb_core.specs.KeyOrder.{is_above, keys_rise, keys_rise_from, last_key};

use crate::Entry;
use std::alloc::Global;
use std::marker::Model;
use undo_base::{Copies, Key, NoMemory};

/// The entries of a mailbox. Where their keys are known to rise, an entry is found by halves.
#[derive(Drop)]
pub struct Entries {
    list: Vec<Entry>,
    in_order: bool,
}

impl Model for Entries {
    ghost use Rattle.std.specs.Prelude.{List, IsTrue};
    ghost use Rattle.verb_core.specs.declared.mailbox.Entry.{Entry};
    ghost use Rattle.verb_core.specs.KeyOrder.{keys_rise};

    ghost Value = { List Entry };

    ghost view = { λ m. m.list.items };

    ghost invariant = { λ m. IsTrue m.in_order → IsTrue (keys_rise m.list.items) };
}

/// The entries of a mailbox, lent.
#[derive(Drop)]
pub struct EntriesView<'a> {
    list: &'a [Entry],
    in_order: bool,
}

impl<'a> Model for EntriesView<'a> {
    ghost use Rattle.std.specs.Prelude.{List, IsTrue};
    ghost use Rattle.verb_core.specs.declared.mailbox.Entry.{Entry};
    ghost use Rattle.verb_core.specs.KeyOrder.{keys_rise};

    ghost Value = { List Entry };

    ghost view = { λ m. m.list.now };

    ghost invariant = { λ m. IsTrue m.in_order → IsTrue (keys_rise m.list.now) };
}

/// Whether a key lies above another one, where there is one.
fn is_above(low: Option<Key>, key: Key) -> bool
    ensures { result ≡ is_above low key }
{
    match low {
        None => true,
        Some(low) => low < key,
    }
}

/// Whether the keys of entries strictly rise, from above a key on where there is one.
pub fn keys_rise_from(low: Option<Key>, entries: &[Entry]) -> bool
    ensures { result ≡ keys_rise_from low entries.now }
{
    let mut last = low;
    for entry in entries {
        if !is_above(last, entry.key) {
            return false;
        }
        last = Some(entry.key);
    }
    true
}

/// The key of the last entry.
pub fn last_key(entries: &[Entry]) -> Option<Key>
    ensures { result ≡ last_key None entries.now }
{
    match entries.last() {
        None => None,
        Some(entry) => Some(entry.key),
    }
}

impl Entries {
    /// No entries.
    pub fn new(alloc: Global) -> Entries
        ensures { result ≡ [] }
    {
        Entries {
            list: Vec::new(alloc),
            in_order: true,
        }
    }

    /// The entries of a list, with no memory taken. One pass over them finds whether their keys rise.
    pub fn from_vec(list: Vec<Entry>) -> Entries
        ensures { result ≡ list.items }
    {
        let in_order = keys_rise_from(None, list.as_slice());
        Entries { list, in_order }
    }

    /// The entries as a list, with no memory taken.
    pub fn into_vec(self) -> Vec<Entry>
        ensures { result.items ≡ self }
    {
        self.into_parts().0
    }

    /// The entries of a list, and whether their keys are known to rise.
    pub fn from_parts(list: Vec<Entry>, in_order: bool) -> Entries
        requires { IsTrue in_order → IsTrue (keys_rise list.items) }
        ensures { result ≡ list.items }
    {
        Entries { list, in_order }
    }

    /// The entries as a list, and whether their keys are known to rise.
    pub fn into_parts(self) -> (Vec<Entry>, bool)
        ensures list { result.0.items ≡ self }
        ensures order { IsTrue result.1 → IsTrue (keys_rise result.0.items) }
    {
        let Entries { list, in_order } = self;
        (list, in_order)
    }

    /// The entries, lent.
    pub fn view(&self) -> EntriesView<'_>
        ensures { result ≡ self.now }
    {
        EntriesView {
            list: self.list.as_slice(),
            in_order: self.in_order,
        }
    }

    /// The entries, with no memory taken.
    pub fn as_slice(&self) -> &[Entry]
        ensures { result.now ≡ self.now }
    {
        self.list.as_slice()
    }

    /// How many entries there are.
    pub fn len(&self) -> usize
        ensures { result ≡ length self.now }
    {
        self.list.len()
    }
}

impl<'a> EntriesView<'a> {
    /// No entries.
    pub fn none() -> EntriesView<'a>
        ensures { result ≡ [] }
    {
        EntriesView {
            list: &[],
            in_order: true,
        }
    }

    /// The entries.
    pub fn as_slice(&self) -> &'a [Entry]
        ensures { result.now ≡ self.now }
    {
        self.list
    }

    /// Whether the keys are known to rise.
    pub fn is_in_order(&self) -> bool
        ensures { IsTrue result → IsTrue (keys_rise self.now) }
    {
        self.in_order
    }
}

impl Copies for Entries {
    fn copy(&self, alloc: Global) -> Result<Entries, NoMemory> {
        Ok(Entries {
            list: Vec::from_slice(alloc, self.list.as_slice())?,
            in_order: self.in_order,
        })
    }
}
