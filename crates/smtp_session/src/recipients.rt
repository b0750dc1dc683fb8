//! The recipients of a transaction.
//!
//! Recipients of two of the house's domains with one local part are one recipient, since a delivery holds local parts alone.
ghost use Rattle.std.specs.Prelude.{◌≡◌, ◌≤◌, ◌*◌, ◌++◌, [], ◌∷◌, length, bytes_eq, OnOk, OnErr};
ghost use Rattle.std.specs.List.{list_any};
ghost use Rattle.std.specs.Ordering.{nat_cmp};
ghost use Rattle.std.specs.Cmp.Lexicographic.{slice_cmp};
ghost use Rattle.std.specs.BTreeSet.{contains};
ghost use Rattle.smtp_session.specs.Recipients.{put_once};

use std::alloc::Global;
use std::collections::BTreeSet;
use std::marker::Model;
use undo_base::{Name, Names, NoMemory};

/// Names in order, each once, with the set of them.
#[derive(Drop)]
pub struct Recipients {
    names: Vec<Name>,
    held: BTreeSet<Name>,
}

impl Model for Recipients {
    ghost use Rattle.std.specs.Prelude.{List, ℕ, ◌≡◌, ◌≤◌, length};
    ghost use Rattle.std.specs.BTreeSet.{btree_set_len};
    ghost use Rattle.smtp_session.specs.Held.{HoldsNames};

    ghost Value = { List (List ℕ) };

    ghost use Rattle.smtp_session.specs.declared.recipients.Recipients.TheInside.{Inside};

    ghost view = { λ r. r.names.items };

    ghost invariant = { λ r. HoldsNames r.held r.names.items × (btree_set_len r.held ≤ length r.names.items) ×
        ((other : Inside) → r ≡ record other { names = r.names; held = r.held }) };
}

impl Recipients {
    /// No recipients, which takes no memory.
    pub fn new(alloc: Global) -> Self
        ensures { result ≡ [] }
    {
        Recipients {
            names: Vec::new(alloc),
            held: BTreeSet::new(alloc),
        }
    }

    /// How many there are.
    pub fn len(&self) -> usize
        ensures { result ≡ length self.now }
    {
        self.names.len()
    }

    /// How many names are in memory, in the list and in the set. Takes no memory.
    pub fn kept(&self) -> usize
        ensures { result ≤ 2 * length self.now }
    {
        self.names.len() + self.held.len()
    }

    /// The names, in their order.
    pub(crate) fn names(&self) -> &[Name]
        ensures { result.now ≡ self.now }
    {
        self.names.as_slice()
    }

    /// Adds a name at the end, where it is not held yet.
    pub fn put(&mut self, alloc: Global, name: Name) -> Result<(), NoMemory>
        ensures ok { OnOk result (self.new ≡ put_once name self.old) }
        ensures err { OnErr result (self.new ≡ self.old) }
    {
        if self.held.contains(&name) {
            return Ok(());
        }
        let copy = name.copy(alloc)?;
        self.names.push(name)?;
        match self.held.insert(copy) {
            Ok(_) => Ok(()),
            Err(_) => {
                self.names.pop();
                Err(NoMemory)
            }
        }
    }

    /// The names, with no memory taken.
    pub fn into_names(self) -> Names
        ensures { result ≡ self }
    {
        let Recipients { names, held: _ } = self;
        Names::from_vec(names)
    }
}
