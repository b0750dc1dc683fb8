//! The mailboxes that turns took away, whose other sessions are told.
//!
//! Where an item took a mailbox away, or the store was rewound or upgraded, each other open connection is looked at once, in
//! order of their numbers. What they are told goes among the strings of the event by rising number. Where no memory is found for
//! the list of strings, serving ends, as for the loop's other tables. A RENAME of INBOX tells nobody.
ghost use Rattle.std.specs.Prelude.{◌≡◌, ◌↔◌, ◌++◌, ◌∷◌, [], length, take, IsTrue, OnErr, OnOk};

use std::alloc::Global;
use std::marker::Model;
use undo_base::NoMemory;
use verb_core::BoxId;

/// Mailboxes, in the order in which they were taken away.
#[derive(Drop)]
pub struct Gone {
    boxes: Vec<BoxId>,
}

impl Model for Gone {
    ghost use Rattle.std.specs.Prelude.{List};
    ghost use Rattle.verb_core.specs.declared.mailbox.BoxId.{BoxId};

    ghost Value = { List BoxId };

    ghost view = { λ g. g.boxes.items };
}

impl Gone {
    /// None, which takes no memory.
    pub fn new(alloc: Global) -> Gone
        ensures { result ≡ [] }
    {
        Gone {
            boxes: Vec::new(alloc),
        }
    }

    /// The mailboxes in order.
    pub fn as_slice(&self) -> &[BoxId]
        ensures { result.now ≡ self.now }
    {
        self.boxes.as_slice()
    }

    /// Whether there are none.
    pub fn is_empty(&self) -> bool
        ensures { IsTrue result ↔ (self.now ≡ []) }
    {
        self.boxes.is_empty()
    }

    /// How many there are.
    pub fn len(&self) -> usize
        ensures { result ≡ length self.now }
    {
        self.boxes.len()
    }

    /// One more.
    pub fn push(&mut self, id: BoxId) -> Result<(), NoMemory>
        ensures ok { OnOk result (self.new ≡ self.old ++ id ∷ []) }
        ensures err { OnErr result (self.new ≡ self.old) }
    {
        self.boxes.push(id)?;
        Ok(())
    }

    /// The first ones alone.
    pub fn keep_first(&mut self, count: usize)
        ensures { self.new ≡ take count self.old }
    {
        self.boxes.truncate(count);
    }
}
