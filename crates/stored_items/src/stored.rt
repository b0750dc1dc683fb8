//! An item whose text is not in memory.
ghost use Rattle.std.specs.Prelude.{◌≡◌, false, [], IfOk, is_some, length, option_map, unwrap_or};
ghost use Rattle.verb_core.specs.Deeds.{is_notice, with_text};
ghost use Rattle.verb_core.specs.Items.{text_in};
ghost use Rattle.stored_items.specs.Stored.{stored as is_stored, stored_deed, whole};

use std::alloc::Global;
use std::marker::Model;
use undo_base::{Copies, NoMemory, PastText, Text};
use verb_core::{Act, Body, Deed, Item, Shown};

/// An item as it is kept in memory: without its text, but for a notice's. It stands for the whole item.
#[derive(Drop)]
pub struct StoredItem {
    item: Item,
    text: PastText,
}

impl Model for StoredItem {
    ghost use Rattle.std.specs.Prelude.{◌≡◌};
    ghost use Rattle.verb_core.specs.declared.item.Item.{Item};
    ghost use Rattle.stored_items.specs.Stored.{stored, whole};

    ghost Value = { Item };

    ghost view = { λ s. whole s.item s.text };

    ghost invariant = { λ s. s.item ≡ stored (whole s.item s.text) };
}

/// The text of a deed, as clauses see it.
fn recalled(alloc: Global, deed: &Deed) -> PastText
    ensures { result ≡ unwrap_or (text_in deed.now) [] }
{
    match deed.text() {
        Some(text) => PastText::of(text),
        None => PastText::of(&Text::new(alloc)),
    }
}

/// Lets the text of a deed go.
fn clear(alloc: Global, deed: &mut Deed)
    ensures { deed.new ≡ stored_deed deed.old }
{
    match deed {
        Deed::Deliver { text, .. } => *text = Text::new(alloc),
        Deed::Append { text, .. } => *text = Text::new(alloc),
        Deed::Act(Act::Give { text, .. }) => *text = Text::new(alloc),
        _ => {}
    }
}

impl StoredItem {
    /// An item, whose text is let go. No memory is taken.
    pub fn of(alloc: Global, mut item: Item) -> StoredItem
        ensures { result ≡ item }
    {
        let text = recalled(alloc, &item.deed);
        clear(alloc, &mut item.deed);
        StoredItem { item, text }
    }

    /// An item with a text that lies elsewhere, where it has one. No memory is taken.
    #[tactic(auto, using(crate::proofs::Whole::lying_is_kept, crate::proofs::Whole::lies_whole))]
    pub fn lying(alloc: Global, item: Item, text: PastText) -> StoredItem
        requires { is_notice item.deed ≡ false }
        ensures { result ≡ whole item text }
    {
        let mut bare = item;
        clear(alloc, &mut bare.deed);
        StoredItem { item: bare, text }
    }

    /// A copy of an item, but for its text.
    pub fn copy_of(alloc: Global, item: &Item) -> Result<StoredItem, NoMemory>
        ensures { IfOk result (λ copy. copy ≡ item.now) }
    {
        let text = recalled(alloc, &item.deed);
        Ok(StoredItem {
            item: without_text(alloc, item)?,
            text,
        })
    }

    /// The item without its text, but for a notice's.
    pub fn item(&self) -> &Item
        ensures { result.now ≡ is_stored self.now }
    {
        &self.item
    }

    /// Whether the item brings a text.
    pub fn has_text(&self) -> bool
        ensures { result ≡ is_some (text_in self.now.deed) }
    {
        self.item.deed.text().is_some()
    }

    /// Whether it is a notice.
    #[tactic(auto, using(crate::proofs::Whole::still_notice))]
    pub fn is_notice(&self) -> bool
        ensures { result ≡ is_notice self.now.deed }
    {
        self.item.deed.is_notice()
    }

    /// How many bytes the text has that the item brings.
    pub fn size(&self) -> Option<u32>
        ensures { result ≡ option_map length (text_in self.now.deed) }
    {
        match self.item.deed.text() {
            Some(_) => Some(self.text.len()),
            None => None,
        }
    }

    /// The body that names its text.
    pub fn body(&self) -> Body
        ensures origin { result.origin ≡ self.now.number }
        ensures rev { result.rev ≡ self.now.rev }
    {
        Body {
            origin: self.item.number,
            rev: self.item.rev,
        }
    }

    /// A copy with another text, where it has one, under a rev. A notice keeps its text.
    #[tactic(auto, using(crate::proofs::Whole::replaced_anew, crate::proofs::Whole::text_anew))]
    pub fn replaced(&self, alloc: Global, text: &Text, rev: u32) -> Result<StoredItem, NoMemory>
        requires { is_notice self.now.deed ≡ false }
        ensures { IfOk result (λ copy. copy ≡ record self.now { rev = rev; deed = with_text text.now self.now.deed }) }
    {
        let mut item = self.item.copy(alloc)?;
        item.rev = rev;
        Ok(StoredItem {
            item,
            text: PastText::of(text),
        })
    }

    /// Gives it another answer.
    pub fn show(&mut self, shown: Shown)
        ensures { self.new ≡ record self.old { shown = shown } }
    {
        self.item.shown = shown;
    }

    /// Gives it the text that was read, where it has one.
    #[tactic(auto, using(crate::proofs::Whole::heard_anew, crate::proofs::Whole::text_anew))]
    pub fn hear(&mut self, text: &Text)
        requires { is_notice self.old.deed ≡ false }
        ensures { self.new ≡ whole self.old text.now }
    {
        self.text = PastText::of(text);
    }
}

/// A copy of an item without its text, but for a notice's.
#[tactic(auto, using(crate::proofs::Whole::text_let_go, crate::proofs::Whole::notice_kept))]
fn without_text(alloc: Global, item: &Item) -> Result<Item, NoMemory>
    ensures { IfOk result (λ copy. copy ≡ is_stored item.now) }
{
    if item.deed.is_notice() {
        return item.copy(alloc);
    }
    Ok(Item {
        number: item.number,
        at: item.at,
        by: item.by,
        rev: item.rev,
        deed: item.deed.with_text(alloc, &Text::new(alloc))?,
        shown: item.shown.copy(alloc)?,
    })
}

impl Copies for StoredItem {
    fn copy(&self, alloc: Global) -> Result<StoredItem, NoMemory> {
        Ok(StoredItem {
            item: self.item.copy(alloc)?,
            text: self.text.again(),
        })
    }
}
