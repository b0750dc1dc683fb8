//! What is counted of a desk, and what is listed of its timeline.
//!
//! `counts` goes through the timeline and the names of mailboxes. More messages than 64 bits hold are told as the most that they
//! hold.
ghost use Rattle.std.specs.Prelude.{◌≡◌, ℕ, ◌≤◌, ◌∷◌, [], ◌++◌, map, min, length, sum_by, count_by, IfOk, OnOk, take, drop};
ghost use Rattle.verb_core.specs.declared.item.Item.{Item as TheItem};
ghost use Rattle.verb_core.specs.declared.mailbox.BoxId.{BoxId as TheBoxId};
ghost use Rattle.verb_core.specs.Boxes.{mail_at};
ghost use Rattle.verb_core.specs.Deeds.{is_notice as is_of_notice};
ghost use Rattle.mail_desk.specs.Counting.{bare_item, counts_of, listed, most, most_cycles, page};

use crate::Desk;
use box_store::Store;
use paradox::Report;
use std::alloc::Global;
use stored_items::StoredItem;
use undo_base::{Copies, Name, NoMemory, Text};
use verb_core::{BoxId, Item, Items};

/// How many cycles there were, items in the timeline, messages in all mailboxes, the next number, notices among the items,
/// and users of the house.
#[derive(Clone, Copy, PartialEq, Eq)]
pub struct Counts {
    pub cycles: u32,
    pub items: u32,
    pub messages: u64,
    pub next: u32,
    pub notices: u32,
    pub users: u32,
}

/// How many reports there are, or the most that 32 bits hold.
fn cycles_in(reports: &[(Name, Report)]) -> u32
    ensures { result ≡ min (length reports.now) most_cycles }
{
    let count = reports.len();
    if count < u32::MAX as usize {
        count as u32
    } else {
        u32::MAX
    }
}

/// How many entries a mailbox has: none where it is missing.
fn entries_in(store: &Store, id: &BoxId) -> u64
    ensures { result ≡ length (mail_at id.now store.now.store.boxes) }
{
    match store.mailbox(id.user, &id.name) {
        None => 0,
        Some(mailbox) => mailbox.entries.len() as u64,
    }
}

/// How many entries the mailboxes of these rows have, or the most that 64 bits hold.
fn messages_in(store: &Store, rows: &[(BoxId, u32)]) -> u64
    ensures { result ≡ min (sum_by (λ (r : TheBoxId × ℕ). length (mail_at r.0 store.now.store.boxes)) rows.now) most }
{
    let mut sum: u64 = 0;
    for row in rows {
        sum = sum.saturating_add(entries_in(store, &row.0));
    }
    sum
}

/// 1 for a notice, else 0.
fn notices_of(item: &StoredItem) -> usize
    ensures value { result ≡ count_by (λ (i : TheItem). is_of_notice i.deed) (item.now ∷ []) }
    ensures small { result ≤ 1 }
{
    if item.is_notice() { 1 } else { 0 }
}

fn notices_in(timeline: &[StoredItem]) -> usize
    ensures { result ≡ count_by (λ (i : TheItem). is_of_notice i.deed) timeline.now }
{
    let mut count = 0;
    for item in timeline {
        count += notices_of(item);
    }
    count
}

/// A copy of an item, without its text.
fn bare_copy(alloc: Global, item: &Item) -> Result<Item, NoMemory>
    ensures { IfOk result (λ copy. copy ≡ bare_item item.now) }
{
    let shown = item.shown.copy(alloc)?;
    match item.deed.with_text(alloc, &Text::new(alloc)) {
        Ok(deed) => Ok(Item {
            number: item.number,
            at: item.at,
            by: item.by,
            rev: item.rev,
            deed,
            shown,
        }),
        Err(NoMemory) => {
            drop(shown);
            Err(NoMemory)
        }
    }
}

/// Adds a copy of an item, without its text.
fn push_bare(alloc: Global, items: &mut Items, item: &StoredItem) -> Result<(), NoMemory>
    ensures { OnOk result (items.new ≡ items.old ++ bare_item item.now ∷ []) }
{
    match bare_copy(alloc, item.item()) {
        Ok(copy) => items.push(copy),
        Err(NoMemory) => Err(NoMemory),
    }
}

/// Copies of items, without their texts.
fn bare_items(alloc: Global, items: &[StoredItem]) -> Result<Items, NoMemory>
    ensures { IfOk result (λ copies. copies ≡ map bare_item items.now) }
{
    let mut copies = Items::new(alloc);
    for item in items {
        push_bare(alloc, &mut copies, item)?;
    }
    Ok(copies)
}

/// The items from a place on, none behind the end.
fn from_place(items: &[StoredItem], from: usize) -> &[StoredItem]
    ensures { result.now ≡ drop from items.now }
{
    if from <= items.len() {
        &items[from..]
    } else {
        &[]
    }
}

/// The first so many items.
fn first(items: &[StoredItem], count: usize) -> &[StoredItem]
    ensures { result.now ≡ take count items.now }
{
    if items.len() <= count {
        items
    } else {
        &items[..count]
    }
}

impl Desk {
    /// The counts, with no memory taken.
    pub fn counts(&self) -> Counts
        ensures { result ≡ counts_of self.now.kept }
    {
        Counts {
            cycles: cycles_in(self.reports.as_slice()),
            items: self.timeline.len(self.next) as u32,
            messages: messages_in(&self.store, self.stamps.as_slice()),
            next: self.next,
            notices: notices_in(self.timeline.as_slice()) as u32,
            users: self.base.house().accounts.len() as u32,
        }
    }

    /// All items in force, in order. It takes no memory.
    pub fn all_items(&self) -> &[StoredItem]
        ensures { result.now ≡ self.now.kept.timeline }
    {
        self.timeline.as_slice()
    }

    /// At most a thousand items from a place on (0 is the first), as they are. It takes no memory.
    pub fn items(&self, from: u32) -> &[StoredItem]
        ensures { result.now ≡ page self.now.kept.timeline from }
    {
        first(from_place(self.timeline.as_slice(), from as usize), 1000)
    }

    /// Copies of the items behind a place (0 is before the first), without their texts.
    pub fn bare_behind(&self, alloc: Global, place: usize) -> Result<Items, NoMemory>
        ensures { IfOk result (λ items. items ≡ map bare_item (drop place self.now.kept.timeline)) }
    {
        bare_items(alloc, from_place(self.timeline.as_slice(), place))
    }

    /// Copies of at most a thousand items from a place on (0 is the first), without their texts.
    pub fn timeline(&self, alloc: Global, from: u32) -> Result<Items, NoMemory>
        ensures { IfOk result (λ items. items ≡ listed self.now.kept.timeline from) }
    {
        bare_items(alloc, self.items(from))
    }
}
