//! The texts that items bring: whether a body has one, where it lies, and a notice's, which is in memory.
ghost use Rattle.std.specs.Prelude.{◌≡◌, Some, None, List, ℕ, is_some, length, take, option_copied, option_map, if◌then◌else◌};
ghost use Rattle.verb_core.specs.Items.{NumbersApart};
ghost use Rattle.mail_desk.specs.Timeline.{has_text, memory_text_by_rev, noted_of, rev_of, text_in_memory, text_by_rev};
ghost use Rattle.store_kept.specs.Texts.{has_text_among, has_text_kept, is_in_memory as is_held, text_at_hand, text_kept};

use crate::Desk;
use crate::numbered::Numbered;
use shelf::Note;
use stored_items::StoredItem;
use undo_base::Text;
use verb_core::{Body, Item};

/// The text that an item of the body's number tells of it.
fn text_of_rev(item: &Item, body: Body) -> Option<&Text>
    ensures { option_copied result ≡ text_by_rev body item.now }
{
    if item.rev == body.rev {
        item.deed.text()
    } else {
        None
    }
}

/// Whether an item is a notice that a cycle or a withdrawal of this journal made, where numbers are drawn from the first one on.
fn is_in_memory(item: &StoredItem, first: u32) -> bool
    ensures { result ≡ is_held first item.now }
{
    item.is_notice() && first <= item.body().origin
}

/// The text that an item of the body's number tells of it, if it is in memory.
fn told_in_memory(item: &StoredItem, first: u32, body: Body) -> Option<&Text>
    ensures { option_copied result ≡ memory_text_by_rev first body item.now }
{
    if is_in_memory(item, first) {
        text_of_rev(item.item(), body)
    } else {
        None
    }
}

/// Whether an item of the body's number tells its text.
fn tells(item: &StoredItem, body: Body) -> bool
    ensures { result ≡ is_some (text_by_rev body item.now) }
{
    if item.body().rev == body.rev {
        item.has_text()
    } else {
        false
    }
}

fn find_notice(timeline: &Numbered, first: u32, body: Body) -> Option<&Text>
    requires { NumbersApart timeline.now.items }
    ensures { option_copied result ≡ text_in_memory first timeline.now.items body }
{
    match timeline.find(body.origin) {
        Some(item) => told_in_memory(item, first, body),
        None => None,
    }
}

fn is_told(timeline: &Numbered, body: Body) -> bool
    requires { NumbersApart timeline.now.items }
    ensures { result ≡ has_text timeline.now.items body }
{
    match timeline.find(body.origin) {
        Some(item) => tells(item, body),
        None => false,
    }
}

fn is_told_before(timeline: &Numbered, body: Body, place: usize) -> bool
    requires { NumbersApart timeline.now.items }
    ensures { result ≡ has_text (take place timeline.now.items) body }
{
    match timeline.find_before(body.origin, place) {
        Some(item) => tells(item, body),
        None => false,
    }
}

fn find_rev(timeline: &Numbered, number: u32) -> Option<u32>
    requires { NumbersApart timeline.now.items }
    ensures { result ≡ rev_of timeline.now.items number }
{
    match timeline.find(number) {
        Some(item) => {
            if item.has_text() {
                return Some(item.body().rev);
            }
            None
        }
        None => None,
    }
}

impl Desk {
    /// Whether an item in force brings the text of a body, or it comes with the base. It takes no memory.
    pub fn has_text(&self, body: Body) -> bool
        ensures { result ≡ has_text_kept self.now.kept body }
    {
        is_told(&self.timeline, body) || self.base.has_text(body)
    }

    /// Whether one of the first so many items in force brings the text of a body, or it comes with the base. It takes no memory.
    pub fn has_text_before(&self, body: Body, place: usize) -> bool
        ensures { result ≡ has_text_among self.now.kept (take place self.now.kept.timeline) body }
    {
        is_told_before(&self.timeline, body, place) || self.base.has_text(body)
    }

    /// The text of a body that a notice in force brings, which a cycle or a withdrawal of this journal made. It takes no memory.
    pub fn notice(&self, body: Body) -> Option<&Text>
        ensures value { option_copied result ≡ text_in_memory self.now.kept.first self.now.kept.timeline body }
        ensures told { (text : List ℕ) → option_copied result ≡ Some text → text_kept self.now.kept body ≡ Some text }
    {
        find_notice(&self.timeline, self.base.first(), body)
    }

    /// Where the text of a body lies that has one or can come back, unless it is in memory. It takes no memory.
    pub fn note(&self, body: Body) -> Option<Note>
        ensures value { result ≡ noted_of self.now.kept.first self.now.kept.timeline self.now.notes body }
        ensures size { option_map (λ note. note.length) result
            ≡ (if is_some (text_in_memory self.now.kept.first self.now.kept.timeline body) then None else option_map length (text_at_hand self.now.kept body)) }
    {
        match self.notice(body) {
            Some(_) => None,
            None => self.shelf.find(body),
        }
    }

    /// The rev of the item of a number, where it has a text.
    pub fn rev(&self, number: u32) -> Option<u32>
        ensures { result ≡ rev_of self.now.kept.timeline number }
    {
        find_rev(&self.timeline, number)
    }
}
