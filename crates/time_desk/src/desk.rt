//! The desk over its disk, and what it tells of itself.
ghost use Rattle.std.specs.Prelude.{◌≡◌, ℕ, ◌≤◌, ◌<◌, [], map, length, option_map, IsTrue, IfOk};
ghost use Rattle.std.specs.List.{AllByRecursion, list_all};
ghost use Rattle.verb_core.specs.declared.item.Item.{Item as TheItem};
ghost use Rattle.verb_core.specs.declared.mailbox.Body.{Body as TheBody};
ghost use Rattle.verb_core.specs.declared.mailbox.BoxId.{BoxId as TheBoxId};
ghost use Rattle.verb_core.specs.declared.mailbox.Mailbox.{Mailbox as TheMailbox};
ghost use Rattle.verb_core.specs.Boxes.{box_of, row_at};
ghost use Rattle.verb_core.specs.Items.{IsTimeline};
ghost use Rattle.verb_core.specs.Store.{IsValid, is_house, is_known};
ghost use Rattle.store_kept.specs.Bases.{HasBase};
ghost use Rattle.store_kept.specs.Coming.{HasUndone};
ghost use Rattle.seal_log.specs.declared.place.Place.{Place as ThePlace};
ghost use Rattle.shelf.specs.Notes.{size_of};
ghost use Rattle.store_digest.specs.Snapshots.{digest_of};
ghost use Rattle.mail_desk.specs.Counting.{counts_of, listed, page};
ghost use Rattle.store_kept.specs.Kept.{IsRun, is_by_key, store_of};
ghost use Rattle.store_kept.specs.Texts.{all_bodies, has_text_kept, text_at_hand};
ghost use Rattle.mail_desk.specs.Timeline.{has_sizes, has_text, rev_of};
ghost use Rattle.desk_journal.specs.Permanence.{IsSound};
ghost use Rattle.desk_journal.specs.Stored.{MarkedBefore, TextsNoted};

use box_store::Store;
use desk_journal::Journal;
use mail_desk::Counts;
use shelf::Shelf;
use std::alloc::Global;
use std::marker::Model;
use store_digest::digest;
use stored_items::StoredItem;
use undo_base::{END_OF_NUMBERS, Name, NoMemory, Text, User};
use undo_outside::Disk;
use verb_core::{Body, Conf, House, Items, Stamps};

/// A desk in memory, and its journal on a disk.
#[derive(Drop)]
pub struct Desk<D: Disk> {
    pub(crate) journal: Journal<D>,
    pub(crate) desk: mail_desk::Desk,
}

impl<D: Disk> Model for Desk<D> {
    ghost use Rattle.desk_journal.specs.Lasting.{Lasting, lasting};
    ghost use Rattle.desk_journal.specs.Stored.{AreNoted};

    ghost Value = { Lasting D };

    ghost view = { λ d. lasting d.desk d.journal };

    ghost invariant = { λ d. AreNoted d.journal.gate d.desk };
}

impl<D: Disk> Desk<D> {
    /// Whether a write or a sync of this desk failed.
    pub fn closed(&self) -> bool
        ensures { result ≡ self.now.closed }
    {
        self.journal.is_closed()
    }

    /// What its configuration says for good.
    pub fn house(&self) -> &House
        ensures value { result.now ≡ self.now.kept.house }
        ensures sound { IsTrue (is_house result.now) }
    {
        self.desk.house()
    }

    /// The configuration at first.
    pub fn opening(&self) -> &Conf
        ensures { result.now ≡ self.now.kept.opening }
    {
        self.desk.opening()
    }

    /// The configuration in force.
    pub fn conf(&self) -> &Conf
        ensures { result.now ≡ (store_of self.now.kept).conf }
    {
        self.desk.conf()
    }

    /// The store that is there.
    pub fn store(&self) -> &Store
        ensures value { result.now.store ≡ store_of self.now.kept }
        ensures valid { IsValid result.now.store }
        ensures house { result.now.store.house ≡ self.now.kept.house }
    {
        self.desk.store()
    }

    /// The stamp of each mailbox, by rising user and name.
    pub fn stamps(&self) -> &Stamps
        ensures value { result.now ≡ self.now.kept.stamps }
        ensures named { map (λ (r : TheBoxId × ℕ). r.0) result.now ≡ map (λ (r : TheBoxId × TheMailbox). r.0) (store_of self.now.kept).boxes }
    {
        self.desk.stamps()
    }

    /// The stamp of the mailbox of that user and name, where it is there.
    pub fn stamp(&self, user: User, name: &Name) -> Option<u32>
        ensures { result ≡ row_at (box_of user name.now) self.now.kept.stamps }
    {
        self.desk.stamp(user, name)
    }

    /// Where the text of each body lies, and its size.
    pub fn shelf(&self) -> &Shelf
        ensures value { result.now.notes ≡ self.now.notes }
        ensures sizes { (body : TheBody) → size_of result.now.notes body ≡ option_map length (text_at_hand self.now.kept body) }
        ensures known { IsTrue (has_sizes result.now.notes (store_of self.now.kept).boxes) }
    {
        self.desk.shelf()
    }

    /// The number that the next item gets.
    pub fn next(&self) -> u32
        ensures { result ≡ self.now.kept.next }
    {
        self.desk.next()
    }

    /// The counts, with no memory taken.
    pub fn counts(&self) -> Counts
        ensures { result ≡ counts_of self.now.kept }
    {
        self.desk.counts()
    }

    /// At most a thousand items from a place on (0 is the first), without their texts.
    pub fn timeline(&self, alloc: Global, from: u32) -> Result<Items, NoMemory>
        ensures { IfOk result (λ items. items ≡ listed self.now.kept.timeline from) }
    {
        self.desk.timeline(alloc, from)
    }

    /// The same items as they are in memory, with no memory taken.
    pub fn items(&self, from: u32) -> &[StoredItem]
        ensures { result.now ≡ page self.now.kept.timeline from }
    {
        self.desk.items(from)
    }

    /// The digest of the store, of 64 digits.
    pub fn digest(&self, alloc: Global) -> Result<Text, NoMemory>
        ensures { IfOk result (λ text. text ≡ digest_of (store_of self.now.kept) (length self.now.kept.timeline)) }
    {
        let items = self.desk.counts().items;
        digest(alloc, self.desk.store(), items)
    }

    /// Whether a body has a text.
    pub fn has_text(&self, body: Body) -> bool
        ensures { result ≡ has_text_kept self.now.kept body }
    {
        self.desk.has_text(body)
    }

    /// The rev of the item of a number, where it has a text.
    pub fn rev(&self, number: u32) -> Option<u32>
        ensures { result ≡ rev_of self.now.kept.timeline number }
    {
        self.desk.rev(number)
    }

    /// What holds of each desk: this does nothing.
    pub fn stands(&self)
        ensures house { IsTrue (is_house self.now.kept.house) }
        ensures base { HasBase self.now.kept }
        ensures aliases { IsTrue (list_all (λ a. list_all (is_known self.now.kept.house) a.users) self.now.kept.opening.aliases) }
        ensures filters { self.now.kept.opening.filters ≡ [] }
        ensures valid { IsValid (store_of self.now.kept) }
        ensures house_stays { (store_of self.now.kept).house ≡ self.now.kept.house }
        ensures timeline { IsTimeline self.now.kept.house self.now.kept.timeline }
        ensures below { AllByRecursion (λ (i : TheItem). i.number < self.now.kept.next) self.now.kept.timeline }
        ensures named { map (λ (r : TheBoxId × ℕ). r.0) self.now.kept.stamps ≡ map (λ (r : TheBoxId × TheMailbox). r.0) (store_of self.now.kept).boxes }
        ensures fresh { AllByRecursion (λ (r : TheBoxId × ℕ). r.1 < self.now.kept.next) self.now.kept.stamps }
        ensures next { self.now.kept.next ≤ END_OF_NUMBERS }
        ensures reports { IsTrue (is_by_key self.now.kept.reports) }
        ensures texts { IsTrue (all_bodies (has_text_kept self.now.kept) (store_of self.now.kept).boxes) }
        ensures undone { HasUndone self.now.kept }
        ensures sound { IsRun self.now.kept → IsSound self.now.kept }
        ensures within { self.now.gate < (D.told self.now.disk).size }
        ensures noted { TextsNoted self.now.gate self.now.notes self.now.kept }
        ensures marked { MarkedBefore self.now.gate self.now.marks }
        ensures since { self.now.kept.marks.since ≤ self.now.kept.next }
        ensures places { self.now.kept.marks.places ≡ map (λ (m : ℕ × ThePlace). m.0) self.now.marks }
    {
        self.desk.stands();
        self.journal.stands();
    }

    /// The disk as it is.
    pub fn into_disk(self) -> D
        ensures { result ≡ self.disk }
    {
        let Desk { journal, desk } = self;
        drop(desk);
        journal.into_disk()
    }
}
