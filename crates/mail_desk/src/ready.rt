//! Items that are asked for: found, made ready, and entered.
//!
//! The desk makes its copy of an item and room in the timeline before it performs the item: where no memory is found nothing has
//! changed. A delivery changes no name of a mailbox, so the code leaves the stamps as they are, and it is proved that they are
//! those of the definition.
//!
//! An item is performed as it is stored, with its text beside it, or with none where its text lies elsewhere and is not looked at.
ghost use Rattle.std.specs.Prelude.{◌≡◌, ◌<◌, ◌↔◌, IsTrue, IsSome, IfOk, IfErr, OnErr, OnOk, Ok, false, []};
ghost use Rattle.std.specs.List.{list_all, cons_option};
ghost use Rattle.verb_core.specs.Deeds.{is_notice};
ghost use Rattle.verb_core.specs.Items.{IsWellFormed, text_in};
ghost use Rattle.store_kept.specs.Kept.{performed, store_of};
ghost use Rattle.verb_core.specs.Live.{is_users, live};
ghost use Rattle.verb_core.specs.Step.{step};
ghost use Rattle.verb_core.specs.Store.{IsValid, is_known};
ghost use Rattle.stored_items.specs.Stored.{looks_at_text, step_text, whole};
ghost use Rattle.box_store.specs.Effects.{IsReady, applied};
ghost use Rattle.box_store.specs.Refusing.{IsRefusal};
ghost use Rattle.mail_desk.specs.Entering.{CanEnter, ready_of};
ghost use Rattle.mail_desk.specs.Timeline.{NotesText, body_of};

use crate::Desk;
use crate::noting::note_stored;
use crate::numbered::Numbered;
use crate::restamp::{StampChanges, stamp_changes};
use crate::stamps::change_stamps;
use box_store::{Effect, Store};
use seal_log::Place;
use shelf::Shelf;
use std::alloc::Global;
use store_kept::laws::what_can_come_back_stays;
use stored_items::StoredItem;
use stored_items::laws::{stored_items_are_formed, stored_items_do_alike, texts_are_not_looked_at};
use undo_base::{END_OF_NUMBERS, NoMemory, PastText, User};
use verb_core::laws::{mail_is_kept, stamps_name_mailboxes, steps_keep_validity};
use verb_core::{Ask, Item, Refused, Shown};

/// What an item does, with all room that the store needs for it, and what it changes of the stamps.
#[derive(Drop)]
pub(crate) struct Made {
    effect: Effect,
    stamps: Option<StampChanges>,
}

/// An item that a desk can enter with no memory taken, and as it is stored.
#[derive(Drop)]
pub struct Ready {
    pub(crate) item: Item,
    pub(crate) stored: StoredItem,
    pub(crate) made: Made,
}

impl Ready {
    /// The item that is to be entered, with its text.
    pub fn item(&self) -> &Item
        ensures { result.now ≡ self.now.item }
    {
        &self.item
    }
}

/// Makes room for an item more and for the note of its text, and what the item does with a text, with all room that the store
/// needs for it. No text is copied.
pub(crate) fn make_room(
    alloc: Global,
    store: &mut Store,
    timeline: &mut Numbered,
    shelf: &mut Shelf,
    item: &StoredItem,
    text: &[u8],
) -> Result<Effect, NoMemory>
    requires valid { IsValid store.old.store }
    requires formed { IsWellFormed store.old.store.house item.now }
    ensures store { store.new.store ≡ store.old.store }
    ensures timeline { timeline.new.items ≡ timeline.old.items }
    ensures shelf { shelf.new.notes ≡ shelf.old.notes }
    ensures marks { shelf.new.marks ≡ shelf.old.marks }
    ensures items { OnOk result (0 < timeline.new.room) }
    ensures notes { OnOk result (0 < shelf.new.room) }
    ensures does { IfOk result (λ effect. applied effect store.old.store ≡ (step_text store.old.store item.now text.now).0) }
    ensures shows { IfOk result (λ effect. effect.shown ≡ (step_text store.old.store item.now text.now).1) }
    ensures ready { IfOk result (λ effect. IsReady effect store.new) }
{
    stored_items_are_formed();
    stored_items_do_alike();
    timeline.make_room_for(1)?;
    shelf.note_room(1)?;
    store.ready_effect(alloc, item.item(), text)
}

impl Desk {
    /// Finds what is asked for at a moment, and makes all room for it. The desk stays as it was but for its room.
    pub fn ready(
        &mut self,
        alloc: Global,
        at: u64,
        by: Option<User>,
        ask: Ask,
    ) -> Result<Ready, Refused>
        requires by { IsSome by ↔ IsTrue (is_users ask) }
        requires known { IsTrue (list_all (is_known self.old.kept.house) (cons_option by [])) }
        ensures kept { self.new.kept ≡ self.old.kept }
        ensures notes { self.new.notes ≡ self.old.notes }
        ensures marks { self.new.marks ≡ self.old.marks }
        ensures item { IfOk result (λ ready. live (store_of self.old.kept) self.old.kept.next at by ask self.old.kept.deep ≡ Ok ready.item) }
        ensures ready { IfOk result (λ ready. CanEnter ready self.new) }
        ensures refused { IfErr result (λ refused. IsRefusal refused (live (store_of self.old.kept) self.old.kept.next at by ask self.old.kept.deep)) }
    {
        let item = self.store.live(alloc, self.next, at, by, ask, self.deep)?;
        match self.ready_item(alloc, item) {
            Ok(ready) => Ok(ready),
            Err(NoMemory) => Err(Refused::NoMemory),
        }
    }

    /// Makes all room for an item of the next number. The desk stays as it was but for its room.
    pub fn ready_item(&mut self, alloc: Global, item: Item) -> Result<Ready, NoMemory>
        requires formed { IsWellFormed self.old.kept.house item }
        requires number { item.number ≡ self.old.kept.next }
        requires left { self.old.kept.next < END_OF_NUMBERS }
        ensures kept { self.new.kept ≡ self.old.kept }
        ensures notes { self.new.notes ≡ self.old.notes }
        ensures marks { self.new.marks ≡ self.old.marks }
        ensures item { IfOk result (λ ready. ready.item ≡ item) }
        ensures ready { IfOk result (λ ready. CanEnter ready self.new) }
    {
        stored_items_do_alike();
        let copy = match StoredItem::copy_of(alloc, &item) {
            Ok(stored) => stored,
            Err(NoMemory) => {
                drop(item);
                return Err(NoMemory);
            }
        };
        match self.make_ready(alloc, &copy, item.deed.text_bytes()) {
            Ok(made) => Ok(Ready {
                item,
                stored: copy,
                made,
            }),
            Err(NoMemory) => {
                drop(copy);
                drop(item);
                Err(NoMemory)
            }
        }
    }

    /// Makes all room for an item of the next number, which does with a text what it does with its own. The desk stays as it was but
    /// for its room.
    fn make_ready(
        &mut self,
        alloc: Global,
        item: &StoredItem,
        text: &[u8],
    ) -> Result<Made, NoMemory>
        requires formed { IsWellFormed self.old.kept.house item.now }
        requires number { item.now.number ≡ self.old.kept.next }
        requires left { self.old.kept.next < END_OF_NUMBERS }
        requires alike { step_text (store_of self.old.kept) item.now text.now ≡ step (store_of self.old.kept) item.now }
        ensures kept { self.new.kept ≡ self.old.kept }
        ensures notes { self.new.notes ≡ self.old.notes }
        ensures marks { self.new.marks ≡ self.old.marks }
        ensures ready { IfOk result (λ made. CanEnter (ready_of item.now made) self.new) }
    {
        stored_items_do_alike();
        let stamps = stamp_changes(alloc, &self.store, &self.stamps, item.item())?;
        match make_room(
            alloc,
            &mut self.store,
            &mut self.timeline,
            &mut self.shelf,
            item,
            text,
        ) {
            Ok(effect) => Ok(Made { effect, stamps }),
            Err(NoMemory) => {
                drop(stamps);
                Err(NoMemory)
            }
        }
    }

    /// Enters an item for which all is ready, and gives it back with its text, which lies so far behind the front of the payload
    /// at a place. It takes no memory.
    pub fn enter(&mut self, ready: Ready, place: Place, from: u32) -> Item
        requires { CanEnter ready self.old }
        ensures kept { self.new.kept ≡ performed self.old.kept ready.item }
        ensures item { result ≡ ready.item }
        ensures notes { NotesText (text_in ready.item.deed) (body_of ready.item) place from self.old.notes self.new.notes }
        ensures marks { self.new.marks ≡ self.old.marks }
    {
        let Ready { item, stored, made } = ready;
        drop(self.put(stored, made, place, from));
        item
    }

    /// The same, with what the item shows at this store beside it.
    pub fn enter_shown(&mut self, ready: Ready, place: Place, from: u32) -> (Item, Shown)
        requires { CanEnter ready self.old }
        ensures kept { self.new.kept ≡ performed self.old.kept ready.item }
        ensures item { result.0 ≡ ready.item }
        ensures shown { result.1 ≡ (step (store_of self.old.kept) ready.item).1 }
        ensures notes { NotesText (text_in ready.item.deed) (body_of ready.item) place from self.old.notes self.new.notes }
        ensures marks { self.new.marks ≡ self.old.marks }
    {
        let Ready { item, stored, made } = ready;
        let shown = self.put(stored, made, place, from);
        (item, shown)
    }

    /// Enters what is stored of an item for which all is ready, and tells what the item shows.
    fn put(&mut self, stored: StoredItem, made: Made, place: Place, from: u32) -> Shown
        requires { CanEnter (ready_of stored made) self.old }
        ensures kept { self.new.kept ≡ performed self.old.kept stored }
        ensures shown { result ≡ (step (store_of self.old.kept) stored).1 }
        ensures notes { NotesText (text_in stored.deed) (body_of stored) place from self.old.notes self.new.notes }
        ensures marks { self.new.marks ≡ self.old.marks }
    {
        let Made { effect, stamps } = made;
        steps_keep_validity();
        stamps_name_mailboxes();
        mail_is_kept();
        what_can_come_back_stays();
        let shown = self.store.apply_alone(effect);
        change_stamps(&mut self.stamps, stamps);
        note_stored(&mut self.shelf, &stored, place, from);
        self.timeline.push(stored);
        self.next += 1;
        self.since += 1;
        shown
    }

    /// Enters an item whose text is not looked at, and lies so far behind the front of the payload at a place. It stands here with
    /// none. Where no memory is found the desk stays as it was but for its room.
    pub fn enter_lying(
        &mut self,
        alloc: Global,
        item: Item,
        text: PastText,
        place: Place,
        from: u32,
    ) -> Result<(), NoMemory>
        requires formed { IsWellFormed self.old.kept.house (whole item text) }
        requires number { item.number ≡ self.old.kept.next }
        requires left { self.old.kept.next < END_OF_NUMBERS }
        requires notice { is_notice item.deed ≡ false }
        requires unlooked { looks_at_text (store_of self.old.kept) item.deed ≡ false }
        ensures kept { OnOk result (self.new.kept ≡ performed self.old.kept (whole item text)) }
        ensures notes { OnOk result (NotesText (text_in (whole item text).deed) (body_of (whole item text)) place from self.old.notes self.new.notes) }
        ensures wants { OnErr result ((self.new.kept ≡ self.old.kept) × (self.new.notes ≡ self.old.notes)) }
        ensures marks { self.new.marks ≡ self.old.marks }
    {
        texts_are_not_looked_at();
        let stored = StoredItem::lying(alloc, item, text);
        match self.make_ready(alloc, &stored, &[]) {
            Ok(made) => {
                drop(self.put(stored, made, place, from));
                Ok(())
            }
            Err(NoMemory) => {
                drop(stored);
                Err(NoMemory)
            }
        }
    }
}
