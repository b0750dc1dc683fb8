//! A desk over a past that was cut off, while the records come that it begins with.
ghost use Rattle.std.specs.Prelude.{◌≡◌, ℕ, ◌<◌, ◌↔◌, false, [], ◌++◌, ◌==◌, IfOk, IfSome, OnOk, IsTrue, Some, is_some, option_map, nat_lt, not, ◌&&◌};
ghost use Rattle.std.specs.List.{list_all, list_any};
ghost use Rattle.std.specs.List.Sorted.{IsNonDecreasingBy, IsPermutation};
ghost use Rattle.std.specs.Ordering.{eq_by_cmp};
ghost use Rattle.verb_core.specs.declared.mailbox.Body.{Body as TheBody};
ghost use Rattle.verb_core.specs.declared.mailbox.Entry.{Entry as TheEntry};
ghost use Rattle.verb_core.specs.Boxes.{box_cmp};
ghost use Rattle.stored_items.specs.Stored.{looks_at_text, whole};
ghost use Rattle.verb_core.specs.Deeds.{is_notice};
ghost use Rattle.verb_core.specs.Items.{IsWellFormed, text_in};
ghost use Rattle.verb_core.specs.Step.{step};
ghost use Rattle.verb_core.specs.Store.{IsValid, is_house, is_known};
ghost use Rattle.box_store.specs.Effects.{IsReady, applied};
ghost use Rattle.store_kept.specs.Founding.{base_stands, can_be_kept as may_be_kept, entries_of, founded, has_text_of, is_whole, names_body, names_number, store_based, text_stands as may_stand, with_item, with_text};
ghost use Rattle.store_kept.specs.Naming.{is_named, texts_come};
ghost use Rattle.store_kept.specs.Texts.{all_bodies};
ghost use Rattle.mail_desk.specs.Founding.{are_stamps_of, based_of, begun_on, behind_named, numbers_named};
ghost use Rattle.mail_desk.specs.Timeline.{NotesText, body_of};

use crate::Desk;
use crate::noting::{note_stored, note_text};
use crate::numbered::Numbered;
use crate::ready::make_room;
use crate::stamps::compare;
use box_store::{Effect, Store, rows_make_valid_stores};
use paradox::Report;
use seal_log::Place;
use shelf::Shelf;
use std::alloc::Global;
use std::marker::Model;
use store_kept::{Base, BaseTexts, Past, Reports};
use stored_items::StoredItem;
use stored_items::laws::{stored_items_do_alike, texts_are_not_looked_at};
use undo_base::{Name, NoMemory, PastText, Text};
use verb_core::laws::{mail_is_kept, steps_keep_validity};
use verb_core::{Body, BoxId, Conf, Entry, House, Item, Mailbox, Rows, Stamps};

/// What a base record has: the next number, whether names may have superiors, the configuration and the mailboxes of the store, the
/// stamps, and the reports by the keys of their requests.
#[derive(Drop)]
pub struct BaseParts {
    pub next: u32,
    pub deep: bool,
    pub conf: Conf,
    pub rows: Rows,
    pub stamps: Stamps,
    pub reports: Reports,
}

/// The base, the numbers that are named in it, rising, and the store that the kept items left so far. And these items, where each
/// text lies, the stamps, the reports, and whether names may have superiors.
#[derive(Drop)]
pub struct Founding {
    house: House,
    opening: Conf,
    past: Past,
    numbers: Vec<u32>,
    store: Store,
    timeline: Numbered,
    shelf: Shelf,
    stamps: Stamps,
    reports: Vec<(Name, Report)>,
    deep: bool,
}

impl Model for Founding {
    ghost use Rattle.store_kept.specs.Naming.{texts_come};
    ghost use Rattle.mail_desk.specs.Founding.{Founded, IsFounding};

    ghost Value = { Founded };

    ghost view = { λ f. record {
      house = f.house;
      opening = f.opening;
      based = record {
        next = f.past.next;
        deep = f.deep;
        conf = f.past.conf;
        rows = f.past.rows;
        stamps = f.stamps;
        reports = f.reports.items;
        texts = texts_come f.past.texts;
        items = f.timeline.items;
      };
      notes = f.shelf.notes;
    } };

    ghost invariant = { λ f. IsFounding (record {
      house = f.house;
      opening = f.opening;
      based = record {
        next = f.past.next;
        deep = f.deep;
        conf = f.past.conf;
        rows = f.past.rows;
        stamps = f.stamps;
        reports = f.reports.items;
        texts = texts_come f.past.texts;
        items = f.timeline.items;
      };
      notes = f.shelf.notes;
    }) f.past.texts f.numbers.items f.store.store f.shelf.marks };
}

// ---- the numbers that a base names

/// The items of the keys of entries, and the origins of their bodies, behind other numbers.
fn push_numbers(numbers: &mut Vec<u32>, entries: &[Entry]) -> Result<(), NoMemory>
    ensures { OnOk result (numbers.new.items ≡ numbers.old.items ++ numbers_named entries.now) }
{
    for entry in entries {
        numbers.push(entry.key.item)?;
        numbers.push(entry.body.origin)?;
    }
    Ok(())
}

/// Those of the entries of all mailboxes.
fn numbers_in(alloc: Global, rows: &[(BoxId, Mailbox)]) -> Result<Vec<u32>, NoMemory>
    ensures { IfOk result (λ numbers. numbers.items ≡ numbers_named (entries_of rows.now)) }
{
    let mut numbers = Vec::new(alloc);
    for row in rows {
        push_numbers(&mut numbers, row.1.entries.as_slice())?;
    }
    Ok(numbers)
}

/// Puts numbers in their order.
fn sort_numbers(numbers: &mut Vec<u32>)
    ensures ordered { IsNonDecreasingBy (λ (n : ℕ). n) numbers.new.items }
    ensures same { IsPermutation numbers.old.items numbers.new.items }
{
    numbers.sort_unstable_by_key(|number| *number);
}

/// The numbers that the entries of all mailboxes name, rising.
fn numbers_of(alloc: Global, rows: &[(BoxId, Mailbox)]) -> Result<Vec<u32>, NoMemory>
    ensures ordered { IfOk result (λ numbers. IsNonDecreasingBy (λ (n : ℕ). n) numbers.items) }
    ensures named { IfOk result (λ numbers. (number : ℕ) → list_any (λ (n : ℕ). n == number) numbers.items ≡ names_number rows.now number) }
{
    let mut numbers = numbers_in(alloc, rows)?;
    sort_numbers(&mut numbers);
    Ok(numbers)
}

/// Whether a number is among rising ones, found by halves.
fn is_one(numbers: &[u32], number: u32) -> bool
    requires { IsNonDecreasingBy (λ (n : ℕ). n) numbers.now }
    ensures { result ≡ list_any (λ (n : ℕ). n == number) numbers.now }
{
    match numbers.binary_search_by_key(&number, |one| *one) {
        Ok(_) => true,
        Err(_) => false,
    }
}

// ---- whether stamps name mailboxes

/// Whether a stamp is that of a mailbox.
fn is_of(stamp: &(BoxId, u32), id: &BoxId) -> bool
    ensures { result ≡ eq_by_cmp box_cmp stamp.now.0 id.now }
{
    compare(stamp, id.user, &id.name).is_eq()
}

/// The stamps behind the first, where that is of a mailbox.
fn behind_first<'a>(stamps: &'a [(BoxId, u32)], id: &BoxId) -> Option<&'a [(BoxId, u32)]>
    ensures { option_map (λ rest. rest.now) result ≡ behind_named id.now stamps.now }
{
    match stamps.split_first() {
        Some((first, rest)) => {
            if is_of(first, id) {
                return Some(rest);
            }
            None
        }
        None => None,
    }
}

/// Whether stamps name exactly the mailboxes of these rows.
fn name_rows(stamps: &[(BoxId, u32)], rows: &[(BoxId, Mailbox)]) -> bool
    ensures { result ≡ are_stamps_of stamps.now rows.now }
{
    let mut left = stamps;
    for row in rows {
        match behind_first(left, &row.0) {
            Some(rest) => left = rest,
            None => return false,
        }
    }
    left.is_empty()
}

// ---- whether all texts have come

/// Whether the body of each entry has its text.
fn have_texts(texts: &BaseTexts, entries: &[Entry]) -> bool
    ensures { result ≡ list_all (λ (e : TheEntry). has_text_of (texts_come texts.now) e.body) entries.now }
{
    entries.iter().all(|entry| texts.has(entry.body))
}

/// The same of all mailboxes.
fn rows_have_texts(texts: &BaseTexts, rows: &[(BoxId, Mailbox)]) -> bool
    ensures { result ≡ all_bodies (has_text_of (texts_come texts.now)) rows.now }
{
    rows.iter()
        .all(|row| have_texts(texts, row.1.entries.as_slice()))
}

// ---- one more text, and one more item

/// Whether an item's number and rev were drawn before the next, and neither a message of the base nor a kept item has the number.
fn can_come(item: &Item, next: u32, named: bool, kept: bool) -> bool
    ensures { result ≡ (nat_lt item.now.number next && nat_lt item.now.rev next && not named && not kept) }
{
    item.number < next && item.rev < next && !named && !kept
}

/// Makes room for a note and for the place of an item, and what the item does.
fn made_room(
    alloc: Global,
    store: &mut Store,
    timeline: &mut Numbered,
    shelf: &mut Shelf,
    item: &Item,
) -> Result<Effect, NoMemory>
    requires valid { IsValid store.old.store }
    requires formed { IsWellFormed store.old.store.house item.now }
    ensures store { store.new.store ≡ store.old.store }
    ensures timeline { timeline.new.items ≡ timeline.old.items }
    ensures shelf { shelf.new.notes ≡ shelf.old.notes }
    ensures marks { shelf.new.marks ≡ shelf.old.marks }
    ensures items { OnOk result (0 < timeline.new.room) }
    ensures notes { OnOk result (0 < shelf.new.room) }
    ensures does { IfOk result (λ effect. applied effect store.old.store ≡ (step store.old.store item.now).0) }
    ensures ready { IfOk result (λ effect. IsReady effect store.new) }
{
    stored_items_do_alike();
    let stored = StoredItem::copy_of(alloc, item)?;
    let text = item.deed.text_bytes();
    let made = make_room(alloc, store, timeline, shelf, &stored, text);
    drop(stored);
    made
}

/// What a base has but for its texts: the house, the configuration at first, and the parts of its record.
#[derive(Drop)]
struct Begun {
    house: House,
    opening: Conf,
    parts: BaseParts,
}

/// With the texts that are wanted, and the numbers that are named; none has come.
fn over_numbers(
    alloc: Global,
    begun: Begun,
    texts: BaseTexts,
    numbers: Vec<u32>,
) -> Result<Founding, NoMemory>
    requires house { IsTrue (is_house begun.house) }
    requires aliases { IsTrue (list_all (λ a. list_all (is_known begun.house) a.users) begun.opening.aliases) }
    requires filters { begun.opening.filters ≡ [] }
    requires stands { IsTrue (base_stands begun.house (based_of begun.parts)) }
    requires names { (body : TheBody) → is_named texts body ≡ names_body begun.parts.rows body }
    requires none { texts_come texts ≡ [] }
    requires ordered { IsNonDecreasingBy (λ (n : ℕ). n) numbers.items }
    requires named { (number : ℕ) → list_any (λ (n : ℕ). n == number) numbers.items ≡ names_number begun.parts.rows number }
    ensures { IfOk result (λ made. made ≡ begun_on begun.house begun.opening begun.parts) }
{
    let Begun {
        house,
        opening,
        parts,
    } = begun;
    let BaseParts {
        next,
        deep,
        conf,
        rows,
        stamps,
        reports,
    } = parts;
    let past = Past {
        conf,
        rows,
        texts,
        next,
    };
    match past.store(alloc, &house) {
        Ok(store) => Ok(Founding {
            house,
            opening,
            past,
            numbers,
            store,
            timeline: Numbered::new(alloc),
            shelf: Shelf::new(alloc),
            stamps,
            reports: reports.into_vec(),
            deep,
        }),
        Err(NoMemory) => {
            drop(past);
            drop(stamps);
            drop(reports);
            Err(NoMemory)
        }
    }
}

/// With the texts that are wanted; none has come.
fn over_texts(alloc: Global, begun: Begun, texts: BaseTexts) -> Result<Founding, NoMemory>
    requires house { IsTrue (is_house begun.house) }
    requires aliases { IsTrue (list_all (λ a. list_all (is_known begun.house) a.users) begun.opening.aliases) }
    requires filters { begun.opening.filters ≡ [] }
    requires stands { IsTrue (base_stands begun.house (based_of begun.parts)) }
    requires names { (body : TheBody) → is_named texts body ≡ names_body begun.parts.rows body }
    requires none { texts_come texts ≡ [] }
    ensures { IfOk result (λ made. made ≡ begun_on begun.house begun.opening begun.parts) }
{
    match numbers_of(alloc, begun.parts.rows.as_slice()) {
        Ok(numbers) => over_numbers(alloc, begun, texts, numbers),
        Err(NoMemory) => {
            drop(begun);
            drop(texts);
            Err(NoMemory)
        }
    }
}

/// Over a base, behind which nothing has come.
fn founded_on(alloc: Global, begun: Begun) -> Result<Founding, NoMemory>
    requires house { IsTrue (is_house begun.house) }
    requires aliases { IsTrue (list_all (λ a. list_all (is_known begun.house) a.users) begun.opening.aliases) }
    requires filters { begun.opening.filters ≡ [] }
    requires stands { IsTrue (base_stands begun.house (based_of begun.parts)) }
    ensures { IfOk result (λ made. made ≡ begun_on begun.house begun.opening begun.parts) }
{
    match BaseTexts::naming(alloc, begun.parts.rows.as_slice()) {
        Ok(texts) => over_texts(alloc, begun, texts),
        Err(NoMemory) => {
            drop(begun);
            Err(NoMemory)
        }
    }
}

impl Founding {
    /// Over the base of a record, behind which nothing has come.
    pub fn new(
        alloc: Global,
        house: House,
        opening: Conf,
        parts: BaseParts,
    ) -> Result<Founding, NoMemory>
        requires house { IsTrue (is_house house) }
        requires aliases { IsTrue (list_all (λ a. list_all (is_known house) a.users) opening.aliases) }
        requires filters { opening.filters ≡ [] }
        requires stands { IsTrue (base_stands house (based_of parts)) }
        ensures { IfOk result (λ made. made ≡ begun_on house opening parts) }
    {
        founded_on(
            alloc,
            Begun {
                house,
                opening,
                parts,
            },
        )
    }

    /// What its configuration says for good.
    pub fn house(&self) -> &House
        ensures value { result.now ≡ self.now.house }
        ensures sound { IsTrue (is_house result.now) }
    {
        &self.house
    }

    /// Whether the text of a body can come now: it is named in the base, it has not come, and no item has. It takes no memory.
    pub fn text_stands(&self, body: Body) -> bool
        ensures { result ≡ may_stand self.now.based body }
    {
        self.timeline.as_slice().is_empty() && self.past.texts.wants(body)
    }

    /// Whether an item can be kept: its number and its rev were drawn before, and neither a message of the base nor an earlier item has
    /// its number. It takes no memory.
    pub fn can_be_kept(&self, item: &Item) -> bool
        ensures { result ≡ may_be_kept self.now.based item.now }
    {
        let named = is_one(self.numbers.as_slice(), item.number);
        let kept = self.timeline.has(item.number);
        can_come(item, self.past.next, named, kept)
    }

    /// Takes the text of a body of the base, which lies so far behind the front of the payload at a place.
    pub fn text(&mut self, body: Body, text: &Text, place: Place, from: u32) -> Result<(), NoMemory>
        requires { IsTrue (may_stand self.old.based body) }
        ensures based { OnOk result (self.new.based ≡ with_text self.old.based body text.now) }
        ensures notes { OnOk result (NotesText (Some text.now) body place from self.old.notes self.new.notes) }
        ensures house { self.new.house ≡ self.old.house }
        ensures opening { self.new.opening ≡ self.old.opening }
    {
        self.text_lying(body, PastText::of(text), place, from)
    }

    /// The same of a text that lies elsewhere.
    pub fn text_lying(
        &mut self,
        body: Body,
        text: PastText,
        place: Place,
        from: u32,
    ) -> Result<(), NoMemory>
        requires { IsTrue (may_stand self.old.based body) }
        ensures based { OnOk result (self.new.based ≡ with_text self.old.based body text) }
        ensures notes { OnOk result (NotesText (Some text) body place from self.old.notes self.new.notes) }
        ensures house { self.new.house ≡ self.old.house }
        ensures opening { self.new.opening ≡ self.old.opening }
    {
        let size = text.len();
        match self.shelf.note_room(1) {
            Ok(()) => {
                self.past.texts.put_lying(body, text);
                self.shelf.note(body, place, from, size);
                Ok(())
            }
            Err(NoMemory) => {
                drop(text);
                Err(NoMemory)
            }
        }
    }

    /// Keeps an item behind those before it, whose text, where it has one, lies so far behind the front of the payload at a place.
    pub fn keep(
        &mut self,
        alloc: Global,
        item: Item,
        place: Place,
        from: u32,
    ) -> Result<(), NoMemory>
        requires formed { IsWellFormed self.old.house item }
        requires may { IsTrue (may_be_kept self.old.based item) }
        ensures based { OnOk result (self.new.based ≡ with_item self.old.based item) }
        ensures notes { OnOk result (NotesText (text_in item.deed) (body_of item) place from self.old.notes self.new.notes) }
        ensures house { self.new.house ≡ self.old.house }
        ensures opening { self.new.opening ≡ self.old.opening }
    {
        rows_make_valid_stores();
        steps_keep_validity();
        match made_room(
            alloc,
            &mut self.store,
            &mut self.timeline,
            &mut self.shelf,
            &item,
        ) {
            Ok(effect) => {
                drop(self.store.apply_alone(effect));
                note_text(&mut self.shelf, &item, place, from);
                self.timeline.put(StoredItem::of(alloc, item));
                Ok(())
            }
            Err(NoMemory) => {
                drop(item);
                Err(NoMemory)
            }
        }
    }

    /// Whether no filter is in force in the store that the items left. It takes no memory.
    pub fn is_unfiltered(&self) -> bool
        ensures { IsTrue result ↔ ((store_based self.now.house self.now.based).conf.filters ≡ []) }
    {
        self.store.conf().filters.is_empty()
    }

    /// Keeps an item whose text lies elsewhere, and is not looked at.
    pub fn keep_lying(
        &mut self,
        alloc: Global,
        item: Item,
        text: PastText,
        place: Place,
        from: u32,
    ) -> Result<(), NoMemory>
        requires formed { IsWellFormed self.old.house (whole item text) }
        requires may { IsTrue (may_be_kept self.old.based (whole item text)) }
        requires notice { is_notice item.deed ≡ false }
        requires unlooked { looks_at_text (store_based self.old.house self.old.based) item.deed ≡ false }
        ensures based { OnOk result (self.new.based ≡ with_item self.old.based (whole item text)) }
        ensures notes { OnOk result (NotesText (text_in (whole item text).deed) (body_of (whole item text)) place from self.old.notes self.new.notes) }
        ensures house { self.new.house ≡ self.old.house }
        ensures opening { self.new.opening ≡ self.old.opening }
    {
        rows_make_valid_stores();
        steps_keep_validity();
        texts_are_not_looked_at();
        let stored = StoredItem::lying(alloc, item, text);
        match make_room(
            alloc,
            &mut self.store,
            &mut self.timeline,
            &mut self.shelf,
            &stored,
            &[],
        ) {
            Ok(effect) => {
                drop(self.store.apply_alone(effect));
                note_stored(&mut self.shelf, &stored, place, from);
                self.timeline.put(stored);
                Ok(())
            }
            Err(NoMemory) => {
                drop(stored);
                Err(NoMemory)
            }
        }
    }

    /// Whether all has come: each body of the base has its text, and the stamps name the mailboxes of the store that the items left.
    fn is_whole(&self) -> bool
        ensures { result ≡ is_whole self.now.house self.now.based }
    {
        let past = &self.past;
        rows_have_texts(&past.texts, past.rows.as_slice())
            && name_rows(self.stamps.as_slice(), self.store.boxes())
    }

    /// The desk, where all has come. It takes no memory.
    pub fn settle(self) -> Option<Desk>
        ensures whole { is_some result ≡ is_whole self.house self.based }
        ensures kept { IfSome result (λ desk. desk.kept ≡ founded self.house self.opening self.based) }
        ensures notes { IfSome result (λ desk. desk.notes ≡ self.notes) }
        ensures marks { IfSome result (λ desk. desk.marks ≡ []) }
    {
        if !self.is_whole() {
            drop(self);
            return None;
        }
        Some(settled(self))
    }
}

/// The desk of a base of which all has come.
fn settled(founding: Founding) -> Desk
    requires { IsTrue (is_whole founding.house founding.based) }
    ensures kept { result.kept ≡ founded founding.house founding.opening founding.based }
    ensures notes { result.notes ≡ founding.notes }
    ensures marks { result.marks ≡ [] }
{
    mail_is_kept();
    rows_make_valid_stores();
    steps_keep_validity();
    let Founding {
        house,
        opening,
        past,
        numbers,
        store,
        timeline,
        shelf,
        stamps,
        reports,
        deep,
    } = founding;
    drop(numbers);
    let next = past.next;
    Desk {
        base: Base::behind(house, opening, past),
        store,
        timeline,
        stamps,
        next,
        reports,
        shelf,
        since: 0,
        taken: 0,
        deep,
        undone: None,
    }
}
