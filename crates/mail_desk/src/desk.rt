//! The desk, and what it tells of itself.
//!
//! Each body that an entry of the store names has a text in the timeline or with the base: this is part of what every desk keeps,
//! and `stands` tells it.
//!
//! `Desk::stands` says of a desk that it is sound where its store is what its items leave. That UIDs last over an ask, an act and
//! a snapshot needs no such premise.
ghost use Rattle.std.specs.Prelude.{◌≡◌, ℕ, ◌<◌, ◌≤◌, ◌-◌, [], ◌++◌, map, option_copied, IsTrue, IfOk, OnOk};
ghost use Rattle.std.specs.List.{AllByRecursion, list_all};
ghost use Rattle.verb_core.specs.declared.item.Item.{Item as TheItem};
ghost use Rattle.verb_core.specs.declared.mailbox.BoxId.{BoxId as TheBoxId};
ghost use Rattle.verb_core.specs.declared.mailbox.Mailbox.{Mailbox as TheMailbox};
ghost use Rattle.verb_core.specs.Boxes.{box_of, row_at};
ghost use Rattle.seal_log.specs.declared.place.Place.{Place as ThePlace};
ghost use Rattle.verb_core.specs.Items.{IsTimeline};
ghost use Rattle.store_kept.specs.Coming.{HasUndone};
ghost use Rattle.store_kept.specs.Kept.{is_by_key, new_desk, opening_origin, origin_of, report_of as report_in, store_of, undone_of, upgraded};
ghost use Rattle.store_kept.specs.Bases.{HasBase};
ghost use Rattle.store_kept.specs.Texts.{all_bodies, has_text_kept, items_asked};
ghost use Rattle.verb_core.specs.Stamps.{opening_stamps};
ghost use Rattle.verb_core.specs.Store.{IsValid, is_house, is_known};
ghost use Rattle.mail_desk.specs.Timeline.{SizesOf, has_sizes};

use crate::numbered::Numbered;
use crate::stamps::{find_stamp, push_stamp};
use box_store::Store;
use paradox::Report;
use shelf::Shelf;
use std::alloc::Global;
use std::marker::Model;
use store_kept::{Base, report_of};
use undo_base::{END_OF_NUMBERS, Name, NoMemory, User};
use verb_core::laws::stamps_name_mailboxes;
use verb_core::{BoxId, Conf, House, Mailbox, Stamps};
use withdraw::UndoneBehind;

/// What it begins with, the store, the items in force in order, the stamp of each mailbox, the next number, and each cycle's
/// report by the key of its request. Where each text and each snapshot lies, how many items entered since the last snapshot, and
/// how many snapshots there are. And whether names may have superiors, and what the last cycle left to be withdrawn.
#[derive(Drop)]
pub struct Desk {
    pub(crate) base: Base,
    pub(crate) store: Store,
    pub(crate) timeline: Numbered,
    pub(crate) stamps: Stamps,
    pub(crate) next: u32,
    pub(crate) reports: Vec<(Name, Report)>,
    pub(crate) shelf: Shelf,
    pub(crate) since: u32,
    pub(crate) taken: u64,
    pub(crate) deep: bool,
    pub(crate) undone: Option<UndoneBehind>,
}

impl Model for Desk {
    ghost use Rattle.std.specs.Prelude.{◌-◌, ◌++◌, vec_len, vec_capacity};
    ghost use Rattle.mail_desk.specs.Desk.{IsDesk};
    ghost use Rattle.mail_desk.specs.Held.{Held, marks_kept};
    ghost use Rattle.mail_desk.specs.Timeline.{SizesOf};
    ghost use Rattle.store_kept.specs.Kept.{kept_from};
    ghost use Rattle.store_kept.specs.Texts.{items_behind};

    ghost Value = { Held };

    ghost view = { λ d. record {
      kept = kept_from d.base d.store.store d.timeline.items d.stamps d.next d.reports.items (marks_kept d.since d.taken d.shelf.marks) d.deep d.undone;
      notes = d.shelf.notes;
      marks = d.shelf.marks;
      room = record {
        store = d.store;
        items = d.timeline.room;
        notes = d.shelf.room;
        reports = vec_capacity d.reports - vec_len d.reports;
        marks = d.shelf.keeps;
      };
    } };

    ghost invariant = { λ d. record {
      desk : IsDesk (kept_from d.base d.store.store d.timeline.items d.stamps d.next d.reports.items (marks_kept d.since d.taken d.shelf.marks) d.deep d.undone);
      sizes : SizesOf d.shelf.notes d.base.texts (d.timeline.items ++ items_behind d.undone);
    } };
}

/// Adds the stamp of each mailbox at first: the number before the first.
fn push_first(
    alloc: Global,
    stamps: &mut Stamps,
    rows: &[(BoxId, Mailbox)],
    first: u32,
) -> Result<(), NoMemory>
    requires { 1 ≤ first }
    ensures { OnOk result (stamps.new ≡ stamps.old ++ map (λ (r : TheBoxId × TheMailbox). (r.0, first - 1)) rows.now) }
{
    for row in rows {
        push_stamp(alloc, stamps, row.0.user, &row.0.name, first - 1)?;
    }
    Ok(())
}

/// The stamp of each mailbox at first.
fn first_stamps(alloc: Global, rows: &[(BoxId, Mailbox)], first: u32) -> Result<Stamps, NoMemory>
    requires { 1 ≤ first }
    ensures { IfOk result (λ stamps. stamps ≡ map (λ (r : TheBoxId × TheMailbox). (r.0, first - 1)) rows.now) }
{
    let mut stamps = Stamps::new(alloc);
    match push_first(alloc, &mut stamps, rows, first) {
        Ok(()) => Ok(stamps),
        Err(NoMemory) => Err(NoMemory),
    }
}

/// The stamp of each mailbox of a store at first.
fn stamps_at_first(alloc: Global, store: &Store, first: u32) -> Result<Stamps, NoMemory>
    requires { 1 ≤ first }
    ensures { IfOk result (λ stamps. stamps ≡ map (λ (r : TheBoxId × TheMailbox). (r.0, first - 1)) store.now.store.boxes) }
{
    match store.rows(alloc) {
        Ok(rows) => first_stamps(alloc, rows.as_slice(), first),
        Err(NoMemory) => Err(NoMemory),
    }
}

/// A desk of a store and stamps on which nothing was done yet.
fn begun(alloc: Global, base: Base, store: Store, stamps: Stamps) -> Desk
    requires house { IsTrue (is_house base.house) }
    requires base { base ≡ opening_origin base.house base.opening }
    requires store { store.store ≡ base.base }
    requires valid { IsValid store.store }
    requires stamps { stamps ≡ opening_stamps store.store }
    requires aliases { IsTrue (list_all (λ a. list_all (is_known base.house) a.users) base.opening.aliases) }
    requires filters { base.opening.filters ≡ [] }
    ensures kept { result.kept ≡ new_desk base.house base.opening }
    ensures notes { result.notes ≡ [] }
    ensures marks { result.marks ≡ [] }
{
    stamps_name_mailboxes();
    let next = base.house().first;
    Desk {
        base,
        store,
        timeline: Numbered::new(alloc),
        stamps,
        next,
        reports: Vec::new(alloc),
        shelf: Shelf::new(alloc),
        since: 0,
        taken: 0,
        deep: false,
        undone: None,
    }
}

/// A desk of a store on which nothing was done yet.
fn begun_over(alloc: Global, base: Base, store: Store) -> Result<Desk, NoMemory>
    requires house { IsTrue (is_house base.house) }
    requires base { base ≡ opening_origin base.house base.opening }
    requires store { store.store ≡ base.base }
    requires valid { IsValid store.store }
    requires aliases { IsTrue (list_all (λ a. list_all (is_known base.house) a.users) base.opening.aliases) }
    requires filters { base.opening.filters ≡ [] }
    ensures kept { IfOk result (λ desk. desk.kept ≡ new_desk base.house base.opening) }
    ensures notes { IfOk result (λ desk. desk.notes ≡ []) }
    ensures marks { IfOk result (λ desk. desk.marks ≡ []) }
{
    match stamps_at_first(alloc, &store, base.house().first) {
        Ok(stamps) => Ok(begun(alloc, base, store, stamps)),
        Err(NoMemory) => {
            drop(base);
            drop(store);
            Err(NoMemory)
        }
    }
}

impl Desk {
    /// A desk on which nothing was done yet.
    pub fn new(alloc: Global, house: House, conf: Conf) -> Result<Desk, NoMemory>
        requires house { IsTrue (is_house house) }
        requires aliases { IsTrue (list_all (λ a. list_all (is_known house) a.users) conf.aliases) }
        requires filters { conf.filters ≡ [] }
        ensures kept { IfOk result (λ desk. desk.kept ≡ new_desk house conf) }
        ensures notes { IfOk result (λ desk. desk.notes ≡ []) }
        ensures marks { IfOk result (λ desk. desk.marks ≡ []) }
    {
        let base = Base::new(house, conf);
        match base.store(alloc) {
            Ok(store) => begun_over(alloc, base, store),
            Err(NoMemory) => {
                drop(base);
                Err(NoMemory)
            }
        }
    }

    /// What it begins with.
    pub fn base(&self) -> &Base
        ensures { result.now ≡ origin_of self.now.kept }
    {
        &self.base
    }

    /// What its configuration says for good.
    pub fn house(&self) -> &House
        ensures value { result.now ≡ self.now.kept.house }
        ensures sound { IsTrue (is_house result.now) }
    {
        self.base.house()
    }

    /// The configuration at first.
    pub fn opening(&self) -> &Conf
        ensures { result.now ≡ self.now.kept.opening }
    {
        self.base.opening()
    }

    /// The configuration in force.
    pub fn conf(&self) -> &Conf
        ensures { result.now ≡ (store_of self.now.kept).conf }
    {
        self.store.conf()
    }

    /// The store that is there.
    pub fn store(&self) -> &Store
        ensures value { result.now.store ≡ store_of self.now.kept }
        ensures valid { IsValid result.now.store }
        ensures house { result.now.store.house ≡ self.now.kept.house }
    {
        &self.store
    }

    /// The stamp of each mailbox, by rising user and name.
    pub fn stamps(&self) -> &Stamps
        ensures value { result.now ≡ self.now.kept.stamps }
        ensures named { map (λ (r : TheBoxId × ℕ). r.0) result.now ≡ map (λ (r : TheBoxId × TheMailbox). r.0) (store_of self.now.kept).boxes }
    {
        &self.stamps
    }

    /// The stamp of the mailbox of that user and name, where it is there, found by halves. It takes no memory.
    pub fn stamp(&self, user: User, name: &Name) -> Option<u32>
        ensures { result ≡ row_at (box_of user name.now) self.now.kept.stamps }
    {
        find_stamp(self.stamps.as_slice(), user, name)
    }

    /// Where the text of each body lies that has one or can come back, and its size.
    pub fn shelf(&self) -> &Shelf
        ensures notes { result.now.notes ≡ self.now.notes }
        ensures sizes { SizesOf result.now.notes self.now.kept.texts (items_asked self.now.kept) }
        ensures known { IsTrue (has_sizes result.now.notes (store_of self.now.kept).boxes) }
    {
        &self.shelf
    }

    /// The number that the next item gets.
    pub fn next(&self) -> u32
        ensures { result ≡ self.now.kept.next }
    {
        self.next
    }

    /// Each cycle's report by the key of its request, by rising key. It takes no memory.
    pub fn reports(&self) -> &[(Name, Report)]
        ensures { result.now ≡ self.now.kept.reports }
    {
        self.reports.as_slice()
    }

    /// The report of the cycle that was asked for under a key, found by halves. It takes no memory.
    pub fn report(&self, key: &Name) -> Option<&Report>
        ensures { option_copied result ≡ report_in self.now.kept.reports key.now }
    {
        report_of(self.reports.as_slice(), key)
    }

    /// What the last cycle left to be withdrawn, where the cycle has this number. It takes no memory.
    pub fn undone(&self, cycle: u32) -> Option<&UndoneBehind>
        ensures { option_copied result ≡ undone_of self.now.kept cycle }
    {
        match &self.undone {
            Some(last) if last.cycle == cycle => Some(last),
            Some(_) => None,
            None => None,
        }
    }

    /// Whether names may have superiors. It takes no memory.
    pub fn deep(&self) -> bool
        ensures { result ≡ self.now.kept.deep }
    {
        self.deep
    }

    /// From now on names may have superiors. It takes no memory.
    pub fn upgrade(&mut self)
        ensures kept { self.new.kept ≡ upgraded self.old.kept }
        ensures notes { self.new.notes ≡ self.old.notes }
        ensures marks { self.new.marks ≡ self.old.marks }
    {
        self.deep = true;
    }

    /// What holds of each desk: this does nothing.
    pub fn stands(&self)
        ensures house { IsTrue (is_house self.now.kept.house) }
        ensures base { HasBase self.now.kept }
        ensures aliases { IsTrue (list_all (λ a. list_all (is_known self.now.kept.house) a.users) self.now.kept.opening.aliases) }
        ensures filters { self.now.kept.opening.filters ≡ [] }
        ensures valid { IsValid (store_of self.now.kept) }
        ensures house_stays { (store_of self.now.kept).house ≡ self.now.kept.house }
        ensures timeline { IsTimeline self.now.kept.house self.now.kept.timeline }
        ensures below { AllByRecursion (λ (i : TheItem). i.number < self.now.kept.next) self.now.kept.timeline }
        ensures named { map (λ (r : TheBoxId × ℕ). r.0) self.now.kept.stamps ≡ map (λ (r : TheBoxId × TheMailbox). r.0) (store_of self.now.kept).boxes }
        ensures fresh { AllByRecursion (λ (r : TheBoxId × ℕ). r.1 < self.now.kept.next) self.now.kept.stamps }
        ensures next { self.now.kept.next ≤ END_OF_NUMBERS }
        ensures reports { IsTrue (is_by_key self.now.kept.reports) }
        ensures texts { IsTrue (all_bodies (has_text_kept self.now.kept) (store_of self.now.kept).boxes) }
        ensures sizes { SizesOf self.now.notes self.now.kept.texts (items_asked self.now.kept) }
        ensures since { self.now.kept.marks.since ≤ self.now.kept.next }
        ensures undone { HasUndone self.now.kept }
        ensures places { self.now.kept.marks.places ≡ map (λ (m : ℕ × ThePlace). m.0) self.now.marks }
    {
        let _shelf = &self.shelf;
    }
}
