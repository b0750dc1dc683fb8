//! What a cycle begins with.
ghost use Rattle.std.specs.Prelude.{◌≡◌, ℕ, ◌+◌, ◌≤◌, drop, map, length, take, IfOk, IfSome, IsTrue};
ghost use Rattle.std.specs.List.{AllByRecursion};
ghost use Rattle.verb_core.specs.declared.mailbox.BoxId.{BoxId as TheBoxId};
ghost use Rattle.verb_core.specs.declared.mailbox.Mailbox.{Mailbox as TheMailbox};
ghost use Rattle.verb_core.specs.Items.{IsWellFormed};
ghost use Rattle.verb_core.specs.Store.{IsValid, is_house};
ghost use Rattle.store_kept.specs.Kept.{store_of};
ghost use Rattle.repair_desk.specs.Renewals.{renewed};
ghost use Rattle.repair_desk.specs.Repairs.{edited_behind, position};
ghost use Rattle.mail_cycle.specs.Begun.{IsBegun};

use box_store::Store;
use paradox::Report;
use repair_desk::{EditedBehind, edit_behind, position_of, renew};
use std::alloc::Global;
use std::marker::Model;
use store_kept::Base;
use stored_items::StoredItem;
use undo_base::{END_OF_NUMBERS, LAST_NUMBER, Name, NoMemory};
use verb_bytes::CycleAsk;
use verb_core::{House, Stamps};

/// A store in use: what it began with, the store, the items in force, the stamp of each mailbox, the next
/// number, and the reports of earlier cycles. What is known of snapshots is none of its concerns: its value has none.
#[derive(Drop)]
pub struct Before<'a> {
    base: &'a Base,
    store: &'a Store,
    timeline: &'a [StoredItem],
    stamps: &'a Stamps,
    next: u32,
    reports: &'a [(Name, Report)],
}

impl<'a> Model for Before<'a> {
    ghost use Rattle.std.specs.Prelude.{None, false};
    ghost use Rattle.mail_cycle.specs.Begun.{IsBegun};
    ghost use Rattle.store_kept.specs.Kept.{Kept, kept_from, no_marks};

    ghost Value = { Kept };

    ghost view = { λ b. kept_from b.base.now b.store.now.store b.timeline.now b.stamps.now b.next b.reports.now no_marks false None };

    ghost invariant = { λ b. IsBegun (kept_from b.base.now b.store.now.store b.timeline.now b.stamps.now b.next b.reports.now no_marks false None) };
}

impl<'a> Before<'a> {
    ghost use Rattle.std.specs.Prelude.{None, false};
    ghost use Rattle.store_kept.specs.Kept.{kept_from, no_marks};

    /// A store in use.
    pub fn of(
        base: &'a Base,
        store: &'a Store,
        timeline: &'a [StoredItem],
        stamps: &'a Stamps,
        next: u32,
        reports: &'a [(Name, Report)],
    ) -> Before<'a>
        requires house { IsTrue (is_house base.now.house) }
        requires valid { IsValid store.now.store }
        requires formed { AllByRecursion (IsWellFormed base.now.house) timeline.now }
        requires named { map (λ (r : TheBoxId × ℕ). r.0) stamps.now ≡ map (λ (r : TheBoxId × TheMailbox). r.0) store.now.store.boxes }
        requires next { next ≤ END_OF_NUMBERS }
        ensures { result ≡ kept_from base.now store.now.store timeline.now stamps.now next reports.now no_marks false None }
    {
        Before {
            base,
            store,
            timeline,
            stamps,
            next,
            reports,
        }
    }

    /// What holds of each: this does nothing.
    pub(crate) fn stands(&self)
        ensures { IsBegun self.now }
    {
        let _ = &self.next;
    }

    pub(crate) fn house(&self) -> &House
        ensures house { result.now ≡ self.now.house }
        ensures is { IsTrue (is_house result.now) }
    {
        self.base.house()
    }

    pub(crate) fn next(&self) -> u32
        ensures next { result ≡ self.now.next }
        ensures fits { result ≤ END_OF_NUMBERS }
    {
        self.next
    }

    /// The place of a point.
    pub(crate) fn place_of(&self, point: u32) -> Option<usize>
        ensures place { result ≡ position self.now.timeline point }
        ensures within { IfSome result (λ place. place ≤ length self.now.timeline) }
    {
        position_of(self.timeline, point)
    }

    /// How many items stand through a place and the acts behind it.
    pub(crate) fn front_with(&self, place: usize, inserts: usize) -> usize
        requires place { place ≤ length self.now.timeline }
        requires few { inserts ≤ LAST_NUMBER }
        ensures { result ≡ place + inserts }
    {
        self.timeline.split_at(place).0.len() + inserts
    }

    /// The items through a place.
    pub(crate) fn through(&self, place: usize) -> &[StoredItem]
        requires { place ≤ length self.now.timeline }
        ensures { result.now ≡ take place self.now.timeline }
    {
        self.timeline.split_at(place).0
    }

    /// The items behind a place.
    pub(crate) fn later(&self, place: usize) -> &[StoredItem]
        requires { place ≤ length self.now.timeline }
        ensures { result.now ≡ drop place self.now.timeline }
    {
        self.timeline.split_at(place).1
    }

    /// The store before the first item.
    pub(crate) fn opened(&self, alloc: Global) -> Result<Store, NoMemory>
        ensures store { IfOk result (λ store. store.store ≡ self.now.base) }
        ensures valid { IfOk result (λ store. IsValid store.store) }
        ensures house { IfOk result (λ store. store.store.house ≡ self.now.house) }
    {
        self.base.store(alloc)
    }

    /// The timeline after the repairs that are asked for, behind the first so many items, of which no copy is made.
    pub(crate) fn repaired(
        &self,
        alloc: Global,
        ask: &CycleAsk,
        at: u64,
        from: usize,
        place: usize,
    ) -> Result<EditedBehind, NoMemory>
        requires from { from ≤ place }
        requires place { place ≤ length self.now.timeline }
        requires numbers { self.now.next + length ask.now.inserts ≤ LAST_NUMBER }
        ensures { IfOk result (λ edited. edited ≡ edited_behind self.now.timeline ask.now self.now.next at from place) }
    {
        edit_behind(alloc, self.timeline, ask, self.next, at, from, place)
    }

    /// The stamps of the mailboxes that a store has afterwards.
    pub(crate) fn renewed(&self, alloc: Global, after: &Store) -> Result<Stamps, NoMemory>
        ensures { IfOk result (λ stamps. stamps ≡ renewed (store_of self.now).boxes after.now.store.boxes self.now.stamps self.now.next) }
    {
        renew(alloc, self.store, after, self.stamps, self.next)
    }
}
