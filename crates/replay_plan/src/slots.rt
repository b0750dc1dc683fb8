//! What is kept of the earlier items: for each part of each place the last level.
//!
//! Of the earlier items the plan keeps the last level of each part of each place that they touch, once of all and once of those
//! that write. The parts are anything at all, the whole, the end, the end by the item of a number, messages of the item of a
//! number, and one message. It keeps the same of each user (anything, and all of it, which a RENAME touches), and which levels
//! are taken at each place. An item looks at the parts that it must come behind and at the levels taken, at nothing else.
//! `may_have` over all earlier items stays the definition.
ghost use Rattle.std.specs.Prelude.{◌≡◌, ◌||◌, ◌&&◌, not, max, OnOk, if◌then◌else◌};
ghost use Rattle.std.specs.Hash as fed;
ghost use Rattle.std.specs.Cmp.Lexicographic.{bytes_decides};
ghost use Rattle.std.proofs.Common.{ap};
ghost use Rattle.replay_plan.specs.Slots.{spot_of, same_spot, is_of, side, level_at};

use std::alloc::Global;
use std::collections::HashMap;
use std::hash::{Hash, Hasher};
use std::marker::Model;
use undo_base::NoMemory;

/// What of a place, or of all places of a user, is touched, or a level that items of the place have.
#[derive(Clone, Copy, PartialEq, Eq, Hash)]
pub(crate) enum Part {
    /// Anything of the user.
    Anywhere,
    /// All of the user.
    Everywhere,
    /// Anything of the place.
    Anything,
    /// The whole mailbox.
    Whole,
    /// Its end.
    Tails,
    /// Its end, by the item of a number.
    TailOf(u32),
    /// Messages of the item of a number.
    KeysOf(u32),
    /// One message, by the number of its item and which of that item's messages it is.
    At(u32, u16),
    Level(u32),
}

/// The name of a mailbox, where a touch has it. It is fed to a hasher at once, not byte by byte.
#[derive(Clone, Copy, PartialEq, Eq)]
pub(crate) struct Spelled<'a>(pub(crate) &'a [u8]);

impl<'a> Hash for Spelled<'a> {
    ghost hash_input = { λ name. fed.str name.0.now };

    ghost respects_eq = { λ a b same. ap fed.str ((bytes_decides a.0.now b.0.now).0 same) };

    fn hash<H: Hasher>(&self, state: &mut H) {
        state.write(self.0);
        state.write_u8(255);
    }
}

/// A part of a place. The mailbox's name is the touch's own, so none is copied.
#[derive(Clone, Copy, PartialEq, Eq, Hash)]
pub(crate) struct Slot<'a> {
    /// None is where the user's mailboxes are named, and for what is of all places of the user.
    pub(crate) mailbox: Option<Spelled<'a>>,
    pub(crate) part: Part,
    pub(crate) user: u8,
}

/// A level of a part of a place, and one where only those that write it count.
#[derive(Clone, Copy)]
pub(crate) struct Sides {
    pub(crate) of_all: u32,
    pub(crate) of_writers: u32,
}

pub(crate) fn higher(a: u32, b: u32) -> u32
    ensures { result ≡ max a b }
{
    if a < b { b } else { a }
}

impl Sides {
    fn on(self, written: bool) -> u32
        ensures { result ≡ side written self }
    {
        if written {
            self.of_writers
        } else {
            self.of_all
        }
    }

    /// With a level on one side.
    fn with_one(self, written: bool, level: u32) -> Sides
        ensures all { result.of_all ≡ (if written then self.of_all else level) }
        ensures writers { result.of_writers ≡ (if written then level else self.of_writers) }
    {
        Sides {
            of_all: if written { self.of_all } else { level },
            of_writers: if written { level } else { self.of_writers },
        }
    }

    /// With a level of all, and of those that write where this one does, unless a higher one is there.
    fn raised(self, writes: bool, level: u32) -> Sides
        ensures all { result.of_all ≡ max self.of_all level }
        ensures writers { result.of_writers ≡ max self.of_writers (if writes then level else 0) }
    {
        let written = if writes { level } else { 0 };
        Sides {
            of_all: higher(self.of_all, level),
            of_writers: higher(self.of_writers, written),
        }
    }
}

/// Levels for each slot, and 0 where there are none. It lies in a few long pieces of memory, which go back whole.
#[derive(Drop)]
pub(crate) struct Table<'a> {
    levels: HashMap<Slot<'a>, Sides>,
}

impl<'a> Model for Table<'a> {
    ghost use Rattle.std.specs.Prelude.{List};
    ghost use Rattle.replay_plan.specs.declared.slots.Slot.{Slot};
    ghost use Rattle.replay_plan.specs.declared.slots.Sides.{Sides};

    ghost Value = { List (Slot × Sides) };

    ghost view = { λ t. t.levels.entries };
}

impl<'a> Table<'a> {
    pub(crate) fn new(alloc: Global) -> Table<'a>
        ensures { (spot : _) → level_at result spot ≡ 0 }
    {
        Table {
            levels: HashMap::new(alloc),
        }
    }

    fn sides_at(&self, slot: &Slot<'a>) -> Sides
        ensures { (w : _) → side w result ≡ level_at self.now (spot_of slot.now w) }
    {
        match self.levels.get(slot) {
            Some(sides) => *sides,
            None => Sides {
                of_all: 0,
                of_writers: 0,
            },
        }
    }

    fn put(&mut self, slot: Slot<'a>, sides: Sides) -> Result<(), NoMemory>
        ensures { OnOk result ((spot : _) → level_at self.new spot ≡ (if is_of spot slot.entry then side spot.written sides else level_at self.old spot)) }
    {
        self.levels.insert(slot, sides)?;
        Ok(())
    }

    /// The level at a slot.
    pub(crate) fn get(&self, slot: &Slot<'a>, written: bool) -> u32
        ensures { result ≡ level_at self.now (spot_of slot.now written) }
    {
        self.sides_at(slot).on(written)
    }

    /// With a level at a slot, on one side.
    pub(crate) fn set(&mut self, slot: Slot<'a>, written: bool, level: u32) -> Result<(), NoMemory>
        ensures { OnOk result ((spot : _) → level_at self.new spot ≡ (if same_spot spot (spot_of slot.entry written) then level else level_at self.old spot)) }
    {
        let sides = self.sides_at(&slot);
        self.put(slot, sides.with_one(written, level))?;
        Ok(())
    }

    /// With a level at a slot, where one that writes counts on both sides, unless a higher one is there.
    pub(crate) fn raise(&mut self, slot: Slot<'a>, writes: bool, level: u32) -> Result<(), NoMemory>
        ensures { OnOk result ((spot : _) → level_at self.new spot ≡ max (if (not spot.written || writes) && is_of spot slot.entry then level else 0) (level_at self.old spot)) }
    {
        let sides = self.sides_at(&slot);
        self.put(slot, sides.raised(writes, level))?;
        Ok(())
    }
}
