//! What is asked of a cycle, to be looked up by number.
ghost use Rattle.std.specs.Prelude.{◌≡◌, IfOk, Some, option_copied};
ghost use Rattle.repair_desk.specs.Lookups.{LeadTo, text_at as at_place};
ghost use Rattle.repair_desk.specs.Repairs.{is_dropped, is_replaced, text_asked};

use crate::items::takes_text;
use crate::numbers::NumberSet;
use std::alloc::Global;
use std::collections::BTreeMap;
use std::marker::Model;
use stored_items::StoredItem;
use undo_base::{NoMemory, Text};
use verb_bytes::CycleAsk;

/// An ask, with its numbers sorted.
#[derive(Drop)]
pub(crate) struct Asked<'a> {
    ask: &'a CycleAsk,
    drops: NumberSet,
    places: BTreeMap<u32, usize>,
}

impl<'a> Model for Asked<'a> {
    ghost use Rattle.verb_bytes.specs.declared.journal.CycleAsk.{CycleAsk};
    ghost use Rattle.repair_desk.specs.Lookups.{IsLookup};

    ghost Value = { CycleAsk };

    ghost view = { λ a. a.ask.now };

    ghost invariant = { λ a. IsLookup a.ask.now a.drops a.places };
}

/// The places of the last text of each number.
fn last_places(alloc: Global, replaces: &[(u32, Text)]) -> Result<BTreeMap<u32, usize>, NoMemory>
    ensures { IfOk result (LeadTo replaces.now) }
{
    let mut places = BTreeMap::new(alloc);
    for (place, replace) in replaces.iter().enumerate() {
        places.insert(replace.0, place)?;
    }
    Ok(places)
}

impl<'a> Asked<'a> {
    pub(crate) fn of(alloc: Global, ask: &'a CycleAsk) -> Result<Asked<'a>, NoMemory>
        ensures { IfOk result (λ asked. asked ≡ ask.now) }
    {
        let drops = NumberSet::of(alloc, ask.drops.as_slice())?;
        let places = last_places(alloc, ask.replaces.as_slice())?;
        Ok(Asked { ask, drops, places })
    }

    /// Whether an item is to go.
    pub(crate) fn drops(&self, item: &StoredItem) -> bool
        ensures { result ≡ is_dropped self.now item.now }
    {
        self.drops.contains(item.item().number)
    }

    /// The text that is asked for an item.
    pub(crate) fn text(&self, item: &StoredItem) -> Option<&Text>
        ensures { option_copied result ≡ text_asked self.now.replaces item.now.number }
    {
        match self.places.get(&item.item().number) {
            Some(place) => text_at(self.ask.replaces.as_slice(), *place),
            None => None,
        }
    }

    /// Whether an item stays with another text.
    pub(crate) fn replaces(&self, item: &StoredItem) -> bool
        ensures { result ≡ is_replaced self.now item.now }
    {
        !self.drops(item) && takes_text(item) && self.text(item).is_some()
    }
}

/// The text at a place.
fn text_at(replaces: &[(u32, Text)], place: usize) -> Option<&Text>
    ensures { option_copied result ≡ at_place replaces.now (Some place) }
{
    match replaces.get(place) {
        Some(replace) => Some(&replace.1),
        None => None,
    }
}
