//! The texts that a request for a cycle asks for, to be looked up by number.
ghost use Rattle.std.specs.Prelude.{◌≡◌, IfOk, Some, option_copied};
ghost use Rattle.repair_desk.specs.Lookups.{LeadTo, text_at as at_place};
ghost use Rattle.repair_desk.specs.Repairs.{text_asked};

use std::alloc::Global;
use std::collections::BTreeMap;
use std::marker::Model;
use undo_base::{NoMemory, Text};

/// The texts that a request asks for, found by number in time that grows as the logarithm of how many there are.
#[derive(Drop)]
pub struct NewTexts<'a> {
    replaces: &'a [(u32, Text)],
    places: BTreeMap<u32, usize>,
}

impl<'a> Model for NewTexts<'a> {
    ghost use Rattle.std.specs.Prelude.{List, ℕ};
    ghost use Rattle.repair_desk.specs.Lookups.{LeadTo};

    ghost Value = { List (ℕ × List ℕ) };

    ghost view = { λ t. t.replaces.now };

    ghost invariant = { λ t. LeadTo t.replaces.now t.places };
}

/// The places of the last text of each number.
fn last_places(alloc: Global, replaces: &[(u32, Text)]) -> Result<BTreeMap<u32, usize>, NoMemory>
    ensures { IfOk result (LeadTo replaces.now) }
{
    let mut places = BTreeMap::new(alloc);
    for (place, replace) in replaces.iter().enumerate() {
        places.insert(replace.0, place)?;
    }
    Ok(places)
}

/// The text at a place.
fn text_at(replaces: &[(u32, Text)], place: usize) -> Option<&Text>
    ensures { option_copied result ≡ at_place replaces.now (Some place) }
{
    match replaces.get(place) {
        Some(replace) => Some(&replace.1),
        None => None,
    }
}

impl<'a> NewTexts<'a> {
    /// The texts of a request.
    pub fn of(alloc: Global, replaces: &'a [(u32, Text)]) -> Result<NewTexts<'a>, NoMemory>
        ensures { IfOk result (λ texts. texts ≡ replaces.now) }
    {
        let places = last_places(alloc, replaces)?;
        Ok(NewTexts { replaces, places })
    }

    /// The text that is asked for a number: of two the last. It takes no memory.
    pub fn text(&self, number: u32) -> Option<&Text>
        ensures { option_copied result ≡ text_asked self.now number }
    {
        match self.places.get(&number) {
            Some(place) => text_at(self.replaces, *place),
            None => None,
        }
    }
}
