//! Items, to be looked up by number.
ghost use Rattle.std.specs.Prelude.{◌≡◌, Some, IfOk, option_copied};
ghost use Rattle.withdraw.specs.Lookups.{LeadTo, item_at};
ghost use Rattle.withdraw.specs.Unediting.{as_shown, item_of, showing};

use std::alloc::Global;
use std::collections::BTreeMap;
use std::marker::Model;
use stored_items::StoredItem;
use undo_base::{Copies, NoMemory};
use verb_core::Shown;

/// Items in order, with their places by their numbers.
#[derive(Drop)]
pub(crate) struct ByNumber<'a> {
    items: &'a [StoredItem],
    places: BTreeMap<u32, usize>,
}

impl<'a> Model for ByNumber<'a> {
    ghost use Rattle.std.specs.Prelude.{List};
    ghost use Rattle.verb_core.specs.declared.item.Item.{Item};
    ghost use Rattle.withdraw.specs.Lookups.{LeadTo};

    ghost Value = { List Item };

    ghost view = { λ b. b.items.now };

    ghost invariant = { λ b. LeadTo b.items.now b.places };
}

/// The place of each number, of two the first: from the last item to the first.
fn places_of(alloc: Global, items: &[StoredItem]) -> Result<BTreeMap<u32, usize>, NoMemory>
    ensures { IfOk result (LeadTo items.now) }
{
    let mut places = BTreeMap::new(alloc);
    let mut place = items.len();
    while place > 0 {
        place -= 1;
        places.insert(items[place].item().number, place)?;
    }
    Ok(places)
}

/// The item at a place.
fn item(items: &[StoredItem], place: usize) -> Option<&StoredItem>
    ensures { option_copied result ≡ item_at items.now (Some place) }
{
    items.get(place)
}

/// A copy of an item that shows something else.
fn copy_showing(alloc: Global, item: &StoredItem, shown: &Shown) -> Result<StoredItem, NoMemory>
    ensures { IfOk result (λ copy. copy ≡ showing item.now (Some shown.now)) }
{
    let shown = shown.copy(alloc)?;
    let mut copy = item.copy(alloc)?;
    copy.show(shown);
    Ok(copy)
}

impl<'a> ByNumber<'a> {
    pub(crate) fn of(alloc: Global, items: &'a [StoredItem]) -> Result<ByNumber<'a>, NoMemory>
        ensures { IfOk result (λ numbered. numbered ≡ items.now) }
    {
        let places = places_of(alloc, items)?;
        Ok(ByNumber { items, places })
    }

    /// The item of a number.
    fn find(&self, number: u32) -> Option<&StoredItem>
        ensures { option_copied result ≡ item_of self.now number }
    {
        match self.places.get(&number) {
            Some(place) => item(self.items, *place),
            None => None,
        }
    }

    /// A copy of an item as it is shown among these.
    pub(crate) fn as_shown(&self, alloc: Global, item: &StoredItem) -> Result<StoredItem, NoMemory>
        ensures { IfOk result (λ copy. copy ≡ as_shown self.now item.now) }
    {
        match self.find(item.item().number) {
            Some(now) => copy_showing(alloc, item, &now.item().shown),
            None => item.copy(alloc),
        }
    }
}
