//! Items in order, found by their numbers.
//!
//! The numbers of the timeline are distinct and below the next one. After a cycle that brings acts in they do not rise, so the
//! item of a number is found by an index beside the timeline.
ghost use Rattle.std.specs.Prelude.{◌≡◌, ◌<◌, ◌≤◌, ℕ, [], ◌∷◌, ◌++◌, ◌+◌, ◌-◌, drop, filter, length, nat_lt, take, OnOk, option_copied, vec_len, vec_capacity};
ghost use Rattle.std.specs.List.{AllByRecursion};
ghost use Rattle.std.specs.List.Sorted.{IsNonDecreasingBy, IsPermutation};
ghost use Rattle.verb_core.specs.declared.item.Item.{Item as TheItem};
ghost use Rattle.verb_core.specs.Items.{NumbersApart};
ghost use Rattle.store_kept.specs.Founding.{has_number};
ghost use Rattle.mail_desk.specs.Places.{HasPlaces, IsPlaceAmong};
ghost use Rattle.mail_desk.specs.Timeline.{item_of};

use shelf::insert_within;
use std::alloc::Global;
use std::marker::Model;
use stored_items::{StoredItem, StoredItems};
use undo_base::NoMemory;

/// Items in order, and beside them each number with its place, by rising number.
#[derive(Drop)]
pub(crate) struct Numbered {
    items: Vec<StoredItem>,
    places: Vec<(u32, usize)>,
}

impl Model for Numbered {
    ghost use Rattle.std.specs.Prelude.{◌-◌, min, vec_len, vec_capacity};
    ghost use Rattle.mail_desk.specs.Places.{IsIndex, Placed};

    ghost Value = { Placed };

    ghost view = { λ n. record {
      items = n.items.items;
      room = min (vec_capacity n.items - vec_len n.items) (vec_capacity n.places - vec_len n.places);
    } };

    ghost invariant = { λ n. IsIndex n.places.items n.items.items };
}

/// The number of an item.
fn number_of(item: &StoredItem) -> u32
    ensures { result ≡ item.now.number }
{
    item.item().number
}

impl Numbered {
    /// No items, which takes no memory.
    pub(crate) fn new(alloc: Global) -> Numbered
        ensures { result.items ≡ [] }
    {
        Numbered {
            items: Vec::new(alloc),
            places: Vec::new(alloc),
        }
    }

    /// The items, with no memory taken.
    pub(crate) fn as_slice(&self) -> &[StoredItem]
        ensures { result.now ≡ self.now.items }
    {
        self.items.as_slice()
    }

    /// How many items there are: no more than there are numbers below the given one.
    pub(crate) fn len(&self, next: u32) -> usize
        requires apart { NumbersApart self.now.items }
        requires below { AllByRecursion (λ (i : TheItem). i.number < next) self.now.items }
        ensures value { result ≡ length self.now.items }
        ensures few { result ≤ next }
    {
        self.items.len()
    }

    /// The item of a number, found in about as many steps as the number of items has digits.
    pub(crate) fn find(&self, number: u32) -> Option<&StoredItem>
        requires { NumbersApart self.now.items }
        ensures { option_copied result ≡ item_of self.now.items number }
    {
        match self.places.binary_search_by_key(&number, |row| row.0) {
            Ok(at) => Some(&self.items[self.places[at].1]),
            Err(_) => None,
        }
    }

    /// The item of a number, if it is one of the first so many.
    pub(crate) fn find_before(&self, number: u32, count: usize) -> Option<&StoredItem>
        requires { NumbersApart self.now.items }
        ensures { option_copied result ≡ item_of (take count self.now.items) number }
    {
        match self.places.binary_search_by_key(&number, |row| row.0) {
            Ok(at) => {
                let place = self.places[at].1;
                if place < count {
                    return Some(&self.items[place]);
                }
                None
            }
            Err(_) => None,
        }
    }

    /// Makes room for so many items more.
    pub(crate) fn make_room_for(&mut self, count: usize) -> Result<(), NoMemory>
        ensures items { self.new.items ≡ self.old.items }
        ensures ok { OnOk result (count ≤ self.new.room) }
    {
        self.items.reserve(count)?;
        self.places.reserve(count)?;
        Ok(())
    }

    /// Keeps the first so many items, and puts others behind them, for which there is room, in any order of numbers. Those that stood
    /// behind a place, which is no less, are given away, in a list that has room for them. It takes no memory.
    pub(crate) fn go_on(
        &mut self,
        from: usize,
        behind: StoredItems,
        place: usize,
        later: Vec<StoredItem>,
    ) -> Vec<StoredItem>
        requires from { from ≤ place }
        requires place { place ≤ length self.old.items }
        requires room { length behind ≤ self.old.room }
        requires none { later.items ≡ [] }
        requires more { vec_len later + (length self.old.items - place) ≤ vec_capacity later }
        ensures items { self.new.items ≡ take from self.old.items ++ behind }
        ensures later { result.items ≡ drop place self.old.items }
    {
        let mut later = later;
        move_behind(&mut self.items, place, &mut later);
        keep_places(&mut self.places, from);
        self.items.truncate(from);
        place_all(&mut self.items, &mut self.places, behind);
        sort(&mut self.places);
        later
    }

    /// Whether there is an item of a number.
    #[tactic(auto, using(crate::proofs::Indexes::number_found))]
    pub(crate) fn has(&self, number: u32) -> bool
        requires { NumbersApart self.now.items }
        ensures { result ≡ has_number self.now.items number }
    {
        self.find(number).is_some()
    }

    /// Adds an item of whatever number behind the others, for which there is room. It takes no memory.
    pub(crate) fn put(&mut self, item: StoredItem)
        requires { 0 < self.old.room }
        ensures { self.new.items ≡ self.old.items ++ item ∷ [] }
    {
        let row = (number_of(&item), self.items.len());
        let place = place_of(self.places.as_slice(), row.0);
        insert_within(&mut self.places, place, row);
        self.items.push_reserved(item);
    }

    /// Adds an item of a higher number than all before it, for which there is room.
    pub(crate) fn push(&mut self, item: StoredItem)
        requires room { 0 < self.old.room }
        requires higher { AllByRecursion (λ (i : TheItem). i.number < item.number) self.old.items }
        ensures { self.new.items ≡ self.old.items ++ item ∷ [] }
    {
        let row = (number_of(&item), self.items.len());
        self.places.push_reserved(row);
        self.items.push_reserved(item);
    }
}

/// Where the row of a number comes in among rising ones.
fn place_of(places: &[(u32, usize)], number: u32) -> usize
    requires { IsNonDecreasingBy (λ (r : ℕ × ℕ). r.0) places.now }
    ensures { IsPlaceAmong number places.now result }
{
    match places.binary_search_by_key(&number, |row| row.0) {
        Ok(at) => at,
        Err(at) => at,
    }
}

/// Keeps the rows of the first so many places.
fn keep_places(places: &mut Vec<(u32, usize)>, from: usize)
    ensures items { places.new.items ≡ filter (λ (r : ℕ × ℕ). nat_lt r.1 from) places.old.items }
    ensures len { vec_len places.new ≤ vec_len places.old }
    ensures capacity { vec_capacity places.new ≡ vec_capacity places.old }
{
    places.retain(|row| row.1 < from);
}

/// Puts an item last, and its number with its place beside the others. There is room for both.
fn place_one(items: &mut Vec<StoredItem>, places: &mut Vec<(u32, usize)>, item: StoredItem)
    requires room { vec_len items.old < vec_capacity items.old }
    requires more { vec_len places.old < vec_capacity places.old }
    ensures items { items.new.items ≡ items.old.items ++ item ∷ [] }
    ensures len { vec_len items.new ≡ vec_len items.old + 1 }
    ensures capacity { vec_capacity items.new ≡ vec_capacity items.old }
    ensures places_len { vec_len places.new ≡ vec_len places.old + 1 }
    ensures places_capacity { vec_capacity places.new ≡ vec_capacity places.old }
    ensures places { HasPlaces places.old.items items.old.items (length items.old.items) → HasPlaces places.new.items items.new.items (length items.new.items) }
{
    let row = (number_of(&item), items.len());
    places.push_reserved(row);
    items.push_reserved(item);
}

/// Puts items last, one after the other, and their numbers beside the others. There is room for all.
fn place_all(items: &mut Vec<StoredItem>, places: &mut Vec<(u32, usize)>, more: StoredItems)
    requires room { vec_len items.old + length more ≤ vec_capacity items.old }
    requires rows { vec_len places.old + length more ≤ vec_capacity places.old }
    ensures items { items.new.items ≡ items.old.items ++ more }
    ensures places { HasPlaces places.old.items items.old.items (length items.old.items) → HasPlaces places.new.items items.new.items (length items.new.items) }
{
    for item in more.into_vec() {
        place_one(items, places, item);
    }
}

/// Moves the items behind a place behind others, where there is room for them.
pub(crate) fn move_behind<T: Drop>(items: &mut Vec<T>, place: usize, into: &mut Vec<T>)
    requires place { place ≤ length items.old.items }
    requires room { vec_len into.old + (length items.old.items - place) ≤ vec_capacity into.old }
    ensures items { items.new.items ≡ take place items.old.items }
    ensures capacity { vec_capacity items.new ≡ vec_capacity items.old }
    ensures into { into.new.items ≡ into.old.items ++ drop place items.old.items }
    ensures room { vec_capacity into.new ≡ vec_capacity into.old }
{
    for item in items.drain(place..) {
        into.push_reserved(item);
    }
}

/// Puts rows in the order of their numbers.
fn sort(places: &mut Vec<(u32, usize)>)
    ensures ordered { IsNonDecreasingBy (λ (r : ℕ × ℕ). r.0) places.new.items }
    ensures same { IsPermutation places.old.items places.new.items }
{
    places.sort_unstable_by_key(|row| row.0);
}
