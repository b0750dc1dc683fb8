//! Spare lists of entries, which make sure that mail is put without memory.
ghost use Rattle.std.specs.Prelude.{◌≡◌, ◌+◌, ◌*◌, ◌^◌, ◌<◌, ◌≤◌, [], length, take, drop, slice_index, OnOk, vec_capacity};

use std::alloc::Global;
use std::marker::Model;
use std::mem;
use undo_base::NoMemory;
use verb_core::Entry;

/// Empty lists of entries, seen as the room that each has. Where the list of a mailbox has no room left for new mail, its
/// entries move into a spare one.
#[derive(Drop)]
pub struct Spares {
    lists: Vec<Vec<Entry>>,
}

impl Model for Spares {
    ghost use Rattle.std.specs.Prelude.{◌≡◌, ℕ, List, [], map, vec_capacity};
    ghost use Rattle.std.specs.List.{AllByRecursion};

    ghost Value = { List ℕ };

    ghost view = { λ s. map (λ list. vec_capacity list) s.lists.items };

    ghost invariant = { λ s. AllByRecursion (λ list. list.items ≡ []) s.lists.items };
}

impl Spares {
    /// No spare list.
    pub(crate) fn new(alloc: Global) -> Spares
        ensures { result ≡ [] }
    {
        Spares {
            lists: Vec::new(alloc),
        }
    }

    /// Takes the list at a place, and leaves one with no room there.
    pub(crate) fn lend(&mut self, alloc: Global, place: usize) -> Vec<Entry>
        requires { place < length self.old }
        ensures empty { result.items ≡ [] }
        ensures room { vec_capacity result ≡ slice_index self.old place }
        ensures later { drop (place + 1) self.new ≡ drop (place + 1) self.old }
        ensures len { length self.new ≡ length self.old }
    {
        mem::replace(&mut self.lists[place], Vec::new(alloc))
    }

    /// Puts an empty list at a place.
    pub(crate) fn give_back(&mut self, place: usize, list: Vec<Entry>)
        requires place { place < length self.old }
        requires empty { list.items ≡ [] }
        ensures later { drop (place + 1) self.new ≡ drop (place + 1) self.old }
        ensures len { length self.new ≡ length self.old }
    {
        self.lists[place] = list;
    }

    /// Makes sure that there is a list at a place.
    fn make_place(&mut self, alloc: Global, place: usize) -> Result<(), NoMemory>
        requires { place ≤ length self.old }
        ensures there { OnOk result (place < length self.new) }
        ensures earlier { OnOk result (take place self.new ≡ take place self.old) }
    {
        if place == self.lists.len() {
            self.lists.push(Vec::new(alloc))?;
        }
        Ok(())
    }

    /// Makes the list at a place twice as large as it must be, if it is too small.
    fn make_larger(&mut self, alloc: Global, place: usize, count: usize) -> Result<(), NoMemory>
        requires place { place < length self.old }
        requires small { count < 2 ^ 60 }
        ensures there { OnOk result (place < length self.new) }
        ensures room { OnOk result (count ≤ slice_index self.new place) }
        ensures earlier { OnOk result (take place self.new ≡ take place self.old) }
    {
        if self.lists[place].capacity() < count {
            self.lists[place] = Vec::with_capacity(alloc, 2 * count)?;
        }
        Ok(())
    }

    /// Makes sure that there is a list at a place, with room for so many entries.
    pub(crate) fn make_room(
        &mut self,
        alloc: Global,
        place: usize,
        count: usize,
    ) -> Result<(), NoMemory>
        requires place { place ≤ length self.old }
        requires small { count < 2 ^ 60 }
        ensures there { OnOk result (place < length self.new) }
        ensures room { OnOk result (count ≤ slice_index self.new place) }
        ensures earlier { OnOk result (take place self.new ≡ take place self.old) }
    {
        self.make_place(alloc, place)?;
        self.make_larger(alloc, place, count)
    }
}
