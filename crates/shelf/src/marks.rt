//! Where snapshots lie, by their positions.
ghost use Rattle.std.specs.Prelude.{◌≡◌, ◌≤◌, ◌<◌, ◌+◌, ◌==◌, ◌++◌, ◌∷◌, OnOk, drop, filter, length, map, nat_le, nat_lt, not, take, vec_capacity, vec_len};
ghost use Rattle.shelf.specs.Marks as spec;
ghost use Rattle.shelf.specs.Marks.{MarksRise, newest, with_mark};

use crate::{Shelf, insert_within};
use seal_log::Place;
use undo_base::NoMemory;

/// How many snapshots are not behind a position.
fn count_to(marks: &[(u32, Place)], position: u32) -> usize
    requires { MarksRise marks.now }
    ensures bound { result ≤ length marks.now }
    ensures front { take result marks.now ≡ spec.marks_at_or_before position marks.now }
{
    marks.partition_point(|mark| mark.0 <= position)
}

/// How many snapshots are before a position.
fn count_before(marks: &[(u32, Place)], position: u32) -> usize
    requires { MarksRise marks.now }
    ensures bound { result ≤ length marks.now }
    ensures front { take result marks.now ≡ filter (λ m. nat_lt m.0 position) marks.now }
    ensures rest { drop result marks.now ≡ filter (λ m. not (nat_lt m.0 position)) marks.now }
{
    marks.partition_point(|mark| mark.0 < position)
}

/// Takes out the snapshot of a position.
fn drop_mark(marks: &mut Vec<(u32, Place)>, position: u32)
    ensures items { marks.new.items ≡ filter (λ m. not (m.0 == position)) marks.old.items }
    ensures len { vec_len marks.new ≤ vec_len marks.old }
    ensures capacity { vec_capacity marks.new ≡ vec_capacity marks.old }
{
    marks.retain(|mark| mark.0 != position);
}

/// Puts the snapshot of a position in its place, where there is room for one.
fn put_mark(marks: &mut Vec<(u32, Place)>, position: u32, place: Place)
    requires rising { MarksRise marks.old.items }
    requires room { vec_len marks.old < vec_capacity marks.old }
    ensures items { marks.new.items ≡ with_mark position place marks.old.items }
    ensures len { vec_len marks.new ≤ vec_len marks.old + 1 }
    ensures capacity { vec_capacity marks.new ≡ vec_capacity marks.old }
{
    drop_mark(marks, position);
    let at = count_before(marks.as_slice(), position);
    insert_within(marks, at, (position, place));
}

impl Shelf {
    /// Makes room for one snapshot more.
    pub fn keep_room(&mut self) -> Result<(), NoMemory>
        ensures ok { OnOk result (0 < self.new.keeps) }
        ensures keeps { self.old.keeps ≤ self.new.keeps }
        ensures marks { self.new.marks ≡ self.old.marks }
        ensures notes { self.new.notes ≡ self.old.notes }
        ensures room { self.new.room ≡ self.old.room }
    {
        self.marks.reserve(1)?;
        Ok(())
    }

    /// Keeps where the snapshot of a position lies, in place of one that was kept for it. It takes no memory, and uses
    /// room for one at most.
    pub fn keep(&mut self, position: u32, place: Place)
        requires { 0 < self.old.keeps }
        ensures marks { self.new.marks ≡ with_mark position place self.old.marks }
        ensures positions { map (λ m. m.0) self.new.marks ≡ filter (λ p. nat_lt p position) (map (λ m. m.0) self.old.marks) ++ position ∷ filter (λ p. nat_lt position p) (map (λ m. m.0) self.old.marks) }
        ensures keeps { self.old.keeps ≤ self.new.keeps + 1 }
        ensures notes { self.new.notes ≡ self.old.notes }
        ensures room { self.new.room ≡ self.old.room }
    {
        put_mark(&mut self.marks, position, place);
    }

    /// The snapshots that are not behind a position, by rising position. It takes no memory.
    pub fn marks_at_or_before(&self, position: u32) -> &[(u32, Place)]
        ensures marks { result.now ≡ spec.marks_at_or_before position self.now.marks }
        ensures positions { map (λ m. m.0) result.now ≡ filter (λ p. nat_le p position) (map (λ m. m.0) self.now.marks) }
        ensures rising { MarksRise result.now }
    {
        let count = count_to(self.marks.as_slice(), position);
        &self.marks[..count]
    }

    /// The last of the snapshots that are not behind a position. It takes no memory.
    pub fn newest_at_or_before(&self, position: u32) -> Option<(u32, Place)>
        ensures { result ≡ newest (spec.marks_at_or_before position self.now.marks) }
    {
        match self.marks_at_or_before(position).last() {
            Some(mark) => Some(*mark),
            None => None,
        }
    }

    /// Forgets the snapshots behind a position. It takes no memory.
    pub fn forget_after(&mut self, position: u32)
        ensures marks { self.new.marks ≡ spec.marks_at_or_before position self.old.marks }
        ensures positions { map (λ m. m.0) self.new.marks ≡ filter (λ p. nat_le p position) (map (λ m. m.0) self.old.marks) }
        ensures keeps { self.old.keeps ≤ self.new.keeps }
        ensures notes { self.new.notes ≡ self.old.notes }
        ensures room { self.new.room ≡ self.old.room }
    {
        let count = count_to(self.marks.as_slice(), position);
        self.marks.truncate(count);
    }

    /// Takes the notes of another shelf, with its room for more, in place of its own. It takes no memory.
    pub fn take_notes(&mut self, from: Shelf)
        ensures notes { self.new.notes ≡ from.notes }
        ensures room { self.new.room ≡ from.room }
        ensures marks { self.new.marks ≡ self.old.marks }
        ensures keeps { self.new.keeps ≡ self.old.keeps }
    {
        let Shelf { rows, marks: _ } = from;
        self.rows = rows;
    }
}
