//! The shelf, and the notes of bodies.
ghost use Rattle.std.specs.Prelude.{◌≡◌, ◌≤◌, ◌<◌, ◌+◌, [], true, option_map, IfOk, IfErr, OnOk};
ghost use Rattle.shelf.specs.Notes as spec;
ghost use Rattle.shelf.specs.Notes.{NotesOnly, note_of, size_of};
ghost use Rattle.shelf.specs.Rows.{made, IsAt, IsGapFor};

use crate::{Note, insert_within};
use seal_log::Place;
use std::alloc::Global;
use std::marker::Model;
use undo_base::NoMemory;
use verb_core::Body;

/// The bodies that are known, each with its last note; and the positions of snapshots, each with where it lies.
#[derive(Drop)]
pub struct Shelf {
    pub(crate) rows: Vec<(Body, Note)>,
    pub(crate) marks: Vec<(u32, Place)>,
}

impl Model for Shelf {
    ghost use Rattle.std.specs.Prelude.{◌-◌, vec_len, vec_capacity};
    ghost use Rattle.shelf.specs.Notes.{Noted};
    ghost use Rattle.shelf.specs.Marks.{MarksRise};
    ghost use Rattle.shelf.specs.Rows.{IsRising};

    ghost Value = { Noted };

    ghost view = { λ s. record {
      notes = s.rows.items;
      room = vec_capacity s.rows - vec_len s.rows;
      marks = s.marks.items;
      keeps = vec_capacity s.marks - vec_len s.marks;
    } };

    ghost invariant = { λ s. IsRising s.rows.items × MarksRise s.marks.items };
}

fn made_at(body: Body) -> (u32, u32, u32)
    ensures { result ≡ made body }
{
    (body.origin.max(body.rev), body.origin, body.rev)
}

fn length_in(note: Option<Note>) -> Option<u32>
    ensures { result ≡ option_map (λ n. n.length) note }
{
    match note {
        Some(note) => Some(note.length),
        None => None,
    }
}

impl Shelf {
    /// A shelf on which nothing is noted or kept, which takes no memory.
    pub fn new(alloc: Global) -> Shelf
        ensures notes { result.notes ≡ [] }
        ensures marks { result.marks ≡ [] }
    {
        Shelf {
            rows: Vec::new(alloc),
            marks: Vec::new(alloc),
        }
    }

    /// Makes room for at least so many notes more.
    pub fn note_room(&mut self, count: u32) -> Result<(), NoMemory>
        ensures ok { OnOk result (count ≤ self.new.room) }
        ensures room { self.old.room ≤ self.new.room }
        ensures notes { self.new.notes ≡ self.old.notes }
        ensures marks { self.new.marks ≡ self.old.marks }
        ensures keeps { self.new.keeps ≡ self.old.keeps }
    {
        self.rows.reserve(count as usize)?;
        Ok(())
    }

    /// Notes where a body's text lies, in place of an earlier note of that body. It takes no memory, and uses room
    /// for one note at most.
    pub fn note(&mut self, body: Body, place: Place, from: u32, length: u32)
        requires { 0 < self.old.room }
        ensures notes { NotesOnly self.old.notes self.new.notes body (record { place = place; from = from; length = length }) }
        ensures room { self.old.room ≤ self.new.room + 1 }
        ensures marks { self.new.marks ≡ self.old.marks }
        ensures keeps { self.new.keeps ≡ self.old.keeps }
    {
        let note = Note {
            place,
            from,
            length,
        };
        match self.search(body) {
            Ok(at) => self.rows[at] = (body, note),
            Err(at) => self.insert(at, body, note),
        }
    }

    /// The last note of a body, where it was noted. It takes no memory.
    pub fn find(&self, body: Body) -> Option<Note>
        ensures { result ≡ note_of self.now.notes body }
    {
        match self.search(body) {
            Ok(at) => Some(self.rows[at].1),
            Err(_) => None,
        }
    }

    /// How many bytes a body has, where it was noted.
    pub fn size(&self, body: Body) -> Option<u32>
        ensures { result ≡ size_of self.now.notes body }
    {
        length_in(self.find(body))
    }

    /// The last note of a body, looked for at a place first. Where it is found the place behind it is left, at which the next body's
    /// note lies if that came to be next.
    fn find_near(&self, body: Body, near: &mut usize) -> Option<Note>
        ensures { result ≡ note_of self.now.notes body }
    {
        match self.search_near(body, *near) {
            Ok(at) => {
                *near = at.saturating_add(1);
                Some(self.rows[at].1)
            }
            Err(_) => None,
        }
    }

    /// How many bytes a body has, where it was noted. Asked of bodies in the order in which they came to be, with one `near` that
    /// is 0 at first, most are found with no search.
    pub fn size_near(&self, body: Body, near: &mut usize) -> Option<u32>
        ensures { result ≡ size_of self.now.notes body }
    {
        length_in(self.find_near(body, near))
    }

    fn insert(&mut self, at: usize, body: Body, note: Note)
        requires room { 0 < self.old.room }
        requires gap { IsGapFor self.old.notes body at }
        ensures notes { NotesOnly self.old.notes self.new.notes body note }
        ensures room { self.old.room ≤ self.new.room + 1 }
        ensures marks { self.new.marks ≡ self.old.marks }
        ensures keeps { self.new.keeps ≡ self.old.keeps }
    {
        insert_within(&mut self.rows, at, (body, note));
    }

    /// Whether the row at a place has the body.
    fn has_at(&self, place: usize, body: Body) -> bool
        ensures { result ≡ true → IsAt self.now.notes body place }
    {
        if place >= self.rows.len() {
            return false;
        }
        self.rows[place].0.is_same(body)
    }

    /// Where the body's note is, or where it would go; looked for at a place first.
    fn search_near(&self, body: Body, near: usize) -> Result<usize, usize>
        ensures found { IfOk result (IsAt self.now.notes body) }
        ensures absent { IfErr result (IsGapFor self.now.notes body) }
    {
        if self.has_at(near, body) {
            return Ok(near);
        }
        self.search(body)
    }

    /// Where the body's note is, or where it would go.
    fn search(&self, body: Body) -> Result<usize, usize>
        ensures found { IfOk result (IsAt self.now.notes body) }
        ensures absent { IfErr result (IsGapFor self.now.notes body) }
    {
        self.rows
            .binary_search_by_key(&made_at(body), |row| made_at(row.0))
    }
}
