//! Where the snapshots in the journal lie from which a cycle can begin.
//!
//! A snapshot can serve as long as no later cycle had a point before it. Two snapshots behind the same item have one mark, the
//! later one's place; `taken` counts both, so that nobody can seal more than the machine says.
ghost use Rattle.std.specs.Prelude.{◌≡◌, ℕ, ◌<◌, length, map, OnOk};
ghost use Rattle.seal_log.specs.declared.place.Place.{Place as ThePlace};
ghost use Rattle.shelf.specs.Marks.{MarksRise, marks_at_or_before as not_behind_of, with_mark};
ghost use Rattle.store_kept.specs.Kept.{not_behind, passed, snapshotted};
ghost use Rattle.mail_desk.specs.Held.{CanMark, most_taken};

use crate::Desk;
use seal_log::Place;
use undo_base::NoMemory;

impl Desk {
    /// How many items entered since the last snapshot, inserted acts and notices counted.
    pub fn since(&self) -> u32
        ensures { result ≡ self.now.kept.marks.since }
    {
        self.since
    }

    /// The snapshots from which a cycle can begin that were taken after no more items than these. Each is told by the number of
    /// items after which it was taken, rising, with where it lies. It takes no memory.
    pub fn marks_at_or_before(&self, position: u32) -> &[(u32, Place)]
        ensures marks { result.now ≡ not_behind_of position self.now.marks }
        ensures places { map (λ (m : ℕ × ThePlace). m.0) result.now ≡ not_behind position self.now.kept.marks.places }
        ensures rising { MarksRise result.now }
    {
        self.shelf.marks_at_or_before(position)
    }

    /// Makes room for the place of a snapshot. The desk stays as it was but for its room.
    pub fn ready_mark(&mut self) -> Result<(), NoMemory>
        ensures kept { self.new.kept ≡ self.old.kept }
        ensures notes { self.new.notes ≡ self.old.notes }
        ensures marks { self.new.marks ≡ self.old.marks }
        ensures ready { OnOk result (CanMark self.new) }
    {
        if self.taken == u64::MAX {
            return Err(NoMemory);
        }
        self.shelf.keep_room()
    }

    /// Marks that a snapshot of what is kept lies at a place. It takes no memory.
    pub fn mark(&mut self, place: Place)
        requires { CanMark self.old }
        ensures kept { self.new.kept ≡ snapshotted self.old.kept }
        ensures notes { self.new.notes ≡ self.old.notes }
        ensures marks { self.new.marks ≡ with_mark (length self.old.kept.timeline) place self.old.marks }
    {
        let position = self.timeline.len(self.next) as u32;
        self.count_mark();
        self.shelf.keep(position, place);
    }

    /// Counts a snapshot that holds another store than the one that is there: no cycle begins from it. It takes no memory.
    pub fn pass_mark(&mut self)
        requires { self.old.kept.marks.taken < most_taken }
        ensures kept { self.new.kept ≡ record self.old.kept { marks = passed self.old.kept.marks } }
        ensures notes { self.new.notes ≡ self.old.notes }
        ensures marks { self.new.marks ≡ self.old.marks }
    {
        self.count_mark();
    }

    /// Counts a snapshot, from which on entered items are counted anew.
    fn count_mark(&mut self)
        requires { self.old.kept.marks.taken < most_taken }
        ensures kept { self.new.kept ≡ record self.old.kept { marks = passed self.old.kept.marks } }
        ensures notes { self.new.notes ≡ self.old.notes }
        ensures marks { self.new.marks ≡ self.old.marks }
        ensures room { self.new.room ≡ self.old.room }
    {
        self.since = 0;
        self.taken += 1;
    }
}
