//! The journal on a disk.
ghost use Rattle.std.specs.Prelude.{◌≡◌, ◌<◌, false, length};
ghost use Rattle.seal_log.specs.Log.{last_gate};
ghost use Rattle.desk_journal.specs.Submitting.{SealsBytes};

use crate::past::Past;
use seal_log::{Log, Place, SealFault};
use std::alloc::Global;
use std::marker::Model;
use undo_base::Text;
use undo_outside::Disk;

/// A journal on a disk.
#[derive(Drop)]
pub struct Journal<D: Disk> {
    /// What lies before its last gate.
    pub past: Past<D>,
    /// Its end.
    pub log: Log,
}

impl<D: Disk> Model for Journal<D> {
    ghost use Rattle.std.specs.Prelude.{◌≡◌};
    ghost use Rattle.seal_log.specs.Log.{last_gate};
    ghost use Rattle.desk_journal.specs.Lasting.{JournalTold, journal_of};

    ghost Value = { JournalTold D };

    ghost view = { λ j. journal_of j.past j.log };

    ghost invariant = { λ j. last_gate j.log ≡ j.past.end };
}

impl<D: Disk> Journal<D> {
    /// The journal that ends so on a disk.
    pub fn at(disk: D, log: Log) -> Journal<D>
        requires { last_gate log < (D.told disk).size }
        ensures disk { result.disk ≡ disk }
        ensures gate { result.gate ≡ last_gate log }
        ensures closed { result.closed ≡ log.closed }
    {
        Journal {
            past: Past::at(disk, log.last_gate()),
            log,
        }
    }

    /// Whether a write or a sync failed.
    pub fn is_closed(&self) -> bool
        ensures { result ≡ self.now.closed }
    {
        self.log.is_closed()
    }

    /// What holds of each journal: this does nothing.
    pub fn stands(&self)
        ensures { self.now.gate < (D.told self.now.disk).size }
    {
        self.past.stands();
    }

    /// Where the next payload will lie.
    pub fn next_place(&self, payload: &Text) -> Place
        ensures { result ≡ record { gate = self.now.gate; length = length payload.now } }
    {
        Place {
            gate: self.past.end,
            length: payload.bytes().len() as u32,
        }
    }

    /// Seals a payload behind the last gate, and goes on to the next.
    pub fn seal(&mut self, alloc: Global, payload: &Text) -> Result<(), SealFault>
        requires { self.old.closed ≡ false }
        ensures { SealsBytes D.told payload.now self.old self.new result }
    {
        match self.log.seal(alloc, &mut self.past.disk, payload.bytes()) {
            Ok(_) => {
                self.past.end = self.log.last_gate();
                Ok(())
            }
            Err(fault) => Err(fault),
        }
    }

    /// The disk as it is.
    pub fn into_disk(self) -> D
        ensures { result ≡ self.disk }
    {
        let Journal { past, log } = self;
        drop(log);
        past.into_disk()
    }
}
