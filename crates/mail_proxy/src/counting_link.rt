//! A link in memory that can be asked how many of its calls found no memory.
//!
//! `play`, `script` and `grow` look at the count of their own link at the end, since `MemLink` shows none, and answer 8 in place
//! of 0 where it rose. `serve` answers as serving ended: its link has told its user.
ghost use Rattle.std.specs.Prelude.{◌≡◌, [], true, Some};
ghost use Rattle.undo_outside.specs.Calls.{RoseOnce};
ghost use Rattle.undo_outside.specs.Coming.{with_end};

use std::alloc::Global;
use undo_base::{NoMemory, Numbers};
use undo_outside::{Event, Events, Fault, Link, LinkFault, LinkNotes, MemLink};

/// Gives stated events and `End` after them, keeps its log, and counts the calls that found no memory.
#[derive(Drop)]
pub struct CountingLink {
    link: MemLink,
    out_of_memory: u64,
}

impl CountingLink {
    /// A link on which these events come and then `End`, and none of whose calls is to fail.
    pub fn new(alloc: Global, events: Events) -> CountingLink
        ensures log { (⟦<CountingLink as Link>⟧.told result).log ≡ Some [] }
        ensures coming { (⟦<CountingLink as Link>⟧.told result).coming ≡ Some (with_end 0 events) }
        ensures reliable { (⟦<CountingLink as Link>⟧.told result).is_reliable ≡ true }
        ensures out_of_memory { (⟦<CountingLink as Link>⟧.told result).out_of_memory ≡ 0 }
    {
        CountingLink {
            link: MemLink::new(alloc, events, Numbers::new(alloc)),
            out_of_memory: 0,
        }
    }

    /// What the link did so far.
    pub fn log(&self) -> &LinkNotes
        ensures { (⟦<CountingLink as Link>⟧.told self.now).log ≡ Some result.now }
    {
        self.link.log()
    }

    /// How many calls found no memory so far.
    pub fn out_of_memory(&self) -> u64
        ensures { result ≡ (⟦<CountingLink as Link>⟧.told self.now).out_of_memory }
    {
        self.out_of_memory
    }
}

/// A call found no memory.
fn count(out_of_memory: &mut u64)
    ensures { RoseOnce out_of_memory.old out_of_memory.new }
{
    *out_of_memory = out_of_memory.saturating_add(1);
}

impl Link for CountingLink {
    ghost told = { λ l. record (⟦<MemLink as Link>⟧.told l.link) { out_of_memory = l.out_of_memory } };

    fn next(&mut self) -> Result<Event, LinkFault> {
        match self.link.next() {
            Ok(event) => Ok(event),
            Err(Fault::Failed) => Err(Fault::Failed),
            Err(Fault::NoMemory) => {
                count(&mut self.out_of_memory);
                Err(Fault::NoMemory)
            }
        }
    }

    fn send(&mut self, conn: u32, bytes: &[u8]) -> Result<(), LinkFault> {
        match self.link.send(conn, bytes) {
            Ok(()) => Ok(()),
            Err(Fault::Failed) => Err(Fault::Failed),
            Err(Fault::NoMemory) => {
                count(&mut self.out_of_memory);
                Err(Fault::NoMemory)
            }
        }
    }

    fn close(&mut self, conn: u32) -> Result<(), NoMemory> {
        match self.link.close(conn) {
            Ok(()) => Ok(()),
            Err(NoMemory) => {
                count(&mut self.out_of_memory);
                Err(NoMemory)
            }
        }
    }
}
