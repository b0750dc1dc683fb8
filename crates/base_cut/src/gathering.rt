//! Payloads that wait in memory, to be written together: a file is written faster by few calls.
ghost use Rattle.std.specs.Prelude.{◌≡◌, [], Some, false, true, IfErr, OnOk};
ghost use Rattle.undo_outside.specs.Calls.{Writes as WritesFirst};
ghost use Rattle.base_cut.specs.Cutting.{IsUnread, PassesOn, Writes};

use crate::CutFault;
use crate::fault::fault_of_write;
use crate::writing::write_all;
use std::alloc::Global;
use undo_outside::{Fault, Sink, SinkFault};

/// So many octets are written as soon as they wait.
const MANY: usize = 262_144;

/// Octets that wait to be written, in order: a sink that never fails, but may find no memory.
#[derive(Drop)]
pub(crate) struct Gathered {
    pub bytes: Vec<u8>,
    /// How often it found none.
    pub wants: u64,
    /// Whether it did the last time.
    pub wants_last: bool,
}

impl Gathered {
    /// None.
    pub(crate) fn new(alloc: Global) -> Gathered
        ensures { result.bytes.items ≡ [] }
    {
        Gathered {
            bytes: Vec::new(alloc),
            wants: 0,
            wants_last: false,
        }
    }

    /// Writes those that wait.
    pub(crate) fn write_all<W: Sink>(&mut self, out: &mut W) -> Result<(), CutFault>
        ensures writes { Writes (W.told out.old) (W.told out.new) self.old.bytes.items result }
        ensures forgets { OnOk result (self.new.bytes.items ≡ []) }
        ensures unread { IfErr result IsUnread }
    {
        match write_all(out, &self.bytes) {
            Ok(()) => {
                self.bytes.clear();
                Ok(())
            }
            Err(fault) => Err(fault_of_write(fault)),
        }
    }

    /// Writes those that wait, where they are many.
    pub(crate) fn write_many<W: Sink>(&mut self, out: &mut W) -> Result<(), CutFault>
        ensures passes { PassesOn (W.told out.old) (W.told out.new) self.old.bytes.items self.new.bytes.items result }
        ensures unread { IfErr result IsUnread }
    {
        if self.bytes.len() < MANY {
            return Ok(());
        }
        self.write_all(out)
    }
}

impl Sink for Gathered {
    ghost told = { λ s. record {
      written = Some s.bytes.items;
      faults = 0;
      failed_last = false;
      out_of_memory = s.wants;
      out_of_memory_last = s.wants_last;
      is_reliable = true;
    } };

    fn write(&mut self, bytes: &[u8]) -> Result<usize, SinkFault> {
        match self.bytes.extend_from_slice(bytes) {
            Ok(()) => {
                self.wants_last = false;
                Ok(bytes.len())
            }
            Err(_) => {
                self.wants = self.wants.saturating_add(1);
                self.wants_last = true;
                Err(Fault::NoMemory)
            }
        }
    }
}
