//! No disk at all.
ghost use Rattle.std.specs.Prelude.{◌≡◌, ◌≤◌, ◌+◌, [], true, false, length, IsErr};
ghost use Rattle.undo_outside.specs.Disk.{Measures, ReadsAt, Syncs, WritesAt};

use crate::{Disk, DiskFault, Failed, Fault};

/// A disk of which each call fails.
#[derive(Drop)]
pub struct AbsentDisk {
    failed_reads: u64,
    failed_writes: u64,
}

impl AbsentDisk {
    /// No disk, of which no call was made.
    pub fn new() -> AbsentDisk
        ensures reads { (⟦<AbsentDisk as Disk>⟧.told result).failed_reads ≡ 0 }
        ensures writes { (⟦<AbsentDisk as Disk>⟧.told result).failed_writes ≡ 0 }
        ensures out_of_memory { (⟦<AbsentDisk as Disk>⟧.told result).out_of_memory ≡ 0 }
    {
        AbsentDisk {
            failed_reads: 0,
            failed_writes: 0,
        }
    }
}

impl Disk for AbsentDisk {
    ghost told = { λ d. record {
      honest = ⊥;
      size = 0;
      content = [];
      images = λ _. ⊥;
      moment = 0;
      since = λ _ _. ⊥;
      failed_reads = d.failed_reads;
      failed_writes = d.failed_writes;
      failed_last = true;
      out_of_memory = 0;
      out_of_memory_last = false;
      is_reliable = false;
    } };

    ghost tells_truth = { λ d h. absurd h };

    fn len(&mut self) -> Result<u64, Failed>
        ensures call { Measures (⟦<AbsentDisk as Disk>⟧.told self.old) (⟦<AbsentDisk as Disk>⟧.told self.new) result }
        ensures fails { IsErr result }
    {
        self.failed_reads = self.failed_reads.saturating_add(1);
        Err(Failed)
    }

    fn read(&mut self, place: u64, buf: &mut [u8]) -> Result<(), Failed>
        requires { place + length buf.old ≤ (⟦<AbsentDisk as Disk>⟧.told self.old).size }
        ensures call { ReadsAt (⟦<AbsentDisk as Disk>⟧.told self.old) (⟦<AbsentDisk as Disk>⟧.told self.new) place (length buf.old) buf.new result }
        ensures fails { IsErr result }
    {
        self.failed_reads = self.failed_reads.saturating_add(1);
        Err(Failed)
    }

    fn write_at(&mut self, place: u64, bytes: &[u8]) -> Result<(), DiskFault>
        requires { place ≤ (⟦<AbsentDisk as Disk>⟧.told self.old).size }
        ensures call { WritesAt (⟦<AbsentDisk as Disk>⟧.told self.old) (⟦<AbsentDisk as Disk>⟧.told self.new) place bytes.now result }
        ensures fails { IsErr result }
    {
        self.failed_writes = self.failed_writes.saturating_add(1);
        Err(Fault::Failed)
    }

    fn sync(&mut self) -> Result<(), Failed>
        ensures call { Syncs (⟦<AbsentDisk as Disk>⟧.told self.old) (⟦<AbsentDisk as Disk>⟧.told self.new) result }
        ensures fails { IsErr result }
    {
        self.failed_writes = self.failed_writes.saturating_add(1);
        Err(Failed)
    }
}
