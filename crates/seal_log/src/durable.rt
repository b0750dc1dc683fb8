//! A write that is on the disk when it returns.
ghost use Rattle.std.specs.Prelude.{◌≡◌, ◌+◌, ◌≤◌, ℕ, List, length, OnOk, IsErrOf};
ghost use Rattle.undo_outside.specs.Disk.{IsOverwritten, Only, WriteCause, WriteWants};
ghost use Rattle.undo_outside.specs.Moments.{IsTornOf, LeavesOnly};

use undo_outside::{Disk, DiskFault, Fault};

/// Writes and syncs. A crash at any moment may have torn the write.
pub fn write_synced<D: Disk>(disk: &mut D, place: u64, bytes: &[u8]) -> Result<(), DiskFault>
    requires { place ≤ (D.told disk.old).size }
    ensures size { (D.told disk.old).size ≤ (D.told disk.new).size }
    ensures grown { OnOk result (place + length bytes.now ≤ (D.told disk.new).size) }
    ensures honest { (D.told disk.old).honest → (D.told disk.new).honest }
    ensures written { (D.told disk.old).honest → OnOk result (IsOverwritten (D.told disk.old).content place bytes.now (D.told disk.new).content) }
    ensures durable { (D.told disk.old).honest → OnOk result (Only (D.told disk.new).content (D.told disk.new).images) }
    ensures kept { (D.told disk.old).honest → (c : List ℕ) → (D.told disk.old).images c → (D.told disk.new).since (D.told disk.old).moment c }
    ensures no_memory { (D.told disk.old).honest → IsErrOf result Fault.NoMemory → (c : List ℕ) → (D.told disk.new).images c → (D.told disk.old).images c }
    ensures any_moment { (D.told disk.old).honest → LeavesOnly (D.told disk.old) (D.told disk.new) (IsTornOf place (length bytes.now) (D.told disk.old).size (D.told disk.old).images) }
    ensures never_torn { (D.told disk.old).honest → IsErrOf result Fault.NoMemory → LeavesOnly (D.told disk.old) (D.told disk.new) (D.told disk.old).images }
    ensures cause { WriteCause (D.told disk.old) (D.told disk.new) result }
    ensures wants { WriteWants (D.told disk.old) (D.told disk.new) result }
{
    disk.write_at(place, bytes)?;
    match disk.sync() {
        Ok(()) => Ok(()),
        Err(_) => Err(Fault::Failed),
    }
}
