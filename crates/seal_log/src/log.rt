//! The journal.
//!
//! `seal` whose next gate would lie past 2^64 - 1 answers want of memory (it can't: the disk's length is below that).
//!
//! Of a crash inside `format` nothing is claimed, since a torn first write may leave any first byte. That the frame is synced
//! before its gate is opened is a clause (`frame_first`).
ghost use Rattle.std.specs.Prelude.{◌≡◌, ◌<◌, ◌≤◌, ◌+◌, ◌^◌, ◌↔◌, ◌++◌, ◌∷◌, [], List, ℕ, true, IsTrue, IfOk, OnOk, IsErrOf, OnErr, ◌⊎◌, length, slice_range};
ghost use Rattle.undo_outside.specs.Disk.{IsOverwritten, WriteCause};
ghost use Rattle.undo_outside.specs.Moments.{LeavesOnly};
ghost use Rattle.seal_log.specs.Causes.{PutWants, ReadAtCause, SealCause, SealWants};
ghost use Rattle.seal_log.specs.Journal.{frame, LiesAt, StandsFor, StandsForFront};
ghost use Rattle.seal_log.specs.Settled.{Holds, IsFrameFirst, IsSettled, LeavesNoJournal, ReadsAlone};
ghost use Rattle.seal_log.specs.Log.{IsClosed, last_gate};

use crate::durable::write_synced;
use crate::frame::{OPEN, closed_frame, first_frame};
use crate::reading::read_before;
use crate::{Place, ReadFault, SealFault};
use std::alloc::Global;
use undo_base::Text;
use undo_outside::{Disk, DiskFault, Fault};

/// The end of a journal on a disk: its last gate.
#[derive(Drop)]
pub struct Log {
    gate: u64,
    closed: bool,
}

/// Puts a frame and the next gate, closed, behind a gate, and opens that gate once they are on the disk.
fn put<D: Disk>(alloc: Global, disk: &mut D, gate: u64, payload: &[u8]) -> Result<(), DiskFault>
    requires short { length payload.now < 2 ^ 32 }
    requires within { gate < (D.told disk.old).size }
    requires end { gate + 1 < 2 ^ 64 }

    ensures size { (D.told disk.old).size ≤ (D.told disk.new).size }
    ensures grown { OnOk result (gate + 5 + length payload.now < (D.told disk.new).size) }
    ensures honest { (D.told disk.old).honest → (D.told disk.new).honest }
    ensures written { (D.told disk.old).honest
        → OnOk result (IsOverwritten (D.told disk.old).content gate (85 ∷ (frame payload.now ++ 0 ∷ [])) (D.told disk.new).content) }
    ensures sealed { (payloads : List (List ℕ)) → IsSettled (D.told disk.old) gate payloads
        → OnOk result (IsSettled (D.told disk.new) (gate + 5 + length payload.now) (payloads ++ payload.now ∷ [])) }
    ensures as_before { (payloads : List (List ℕ)) → IsSettled (D.told disk.old) gate payloads
        → IsErrOf result Fault.NoMemory → IsSettled (D.told disk.new) gate payloads }
    ensures any_moment { (payloads : List (List ℕ)) → IsSettled (D.told disk.old) gate payloads
        → LeavesOnly (D.told disk.old) (D.told disk.new) (StandsForFront payloads (payload.now ∷ [])) }
    ensures never_there { (payloads : List (List ℕ)) → IsSettled (D.told disk.old) gate payloads
        → IsErrOf result Fault.NoMemory → LeavesOnly (D.told disk.old) (D.told disk.new) (λ image. StandsFor image payloads) }
    ensures cause { WriteCause (D.told disk.old) (D.told disk.new) result }
    ensures wants { PutWants D.told disk.old disk.new result }
{
    let frame = closed_frame(alloc, payload)?;
    write_synced(disk, gate + 1, &frame)?;
    write_synced(disk, gate, &[OPEN])?;
    Ok(())
}

impl Log {
    /// A log whose last gate is at a place.
    pub(crate) fn at(gate: u64) -> Log
        ensures gate { last_gate result ≡ gate }
        ensures not_closed { IsClosed result → ⊥ }
    {
        Log {
            gate,
            closed: false,
        }
    }

    /// Whether a write or a sync through this log failed. Takes no memory.
    pub fn is_closed(&self) -> bool
        ensures { IsTrue result ↔ IsClosed self.now }
    {
        self.closed
    }

    /// The place of the last gate. Takes no memory.
    pub fn last_gate(&self) -> u64
        ensures { result ≡ last_gate self.now }
    {
        self.gate
    }

    /// Seals a payload. At `Ok` it is on the disk. At `Disk` the log is closed, and the payload may be there or not.
    pub fn seal<D: Disk>(
        &mut self,
        alloc: Global,
        disk: &mut D,
        payload: &[u8],
    ) -> Result<Place, SealFault>
        requires short { length payload.now < 2 ^ 32 }
        requires end { last_gate self.old < (D.told disk.old).size }

        ensures place { IfOk result (λ place. place ≡ record { gate = last_gate self.old; length = length payload.now }) }
        ensures lies { (payloads : List (List ℕ)) → IsSettled (D.told disk.old) (last_gate self.old) payloads
            → IfOk result (λ place. LiesAt (payloads ++ payload.now ∷ []) place.gate place.length payload.now) }
        ensures next { OnOk result (last_gate self.new ≡ last_gate self.old + 5 + length payload.now) }
        ensures err { OnErr result (last_gate self.new ≡ last_gate self.old) }

        // When each refusal comes.
        ensures closed { IsErrOf result SealFault.Closed ↔ IsClosed self.old }
        ensures closes { IsClosed self.new ↔ (IsClosed self.old ⊎ IsErrOf result SealFault.Disk) }
        ensures untouched { IsClosed self.old → (disk.new ≡ disk.old) × (self.new ≡ self.old) }
        ensures unchanged { IsErrOf result SealFault.NoMemory → self.new ≡ self.old }
        ensures cause { SealCause (D.told disk.old) (D.told disk.new) result }
        // Memory is taken before the first write: later only a write may find none, and then the call says so.
        ensures wants { SealWants D.told disk.old disk.new result }

        // What the disk holds then: an open gate, the frame, and a closed gate over what was there.
        ensures written { (D.told disk.old).honest
            → OnOk result (IsOverwritten (D.told disk.old).content (last_gate self.old) (85 ∷ (frame payload.now ++ 0 ∷ [])) (D.told disk.new).content) }
        ensures sealed { (payloads : List (List ℕ)) → IsSettled (D.told disk.old) (last_gate self.old) payloads
            → OnOk result (IsSettled (D.told disk.new) (last_gate self.new) (payloads ++ payload.now ∷ [])) }
        ensures as_before { (payloads : List (List ℕ)) → IsSettled (D.told disk.old) (last_gate self.old) payloads
            → IsErrOf result SealFault.NoMemory → IsSettled (D.told disk.new) (last_gate self.new) payloads }

        // A crash at any moment leaves the payloads from before the call, with the new one or without.
        ensures any_moment { (payloads : List (List ℕ)) → IsSettled (D.told disk.old) (last_gate self.old) payloads
            → LeavesOnly (D.told disk.old) (D.told disk.new) (StandsForFront payloads (payload.now ∷ [])) }
        // Where no memory was found, the new one was never there.
        ensures never_there { (payloads : List (List ℕ)) → IsSettled (D.told disk.old) (last_gate self.old) payloads
            → IsErrOf result SealFault.NoMemory → LeavesOnly (D.told disk.old) (D.told disk.new) (λ image. StandsFor image payloads) }

        ensures held { (payloads : List (List ℕ)) → IsSettled (D.told disk.old) (last_gate self.old) payloads → Holds (D.told disk.new) payloads }

        ensures within { last_gate self.new < (D.told disk.new).size }
        ensures size { (D.told disk.old).size ≤ (D.told disk.new).size }
        ensures honest { (D.told disk.old).honest → (D.told disk.new).honest }
    {
        if self.closed {
            return Err(SealFault::Closed);
        }
        let length = payload.len() as u32;
        let Some(next) = self.gate.checked_add(5 + u64::from(length)) else {
            return Err(SealFault::NoMemory);
        };
        match put(alloc, disk, self.gate, payload) {
            Ok(()) => {
                let place = Place {
                    gate: self.gate,
                    length,
                };
                self.gate = next;
                Ok(place)
            }
            Err(Fault::NoMemory) => Err(SealFault::NoMemory),
            Err(Fault::Failed) => {
                self.closed = true;
                Err(SealFault::Disk)
            }
        }
    }

    /// Reads a range of a payload.
    pub fn read_at<D: Disk>(
        &self,
        alloc: Global,
        disk: &mut D,
        place: Place,
        from: u32,
        length: u32,
    ) -> Result<Text, ReadFault>
        requires end { last_gate self.now < (D.told disk.old).size }
        requires place { place.gate + 5 + place.length ≤ last_gate self.now }
        requires range { from + length ≤ place.length }

        ensures bytes { (D.told disk.old).honest → IfOk result (λ text.
            text ≡ slice_range (D.told disk.old).content (place.gate + 5 + from) (place.gate + 5 + from + length)) }
        ensures payload { (payloads : List (List ℕ)) (payload : List ℕ) → Holds (D.told disk.old) payloads
            → LiesAt payloads place.gate place.length payload → IfOk result (λ text. text ≡ slice_range payload from (from + length)) }
        ensures cause { ReadAtCause (D.told disk.old) (D.told disk.new) result }

        ensures settled { (gate : ℕ) (payloads : List (List ℕ)) → IsSettled (D.told disk.old) gate payloads
            → IsSettled (D.told disk.new) gate payloads }
        ensures held { (payloads : List (List ℕ)) → Holds (D.told disk.old) payloads → Holds (D.told disk.new) payloads }
        ensures only_reads { ReadsAlone (D.told disk.old) (D.told disk.new) }
    {
        read_before(alloc, disk, self.gate, place, from, length)
    }
}

/// Makes a journal of one payload on an empty disk. After a refusal the disk is to be removed.
pub fn format<D: Disk>(alloc: Global, disk: &mut D, head: &[u8]) -> Result<Log, SealFault>
    requires empty { (D.told disk.old).size ≡ 0 }
    requires short { length head.now < 2 ^ 32 }

    ensures log { IfOk result (λ log. (last_gate log ≡ 5 + length head.now) × (IsClosed log → ⊥)) }
    ensures settled { (D.told disk.old).honest → IfOk result (λ log. IsSettled (D.told disk.new) (last_gate log) (head.now ∷ [])) }
    ensures written { (D.told disk.old).honest → OnOk result ((D.told disk.new).content ≡ 85 ∷ (frame head.now ++ 0 ∷ [])) }
    // The frame is on the disk before its gate is opened.
    ensures frame_first { (D.told disk.old).honest → OnOk result (IsFrameFirst head.now (D.told disk.old) (D.told disk.new)) }
    // Where no memory was found, there is no journal that was not there before.
    ensures no_journal { (D.told disk.old).honest → IsErrOf result SealFault.NoMemory → LeavesNoJournal (D.told disk.old) (D.told disk.new) }
    ensures cause { SealCause (D.told disk.old) (D.told disk.new) result }
    ensures wants { SealWants D.told disk.old disk.new result }
    ensures not_closed { IsErrOf result SealFault.Closed → ⊥ }

    ensures within { IfOk result (λ log. last_gate log < (D.told disk.new).size) }
    ensures honest { (D.told disk.old).honest → (D.told disk.new).honest }
{
    match put_first(alloc, disk, head) {
        Ok(()) => Ok(Log::at(5 + head.len() as u64)),
        Err(Fault::NoMemory) => Err(SealFault::NoMemory),
        Err(Fault::Failed) => Err(SealFault::Disk),
    }
}

/// Writes a first frame between two closed gates, and opens the one before it once they are on the disk.
fn put_first<D: Disk>(alloc: Global, disk: &mut D, head: &[u8]) -> Result<(), DiskFault>
    requires empty { (D.told disk.old).size ≡ 0 }
    requires short { length head.now < 2 ^ 32 }

    ensures settled { (D.told disk.old).honest → OnOk result (IsSettled (D.told disk.new) (5 + length head.now) (head.now ∷ [])) }
    ensures written { (D.told disk.old).honest → OnOk result ((D.told disk.new).content ≡ 85 ∷ (frame head.now ++ 0 ∷ [])) }
    ensures frame_first { (D.told disk.old).honest → OnOk result (IsFrameFirst head.now (D.told disk.old) (D.told disk.new)) }
    ensures no_journal { (D.told disk.old).honest → IsErrOf result Fault.NoMemory → LeavesNoJournal (D.told disk.old) (D.told disk.new) }
    ensures cause { WriteCause (D.told disk.old) (D.told disk.new) result }
    ensures wants { PutWants D.told disk.old disk.new result }
    ensures grown { OnOk result (5 + length head.now < (D.told disk.new).size) }
    ensures honest { (D.told disk.old).honest → (D.told disk.new).honest }
{
    let bytes = first_frame(alloc, head)?;
    write_synced(disk, 0, &bytes)?;
    write_synced(disk, 0, &[OPEN])?;
    Ok(())
}
