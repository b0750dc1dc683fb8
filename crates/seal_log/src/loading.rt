//! Finding the payloads of a journal.
//!
//! A survey looks at all gates, and tells a frame that is cut beside the payloads before it, so that the earlier of two damaged
//! places can be told. `load` is a survey and one more look.
ghost use Rattle.std.specs.Prelude.{◌≡◌, ◌⊎◌, ◌<◌, ◌≤◌, ◌+◌, ◌^◌, ◌∷◌, [], ℕ, true, drop, IfErr, IfOk, IsErrOf, length};
ghost use Rattle.std.specs.List.{All, slice_range};
ghost use Rattle.std.specs.Int.{to_be_bytes, w32};
ghost use Rattle.undo_outside.specs.Moments.{LeavesOnly, OnlyReads};
ghost use Rattle.seal_log.specs.Causes.{LoadCause, LookCause};
ghost use Rattle.seal_log.specs.Loads.{Loads, Surveys};
ghost use Rattle.seal_log.specs.Log.{IsClosed, end_gate, is_cut, last_gate, leaves_open};
ghost use Rattle.seal_log.specs.Loading.{FindsFrame, FindsJournal, FindsPayloads, IsFollowed};

use crate::frame::OPEN;
use crate::seen::Found;
use crate::{End, LoadFault, Log, Place, Places, Survey};
use std::alloc::Global;
use undo_outside::Disk;

/// The byte at a place.
fn byte_at<D: Disk>(disk: &mut D, place: u64) -> Result<u8, LoadFault>
    requires { place + 1 ≤ (D.told disk.old).size }
    ensures byte { (D.told disk.old).honest → IfOk result (λ byte. slice_range (D.told disk.old).content place (place + 1) ≡ byte ∷ []) }
    ensures only_reads { OnlyReads (D.told disk.old) (D.told disk.new) }
    ensures only_disk { IfErr result (λ fault. fault ≡ LoadFault.Disk) }
    ensures cause { LookCause (D.told disk.old) (D.told disk.new) result }
{
    let mut byte = [0];
    disk.read(place, &mut byte)?;
    Ok(byte[0])
}

/// The number that four bytes spell.
fn number_of(bytes: &[u8]) -> u32
    requires { length bytes.now ≡ 4 }
    ensures { bytes.now ≡ to_be_bytes w32 result }
{
    u32::from_be_bytes([bytes[0], bytes[1], bytes[2], bytes[3]])
}

/// The number in the four bytes from a place on.
fn number_at<D: Disk>(disk: &mut D, place: u64) -> Result<u32, LoadFault>
    requires { place + 4 ≤ (D.told disk.old).size }
    ensures number { (D.told disk.old).honest → IfOk result (λ number. slice_range (D.told disk.old).content place (place + 4) ≡ to_be_bytes w32 number) }
    ensures fits { IfOk result (λ number. number < 2 ^ 32) }
    ensures only_reads { OnlyReads (D.told disk.old) (D.told disk.new) }
    ensures only_disk { IfErr result (λ fault. fault ≡ LoadFault.Disk) }
    ensures cause { LookCause (D.told disk.old) (D.told disk.new) result }
{
    let mut bytes = [0; 4];
    disk.read(place, &mut bytes)?;
    Ok(number_of(&bytes))
}

/// What stands at a gate.
fn frame_at<D: Disk>(disk: &mut D, gate: u64, end: u64) -> Result<Found, LoadFault>
    requires gate { gate < end }
    requires end { end ≡ (D.told disk.old).size }
    ensures found { (D.told disk.old).honest → IfOk result (FindsFrame (drop gate (D.told disk.old).content)) }
    ensures next { IfOk result (IsFollowed gate end) }
    ensures only_reads { OnlyReads (D.told disk.old) (D.told disk.new) }
    ensures only_disk { IfErr result (λ fault. fault ≡ LoadFault.Disk) }
    ensures cause { LookCause (D.told disk.old) (D.told disk.new) result }
{
    if byte_at(disk, gate)? != OPEN {
        return Ok(Found::Closed);
    }
    if end - gate < 6 {
        return Ok(Found::Cut);
    }
    let length = number_at(disk, gate + 1)?;
    if end - gate < 6 + u64::from(length) {
        return Ok(Found::Cut);
    }
    Ok(Found::Frame(length))
}

/// The payloads up to the first gate that is not open, or whose frame is cut.
fn scan<D: Disk>(alloc: Global, disk: &mut D, end: u64) -> Result<Survey, LoadFault>
    requires some { 0 < end }
    requires end { end ≡ (D.told disk.old).size }
    ensures found { (D.told disk.old).honest → IfOk result (λ seen. FindsPayloads (D.told disk.old).content (end_gate seen.end) seen.places (is_cut seen.end)) }
    ensures open { IfOk result (λ seen. leaves_open seen.end ≡ true) }
    ensures within { IfOk result (λ seen. end_gate seen.end < end) }
    ensures places { IfOk result (λ seen. All (λ place. place.gate + 5 + place.length ≤ end_gate seen.end) seen.places) }
    ensures only_reads { OnlyReads (D.told disk.old) (D.told disk.new) }
    ensures formatted { IsErrOf result LoadFault.NotFormatted → ⊥ }
    ensures never_damaged { (place : ℕ) → IsErrOf result (LoadFault.Damaged place) → ⊥ }
    ensures cause { LookCause (D.told disk.old) (D.told disk.new) result }
{
    let mut places = Places::new(alloc);
    let mut gate = 0;
    'frames: loop {
        match frame_at(disk, gate, end)? {
            Found::Frame(length) => {
                places.push(Place { gate, length })?;
                gate += 5 + u64::from(length);
            }
            Found::Closed => return Ok(Survey::whole(gate, places)),
            Found::Cut => return Ok(Survey::cut(gate, places)),
        }
    }
}

/// The same of a disk that may hold no journal.
fn find<D: Disk>(alloc: Global, disk: &mut D) -> Result<Survey, LoadFault>
    ensures found { (D.told disk.old).honest → FindsJournal (D.told disk.old).content result }
    ensures empty { (D.told disk.old).size ≡ 0 → IsErrOf result LoadFault.NotFormatted ⊎ IsErrOf result LoadFault.Disk }
    ensures open { IfOk result (λ seen. leaves_open seen.end ≡ true) }
    ensures within { IfOk result (λ seen. end_gate seen.end < (D.told disk.old).size) }
    ensures places { IfOk result (λ seen. All (λ place. place.gate + 5 + place.length ≤ end_gate seen.end) seen.places) }
    ensures only_reads { OnlyReads (D.told disk.old) (D.told disk.new) }
    ensures never_damaged { (place : ℕ) → IsErrOf result (LoadFault.Damaged place) → ⊥ }
    ensures cause { LookCause (D.told disk.old) (D.told disk.new) result }
{
    let end = disk.len()?;
    if end == 0 {
        return Err(LoadFault::NotFormatted);
    }
    let seen = scan(alloc, disk, end)?;
    if seen.is_empty() {
        return Err(LoadFault::NotFormatted);
    }
    Ok(seen)
}

/// Finds the payloads of a journal, as it is on the disk after a sync, and how they end. It writes nothing.
pub fn survey<D: Disk>(alloc: Global, disk: &mut D) -> Result<Survey, LoadFault>
    ensures found { (D.told disk.old).honest → Surveys (D.told disk.old).content (D.told disk.new) result }
    ensures empty { (D.told disk.old).size ≡ 0 → IsErrOf result LoadFault.NotFormatted ⊎ IsErrOf result LoadFault.Disk }
    ensures never_damaged { (place : ℕ) → IsErrOf result (LoadFault.Damaged place) → ⊥ }
    ensures cause { LoadCause (D.told disk.old) (D.told disk.new) result }

    // What reads give is as before, but where a call failed.
    ensures content { (D.told disk.old).honest → (IsErrOf result LoadFault.Disk → ⊥) → (D.told disk.new).content ≡ (D.told disk.old).content }
    // A crash at any moment leaves what it could have left before.
    ensures any_moment { (D.told disk.old).honest → LeavesOnly (D.told disk.old) (D.told disk.new) (D.told disk.old).images }

    ensures open { IfOk result (λ seen. leaves_open seen.end ≡ true) }
    ensures within { IfOk result (λ seen. end_gate seen.end < (D.told disk.new).size) }
    ensures places { IfOk result (λ seen. All (λ place. place.gate + 5 + place.length ≤ end_gate seen.end) seen.places) }
    ensures size { (D.told disk.new).size ≡ (D.told disk.old).size }
    ensures honest { (D.told disk.old).honest → (D.told disk.new).honest }
{
    disk.sync()?;
    find(alloc, disk)
}

/// Finds the payloads of a journal, as it is on the disk after a sync. It writes nothing.
pub fn load<D: Disk>(alloc: Global, disk: &mut D) -> Result<(Log, Places), LoadFault>
    ensures found { (D.told disk.old).honest → Loads (D.told disk.old).content (D.told disk.new) result }
    ensures empty { (D.told disk.old).size ≡ 0 → IsErrOf result LoadFault.NotFormatted ⊎ IsErrOf result LoadFault.Disk }
    ensures cause { LoadCause (D.told disk.old) (D.told disk.new) result }

    // A crash at any moment leaves what it could have left before.
    ensures any_moment { (D.told disk.old).honest → LeavesOnly (D.told disk.old) (D.told disk.new) (D.told disk.old).images }

    ensures not_closed { IfOk result (λ loaded. IsClosed loaded.0 → ⊥) }
    ensures within { IfOk result (λ loaded. last_gate loaded.0 < (D.told disk.new).size) }
    ensures places { IfOk result (λ loaded. All (λ place. place.gate + 5 + place.length ≤ last_gate loaded.0) loaded.1) }
    ensures size { (D.told disk.new).size ≡ (D.told disk.old).size }
    ensures honest { (D.told disk.old).honest → (D.told disk.new).honest }
{
    let Survey { places, end } = survey(alloc, disk)?;
    match end {
        End::Whole(log) => Ok((log, places)),
        End::Cut { gate } => Err(LoadFault::Damaged { place: gate }),
    }
}
