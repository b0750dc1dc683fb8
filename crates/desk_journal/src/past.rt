//! What lies on a disk before a gate of its journal.
ghost use Rattle.std.specs.Prelude.{◌≡◌, ◌<◌, ◌≤◌, ◌+◌, ◌^◌, ℕ, List, Some, length, slice_range, IfOk, IfSome};
ghost use Rattle.std.specs.Int.{to_be_bytes, w32};
ghost use Rattle.seal_log.specs.Causes.{ReadAtCause};
ghost use Rattle.seal_log.specs.Journal.{LiesAt};
ghost use Rattle.seal_log.specs.Settled.{Holds, ReadsAlone};
ghost use Rattle.desk_journal.specs.Telling.{IsPastRead};

use seal_log::{Place, ReadFault, read_before, unread};
use std::alloc::Global;
use std::marker::Model;
use undo_base::{PastText, Text};
use undo_outside::Disk;

/// A disk, and the gate at which the journal on it ends.
#[derive(Drop)]
pub struct Past<D: Disk> {
    pub(crate) disk: D,
    pub(crate) end: u64,
}

impl<D: Disk> Model for Past<D> {
    ghost use Rattle.std.specs.Prelude.{◌<◌};
    ghost use Rattle.desk_journal.specs.Lasting.{PastTold};

    ghost Value = { PastTold D };

    ghost view = { λ p. record { disk = p.disk; end = p.end } };

    ghost invariant = { λ p. p.end < (D.told p.disk).size };
}

/// The number in the four bytes from a place on.
fn length_at<D: Disk>(disk: &mut D, place: u64) -> Result<u32, ReadFault>
    requires { place + 4 ≤ (D.told disk.old).size }
    ensures number { (D.told disk.old).honest → IfOk result (λ number. slice_range (D.told disk.old).content place (place + 4) ≡ to_be_bytes w32 number) }
    ensures fits { IfOk result (λ number. number < 2 ^ 32) }
    ensures reads { ReadsAlone (D.told disk.old) (D.told disk.new) }
    ensures cause { ReadAtCause (D.told disk.old) (D.told disk.new) result }
{
    let mut bytes = [0; 4];
    disk.read(place, &mut bytes)?;
    Ok(number_of(&bytes))
}

/// The number that four bytes spell.
fn number_of(bytes: &[u8]) -> u32
    requires { length bytes.now ≡ 4 }
    ensures { bytes.now ≡ to_be_bytes w32 result }
{
    u32::from_be_bytes([bytes[0], bytes[1], bytes[2], bytes[3]])
}

/// The place of so many bytes behind a gate, where all of it lies before an end.
fn place_before(end: u64, gate: u64, length: u32) -> Option<Place>
    requires { gate + 5 ≤ end }
    ensures there { gate + 5 + length ≤ end → result ≡ Some (record { gate = gate; length = length }) }
    ensures within { IfSome result (λ place. (place.gate ≡ gate) × (place.gate + 5 + place.length ≤ end)) }
{
    if u64::from(length) <= end - gate - 5 {
        Some(Place { gate, length })
    } else {
        None
    }
}

impl<D: Disk> Past<D> {
    /// What lies on a disk before a gate.
    pub fn at(disk: D, end: u64) -> Past<D>
        requires { end < (D.told disk).size }
        ensures disk { result.disk ≡ disk }
        ensures end { result.end ≡ end }
    {
        Past { disk, end }
    }

    /// The gate.
    pub fn end(&self) -> u64
        ensures { result ≡ self.now.end }
    {
        self.end
    }

    /// What holds of each: this does nothing.
    pub fn stands(&self)
        ensures { self.now.end < (D.told self.now.disk).size }
    {
        let _ = &self.disk;
    }

    /// Reads a range of a payload that lies before the gate.
    pub fn read(
        &mut self,
        alloc: Global,
        place: Place,
        from: u32,
        length: u32,
    ) -> Result<Text, ReadFault>
        requires place { place.gate + 5 + place.length ≤ self.old.end }
        requires range { from + length ≤ place.length }
        ensures bytes { (D.told self.old.disk).honest → IfOk result (λ text.
            text ≡ slice_range (D.told self.old.disk).content (place.gate + 5 + from) (place.gate + 5 + from + length)) }
        ensures payload { (payloads : List (List ℕ)) (payload : List ℕ) → Holds (D.told self.old.disk) payloads
            → LiesAt payloads place.gate place.length payload → IfOk result (λ text. text ≡ slice_range payload from (from + length)) }
        ensures cause { ReadAtCause (D.told self.old.disk) (D.told self.new.disk) result }
        ensures still { IsPastRead D.told self.old self.new }
    {
        read_before(alloc, &mut self.disk, self.end, place, from, length)
    }

    /// A range of a payload that lies before the gate, as clauses see it: it is not read.
    pub fn unread(&self, place: Place, from: u32, count: u32) -> PastText
        requires place { place.gate + 5 + place.length ≤ self.now.end }
        requires range { from + count ≤ place.length }
        ensures count { length result ≡ count }
        ensures payload { (payloads : List (List ℕ)) (payload : List ℕ) → Holds (D.told self.now.disk) payloads
            → LiesAt payloads place.gate place.length payload → result ≡ slice_range payload from (from + count) }
    {
        unread(&self.disk, self.end, place, from, count)
    }

    /// The place of the payload behind a gate before the end, by the length in the four bytes there; none where it would go past the
    /// end.
    pub fn place_at(&mut self, gate: u64) -> Result<Option<Place>, ReadFault>
        requires { gate + 5 ≤ self.old.end }
        ensures place { (payloads : List (List ℕ)) (count : ℕ) (payload : List ℕ) → Holds (D.told self.old.disk) payloads → LiesAt payloads gate count payload
            → count < 2 ^ 32 → gate + 5 + count ≤ self.old.end → IfOk result (λ found. found ≡ Some (record { gate = gate; length = count })) }
        ensures within { IfOk result (λ found. IfSome found (λ place. (place.gate ≡ gate) × (place.gate + 5 + place.length ≤ self.old.end))) }
        ensures cause { ReadAtCause (D.told self.old.disk) (D.told self.new.disk) result }
        ensures still { IsPastRead D.told self.old self.new }
    {
        match length_at(&mut self.disk, gate + 1) {
            Ok(length) => Ok(place_before(self.end, gate, length)),
            Err(fault) => Err(fault),
        }
    }

    /// The disk as it is.
    pub fn into_disk(self) -> D
        ensures { result ≡ self.disk }
    {
        let Past { disk, .. } = self;
        disk
    }
}
