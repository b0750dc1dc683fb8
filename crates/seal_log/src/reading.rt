//! Reading a payload.
ghost use Rattle.std.specs.Prelude.{◌≡◌, ◌<◌, ◌≤◌, ◌+◌, List, ℕ, IfOk, length, slice_range};
ghost use Rattle.seal_log.specs.Causes.{ReadAtCause};
ghost use Rattle.seal_log.specs.Journal.{LiesAt};
ghost use Rattle.seal_log.specs.Settled.{Holds, IsSettled, ReadsAlone};

use crate::{Place, ReadFault};
use std::alloc::Global;
use undo_base::{NoMemory, Text};
use undo_outside::Disk;

/// So many bytes, to be read into.
fn blank(alloc: Global, count: u32) -> Result<Vec<u8>, NoMemory>
    ensures { IfOk result (λ bytes. length bytes.items ≡ count) }
{
    Ok(vec![in alloc; 0; count as usize]?)
}

/// Reads a range of a payload that lies before the gate at `end`.
pub fn read_before<D: Disk>(
    alloc: Global,
    disk: &mut D,
    end: u64,
    place: Place,
    from: u32,
    length: u32,
) -> Result<Text, ReadFault>
    requires end { end < (D.told disk.old).size }
    requires place { place.gate + 5 + place.length ≤ end }
    requires range { from + length ≤ place.length }

    ensures bytes { (D.told disk.old).honest → IfOk result (λ text.
        text ≡ slice_range (D.told disk.old).content (place.gate + 5 + from) (place.gate + 5 + from + length)) }
    ensures payload { (payloads : List (List ℕ)) (payload : List ℕ) → Holds (D.told disk.old) payloads
        → LiesAt payloads place.gate place.length payload → IfOk result (λ text. text ≡ slice_range payload from (from + length)) }
    ensures cause { ReadAtCause (D.told disk.old) (D.told disk.new) result }

    ensures settled { (gate : ℕ) (payloads : List (List ℕ)) → IsSettled (D.told disk.old) gate payloads
        → IsSettled (D.told disk.new) gate payloads }
    ensures held { (payloads : List (List ℕ)) → Holds (D.told disk.old) payloads → Holds (D.told disk.new) payloads }
    ensures only_reads { ReadsAlone (D.told disk.old) (D.told disk.new) }
{
    let mut bytes = blank(alloc, length)?;
    disk.read(place.gate + 5 + u64::from(from), &mut bytes)?;
    Ok(Text::from_vec(bytes))
}
