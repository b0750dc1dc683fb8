//! A range of a payload that is not read.
ghost use Rattle.std.specs.Prelude.{◌≡◌, ◌<◌, ◌≤◌, ◌+◌, List, ℕ, length, slice_range};
ghost use Rattle.seal_log.specs.Journal.{LiesAt};
ghost use Rattle.seal_log.specs.Settled.{Holds};

use crate::Place;
use undo_base::{PastText, Shows, Text};
use undo_outside::Disk;

/// So many bytes of a disk from a place on, which are not read.
#[derive(Drop)]
struct DiskRange<'a, D: Disk> {
    disk: &'a D,
    at: u64,
    count: u32,
}

impl<'a, D: Disk> Shows<Text> for DiskRange<'a, D> {
    ghost use Rattle.seal_log.specs.Unread.{bytes_there};

    ghost shown = { λ u. bytes_there (D.told u.disk.now).content u.at u.count };
}

/// A range of a payload that lies before the gate at `end`, as clauses see it. It calls nothing of the disk.
pub fn unread<D: Disk>(disk: &D, end: u64, place: Place, from: u32, count: u32) -> PastText
    requires end { end < (D.told disk.now).size }
    requires place { place.gate + 5 + place.length ≤ end }
    requires range { from + count ≤ place.length }
    ensures count { length result ≡ count }
    ensures payload { (payloads : List (List ℕ)) (payload : List ℕ) → Holds (D.told disk.now) payloads
        → LiesAt payloads place.gate place.length payload → result ≡ slice_range payload from (from + count) }
{
    let range = DiskRange {
        disk,
        at: place.gate + 5 + u64::from(from),
        count,
    };
    PastText::shown_by(&range, count)
}
