//! Where a timeline is cut.
//!
//! A point is looked for in the timeline as it is. The numbers of cycles, of dropped items and of what an earlier cycle took out
//! are no points; those of notices and of acts that came in are.
ghost use Rattle.std.specs.Prelude.{◌≡◌, ◌≤◌, ◌==◌, length, IfSome};
ghost use Rattle.std.specs.List.{position_from};
ghost use Rattle.verb_core.specs.declared.item.Item.{Item as TheItem};
ghost use Rattle.repair_desk.specs.Repairs.{position};

use stored_items::StoredItem;

/// The place of the item of a number, from 1.
fn place_of(timeline: &[StoredItem], number: u32) -> Option<usize>
    ensures place { result ≡ position_from (λ (i : TheItem). i.number == number) 1 timeline.now }
    ensures within { IfSome result (λ place. place ≤ length timeline.now) }
{
    for (index, item) in timeline.iter().enumerate() {
        if item.item().number == number {
            return Some(index + 1);
        }
    }
    None
}

/// How many items stand through a point, where the timeline has it: what `edit` refuses can be told by it before a number is
/// asked for.
pub fn position_of(timeline: &[StoredItem], point: u32) -> Option<usize>
    ensures place { result ≡ position timeline.now point }
    ensures within { IfSome result (λ place. place ≤ length timeline.now) }
{
    if point == 0 {
        Some(0)
    } else {
        place_of(timeline, point)
    }
}
