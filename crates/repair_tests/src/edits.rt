//! A repair of a timeline by all that an ask can hold.
ghost use Rattle.std.specs.Prelude.{◌≤◌, length, IfOk};

use repair_desk::{EditRefused, Edited, edit};
use std::alloc::Global;
use std::test::Fail;
use stored_items::{StoredItem, StoredItems};
use undo_base::{Name, Names, Numbers, Text, User};
use verb_bytes::{Acts, CycleAsk, Replaces};
use verb_core::{Act, Deed, Item, Shown};

const AT: u64 = 1105092000;

fn mail(alloc: Global) -> Result<Deed, Fail> {
    let text = Text::of(alloc, b"old")?;
    Ok(Deed::Deliver {
        from: Text::new(alloc),
        to: Names::new(alloc),
        text,
    })
}

fn list(alloc: Global) -> Deed {
    Deed::List {
        pattern: Text::new(alloc),
    }
}

fn item(alloc: Global, number: u32, by: Option<User>, deed: Deed) -> StoredItem {
    let item = Item {
        number,
        at: AT,
        by,
        rev: 0,
        deed,
        shown: Shown::Nothing,
    };
    StoredItem::of(alloc, item)
}

/// Two mails, each with a LIST of ann's behind it.
pub(crate) fn timeline(alloc: Global) -> Result<StoredItems, Fail> {
    let mut items = StoredItems::new(alloc);
    items.push(item(alloc, 2, None, mail(alloc)?))?;
    items.push(item(alloc, 3, Some(User(0)), list(alloc)))?;
    items.push(item(alloc, 4, None, mail(alloc)?))?;
    items.push(item(alloc, 5, Some(User(0)), list(alloc)))?;
    Ok(items)
}

fn numbers(alloc: Global, list: &[u32]) -> Result<Numbers, Fail> {
    Ok(Numbers::from_vec(Vec::from_slice(alloc, list)?))
}

/// New texts for a mail and for a LIST, which has none.
fn replaces(alloc: Global) -> Result<Replaces, Fail> {
    let mut replaces = Replaces::new(alloc);
    replaces.push((4, Text::of(alloc, b"newer")?))?;
    replaces.push((3, Text::of(alloc, b"vain")?))?;
    Ok(replaces)
}

fn one_act(alloc: Global) -> Result<Acts, Fail>
    ensures { IfOk result (λ acts. length acts ≤ 1) }
{
    let local = Name::read(alloc, b"desk")?;
    let mut acts = Acts::new(alloc);
    acts.push(Act::DropAlias { local })?;
    Ok(acts)
}

fn ask(alloc: Global, point: u32) -> Result<CycleAsk, Fail>
    ensures { IfOk result (λ ask. length ask.inserts ≤ 1) }
{
    let inserts = one_act(alloc)?;
    Ok(CycleAsk {
        key: Name::read(alloc, b"k1")?,
        point,
        drops: numbers(alloc, &[9, 5])?,
        replaces: replaces(alloc)?,
        inserts,
    })
}

pub(crate) fn edited(
    alloc: Global,
    timeline: &StoredItems,
    point: u32,
) -> Result<Result<Edited, EditRefused>, Fail> {
    let ask = ask(alloc, point)?;
    let found = edit(alloc, timeline, &ask, 8, AT);
    drop(ask);
    Ok(found)
}

pub(crate) fn are_items(items: &StoredItems, wanted: &[(u32, u32)]) -> bool {
    items.len() == wanted.len()
        && items.iter().zip(wanted).all(|(item, told)| item.item().number == told.0
            && item.item().rev == told.1)
}

fn are_numbers(numbers: &Numbers, wanted: &[u32]) -> bool {
    numbers.as_slice() == wanted
}

/// Whether it is a mail whose text has so many bytes, none of which is kept.
fn has_text(item: &StoredItem, wanted: u32) -> bool {
    match &item.item().deed {
        Deed::Deliver { text, .. } => text.bytes().is_empty() && item.size() == Some(wanted),
        _ => false,
    }
}

pub(crate) fn has_text_at(items: &StoredItems, place: usize, wanted: u32) -> bool {
    match items.get(place) {
        Some(item) => has_text(item, wanted),
        None => false,
    }
}

/// Item 2 stays, the act comes in as item 9, item 4 has its new text and 5 is withdrawn.
fn is_repaired(edited: &Edited) -> bool {
    are_items(&edited.items, &[(2, 0), (9, 0), (3, 0), (4, 8)])
        && has_text_at(&edited.items, 0, 3)
        && has_text_at(&edited.items, 3, 5)
        && edited.kept == 2
        && are_items(&edited.withdrawn, &[(5, 0)])
        && are_numbers(&edited.unmatched, &[9, 3])
}

fn is_right(found: &Result<Edited, EditRefused>) -> bool {
    match found {
        Ok(edited) => is_repaired(edited),
        Err(_) => false,
    }
}

fn is_point_refused(found: &Result<Edited, EditRefused>, point: u32) -> bool {
    match found {
        Ok(_) => false,
        Err(EditRefused::Point { given }) => *given == point,
        Err(EditRefused::NoMemory) => false,
    }
}

/// Whether the cycle from a point repairs the timeline.
fn repairs(alloc: Global, timeline: &StoredItems, point: u32) -> Result<bool, Fail> {
    let found = edited(alloc, timeline, point)?;
    let right = is_right(&found);
    drop(found);
    Ok(right)
}

/// Whether it is refused for its point.
fn refuses(alloc: Global, timeline: &StoredItems, point: u32) -> Result<bool, Fail> {
    let found = edited(alloc, timeline, point)?;
    let refused = is_point_refused(&found, point);
    drop(found);
    Ok(refused)
}

fn repairs_and_refuses(alloc: Global, timeline: &StoredItems) -> Result<(bool, bool), Fail> {
    let repaired = repairs(alloc, timeline, 2)?;
    Ok((repaired, refuses(alloc, timeline, 6)?))
}

#[test]
fn a_timeline_is_repaired(rt: HostRuntime) -> Result<(), Fail> {
    let timeline = timeline(rt.alloc())?;
    let told = repairs_and_refuses(rt.alloc(), &timeline);
    drop(timeline);
    let (repaired, refused) = told?;
    assert!(rt; repaired);
    assert!(rt; refused);
    Ok(())
}
