//! Filters by rising name: the places of the first filters, in the order of their names, so that one is found by halves.
//!
//! Filters stand in the order in which they were set; their places by rising name stand beside them. What comes last is taken in
//! when the next act of a filter is made ready, where memory may be wanting. What is dropped is taken out of both lists, with one
//! pass over the places. Nothing is there before the first such act. A second filter of one name, which no act brings but a
//! record might, ends the list of places at it, and then filters are found in one pass.
ghost use Rattle.std.specs.Prelude.{◌≡◌, ◌≤◌, ◌<◌, length, take_while, map, filter, remove, slice_index_or};
ghost use Rattle.mail_rows.specs.Confs.{RiseBy, IsOrder, comes_behind, has_other_id, id_at, is_ranked, lowered as brought_down};

use undo_base::NoMemory;
use verb_core::Filter;

/// How many places an order has at most.
const MOST_PLACES: usize = 4_294_967_295;

/// The name of the filter at a place.
fn id_at(filters: &[Filter], place: u32) -> &[u8]
    ensures { result.now ≡ id_at filters.now place }
{
    match filters.get(place as usize) {
        None => &[],
        Some(filter) => filter.id.bytes(),
    }
}

/// How many filters of the order have names before this one, found by halves.
fn rank_of(order: &[u32], filters: &[Filter], id: &[u8]) -> usize
    requires { RiseBy (id_at filters.now) order.now }
    ensures { result ≡ length (take_while (comes_behind id.now filters.now) order.now) }
{
    order.partition_point(|place| id.cmp(id_at(filters, *place)).is_gt())
}

/// Whether the filter of that rank has the name.
fn is_ranked(order: &[u32], filters: &[Filter], id: &[u8], rank: usize) -> bool
    ensures { result ≡ is_ranked id.now filters.now order.now rank }
{
    match order.get(rank) {
        None => false,
        Some(place) => id == id_at(filters, *place),
    }
}

/// How many filters stand before the one of a name, where all of them are in the order.
pub(crate) fn ordered_place(order: &[u32], filters: &[Filter], id: &[u8]) -> usize
    requires order { IsOrder order.now filters.now }
    requires all { length order.now ≡ length filters.now }
    ensures { result ≡ length (take_while (has_other_id id.now) filters.now) }
{
    let rank = rank_of(order, filters, id);
    if is_ranked(order, filters, id, rank) {
        order[rank] as usize
    } else {
        filters.len()
    }
}

/// Takes the next filter into the order, where its name is a new one, and says whether it did.
fn note_next(order: &mut Vec<u32>, filters: &[Filter]) -> Result<bool, NoMemory>
    requires { IsOrder order.old.items filters.now }
    ensures { IsOrder order.new.items filters.now }
{
    if order.len() >= filters.len() || order.len() >= MOST_PLACES {
        return Ok(false);
    }
    let place = order.len() as u32;
    let id = id_at(filters, place);
    let rank = rank_of(order.as_slice(), filters, id);
    if is_ranked(order.as_slice(), filters, id, rank) {
        return Ok(false);
    }
    order.insert(rank, place)?;
    Ok(true)
}

/// Takes into the order the filters that it lacks, up to the first whose name an earlier one has.
pub(crate) fn note_all(order: &mut Vec<u32>, filters: &[Filter]) -> Result<(), NoMemory>
    requires { IsOrder order.old.items filters.now }
    ensures { IsOrder order.new.items filters.now }
{
    for _ in order.len()..filters.len() {
        if !note_next(order, filters)? {
            return Ok(());
        }
    }
    Ok(())
}

fn lowered(gone: u32, place: u32) -> u32
    ensures { result ≡ brought_down gone place }
{
    if gone < place { place - 1 } else { place }
}

/// The places after one that is gone come one down.
fn lower(order: &mut Vec<u32>, gone: u32)
    ensures { order.new.items ≡ map (brought_down gone) order.old.items }
{
    for place in order.iter_mut() {
        *place = lowered(gone, *place);
    }
}

/// Takes a rank out of the order, and says which place it had.
fn take_rank(order: &mut Vec<u32>, rank: usize) -> u32
    requires { rank < length order.old.items }
    ensures order { order.new.items ≡ map (brought_down result) (remove order.old.items rank) }
    ensures place { result ≡ slice_index_or order.old.items rank result }
{
    let place = order.remove(rank);
    lower(order, place);
    place
}

fn take_out(list: &mut Vec<Filter>, place: usize)
    requires { place < length list.old.items }
    ensures { list.new.items ≡ remove list.old.items place }
{
    list.remove(place);
}

/// The filter of a name goes, where all are in the order, which follows.
pub(crate) fn drop_ordered(list: &mut Vec<Filter>, order: &mut Vec<u32>, id: &[u8])
    requires order { IsOrder order.old.items list.old.items }
    requires all { length order.old.items ≡ length list.old.items }
    ensures list { list.new.items ≡ filter (has_other_id id.now) list.old.items }
    ensures order { IsOrder order.new.items list.new.items }
{
    let rank = rank_of(order.as_slice(), list.as_slice(), id);
    if is_ranked(order.as_slice(), list.as_slice(), id, rank) {
        let place = take_rank(order, rank);
        take_out(list, place as usize);
    }
}
