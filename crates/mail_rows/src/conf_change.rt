//! What an act of the operator changes in a configuration: made beforehand, then put in without memory.
//!
//! An effect on the configuration carries the act, since two acts may be made on one store and applied one after the other. The
//! new configuration is made ready from the one in force then.
ghost use Rattle.std.specs.Prelude.{◌≡◌, ◌≤◌, ◌<◌, [], true, not, bytes_eq, filter, length, take_while, IsTrue, IfOk, vec_len, vec_capacity};
ghost use Rattle.verb_core.specs.Step.{in_order, with_alias as alias_set, with_filter as filter_set, conf_after};
ghost use Rattle.verb_core.specs.declared.item.Deed.TheVariants.{Act as Acts};
ghost use Rattle.mail_rows.specs.declared.conf_change.ConfChange.TheVariants as changes;
ghost use Rattle.mail_rows.specs.Confs.{IsOrder, Rises, changed, has_other_id, stands_before, stands_here};

use crate::filter_order::{drop_ordered, ordered_place};
use crate::reach::recipients;
use crate::room::{insert_within, move_over};
use std::alloc::Global;
use std::{mem, slice};
use undo_base::{Copies, Name, NoMemory, Users};
use verb_core::{Act, Alias, Aliases, Filter, Filters, House};

/// What changes in a configuration.
#[derive(Drop)]
pub enum ConfChange {
    /// An alias comes in the place of the one of its local part, or where it belongs.
    SetAlias(Alias),
    /// The alias of a local part goes.
    DropAlias(Name),
    /// A filter comes in the place of the one of its name, or last.
    SetFilter(Filter),
    /// The filters of a name go.
    DropFilter(Name),
    Nothing,
}

/// The users of a list, rising, each once.
fn in_rising_order(alloc: Global, house: &House, listed: &Users) -> Result<Users, NoMemory>
    ensures { IfOk result (λ users. users ≡ in_order house.now listed.now) }
{
    if house.is_sound() {
        recipients(alloc, house, slice::from_ref(listed))
    } else {
        Err(NoMemory)
    }
}

fn new_alias(
    alloc: Global,
    house: &House,
    local: &Name,
    users: &Users,
) -> Result<ConfChange, NoMemory>
    ensures { IfOk result (λ change. change ≡ changes.SetAlias (record { local = local.now; users = in_order house.now users.now })) }
{
    let users = in_rising_order(alloc, house, users)?;
    let local = local.copy(alloc)?;
    Ok(ConfChange::SetAlias(Alias { local, users }))
}

/// What an act changes in a configuration, as large as the act.
pub fn conf_change(alloc: Global, house: &House, act: &Act) -> Result<ConfChange, NoMemory>
    ensures { IfOk result (λ change. (conf : _) → changed change conf ≡ conf_after house.now (Acts act.now) conf) }
{
    match act {
        Act::SetAlias { local, users } => new_alias(alloc, house, local, users),
        Act::DropAlias { local } => Ok(ConfChange::DropAlias(local.copy(alloc)?)),
        Act::SetFilter(filter) => Ok(ConfChange::SetFilter(filter.copy(alloc)?)),
        Act::DropFilter { id } => Ok(ConfChange::DropFilter(id.copy(alloc)?)),
        Act::Remove { .. } => Ok(ConfChange::Nothing),
        Act::Give { .. } => Ok(ConfChange::Nothing),
    }
}

/// A list with room for one item more, and an empty list: the list where it has room, or all of it moved into the spare
/// one.
fn with_room<T: Drop>(mut list: Vec<T>, mut spare: Vec<T>) -> (Vec<T>, Vec<T>)
    requires empty { spare.items ≡ [] }
    requires room { length list.items < vec_capacity spare }
    ensures list { result.0.items ≡ list.items }
    ensures room { vec_len result.0 < vec_capacity result.0 }
    ensures spare { result.1.items ≡ [] }
{
    if list.len() < list.capacity() {
        (list, spare)
    } else {
        move_over(&mut list, &mut spare);
        (spare, list)
    }
}

fn is_before(local: &Name, alias: &Alias) -> bool
    ensures { result ≡ stands_before local.now alias.now }
{
    local.bytes().cmp(alias.local.bytes()).is_gt()
}

/// Whether the local parts strictly rise.
pub(crate) fn do_rise(aliases: &[Alias]) -> bool
    ensures { result ≡ true → Rises aliases.now }
{
    aliases.is_sorted_by(|alias, next| is_before(&next.local, alias))
}

/// How many aliases stand before the one of a local part, found by halves.
fn halved_place(aliases: &[Alias], local: &Name) -> usize
    requires { Rises aliases.now }
    ensures { result ≡ length (take_while (stands_before local.now) aliases.now) }
{
    aliases.partition_point(|alias| is_before(local, alias))
}

/// The same, whatever their order.
fn walked_place(aliases: &[Alias], local: &Name) -> usize
    ensures { result ≡ length (take_while (stands_before local.now) aliases.now) }
{
    aliases
        .iter()
        .take_while(|alias| is_before(local, alias))
        .count()
}

/// How many aliases stand before the one of a local part.
fn alias_place(aliases: &[Alias], local: &Name, rising: bool) -> usize
    requires { rising ≡ true → Rises aliases.now }
    ensures { result ≡ length (take_while (stands_before local.now) aliases.now) }
{
    if rising {
        halved_place(aliases, local)
    } else {
        walked_place(aliases, local)
    }
}

/// Whether the alias at a place is that of a local part.
fn is_here(aliases: &[Alias], place: usize, local: &Name) -> bool
    ensures { result ≡ stands_here local.now place aliases.now }
{
    match aliases.get(place) {
        None => false,
        Some(alias) => local.bytes().cmp(alias.local.bytes()).is_eq(),
    }
}

fn set_alias_in(list: &mut Vec<Alias>, alias: Alias, rising: bool)
    requires rising { rising ≡ true → Rises list.old.items }
    requires room { vec_len list.old < vec_capacity list.old }
    ensures { list.new.items ≡ alias_set alias list.old.items }
{
    let place = alias_place(list.as_slice(), &alias.local, rising);
    if is_here(list.as_slice(), place, &alias.local) {
        list[place] = alias;
    } else {
        insert_within(list, place, alias);
    }
}

/// Sets an alias. The spare list has room for all. Where the local parts are known to rise, its place is found by halves.
pub(crate) fn set_alias(aliases: &mut Aliases, spare: &mut Vec<Alias>, alias: Alias, rising: bool)
    requires rising { rising ≡ true → Rises aliases.old }
    requires empty { spare.old.items ≡ [] }
    requires room { length aliases.old < vec_capacity spare.old }
    ensures aliases { aliases.new ≡ alias_set alias aliases.old }
    ensures spare { spare.new.items ≡ [] }
{
    let alloc = *spare.allocator();
    let list = mem::replace(aliases, Aliases::new(alloc)).into_vec();
    let free = mem::replace(spare, Vec::new(alloc));
    let (mut list, free) = with_room(list, free);
    set_alias_in(&mut list, alias, rising);
    *aliases = Aliases::from_vec(list);
    *spare = free;
}

/// Takes the alias of a local part out, where there is one.
fn drop_alias_there(list: &mut Vec<Alias>, local: &Name)
    requires { Rises list.old.items }
    ensures { list.new.items ≡ filter (λ a. not (bytes_eq local.now a.local)) list.old.items }
{
    let place = halved_place(list.as_slice(), local);
    if is_here(list.as_slice(), place, local) {
        list.remove(place);
    }
}

/// The same, whatever their order.
fn drop_alias_in(list: &mut Vec<Alias>, local: &Name)
    ensures { list.new.items ≡ filter (λ a. not (bytes_eq local.now a.local)) list.old.items }
{
    list.retain(|alias| local.bytes() != alias.local.bytes());
}

/// The alias of a local part goes. Where the local parts are known to rise, it is found by halves.
pub(crate) fn drop_alias(alloc: Global, aliases: &mut Aliases, local: &Name, rising: bool)
    requires { rising ≡ true → Rises aliases.old }
    ensures { aliases.new ≡ filter (λ a. not (bytes_eq local.now a.local)) aliases.old }
{
    let mut list = mem::replace(aliases, Aliases::new(alloc)).into_vec();
    if rising {
        drop_alias_there(&mut list, local);
    } else {
        drop_alias_in(&mut list, local);
    }
    *aliases = Aliases::from_vec(list);
}

fn is_other(id: &Name, filter: &Filter) -> bool
    ensures { result ≡ has_other_id id.now filter.now }
{
    id.bytes() != filter.id.bytes()
}

/// How many filters stand before the one of that name, whatever the order has.
fn walked_filter_place(filters: &[Filter], id: &Name) -> usize
    ensures { result ≡ length (take_while (has_other_id id.now) filters.now) }
{
    filters
        .iter()
        .take_while(|filter| is_other(id, filter))
        .count()
}

/// How many filters stand before the one of that name.
fn filter_place(filters: &[Filter], order: &[u32], id: &Name) -> usize
    requires { IsOrder order.now filters.now }
    ensures { result ≡ length (take_while (has_other_id id.now) filters.now) }
{
    if order.len() == filters.len() {
        ordered_place(order, filters, id.bytes())
    } else {
        walked_filter_place(filters, id)
    }
}

fn set_filter_in(list: &mut Vec<Filter>, order: &[u32], filter: Filter)
    requires order { IsOrder order.now list.old.items }
    requires room { vec_len list.old < vec_capacity list.old }
    ensures { list.new.items ≡ filter_set filter list.old.items }
{
    let place = filter_place(list.as_slice(), order, &filter.id);
    if place < list.len() {
        list[place] = filter;
    } else {
        insert_within(list, place, filter);
    }
}

/// Sets a filter. The spare list has room for all. Where the order has all filters, its place is found by halves.
pub(crate) fn set_filter(
    filters: &mut Filters,
    spare: &mut Vec<Filter>,
    order: &[u32],
    filter: Filter,
)
    requires order { IsOrder order.now filters.old }
    requires empty { spare.old.items ≡ [] }
    requires room { length filters.old < vec_capacity spare.old }
    ensures filters { filters.new ≡ filter_set filter filters.old }
    ensures spare { spare.new.items ≡ [] }
{
    let alloc = *spare.allocator();
    let list = mem::replace(filters, Filters::new(alloc)).into_vec();
    let free = mem::replace(spare, Vec::new(alloc));
    let (mut list, free) = with_room(list, free);
    set_filter_in(&mut list, order, filter);
    *filters = Filters::from_vec(list);
    *spare = free;
}

/// The filters of a name go, and no order is left.
fn drop_walked(list: &mut Vec<Filter>, order: &mut Vec<u32>, id: &Name)
    ensures list { list.new.items ≡ filter (has_other_id id.now) list.old.items }
    ensures order { order.new.items ≡ [] }
{
    list.retain(|filter| is_other(id, filter));
    order.clear();
}

#[tactic(auto, using(crate::proofs::FilterOrder::none_ordered))]
fn drop_filter_in(list: &mut Vec<Filter>, order: &mut Vec<u32>, id: &Name)
    requires { IsOrder order.old.items list.old.items }
    ensures list { list.new.items ≡ filter (has_other_id id.now) list.old.items }
    ensures order { IsOrder order.new.items list.new.items }
{
    if order.len() == list.len() {
        drop_ordered(list, order, id.bytes());
    } else {
        drop_walked(list, order, id);
    }
}

/// The filters of a name go. Where the order has all filters, the one is found by halves.
pub(crate) fn drop_filter(alloc: Global, filters: &mut Filters, order: &mut Vec<u32>, id: &Name)
    requires { IsOrder order.old.items filters.old }
    ensures filters { filters.new ≡ filter (has_other_id id.now) filters.old }
    ensures order { IsOrder order.new.items filters.new }
{
    let mut list = mem::replace(filters, Filters::new(alloc)).into_vec();
    drop_filter_in(&mut list, order, id);
    *filters = Filters::from_vec(list);
}
