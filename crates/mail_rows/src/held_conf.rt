//! The configuration in force, and the change that is ready for it.
//!
//! A configuration in force keeps whether the local parts of its aliases are known to rise, as those of a configuration's text do
//! and as acts leave them. One pass when a store is made finds it out, since a record may hold any list. Where they rise an act
//! finds its alias by halves, and moves those behind it; elsewhere in one pass.
//!
//! Aliases that are set by falling or mixed names cost the square of their number: each is found by halves and moves those behind
//! it, 48 octets each. The configuration is lent as one list in its order, to deliveries and to the console, so aliases can't
//! stand in a tree. Smaller aliases in the model's crate would make it a tenth, and would be felt by all that reads one.
ghost use Rattle.std.specs.Prelude.{◌≡◌, ◌<◌, [], None, Some, true, IfOk, OnOk, length, unwrap_or, vec_capacity};
ghost use Rattle.verb_core.specs.declared.item.Deed.TheVariants.{Act as Acts};
ghost use Rattle.verb_core.specs.Step.{conf_after};
ghost use Rattle.mail_rows.specs.Confs.{IsOrder, Rises, changed, IsRoomy};

use crate::conf_change::{
    ConfChange, conf_change, do_rise, drop_alias, drop_filter, set_alias, set_filter,
};
use crate::filter_order::note_all;
use std::alloc::Global;
use std::marker::Model;
use undo_base::NoMemory;
use verb_core::{Act, Alias, Conf, Filter, House};

/// How many aliases or filters a configuration has at most.
const MOST_HELD: usize = 4_294_967_295;

/// The configuration in force; whether its aliases' local parts are known to rise, as those of a configuration's text do, so that
/// one is found by halves. The places of its first filters by rising name, all of them once a change of filters is ready, unless
/// two have one name. What is to change in it, and empty lists that have room for all, where the configuration's own have none
/// left.
#[derive(Drop)]
pub struct HeldConf {
    conf: Conf,
    rising: bool,
    order: Vec<u32>,
    ready: Option<ConfChange>,
    aliases: Vec<Alias>,
    filters: Vec<Filter>,
}

impl Model for HeldConf {
    ghost use Rattle.std.specs.Prelude.{◌≡◌, [], true, option_map, vec_capacity};
    ghost use Rattle.mail_rows.specs.Confs.{Held, IsOrder, Rises, changed, IsRoomy};

    ghost Value = { Held };

    ghost view = { λ s. record { conf = s.conf; ready = option_map (λ change. changed change s.conf) s.ready } };

    ghost invariant = { λ s. (s.rising ≡ true → Rises s.conf.aliases) × IsOrder s.order.items s.conf.filters × (s.aliases.items ≡ []) × (s.filters.items ≡ []) × IsRoomy s.ready s.conf (vec_capacity s.aliases) (vec_capacity s.filters) };
}

/// Makes an empty list larger than so many items, and then twice as large as it must be.
fn make_larger<T: Drop>(alloc: Global, list: &mut Vec<T>, count: usize) -> Result<(), NoMemory>
    requires { list.old.items ≡ [] }
    ensures empty { list.new.items ≡ [] }
    ensures room { OnOk result (count < vec_capacity list.new) }
{
    if count < list.capacity() {
        return Ok(());
    }
    if count > MOST_HELD {
        return Err(NoMemory);
    }
    *list = Vec::with_capacity(alloc, 2 * count + 1)?;
    Ok(())
}

/// Makes the empty list ready that a change needs.
fn make_room(
    alloc: Global,
    conf: &Conf,
    change: &ConfChange,
    aliases: &mut Vec<Alias>,
    filters: &mut Vec<Filter>,
) -> Result<(), NoMemory>
    requires aliases { aliases.old.items ≡ [] }
    requires filters { filters.old.items ≡ [] }
    ensures aliases { aliases.new.items ≡ [] }
    ensures filters { filters.new.items ≡ [] }
    ensures room { OnOk result (IsRoomy (Some change.now) conf.now (vec_capacity aliases.new) (vec_capacity filters.new)) }
{
    match change {
        ConfChange::SetAlias(_) => make_larger(alloc, aliases, conf.aliases.len()),
        ConfChange::SetFilter(_) => make_larger(alloc, filters, conf.filters.len()),
        ConfChange::DropAlias(_) => Ok(()),
        ConfChange::DropFilter(_) => Ok(()),
        ConfChange::Nothing => Ok(()),
    }
}

/// Takes into the order the filters that it lacks, where a change needs it.
fn make_order(order: &mut Vec<u32>, conf: &Conf, change: &ConfChange) -> Result<(), NoMemory>
    requires { IsOrder order.old.items conf.now.filters }
    ensures { IsOrder order.new.items conf.now.filters }
{
    match change {
        ConfChange::SetFilter(_) => note_all(order, conf.filters.as_slice()),
        ConfChange::DropFilter(_) => note_all(order, conf.filters.as_slice()),
        ConfChange::SetAlias(_) => Ok(()),
        ConfChange::DropAlias(_) => Ok(()),
        ConfChange::Nothing => Ok(()),
    }
}

/// Puts a change into a configuration. There is room for it.
#[tactic(auto, using(crate::proofs::AliasOrder::rises_with, crate::proofs::AliasOrder::rises_filter))]
fn put_change(
    alloc: Global,
    conf: &mut Conf,
    rising: bool,
    order: &mut Vec<u32>,
    aliases: &mut Vec<Alias>,
    filters: &mut Vec<Filter>,
    change: ConfChange,
)
    requires rising { rising ≡ true → Rises conf.old.aliases }
    requires order { IsOrder order.old.items conf.old.filters }
    requires aliases { aliases.old.items ≡ [] }
    requires filters { filters.old.items ≡ [] }
    requires room { IsRoomy (Some change) conf.old (vec_capacity aliases.old) (vec_capacity filters.old) }
    ensures conf { conf.new ≡ changed change conf.old }
    ensures rising { rising ≡ true → Rises conf.new.aliases }
    ensures order { IsOrder order.new.items conf.new.filters }
    ensures aliases { aliases.new.items ≡ [] }
    ensures filters { filters.new.items ≡ [] }
{
    match change {
        ConfChange::SetAlias(alias) => set_alias(&mut conf.aliases, aliases, alias, rising),
        ConfChange::DropAlias(local) => drop_alias(alloc, &mut conf.aliases, &local, rising),
        ConfChange::SetFilter(filter) => {
            set_filter(&mut conf.filters, filters, order.as_slice(), filter)
        }
        ConfChange::DropFilter(id) => drop_filter(alloc, &mut conf.filters, order, &id),
        ConfChange::Nothing => {}
    }
}

impl HeldConf {
    /// A configuration for which nothing is ready.
    #[tactic(auto, using(crate::proofs::FilterOrder::none_ordered))]
    pub fn new(alloc: Global, conf: Conf) -> HeldConf
        ensures { result ≡ record { conf = conf; ready = None } }
    {
        let rising = do_rise(conf.aliases.as_slice());
        HeldConf {
            conf,
            rising,
            order: Vec::new(alloc),
            ready: None,
            aliases: Vec::new(alloc),
            filters: Vec::new(alloc),
        }
    }

    /// The configuration in force.
    pub fn conf(&self) -> &Conf
        ensures { result.now ≡ self.now.conf }
    {
        &self.conf
    }

    /// Makes ready what an act changes, so that doing it takes no memory.
    pub fn make_ready(&mut self, alloc: Global, house: &House, act: &Act) -> Result<(), NoMemory>
        ensures conf { self.new.conf ≡ self.old.conf }
        ensures ready { OnOk result (self.new.ready ≡ Some (conf_after house.now (Acts act.now) self.old.conf)) }
    {
        let change = conf_change(alloc, house, act)?;
        self.ready = None;
        make_order(&mut self.order, &self.conf, &change)?;
        make_room(
            alloc,
            &self.conf,
            &change,
            &mut self.aliases,
            &mut self.filters,
        )?;
        self.ready = Some(change);
        Ok(())
    }

    /// Does what is ready, where something is. It takes no memory.
    pub fn change(&mut self)
        ensures { self.new.conf ≡ unwrap_or self.old.ready self.old.conf }
    {
        let alloc = *self.aliases.allocator();
        if let Some(change) = self.ready.take() {
            put_change(
                alloc,
                &mut self.conf,
                self.rising,
                &mut self.order,
                &mut self.aliases,
                &mut self.filters,
                change,
            );
        }
    }
}
