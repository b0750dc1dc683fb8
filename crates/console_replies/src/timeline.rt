//! Items of the timeline.
//!
//! A row shows the mailbox that its deed names first: the source of COPY and RENAME, and that of the acts REMOVE and GIVE. Of
//! DELIVER, LIST, NOTICE and the acts on aliases and filters it is `""`. A user who is not known has the name `""`.
ghost use Rattle.std.specs.Prelude.{◌≡◌, IfOk, map, option_map, unwrap_or, []};
ghost use Rattle.serde_json.specs.View.{view, items_view, items_of};
ghost use Rattle.serde_json.specs.Written.{compact_text};
ghost use Rattle.paradox.specs.Letters.{user_name as name_of_user};
ghost use Rattle.console_replies.specs.Timeline.{actor_name as name_of_actor, item_data, timeline_data};

use crate::objects::{with_list, with_number, with_text};
use crate::text::{name_text, text_of};
use serde_json::{Map, Value};
use std::alloc::{AllocError, Global};
use stored_items::StoredItem;
use undo_base::{Name, NoMemory, Text, User};
use verb_core::{House, Item};

/// A name, or no bytes.
fn name_or_none(name: Option<&Name>) -> &str
    ensures { result.now ≡ unwrap_or (option_map (λ n. n.now) name.entry) [] }
{
    match name {
        None => "",
        Some(name) => name_text(name),
    }
}

/// The user's name, or no bytes.
pub fn user_name(house: &House, user: User) -> &str
    ensures { result.now ≡ name_of_user house.now user }
{
    match house.accounts.get(user.0 as usize) {
        None => "",
        Some(account) => name_text(&account.name),
    }
}

fn actor_name(house: &House, by: Option<User>) -> &str
    ensures { result.now ≡ name_of_actor house.now by }
{
    match by {
        None => "",
        Some(user) => user_name(house, user),
    }
}

fn item_value(alloc: Global, house: &House, item: &Item) -> Result<Value, AllocError>
    ensures { IfOk result (λ v. view v ≡ item_data house.now item.now) }
{
    let members = with_number(alloc, Map::new(alloc), "at", item.at)?;
    let members = with_text(alloc, members, "box", name_or_none(item.deed.mailbox()))?;
    let members = with_text(alloc, members, "by", actor_name(house, item.by))?;
    let members = with_number(alloc, members, "number", u64::from(item.number))?;
    let members = with_text(alloc, members, "verb", item.deed.word())?;
    Ok(Value::Object(members))
}

/// An item whose text is not in memory: none of it is told.
fn stored_value(alloc: Global, house: &House, item: &StoredItem) -> Result<Value, AllocError>
    ensures { IfOk result (λ v. view v ≡ item_data house.now item.now) }
{
    item_value(alloc, house, item.item())
}

fn item_values(alloc: Global, house: &House, items: &[StoredItem]) -> Result<Vec<Value>, AllocError>
    ensures { IfOk result (λ v. items_view v.items ≡ items_of (map (item_data house.now) items.now)) }
{
    let mut values = Vec::new(alloc);
    for item in items {
        values.push(stored_value(alloc, house, item)?)?;
    }
    Ok(values)
}

fn timeline_value(alloc: Global, house: &House, items: &[StoredItem]) -> Result<Value, AllocError>
    ensures { IfOk result (λ v. view v ≡ timeline_data house.now items.now) }
{
    let values = item_values(alloc, house, items)?;
    let members = with_list(alloc, Map::new(alloc), "items", values)?;
    Ok(Value::Object(members))
}

/// The answer to GET /timeline: items in order, of which the desk tells at most 1,000.
#[tactic(auto, using(crate::proofs::Floats::timeline_has_none))]
pub fn timeline_json(alloc: Global, house: &House, items: &[StoredItem]) -> Result<Text, NoMemory>
    ensures { IfOk result (λ text. text ≡ compact_text (timeline_data house.now items.now)) }
{
    text_of(alloc, timeline_value(alloc, house, items)?)
}
