//! Configurations.
//!
//! `/conf` puts each alias under its local part, in byte order.
ghost use Rattle.std.specs.Prelude.{◌≡◌, IfOk, OnOk, codes, map};
ghost use Rattle.serde_json.specs.Data.{array, member, no_members, object, put, string};
ghost use Rattle.serde_json.specs.View.{view, items_view, items_of, members_view};
ghost use Rattle.serde_json.specs.Written.{compact_text};
ghost use Rattle.console_replies.specs.Confs.{user_data, users_data, put_alias as with_alias, aliases_members, file_data, plain_data, worded_members, filter_data, conf_data};

use crate::objects::{Members, with_list, with_text, with_value};
use crate::text::{name_text, text_of};
use crate::timeline::user_name;
use serde_json::{Map, Value, put as put_member};
use std::alloc::{AllocError, Global};
use undo_base::{Name, NoMemory, Text, User};
use verb_core::{Alias, Conf, Filter, House, Scope};

fn user_value(alloc: Global, house: &House, user: User) -> Result<Value, AllocError>
    ensures { IfOk result (λ v. view v ≡ user_data house.now user) }
{
    Value::try_from_str(alloc, user_name(house, user))
}

fn user_values(alloc: Global, house: &House, users: &[User]) -> Result<Vec<Value>, AllocError>
    ensures { IfOk result (λ v. items_view v.items ≡ items_of (map (user_data house.now) users.now)) }
{
    let mut values = Vec::new(alloc);
    for user in users {
        values.push(user_value(alloc, house, *user)?)?;
    }
    Ok(values)
}

fn users_value(alloc: Global, house: &House, users: &[User]) -> Result<Value, AllocError>
    ensures { IfOk result (λ v. view v ≡ users_data house.now users.now) }
{
    Ok(Value::Array(user_values(alloc, house, users)?))
}

fn put_alias(
    alloc: Global,
    house: &House,
    members: &mut Map<String, Value>,
    alias: &Alias,
) -> Result<(), AllocError>
    ensures { OnOk result (members_view members.new.entries ≡ with_alias house.now (members_view members.old.entries) alias.now) }
{
    let users = users_value(alloc, house, alias.users.as_slice())?;
    put_member(members, alloc, name_text(&alias.local), users)
}

#[tactic(auto, using(crate::proofs::Members::aliases_more))]
fn alias_values(
    alloc: Global,
    house: &House,
    aliases: &[Alias],
) -> Result<Map<String, Value>, AllocError>
    ensures { IfOk result (λ m. members_view m.entries ≡ aliases_members house.now aliases.now) }
{
    let mut members = Map::new(alloc);
    for alias in aliases {
        put_alias(alloc, house, &mut members, alias)?;
    }
    Ok(members)
}

fn file_value(alloc: Global, file: &Option<Name>) -> Result<Value, AllocError>
    ensures { IfOk result (λ v. view v ≡ file_data file.now) }
{
    match file {
        None => Ok(Value::Null),
        Some(name) => Value::try_from_str(alloc, name_text(name)),
    }
}

fn with_file(alloc: Global, members: Members, file: &Option<Name>) -> Result<Members, AllocError>
    ensures { IfOk result (λ m. members_view m.entries ≡ put (codes "file") (file_data file.now) (members_view members.entries)) }
{
    let value = file_value(alloc, file)?;
    with_value(alloc, members, "file", value)
}

/// A filter's file, its name and its needle.
fn filter_members(alloc: Global, filter: &Filter) -> Result<Members, AllocError>
    ensures { IfOk result (λ m. members_view m.entries ≡ member (codes "file") (file_data filter.now.file) (member (codes "name") (string filter.now.id) (member (codes "needle") (string filter.now.needle) no_members))) }
{
    let members = with_file(alloc, Map::new(alloc), &filter.file)?;
    let members = with_text(alloc, members, "name", name_text(&filter.id))?;
    with_text(alloc, members, "needle", name_text(&filter.needle))
}

/// A filter that looks in the body.
fn plain_value(alloc: Global, filter: &Filter) -> Result<Value, AllocError>
    ensures { IfOk result (λ v. view v ≡ plain_data filter.now) }
{
    Ok(Value::Object(filter_members(alloc, filter)?))
}

/// A filter that looks where a word says.
fn worded(alloc: Global, filter: &Filter, word: &str) -> Result<Members, AllocError>
    ensures { IfOk result (λ m. members_view m.entries ≡ worded_members filter.now word.now) }
{
    let members = filter_members(alloc, filter)?;
    with_text(alloc, members, "scope", word)
}

fn worded_value(alloc: Global, filter: &Filter, word: &str) -> Result<Value, AllocError>
    ensures { IfOk result (λ v. view v ≡ object (worded_members filter.now word.now)) }
{
    Ok(Value::Object(worded(alloc, filter, word)?))
}

/// A filter that looks at a header field.
fn field_value(alloc: Global, filter: &Filter, field: &Name) -> Result<Value, AllocError>
    ensures { IfOk result (λ v. view v ≡ object (member (codes "field") (string field.now) (worded_members filter.now (codes "header")))) }
{
    let members = worded(alloc, filter, "header")?;
    let members = with_text(alloc, members, "field", name_text(field))?;
    Ok(Value::Object(members))
}

fn filter_value(alloc: Global, filter: &Filter) -> Result<Value, AllocError>
    ensures { IfOk result (λ v. view v ≡ filter_data filter.now) }
{
    match &filter.scope {
        Scope::Body => plain_value(alloc, filter),
        Scope::Field(field) => field_value(alloc, filter, field),
        Scope::Sender => worded_value(alloc, filter, "sender"),
        Scope::Recipient => worded_value(alloc, filter, "recipient"),
    }
}

fn filter_values(alloc: Global, filters: &[Filter]) -> Result<Vec<Value>, AllocError>
    ensures { IfOk result (λ v. items_view v.items ≡ items_of (map filter_data filters.now)) }
{
    let mut values = Vec::new(alloc);
    for filter in filters {
        values.push(filter_value(alloc, filter)?)?;
    }
    Ok(values)
}

fn with_filters(alloc: Global, members: Members, filters: &[Filter]) -> Result<Members, AllocError>
    ensures { IfOk result (λ m. members_view m.entries ≡ put (codes "filters") (array (items_of (map filter_data filters.now))) (members_view members.entries)) }
{
    let values = filter_values(alloc, filters)?;
    with_list(alloc, members, "filters", values)
}

fn conf_value(alloc: Global, house: &House, conf: &Conf) -> Result<Value, AllocError>
    ensures { IfOk result (λ v. view v ≡ conf_data house.now conf.now) }
{
    let aliases = alias_values(alloc, house, conf.aliases.as_slice())?;
    let members = with_value(alloc, Map::new(alloc), "aliases", Value::Object(aliases))?;
    let members = with_filters(alloc, members, conf.filters.as_slice())?;
    Ok(Value::Object(members))
}

/// The answer to GET /conf.
#[tactic(auto, using(crate::proofs::Floats::conf_has_none))]
pub fn conf_json(alloc: Global, house: &House, conf: &Conf) -> Result<Text, NoMemory>
    ensures { IfOk result (λ text. text ≡ compact_text (conf_data house.now conf.now)) }
{
    text_of(alloc, conf_value(alloc, house, conf)?)
}
