//! The aliases of a document.
//!
//! The order of keys means nothing. Aliases stand by rising local part, as TOML's tables do.
ghost use Rattle.std.specs.Prelude.{◌≡◌, ◌≤◌, IfOk, IfSome, IsTrue, [], length, map, option_map, string_bytes};
ghost use Rattle.std.specs.List.{list_all, list_any};
ghost use Rattle.toml.specs.View.{view, table_view};
ghost use Rattle.house_text.specs.Documents.{each_of, entries_list};
ghost use Rattle.house_text.specs.Beginning.{aliases_rise};
ghost use Rattle.house_text.specs.Configuration as spec;

use crate::accounts::is_named;
use crate::tables::{list_of, text_of, value_at};
use crate::words::is_user_name;
use std::alloc::Global;
use toml::{Table, Value};
use undo_base::{Name, NoMemory, User, Users};
use verb_core::{Account, Alias, Aliases, Conf, Filters};

/// Whether a value is the name of a user.
fn is_user(accounts: &[Account], value: &Value) -> bool
    ensures { result ≡ spec.is_user accounts.now (view value.now) }
{
    match text_of(value) {
        Some(name) => is_named(accounts, name),
        None => false,
    }
}

fn are_all_users(accounts: &[Account], values: &[Value]) -> bool
    ensures { result ≡ list_all (λ v. spec.is_user accounts.now (view v)) values.now }
{
    values.iter().all(|value| is_user(accounts, value))
}

/// Whether there is a user name at least, and nothing else.
fn are_users(accounts: &[Account], values: &[Value]) -> bool
    ensures { result ≡ spec.are_users accounts.now (map view values.now) }
{
    1 <= values.len() && are_all_users(accounts, values)
}

/// Whether a value is that name.
fn is_name(value: &Value, name: &[u8]) -> bool
    ensures { result ≡ spec.is_text (view value.now) name.now }
{
    match text_of(value) {
        Some(text) => text == name,
        None => false,
    }
}

fn is_among(values: &[Value], name: &[u8]) -> bool
    ensures { result ≡ list_any (λ v. spec.is_text (view v) name.now) values.now }
{
    values.iter().any(|value| is_name(value, name))
}

/// Whether the name stands among the values.
fn is_listed(values: &[Value], name: &[u8]) -> bool
    ensures { result ≡ spec.is_listed (map view values.now) name.now }
{
    is_among(values, name)
}

/// The users whose names stand among the values, rising.
#[tactic(auto, using(crate::proofs::Listed::listed_more, crate::proofs::Listed::listed_less))]
fn listed_users(alloc: Global, accounts: &[Account], values: &[Value]) -> Result<Users, NoMemory>
    requires { length accounts.now ≤ 200 }
    ensures { IfOk result (λ users. users ≡ spec.listed_users accounts.now (map view values.now)) }
{
    let mut users = Users::new(alloc);
    for (place, account) in accounts.iter().enumerate() {
        if is_listed(values, account.name.bytes()) {
            users.push(User(place as u8))?;
        }
    }
    Ok(users)
}

fn is_alias(accounts: &[Account], local: &[u8]) -> bool
    ensures { result ≡ spec.is_alias accounts.now local.now }
{
    is_user_name(local) && !is_named(accounts, local)
}

#[tactic(auto, using(crate::proofs::Named::alias_name))]
fn alias_of(
    alloc: Global,
    accounts: &[Account],
    local: &[u8],
    value: &Value,
) -> Result<Option<Alias>, NoMemory>
    requires { length accounts.now ≤ 200 }
    ensures { IfOk result (λ r. r ≡ spec.alias_of accounts.now (local.now, view value.now)) }
{
    if !is_alias(accounts, local) {
        return Ok(None);
    }
    let Some(values) = list_of(value) else {
        return Ok(None);
    };
    if !are_users(accounts, values) {
        return Ok(None);
    }
    let local = Name::of(alloc, local)?;
    let users = listed_users(alloc, accounts, values)?;
    Ok(Some(Alias { local, users }))
}

/// The aliases of a table.
#[tactic(auto, using(crate::proofs::Each::aliases_none, crate::proofs::Each::aliases_more, crate::proofs::Each::aliases_bad, crate::proofs::Each::aliases_all))]
fn aliases_from(
    alloc: Global,
    accounts: &[Account],
    table: &Table,
) -> Result<Option<Aliases>, NoMemory>
    requires { length accounts.now ≤ 200 }
    ensures value { IfOk result (λ r. r ≡ each_of (spec.alias_of accounts.now) (entries_list (table_view table.now))) }
    ensures rising { IfOk result (λ r. IfSome r (λ aliases. IsTrue (aliases_rise aliases))) }
{
    let mut aliases = Aliases::new(alloc);
    for (local, value) in table.iter() {
        match alias_of(alloc, accounts, local.as_str().as_bytes(), value)? {
            Some(alias) => aliases.push(alias)?,
            None => return Ok(None),
        }
    }
    Ok(Some(aliases))
}

fn aliases_of(
    alloc: Global,
    accounts: &[Account],
    value: Option<&Value>,
) -> Result<Option<Aliases>, NoMemory>
    requires { length accounts.now ≤ 200 }
    ensures value { IfOk result (λ r. r ≡ spec.aliases_of accounts.now (option_map (λ v. view v.now) value.entry)) }
    ensures rising { IfOk result (λ r. IfSome r (λ aliases. IsTrue (aliases_rise aliases))) }
{
    let Some(value) = value else {
        return Ok(Some(Aliases::new(alloc)));
    };
    match value.as_table() {
        Some(table) => aliases_from(alloc, accounts, table),
        None => Ok(None),
    }
}

/// The opening configuration of a document.
pub fn conf_in(alloc: Global, accounts: &[Account], table: &Table) -> Result<Option<Conf>, NoMemory>
    requires { length accounts.now ≤ 200 }
    ensures value { IfOk result (λ r. r ≡ spec.conf_of accounts.now (table_view table.now)) }
    ensures known { IfOk result (λ r. IfSome r (λ conf. IsTrue (spec.are_known accounts.now conf.aliases))) }
    ensures filters { IfOk result (λ r. IfSome r (λ conf. conf.filters ≡ [])) }
    ensures rising { IfOk result (λ r. IfSome r (λ conf. IsTrue (aliases_rise conf.aliases))) }
{
    let Some(aliases) = aliases_of(alloc, accounts, value_at(table, "aliases"))? else {
        return Ok(None);
    };
    Ok(Some(Conf {
        aliases,
        filters: Filters::new(alloc),
    }))
}
