//! The house of a document.
ghost use Rattle.std.specs.Prelude.{◌≡◌, ◌≤◌, true, IfOk, IfSome, IsTrue, length, map, option_map};
ghost use Rattle.std.specs.Str.{str_to_ascii_lowercase};
ghost use Rattle.toml.specs.View.{view, table_view};
ghost use Rattle.undo_base.specs.Name.{is_name};
ghost use Rattle.verb_core.specs.Store.{is_house};
ghost use Rattle.house_text.specs.Documents.{each_of};
ghost use Rattle.house_text.specs.Configuration as spec;

use crate::accounts::{accounts_in, postmaster_in};
use crate::tables::{list_at, text_at, text_of, value_at};
use crate::words::{are_distinct, is_host};
use std::alloc::Global;
use toml::{Table, Value};
use undo_base::{LAST_NUMBER, Name, Names, NoMemory};
use verb_core::House;

#[tactic(auto, using(crate::proofs::Named::host_name))]
fn host_in(alloc: Global, table: &Table) -> Result<Option<Name>, NoMemory>
    ensures { IfOk result (λ r. r ≡ spec.host_of (table_view table.now)) }
{
    let Some(text) = text_at(table, "host") else {
        return Ok(None);
    };
    if !is_host(text) {
        return Ok(None);
    }
    Ok(Some(Name::of(alloc, text)?))
}

/// A name of bytes that are one, in lower case.
fn lowered(alloc: Global, text: &[u8]) -> Result<Name, NoMemory>
    requires { is_name text.now ≡ true }
    ensures { IfOk result (λ name. name ≡ str_to_ascii_lowercase text.now) }
{
    let name = Name::of(alloc, text)?;
    name.lower(alloc)
}

#[tactic(auto, using(crate::proofs::Named::host_name))]
fn domain_of(alloc: Global, value: &Value) -> Result<Option<Name>, NoMemory>
    ensures { IfOk result (λ r. r ≡ spec.domain_of (view value.now)) }
{
    let Some(text) = text_of(value) else {
        return Ok(None);
    };
    if !is_host(text) {
        return Ok(None);
    }
    Ok(Some(lowered(alloc, text)?))
}

/// The domains of a list.
#[tactic(auto, using(crate::proofs::Each::domains_none, crate::proofs::Each::domains_more, crate::proofs::Each::domains_bad))]
fn domains_from(alloc: Global, values: &[Value]) -> Result<Option<Names>, NoMemory>
    ensures { IfOk result (λ r. r ≡ each_of spec.domain_of (map view values.now)) }
{
    let mut domains = Names::new(alloc);
    for value in values {
        match domain_of(alloc, value)? {
            Some(domain) => domains.push(domain)?,
            None => return Ok(None),
        }
    }
    Ok(Some(domains))
}

fn are_domains(domains: &[Name]) -> bool
    ensures { result ≡ spec.are_domains domains.now }
{
    1 <= domains.len() && are_distinct(domains)
}

fn domains_in(alloc: Global, table: &Table) -> Result<Option<Names>, NoMemory>
    ensures { IfOk result (λ r. r ≡ spec.domains_of (table_view table.now)) }
{
    let Some(values) = list_at(table, "domains") else {
        return Ok(None);
    };
    let Some(domains) = domains_from(alloc, values)? else {
        return Ok(None);
    };
    if are_domains(domains.as_slice()) {
        Ok(Some(domains))
    } else {
        Ok(None)
    }
}

/// The first number that an item can have.
fn first_of(value: Option<&Value>) -> Option<u32>
    ensures value { result ≡ spec.first_of (option_map (λ v. view v.now) value.entry) }
    ensures bounds { IfSome result (λ n. (2 ≤ n) × (n ≤ LAST_NUMBER)) }
{
    let Some(value) = value else {
        return Some(2);
    };
    let number = value.as_integer()?;
    if number < 2 || number > i64::from(LAST_NUMBER) {
        return None;
    }
    Some(number as u32)
}

/// The house of a document.
#[tactic(auto, using(crate::proofs::Sound::house_sound))]
pub fn house_in(alloc: Global, table: &Table) -> Result<Option<House>, NoMemory>
    ensures value { IfOk result (λ r. r ≡ spec.house_of (table_view table.now)) }
    ensures sound { IfOk result (λ r. IfSome r (λ house. IsTrue (is_house house))) }
    ensures few { IfOk result (λ r. IfSome r (λ house. length house.accounts ≤ 200)) }
{
    let Some(host) = host_in(alloc, table)? else {
        return Ok(None);
    };
    let Some(domains) = domains_in(alloc, table)? else {
        return Ok(None);
    };
    let Some(accounts) = accounts_in(alloc, table)? else {
        return Ok(None);
    };
    let Some(postmaster) = postmaster_in(accounts.as_slice(), table) else {
        return Ok(None);
    };
    let Some(first) = first_of(value_at(table, "first")) else {
        return Ok(None);
    };
    Ok(Some(House {
        host,
        domains,
        accounts,
        postmaster,
        first,
    }))
}
