//! The users of a house.
//!
//! Users stand in the order of their array.
ghost use Rattle.std.specs.Prelude.{◌≡◌, true, IfOk, IfSome, ◌<◌, map, option_map, position, bytes_eq, ◌≤◌, length};
ghost use Rattle.toml.specs.View.{view, table_view};
ghost use Rattle.undo_base.specs.Name.{is_name};
ghost use Rattle.house_text.specs.Documents.{each_of};
ghost use Rattle.house_text.specs.Configuration as spec;

use crate::tables::{list_at, size, text_at};
use crate::words::{are_distinct, is_password, is_user_name};
use std::alloc::Global;
use toml::{Table, Value};
use undo_base::{Name, Names, NoMemory, User};
use verb_core::{Account, Accounts};

/// The user's name in a table.
#[tactic(auto, using(crate::proofs::Named::user_name))]
fn name_in(table: &Table) -> Option<&[u8]>
    ensures value { option_map (λ s. s.now) result ≡ spec.name_in (table_view table.now) }
    ensures name { IfSome result (λ s. is_name s.now ≡ true) }
{
    let text = text_at(table, "name")?;
    if is_user_name(text) { Some(text) } else { None }
}

/// The password in a table.
fn password_in(table: &Table) -> Option<&[u8]>
    ensures value { option_map (λ s. s.now) result ≡ spec.password_in (table_view table.now) }
    ensures name { IfSome result (λ s. is_name s.now ≡ true) }
{
    let text = text_at(table, "password")?;
    if is_password(text) { Some(text) } else { None }
}

fn account_in(alloc: Global, table: &Table) -> Result<Option<Account>, NoMemory>
    ensures { IfOk result (λ r. r ≡ spec.account_in (table_view table.now)) }
{
    if size(table) != 2 {
        return Ok(None);
    }
    let Some(name) = name_in(table) else {
        return Ok(None);
    };
    let Some(password) = password_in(table) else {
        return Ok(None);
    };
    let name = Name::of(alloc, name)?;
    let password = Name::of(alloc, password)?;
    Ok(Some(Account { name, password }))
}

fn account_of(alloc: Global, value: &Value) -> Result<Option<Account>, NoMemory>
    ensures { IfOk result (λ r. r ≡ spec.account_of (view value.now)) }
{
    match value.as_table() {
        Some(table) => account_in(alloc, table),
        None => Ok(None),
    }
}

/// The users of a list of tables.
#[tactic(auto, using(crate::proofs::Each::accounts_none, crate::proofs::Each::accounts_more, crate::proofs::Each::accounts_bad))]
fn accounts_from(alloc: Global, values: &[Value]) -> Result<Option<Accounts>, NoMemory>
    ensures { IfOk result (λ r. r ≡ each_of spec.account_of (map view values.now)) }
{
    let mut accounts = Accounts::new(alloc);
    for value in values {
        match account_of(alloc, value)? {
            Some(account) => accounts.push(account)?,
            None => return Ok(None),
        }
    }
    Ok(Some(accounts))
}

/// The names of users.
fn names_of(alloc: Global, accounts: &[Account]) -> Result<Names, NoMemory>
    ensures { IfOk result (λ names. names ≡ map (λ a. a.name) accounts.now) }
{
    let mut names = Names::new(alloc);
    for account in accounts {
        names.push(account.name.copy(alloc)?)?;
    }
    Ok(names)
}

/// Whether there are 1 to 200 users, no two of one name.
fn are_accounts(alloc: Global, accounts: &[Account]) -> Result<bool, NoMemory>
    ensures { IfOk result (λ r. r ≡ spec.are_accounts accounts.now) }
{
    if accounts.is_empty() || accounts.len() > 200 {
        return Ok(false);
    }
    let names = names_of(alloc, accounts)?;
    Ok(are_distinct(names.as_slice()))
}

/// The users of a document.
#[tactic(auto, using(crate::proofs::Sound::some_account, crate::proofs::Sound::few_accounts))]
pub fn accounts_in(alloc: Global, table: &Table) -> Result<Option<Accounts>, NoMemory>
    ensures value { IfOk result (λ r. r ≡ spec.accounts_of (table_view table.now)) }
    ensures some { IfOk result (λ r. IfSome r (λ accounts. 1 ≤ length accounts)) }
    ensures few { IfOk result (λ r. IfSome r (λ accounts. length accounts ≤ 200)) }
{
    let Some(values) = list_at(table, "user") else {
        return Ok(None);
    };
    let Some(accounts) = accounts_from(alloc, values)? else {
        return Ok(None);
    };
    if are_accounts(alloc, accounts.as_slice())? {
        Ok(Some(accounts))
    } else {
        Ok(None)
    }
}

fn has_name(account: &Account, name: &[u8]) -> bool
    ensures { result ≡ bytes_eq account.now.name name.now }
{
    account.name.bytes() == name
}

fn place_of(accounts: &[Account], name: &[u8]) -> Option<usize>
    ensures { result ≡ position (λ a. bytes_eq a.name name.now) accounts.now }
{
    accounts.iter().position(|account| has_name(account, name))
}

/// The number of the user of that name.
fn user_named(accounts: &[Account], name: &[u8]) -> Option<User>
    requires { length accounts.now ≤ 200 }
    ensures value { result ≡ spec.user_named accounts.now name.now }
    ensures known { IfSome result (λ u. u.0 < length accounts.now) }
{
    match place_of(accounts, name) {
        Some(place) => Some(User(place as u8)),
        None => None,
    }
}

/// The user whose mailbox takes what comes to `postmaster`: the one named by the text, where he is an account.
pub fn postmaster_in(accounts: &[Account], table: &Table) -> Option<User>
    requires { length accounts.now ≤ 200 }
    ensures value { result ≡ spec.postmaster_of accounts.now (table_view table.now) }
    ensures known { IfSome result (λ u. u.0 < length accounts.now) }
{
    user_named(accounts, text_at(table, "postmaster")?)
}

/// Whether a user has that name.
pub fn is_named(accounts: &[Account], name: &[u8]) -> bool
    ensures { result ≡ spec.is_named accounts.now name.now }
{
    accounts.iter().any(|account| has_name(account, name))
}
