//! What a text can configure.
ghost use Rattle.std.specs.Prelude.{◌≡◌, bytes_eq};
ghost use Rattle.std.specs.List.{list_all, list_any};
ghost use Rattle.house_text.specs.Beginning as spec;
ghost use Rattle.house_text.specs.Configuration.{is_alias as can_be_alias};
ghost use Rattle.verb_core.specs.Store.{is_known as knows};

use crate::accounts::is_named;
use crate::words::{are_distinct, is_host, is_password, is_user_name};
use undo_base::{Name, User};
use verb_core::{Account, Alias, Conf, House};

fn are_lower(text: &[u8]) -> bool
    ensures { result ≡ list_all spec.is_lower text.now }
{
    text.iter().all(|b| !(65 <= *b && *b <= 90))
}

fn is_domain(text: &[u8]) -> bool
    ensures { result ≡ spec.is_domain text.now }
{
    is_host(text) && are_lower(text)
}

fn are_all_domains(domains: &[Name]) -> bool
    ensures { result ≡ list_all spec.is_domain domains.now }
{
    domains.iter().all(|domain| is_domain(domain.bytes()))
}

fn are_domains(domains: &[Name]) -> bool
    ensures { result ≡ spec.are_domains domains.now }
{
    !domains.is_empty() && are_all_domains(domains) && are_distinct(domains)
}

fn is_account(account: &Account) -> bool
    ensures { result ≡ spec.is_account account.now }
{
    is_user_name(account.name.bytes()) && is_password(account.password.bytes())
}

fn are_all_accounts(accounts: &[Account]) -> bool
    ensures { result ≡ list_all spec.is_account accounts.now }
{
    accounts.iter().all(is_account)
}

/// Whether a name is that of one of the users.
fn has_name(accounts: &[Account], name: &[u8]) -> bool
    ensures { result ≡ list_any (λ a. bytes_eq name.now a.name) accounts.now }
{
    accounts.iter().any(|account| name == account.name.bytes())
}

/// Whether no two users have one name.
fn have_own_names(accounts: &[Account]) -> bool
    ensures { result ≡ spec.have_own_names accounts.now }
{
    let mut rest = accounts;
    while let [account, others @ ..] = rest {
        if has_name(others, account.name.bytes()) {
            return false;
        }
        rest = others;
    }
    true
}

#[tactic(auto, using(crate::proofs::Beginnings::own_names))]
fn are_accounts(accounts: &[Account]) -> bool
    ensures { result ≡ spec.are_accounts accounts.now }
{
    are_all_accounts(accounts) && have_own_names(accounts)
}

fn is_known(house: &House, user: User) -> bool
    ensures { result ≡ knows house.now user }
{
    (user.0 as usize) < house.accounts.len()
}

fn are_known(house: &House, users: &[User]) -> bool
    ensures { result ≡ list_all (knows house.now) users.now }
{
    users.iter().all(|user| is_known(house, *user))
}

fn user_comes_first(user: User, others: &[User]) -> bool
    ensures { result ≡ spec.user_comes_first user others.now }
{
    match others {
        [] => true,
        [next, ..] => user.0 < next.0,
    }
}

fn users_rise(users: &[User]) -> bool
    ensures { result ≡ spec.users_rise users.now }
{
    let mut rest = users;
    while let [user, others @ ..] = rest {
        if !user_comes_first(*user, others) {
            return false;
        }
        rest = others;
    }
    true
}

fn are_users(house: &House, users: &[User]) -> bool
    ensures { result ≡ spec.are_users house.now users.now }
{
    !users.is_empty() && are_known(house, users) && users_rise(users)
}

fn is_alias(accounts: &[Account], local: &[u8]) -> bool
    ensures { result ≡ can_be_alias accounts.now local.now }
{
    is_user_name(local) && !is_named(accounts, local)
}

fn can_alias(house: &House, alias: &Alias) -> bool
    ensures { result ≡ spec.can_alias house.now alias.now }
{
    is_alias(house.accounts.as_slice(), alias.local.bytes())
        && are_users(house, alias.users.as_slice())
}

fn are_aliases(house: &House, aliases: &[Alias]) -> bool
    ensures { result ≡ list_all (spec.can_alias house.now) aliases.now }
{
    aliases.iter().all(|alias| can_alias(house, alias))
}

fn alias_comes_first(alias: &Alias, others: &[Alias]) -> bool
    ensures { result ≡ spec.alias_comes_first alias.now others.now }
{
    match others {
        [] => true,
        [next, ..] => alias.local.cmp(&next.local).is_lt(),
    }
}

fn aliases_rise(aliases: &[Alias]) -> bool
    ensures { result ≡ spec.aliases_rise aliases.now }
{
    let mut rest = aliases;
    while let [alias, others @ ..] = rest {
        if !alias_comes_first(alias, others) {
            return false;
        }
        rest = others;
    }
    true
}

/// Whether a text can give this house and this opening configuration.
pub fn can_begin(house: &House, conf: &Conf) -> bool
    ensures { result ≡ spec.can_begin house.now conf.now }
{
    house.is_sound()
        && is_host(house.host.bytes())
        && are_domains(house.domains.as_slice())
        && are_accounts(house.accounts.as_slice())
        && are_aliases(house, conf.aliases.as_slice())
        && aliases_rise(conf.aliases.as_slice())
        && conf.filters.is_empty()
}
