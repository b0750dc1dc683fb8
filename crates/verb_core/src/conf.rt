//! The house, and the configuration in force.
ghost use Rattle.std.specs.Prelude.{◌≡◌};
ghost use Rattle.verb_core.specs.Filters.{are_of_body as look_at_bodies, is_of_body as looks_at_body};
ghost use Rattle.verb_core.specs.Store.{is_house, is_known};

use crate::{Accounts, Aliases, Filters};
use undo_base::{LAST_NUMBER, MOST_USERS, Name, Names, User, Users};

/// A user's name and password.
#[derive(Drop)]
pub struct Account {
    pub name: Name,
    pub password: Name,
}

/// What a configuration says for good.
#[derive(Drop)]
pub struct House {
    pub host: Name,
    pub domains: Names,
    pub accounts: Accounts,
    pub postmaster: User,
    pub first: u32,
}

impl House {
    /// Whether it has 1 to 200 users, the postmaster among them, and a first number that an item can have.
    pub fn is_sound(&self) -> bool
        ensures { result ≡ is_house self.now }
    {
        let users = self.accounts.len();
        1 <= users
            && users <= MOST_USERS
            && (self.postmaster.0 as usize) < users
            && 2 <= self.first
            && self.first <= LAST_NUMBER
    }

    /// Whether it has that user.
    pub fn knows(&self, user: User) -> bool
        ensures { result ≡ is_known self.now user }
    {
        (user.0 as usize) < self.accounts.len()
    }
}

/// A local part that stands for users.
#[derive(Drop)]
pub struct Alias {
    pub local: Name,
    pub users: Users,
}

/// What a filter looks at: the whole text as it is stored; the values of the header fields of that name, which ignores case (RFC
/// 5322, 2.2); the reverse path. Or the local parts.
#[derive(Drop)]
pub enum Scope {
    Body,
    Field(Name),
    Sender,
    Recipient,
}

impl Scope {
    /// Whether it is the whole text.
    pub fn is_of_body(&self) -> bool
        ensures { result ≡ looks_at_body self.now }
    {
        match self {
            Scope::Body => true,
            Scope::Field(_) => false,
            Scope::Sender => false,
            Scope::Recipient => false,
        }
    }
}

/// Whether each filter looks at the whole text.
pub fn are_of_body(filters: &[Filter]) -> bool
    ensures { result ≡ look_at_bodies filters.now }
{
    filters.iter().all(|filter| filter.scope.is_of_body())
}

/// A message that has the needle where the scope says is filed into the mailbox of that name, or
/// discarded where there is no such name.
#[derive(Drop)]
pub struct Filter {
    pub id: Name,
    pub needle: Name,
    pub file: Option<Name>,
    pub scope: Scope,
}

/// The aliases by rising local part, and the filters in the order in which they are tried.
#[derive(Drop)]
pub struct Conf {
    pub aliases: Aliases,
    pub filters: Filters,
}
