//! What each role is: how its client is greeted, and whether a rewind or an upgrade of the store closes its connections.
//!
//! An upgrade is told to IMAP clients alone, logged in or not. A POP3 client goes on: it sees INBOX alone, which an upgrade
//! leaves as it was.
ghost use Rattle.std.specs.Prelude.{◌≡◌, IfErr, IfOk, IsSome, option_map};
ghost use Rattle.mail_loop.specs.Roles.{row_of};
ghost use Rattle.mail_loop.specs.Stands.{said_of};

use crate::letters::Said;
use std::alloc::Global;
use undo_base::{NoMemory, Text};
use undo_outside::Role;
use verb_core::House;

/// The greeting of a role, where it has one.
pub fn greeting(alloc: Global, house: &House, role: Role) -> Result<Option<Text>, NoMemory>
    ensures ok { IfOk result (λ greeting. greeting ≡ (row_of role).greeting house.now) }
    ensures err { IfErr result (λ e. IsSome ((row_of role).greeting house.now)) }
{
    match role {
        Role::Smtp => Ok(Some(smtp_session::greeting(alloc, house)?)),
        Role::Imap => Ok(Some(imap_session::greeting(alloc, house)?)),
        Role::Http => Ok(None),
        Role::Pop => Ok(Some(pop_session::greeting(alloc)?)),
    }
}

/// The last words to a client of a role where the store is rewound, which may say nothing; none where it goes on.
pub fn at_rewind(role: Role) -> Option<Said>
    ensures { option_map said_of result ≡ (row_of role).at_rewind }
{
    match role {
        Role::Smtp => None,
        Role::Imap => Some(Said::Rewound),
        Role::Http => None,
        Role::Pop => Some(Said::Silence),
    }
}

/// The last words to a client of a role where the store is upgraded; none where it goes on.
pub fn at_upgrade(role: Role) -> Option<Said>
    ensures { option_map said_of result ≡ (row_of role).at_upgrade }
{
    match role {
        Role::Imap => Some(Said::Upgraded),
        Role::Smtp | Role::Http | Role::Pop => None,
    }
}
