//! What a command asks, by its verb and its arguments.
//!
//! AUTHENTICATE takes any arguments, none and bytes outside the grammar among them.
ghost use Rattle.std.specs.Prelude.{◌≡◌, IfOk};
ghost use Rattle.imap_lines.specs.What.{what_in, with_mailbox, with_list};
ghost use Rattle.imap_lines.specs.What as spec;

use crate::ImapWhat;
use crate::append::read_append;
use crate::arguments::{last_string, string_and_list, string_and_pattern, two_strings};
use crate::asks::read_statuses;
use crate::messages::{read_copy, read_fetch_of, read_search, read_store};
use crate::verbs::{BareVerb, MailboxVerb, Verb};
use imap_tokens::Token;
use std::alloc::Global;
use undo_base::{NoMemory, Text};

fn bare(verb: BareVerb) -> ImapWhat
    ensures { result ≡ spec.bare verb }
{
    match verb {
        BareVerb::Capability => ImapWhat::Capability,
        BareVerb::Noop => ImapWhat::Noop,
        BareVerb::Logout => ImapWhat::Logout,
        BareVerb::Check => ImapWhat::Check,
        BareVerb::Close => ImapWhat::Close,
        BareVerb::Expunge => ImapWhat::Expunge,
    }
}

fn read_bare(verb: BareVerb, tokens: &[Token]) -> Option<ImapWhat>
    ensures { result ≡ spec.bare_in verb tokens.now }
{
    if tokens.is_empty() {
        Some(bare(verb))
    } else {
        None
    }
}

fn on_mailbox(verb: MailboxVerb, mailbox: Text) -> ImapWhat
    ensures { result ≡ with_mailbox verb mailbox }
{
    match verb {
        MailboxVerb::Select => ImapWhat::Select { mailbox },
        MailboxVerb::Examine => ImapWhat::Examine { mailbox },
        MailboxVerb::Create => ImapWhat::Create { mailbox },
        MailboxVerb::Delete => ImapWhat::Delete { mailbox },
        MailboxVerb::Subscribe => ImapWhat::Subscribe { mailbox },
        MailboxVerb::Unsubscribe => ImapWhat::Unsubscribe { mailbox },
    }
}

fn read_mailbox(
    alloc: Global,
    verb: MailboxVerb,
    tokens: &[Token],
) -> Result<Option<ImapWhat>, NoMemory>
    ensures { IfOk result (λ what. what ≡ spec.mailbox_in verb tokens.now) }
{
    let Some(mailbox) = last_string(tokens) else {
        return Ok(None);
    };
    let mailbox = Text::of(alloc, mailbox)?;
    Ok(Some(on_mailbox(verb, mailbox)))
}

fn read_login(alloc: Global, tokens: &[Token]) -> Result<Option<ImapWhat>, NoMemory>
    ensures { IfOk result (λ what. what ≡ spec.login_in tokens.now) }
{
    let Some((user, password)) = two_strings(tokens) else {
        return Ok(None);
    };
    let user = Text::of(alloc, user)?;
    let password = Text::of(alloc, password)?;
    Ok(Some(ImapWhat::Login { user, password }))
}

fn read_rename(alloc: Global, tokens: &[Token]) -> Result<Option<ImapWhat>, NoMemory>
    ensures { IfOk result (λ what. what ≡ spec.rename_in tokens.now) }
{
    let Some((mailbox, target)) = two_strings(tokens) else {
        return Ok(None);
    };
    let mailbox = Text::of(alloc, mailbox)?;
    let target = Text::of(alloc, target)?;
    Ok(Some(ImapWhat::Rename { mailbox, target }))
}

/// LIST, or LSUB.
fn listed(subscribed: bool, reference: Text, pattern: Text) -> ImapWhat
    ensures { result ≡ with_list subscribed reference pattern }
{
    if subscribed {
        ImapWhat::Lsub { reference, pattern }
    } else {
        ImapWhat::List { reference, pattern }
    }
}

fn read_list(
    alloc: Global,
    subscribed: bool,
    tokens: &[Token],
) -> Result<Option<ImapWhat>, NoMemory>
    ensures { IfOk result (λ what. what ≡ spec.list_in subscribed tokens.now) }
{
    let Some((reference, pattern)) = string_and_pattern(tokens) else {
        return Ok(None);
    };
    let reference = Text::of(alloc, reference)?;
    let pattern = Text::of(alloc, pattern)?;
    Ok(Some(listed(subscribed, reference, pattern)))
}

fn read_status(alloc: Global, tokens: &[Token]) -> Result<Option<ImapWhat>, NoMemory>
    ensures { IfOk result (λ what. what ≡ spec.status_in tokens.now) }
{
    let Some((mailbox, list)) = string_and_list(tokens) else {
        return Ok(None);
    };
    let Some(asked) = read_statuses(alloc, list)? else {
        return Ok(None);
    };
    let mailbox = Text::of(alloc, mailbox)?;
    Ok(Some(ImapWhat::Status { mailbox, asked }))
}

/// What a command asks, if its arguments are in the grammar.
#[tactic(auto, unfolding(crate::specs::What::what_in))]
pub fn read_what(
    alloc: Global,
    verb: Verb,
    by_uid: bool,
    tokens: &[Token],
) -> Result<Option<ImapWhat>, NoMemory>
    ensures { IfOk result (λ what. what ≡ what_in verb by_uid tokens.now) }
{
    match verb {
        Verb::Bare(verb) => Ok(read_bare(verb, tokens)),
        Verb::Mailbox(verb) => read_mailbox(alloc, verb, tokens),
        Verb::Login => read_login(alloc, tokens),
        Verb::Rename => read_rename(alloc, tokens),
        Verb::List => read_list(alloc, false, tokens),
        Verb::Lsub => read_list(alloc, true, tokens),
        Verb::Status => read_status(alloc, tokens),
        Verb::Append => read_append(alloc, tokens),
        Verb::Fetch => read_fetch_of(alloc, by_uid, tokens),
        Verb::Store => read_store(alloc, by_uid, tokens),
        Verb::Copy => read_copy(alloc, by_uid, tokens),
        Verb::Search => read_search(alloc, by_uid, tokens),
        Verb::Authenticate => Ok(Some(ImapWhat::Authenticate)),
    }
}
