//! What each command does to a dialog (RFC 5321, section 4.1.1).
//!
//! Domains are compared ignoring case, on both sides.
//!
//! The transaction begins with no recipient; DATA wants one. RCPT is refused in this order: the grammar, 503, 452 for 1,000
//! recipients (also for a repeated one), 550.
//!
//! HELO and EHLO may come at any time outside a text, and clear the transaction; NOOP, VRFY, RSET and QUIT need no greeting.
ghost use Rattle.std.specs.Prelude.{◌≡◌, List, ℕ, Option, IsTrue, IfOk, OnErr};
ghost use Rattle.std.specs.List.{list_any};
ghost use Rattle.std.specs.Str.{str_eq_ignore_ascii_case, str_to_ascii_lowercase};
ghost use Rattle.verb_core.specs.Store.{is_house};
ghost use Rattle.smtp_session.specs.Answer.{answer_text};
ghost use Rattle.smtp_session.specs.Recipients.{is_here, is_of_house, put_once};
ghost use Rattle.smtp_session.specs.Dialog.{begin, greet, has_recipient, receive, says, turns, with_text, with_transaction, write};

use crate::answer::{Answer, SmtpOut, say};
use crate::dialog::{Dialog, Transaction};
use crate::recipients::Recipients;
use std::alloc::Global;
use std::mem;
use undo_base::{MOST_RECIPIENTS, Name, NoMemory, Text};
use verb_core::{Conf, House, resolve_local};

/// HELO and EHLO clear the transaction.
pub(crate) fn greet_client(
    alloc: Global,
    house: &House,
    dialog: &mut Dialog,
    client: Name,
) -> Result<SmtpOut, NoMemory>
    ensures ok { IfOk result (λ out. greet house.now client ≡ turns out dialog.new) }
    ensures err { OnErr result (dialog.new ≡ dialog.old) }
{
    let out = say(alloc, &house.host, Answer::Host)?;
    dialog.client = Some(client);
    dialog.transaction = Transaction::Idle;
    Ok(out)
}

/// MAIL wants a greeting, and no transaction.
pub(crate) fn begin_mail(
    alloc: Global,
    house: &House,
    dialog: &mut Dialog,
    path: Text,
) -> Result<SmtpOut, NoMemory>
    ensures ok { IfOk result (λ out. begin house.now dialog.old.client dialog.old.transaction path ≡ turns out dialog.new) }
    ensures err { OnErr result (dialog.new ≡ dialog.old) }
{
    if dialog.client.is_some() && matches!(&dialog.transaction, Transaction::Idle) {
        let out = say(alloc, &house.host, Answer::Done)?;
        let to = Recipients::new(alloc);
        dialog.transaction = Transaction::Begun { path, to };
        Ok(out)
    } else {
        say(alloc, &house.host, Answer::BadSequence)
    }
}

fn is_same_domain(own: &Name, domain: &[u8]) -> bool
    ensures { result ≡ str_eq_ignore_ascii_case own.now domain.now }
{
    own.bytes().eq_ignore_ascii_case(domain)
}

fn has_domain(domains: &[Name], domain: &[u8]) -> bool
    ensures { result ≡ list_any (λ own. str_eq_ignore_ascii_case own domain.now) domains.now }
{
    domains.iter().any(|own| is_same_domain(own, domain))
}

fn is_domain(house: &House, domain: &Option<Name>) -> bool
    ensures { result ≡ is_of_house house.now domain.now }
{
    match domain {
        None => true,
        Some(domain) => has_domain(house.domains.as_slice(), domain.bytes()),
    }
}

/// Whether mail for a local part at a domain comes to a user here.
fn is_known(
    alloc: Global,
    house: &House,
    conf: &Conf,
    local: &Name,
    domain: &Option<Name>,
) -> Result<bool, NoMemory>
    requires { IsTrue (is_house house.now) }
    ensures { IfOk result (λ known. known ≡ is_here house.now conf.now local.now domain.now) }
{
    if !is_domain(house, domain) {
        return Ok(false);
    }
    let users = resolve_local(alloc, conf, house, local)?;
    Ok(!users.is_empty())
}

/// Adds a recipient who is here.
fn add_recipient(
    alloc: Global,
    host: &Name,
    to: &mut Recipients,
    local: &Name,
) -> Result<SmtpOut, NoMemory>
    ensures ok { IfOk result (λ out. (out ≡ SmtpOut.Say (answer_text host.now Answer.Done)) × (to.new ≡ put_once (str_to_ascii_lowercase local.now) to.old)) }
    ensures err { OnErr result (to.new ≡ to.old) }
{
    let name = local.lower(alloc)?;
    let out = say(alloc, host, Answer::Done)?;
    to.put(alloc, name)?;
    Ok(out)
}

/// RCPT in a transaction that has begun.
fn address(
    alloc: Global,
    house: &House,
    conf: &Conf,
    to: &mut Recipients,
    local: &Name,
    domain: &Option<Name>,
) -> Result<SmtpOut, NoMemory>
    requires { IsTrue (is_house house.now) }
    ensures ok { IfOk result (λ out. (client : Option (List ℕ)) → (path : List ℕ) →
        receive house.now (record { client = client; transaction = Transaction.Begun path to.old }) (Transaction.Begun path to.old) local.now (is_here house.now conf.now local.now domain.now)
        ≡ turns out (record { client = client; transaction = Transaction.Begun path to.new })) }
    ensures err { OnErr result (to.new ≡ to.old) }
{
    if to.len() >= MOST_RECIPIENTS {
        return say(alloc, &house.host, Answer::TooManyRecipients);
    }
    if !is_known(alloc, house, conf, local, domain)? {
        return say(alloc, &house.host, Answer::NoMailbox);
    }
    add_recipient(alloc, &house.host, to, local)
}

/// RCPT wants a transaction.
pub(crate) fn receive_recipient(
    alloc: Global,
    house: &House,
    conf: &Conf,
    dialog: &mut Dialog,
    local: &Name,
    domain: &Option<Name>,
) -> Result<SmtpOut, NoMemory>
    requires { IsTrue (is_house house.now) }
    ensures ok { IfOk result (λ out. receive house.now dialog.old dialog.old.transaction local.now (is_here house.now conf.now local.now domain.now) ≡ turns out dialog.new) }
    ensures err { OnErr result (dialog.new ≡ dialog.old) }
{
    match &mut dialog.transaction {
        Transaction::Begun { path: _, to } => address(alloc, house, conf, to, local, domain),
        Transaction::Idle => say(alloc, &house.host, Answer::BadSequence),
        Transaction::Writing { .. } => say(alloc, &house.host, Answer::BadSequence),
        Transaction::Due { .. } => say(alloc, &house.host, Answer::BadSequence),
    }
}

fn has_recipients(transaction: &Transaction) -> bool
    ensures { result ≡ has_recipient transaction.now }
{
    match transaction {
        Transaction::Begun { path: _, to } => to.len() > 0,
        Transaction::Idle => false,
        Transaction::Writing { .. } => false,
        Transaction::Due { .. } => false,
    }
}

/// A transaction that has begun gets a text.
fn start_text(alloc: Global, transaction: Transaction) -> Transaction
    ensures { result ≡ with_text transaction }
{
    match transaction {
        Transaction::Begun { path, to } => Transaction::Writing {
            path,
            to,
            text: Some(Text::new(alloc)),
        },
        Transaction::Idle => Transaction::Idle,
        Transaction::Writing { path, to, text } => Transaction::Writing { path, to, text },
        Transaction::Due { host } => Transaction::Due { host },
    }
}

/// DATA wants a recipient.
pub(crate) fn begin_text(
    alloc: Global,
    house: &House,
    dialog: &mut Dialog,
) -> Result<SmtpOut, NoMemory>
    ensures ok { IfOk result (λ out. write house.now dialog.old ≡ turns out dialog.new) }
    ensures err { OnErr result (dialog.new ≡ dialog.old) }
{
    if !has_recipients(&dialog.transaction) {
        return say(alloc, &house.host, Answer::BadSequence);
    }
    let out = say(alloc, &house.host, Answer::Begin)?;
    let begun = mem::replace(&mut dialog.transaction, Transaction::Idle);
    dialog.transaction = start_text(alloc, begun);
    Ok(out)
}

/// RSET clears the transaction.
pub(crate) fn reset(alloc: Global, house: &House, dialog: &mut Dialog) -> Result<SmtpOut, NoMemory>
    ensures ok { IfOk result (λ out. says house.now Answer.Done (with_transaction dialog.old Transaction.Idle) ≡ turns out dialog.new) }
    ensures err { OnErr result (dialog.new ≡ dialog.old) }
{
    let out = say(alloc, &house.host, Answer::Done)?;
    dialog.transaction = Transaction::Idle;
    Ok(out)
}
