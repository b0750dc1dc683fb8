//! How much of what a client said is kept.
ghost use Rattle.std.specs.Prelude.{◌≡◌, ◌*◌, ◌≤◌, length};
ghost use Rattle.smtp_session.specs.Limits.{IsSmall, IsWithin, kept_of, octets_in, parts_in, text_octets};

use crate::dialog::{Dialog, Transaction};
use undo_base::{Name, Text};

/// How many octets names have.
fn octets_in(names: &[Name]) -> usize
    requires { length names.now ≤ 1000 }
    ensures value { result ≡ octets_in names.now }
    ensures most { octets_in names.now ≤ 200 * length names.now }
{
    let mut total: usize = 0;
    for name in names {
        total += name.bytes().len();
    }
    total
}

/// How many octets a name has, of which there may be none.
fn name_octets(name: &Option<Name>) -> usize
    ensures { result ≡ text_octets name.now }
{
    match name {
        None => 0,
        Some(name) => name.bytes().len(),
    }
}

/// How many octets a text has, of which there is none where it was too large.
pub(crate) fn text_octets(text: &Option<Text>) -> usize
    ensures { result ≡ text_octets text.now }
{
    match text {
        None => 0,
        Some(text) => text.bytes().len(),
    }
}

/// How many octets a transaction keeps.
fn of_transaction(transaction: &Transaction) -> usize
    requires { IsWithin transaction.now }
    ensures value { result ≡ parts_in transaction.now }
    ensures most { parts_in transaction.now ≤ 1248830 }
{
    match transaction {
        Transaction::Idle => 0,
        Transaction::Begun { path, to } => path.bytes().len() + octets_in(to.names()),
        Transaction::Writing { path, to, text } => {
            path.bytes().len() + octets_in(to.names()) + text_octets(text)
        }
        Transaction::Due { host } => host.bytes().len(),
    }
}

/// How many octets a dialog keeps.
pub(crate) fn kept(dialog: &Dialog) -> usize
    requires { IsSmall dialog.now }
    ensures value { result ≡ kept_of dialog.now }
    ensures most { kept_of dialog.now ≤ 1249030 }
{
    name_octets(&dialog.client) + of_transaction(&dialog.transaction)
}
