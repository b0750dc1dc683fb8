//! Mailboxes as commands name them, and accounts.
//!
//! A user's name of LOGIN ignores case, the password does not.
//!
//! CREATE's one `/` at the end is taken off before anything else is looked at. `inbox/` is INBOX and so is fixed, and 200 bytes
//! and a `/` are a name. `a//` is `a/`, which no new mailbox can have, and `/` alone is no name. The target of a RENAME keeps its
//! `/` and is refused; elsewhere no mailbox has such a name.
ghost use Rattle.std.specs.Prelude.{◌≡◌, ◌≤◌, ◌++◌, ℕ, List, length, nat_eq, codes, if◌then◌else◌, IfOk, Err};
ghost use Rattle.std.specs.List.{ends_with, position_or_len};
ghost use Rattle.undo_base.specs.Name.{Reads};
ghost use Rattle.verb_core.specs.Names.{inbox, is_slash as is_separator};
ghost use Rattle.imap_view.specs.Names as spec;

use std::alloc::Global;
use undo_base::{Name, NameRefused, NoMemory, Text, after, before};
use verb_core::{Account, House, is_slash};

/// Why bytes are no name.
fn unnamed(why: NameRefused) -> Result<Option<Name>, NoMemory>
    ensures { IfOk result (λ name. (bytes : List ℕ) → Reads bytes (Err why) → name ≡ spec.name_of bytes) }
{
    match why {
        NameRefused::NoMemory => Err(NoMemory),
        NameRefused::Empty => Ok(None),
        NameRefused::Long { length: _ } => Ok(None),
        NameRefused::Byte { place: _ } => Ok(None),
    }
}

fn read_name(alloc: Global, bytes: &[u8]) -> Result<Option<Name>, NoMemory>
    ensures { IfOk result (λ name. name ≡ spec.name_of bytes.now) }
{
    match Name::read(alloc, bytes) {
        Ok(name) => Ok(Some(name)),
        Err(why) => unnamed(why),
    }
}

/// Where the first `/` stands, or the length where there is none.
fn slash_of(bytes: &[u8]) -> usize
    ensures within { result ≤ length bytes.now }
    ensures value { result ≡ position_or_len is_separator bytes.now }
{
    for (place, byte) in bytes.iter().enumerate() {
        if is_slash(*byte) {
            return place;
        }
    }
    bytes.len()
}

/// How long the part before the first `/` is: all, where no name has a superior.
fn first_part(deep: bool, bytes: &[u8]) -> usize
    ensures within { result ≤ length bytes.now }
    ensures value { result ≡ spec.first_part deep bytes.now }
{
    if deep { slash_of(bytes) } else { bytes.len() }
}

/// INBOX with what stands behind it in an argument.
fn read_in_inbox(alloc: Global, rest: &[u8]) -> Result<Option<Name>, NoMemory>
    ensures { IfOk result (λ name. name ≡ spec.name_of (inbox ++ rest.now)) }
{
    let mut bytes = Text::of(alloc, b"INBOX")?;
    bytes.extend(rest)?;
    read_name(alloc, bytes.bytes())
}

fn read_mailbox(alloc: Global, deep: bool, bytes: &[u8]) -> Result<Option<Name>, NoMemory>
    ensures { IfOk result (λ name. name ≡ spec.mailbox_of deep bytes.now) }
{
    let end = first_part(deep, bytes);
    if before(bytes, end).eq_ignore_ascii_case(b"INBOX") {
        return read_in_inbox(alloc, after(bytes, end));
    }
    read_name(alloc, bytes)
}

/// The mailbox that an argument names, where the store is deep or not.
pub fn mailbox_of(alloc: Global, deep: bool, argument: &Text) -> Result<Option<Name>, NoMemory>
    ensures { IfOk result (λ name. name ≡ spec.mailbox_of deep argument.now) }
{
    read_mailbox(alloc, deep, argument.bytes())
}

fn ends_with_slash(bytes: &[u8]) -> bool
    ensures { result ≡ ends_with nat_eq bytes.now (codes "/") }
{
    bytes.ends_with(b"/")
}

fn without_slash(bytes: &[u8]) -> &[u8]
    ensures { result.now ≡ spec.without_slash bytes.now }
{
    if ends_with_slash(bytes) {
        before(bytes, bytes.len().saturating_sub(1))
    } else {
        bytes
    }
}

/// The mailbox that CREATE names by its argument, where the store is deep or not.
pub fn made_mailbox_of(alloc: Global, deep: bool, argument: &Text) -> Result<Option<Name>, NoMemory>
    ensures { IfOk result (λ name. name ≡ spec.made_mailbox_of deep argument.now) }
{
    let bytes = argument.bytes();
    if deep {
        read_mailbox(alloc, true, without_slash(bytes))
    } else {
        read_mailbox(alloc, false, bytes)
    }
}

fn is_account(account: &Account, user: &[u8], password: &[u8]) -> bool
    ensures { result ≡ spec.is_account user.now password.now account.now }
{
    account.name.bytes().eq_ignore_ascii_case(user) && account.password.bytes() == password
}

/// The number of the user with this name and password.
pub fn account_of(house: &House, user: &Text, password: &Text) -> Option<usize>
    ensures { result ≡ spec.account_of house.now user.now password.now }
{
    let user = user.bytes();
    let password = password.bytes();
    house
        .accounts
        .iter()
        .position(|account| is_account(account, user, password))
}
