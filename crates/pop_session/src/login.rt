//! USER and PASS (RFC 1939, section 7).
//!
//! User names ignore case and passwords do not, as in IMAP. USER's argument is one byte or more and no space. PASS's is the rest
//! of the line, so a password may begin with a space and have spaces in it, and none can end in one. Spaces at the end of a line
//! do not count.
//!
//! A line that is too long, unknown or has a bad argument is no command: `PASS` alone leaves the name of USER in force, `QUIT
//! now` does not close. Nothing but a failed PASS takes the name away; another USER replaces it. A PASS whose line found no
//! memory changed nothing; one whose outcome is want of memory failed, as any refusal of the store.
//!
//! PASS over more than 65,536 messages is answered `Too many messages.` at once and asks nothing of the store, which would refuse
//! it so before anything else. So no session ever knows more than 65,536 messages.
ghost use Rattle.std.specs.Prelude.{◌≡◌, false, IfOk, OnErr, IsTrue, Some, option_copied, unwrap_or};
ghost use Rattle.std.specs.List.{list_any};
ghost use Rattle.shelf.specs.Notes.{size_of};
ghost use Rattle.verb_core.specs.Boxes.{box_cmp, box_of, is_rising, row_at, same_user};
ghost use Rattle.verb_core.specs.Names.{inbox as always_inbox};
ghost use Rattle.verb_core.specs.Store.{is_house};
ghost use Rattle.pop_session.specs.Maildrop as drops;
ghost use Rattle.pop_session.specs.Dialog.{took};
ghost use Rattle.pop_session.specs.Dialog as spec;

use crate::answer::Answer;
use crate::dialog::{Dialog, Pending, Stage};
use crate::maildrop::{Maildrop, messages_of};
use crate::out::PopOut;
use crate::transaction::{mail_of, say, submit};
use box_store::Store;
use shelf::Shelf;
use std::alloc::Global;
use std::cmp::Ordering;
use undo_base::{Keys, MOST_KEYS, Name, NoMemory, Text, User, Users};
use verb_core::{Account, Ask, BoxId, House, Stamps, inbox_name};

/// USER: a name that was given before is given up.
pub(crate) fn give_name(alloc: Global, dialog: &mut Dialog, name: &[u8]) -> Result<PopOut, NoMemory>
    ensures ok { IfOk result (λ out. spec.give_name dialog.old.stage name.now dialog.old ≡ took out dialog.new) }
    ensures err { OnErr result (dialog.new ≡ dialog.old) }
{
    match &dialog.stage {
        Stage::Authorization { name: _ } => {
            let name = Text::of(alloc, name)?;
            let out = say(alloc, Answer::Done)?;
            dialog.stage = Stage::Authorization { name: Some(name) };
            Ok(out)
        }
        Stage::Transaction {
            user: _,
            maildrop: _,
        } => say(alloc, Answer::WrongState),
    }
}

fn is_account(account: &Account, name: &[u8], password: &[u8]) -> bool
    ensures { result ≡ spec.is_account name.now password.now account.now }
{
    account.name.bytes().eq_ignore_ascii_case(name) && account.password.bytes() == password
}

/// The number of the user with this name and password.
fn account_of(house: &House, name: &[u8], password: &[u8]) -> Option<usize>
    ensures { result ≡ spec.account_of house.now name.now password.now }
{
    house
        .accounts
        .iter()
        .position(|account| is_account(account, name, password))
}

/// How a row lies to the mailbox of that user and name.
fn compare(row: &(BoxId, u32), user: User, name: &Name) -> Ordering
    ensures { result ≡ box_cmp row.now.0 (box_of user name.now) }
{
    match row.0.user.0.cmp(&user.0) {
        Ordering::Less => Ordering::Less,
        Ordering::Equal => row.0.name.bytes().cmp(name.bytes()),
        Ordering::Greater => Ordering::Greater,
    }
}

/// The stamp of a mailbox, found by halves: 0 where it is missing.
fn stamp_at(stamps: &[(BoxId, u32)], user: User, name: &Name) -> u32
    requires { IsTrue (is_rising stamps.now) }
    ensures { result ≡ unwrap_or (row_at (box_of user name.now) stamps.now) 0 }
{
    match stamps.binary_search_by(|row| compare(row, user, name)) {
        Ok(place) => stamps[place].1,
        Err(_) => 0,
    }
}

fn is_in_use(in_use: &[User], user: User) -> bool
    ensures { result ≡ list_any (same_user user) in_use.now }
{
    in_use.iter().any(|other| user.0 == other.0)
}

/// The maildrop of a user.
fn maildrop_of(
    alloc: Global,
    store: &Store,
    stamps: &Stamps,
    sizes: &Shelf,
    user: User,
    inbox: &Name,
) -> Result<Maildrop, NoMemory>
    requires rising { IsTrue (is_rising stamps.now) }
    requires name { inbox.now ≡ always_inbox }
    ensures { IfOk result (λ maildrop. maildrop ≡ drops.maildrop_of store.now.store stamps.now (size_of sizes.now.notes) user) }
{
    let messages = messages_of(alloc, sizes, mail_of(store, user, inbox))?;
    let stamp = stamp_at(stamps.as_slice(), user, inbox);
    Ok(Maildrop { stamp, messages })
}

/// A failed PASS: a USER is needed again.
fn fail(alloc: Global, dialog: &mut Dialog, answer: Answer) -> Result<PopOut, NoMemory>
    ensures ok { IfOk result (λ out. spec.says answer (spec.nameless dialog.old) ≡ took out dialog.new) }
    ensures err { OnErr result (dialog.new ≡ dialog.old) }
{
    let out = say(alloc, answer)?;
    dialog.stage = Stage::Authorization { name: None };
    Ok(out)
}

/// The store is asked to record that the messages of a maildrop were shown.
fn ask_to_enter(
    dialog: &mut Dialog,
    inbox: Name,
    keys: Keys,
    user: User,
    maildrop: Maildrop,
) -> PopOut
    requires { inbox ≡ always_inbox }
    ensures { spec.asks (spec.fetch_of keys false) (Pending.Enter user maildrop) dialog.old ≡ took result dialog.new }
{
    let asked = Ask::Fetch {
        mailbox: inbox,
        keys,
        sets_seen: false,
        shows_body: true,
        strict: false,
        asked: 0,
    };
    submit(dialog, asked, Pending::Enter { user, maildrop })
}

fn enter(
    alloc: Global,
    dialog: &mut Dialog,
    inbox: Name,
    user: User,
    maildrop: Maildrop,
) -> Result<PopOut, NoMemory>
    requires { inbox ≡ always_inbox }
    ensures ok { IfOk result (λ out. spec.enter user maildrop dialog.old ≡ took out dialog.new) }
    ensures err { OnErr result (dialog.new ≡ dialog.old) }
{
    if maildrop.messages.len() > MOST_KEYS {
        return fail(alloc, dialog, Answer::TooMany);
    }
    let keys = maildrop.messages.keys(alloc)?;
    Ok(ask_to_enter(dialog, inbox, keys, user, maildrop))
}

/// A user whose name and password were given.
fn log_in(
    alloc: Global,
    store: &Store,
    stamps: &Stamps,
    sizes: &Shelf,
    in_use: &Users,
    dialog: &mut Dialog,
    user: User,
) -> Result<PopOut, NoMemory>
    requires rising { IsTrue (is_rising stamps.now) }
    ensures ok { IfOk result (λ out. spec.log_in store.now.store stamps.now (size_of sizes.now.notes) in_use.now (Some user.0) dialog.old ≡ took out dialog.new) }
    ensures err { OnErr result (dialog.new ≡ dialog.old) }
{
    if is_in_use(in_use.as_slice(), user) {
        return fail(alloc, dialog, Answer::InUse);
    }
    let inbox = inbox_name(alloc)?;
    let maildrop = maildrop_of(alloc, store, stamps, sizes, user, &inbox)?;
    enter(alloc, dialog, inbox, user, maildrop)
}

/// The name that USER gave.
fn given_name(stage: &Stage) -> Option<&Text>
    ensures { option_copied result ≡ spec.given_name stage.now }
{
    match stage {
        Stage::Authorization { name } => name.as_ref(),
        Stage::Transaction {
            user: _,
            maildrop: _,
        } => None,
    }
}

/// The number of the user whom a password lets in.
fn user_let_in(house: &House, name: &Text, password: &[u8]) -> Option<usize>
    ensures { result ≡ spec.account_of house.now name.now password.now }
{
    account_of(house, name.bytes(), password)
}

/// PASS.
pub(crate) fn give_password(
    alloc: Global,
    house: &House,
    store: &Store,
    stamps: &Stamps,
    sizes: &Shelf,
    in_use: &Users,
    dialog: &mut Dialog,
    password: &[u8],
) -> Result<PopOut, NoMemory>
    requires house { IsTrue (is_house house.now) }
    requires rising { IsTrue (is_rising stamps.now) }
    ensures ok { IfOk result (λ out. spec.give_password house.now store.now.store stamps.now (size_of sizes.now.notes) in_use.now (spec.given_name dialog.old.stage) password.now dialog.old ≡ took out dialog.new) }
    ensures err { OnErr result (dialog.new ≡ dialog.old) }
{
    let Some(name) = given_name(&dialog.stage) else {
        return say(alloc, Answer::WrongState);
    };
    match user_let_in(house, name, password) {
        None => fail(alloc, dialog, Answer::LoginFailed),
        Some(number) => {
            let user = User(number as u8);
            log_in(alloc, store, stamps, sizes, in_use, dialog, user)
        }
    }
}
