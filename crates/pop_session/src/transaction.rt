//! The commands of a user who is logged in (RFC 1939, sections 5 and 7).
//!
//! RETR and TOP of a message whose key is not in INBOX any more are answered `Message is gone.` at once: nothing is read or
//! asked, and no number drawn. The store's own refusals `Gone` and `TooMany` are told in the same words.
ghost use Rattle.std.specs.Prelude.{◌≡◌, ◌≤◌, [], length, IfOk, OnErr, OnOk, Option, Some, option_copied, option_map};
ghost use Rattle.undo_base.specs.declared.keys.User.{User as TheUser};
ghost use Rattle.verb_core.specs.declared.mailbox.Entry.{Entry as TheEntry};
ghost use Rattle.verb_core.specs.Live.{mail_of as mail_in};
ghost use Rattle.verb_core.specs.Mailboxes.{entry_of as entry_in, same_key};
ghost use Rattle.verb_core.specs.Names.{inbox as always_inbox};
ghost use Rattle.pop_session.specs.declared.dialog.Awaits.{Awaits as TheAwaits};
ghost use Rattle.pop_session.specs.declared.dialog.Dialog.{Dialog as TheDialog};
ghost use Rattle.pop_session.specs.declared.dialog.Stage.{Stage as TheStage};
ghost use Rattle.pop_session.specs.Answer.{answer_text};
ghost use Rattle.pop_session.specs.Maildrop as drops;
ghost use Rattle.pop_session.specs.Sound.{IsStage};
ghost use Rattle.pop_session.specs.Dialog.{took};
ghost use Rattle.pop_session.specs.Dialog as spec;

use crate::answer::{Answer, write_answer};
use crate::dialog::{Awaits, Dialog, Pending, Stage, Wanted};
use crate::maildrop::{Detail, Maildrop, Message, detail_answer, listing};
use crate::out::PopOut;
use box_store::Store;
use std::alloc::Global;
use undo_base::{Key, Name, NoMemory, Text, User};
use verb_core::{Ask, Body, Entry, inbox_name};

/// An answer, after which the dialog goes on.
pub(crate) fn say(alloc: Global, answer: Answer) -> Result<PopOut, NoMemory>
    ensures { IfOk result (λ out. out ≡ PopOut.Say (answer_text answer)) }
{
    let text = write_answer(alloc, answer)?;
    Ok(PopOut::Say(text))
}

/// Nothing is said.
pub(crate) fn say_nothing(alloc: Global) -> PopOut
    ensures { result ≡ PopOut.Say [] }
{
    PopOut::Say(Text::new(alloc))
}

/// The store is asked, and the outcome is awaited.
pub(crate) fn submit(dialog: &mut Dialog, asked: Ask, pending: Pending) -> PopOut
    ensures { spec.asks asked pending dialog.old ≡ took result dialog.new }
{
    dialog.awaits = Awaits::Outcome { pending };
    PopOut::Submit(asked)
}

/// What lies in a user's mailbox: nothing where it is missing.
pub(crate) fn mail_of<'a>(store: &'a Store, user: User, name: &Name) -> &'a [Entry]
    ensures { result.now ≡ mail_in store.entry.now.store (Some user) name.now }
{
    match store.mailbox(user, name) {
        Some(mailbox) => mailbox.entries.as_slice(),
        None => &[],
    }
}

/// NOOP.
pub(crate) fn wait(alloc: Global, dialog: &Dialog) -> Result<PopOut, NoMemory>
    ensures { IfOk result (λ out. spec.wait dialog.now.stage dialog.now ≡ took out dialog.now) }
{
    match &dialog.stage {
        Stage::Authorization { name: _ } => say(alloc, Answer::WrongState),
        Stage::Transaction {
            user: _,
            maildrop: _,
        } => say(alloc, Answer::Done),
    }
}

fn total(maildrop: &Maildrop) -> Answer
    requires { length maildrop.now.messages ≤ 65536 }
    ensures { result ≡ Answer.Total (drops.count maildrop.now.messages) (drops.octets maildrop.now.messages) }
{
    Answer::Total {
        count: maildrop.messages.count() as u64,
        octets: maildrop.messages.octets(),
    }
}

pub(crate) fn stat(alloc: Global, dialog: &Dialog) -> Result<PopOut, NoMemory>
    requires { IsStage dialog.now.stage }
    ensures { IfOk result (λ out. spec.stat dialog.now.stage dialog.now ≡ took out dialog.now) }
{
    match &dialog.stage {
        Stage::Authorization { name: _ } => say(alloc, Answer::WrongState),
        Stage::Transaction { user: _, maildrop } => say(alloc, total(maildrop)),
    }
}

fn tell_one(
    alloc: Global,
    detail: Detail,
    number: u64,
    maildrop: &Maildrop,
) -> Result<PopOut, NoMemory>
    ensures { IfOk result (λ out. (d : TheDialog) → spec.tell detail (Some number) maildrop.now d ≡ took out d) }
{
    match maildrop.messages.message_at(number) {
        None => say(alloc, Answer::NoSuchMessage),
        Some(message) => say(
            alloc,
            detail_answer(detail, maildrop.stamp, number, message),
        ),
    }
}

fn tell(
    alloc: Global,
    detail: Detail,
    number: Option<u64>,
    maildrop: &Maildrop,
) -> Result<PopOut, NoMemory>
    ensures { IfOk result (λ out. (d : TheDialog) → spec.tell detail number maildrop.now d ≡ took out d) }
{
    match number {
        None => Ok(PopOut::Say(listing(alloc, detail, maildrop)?)),
        Some(number) => tell_one(alloc, detail, number, maildrop),
    }
}

/// LIST and UIDL.
pub(crate) fn list(
    alloc: Global,
    detail: Detail,
    number: Option<u64>,
    dialog: &Dialog,
) -> Result<PopOut, NoMemory>
    ensures { IfOk result (λ out. spec.list detail number dialog.now.stage dialog.now ≡ took out dialog.now) }
{
    match &dialog.stage {
        Stage::Authorization { name: _ } => say(alloc, Answer::WrongState),
        Stage::Transaction { user: _, maildrop } => tell(alloc, detail, number, maildrop),
    }
}

fn is_of(entry: &Entry, key: Key) -> bool
    ensures { result ≡ same_key key entry.now.key }
{
    key.item == entry.key.item && key.index == entry.key.index
}

/// The message of a key, where it is there.
fn find_entry(entries: &[Entry], key: Key) -> Option<&Entry>
    ensures { option_copied result ≡ entry_in entries.now key }
{
    entries.iter().find(|entry| is_of(entry, key))
}

/// The body of the message of a key, where it is there.
fn find_body(entries: &[Entry], key: Key) -> Option<Body>
    ensures { result ≡ option_map (λ (e : TheEntry). e.body) (entry_in entries.now key) }
{
    match find_entry(entries, key) {
        None => None,
        Some(entry) => Some(entry.body),
    }
}

/// The text is read first, where the message is still there.
fn read_text(
    alloc: Global,
    body: Option<Body>,
    wanted: Wanted,
    awaits: &mut Awaits,
) -> Result<PopOut, NoMemory>
    ensures ok { IfOk result (λ out. (e : Option TheEntry) (stage : TheStage) → body ≡ option_map (λ (e : TheEntry). e.body) e
        → spec.read_text e wanted (record { stage = stage; awaits = awaits.old }) ≡ took out (record { stage = stage; awaits = awaits.new })) }
    ensures err { OnErr result (awaits.new ≡ awaits.old) }
{
    match body {
        None => say(alloc, Answer::MessageGone),
        Some(body) => {
            *awaits = Awaits::Text { wanted };
            Ok(PopOut::Read(body))
        }
    }
}

fn body_in(alloc: Global, store: &Store, user: User, key: Key) -> Result<Option<Body>, NoMemory>
    ensures { IfOk result (λ body. body ≡ option_map (λ (e : TheEntry). e.body) (entry_in (mail_in store.now.store (Some user) always_inbox) key)) }
{
    let inbox = inbox_name(alloc)?;
    Ok(find_body(mail_of(store, user, &inbox), key))
}

fn retrieve_of(
    alloc: Global,
    store: &Store,
    user: User,
    maildrop: &Maildrop,
    number: u64,
    lines: Option<u64>,
    awaits: &mut Awaits,
) -> Result<PopOut, NoMemory>
    ensures ok { IfOk result (λ out. spec.retrieve store.now.store number lines (Stage.Transaction user maildrop.now) (record { stage = Stage.Transaction user maildrop.now; awaits = awaits.old })
        ≡ took out (record { stage = Stage.Transaction user maildrop.now; awaits = awaits.new })) }
    ensures err { OnErr result (awaits.new ≡ awaits.old) }
{
    let Some(message) = maildrop.messages.message_at(number) else {
        return say(alloc, Answer::NoSuchMessage);
    };
    let wanted = Wanted {
        key: message.key,
        size: message.size,
        lines,
    };
    let body = body_in(alloc, store, user, message.key)?;
    read_text(alloc, body, wanted, awaits)
}

/// RETR, and TOP with its number of lines.
pub(crate) fn retrieve(
    alloc: Global,
    store: &Store,
    dialog: &mut Dialog,
    number: u64,
    lines: Option<u64>,
) -> Result<PopOut, NoMemory>
    ensures ok { IfOk result (λ out. spec.retrieve store.now.store number lines dialog.old.stage dialog.old ≡ took out dialog.new) }
    ensures err { OnErr result (dialog.new ≡ dialog.old) }
{
    match &dialog.stage {
        Stage::Authorization { name: _ } => say(alloc, Answer::WrongState),
        Stage::Transaction { user, maildrop } => retrieve_of(
            alloc,
            store,
            *user,
            maildrop,
            number,
            lines,
            &mut dialog.awaits,
        ),
    }
}

fn mark_one(alloc: Global, number: u64, maildrop: &mut Maildrop) -> Result<PopOut, NoMemory>
    ensures ok { IfOk result (λ out. (user : TheUser) (awaits : TheAwaits) →
        spec.mark number (Stage.Transaction user maildrop.old) (record { stage = Stage.Transaction user maildrop.old; awaits = awaits })
        ≡ took out (record { stage = Stage.Transaction user maildrop.new; awaits = awaits })) }
    ensures err { OnErr result (maildrop.new ≡ maildrop.old) }
{
    match maildrop.messages.message_at(number) {
        None => say(alloc, Answer::NoSuchMessage),
        Some(message) => {
            let out = say(alloc, Answer::Marked)?;
            maildrop.messages.mark(number, message);
            Ok(out)
        }
    }
}

/// DELE.
pub(crate) fn mark(alloc: Global, number: u64, dialog: &mut Dialog) -> Result<PopOut, NoMemory>
    ensures ok { IfOk result (λ out. spec.mark number dialog.old.stage dialog.old ≡ took out dialog.new) }
    ensures err { OnErr result (dialog.new ≡ dialog.old) }
{
    match &mut dialog.stage {
        Stage::Authorization { name: _ } => say(alloc, Answer::WrongState),
        Stage::Transaction { user: _, maildrop } => mark_one(alloc, number, maildrop),
    }
}

fn unmark_all(alloc: Global, maildrop: &mut Maildrop) -> Result<PopOut, NoMemory>
    ensures out { IfOk result (λ out. out ≡ PopOut.Say (answer_text Answer.Done)) }
    ensures ok { OnOk result (maildrop.new ≡ record maildrop.old { messages = drops.without_marks maildrop.old.messages }) }
    ensures err { OnErr result (maildrop.new ≡ maildrop.old) }
{
    let messages = maildrop.messages.unmarked(alloc)?;
    let out = say(alloc, Answer::Done)?;
    maildrop.messages = messages;
    Ok(out)
}

/// RSET.
pub(crate) fn reset(alloc: Global, dialog: &mut Dialog) -> Result<PopOut, NoMemory>
    ensures ok { IfOk result (λ out. spec.reset dialog.old.stage dialog.old ≡ took out dialog.new) }
    ensures err { OnErr result (dialog.new ≡ dialog.old) }
{
    match &mut dialog.stage {
        Stage::Authorization { name: _ } => say(alloc, Answer::WrongState),
        Stage::Transaction { user: _, maildrop } => unmark_all(alloc, maildrop),
    }
}
