//! What was awaited: a text, or the outcome of what was asked of the store.
//!
//! A refusal that a FETCH, STORE or EXPUNGE in INBOX can't meet is told as want of memory.
ghost use Rattle.std.specs.Prelude.{◌≡◌, ◌∷◌, [], true, false, IfOk, OnErr};
ghost use Rattle.pop_session.specs.Answer as words;
ghost use Rattle.pop_session.specs.Sending as sending;
ghost use Rattle.pop_session.specs.Dialog.{at_rest, took};
ghost use Rattle.pop_session.specs.Dialog as spec;

use crate::answer::{Answer, ask_refused, read_refused};
use crate::dialog::{Awaits, Dialog, Pending, Stage, Wanted};
use crate::maildrop::Maildrop;
use crate::out::PopOut;
use crate::sending::retrieved;
use crate::transaction::{say, say_nothing, submit};
use crate::update::end;
use seal_log::ReadFault;
use std::alloc::Global;
use std::mem;
use undo_base::{Key, Keys, Name, NoMemory, Text, User};
use verb_core::{Ask, Item, SubmitFault, inbox_name};

fn one_key(alloc: Global, key: Key) -> Result<Keys, NoMemory>
    ensures { IfOk result (λ keys. keys ≡ key ∷ []) }
{
    let mut keys = Keys::new(alloc);
    keys.push(key)?;
    Ok(keys)
}

/// A FETCH of one message, which must be there.
fn fetch_of(alloc: Global, key: Key) -> Result<Ask, NoMemory>
    ensures { IfOk result (λ ask. ask ≡ spec.fetch_of (key ∷ []) true) }
{
    Ok(Ask::Fetch {
        mailbox: inbox_name(alloc)?,
        keys: one_key(alloc, key)?,
        sets_seen: false,
        shows_body: true,
        strict: true,
        asked: 0,
    })
}

/// Asks the store to record that a message was shown. The answer is made before, so that telling it takes no memory.
fn show(
    alloc: Global,
    dialog: &mut Dialog,
    wanted: Wanted,
    bytes: &[u8],
) -> Result<PopOut, NoMemory>
    ensures ok { IfOk result (λ out. spec.asks (spec.fetch_of (wanted.key ∷ []) true) (Pending.Tell (sending.retrieved wanted.size wanted.lines bytes.now)) dialog.old ≡ took out dialog.new) }
    ensures err { OnErr result (dialog.new ≡ dialog.old) }
{
    let ask = fetch_of(alloc, wanted.key)?;
    let answer = retrieved(alloc, wanted.size, wanted.lines, bytes)?;
    Ok(submit(dialog, ask, Pending::Tell { answer }))
}

/// The text can't be had.
fn miss(alloc: Global, dialog: &mut Dialog, fault: ReadFault) -> Result<PopOut, NoMemory>
    ensures ok { IfOk result (λ out. spec.says (words.read_refused fault) (at_rest dialog.old) ≡ took out dialog.new) }
    ensures err { OnErr result (dialog.new ≡ dialog.old) }
{
    let out = say(alloc, read_refused(fault))?;
    dialog.awaits = Awaits::Nothing;
    Ok(out)
}

/// The text that RETR or TOP needs, or why it can't be had. Where none is awaited nothing is said.
pub(crate) fn hear(
    alloc: Global,
    dialog: &mut Dialog,
    text: &Result<Text, ReadFault>,
) -> Result<PopOut, NoMemory>
    ensures ok { IfOk result (λ out. spec.heard dialog.old text.now ≡ took out dialog.new) }
    ensures err { OnErr result (dialog.new ≡ dialog.old) }
{
    let Awaits::Text { wanted } = &dialog.awaits else {
        return Ok(say_nothing(alloc));
    };
    let wanted = *wanted;
    match text {
        Ok(text) => show(alloc, dialog, wanted, text.bytes()),
        Err(fault) => miss(alloc, dialog, *fault),
    }
}

/// The outcome of what was asked is still awaited.
fn wait_for_outcome(dialog: &mut Dialog, pending: Pending)
    ensures { dialog.new ≡ spec.awaiting pending dialog.old }
{
    dialog.awaits = Awaits::Outcome { pending };
}

/// The maildrop is entered. Where there is no memory for the answer the outcome is still due.
fn entered(
    alloc: Global,
    dialog: &mut Dialog,
    user: User,
    maildrop: Maildrop,
) -> Result<PopOut, NoMemory>
    ensures ok { IfOk result (λ out. spec.done (Pending.Enter user maildrop) dialog.old ≡ took out dialog.new) }
    ensures err { OnErr result (dialog.new ≡ spec.awaiting (Pending.Enter user maildrop) dialog.old) }
{
    let count = maildrop.messages.len() as u64;
    match say(alloc, Answer::Messages { count }) {
        Ok(out) => {
            dialog.stage = Stage::Transaction { user, maildrop };
            Ok(out)
        }
        Err(NoMemory) => {
            wait_for_outcome(dialog, Pending::Enter { user, maildrop });
            Err(NoMemory)
        }
    }
}

/// The marked messages have `\Deleted`: they are to be removed.
fn marked(dialog: &mut Dialog, mailbox: Name, keys: Keys) -> PopOut
    ensures { spec.done (Pending.Mark mailbox keys) dialog.old ≡ took result dialog.new }
{
    let asked = Ask::Expunge {
        mailbox,
        only: Some(keys),
    };
    submit(dialog, asked, Pending::Remove)
}

/// The marked messages are removed. Where there is no memory for the answer the outcome is still due.
fn removed(alloc: Global, dialog: &mut Dialog) -> Result<PopOut, NoMemory>
    ensures ok { IfOk result (λ out. spec.done Pending.Remove dialog.old ≡ took out dialog.new) }
    ensures err { OnErr result (dialog.new ≡ spec.awaiting Pending.Remove dialog.old) }
{
    match end(alloc, dialog, Answer::Closing) {
        Ok(out) => Ok(out),
        Err(NoMemory) => {
            wait_for_outcome(dialog, Pending::Remove);
            Err(NoMemory)
        }
    }
}

/// What was asked is done. Where there is no memory for the answer the outcome is still due.
fn done(alloc: Global, dialog: &mut Dialog, pending: Pending) -> Result<PopOut, NoMemory>
    ensures ok { IfOk result (λ out. spec.done pending dialog.old ≡ took out dialog.new) }
    ensures err { OnErr result (dialog.new ≡ spec.awaiting pending dialog.old) }
{
    match pending {
        Pending::Enter { user, maildrop } => entered(alloc, dialog, user, maildrop),
        Pending::Tell { answer } => Ok(PopOut::Say(answer)),
        Pending::Mark { mailbox, keys } => Ok(marked(dialog, mailbox, keys)),
        Pending::Remove => removed(alloc, dialog),
    }
}

/// What was awaited is done. Where it was no outcome nothing is said; where there is no memory for the answer the outcome is still due.
fn done_awaited(alloc: Global, dialog: &mut Dialog) -> Result<PopOut, NoMemory>
    ensures ok { IfOk result (λ out. spec.done_in dialog.old.awaits (at_rest dialog.old) ≡ took out dialog.new) }
    ensures err { OnErr result (dialog.new ≡ dialog.old) }
{
    match mem::replace(&mut dialog.awaits, Awaits::Nothing) {
        Awaits::Outcome { pending } => done(alloc, dialog, pending),
        Awaits::Text { wanted: _ } => Ok(say_nothing(alloc)),
        Awaits::Nothing => Ok(say_nothing(alloc)),
    }
}

fn is_login(pending: &Pending) -> bool
    ensures { result ≡ spec.is_login pending.now }
{
    match pending {
        Pending::Enter { .. } => true,
        Pending::Tell { answer: _ } => false,
        Pending::Mark { .. } => false,
        Pending::Remove => false,
    }
}

fn is_update(pending: &Pending) -> bool
    ensures { result ≡ spec.is_update pending.now }
{
    match pending {
        Pending::Enter { .. } => false,
        Pending::Tell { answer: _ } => false,
        Pending::Mark { .. } => true,
        Pending::Remove => true,
    }
}

fn awaits_login(awaits: &Awaits) -> bool
    ensures { result ≡ spec.awaits_login awaits.now }
{
    match awaits {
        Awaits::Outcome { pending } => is_login(pending),
        Awaits::Nothing => false,
        Awaits::Text { wanted: _ } => false,
    }
}

fn awaits_update(awaits: &Awaits) -> bool
    ensures { result ≡ spec.awaits_update awaits.now }
{
    match awaits {
        Awaits::Outcome { pending } => is_update(pending),
        Awaits::Nothing => false,
        Awaits::Text { wanted: _ } => false,
    }
}

/// It is refused: a PASS leaves nobody logged in.
fn refuse(alloc: Global, dialog: &mut Dialog, answer: Answer) -> Result<PopOut, NoMemory>
    requires { spec.awaits_update dialog.old.awaits ≡ false }
    ensures ok { IfOk result (λ out. spec.refused_in dialog.old.awaits answer (at_rest dialog.old) ≡ took out dialog.new) }
    ensures err { OnErr result (dialog.new ≡ dialog.old) }
{
    let out = say(alloc, answer)?;
    if awaits_login(&dialog.awaits) {
        dialog.stage = Stage::Authorization { name: None };
    }
    dialog.awaits = Awaits::Nothing;
    Ok(out)
}

/// It is refused: a QUIT closes.
fn refuse_or_end(alloc: Global, dialog: &mut Dialog, answer: Answer) -> Result<PopOut, NoMemory>
    ensures ok { IfOk result (λ out. spec.refused_in dialog.old.awaits answer (at_rest dialog.old) ≡ took out dialog.new) }
    ensures err { OnErr result (dialog.new ≡ dialog.old) }
{
    if awaits_update(&dialog.awaits) {
        end(alloc, dialog, answer)
    } else {
        refuse(alloc, dialog, answer)
    }
}

/// It is not done.
fn undone(alloc: Global, dialog: &mut Dialog, fault: SubmitFault) -> Result<PopOut, NoMemory>
    ensures ok { IfOk result (λ out. spec.undone_in dialog.old.awaits fault (at_rest dialog.old) ≡ took out dialog.new) }
    ensures err { OnErr result (dialog.new ≡ dialog.old) }
{
    match fault {
        SubmitFault::Refused(why) => refuse_or_end(alloc, dialog, ask_refused(why)),
        SubmitFault::Disk => end(alloc, dialog, Answer::DiskFault),
        SubmitFault::Closed => end(alloc, dialog, Answer::DiskFault),
    }
}

/// The outcome of what was asked.
pub(crate) fn settle(
    alloc: Global,
    dialog: &mut Dialog,
    outcome: &Result<Item, SubmitFault>,
) -> Result<PopOut, NoMemory>
    ensures ok { IfOk result (λ out. spec.settle dialog.old outcome.now ≡ took out dialog.new) }
    ensures err { OnErr result (dialog.new ≡ dialog.old) }
{
    match outcome {
        Ok(_) => done_awaited(alloc, dialog),
        Err(fault) => undone(alloc, dialog, *fault),
    }
}
