//! QUIT (RFC 1939, sections 4 and 6).
//!
//! QUIT's STORE and EXPUNGE name the keys in the order of the messages. The keys of the EXPUNGE are found when the STORE is
//! asked, so that asking it takes no memory. After its last answer a session is as a new one: nobody is logged in.
ghost use Rattle.std.specs.Prelude.{◌≡◌, IfOk, OnErr};
ghost use Rattle.pop_session.specs.Dialog.{opening, took};
ghost use Rattle.pop_session.specs.Dialog as spec;

use crate::answer::{Answer, write_answer};
use crate::dialog::{Awaits, Dialog, Pending, Stage};
use crate::out::PopOut;
use crate::transaction::submit;
use std::alloc::Global;
use undo_base::{Copies, Flags, How, Keys, Name, NoMemory};
use verb_core::{Ask, inbox_name};

/// A dialog as it is where the connection was made just now.
pub(crate) fn new_dialog() -> Dialog
    ensures { result ≡ opening }
{
    Dialog {
        stage: Stage::Authorization { name: None },
        awaits: Awaits::Nothing,
    }
}

/// The last answer: nothing of the dialog stays.
pub(crate) fn end(alloc: Global, dialog: &mut Dialog, answer: Answer) -> Result<PopOut, NoMemory>
    ensures ok { IfOk result (λ out. spec.ends answer ≡ took out dialog.new) }
    ensures err { OnErr result (dialog.new ≡ dialog.old) }
{
    let text = write_answer(alloc, answer)?;
    *dialog = new_dialog();
    Ok(PopOut::Bye(text))
}

/// `\Deleted`, and no other flag.
fn deleted_flag() -> Flags
    ensures { result ≡ spec.deleted_flag }
{
    Flags {
        answered: false,
        flagged: false,
        deleted: true,
        seen: false,
        draft: false,
    }
}

/// The marked messages of a maildrop that is left.
fn keys_left(alloc: Global, stage: &Stage) -> Result<Keys, NoMemory>
    ensures { IfOk result (λ keys. keys ≡ spec.keys_left stage.now) }
{
    match stage {
        Stage::Authorization { name: _ } => Ok(Keys::new(alloc)),
        Stage::Transaction { user: _, maildrop } => maildrop.messages.marked_keys(alloc),
    }
}

/// Asks that these messages get `\Deleted`. What follows is asked with the copies.
fn ask_to_mark(dialog: &mut Dialog, ask: Ask, mailbox: Name, keys: Keys) -> PopOut
    ensures { spec.asks ask (Pending.Mark mailbox keys) dialog.old ≡ took result dialog.new }
{
    submit(dialog, ask, Pending::Mark { mailbox, keys })
}

/// A STORE that adds `\Deleted` to messages.
fn store_of(alloc: Global, keys: &Keys) -> Result<Ask, NoMemory>
    ensures { IfOk result (λ ask. ask ≡ spec.store_of keys.now) }
{
    Ok(Ask::Store {
        mailbox: inbox_name(alloc)?,
        keys: keys.copy(alloc)?,
        how: How::Add,
        flags: deleted_flag(),
        strict: false,
    })
}

/// QUIT: the marked messages get `\Deleted` first. Where none is marked nothing is asked.
pub(crate) fn quit(alloc: Global, dialog: &mut Dialog) -> Result<PopOut, NoMemory>
    ensures ok { IfOk result (λ out. spec.quit dialog.old ≡ took out dialog.new) }
    ensures err { OnErr result (dialog.new ≡ dialog.old) }
{
    let keys = keys_left(alloc, &dialog.stage)?;
    if keys.is_empty() {
        return end(alloc, dialog, Answer::Closing);
    }
    let ask = store_of(alloc, &keys)?;
    let mailbox = inbox_name(alloc)?;
    Ok(ask_to_mark(dialog, ask, mailbox, keys))
}
