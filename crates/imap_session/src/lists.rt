//! LIST, LSUB and STATUS (RFC 3501, sections 6.3.8 to 6.3.10).
//!
//! A LIST whose pattern has no bytes asks nothing of the store, whatever its reference.
//!
//! A LIST's outcome is told with the delimiter that its command was given: a turn is served whole, and no upgrade comes between.
ghost use Rattle.std.specs.Prelude.{◌≡◌, ◌++◌, [], IfOk, IsTrue, OnErr};
ghost use Rattle.verb_core.specs.Boxes.{is_rising};
ghost use Rattle.verb_core.specs.Store.{IsValid};
ghost use Rattle.imap_text.specs.Answers.{list_lines, status_line};
ghost use Rattle.imap_view.specs.Names.{mailbox_of as mailbox_named};
ghost use Rattle.imap_view.specs.Facts.{facts_at};
ghost use Rattle.imap_session.specs.Words as words;
ghost use Rattle.imap_session.specs.Dialog.{took};
ghost use Rattle.imap_session.specs.Dialog as spec;

use crate::commands::{say, submit, tell};
use crate::dialog::{Dialog, Pending};
use crate::out::ImapOut;
use crate::words::{Answer, Word, list_word, word_text};
use box_store::Store;
use imap_text::{delimiter, render_list, render_status};
use imap_view::{mailbox_of, status_facts};
use std::alloc::Global;
use undo_base::{Name, Names, NoMemory, StatusAsks, Text, User};
use verb_core::{Ask, Refused, Shown, Stamps};

/// The answer to a LIST without a pattern.
fn no_names(alloc: Global, deep: bool, tag: &Name, subscribed: bool) -> Result<ImapOut, NoMemory>
    ensures { IfOk result (λ out. out ≡ ImapOut.Say (words.no_names_text deep subscribed ++ words.tagged tag.now (Answer.Done (words.list_word subscribed)))) }
{
    let mut text = Text::of(alloc, b"* ")?;
    text.extend(word_text(list_word(subscribed)))?;
    text.extend(b" (\\Noselect) ")?;
    text.extend(delimiter(deep))?;
    text.extend(b" \"\"\r\n")?;
    tell(text, tag, Answer::Done(list_word(subscribed)))
}

/// The reference and the pattern behind it.
fn joined(alloc: Global, reference: &Text, pattern: &Text) -> Result<Text, NoMemory>
    ensures { IfOk result (λ text. text ≡ reference.now ++ pattern.now) }
{
    let mut text = reference.copy(alloc)?;
    text.extend(pattern.bytes())?;
    Ok(text)
}

fn submit_list(
    alloc: Global,
    deep: bool,
    dialog: &mut Dialog,
    tag: &Name,
    subscribed: bool,
    reference: &Text,
    pattern: &Text,
) -> Result<ImapOut, NoMemory>
    ensures ok { IfOk result (λ out. spec.asks (Ask.List (reference.now ++ pattern.now)) tag.now (Pending.List subscribed deep) dialog.old ≡ took out dialog.new) }
    ensures err { OnErr result (dialog.new ≡ dialog.old) }
{
    let tag = tag.copy(alloc)?;
    let pattern = joined(alloc, reference, pattern)?;
    let pending = Pending::List { subscribed, deep };
    Ok(submit(dialog, tag, Ask::List { pattern }, pending))
}

/// LIST and LSUB.
pub(crate) fn list(
    alloc: Global,
    deep: bool,
    dialog: &mut Dialog,
    tag: &Name,
    subscribed: bool,
    reference: &Text,
    pattern: &Text,
) -> Result<ImapOut, NoMemory>
    ensures ok { IfOk result (λ out. spec.list tag.now dialog.old dialog.old.user deep subscribed reference.now pattern.now ≡ took out dialog.new) }
    ensures err { OnErr result (dialog.new ≡ dialog.old) }
{
    match dialog.user {
        None => say(alloc, tag, Answer::WrongState),
        Some(_) => {
            if pattern.bytes().len() == 0 {
                no_names(alloc, deep, tag, subscribed)
            } else {
                submit_list(alloc, deep, dialog, tag, subscribed, reference, pattern)
            }
        }
    }
}

/// The names that a LIST was shown, or these, which are none.
fn names_in<'a>(shown: &'a Shown, none: &'a Names) -> &'a Names
    requires { none.now ≡ [] }
    ensures { result.now ≡ spec.names_in shown.entry.now }
{
    match shown {
        Shown::Names(names) => names,
        Shown::Nothing => none,
        Shown::Seen(_) => none,
        Shown::Count(_) => none,
        Shown::Done(_) => none,
        Shown::Copied {
            keys: _,
            redirected: _,
        } => none,
        Shown::Put { redirected: _ } => none,
        Shown::Left(_) => none,
        Shown::Way(_) => none,
        Shown::Moved(_) => none,
    }
}

/// The names that a LIST was shown are told.
pub(crate) fn listed(
    alloc: Global,
    deep: bool,
    tag: &Name,
    subscribed: bool,
    shown: &Shown,
) -> Result<ImapOut, NoMemory>
    ensures { IfOk result (λ out. out ≡ ImapOut.Say (list_lines (words.word_text (words.list_word subscribed)) (spec.names_in shown.now) deep ++ words.tagged tag.now (Answer.Done (words.list_word subscribed)))) }
{
    let none = Names::new(alloc);
    let word = word_text(list_word(subscribed));
    let text = render_list(alloc, word, names_in(shown, &none), deep)?;
    tell(text, tag, Answer::Done(list_word(subscribed)))
}

fn copy_asks(alloc: Global, asked: &StatusAsks) -> Result<StatusAsks, NoMemory>
    ensures { IfOk result (λ copy. copy ≡ asked.now) }
{
    Ok(StatusAsks::from_vec(Vec::from_slice(alloc, asked.as_slice())?))
}

fn submit_status(
    alloc: Global,
    dialog: &mut Dialog,
    tag: &Name,
    mailbox: Name,
    asked: &StatusAsks,
) -> Result<ImapOut, NoMemory>
    ensures ok { IfOk result (λ out. spec.asks (Ask.Status mailbox) tag.now (Pending.Status mailbox asked.now) dialog.old ≡ took out dialog.new) }
    ensures err { OnErr result (dialog.new ≡ dialog.old) }
{
    let tag = tag.copy(alloc)?;
    let pending = Pending::Status {
        mailbox: mailbox.copy(alloc)?,
        asked: copy_asks(alloc, asked)?,
    };
    Ok(submit(dialog, tag, Ask::Status { mailbox }, pending))
}

pub(crate) fn status(
    alloc: Global,
    deep: bool,
    dialog: &mut Dialog,
    tag: &Name,
    mailbox: &Text,
    asked: &StatusAsks,
) -> Result<ImapOut, NoMemory>
    ensures ok { IfOk result (λ out. spec.status tag.now dialog.old dialog.old.user (mailbox_named deep mailbox.now) asked.now ≡ took out dialog.new) }
    ensures err { OnErr result (dialog.new ≡ dialog.old) }
{
    match dialog.user {
        None => say(alloc, tag, Answer::WrongState),
        Some(_) => match mailbox_of(alloc, deep, mailbox)? {
            None => say(alloc, tag, Answer::Refused(Refused::NoBox)),
            Some(mailbox) => submit_status(alloc, dialog, tag, mailbox, asked),
        },
    }
}

/// A mailbox is told of.
pub(crate) fn counted(
    alloc: Global,
    store: &Store,
    stamps: &Stamps,
    user: Option<User>,
    tag: &Name,
    mailbox: &Name,
    asked: &StatusAsks,
) -> Result<ImapOut, NoMemory>
    requires valid { IsValid store.now.store }
    requires rising { IsTrue (is_rising stamps.now) }
    ensures { IfOk result (λ out. out ≡ ImapOut.Say (status_line mailbox.now asked.now (facts_at store.now.store stamps.now user mailbox.now) ++ words.tagged tag.now (Answer.Done Word.Status))) }
{
    let facts = status_facts(store, stamps, user, mailbox, asked)?;
    let text = render_status(alloc, mailbox, asked, &facts)?;
    tell(text, tag, Answer::Done(Word::Status))
}
