//! The outcome of what was asked of the store.
ghost use Rattle.std.specs.Prelude.{◌≡◌, ◌++◌, true, if◌then◌else◌, [], IfOk, IsTrue, OnOk, OnErr, IfSome, None};
ghost use Rattle.verb_core.specs.Boxes.{is_rising};
ghost use Rattle.verb_core.specs.Store.{IsValid};
ghost use Rattle.verb_core.specs.Live.{mail_of as mail_in};
ghost use Rattle.imap_fetch.specs.Told.{fetch_lines as told_lines, store_lines as stored_lines};
ghost use Rattle.imap_text.specs.Answers.{select_lines};
ghost use Rattle.imap_view.specs.Facts.{facts_at};
ghost use Rattle.imap_session.specs.declared.dialog.Awaits.TheVariants.{Nothing as AtRest};
ghost use Rattle.imap_view.specs.Views as views;
ghost use Rattle.imap_session.specs.Words as words;
ghost use Rattle.imap_session.specs.Dialog.{took};
ghost use Rattle.imap_session.specs.Dialog as spec;

use crate::commands::{follow, hold, say, say_nothing, tell, wait_for};
use crate::dialog::{Awaits, Dialog, Pending, Selected};
use crate::lists::{counted, listed};
use crate::out::ImapOut;
use crate::search::searched;
use crate::words::{Answer, Word, fetch_word, store_word};
use box_store::Store;
use imap_fetch::{FetchForm, Messages, StoreForm, fetch_lines, store_lines};
use imap_text::render_select;
use imap_view::{is_there, mail_of, select_facts, view_of};
use std::alloc::Global;
use undo_base::{Name, NoMemory, Text, Texts, User};
use verb_core::{Item, Stamps, SubmitFault};

/// A mailbox, with all that lies in it known.
fn opened(
    alloc: Global,
    store: &Store,
    user: Option<User>,
    mailbox: &Name,
    writes: bool,
) -> Result<Selected, NoMemory>
    requires { IsValid store.now.store }
    ensures { IfOk result (λ s. s ≡ record { mailbox = mailbox.now; view = views.view_of (mail_in store.now.store user mailbox.now); writes = writes }) }
{
    let view = view_of(alloc, mail_of(store, user, mailbox))?;
    let mailbox = mailbox.copy(alloc)?;
    Ok(Selected {
        mailbox,
        view,
        writes,
    })
}

/// What a mailbox that is selected tells of itself.
fn told_opened(
    alloc: Global,
    store: &Store,
    stamps: &Stamps,
    user: Option<User>,
    tag: &Name,
    mailbox: &Name,
    writes: bool,
) -> Result<ImapOut, NoMemory>
    requires valid { IsValid store.now.store }
    requires rising { IsTrue (is_rising stamps.now) }
    ensures { IfOk result (λ out. out ≡ ImapOut.Say (select_lines (facts_at store.now.store stamps.now user mailbox.now) writes ++ words.tagged tag.now (Answer.Opened writes))) }
{
    let facts = select_facts(store, stamps, user, mailbox)?;
    let text = render_select(alloc, &facts, writes)?;
    tell(text, tag, Answer::Opened { writes })
}

/// A mailbox is selected, and tells of itself.
fn selects(
    alloc: Global,
    store: &Store,
    stamps: &Stamps,
    user: Option<User>,
    selected: &mut Option<Selected>,
    tag: &Name,
    mailbox: &Name,
    writes: bool,
) -> Result<ImapOut, NoMemory>
    requires valid { IsValid store.now.store }
    requires rising { IsTrue (is_rising stamps.now) }
    ensures ok { IfOk result (λ out.
        spec.selects store.now.store stamps.now tag.now (record { user = user; selected = selected.old; awaits = AtRest }) mailbox.now writes
        ≡ took out (record { user = user; selected = selected.new; awaits = AtRest })) }
    ensures err { OnErr result (selected.new ≡ selected.old) }
{
    let now = opened(alloc, store, user, mailbox, writes)?;
    match told_opened(alloc, store, stamps, user, tag, mailbox, writes) {
        Ok(out) => {
            hold(selected, Some(now));
            Ok(out)
        }
        Err(NoMemory) => {
            drop(now);
            Err(NoMemory)
        }
    }
}

fn fetched(
    alloc: Global,
    tag: &Name,
    form: &FetchForm,
    rows: &Messages,
    texts: &Texts,
) -> Result<ImapOut, NoMemory>
    ensures { IfOk result (λ out. out ≡ ImapOut.Say (told_lines form.now rows.now texts.now ++ words.tagged tag.now (Answer.Done (words.fetch_word form.now.by_uid)))) }
{
    let text = fetch_lines(alloc, form, rows, texts)?;
    tell(text, tag, Answer::Done(fetch_word(form.by_uid)))
}

fn new_flags(
    alloc: Global,
    form: StoreForm,
    silent: bool,
    rows: &Messages,
) -> Result<Text, NoMemory>
    ensures { IfOk result (λ text. text ≡ (if silent then [] else stored_lines form rows.now)) }
{
    if silent {
        Ok(Text::new(alloc))
    } else {
        store_lines(alloc, form, rows)
    }
}

fn stored(
    alloc: Global,
    tag: &Name,
    form: StoreForm,
    silent: bool,
    rows: &Messages,
) -> Result<ImapOut, NoMemory>
    ensures { IfOk result (λ out. out ≡ ImapOut.Say ((if silent then [] else stored_lines form rows.now) ++ words.tagged tag.now (Answer.Done (words.store_word form.by_uid)))) }
{
    let text = new_flags(alloc, form, silent, rows)?;
    tell(text, tag, Answer::Done(store_word(form.by_uid)))
}

/// Whether the selected mailbox is no more.
fn is_lost(store: &Store, user: Option<User>, selected: &Option<Selected>) -> bool
    ensures { result ≡ spec.is_lost store.now.store user selected.now }
{
    match selected {
        None => false,
        Some(selected) => !is_there(store, user, &selected.mailbox),
    }
}

/// A mailbox's name may have been taken away: where it was the selected one, none is selected any more.
fn leave(
    alloc: Global,
    store: &Store,
    user: Option<User>,
    selected: &mut Option<Selected>,
    tag: &Name,
    word: Word,
) -> Result<ImapOut, NoMemory>
    ensures said { IfOk result (λ out. out ≡ ImapOut.Say (words.tagged tag.now (Answer.Done word))) }
    ensures kept { OnOk result (selected.new ≡ spec.still_selected store.now.store user selected.old) }
    ensures err { OnErr result (selected.new ≡ selected.old) }
{
    let out = say(alloc, tag, Answer::Done(word))?;
    if is_lost(store, user, selected) {
        hold(selected, None);
    }
    Ok(out)
}

/// No mailbox is selected any more.
fn close(alloc: Global, selected: &mut Option<Selected>, tag: &Name) -> Result<ImapOut, NoMemory>
    ensures said { IfOk result (λ out. out ≡ ImapOut.Say (words.tagged tag.now (Answer.Done Word.Close))) }
    ensures none { OnOk result (selected.new ≡ None) }
    ensures err { OnErr result (selected.new ≡ selected.old) }
{
    let out = say(alloc, tag, Answer::Done(Word::Close))?;
    hold(selected, None);
    Ok(out)
}

/// What was asked is done.
fn done(
    alloc: Global,
    store: &Store,
    stamps: &Stamps,
    user: Option<User>,
    selected: &mut Option<Selected>,
    tag: &Name,
    pending: &Pending,
    item: &Item,
) -> Result<ImapOut, NoMemory>
    requires valid { IsValid store.now.store }
    requires rising { IsTrue (is_rising stamps.now) }
    requires order { IfSome selected.old (λ s. views.is_in_order s.view ≡ true) }
    ensures ok { IfOk result (λ out.
        spec.done store.now.store stamps.now tag.now (record { user = user; selected = selected.old; awaits = AtRest }) item.now pending.now
        ≡ took out (record { user = user; selected = selected.new; awaits = AtRest })) }
    ensures err { OnErr result (selected.new ≡ selected.old) }
{
    match pending {
        Pending::Select { mailbox, writes } => selects(
            alloc, store, stamps, user, selected, tag, mailbox, *writes,
        ),
        Pending::Fetch { form, rows, texts } => fetched(alloc, tag, form, rows, texts),
        Pending::Search { by_uid, numbers } => searched(alloc, tag, *by_uid, numbers),
        Pending::Store { form, silent, rows } => stored(alloc, tag, *form, *silent, rows),
        Pending::Plain { word } => say(alloc, tag, Answer::Done(*word)),
        Pending::Leave { word } => leave(alloc, store, user, selected, tag, *word),
        Pending::Close => close(alloc, selected, tag),
        Pending::List { subscribed, deep } => {
            listed(alloc, *deep, tag, *subscribed, &item.shown)
        }
        Pending::Status { mailbox, asked } => {
            counted(alloc, store, stamps, user, tag, mailbox, asked)
        }
        Pending::Follow { word } => follow(alloc, store, user, selected, tag, *word, false),
    }
}

/// A mailbox that can't be selected leaves none selected.
fn give_up(selected: &mut Option<Selected>, pending: &Pending)
    ensures { selected.new ≡ spec.selected_after pending.now selected.old }
{
    match pending {
        Pending::Select {
            mailbox: _,
            writes: _,
        } => hold(selected, None),
        Pending::Fetch {
            form: _,
            rows: _,
            texts: _,
        } => {}
        Pending::Search {
            by_uid: _,
            numbers: _,
        } => {}
        Pending::Store {
            form: _,
            silent: _,
            rows: _,
        } => {}
        Pending::Plain { word: _ } => {}
        Pending::Leave { word: _ } => {}
        Pending::Close => {}
        Pending::List {
            subscribed: _,
            deep: _,
        } => {}
        Pending::Status {
            mailbox: _,
            asked: _,
        } => {}
        Pending::Follow { word: _ } => {}
    }
}

fn last_words(alloc: Global) -> Result<ImapOut, NoMemory>
    ensures { IfOk result (λ out. out ≡ ImapOut.Bye words.fault_text) }
{
    Ok(ImapOut::Bye(Text::of(alloc, b"* BYE Disk fault.\r\n")?))
}

/// It is not done.
fn undone(
    alloc: Global,
    user: Option<User>,
    selected: &mut Option<Selected>,
    tag: &Name,
    pending: &Pending,
    fault: SubmitFault,
) -> Result<ImapOut, NoMemory>
    ensures ok { IfOk result (λ out.
        spec.undone tag.now (record { user = user; selected = selected.old; awaits = AtRest }) pending.now fault
        ≡ took out (record { user = user; selected = selected.new; awaits = AtRest })) }
    ensures err { OnErr result (selected.new ≡ selected.old) }
{
    let _user = user;
    match fault {
        SubmitFault::Refused(why) => {
            let out = say(alloc, tag, Answer::Refused(why))?;
            give_up(selected, pending);
            Ok(out)
        }
        SubmitFault::Disk => last_words(alloc),
        SubmitFault::Closed => last_words(alloc),
    }
}

fn settle_pending(
    alloc: Global,
    store: &Store,
    stamps: &Stamps,
    user: Option<User>,
    selected: &mut Option<Selected>,
    tag: &Name,
    pending: &Pending,
    outcome: &Result<Item, SubmitFault>,
) -> Result<ImapOut, NoMemory>
    requires valid { IsValid store.now.store }
    requires rising { IsTrue (is_rising stamps.now) }
    requires order { IfSome selected.old (λ s. views.is_in_order s.view ≡ true) }
    ensures ok { IfOk result (λ out.
        spec.settle_pending store.now.store stamps.now tag.now (record { user = user; selected = selected.old; awaits = AtRest }) pending.now outcome.now
        ≡ took out (record { user = user; selected = selected.new; awaits = AtRest })) }
    ensures err { OnErr result (selected.new ≡ selected.old) }
{
    match outcome {
        Ok(item) => done(alloc, store, stamps, user, selected, tag, pending, item),
        Err(fault) => undone(alloc, user, selected, tag, pending, *fault),
    }
}

/// The outcome of what was asked, with the store and the stamps after it. Where none is awaited nothing is said.
pub(crate) fn settle(
    alloc: Global,
    store: &Store,
    stamps: &Stamps,
    dialog: &mut Dialog,
    outcome: &Result<Item, SubmitFault>,
) -> Result<ImapOut, NoMemory>
    requires valid { IsValid store.now.store }
    requires rising { IsTrue (is_rising stamps.now) }
    requires order { IfSome dialog.old.selected (λ s. views.is_in_order s.view ≡ true) }
    ensures ok { IfOk result (λ out. spec.settle store.now.store stamps.now dialog.old outcome.now ≡ took out dialog.new) }
    ensures err { OnErr result (dialog.new ≡ dialog.old) }
{
    let Awaits::Outcome { tag, pending } = &dialog.awaits else {
        return Ok(say_nothing(alloc));
    };
    let out = settle_pending(
        alloc,
        store,
        stamps,
        dialog.user,
        &mut dialog.selected,
        tag,
        pending,
        outcome,
    )?;
    wait_for(dialog, Awaits::Nothing);
    Ok(out)
}
