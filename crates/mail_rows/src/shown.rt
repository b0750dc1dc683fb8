//! What an item shows its user.
ghost use Rattle.std.specs.Prelude.{◌≡◌, [], IsTrue, IfOk, option_map, length, if◌then◌else◌};
ghost use Rattle.verb_core.specs.declared.mailbox.Mailbox.{Mailbox as TheMailbox};
ghost use Rattle.verb_core.specs.Boxes.{box_of, has_row, is_rising, mail_at, row_at};
ghost use Rattle.verb_core.specs.Mailboxes.{keys_of};
ghost use Rattle.verb_core.specs.Step.{changes_nothing, saved, shown, way_of};

use crate::inferiors::{is_below_itself, is_overlong};
use crate::lookup::search_mailbox;
use crate::pattern::listed;
use crate::sights::{left_of, others_of, sights_of, there_of};
use std::alloc::Global;
use undo_base::{Key, Keys, Name, NoMemory, User};
use verb_core::{BoxId, Deed, EntriesView, Entry, Mailbox, Shown, Way, is_fixed, is_lost_found};

/// The entries of the mailbox of that user and name; none where it is missing.
pub fn view_of<'a>(rows: &'a [(BoxId, Mailbox)], user: User, name: &Name) -> EntriesView<'a>
    requires { IsTrue (is_rising rows.now) }
    ensures { result ≡ mail_at (box_of user name.now) rows.now }
{
    match search_mailbox(rows, user, name) {
        None => EntriesView::none(),
        Some(mailbox) => mailbox.entries.view(),
    }
}

/// The same as a slice.
fn mail_of<'a>(rows: &'a [(BoxId, Mailbox)], user: User, name: &Name) -> &'a [Entry]
    requires { IsTrue (is_rising rows.now) }
    ensures { result.now ≡ mail_at (box_of user name.now) rows.now }
{
    view_of(rows, user, name).as_slice()
}

/// How many entries the mailbox has, where it is there. More than 4,294,967,295 find no memory.
fn count_of(rows: &[(BoxId, Mailbox)], user: User, name: &Name) -> Result<Option<u32>, NoMemory>
    requires { IsTrue (is_rising rows.now) }
    ensures { IfOk result (λ count. count ≡ option_map (λ (m : TheMailbox). length m.entries) (row_at (box_of user name.now) rows.now)) }
{
    match search_mailbox(rows, user, name) {
        None => Ok(None),
        Some(mailbox) => match u32::try_from(mailbox.entries.len()) {
            Ok(count) => Ok(Some(count)),
            Err(_) => Err(NoMemory),
        },
    }
}

/// Whether the names are such that a RENAME changes nothing.
fn renames_nothing(rows: &[(BoxId, Mailbox)], user: User, source: &Name, target: &Name) -> bool
    requires { IsTrue (is_rising rows.now) }
    ensures { result ≡ changes_nothing user source.now target.now rows.now }
{
    target.bytes().is_empty()
        || is_lost_found(source.bytes())
        || is_fixed(target.bytes())
        || source == target
        || is_below_itself(source.bytes(), target.bytes())
        || is_overlong(rows, user, source, target)
}

/// How a RENAME goes.
pub fn way_of(rows: &[(BoxId, Mailbox)], user: User, source: &Name, target: &Name) -> Way
    requires { IsTrue (is_rising rows.now) }
    ensures { result ≡ way_of user source.now target.now rows.now }
{
    if renames_nothing(rows, user, source, target) || search_mailbox(rows, user, source).is_none() {
        return Way::NoSource;
    }
    if search_mailbox(rows, user, target).is_some() {
        Way::Merged
    } else {
        Way::Plain
    }
}

/// The keys that a DELETE moves to Lost+Found.
fn moved_of(
    alloc: Global,
    rows: &[(BoxId, Mailbox)],
    user: User,
    name: &Name,
    keys: &[Key],
) -> Result<Keys, NoMemory>
    requires { IsTrue (is_rising rows.now) }
    ensures { IfOk result (λ moved. moved ≡ keys_of (saved user name.now keys.now rows.now)) }
{
    if is_fixed(name.bytes()) {
        return Ok(Keys::new(alloc));
    }
    others_of(alloc, mail_of(rows, user, name), keys)
}

/// What the user is shown of a deed, before it is done. Counts of more than 4,294,967,295 find no memory.
pub fn shown_by(
    alloc: Global,
    rows: &[(BoxId, Mailbox)],
    redirected: bool,
    user: User,
    deed: &Deed,
) -> Result<Shown, NoMemory>
    requires { IsTrue (is_rising rows.now) }
    ensures { IfOk result (λ s. s ≡ shown redirected user deed.now rows.now) }
{
    match deed {
        Deed::Append { .. } => Ok(Shown::Put { redirected }),
        Deed::Fetch { mailbox, keys, .. } => {
            let mail = view_of(rows, user, mailbox);
            Ok(Shown::Seen(sights_of(alloc, &mail, keys.as_slice())?))
        }
        Deed::Store { mailbox, keys, .. } => {
            let mail = view_of(rows, user, mailbox);
            Ok(Shown::Done(there_of(alloc, &mail, keys.as_slice())?))
        }
        Deed::Copy { mailbox, keys, .. } => {
            let mail = view_of(rows, user, mailbox);
            let keys = there_of(alloc, &mail, keys.as_slice())?;
            Ok(Shown::Copied { keys, redirected })
        }
        Deed::List { pattern } => Ok(Shown::Names(listed(alloc, rows, user, pattern)?)),
        Deed::Status { mailbox } => Ok(Shown::Count(count_of(rows, user, mailbox)?)),
        Deed::Select { mailbox } => Ok(Shown::Count(count_of(rows, user, mailbox)?)),
        Deed::Expunge { mailbox, keys } => {
            let mail = mail_of(rows, user, mailbox);
            Ok(Shown::Left(left_of(alloc, mail, keys.as_slice())?))
        }
        Deed::Close { mailbox, keys } => {
            let mail = mail_of(rows, user, mailbox);
            Ok(Shown::Left(left_of(alloc, mail, keys.as_slice())?))
        }
        Deed::Rename { mailbox, target } => Ok(Shown::Way(way_of(rows, user, mailbox, target))),
        Deed::Delete { mailbox, keys } => {
            let moved = moved_of(alloc, rows, user, mailbox, keys.as_slice())?;
            Ok(Shown::Moved(moved))
        }
        Deed::Deliver { .. } => Ok(Shown::Nothing),
        Deed::Create { .. } => Ok(Shown::Nothing),
        Deed::Act(_) => Ok(Shown::Nothing),
        Deed::Notice { .. } => Ok(Shown::Nothing),
    }
}
