//! Why an ask is refused, by the mailboxes as they are now.
ghost use Rattle.std.specs.Prelude.{◌≡◌, ◌&&◌, [], IfOk, option_copied, length, count_by, map, filter, not, if◌then◌else◌};
ghost use Rattle.std.specs.List.{cons_option, list_any};
ghost use Rattle.verb_core.specs.Boxes.{box_of, has_row};
ghost use Rattle.verb_core.specs.Live.{asker, mail_of, marked, marked_in, lacks, is_misshapen, misplaces, deletes_superior, is_missing, is_there, is_gone, key_count};
ghost use Rattle.verb_core.specs.Names.{is_new_name as is_new};
ghost use Rattle.box_store.specs.Refusing.{by_names, by_keys};

use crate::Store;
use crate::asked::{asks_fixed, named, new_name, target, too_large};
use mail_rows::inferiors::{has_inferior, is_below_itself, is_overlong};
use mail_rows::sights::{marked_among, there_of};
use std::alloc::{AllocError, Global};
use undo_base::{Key, Keys, MOST_KEYS, Name, NoMemory, User};
use verb_core::{Ask, EntriesView, Entry, Refused, is_new_name, who_acts};

/// Whether the asker has a mailbox of that name.
pub(crate) fn has_box(store: &Store, by: Option<User>, name: &Name) -> bool
    ensures { result ≡ has_row (box_of (asker by) name.now) store.now.store.boxes }
{
    store.mailbox(who_acts(by), name).is_some()
}

/// The asker's mail of that name; none where the mailbox is missing.
pub(crate) fn view_of<'a>(store: &'a Store, by: Option<User>, name: &Name) -> EntriesView<'a>
    ensures { result ≡ mail_of store.now.store by name.now }
{
    match store.mailbox(who_acts(by), name) {
        None => EntriesView::none(),
        Some(mailbox) => mailbox.entries.view(),
    }
}

/// The same as a slice.
pub(crate) fn mail_of<'a>(store: &'a Store, by: Option<User>, name: &Name) -> &'a [Entry]
    ensures { result.now ≡ mail_of store.now.store by name.now }
{
    view_of(store, by, name).as_slice()
}

/// Whether a mailbox of the asker that is named is missing.
fn is_missing(store: &Store, by: Option<User>, name: Option<&Name>) -> bool
    ensures { result ≡ is_missing store.now.store by (cons_option (option_copied name.entry) []) }
{
    match name {
        None => false,
        Some(name) => !has_box(store, by, name),
    }
}

/// Whether a mailbox of the asker that is named is there.
fn is_there(store: &Store, by: Option<User>, name: Option<&Name>) -> bool
    ensures { result ≡ is_there store.now.store by (cons_option (option_copied name.entry) []) }
{
    match name {
        None => false,
        Some(name) => has_box(store, by, name),
    }
}

/// Whether a RENAME asks for names that no mailbox can have: one below its own source, or too long a one for an inferior.
fn misplaces(store: &Store, by: Option<User>, ask: &Ask) -> bool
    ensures { result ≡ misplaces store.now.store by ask.now }
{
    match ask {
        Ask::Rename { mailbox, target } => {
            is_below_itself(mailbox.bytes(), target.bytes())
                || is_overlong(store.rows.as_slice(), who_acts(by), mailbox, target)
        }
        Ask::Deliver { .. } => false,
        Ask::Append { .. } => false,
        Ask::Fetch { .. } => false,
        Ask::Store { .. } => false,
        Ask::Copy { .. } => false,
        Ask::List { .. } => false,
        Ask::Status { .. } => false,
        Ask::Select { .. } => false,
        Ask::Expunge { .. } => false,
        Ask::Close { .. } => false,
        Ask::Create { .. } => false,
        Ask::Delete { .. } => false,
    }
}

/// Whether no new mailbox can have a name, where there is one.
fn is_no_new_name(deep: bool, name: Option<&Name>) -> bool
    ensures { result ≡ list_any (λ n. not (is_new deep n)) (cons_option (option_copied name.entry) []) }
{
    match name {
        None => false,
        Some(name) => !is_new_name(deep, name.bytes()),
    }
}

/// Whether a new name can't be one, where the store is deep or not.
fn is_misshapen(store: &Store, by: Option<User>, ask: &Ask, deep: bool) -> bool
    ensures { result ≡ is_misshapen store.now.store by ask.now deep }
{
    is_no_new_name(deep, new_name(ask)) || misplaces(store, by, ask)
}

/// Whether a DELETE names a mailbox that has an inferior.
fn deletes_superior(store: &Store, by: Option<User>, ask: &Ask) -> bool
    ensures { result ≡ deletes_superior store.now.store by ask.now }
{
    match ask {
        Ask::Delete { mailbox } => {
            has_inferior(store.rows.as_slice(), who_acts(by), mailbox.bytes())
        }
        Ask::Deliver { .. } => false,
        Ask::Append { .. } => false,
        Ask::Fetch { .. } => false,
        Ask::Store { .. } => false,
        Ask::Copy { .. } => false,
        Ask::List { .. } => false,
        Ask::Status { .. } => false,
        Ask::Select { .. } => false,
        Ask::Expunge { .. } => false,
        Ask::Close { .. } => false,
        Ask::Create { .. } => false,
        Ask::Rename { .. } => false,
    }
}

/// The first refusal by the names in an ask, and by the mailboxes that are there.
pub(crate) fn refused_by_names(
    store: &Store,
    by: Option<User>,
    ask: &Ask,
    deep: bool,
) -> Option<Refused>
    ensures { result ≡ by_names store.now.store by ask.now deep }
{
    if is_misshapen(store, by, ask, deep) {
        return Some(Refused::NameShape);
    }
    if asks_fixed(ask) {
        return Some(Refused::Fixed);
    }
    if is_missing(store, by, named(ask)) {
        return Some(Refused::NoBox);
    }
    if deletes_superior(store, by, ask) {
        return Some(Refused::HasInferiors);
    }
    if is_missing(store, by, target(ask)) {
        return Some(Refused::TryCreate);
    }
    if is_there(store, by, new_name(ask)) {
        return Some(Refused::Exists);
    }
    None
}

fn marked_keys(alloc: Global, entries: &[Entry]) -> Result<Vec<Key>, AllocError>
    ensures { IfOk result (λ keys. keys.items ≡ map (λ e. e.key) (filter (λ e. e.flags.deleted) entries.now)) }
{
    entries
        .iter()
        .filter(|entry| entry.flags.deleted)
        .map(|entry| entry.key)
        .collect(alloc)
}

/// The keys of the entries that have `\Deleted`.
pub(crate) fn marked(alloc: Global, entries: &[Entry]) -> Result<Keys, NoMemory>
    ensures { IfOk result (λ keys. keys ≡ marked entries.now) }
{
    Ok(Keys::from_vec(marked_keys(alloc, entries)?))
}

/// The keys of the entries that an EXPUNGE removes: of all that have `\Deleted`, or of those of them that are in `only`.
pub(crate) fn marked_in(
    alloc: Global,
    entries: &[Entry],
    only: Option<&Keys>,
) -> Result<Keys, NoMemory>
    ensures { IfOk result (λ keys. keys ≡ marked_in (option_copied only.entry) entries.now) }
{
    match only {
        None => marked(alloc, entries),
        Some(only) => marked_among(alloc, entries, only.as_slice()),
    }
}

/// How many entries have `\Deleted`.
fn count_marked(entries: &[Entry]) -> usize
    ensures { result ≡ count_by (λ e. e.flags.deleted) entries.now }
{
    entries.iter().filter(|entry| entry.flags.deleted).count()
}

/// How many entries an EXPUNGE removes.
#[tactic(auto, using(crate::proofs::KeysThere::length_marked))]
fn expunge_count(alloc: Global, entries: &[Entry], only: Option<&Keys>) -> Result<usize, NoMemory>
    ensures { IfOk result (λ count. count ≡ length (marked_in (option_copied only.entry) entries.now)) }
{
    match only {
        None => Ok(count_marked(entries)),
        Some(only) => Ok(marked_among(alloc, entries, only.as_slice())?.len()),
    }
}

/// How many keys the item would hold.
fn key_count(alloc: Global, store: &Store, by: Option<User>, ask: &Ask) -> Result<usize, NoMemory>
    ensures { IfOk result (λ count. count ≡ key_count store.now.store by ask.now) }
{
    match ask {
        Ask::Fetch { keys, .. } => Ok(keys.len()),
        Ask::Store { keys, .. } => Ok(keys.len()),
        Ask::Copy { keys, .. } => Ok(keys.len()),
        Ask::Expunge { mailbox, only } => {
            expunge_count(alloc, mail_of(store, by, mailbox), only.as_ref())
        }
        Ask::Close { mailbox, removes } => Ok(close_count(*removes, mail_of(store, by, mailbox))),
        Ask::Delete { mailbox } => Ok(mail_of(store, by, mailbox).len()),
        Ask::Deliver { .. } => Ok(0),
        Ask::Append { .. } => Ok(0),
        Ask::List { .. } => Ok(0),
        Ask::Status { .. } => Ok(0),
        Ask::Select { .. } => Ok(0),
        Ask::Create { .. } => Ok(0),
        Ask::Rename { .. } => Ok(0),
    }
}

/// How many entries a CLOSE removes: none after EXAMINE (RFC 3501, section 6.4.2).
#[tactic(auto, using(crate::proofs::KeysThere::length_marked))]
fn close_count(removes: bool, entries: &[Entry]) -> usize
    ensures { result ≡ length (if removes then marked entries.now else []) }
{
    if removes { count_marked(entries) } else { 0 }
}

/// Whether one of the keys is not there.
fn lacks(alloc: Global, entries: &EntriesView<'_>, keys: &Keys) -> Result<bool, NoMemory>
    ensures { IfOk result (λ lacking. lacking ≡ lacks entries.now keys.now) }
{
    let found = there_of(alloc, entries, keys.as_slice())?;
    Ok(found.len() < keys.len())
}

/// Whether one of the keys, where they were named by sequence number, is no longer there.
fn are_gone(
    alloc: Global,
    strict: bool,
    entries: &EntriesView<'_>,
    keys: &Keys,
) -> Result<bool, NoMemory>
    ensures { IfOk result (λ gone. gone ≡ (strict && lacks entries.now keys.now)) }
{
    if strict {
        lacks(alloc, entries, keys)
    } else {
        Ok(false)
    }
}

/// Whether messages that were named by sequence number are no longer there.
fn is_gone(alloc: Global, store: &Store, by: Option<User>, ask: &Ask) -> Result<bool, NoMemory>
    ensures { IfOk result (λ gone. gone ≡ is_gone store.now.store by ask.now) }
{
    match ask {
        Ask::Fetch {
            mailbox,
            keys,
            strict,
            ..
        } => are_gone(alloc, *strict, &view_of(store, by, mailbox), keys),
        Ask::Store {
            mailbox,
            keys,
            strict,
            ..
        } => are_gone(alloc, *strict, &view_of(store, by, mailbox), keys),
        Ask::Copy {
            mailbox,
            keys,
            strict,
            ..
        } => are_gone(alloc, *strict, &view_of(store, by, mailbox), keys),
        Ask::Deliver { .. } => Ok(false),
        Ask::Append { .. } => Ok(false),
        Ask::List { .. } => Ok(false),
        Ask::Status { .. } => Ok(false),
        Ask::Select { .. } => Ok(false),
        Ask::Expunge { .. } => Ok(false),
        Ask::Close { .. } => Ok(false),
        Ask::Create { .. } => Ok(false),
        Ask::Rename { .. } => Ok(false),
        Ask::Delete { .. } => Ok(false),
    }
}

/// The first refusal by the keys of an ask, and by its size.
pub(crate) fn refused_by_keys(
    alloc: Global,
    store: &Store,
    by: Option<User>,
    ask: &Ask,
) -> Result<Option<Refused>, NoMemory>
    ensures { IfOk result (λ refused. refused ≡ by_keys store.now.store by ask.now) }
{
    if is_gone(alloc, store, by, ask)? {
        return Ok(Some(Refused::Gone));
    }
    let count = key_count(alloc, store, by, ask)?;
    if count > MOST_KEYS {
        return Ok(Some(Refused::TooMany {
            asked: count as u64,
        }));
    }
    match too_large(ask) {
        Some(asked) => Ok(Some(Refused::TooLarge { asked })),
        None => Ok(None),
    }
}
