//! What an ask would use up: mailboxes, UIDs and numbers.
ghost use Rattle.std.specs.Prelude.{◌≡◌, ◌≤◌, ◌+◌, ◌&&◌, IsTrue, IfOk, option_map, filter, length, nat_lt, not, bytes_eq, if◌then◌else◌};
ghost use Rattle.std.specs.Ordering.{eq_by_cmp};
ghost use Rattle.verb_core.specs.declared.conf.Filter.{Filter as TheFilter};
ghost use Rattle.verb_core.specs.Names.{inbox, is_empty, superiors, with_superiors};
ghost use Rattle.verb_core.specs.Mailboxes.{there};
ghost use Rattle.verb_core.specs.Boxes.{box_cmp, box_of, names_of};
ghost use Rattle.verb_core.specs.Store.{is_house};
ghost use Rattle.verb_core.specs.Aims.{delivered, box_aimed};
ghost use Rattle.verb_core.specs.Filters.{deciding};
ghost use Rattle.verb_core.specs.Live.{asker, mail_of, is_wide};
ghost use Rattle.box_store.specs.Refusing.{adds_names, fills_up, is_free, outgrows, box_outgrows, aims_at, aims_outgrow, uses_up, by_room};

use crate::Store;
use crate::names::but_last;
use crate::refusals::{has_box, mail_of, view_of};
use mail_rows::aims::reach_delivery;
use mail_rows::lookup::rows_of;
use mail_rows::sights::there_of;
use std::alloc::Global;
use undo_base::{
    END_OF_NUMBERS, Keys, LAST_NUMBER, MOST_BOXES, MOST_UID, Name, Names, NoMemory, Text, User,
};
use verb_core::{Aim, Ask, Refused, is_inbox, names_with_superiors, who_acts};

/// How many mailboxes the user has.
#[tactic(auto, using(crate::proofs::KeysThere::length_names))]
fn count_boxes(store: &Store, user: User) -> usize
    ensures { result ≡ length (names_of user store.now.store.boxes) }
{
    rows_of(store.rows.as_slice(), user).len()
}

/// How many of the names no mailbox of the asker has.
fn count_free(store: &Store, by: Option<User>, names: &[Name]) -> usize
    ensures { result ≡ length (filter (is_free store.now.store by) names.now) }
{
    names
        .iter()
        .filter(|name| !has_box(store, by, name))
        .count()
}

/// How many mailboxes a CREATE makes: itself and its superiors that are missing.
fn count_created(
    alloc: Global,
    store: &Store,
    by: Option<User>,
    mailbox: &Name,
) -> Result<usize, NoMemory>
    ensures { IfOk result (λ count. count ≡ length (filter (is_free store.now.store by) (with_superiors mailbox.now))) }
{
    let names = names_with_superiors(alloc, mailbox)?;
    Ok(count_free(store, by, names.as_slice()))
}

/// How many superiors a RENAME makes: those of its target that are missing.
fn count_made(
    alloc: Global,
    store: &Store,
    by: Option<User>,
    target: &Name,
) -> Result<usize, NoMemory>
    ensures { IfOk result (λ count. count ≡ length (filter (is_free store.now.store by) (superiors target.now))) }
{
    let names = names_with_superiors(alloc, target)?;
    Ok(count_free(store, by, but_last(names.as_slice())))
}

/// How many mailboxes more a RENAME leaves: the superiors that it makes and, of INBOX, which stays, the target.
fn count_renamed(
    alloc: Global,
    store: &Store,
    by: Option<User>,
    mailbox: &Name,
    target: &Name,
) -> Result<usize, NoMemory>
    ensures { IfOk result (λ count. count ≡ (if is_empty target.now then 0 else length (filter (is_free store.now.store by) (superiors target.now)) + (if bytes_eq mailbox.now inbox then 1 else 0))) }
{
    if target.bytes().is_empty() {
        return Ok(0);
    }
    let made = count_made(alloc, store, by, target)?;
    if !is_inbox(mailbox.bytes()) {
        return Ok(made);
    }
    match made.checked_add(1) {
        Some(count) => Ok(count),
        None => Err(NoMemory),
    }
}

/// How many mailboxes more an ask leaves.
fn adds_names(alloc: Global, store: &Store, by: Option<User>, ask: &Ask) -> Result<usize, NoMemory>
    ensures { IfOk result (λ count. count ≡ adds_names store.now.store by ask.now) }
{
    match ask {
        Ask::Create { mailbox } => count_created(alloc, store, by, mailbox),
        Ask::Rename { mailbox, target } => count_renamed(alloc, store, by, mailbox, target),
        Ask::Deliver { .. } => Ok(0),
        Ask::Append { .. } => Ok(0),
        Ask::Fetch { .. } => Ok(0),
        Ask::Store { .. } => Ok(0),
        Ask::Copy { .. } => Ok(0),
        Ask::List { .. } => Ok(0),
        Ask::Status { .. } => Ok(0),
        Ask::Select { .. } => Ok(0),
        Ask::Expunge { .. } => Ok(0),
        Ask::Close { .. } => Ok(0),
        Ask::Delete { .. } => Ok(0),
    }
}

/// Whether a user with so many mailboxes gets so many more that they are more than a thousand.
fn are_too_many(count: usize, more: usize) -> bool
    ensures { result ≡ (nat_lt 0 more && nat_lt 1000 (count + more)) }
{
    more > 0 && (count > MOST_BOXES || more > MOST_BOXES - count)
}

/// Whether there would be so many mailboxes more that the asker has more than a thousand.
fn fills_up(alloc: Global, store: &Store, by: Option<User>, ask: &Ask) -> Result<bool, NoMemory>
    ensures { IfOk result (λ full. full ≡ fills_up store.now.store by ask.now) }
{
    let more = adds_names(alloc, store, by, ask)?;
    Ok(are_too_many(count_boxes(store, who_acts(by)), more))
}

/// Whether new entries take the next UID past 32 bits.
fn outgrows(next: u64, more: usize) -> bool
    ensures { result ≡ outgrows next more }
{
    more > 0 && (next > MOST_UID || more as u64 > MOST_UID - next)
}

/// Whether so many new entries take the next UID of a mailbox past 32 bits.
fn box_outgrows(store: &Store, user: User, name: &Name, more: usize) -> bool
    ensures { result ≡ box_outgrows store.now.store.boxes (box_of user name.now) more }
{
    match store.mailbox(user, name) {
        None => false,
        Some(mailbox) => outgrows(mailbox.next, more),
    }
}

/// Whether two aims are one mailbox.
fn is_same_box(one: &Aim, other: &Aim) -> bool
    ensures { result ≡ eq_by_cmp box_cmp (box_aimed one.now) (box_aimed other.now) }
{
    one.user == other.user && one.mailbox.bytes() == other.mailbox.bytes()
}

/// How many of the aims are the mailbox of this one.
fn count_aims(aims: &[Aim], aim: &Aim) -> usize
    ensures { result ≡ aims_at (box_aimed aim.now) aims.now }
{
    aims.iter().filter(|other| is_same_box(other, aim)).count()
}

/// Whether one message for each aim takes a next UID past 32 bits.
fn aims_outgrow(store: &Store, aims: &[Aim]) -> bool
    ensures { result ≡ aims_outgrow store.now.store.boxes aims.now }
{
    aims.iter().any(|aim| box_outgrows(store, aim.user, &aim.mailbox, count_aims(aims, aim)))
}

/// Whether a delivery takes a next UID past 32 bits.
fn delivery_outgrows(
    alloc: Global,
    store: &Store,
    from: &Text,
    to: &Names,
    text: &Text,
) -> Result<bool, NoMemory>
    requires { IsTrue (is_house store.now.store.house) }
    ensures { IfOk result (λ passes. passes ≡ aims_outgrow store.now.store.boxes (delivered store.now.store to.now (option_map (λ (f : TheFilter). f.file) (deciding store.now.store.conf from.now to.now text.now))).aims) }
{
    let reach = reach_delivery(
        alloc,
        store.rows.as_slice(),
        &store.house,
        store.conf.conf(),
        from,
        to,
        text.bytes(),
    )?;
    Ok(aims_outgrow(store, reach.aims.as_slice()))
}

/// Whether a COPY takes the target's next UID past 32 bits.
fn copy_outgrows(
    alloc: Global,
    store: &Store,
    by: Option<User>,
    mailbox: &Name,
    keys: &Keys,
    target: &Name,
) -> Result<bool, NoMemory>
    ensures { IfOk result (λ passes. passes ≡ box_outgrows store.now.store.boxes (box_of (asker by) target.now) (length (there (mail_of store.now.store by mailbox.now) keys.now))) }
{
    if !box_outgrows(store, who_acts(by), target, keys.len()) {
        return Ok(false);
    }
    let found = there_of(alloc, &view_of(store, by, mailbox), keys.as_slice())?;
    Ok(box_outgrows(store, who_acts(by), target, found.len()))
}

/// Whether the next UID of the asker's mailbox is past 32 bits.
fn is_wide(store: &Store, by: Option<User>, name: &Name) -> bool
    ensures { result ≡ is_wide store.now.store (box_of (asker by) name.now) }
{
    match store.mailbox(who_acts(by), name) {
        None => false,
        Some(mailbox) => mailbox.next > MOST_UID,
    }
}

/// Whether the mail of INBOX takes the next UID of a new mailbox past 32 bits.
fn rename_outgrows(store: &Store, by: Option<User>, mailbox: &Name, target: &Name) -> bool
    ensures { result ≡ (not (is_empty target.now) && bytes_eq mailbox.now inbox && outgrows 1 (length (mail_of store.now.store by mailbox.now))) }
{
    !target.bytes().is_empty()
        && is_inbox(mailbox.bytes())
        && outgrows(1, mail_of(store, by, mailbox).len())
}

/// Whether a mailbox has used up its UIDs, or would.
fn uses_up(alloc: Global, store: &Store, by: Option<User>, ask: &Ask) -> Result<bool, NoMemory>
    requires { IsTrue (is_house store.now.store.house) }
    ensures { IfOk result (λ passes. passes ≡ uses_up store.now.store by ask.now) }
{
    match ask {
        Ask::Deliver { from, to, text } => delivery_outgrows(alloc, store, from, to, text),
        Ask::Append { mailbox, .. } => Ok(box_outgrows(store, who_acts(by), mailbox, 1)),
        Ask::Copy {
            mailbox,
            keys,
            target,
            ..
        } => copy_outgrows(alloc, store, by, mailbox, keys, target),
        Ask::Rename { mailbox, target } => Ok(rename_outgrows(store, by, mailbox, target)),
        Ask::Status { mailbox } => Ok(is_wide(store, by, mailbox)),
        Ask::Select { mailbox } => Ok(is_wide(store, by, mailbox)),
        Ask::Fetch { .. } => Ok(false),
        Ask::Store { .. } => Ok(false),
        Ask::List { .. } => Ok(false),
        Ask::Expunge { .. } => Ok(false),
        Ask::Close { .. } => Ok(false),
        Ask::Create { .. } => Ok(false),
        Ask::Delete { .. } => Ok(false),
    }
}

/// The first refusal by what is used up.
pub(crate) fn refused_by_room(
    alloc: Global,
    store: &Store,
    number: u32,
    by: Option<User>,
    ask: &Ask,
) -> Result<Option<Refused>, NoMemory>
    requires house { IsTrue (is_house store.now.store.house) }
    requires number { number ≤ END_OF_NUMBERS }
    ensures { IfOk result (λ refused. refused ≡ by_room store.now.store number by ask.now) }
{
    if fills_up(alloc, store, by, ask)? {
        return Ok(Some(Refused::BoxesFull));
    }
    if uses_up(alloc, store, by, ask)? {
        return Ok(Some(Refused::UidWide));
    }
    if number > LAST_NUMBER {
        return Ok(Some(Refused::Numbers { next: number }));
    }
    Ok(None)
}
