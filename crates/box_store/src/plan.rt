//! What an item does to mailboxes, worked out on those that there are. A work is as large as what it changes.
ghost use Rattle.std.specs.Prelude.{◌≡◌, ◌++◌, ◌∷◌, ◌+◌, ◌≤◌, ◌<◌, [], IsTrue, IfOk, OnOk, length, map, true, if◌then◌else◌};
ghost use Rattle.std.specs.List.{cons_option};
ghost use Rattle.undo_base.specs.declared.asks.How.TheVariants.{Add};
ghost use Rattle.verb_core.specs.declared.item.Deed.TheVariants.{Act as Acts};
ghost use Rattle.verb_core.specs.Aims.{box_aimed};
ghost use Rattle.verb_core.specs.Boxes.{box_of, change_row, is_rising, same_user};
ghost use Rattle.verb_core.specs.Names.{superiors, with_superiors};
ghost use Rattle.verb_core.specs.Items.{actor, keys_in};
ghost use Rattle.verb_core.specs.Mailboxes.{copies, expunged, no_flags, reflagged, with_entries, without};
ghost use Rattle.verb_core.specs.Step.{after_rename, all_created, created_below, deleted, message, put_at, rearranged, way_of};
ghost use Rattle.verb_core.specs.Touched.{deed_touches, is_one};
ghost use Rattle.box_store.specs.Effects.{renamed_by, worked};
ghost use Rattle.mail_rows.specs.Changes.{copies_by, copy_by, puts_by};
ghost use Rattle.box_store.specs.Plans.{Does, after, missing_of, moves_of};

use crate::names::{moves_of, superiors_to_create, to_create};
use crate::{KeySet, Move, Work};
use mail_rows::flags::changes_of;
use mail_rows::new_mail::{copy_puts, message_puts, own_message};
use mail_rows::shown::{view_of, way_of};
use std::alloc::Global;
use undo_base::{Flags, How, Key, Keys, Name, Names, NoMemory, Sequence, User};
use verb_core::{Act, Aims, BoxId, Deed, EntriesView, Item, Mailbox, Way, is_inbox};

fn box_named(alloc: Global, user: User, name: &Name) -> Result<BoxId, NoMemory>
    ensures { IfOk result (λ id. id ≡ box_of user name.now) }
{
    let name = name.copy(alloc)?;
    Ok(BoxId { user, name })
}

fn no_work(alloc: Global) -> Work
    ensures { (boxes : _) → worked result boxes ≡ boxes }
{
    Work::Puts(Sequence::new(alloc))
}

fn flags_work(
    alloc: Global,
    rows: &[(BoxId, Mailbox)],
    user: User,
    mailbox: &Name,
    keys: &Keys,
    how: How,
    given: Flags,
) -> Result<Work, NoMemory>
    requires { IsTrue (is_rising rows.now) }
    ensures { IfOk result (λ w. Does (is_one (box_of user mailbox.now ∷ [])) rows.now w (change_row (box_of user mailbox.now) (with_entries (reflagged keys.now how given)))) }
{
    let keys = KeySet::of(alloc, keys.as_slice())?;
    let flags = changes_of(alloc, &view_of(rows, user, mailbox), &keys, how, given)?;
    let mailbox = box_named(alloc, user, mailbox)?;
    Ok(Work::Flags { mailbox, flags })
}

/// What a FETCH does: it sets `\Seen`, or nothing.
fn seen_work(
    alloc: Global,
    rows: &[(BoxId, Mailbox)],
    user: User,
    mailbox: &Name,
    keys: &Keys,
    sets_seen: bool,
) -> Result<Work, NoMemory>
    requires { IsTrue (is_rising rows.now) }
    ensures { IfOk result (λ w. Does (is_one (box_of user mailbox.now ∷ [])) rows.now w (λ boxes. if sets_seen then change_row (box_of user mailbox.now) (with_entries (reflagged keys.now Add (record no_flags { seen = true }))) boxes else boxes)) }
{
    if !sets_seen {
        return Ok(no_work(alloc));
    }
    let seen = Flags {
        seen: true,
        ..Flags::default()
    };
    flags_work(alloc, rows, user, mailbox, keys, How::Add, seen)
}

fn expunge_work(alloc: Global, user: User, mailbox: &Name, keys: &Keys) -> Result<Work, NoMemory>
    ensures { IfOk result (λ w. (boxes : _) → worked w boxes ≡ change_row (box_of user mailbox.now) (with_entries (expunged keys.now)) boxes) }
{
    let keys = KeySet::of(alloc, keys.as_slice())?;
    let mailbox = box_named(alloc, user, mailbox)?;
    Ok(Work::Expunge { mailbox, keys })
}

fn remove_work(alloc: Global, user: User, mailbox: &Name, key: Key) -> Result<Work, NoMemory>
    ensures { IfOk result (λ w. (boxes : _) → worked w boxes ≡ change_row (box_of user mailbox.now) (with_entries (without (key ∷ []))) boxes) }
{
    let mailbox = box_named(alloc, user, mailbox)?;
    Ok(Work::Remove { mailbox, key })
}

fn create_work(
    alloc: Global,
    rows: &[(BoxId, Mailbox)],
    user: User,
    mailbox: &Name,
) -> Result<Work, NoMemory>
    requires { IsTrue (is_rising rows.now) }
    ensures { IfOk result (λ w. Does (is_one (map (box_of user) (with_superiors mailbox.now))) rows.now w (created_below user mailbox.now)) }
{
    let mailboxes = to_create(alloc, rows, user, mailbox)?;
    Ok(Work::Create { user, mailboxes })
}

/// The mailboxes that a RENAME moves, each with its new name: the source and its inferiors. INBOX and what lies below it stay.
fn moves_to_make(
    alloc: Global,
    rows: &[(BoxId, Mailbox)],
    user: User,
    source: &Name,
    target: &Name,
) -> Result<Sequence<Move>, NoMemory>
    requires { IsTrue (is_rising rows.now) }
    ensures { IfOk result (λ moves. (boxes : _) → renamed_by user source.now target.now moves boxes ≡ renamed_by user source.now target.now (moves_of user source.now target.now rows.now) boxes) }
{
    if is_inbox(source.bytes()) {
        return Ok(Sequence::new(alloc));
    }
    moves_of(alloc, rows, user, source, target)
}

/// A RENAME that takes the source and its inferiors to a target that is free, or the mail of INBOX.
fn plain_rename(
    alloc: Global,
    rows: &[(BoxId, Mailbox)],
    user: User,
    source: &Name,
    target: &Name,
) -> Result<Work, NoMemory>
    requires { IsTrue (is_rising rows.now) }
    ensures { IfOk result (λ w. (boxes : _) → worked w boxes ≡ renamed_by user source.now target.now (moves_of user source.now target.now rows.now) (all_created user (missing_of user (superiors target.now) rows.now) boxes)) }
{
    let made = superiors_to_create(alloc, rows, user, target)?;
    let moves = moves_to_make(alloc, rows, user, source, target)?;
    let source = source.copy(alloc)?;
    let target = target.copy(alloc)?;
    Ok(Work::Rename {
        way: Way::Plain,
        user,
        source,
        target,
        made,
        moves,
    })
}

/// A RENAME that merges the mail of its source into its target.
fn merging_rename(alloc: Global, user: User, source: &Name, target: &Name) -> Result<Work, NoMemory>
    ensures { IfOk result (λ w. (boxes : _) → worked w boxes ≡ after_rename Way.Merged user source.now target.now boxes) }
{
    let source = source.copy(alloc)?;
    let target = target.copy(alloc)?;
    Ok(Work::Rename {
        way: Way::Merged,
        user,
        source,
        target,
        made: Names::new(alloc),
        moves: Sequence::new(alloc),
    })
}

fn rename_work(
    alloc: Global,
    rows: &[(BoxId, Mailbox)],
    user: User,
    source: &Name,
    target: &Name,
) -> Result<Work, NoMemory>
    requires { IsTrue (is_rising rows.now) }
    ensures { IfOk result (λ w. Does (λ q. same_user user q.user) rows.now w (λ boxes. after_rename (way_of user source.now target.now boxes) user source.now target.now boxes)) }
{
    match way_of(rows, user, source, target) {
        Way::NoSource => Ok(no_work(alloc)),
        Way::Plain => plain_rename(alloc, rows, user, source, target),
        Way::Merged => merging_rename(alloc, user, source, target),
    }
}

fn delete_work(alloc: Global, user: User, mailbox: &Name, keys: &Keys) -> Result<Work, NoMemory>
    ensures { IfOk result (λ w. (boxes : _) → worked w boxes ≡ deleted user mailbox.now keys.now boxes) }
{
    let keys = KeySet::of(alloc, keys.as_slice())?;
    let mailbox = mailbox.copy(alloc)?;
    Ok(Work::Delete {
        user,
        mailbox,
        keys,
    })
}

/// What an act does to mailboxes, but for the mail that it gives.
fn act_work(alloc: Global, user: User, act: &Act) -> Result<Work, NoMemory>
    ensures { IfOk result (λ w. (boxes : _) → worked w boxes ≡ rearranged user (Acts act.now) boxes) }
{
    match act {
        Act::Remove { mailbox, key, .. } => remove_work(alloc, user, mailbox, *key),
        _ => Ok(no_work(alloc)),
    }
}

#[tactic(auto, using(crate::proofs::Plans::puts_are))]
fn message_work(
    alloc: Global,
    item: &Item,
    aims: &Aims,
    flags: Flags,
    at: u64,
) -> Result<Work, NoMemory>
    ensures { IfOk result (λ w. (boxes : _) → worked w boxes ≡ put_at (λ index. message item.now index flags at ∷ []) aims.now boxes) }
{
    let puts = message_puts(alloc, item, aims.as_slice(), flags, at)?;
    Ok(Work::Puts(puts))
}

#[tactic(auto, using(crate::proofs::Plans::puts_are))]
fn copy_work(
    alloc: Global,
    entries: &EntriesView<'_>,
    number: u32,
    keys: &Keys,
    aims: &Aims,
) -> Result<Work, NoMemory>
    requires { length keys.now ≤ 65536 }
    ensures { IfOk result (λ w. (boxes : _) → worked w boxes ≡ put_at (λ _. copies number entries.now keys.now) aims.now boxes) }
{
    let puts = copy_puts(alloc, entries, number, keys.as_slice(), aims.as_slice())?;
    Ok(Work::Puts(puts))
}

/// What a deed does that brings no mail.
fn plain_work(
    alloc: Global,
    rows: &[(BoxId, Mailbox)],
    user: User,
    deed: &Deed,
) -> Result<Work, NoMemory>
    requires { IsTrue (is_rising rows.now) }
    ensures { IfOk result (λ w. Does (deed_touches user deed.now) rows.now w (rearranged user deed.now)) }
{
    match deed {
        Deed::Fetch {
            mailbox,
            keys,
            sets_seen,
            ..
        } => seen_work(alloc, rows, user, mailbox, keys, *sets_seen),
        Deed::Store {
            mailbox,
            keys,
            how,
            flags,
        } => flags_work(alloc, rows, user, mailbox, keys, *how, *flags),
        Deed::Expunge { mailbox, keys } => expunge_work(alloc, user, mailbox, keys),
        Deed::Close { mailbox, keys } => expunge_work(alloc, user, mailbox, keys),
        Deed::Create { mailbox } => create_work(alloc, rows, user, mailbox),
        Deed::Rename { mailbox, target } => rename_work(alloc, rows, user, mailbox, target),
        Deed::Delete { mailbox, keys } => delete_work(alloc, user, mailbox, keys),
        Deed::Act(act) => act_work(alloc, user, act),
        Deed::Deliver { .. } => Ok(no_work(alloc)),
        Deed::Append { .. } => Ok(no_work(alloc)),
        Deed::Copy { .. } => Ok(no_work(alloc)),
        Deed::List { .. } => Ok(no_work(alloc)),
        Deed::Status { .. } => Ok(no_work(alloc)),
        Deed::Select { .. } => Ok(no_work(alloc)),
        Deed::Notice { .. } => Ok(no_work(alloc)),
    }
}

/// What an item does to mailboxes whose new mail goes to these aims.
pub(crate) fn work_of(
    alloc: Global,
    rows: &[(BoxId, Mailbox)],
    user: User,
    item: &Item,
    aims: &Aims,
) -> Result<Work, NoMemory>
    requires rising { IsTrue (is_rising rows.now) }
    requires few { length (keys_in item.now.deed) ≤ 65536 }
    ensures { IfOk result (λ w. Does (deed_touches user item.now.deed) rows.now w (after user item.now aims.now)) }
{
    match own_message(item) {
        Some((flags, at)) => message_work(alloc, item, aims, flags, at),
        None => match &item.deed {
            Deed::Copy { mailbox, keys, .. } => {
                copy_work(
                    alloc,
                    &view_of(rows, user, mailbox),
                    item.number,
                    keys,
                    aims,
                )
            }
            _ => plain_work(alloc, rows, user, &item.deed),
        },
    }
}
