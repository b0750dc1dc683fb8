//! The touches of an item whose aims are known.
//!
//! The touches of an item are its deed's row of the table. Aims count only where the deed brings mail (`CanHave`), so the law of
//! commuting items has no case of a deed that goes nowhere and has aims.
ghost use Rattle.std.specs.Prelude.{◌≡◌, [], ◌∷◌, ◌++◌, map, is_some, true, false, IfOk};
ghost use Rattle.verb_core.specs.Names.{lost_found, with_superiors};
ghost use Rattle.verb_core.specs.Items.{is_own};
ghost use Rattle.touch_rules.specs.declared.touched.Touch.TheVariants.{Keys as OnKeys, Whole, Names as OnNames, Every};
ghost use Rattle.touch_rules.specs.Table.{tail_on, looked_for, written as writes_all, arrivals, act_row, table_row, touches_of};

use crate::{Touch, TouchSet};
use std::alloc::Global;
use undo_base::{Copies, Key, Keys, Name, NoMemory, Sequence, User};
use verb_core::{Act, Aim, Deed, Resolved, actor_of, lost_found_name, names_with_superiors};

// ---- single touches

fn tail(alloc: Global, aim: &Aim, number: u32) -> Result<Touch, NoMemory>
    ensures { IfOk result (λ touch. touch ≡ tail_on number aim.now) }
{
    let mailbox = aim.mailbox.copy(alloc)?;
    Ok(Touch::Tail {
        user: aim.user,
        mailbox,
        number,
    })
}

fn whole(alloc: Global, user: User, mailbox: &Name, writes: bool) -> Result<Touch, NoMemory>
    ensures { IfOk result (λ touch. touch ≡ Whole user mailbox.now writes) }
{
    let mailbox = mailbox.copy(alloc)?;
    Ok(Touch::Whole {
        user,
        mailbox,
        writes,
    })
}

fn on_keys(
    alloc: Global,
    user: User,
    mailbox: &Name,
    keys: &Keys,
    writes: bool,
) -> Result<Touch, NoMemory>
    ensures { IfOk result (λ touch. touch ≡ OnKeys user mailbox.now keys.now writes) }
{
    let mailbox = mailbox.copy(alloc)?;
    let keys = keys.copy(alloc)?;
    Ok(Touch::Keys {
        user,
        mailbox,
        keys,
        writes,
    })
}

// ---- sets of touches

fn one(alloc: Global, touch: Touch) -> Result<TouchSet, NoMemory>
    ensures { IfOk result (λ set. set ≡ touch ∷ []) }
{
    let mut set = Sequence::new(alloc);
    set.push(touch)?;
    Ok(set)
}

fn with(mut set: TouchSet, touch: Touch) -> Result<TouchSet, NoMemory>
    ensures { IfOk result (λ all. all ≡ set ++ touch ∷ []) }
{
    set.push(touch)?;
    Ok(set)
}

fn with_tails(alloc: Global, set: TouchSet, aims: &[Aim], number: u32) -> Result<TouchSet, NoMemory>
    ensures { IfOk result (λ all. all ≡ set ++ map (tail_on number) aims.now) }
{
    let mut all = set;
    for aim in aims {
        let touch = tail(alloc, aim, number)?;
        all.push(touch)?;
    }
    Ok(all)
}

fn with_misses(alloc: Global, set: TouchSet, missed: &[Aim]) -> Result<TouchSet, NoMemory>
    ensures { IfOk result (λ all. all ≡ set ++ map looked_for missed.now) }
{
    let mut all = set;
    for aim in missed {
        let touch = whole(alloc, aim.user, &aim.mailbox, false)?;
        all.push(touch)?;
    }
    Ok(all)
}

/// With where the item's new mail goes, and where it looked in vain.
fn with_arrivals(alloc: Global, set: TouchSet, what: &Resolved) -> Result<TouchSet, NoMemory>
    ensures { IfOk result (λ all. all ≡ set ++ arrivals what.now) }
{
    let tails = with_tails(alloc, set, what.aims.as_slice(), what.item.number)?;
    with_misses(alloc, tails, what.missed.as_slice())
}

fn arriving(alloc: Global, what: &Resolved) -> Result<TouchSet, NoMemory>
    ensures { IfOk result (λ set. set ≡ arrivals what.now) }
{
    with_arrivals(alloc, Sequence::new(alloc), what)
}

fn messages(
    alloc: Global,
    user: User,
    mailbox: &Name,
    keys: &Keys,
    writes: bool,
) -> Result<TouchSet, NoMemory>
    ensures { IfOk result (λ set. set ≡ OnKeys user mailbox.now keys.now writes ∷ []) }
{
    let touch = on_keys(alloc, user, mailbox, keys, writes)?;
    one(alloc, touch)
}

fn message(alloc: Global, user: User, mailbox: &Name, key: Key) -> Result<TouchSet, NoMemory>
    ensures { IfOk result (λ set. set ≡ OnKeys user mailbox.now (key ∷ []) true ∷ []) }
{
    let mut keys = Sequence::new(alloc);
    keys.push(key)?;
    messages(alloc, user, mailbox, &keys, true)
}

fn copied(
    alloc: Global,
    user: User,
    mailbox: &Name,
    keys: &Keys,
    what: &Resolved,
) -> Result<TouchSet, NoMemory>
    ensures { IfOk result (λ set. set ≡ OnKeys user mailbox.now keys.now false ∷ arrivals what.now) }
{
    let source = messages(alloc, user, mailbox, keys, false)?;
    with_arrivals(alloc, source, what)
}

fn looked_at(alloc: Global, user: User, mailbox: &Name) -> Result<TouchSet, NoMemory>
    ensures { IfOk result (λ set. set ≡ Whole user mailbox.now false ∷ []) }
{
    let touch = whole(alloc, user, mailbox, false)?;
    one(alloc, touch)
}

fn listed(alloc: Global, user: User) -> Result<TouchSet, NoMemory>
    ensures { IfOk result (λ set. set ≡ OnNames user false ∷ []) }
{
    one(
        alloc,
        Touch::Names {
            user,
            writes: false,
        },
    )
}

/// With the mailboxes of these names, which come, change or go.
fn with_written(
    alloc: Global,
    set: TouchSet,
    user: User,
    names: &[Name],
) -> Result<TouchSet, NoMemory>
    ensures { IfOk result (λ all. all ≡ set ++ map (writes_all user) names.now) }
{
    let mut all = set;
    for name in names {
        let touch = whole(alloc, user, name, true)?;
        all.push(touch)?;
    }
    Ok(all)
}

fn created(alloc: Global, user: User, mailbox: &Name) -> Result<TouchSet, NoMemory>
    ensures { IfOk result (λ set. set ≡ map (writes_all user) (with_superiors mailbox.now) ++ OnNames user true ∷ []) }
{
    let names = names_with_superiors(alloc, mailbox)?;
    let set = with_written(alloc, Sequence::new(alloc), user, names.as_slice())?;
    with(set, Touch::Names { user, writes: true })
}

fn renamed(alloc: Global, user: User) -> Result<TouchSet, NoMemory>
    ensures { IfOk result (λ set. set ≡ Every user ∷ []) }
{
    one(alloc, Touch::Every { user })
}

fn deleted(alloc: Global, user: User, mailbox: &Name) -> Result<TouchSet, NoMemory>
    ensures { IfOk result (λ set. set ≡ Whole user mailbox.now true ∷ Whole user lost_found true ∷ OnNames user true ∷ []) }
{
    let lost = lost_found_name(alloc)?;
    let touch = whole(alloc, user, mailbox, true)?;
    let set = one(alloc, touch)?;
    let other = whole(alloc, user, &lost, true)?;
    let set = with(set, other)?;
    with(set, Touch::Names { user, writes: true })
}

// ---- the table

fn act_touches(alloc: Global, act: &Act, what: &Resolved) -> Result<TouchSet, NoMemory>
    ensures { IfOk result (λ set. set ≡ act_row (arrivals what.now) act.now) }
{
    match act {
        Act::Remove { user, mailbox, key } => message(alloc, *user, mailbox, *key),
        Act::Give { .. } => arriving(alloc, what),
        _ => Ok(Sequence::new(alloc)),
    }
}

fn row_touches(
    alloc: Global,
    user: User,
    deed: &Deed,
    what: &Resolved,
) -> Result<TouchSet, NoMemory>
    ensures { IfOk result (λ set. set ≡ table_row user (arrivals what.now) deed.now) }
{
    match deed {
        Deed::Deliver { .. } => arriving(alloc, what),
        Deed::Append { .. } => arriving(alloc, what),
        Deed::Notice { .. } => arriving(alloc, what),
        Deed::Act(act) => act_touches(alloc, act, what),
        Deed::Fetch {
            mailbox,
            keys,
            sets_seen,
            ..
        } => messages(alloc, user, mailbox, keys, *sets_seen),
        Deed::Store { mailbox, keys, .. } => messages(alloc, user, mailbox, keys, true),
        Deed::Expunge { mailbox, keys } => messages(alloc, user, mailbox, keys, true),
        Deed::Close { mailbox, keys } => messages(alloc, user, mailbox, keys, true),
        Deed::Copy { mailbox, keys, .. } => copied(alloc, user, mailbox, keys, what),
        Deed::Status { mailbox } => looked_at(alloc, user, mailbox),
        Deed::Select { mailbox } => looked_at(alloc, user, mailbox),
        Deed::List { .. } => listed(alloc, user),
        Deed::Create { mailbox } => created(alloc, user, mailbox),
        Deed::Rename { .. } => renamed(alloc, user),
        Deed::Delete { mailbox, .. } => deleted(alloc, user, mailbox),
    }
}

/// What an item touches, its aims being those found on the store of its turn.
pub fn touches(alloc: Global, what: &Resolved) -> Result<TouchSet, NoMemory>
    requires { is_some what.now.item.by ≡ is_own what.now.item.deed }
    ensures { IfOk result (λ set. set ≡ touches_of what.now) }
{
    row_touches(alloc, actor_of(&what.item), &what.item.deed, what)
}
