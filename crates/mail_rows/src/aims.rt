//! Where each kind of item's mail goes.
ghost use Rattle.std.specs.Prelude.{◌≡◌, ◌++◌, ◌∷◌, [], IsTrue, IfOk, OnOk, option_map};
ghost use Rattle.verb_core.specs.declared.conf.Filter.{Filter as TheFilter};
ghost use Rattle.verb_core.specs.Names.{inbox, lost_found};
ghost use Rattle.verb_core.specs.Boxes.{is_rising};
ghost use Rattle.verb_core.specs.Store.{is_house};
ghost use Rattle.verb_core.specs.Filters.{deciding};
ghost use Rattle.verb_core.specs.Recipients.{recipients as names_recipients};
ghost use Rattle.verb_core.specs.Aims.{Sought, aim_at as makes_aim, into_or, and_postmaster, delivered, sought};
ghost use Rattle.mail_rows.specs.Reaching.{sought_at, act_sought, with_copy};

use crate::reach::{Reach, aim_at, first_met, meanings, means_nobody, reach_each, recipients};
use std::alloc::Global;
use undo_base::{Name, Names, NoMemory, Text, User};
use verb_core::{
    Act, Aims, BoxId, Conf, Deed, House, Item, Mailbox, inbox_name, lost_found_name, who_acts,
};

/// No aims.
fn reach_nothing(alloc: Global) -> Reach
    ensures { sought_at result ≡ record { aims = []; missed = [] } }
{
    Reach {
        aims: Aims::new(alloc),
        missed: Aims::new(alloc),
    }
}

/// One mailbox of a user, or Lost+Found where it is missing.
fn reach_one(
    alloc: Global,
    rows: &[(BoxId, Mailbox)],
    name: &Name,
    user: User,
) -> Result<Reach, NoMemory>
    requires { IsTrue (is_rising rows.now) }
    ensures { IfOk result (λ reach. sought_at reach ≡ into_or rows.now name.now lost_found (user ∷ [])) }
{
    let lost = lost_found_name(alloc)?;
    reach_each(alloc, rows, name, &lost, &[user])
}

/// A user's INBOX.
fn reach_inbox(alloc: Global, rows: &[(BoxId, Mailbox)], user: User) -> Result<Reach, NoMemory>
    requires { IsTrue (is_rising rows.now) }
    ensures { IfOk result (λ reach. sought_at reach ≡ into_or rows.now inbox inbox (user ∷ [])) }
{
    let inbox = inbox_name(alloc)?;
    reach_each(alloc, rows, &inbox, &inbox, &[user])
}

/// Adds the postmaster's copy.
fn push_copy(alloc: Global, aims: &mut Aims, postmaster: User) -> Result<(), NoMemory>
    ensures { OnOk result (aims.new ≡ aims.old ++ makes_aim postmaster lost_found 1 ∷ []) }
{
    let lost = lost_found_name(alloc)?;
    aims.push(aim_at(alloc, postmaster, &lost, 1)?)?;
    Ok(())
}

/// Adds the postmaster's copy, where a local part means nobody.
fn push_postmaster(
    alloc: Global,
    reach: &mut Reach,
    nobody: bool,
    postmaster: User,
) -> Result<(), NoMemory>
    ensures { OnOk result (sought_at reach.new ≡ with_copy nobody postmaster (sought_at reach.old)) }
{
    if nobody {
        push_copy(alloc, &mut reach.aims, postmaster)?;
    }
    Ok(())
}

/// The mailbox of that name of each user that a local part means, or the other where it is missing; and the postmaster's
/// copy where one means nobody.
fn reach_recipients(
    alloc: Global,
    rows: &[(BoxId, Mailbox)],
    house: &House,
    conf: &Conf,
    to: &Names,
    name: &Name,
) -> Result<Reach, NoMemory>
    requires house { IsTrue (is_house house.now) }
    requires rising { IsTrue (is_rising rows.now) }
    ensures { IfOk result (λ reach. sought_at reach ≡ and_postmaster (record { house = house.now; conf = conf.now; boxes = rows.now }) to.now (into_or rows.now name.now inbox (names_recipients house.now conf.now to.now))) }
{
    let inbox = inbox_name(alloc)?;
    let meanings = meanings(alloc, conf, house, to.as_slice())?;
    let users = recipients(alloc, house, meanings.as_slice())?;
    let mut reach = reach_each(alloc, rows, name, &inbox, users.as_slice())?;
    let nobody = means_nobody(meanings.as_slice());
    push_postmaster(alloc, &mut reach, nobody, house.postmaster)?;
    Ok(reach)
}

/// Where a delivery goes, by the first filter whose needle is in what its scope looks at.
pub fn reach_delivery(
    alloc: Global,
    rows: &[(BoxId, Mailbox)],
    house: &House,
    conf: &Conf,
    from: &Text,
    to: &Names,
    text: &[u8],
) -> Result<Reach, NoMemory>
    requires house { IsTrue (is_house house.now) }
    requires rising { IsTrue (is_rising rows.now) }
    ensures { IfOk result (λ reach. sought_at reach ≡ delivered (record { house = house.now; conf = conf.now; boxes = rows.now }) to.now (option_map (λ (f : TheFilter). f.file) (deciding conf.now from.now to.now text.now))) }
{
    let filters = conf.filters.as_slice();
    match first_met(alloc, filters, from.bytes(), to.as_slice(), text)? {
        None => {
            let inbox = inbox_name(alloc)?;
            reach_recipients(alloc, rows, house, conf, to, &inbox)
        }
        Some(filter) => match &filter.file {
            None => Ok(reach_nothing(alloc)),
            Some(name) => reach_recipients(alloc, rows, house, conf, to, name),
        },
    }
}

fn reach_act(alloc: Global, rows: &[(BoxId, Mailbox)], act: &Act) -> Result<Reach, NoMemory>
    requires { IsTrue (is_rising rows.now) }
    ensures { IfOk result (λ reach. sought_at reach ≡ act_sought rows.now act.now) }
{
    match act {
        Act::Give { user, mailbox, .. } => reach_one(alloc, rows, mailbox, *user),
        _ => Ok(reach_nothing(alloc)),
    }
}

/// Where an item's mail goes, by its text, the house, the configuration and the mailboxes.
pub fn reach_of(
    alloc: Global,
    rows: &[(BoxId, Mailbox)],
    house: &House,
    conf: &Conf,
    item: &Item,
    text: &[u8],
) -> Result<Reach, NoMemory>
    requires house { IsTrue (is_house house.now) }
    requires rising { IsTrue (is_rising rows.now) }
    ensures { IfOk result (λ reach. sought_at reach ≡ sought (record { house = house.now; conf = conf.now; boxes = rows.now }) text.now item.now.by item.now.deed) }
{
    match &item.deed {
        Deed::Deliver { from, to, .. } => {
            reach_delivery(alloc, rows, house, conf, from, to, text)
        }
        Deed::Append { mailbox, .. } => reach_one(alloc, rows, mailbox, who_acts(item.by)),
        Deed::Copy { target, .. } => reach_one(alloc, rows, target, who_acts(item.by)),
        Deed::Act(act) => reach_act(alloc, rows, act),
        Deed::Notice { user, .. } => reach_inbox(alloc, rows, *user),
        Deed::Fetch { .. } => Ok(reach_nothing(alloc)),
        Deed::Store { .. } => Ok(reach_nothing(alloc)),
        Deed::List { .. } => Ok(reach_nothing(alloc)),
        Deed::Status { .. } => Ok(reach_nothing(alloc)),
        Deed::Select { .. } => Ok(reach_nothing(alloc)),
        Deed::Expunge { .. } => Ok(reach_nothing(alloc)),
        Deed::Close { .. } => Ok(reach_nothing(alloc)),
        Deed::Create { .. } => Ok(reach_nothing(alloc)),
        Deed::Rename { .. } => Ok(reach_nothing(alloc)),
        Deed::Delete { .. } => Ok(reach_nothing(alloc)),
    }
}
