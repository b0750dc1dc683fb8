//! What a cycle reports.
//!
//! `BrokenItem::of` gives an item as it is told, and none for what no user did: deliveries, acts and notices are never told of,
//! though DELIVER is a verb.
//!
//! What a report says of renewed mailboxes is a list of stamps, as the desk keeps them.
ghost use Rattle.std.specs.Prelude.{◌≡◌, IfOk, option_copied};

use crate::{BrokenList, Reason, Renewals, Verb};
use std::alloc::Global;
use undo_base::{Copies, Name, NoMemory, Numbers, User};
use verb_core::Item;

/// An item of a user whose answer no longer holds, or that was withdrawn.
#[derive(Drop, PartialEq, Eq)]
pub struct BrokenItem {
    pub number: u32,
    pub user: User,
    pub verb: Verb,
    /// The mailbox that it names first: LIST names none.
    pub mailbox: Option<Name>,
    pub reason: Reason,
}

/// What a cycle did: its number, the number of its point, how many later items were kept, and the broken and withdrawn items. And
/// the numbers of the notices, the mailboxes with a new stamp, and the numbers that were asked in vain.
#[derive(Drop, PartialEq, Eq)]
pub struct Report {
    pub cycle: u32,
    pub point: u32,
    pub kept: u32,
    pub broken: BrokenList,
    pub notices: Numbers,
    pub renewed: Renewals,
    pub unmatched: Numbers,
}

fn copy_name(alloc: Global, name: Option<&Name>) -> Result<Option<Name>, NoMemory>
    ensures { IfOk result (λ copy. copy ≡ option_copied name.entry) }
{
    match name {
        None => Ok(None),
        Some(name) => Ok(Some(name.copy(alloc)?)),
    }
}

impl BrokenItem {
    ghost use Rattle.paradox.specs.Words.{told_of};

    /// The item as it is told under a reason: `None` where nobody did it, or it is no verb.
    pub fn of(alloc: Global, item: &Item, reason: Reason) -> Result<Option<BrokenItem>, NoMemory>
        ensures { IfOk result (λ told. told ≡ told_of item.now reason) }
    {
        let Some(user) = item.by else {
            return Ok(None);
        };
        let Some(verb) = Verb::of(&item.deed) else {
            return Ok(None);
        };
        let mailbox = copy_name(alloc, item.deed.mailbox())?;
        Ok(Some(BrokenItem {
            number: item.number,
            user,
            verb,
            mailbox,
            reason,
        }))
    }
}

impl Copies for BrokenItem {
    fn copy(&self, alloc: Global) -> Result<BrokenItem, NoMemory> {
        Ok(BrokenItem {
            number: self.number,
            user: self.user,
            verb: self.verb,
            mailbox: self.mailbox.copy(alloc)?,
            reason: self.reason,
        })
    }
}

impl Copies for Report {
    fn copy(&self, alloc: Global) -> Result<Report, NoMemory> {
        Ok(Report {
            cycle: self.cycle,
            point: self.point,
            kept: self.kept,
            broken: self.broken.copy(alloc)?,
            notices: self.notices.copy(alloc)?,
            renewed: self.renewed.copy(alloc)?,
            unmatched: self.unmatched.copy(alloc)?,
        })
    }
}
