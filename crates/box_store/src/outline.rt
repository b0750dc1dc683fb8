//! Outlines: the mailboxes of a store, with no mail in them.
ghost use Rattle.std.specs.Prelude.{◌≡◌, IfOk};
ghost use Rattle.verb_core.specs.Mailboxes.{no_mail};
ghost use Rattle.verb_core.specs.Store.{IsValid};
ghost use Rattle.box_store.specs.Outline.{outline, outlined};

use crate::Store;
use crate::spares::Spares;
use mail_rows::HeldConf;
use std::alloc::Global;
use undo_base::{Copies, NoMemory};
use verb_core::{BoxId, Entries, Mailbox};

/// A new mailbox of that user and name.
fn new_row(alloc: Global, id: &BoxId) -> Result<(BoxId, Mailbox), NoMemory>
    ensures { IfOk result (λ row. row ≡ (id.now, no_mail)) }
{
    let id = id.copy(alloc)?;
    let mailbox = Mailbox {
        next: 1,
        entries: Entries::new(alloc),
    };
    Ok((id, mailbox))
}

/// A new mailbox for each of these.
#[tactic(auto, using(crate::proofs::Outlines::outlined_more))]
fn new_rows(alloc: Global, rows: &[(BoxId, Mailbox)]) -> Result<Vec<(BoxId, Mailbox)>, NoMemory>
    ensures { IfOk result (λ made. made.items ≡ outlined rows.now) }
{
    let mut made = Vec::new(alloc);
    for row in rows {
        made.push(new_row(alloc, &row.0)?)?;
    }
    Ok(made)
}

impl Store {
    /// The parts of an outline, put together.
    fn new_outline(&self, alloc: Global) -> Result<Store, NoMemory>
        ensures { IfOk result (λ made. made.store ≡ outline self.now.store) }
    {
        let rows = new_rows(alloc, self.rows.as_slice())?;
        let house = self.house.copy(alloc)?;
        let conf = self.conf.conf().copy(alloc)?;
        Ok(Store {
            house,
            conf: HeldConf::new(alloc, conf),
            rows,
            spares: Spares::new(alloc),
        })
    }

    /// The store with the same configuration and mailboxes, and no mail in them: enough to aim at. In time and memory that
    /// grow as the configuration and the mailboxes, whatever lies in these.
    pub fn outline(&self, alloc: Global) -> Result<Store, NoMemory>
        ensures store { IfOk result (λ made. made.store ≡ outline self.now.store) }
        ensures valid { IsValid self.now.store → IfOk result (λ made. IsValid made.store) }
    {
        self.new_outline(alloc)
    }
}
