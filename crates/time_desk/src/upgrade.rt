//! The upgrade of a store: from then on names may have superiors.
//!
//! `Desk::upgrade` of a desk that is deep is OK again, so that who lost the answer may ask once more. After a seal that failed a
//! new opening tells which of the two it is.
ghost use Rattle.std.specs.Prelude.{◌≡◌, ◌↔◌, true, false, IsTrue, OnOk, IfErr, OnErr, IsErrOf};
ghost use Rattle.seal_log.specs.Causes.{SealWants};
ghost use Rattle.store_kept.specs.Kept.{upgraded};
ghost use Rattle.mail_cycle.specs.Permanence.{UidsStay};
ghost use Rattle.desk_journal.specs.Reading.{ReadsWell};
ghost use Rattle.desk_journal.specs.Submitting.{UpgradesNone, UpgradesOnce};

use crate::Desk;
use desk_journal::upgrade_open;
use seal_log::SealFault;
use std::alloc::Global;
use undo_outside::Disk;

impl<D: Disk> Desk<D> {
    /// Whether names may have superiors. It takes no memory.
    pub fn upgraded(&self) -> bool
        ensures { result ≡ self.now.kept.deep }
    {
        self.desk.deep()
    }

    /// Lets names have superiors from now on. Where they may already it answers `Ok` and seals nothing, also when it is closed; else
    /// each answer leaves what it leaves of `snapshot`.
    pub fn upgrade(&mut self, alloc: Global, at: u64) -> Result<(), SealFault>
        ensures ok { OnOk result (UpgradesOnce D.told at self.old self.new) }
        ensures kept { OnOk result (self.new.kept ≡ upgraded self.old.kept) }
        ensures err { OnErr result (self.new.kept ≡ self.old.kept) }
        ensures notes { self.new.notes ≡ self.old.notes }
        ensures marks { self.new.marks ≡ self.old.marks }
        ensures flat { OnErr result (self.old.kept.deep ≡ false) }
        ensures why { IfErr result (λ fault. UpgradesNone D.told at self.old self.new fault) }
        ensures reads { ReadsWell D.told self.old self.new }
        ensures wants { SealWants D.told self.old.disk self.new.disk result }
        ensures closed { IsErrOf result SealFault.Closed ↔ (IsTrue self.old.closed × (self.old.kept.deep ≡ false)) }
        ensures uids { UidsStay self.old.kept self.new.kept }
    {
        if self.desk.deep() {
            return Ok(());
        }
        if self.journal.is_closed() {
            return Err(SealFault::Closed);
        }
        upgrade_open(alloc, &mut self.journal, &mut self.desk, at)
    }
}
