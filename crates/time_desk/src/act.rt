//! What the operator does.
ghost use Rattle.std.specs.Prelude.{◌≡◌, ◌↔◌, [], ◌∷◌, IsTrue, IfOk, OnOk, IfErr, OnErr, IsErrOf};
ghost use Rattle.std.specs.List.{list_all};
ghost use Rattle.verb_core.specs.Deeds.{act_item};
ghost use Rattle.verb_core.specs.declared.item.Deed.TheVariants.{Act as Acts};
ghost use Rattle.verb_core.specs.Items.{users_in};
ghost use Rattle.verb_core.specs.Store.{is_known};
ghost use Rattle.verb_bytes.specs.declared.journal.JournalRecord.TheVariants.{Operator};
ghost use Rattle.seal_log.specs.Causes.{FindsMemory};
ghost use Rattle.store_kept.specs.Kept.{performed};
ghost use Rattle.mail_cycle.specs.Permanence.{UidsStay};
ghost use Rattle.desk_journal.specs.Reading.{ReadsWell};
ghost use Rattle.desk_journal.specs.Sealing.{Seals};
ghost use Rattle.desk_journal.specs.Submitting.{ActWants, ActsNone};

use crate::{ActFault, Desk};
use desk_journal::act_open;
use std::alloc::Global;
use undo_outside::Disk;
use verb_core::Act;

impl<D: Disk> Desk<D> {
    /// Does an act at a moment, and answers the number of its item. Each answer leaves what it leaves of `submit`.
    pub fn act(&mut self, alloc: Global, at: u64, act: Act) -> Result<u32, ActFault>
        requires { IsTrue (list_all (is_known self.old.kept.house) (users_in (Acts act))) }
        ensures number { IfOk result (λ number. number ≡ self.old.kept.next) }
        ensures ok { OnOk result (self.new.kept ≡ performed self.old.kept (act_item self.old.kept.next at act)) }
        ensures sealed { OnOk result (Seals D.told (Operator self.old.kept.next at act ∷ []) [] self.old self.new) }
        ensures err { OnErr result (self.new.kept ≡ self.old.kept) }
        ensures notes { OnErr result (self.new.notes ≡ self.old.notes) }
        ensures marks { OnErr result (self.new.marks ≡ self.old.marks) }
        ensures why { IfErr result (λ fault. ActsNone D.told at act self.old self.new fault) }
        ensures reads { ReadsWell D.told self.old self.new }
        ensures finds_memory { OnOk result (FindsMemory (D.told self.old.disk) (D.told self.new.disk)) }
        ensures wants { IfErr result (λ fault. ActWants D.told self.old.disk self.new.disk fault) }
        ensures closed { IsErrOf result ActFault.Closed ↔ IsTrue self.old.closed }
        ensures uids { UidsStay self.old.kept self.new.kept }
    {
        self.stands();
        if self.journal.is_closed() {
            drop(act);
            return Err(ActFault::Closed);
        }
        act_open(alloc, &mut self.journal, &mut self.desk, at, act)
    }
}
