//! What users ask.
//!
//! A desk is seen as what is kept, its room, its disk, the last gate and whether it is closed. A submit and an act look at
//! `closed` first, then at what is due, then make all room, and only then seal. After the seal no memory is taken.
ghost use Rattle.std.specs.Prelude.{◌≡◌, ◌↔◌, [], ◌∷◌, Ok, IsTrue, IsSome, IfOk, OnOk, IfErr, OnErr, IsErrOf};
ghost use Rattle.std.specs.List.{list_all, cons_option};
ghost use Rattle.verb_core.specs.Live.{is_users, live};
ghost use Rattle.verb_core.specs.Store.{is_known};
ghost use Rattle.verb_bytes.specs.declared.journal.JournalRecord.TheVariants.{Verb};
ghost use Rattle.seal_log.specs.Causes.{FindsMemory};
ghost use Rattle.store_kept.specs.Kept.{store_of};
ghost use Rattle.mail_desk.specs.Desk.{submitted};
ghost use Rattle.mail_cycle.specs.Permanence.{UidsStay};
ghost use Rattle.desk_journal.specs.Reading.{ReadsWell};
ghost use Rattle.desk_journal.specs.Sealing.{Seals};
ghost use Rattle.desk_journal.specs.Submitting.{SubmitWants, SubmitsNone, WritesNone};

use crate::Desk;
use desk_journal::submit_open;
use std::alloc::Global;
use undo_base::User;
use undo_outside::Disk;
use verb_core::{Ask, Item, SubmitFault};

impl<D: Disk> Desk<D> {
    /// Asks for something at a moment. At `Ok` the item is sealed and performed. At `Disk` the desk is closed from then on,
    /// and the item may be in the journal or not; what is kept is as before. Where it is refused for more than want of memory
    /// nothing was written.
    pub fn submit(
        &mut self,
        alloc: Global,
        at: u64,
        by: Option<User>,
        ask: Ask,
    ) -> Result<Item, SubmitFault>
        requires by { IsSome by ↔ IsTrue (is_users ask) }
        requires known { IsTrue (list_all (is_known self.old.kept.house) (cons_option by [])) }
        ensures ok { IfOk result (λ item. submitted self.old.kept at by ask ≡ record { outcome = Ok item; kept = self.new.kept }) }
        ensures sealed { IfOk result (λ item. Seals D.told (Verb item ∷ []) [] self.old self.new) }
        ensures err { OnErr result (self.new.kept ≡ self.old.kept) }
        ensures notes { OnErr result (self.new.notes ≡ self.old.notes) }
        ensures marks { OnErr result (self.new.marks ≡ self.old.marks) }
        ensures why { IfErr result (λ fault. SubmitsNone D.told (live (store_of self.old.kept) self.old.kept.next at by ask self.old.kept.deep) self.old self.new fault) }
        ensures writes_none { WritesNone result self.old self.new }
        ensures reads { ReadsWell D.told self.old self.new }
        ensures finds_memory { OnOk result (FindsMemory (D.told self.old.disk) (D.told self.new.disk)) }
        ensures wants { IfErr result (λ fault. SubmitWants D.told self.old.disk self.new.disk fault) }
        ensures closed { IsErrOf result SubmitFault.Closed ↔ IsTrue self.old.closed }
        ensures uids { UidsStay self.old.kept self.new.kept }
    {
        self.stands();
        if self.journal.is_closed() {
            drop(ask);
            return Err(SubmitFault::Closed);
        }
        submit_open(alloc, &mut self.journal, &mut self.desk, at, by, ask)
    }
}
