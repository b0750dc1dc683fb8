//! What the operator keeps of a moment: the store as it is, in a record of the journal, from which a later cycle can begin.
ghost use Rattle.std.specs.Prelude.{◌≡◌, ◌↔◌, [], ◌∷◌, length, IsTrue, IfOk, OnOk, IfErr, OnErr, IsErrOf};
ghost use Rattle.seal_log.specs.Causes.{SealWants};
ghost use Rattle.store_kept.specs.Kept.{snapshotted};
ghost use Rattle.mail_cycle.specs.Permanence.{UidsStay};
ghost use Rattle.desk_journal.specs.Records.{snapshot_record};
ghost use Rattle.desk_journal.specs.Reading.{ReadsWell};
ghost use Rattle.desk_journal.specs.Sealing.{Seals};
ghost use Rattle.desk_journal.specs.Submitting.{SnapshotsNone};

use crate::Desk;
use desk_journal::snapshot_open;
use seal_log::SealFault;
use std::alloc::Global;
use undo_outside::Disk;

impl<D: Disk> Desk<D> {
    /// How many items entered since the last snapshot. Acts and notices of cycles count, items of before do not.
    pub fn since_snapshot(&self) -> u32
        ensures { result ≡ self.now.kept.marks.since }
    {
        self.desk.since()
    }

    /// Takes a snapshot of what is kept, and answers how many items are in force: a later cycle whose point is not before them
    /// begins there. Each answer leaves what it leaves of `submit`.
    pub fn snapshot(&mut self, alloc: Global) -> Result<u32, SealFault>
        ensures items { IfOk result (λ items. items ≡ length self.old.kept.timeline) }
        ensures ok { OnOk result (self.new.kept ≡ snapshotted self.old.kept) }
        ensures sealed { OnOk result (Seals D.told (snapshot_record self.old.kept ∷ []) [] self.old self.new) }
        ensures err { OnErr result (self.new.kept ≡ self.old.kept) }
        ensures notes { OnErr result (self.new.notes ≡ self.old.notes) }
        ensures marks { OnErr result (self.new.marks ≡ self.old.marks) }
        ensures why { IfErr result (λ fault. SnapshotsNone D.told self.old self.new fault) }
        ensures reads { ReadsWell D.told self.old self.new }
        ensures wants { SealWants D.told self.old.disk self.new.disk result }
        ensures closed { IsErrOf result SealFault.Closed ↔ IsTrue self.old.closed }
        ensures uids { UidsStay self.old.kept self.new.kept }
    {
        self.stands();
        if self.journal.is_closed() {
            return Err(SealFault::Closed);
        }
        let items = self.desk.counts().items;
        match snapshot_open(alloc, &mut self.journal, &mut self.desk) {
            Ok(()) => Ok(items),
            Err(fault) => Err(fault),
        }
    }
}
