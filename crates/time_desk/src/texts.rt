//! The texts of bodies: a notice's is in memory, and any other is read where it lies in the journal.
ghost use Rattle.std.specs.Prelude.{◌≡◌, false, length, is_some, IsTrue, IfOk, IsErrOf};
ghost use Rattle.std.specs.List.{list_all, list_any};
ghost use Rattle.seal_log.specs.Causes.{ReadAtCause};
ghost use Rattle.desk_journal.specs.Reading.{IsStill};
ghost use Rattle.desk_journal.specs.Stored.{HoldsTexts, is_recorded};
ghost use Rattle.desk_journal.specs.Telling.{with_memory};
ghost use Rattle.store_kept.specs.Texts.{has_text_kept, text_kept, texts_kept};

use crate::Desk;
use seal_log::ReadFault;
use std::alloc::Global;
use undo_base::{Text, Texts};
use undo_outside::Disk;
use verb_core::Body;

impl<D: Disk> Desk<D> {
    /// The text of a body. None exactly where no item in force has it. It is read where it lies; a notice's is in memory. At
    /// `Disk` the read failed, and a later call may succeed.
    pub fn body(&mut self, alloc: Global, body: Body) -> Result<Option<Text>, ReadFault>
        ensures there { IfOk result (λ found. is_some found ≡ has_text_kept self.old.kept body) }
        ensures found { HoldsTexts D.told self.old → IfOk result (λ found. found ≡ text_kept self.old.kept body) }
        // One in memory is the one that is kept, whatever the disk holds.
        ensures memory { is_recorded self.old.kept self.old.kept.timeline body ≡ false → IfOk result (λ found. found ≡ text_kept self.old.kept body) }
        ensures cause { ReadAtCause (D.told self.old.disk) (D.told self.new.disk) result }
        ensures still { IsStill D.told self.old self.new }
        // It is read only where a record has the text.
        ensures due { IsErrOf result ReadFault.Disk → IsTrue (is_recorded self.old.kept self.old.kept.timeline body) }
        ensures alone { is_recorded self.old.kept self.old.kept.timeline body ≡ false → self.new ≡ self.old }
    {
        self.journal.found(alloc, &self.desk, body)
    }

    /// The texts of bodies, in order, read as by `body`.
    pub fn texts(&mut self, alloc: Global, bodies: &[Body]) -> Result<Texts, ReadFault>
        requires { IsTrue (list_all (has_text_kept self.old.kept) bodies.now) }
        ensures count { IfOk result (λ texts. length texts ≡ length bodies.now) }
        ensures texts { HoldsTexts D.told self.old → IfOk result (λ texts. texts ≡ texts_kept self.old.kept bodies.now) }
        ensures memory { IfOk result (λ texts. with_memory self.old.kept bodies.now texts ≡ texts) }
        ensures cause { ReadAtCause (D.told self.old.disk) (D.told self.new.disk) result }
        ensures still { IsStill D.told self.old self.new }
        ensures due { IsErrOf result ReadFault.Disk → IsTrue (list_any (is_recorded self.old.kept self.old.kept.timeline) bodies.now) }
        ensures alone { list_any (is_recorded self.old.kept self.old.kept.timeline) bodies.now ≡ false → self.new ≡ self.old }
    {
        self.journal.texts(alloc, &self.desk, bodies)
    }
}
