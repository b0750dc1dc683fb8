//! How many records a console's request seals. This function does nothing but name a law: its contract is a law of the definitions.
ghost use Rattle.std.specs.Prelude.{◌≡◌, ◌≤◌, ℕ, List, Some, length};
ghost use Rattle.console_head.specs.Request.{Stage};
ghost use Rattle.undo_outside.specs.declared.event.What.TheVariants.{Bytes};
ghost use Rattle.verb_bytes.specs.declared.journal.JournalRecord.{JournalRecord};
ghost use Rattle.desk_journal.specs.Lasting.{Lasting};
ghost use Rattle.desk_journal.specs.Records.{after_records};
ghost use Rattle.desk_journal.specs.Stored.{HoldsTexts};
ghost use Rattle.store_kept.specs.Kept.{Kept};
ghost use Rattle.mail_loop.specs.Acknowledged.{Stretch, Went};
ghost use Rattle.mail_loop.specs.ConsoleTurn.{console_turn};
ghost use Rattle.mail_loop.specs.Hindrance.{Hindrance};
ghost use Rattle.mail_loop.specs.Machine.{seat_at};
ghost use Rattle.mail_loop.specs.State.{Http, State};

use undo_outside::Disk;

/// Where one request of a console leads no two records lead, whatever hinders it, unless it was given another text than was stored. So for an event of a
/// console, which is one request at most, one record is sealed at most: of an act, a cycle, a withdrawal, a snapshot or an upgrade. It is so over a desk that
/// holds its texts.
pub fn consoles_seal_one_record<D: Disk>()
    ensures leads { (h : Hindrance) (at : ℕ) (kept : Kept) (stage : Stage) (records : List JournalRecord) → (console_turn h at kept stage).reads.wrong ≡ 0
        → after_records kept records ≡ Some (console_turn h at kept stage).kept → length records ≤ 1 }
    ensures turns { (s : State) (old : Lasting D) (w : Stretch D) (came bytes : List ℕ) → Went D.told s old w → old.kept ≡ s.kept → HoldsTexts D.told old →
        w.step.event.what ≡ Bytes bytes → seat_at w.step.event.conn s.seats ≡ Some (Http came) → length w.sealed ≤ 1 }
{}
