//! How many items an event performs. These functions do nothing but name a law: their contracts are laws of the definitions.
ghost use Rattle.std.specs.Prelude.{◌≡◌, ◌≤◌, ◌+◌, ◌*◌, ℕ, IfSome, List, Some, length};
ghost use Rattle.smtp_lines.specs.declared.line.SmtpLine.{SmtpLine as TheLine};
ghost use Rattle.smtp_session.specs.declared.dialog.Dialog.{Dialog as TheDialog};
ghost use Rattle.imap_stream.specs.declared.next.Next.{Next as TheNext};
ghost use Rattle.imap_session.specs.declared.dialog.Dialog.{Dialog as TheReader};
ghost use Rattle.pop_session.specs.declared.dialog.Dialog.{Dialog as TheFetcher};
ghost use Rattle.console_head.specs.Request.{Stage};
ghost use Rattle.undo_outside.specs.declared.event.Role.{Role as TheRole};
ghost use Rattle.undo_outside.specs.declared.event.What.TheVariants.{Bytes};
ghost use Rattle.desk_journal.specs.Lasting.{Lasting};
ghost use Rattle.desk_journal.specs.Stored.{HoldsTexts};
ghost use Rattle.store_kept.specs.Kept.{Kept};
ghost use Rattle.mail_loop.specs.Acknowledged.{Stretch, Went, behind};
ghost use Rattle.mail_loop.specs.Hindrance.{Hindrance};
ghost use Rattle.mail_loop.specs.ImapTurn.{imap_session};
ghost use Rattle.mail_loop.specs.Machine.{seat_at};
ghost use Rattle.mail_loop.specs.Roles.{row_of};
ghost use Rattle.mail_loop.specs.PopTurn.{pop_session};
ghost use Rattle.mail_loop.specs.Session.{hindered};
ghost use Rattle.mail_loop.specs.SmtpTurn.{smtp_session};
ghost use Rattle.mail_loop.specs.State.{Seat, Seats, State};
ghost use Rattle.mail_loop.specs.Turns.{hears_seat};
ghost use Rattle.cost_laws.specs.Items.{Performs, PerformsFew, items_a_unit};
ghost use Rattle.cost_laws.specs.Units.{IsOfMail, IsServed};

use smtp_lines::what_is_kept_goes_on;
use undo_outside::Disk;

/// A unit of a mail program's stream changes nothing of what is kept but that it performs items, whatever hinders it: one at most, and two of a POP3
/// client's.
pub fn turns_perform_few_items()
    ensures smtp { (h : Hindrance) (at : ℕ) (kept : Kept) (others : Seats) (d : TheDialog) (line : TheLine) → Performs 1 kept (hindered smtp_session h at kept others d line).kept }
    ensures imap { (h : Hindrance) (at : ℕ) (kept : Kept) (others : Seats) (d : TheReader) (next : TheNext) → Performs 1 kept (hindered imap_session h at kept others d next).kept }
    ensures pop { (h : Hindrance) (at : ℕ) (kept : Kept) (others : Seats) (d : TheFetcher) (line : TheLine) → Performs 2 kept (hindered pop_session h at kept others d line).kept }
{}

/// An event of a mail program performs no more items than it may end units: of n octets half of n + 1, and n + 1 of a POP3 client. What it leaves of the
/// stream has no whole unit again, and a connection begins so.
pub fn events_perform_few_items()
    ensures items { (hindrances : List Hindrance) (stage : Stage) (at conn : ℕ) (s : State) (seat : Seat) (bytes : List ℕ) → IsOfMail seat → IsServed seat →
        PerformsFew seat bytes s.kept (hears_seat hindrances stage at s conn seat bytes).state.kept }
    ensures served { (hindrances : List Hindrance) (stage : Stage) (at conn : ℕ) (s : State) (seat : Seat) (bytes : List ℕ) →
        IfSome (hears_seat hindrances stage at s conn seat bytes).seat IsServed }
    ensures opens { (role : TheRole) → IsServed (row_of role).fresh }
{
    what_is_kept_goes_on();
}

/// For an event of a mail program no more records are sealed than it may perform items, and one snapshot at most behind its strings, over a desk that
/// holds its texts.
pub fn events_seal_few_records<D: Disk>()
    ensures turns { (s : State) (old : Lasting D) (w : Stretch D) (seat : Seat) (bytes : List ℕ) → Went D.told s old w → old.kept ≡ s.kept → HoldsTexts D.told old →
        w.step.event.what ≡ Bytes bytes → seat_at w.step.event.conn s.seats ≡ Some seat → IsOfMail seat → IsServed seat →
        2 * length w.sealed ≤ items_a_unit seat * (length bytes + 1) }
    ensures snapshot { (s : State) (old : Lasting D) (w : Stretch D) → Went D.told s old w → old.kept ≡ s.kept → HoldsTexts D.told old →
        w.after.kept ≡ (behind s w.step).kept → length w.snapshot ≤ 1 }
{}
