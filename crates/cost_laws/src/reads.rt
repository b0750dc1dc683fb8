//! Which texts an event wants. These functions do nothing but name a law: their contracts are laws of the definitions.
ghost use Rattle.std.specs.Prelude.{◌≡◌, ℕ, List, length};
ghost use Rattle.undo_base.specs.declared.keys.User.{User as TheUser};
ghost use Rattle.smtp_lines.specs.declared.line.SmtpLine.{SmtpLine as TheLine};
ghost use Rattle.imap_stream.specs.declared.next.Next.{Next as TheNext};
ghost use Rattle.imap_session.specs.declared.dialog.Dialog.{Dialog as TheReader};
ghost use Rattle.pop_session.specs.declared.dialog.Dialog.{Dialog as TheFetcher};
ghost use Rattle.verb_core.specs.declared.mailbox.Body.{Body};
ghost use Rattle.store_kept.specs.Kept.{Kept};
ghost use Rattle.mail_loop.specs.declared.out.Out.TheVariants.{Read};
ghost use Rattle.mail_loop.specs.Hindrance.{Hindrance};
ghost use Rattle.mail_loop.specs.ImapTurn as imap;
ghost use Rattle.mail_loop.specs.PopTurn as pop;
ghost use Rattle.mail_loop.specs.Session.{size_in};
ghost use Rattle.mail_loop.specs.State.{Seat, State};
ghost use Rattle.cost_laws.specs.Reads.{IsFewTexts, ReadsFew, in_view, read_at};
ghost use Rattle.cost_laws.specs.Units.{IsServed};

/// An IMAP client's command wants no more texts than the view of its mailbox has messages, and no more than 268,435,456 octets of them together. A
/// POP3 client's line that wants texts wants one.
pub fn commands_read_few_texts()
    ensures imap { (kept : Kept) (d : TheReader) (next : TheNext) (bodies : List Body) → (imap.takes kept d next).out ≡ Read bodies → IsFewTexts (size_in kept) (in_view d.selected) bodies }
    ensures pop { (users : List TheUser) (kept : Kept) (d : TheFetcher) (line : TheLine) (bodies : List Body) → (pop.takes users kept d line).out ≡ Read bodies → length bodies ≡ 1 }
{}

/// An event of a mail program wants texts no more often than it may end units, and each time one text or no more than 268,435,456 octets. So an event of
/// n octets wants texts no more than half of n + 1 times, so many octets each time.
pub fn events_read_few_texts()
    ensures { (hindrances : List Hindrance) (at : ℕ) (s : State) (conn : ℕ) (seat : Seat) (bytes : List ℕ) → IsServed seat → ReadsFew bytes (read_at hindrances at s conn seat bytes) }
{}
