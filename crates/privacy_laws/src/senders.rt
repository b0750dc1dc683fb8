//! What an SMTP client is told. These functions do nothing: their contracts are laws of the machine.
ghost use Rattle.std.specs.Prelude.{ℕ, Bool, List};
ghost use Rattle.undo_outside.specs.declared.event.What.TheVariants.{Bytes};
ghost use Rattle.smtp_lines.specs.declared.line.SmtpLine.{SmtpLine};
ghost use Rattle.verb_core.specs.declared.conf.House.{House};
ghost use Rattle.store_kept.specs.Kept.{Kept};
ghost use Rattle.smtp_session.specs.declared.dialog.Dialog.{Dialog as TheDialog};
ghost use Rattle.console_head.specs.Request.{Stage};
ghost use Rattle.mail_loop.specs.Hindrance.{Hindrance};
ghost use Rattle.mail_loop.specs.Machine.{answers};
ghost use Rattle.mail_loop.specs.Session.{hindered};
ghost use Rattle.mail_loop.specs.SmtpTurn.{smtp_session};
ghost use Rattle.mail_loop.specs.State.{Seats, Smtp, State};
ghost use Rattle.privacy_laws.specs.Senders.{AgreeForMail};
ghost use Rattle.privacy_laws.specs.Told.{HasSeat, SameAnswered, SameTurn};

/// A line comes from an SMTP client over two stores whose mailboxes may differ. The next number is the same, the same local parts mean somebody, and
/// there is room for a mail in both or in none. Then it is told the same and has the same dialog, whatever hinders the turn, and the stores agree again.
/// So it is of all lines of an event.
pub fn smtp_clients_are_told_of_nobodys_mail()
    ensures line { (house : House) (hindrance : Hindrance) (at : ℕ) (k l : Kept) (others around : Seats) (d : TheDialog) (line : SmtpLine) → AgreeForMail house k l →
        SameTurn (AgreeForMail house) (hindered smtp_session hindrance at k others d line) (hindered smtp_session hindrance at l around d line) }
    ensures event { (house : House) (no_memory : Bool) (hs : List Hindrance) (stage : Stage) (at : ℕ) (s t : State) (conn : ℕ) (unserved : List ℕ) (d : TheDialog) (bytes : List ℕ) →
        HasSeat conn (Smtp unserved d) s → HasSeat conn (Smtp unserved d) t → AgreeForMail house s.kept t.kept →
        SameAnswered (AgreeForMail house) conn (answers (Bytes bytes) no_memory hs stage at s conn) (answers (Bytes bytes) no_memory hs stage at t conn) }
{}
