//! What a POP3 client is told. These functions do nothing: their contracts are laws of the machine.
ghost use Rattle.std.specs.Prelude.{◌≡◌, ℕ, Bool, IsTrue, List, ◌++◌};
ghost use Rattle.std.specs.List.{list_any};
ghost use Rattle.undo_base.specs.declared.keys.User.{User};
ghost use Rattle.undo_outside.specs.declared.event.What.TheVariants.{Bytes};
ghost use Rattle.smtp_lines.specs.declared.line.SmtpLine.{SmtpLine};
ghost use Rattle.smtp_lines.specs.Line.{smtp_lines_of};
ghost use Rattle.verb_core.specs.declared.conf.House.{House};
ghost use Rattle.verb_core.specs.Boxes.{same_user};
ghost use Rattle.store_kept.specs.Kept.{Kept};
ghost use Rattle.pop_session.specs.declared.dialog.Dialog.{Dialog as TheDialog};
ghost use Rattle.console_head.specs.Request.{Stage};
ghost use Rattle.mail_loop.specs.Hindrance.{Hindrance};
ghost use Rattle.mail_loop.specs.Machine.{answers};
ghost use Rattle.mail_loop.specs.PopTurn.{in_use, pop_session};
ghost use Rattle.mail_loop.specs.Session.{hindered};
ghost use Rattle.mail_loop.specs.State.{Pop, Seats, State, beside};
ghost use Rattle.privacy_laws.specs.Agreeing.{Agree};
ghost use Rattle.privacy_laws.specs.Clients.{IsFetcherOf, line_is_of, lines_are_of};
ghost use Rattle.privacy_laws.specs.Told.{HasSeat, SameAnswered, SameTurn};

/// A line comes from a POP3 client, by which a user is logged in or logs in. It comes over two stores that agree on that user; in both or in none another
/// session has the user's maildrop. Then it is told the same and has the same dialog, whatever hinders the turn, and the stores agree again.
pub fn pop_clients_are_told_of_their_own_mail()
    ensures { (house : House) (u : User) (hindrance : Hindrance) (at : ℕ) (k l : Kept) (others around : Seats) (d : TheDialog) (line : SmtpLine) →
        Agree house u k l → list_any (same_user u) (in_use others) ≡ list_any (same_user u) (in_use around) → IsFetcherOf u d → IsTrue (line_is_of house u d line) →
        SameTurn (Agree house u) (hindered pop_session hindrance at k others d line) (hindered pop_session hindrance at l around d line) }
{}

/// The same of an event, with all its lines: the connection has the same replies and the same seat, whatever is told to others.
pub fn pop_events_tell_of_their_own_mail()
    ensures { (house : House) (u : User) (no_memory : Bool) (hs : List Hindrance) (stage : Stage) (at : ℕ) (s t : State) (conn : ℕ) (unserved : List ℕ) (d : TheDialog) (bytes : List ℕ) →
        HasSeat conn (Pop unserved d) s → HasSeat conn (Pop unserved d) t → Agree house u s.kept t.kept →
        list_any (same_user u) (in_use (beside conn s.seats)) ≡ list_any (same_user u) (in_use (beside conn t.seats)) →
        IsFetcherOf u d → IsTrue (lines_are_of house u d (smtp_lines_of (unserved ++ bytes))) →
        SameAnswered (Agree house u) conn (answers (Bytes bytes) no_memory hs stage at s conn) (answers (Bytes bytes) no_memory hs stage at t conn) }
{}
