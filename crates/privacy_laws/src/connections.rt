//! What a user's connection is told, whatever it speaks. This function does nothing: its contract is a law of the machine.
ghost use Rattle.std.specs.Prelude.{ℕ, Bool, IsTrue, List};
ghost use Rattle.undo_base.specs.declared.keys.User.{User};
ghost use Rattle.undo_outside.specs.declared.event.What.TheVariants.{Bytes};
ghost use Rattle.verb_core.specs.declared.conf.House.{House};
ghost use Rattle.console_head.specs.Request.{Stage};
ghost use Rattle.mail_loop.specs.Hindrance.{Hindrance};
ghost use Rattle.mail_loop.specs.Machine.{answers};
ghost use Rattle.mail_loop.specs.State.{Seat, State};
ghost use Rattle.privacy_laws.specs.Agreeing.{Agree};
ghost use Rattle.privacy_laws.specs.Clients.{IsSeatOf, SameUse, bytes_are_of};
ghost use Rattle.privacy_laws.specs.Told.{HasSeat, SameAnswered};

/// Bytes come over a connection of a user's, by IMAP or by POP3, in two states that agree on that user, and log in nobody else. Then the connection has
/// the same replies, each with the same string, and the same seat behind them, whatever hinders the event, and the states agree on the user again.
pub fn connections_are_told_of_their_own_mail()
    ensures { (house : House) (u : User) (no_memory : Bool) (hs : List Hindrance) (stage : Stage) (at : ℕ) (s t : State) (conn : ℕ) (seat : Seat) (bytes : List ℕ) →
        HasSeat conn seat s → HasSeat conn seat t → Agree house u s.kept t.kept → IsSeatOf u seat → IsTrue (bytes_are_of house u seat bytes) → SameUse u conn seat s.seats t.seats →
        SameAnswered (Agree house u) conn (answers (Bytes bytes) no_memory hs stage at s conn) (answers (Bytes bytes) no_memory hs stage at t conn) }
{}
