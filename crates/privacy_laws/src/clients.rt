//! What an IMAP client is told. These functions do nothing: their contracts are laws of the machine.
ghost use Rattle.std.specs.Prelude.{◌≡◌, ℕ, Bool, IsTrue, List, None, Option};
ghost use Rattle.undo_base.specs.declared.keys.User.{User};
ghost use Rattle.undo_outside.specs.declared.event.What.TheVariants.{Bytes};
ghost use Rattle.verb_core.specs.declared.conf.House.{House};
ghost use Rattle.verb_core.specs.declared.mailbox.Body.{Body};
ghost use Rattle.verb_core.specs.Store.{MailStore};
ghost use Rattle.imap_stream.specs.Commands.{Heard as Stream};
ghost use Rattle.imap_stream.specs.Commands as imap_stream;
ghost use Rattle.imap_lines.specs.declared.command.ImapWhat.{ImapWhat as TheWhat};
ghost use Rattle.imap_session.specs.declared.dialog.Dialog.{Dialog as TheDialog};
ghost use Rattle.imap_session.specs.Dialog.{obey};
ghost use Rattle.console_head.specs.Request.{Stage};
ghost use Rattle.mail_loop.specs.Hindrance.{Hindrance};
ghost use Rattle.mail_loop.specs.Machine.{answers};
ghost use Rattle.mail_loop.specs.State.{Imap, State};
ghost use Rattle.mail_loop.specs.Turns.{hears_seat};
ghost use Rattle.privacy_laws.specs.Agreeing.{Agree};
ghost use Rattle.privacy_laws.specs.Clients.{IsReaderOf, are_only_of};
ghost use Rattle.privacy_laws.specs.Told.{HasSeat, SameAnswered, SameHeard};

/// Bytes come over an IMAP client's connection, on which a user is logged in or logs in, in two states that agree on that user. Then it is told the
/// same and has the same seat, whatever hinders the turns, and the states agree again.
pub fn imap_clients_are_told_of_their_own_mail()
    ensures { (house : House) (u : User) (hs : List Hindrance) (stage : Stage) (at : ℕ) (s t : State) (conn : ℕ) (stream : Stream) (d : TheDialog) (bytes : List ℕ) →
        Agree house u s.kept t.kept → IsReaderOf u d → IsTrue (are_only_of house u (imap_stream.heard stream bytes).said) →
        SameHeard (Agree house u) (hears_seat hs stage at s conn (Imap stream d) bytes) (hears_seat hs stage at t conn (Imap stream d) bytes) }
{}

/// The same of an event: the connection has the same replies, whatever is told to others.
pub fn imap_events_tell_of_their_own_mail()
    ensures { (house : House) (u : User) (no_memory : Bool) (hs : List Hindrance) (stage : Stage) (at : ℕ) (s t : State) (conn : ℕ) (stream : Stream) (d : TheDialog) (bytes : List ℕ) →
        HasSeat conn (Imap stream d) s → HasSeat conn (Imap stream d) t →
        Agree house u s.kept t.kept → IsReaderOf u d → IsTrue (are_only_of house u (imap_stream.heard stream bytes).said) →
        SameAnswered (Agree house u) conn (answers (Bytes bytes) no_memory hs stage at s conn) (answers (Bytes bytes) no_memory hs stage at t conn) }
{}

/// Before anybody is logged in, what a command is answered depends on no store and on no text at all: a guess of a password shows nobody's mail.
pub fn strangers_are_told_of_nobodys_mail()
    ensures { (house : House) (s t : MailStore) (one other : Body → Option ℕ) (deep : Bool) (tag : List ℕ) (d : TheDialog) (asked : TheWhat) → d.user ≡ None → d.selected ≡ None →
        obey house s one deep tag d asked ≡ obey house t other deep tag d asked }
{}
