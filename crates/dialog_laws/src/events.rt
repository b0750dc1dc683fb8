//! A connection's stream over several events. These functions do nothing but name a law: their contracts are laws of the definitions.
ghost use Rattle.std.specs.Prelude.{◌≡◌, ℕ, List, [], ◌++◌, drop, flat_map, length};
ghost use Rattle.smtp_lines.specs.Line.{smtp_lines_of};
ghost use Rattle.smtp_session.specs.declared.dialog.Dialog.{Dialog as TheDialog};
ghost use Rattle.imap_stream.specs.Commands.{Heard as Stream, emptied};
ghost use Rattle.imap_session.specs.declared.dialog.Dialog.{Dialog as TheReader};
ghost use Rattle.pop_session.specs.declared.dialog.Dialog.{Dialog as TheFetcher};
ghost use Rattle.console_head.specs.Request.{Stage};
ghost use Rattle.mail_loop.specs.Hindrance.{Hindrance};
ghost use Rattle.mail_loop.specs.State.{Imap, Pop, Smtp, State};
ghost use Rattle.mail_loop.specs.Turns.{hears_seat};
ghost use Rattle.dialog_laws.specs.Joined.{hears_all, joined};

use smtp_lines::what_is_kept_goes_on;

/// An SMTP client's bytes may come in one event or in two, cut anywhere. What an event with all of them says, does and leaves is what the first says,
/// does and leaves, and then what the second does where the first left the connection. (It leaves the state, the dialog and the bytes that are no
/// whole line yet.) Where the first closes it, by QUIT or a fault, it is what the first does alone. The turns of the second are hindered by what is
/// left of the hindrances behind those of the first's lines.
pub fn smtp_client_events_join()
    ensures { (hindrances : List Hindrance) (stage : Stage) (at conn : ℕ) (s : State) (unserved : List ℕ) (d : TheDialog) (first second : List ℕ) →
        hears_seat hindrances stage at s conn (Smtp unserved d) (first ++ second)
        ≡ joined (hears_seat hindrances stage at s conn (Smtp unserved d) first) (λ t seat. hears_seat (drop (length (smtp_lines_of (unserved ++ first))) hindrances) stage at t conn seat second) }
{
    what_is_kept_goes_on();
}

/// So are two events of an IMAP client, where nothing hinders them: its commands may come in one event or in two, cut anywhere.
pub fn imap_client_events_join()
    ensures { (stage : Stage) (at conn : ℕ) (s : State) (stream : Stream) (d : TheReader) (first second : List ℕ) →
        hears_seat [] stage at s conn (Imap (emptied stream) d) (first ++ second)
        ≡ joined (hears_seat [] stage at s conn (Imap (emptied stream) d) first) (λ t seat. hears_seat [] stage at t conn seat second) }
{}

/// And so are two events of a POP3 client, hindered as those of an SMTP client.
pub fn pop_client_events_join()
    ensures { (hindrances : List Hindrance) (stage : Stage) (at conn : ℕ) (s : State) (unserved : List ℕ) (d : TheFetcher) (first second : List ℕ) →
        hears_seat hindrances stage at s conn (Pop unserved d) (first ++ second)
        ≡ joined (hears_seat hindrances stage at s conn (Pop unserved d) first) (λ t seat. hears_seat (drop (length (smtp_lines_of (unserved ++ first))) hindrances) stage at t conn seat second) }
{
    what_is_kept_goes_on();
}

/// So may the bytes of an SMTP client, of an IMAP client, or of a POP3 client, come in any number of events, where nothing hinders them.
pub fn events_of_a_stream_join()
    ensures client { (stage : Stage) (at conn : ℕ) (s : State) (unserved : List ℕ) (d : TheDialog) (first : List ℕ) (more : List (List ℕ)) →
        hears_all stage at s conn (Smtp unserved d) first more ≡ hears_seat [] stage at s conn (Smtp unserved d) (first ++ flat_map (λ piece. piece) more) }
    ensures fetching { (stage : Stage) (at conn : ℕ) (s : State) (unserved : List ℕ) (d : TheFetcher) (first : List ℕ) (more : List (List ℕ)) →
        hears_all stage at s conn (Pop unserved d) first more ≡ hears_seat [] stage at s conn (Pop unserved d) (first ++ flat_map (λ piece. piece) more) }
    ensures reader { (stage : Stage) (at conn : ℕ) (s : State) (stream : Stream) (d : TheReader) (first : List ℕ) (more : List (List ℕ)) →
        hears_all stage at s conn (Imap (emptied stream) d) first more ≡ hears_seat [] stage at s conn (Imap (emptied stream) d) (first ++ flat_map (λ piece. piece) more) }
{
    what_is_kept_goes_on();
}
