//! What other users do. These functions do nothing: their contracts are laws of the machine.
ghost use Rattle.std.specs.Prelude.{◌≡◌, ◌==◌, ℕ, false, IsTrue, List, [], None, Some};
ghost use Rattle.undo_base.specs.declared.keys.User.{User};
ghost use Rattle.verb_core.specs.declared.conf.House.{House};
ghost use Rattle.verb_core.specs.declared.item.Item.{Item};
ghost use Rattle.verb_core.specs.Store.{is_known};
ghost use Rattle.store_kept.specs.Kept.{Kept, performed, store_of};
ghost use Rattle.imap_stream.specs.Commands.{Heard as Stream};
ghost use Rattle.imap_session.specs.declared.dialog.Dialog.{Dialog as TheDialog};
ghost use Rattle.mail_desk.specs.Desk.{IsDesk};
ghost use Rattle.mail_loop.specs.Afterwards.{gone_between, last_words, taking};
ghost use Rattle.mail_loop.specs.Machine.{happens};
ghost use Rattle.mail_loop.specs.Serving.{Step};
ghost use Rattle.mail_loop.specs.State.{Imap, State};
ghost use Rattle.privacy_laws.specs.Agreeing.{Agree};
ghost use Rattle.privacy_laws.specs.Runs.{answered_in, behind, notes_for};
ghost use Rattle.privacy_laws.specs.Told.{replies_to, seats_at};
ghost use Rattle.privacy_laws.specs.Others.{AreAlike, CanFollow, IsOwnItem, IsSameMail, Spares, all_performed};

/// A store in use agrees with itself, and two that agree on a user agree again behind the same item of that user.
pub fn users_agree_again()
    ensures itself { (house : House) (u : User) (k : Kept) → IsDesk k → k.house ≡ house → IsTrue (is_known house u) → Agree house u k k }
    ensures own { (house : House) (u : User) (k l : Kept) (i j : Item) → Agree house u k l → CanFollow house k i → IsOwnItem u i j → Agree house u (performed k i) (performed l j) }
{}

/// Whatever items touch none of a user's mailboxes, two stores that agree on that user agree again behind one of each. So runs in which the user's own
/// items are the same, and as many others stand between them, lead to stores that agree on that user. So does the same mail in both, where it comes to
/// the same of the user's mailboxes, be it by SMTP or a gift of the operator's, and the same message that the operator removes. What an item that touches
/// none of them takes away closes no connection on which the user reads by IMAP.
pub fn others_leave_agreement()
    ensures one { (house : House) (u : User) (k l : Kept) (i j : Item) → Agree house u k l → CanFollow house k i → CanFollow house l j → Spares u (store_of k) i → Spares u (store_of l) j →
        Agree house u (performed k i) (performed l j) }
    ensures mail { (house : House) (u : User) (k l : Kept) (i j : Item) → Agree house u k l → CanFollow house k i → CanFollow house l j → IsSameMail u k l i j →
        Agree house u (performed k i) (performed l j) }
    ensures closes { (u : User) (kept : Kept) (i : Item) (stream : Stream) (d : TheDialog) → Spares u (store_of kept) i → d.user ≡ Some u →
        last_words (taking (gone_between kept (performed kept i))) (Imap stream d) ≡ None }
    ensures runs { (house : House) (u : User) (k l : Kept) (is js : List Item) → Agree house u k l → AreAlike house u k l is js → Agree house u (all_performed k is) (all_performed l js) }
{}

/// An event on another connection, in which a connection has no reply, does nothing for it: the link sends it nothing and does not close it, and its seat
/// stays. A reply to it would be the last words that the event's aftermath has for its seat.
pub fn others_tell_nothing()
    ensures told { (s : State) (step : Step) (conn : ℕ) → (step.event.conn == conn) ≡ false → replies_to conn (answered_in step s).replies ≡ [] →
        notes_for conn (happens step.hindrances s step.event).notes ≡ [] }
    ensures stays { (s : State) (step : Step) (conn : ℕ) → (step.event.conn == conn) ≡ false → replies_to conn (answered_in step s).replies ≡ [] →
        seats_at conn (behind step s).seats ≡ seats_at conn s.seats }
{}
