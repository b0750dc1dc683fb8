//! What a QUIT removes, and when it is answered.
ghost use Rattle.std.specs.Prelude.{◌≡◌, ◌∷◌, [], ℕ, Bool, List, Ok, Result, Some, false, is_ok, true};
ghost use Rattle.std.specs.Ordering.{eq_by_cmp};
ghost use Rattle.undo_base.specs.declared.keys.Key.{Key};
ghost use Rattle.undo_base.specs.declared.keys.User.{User};
ghost use Rattle.verb_core.specs.declared.ask.Ask.{Ask};
ghost use Rattle.verb_core.specs.declared.ask.SubmitFault.{SubmitFault};
ghost use Rattle.verb_core.specs.declared.item.Item.{Item};
ghost use Rattle.verb_core.specs.declared.mailbox.BoxId.{BoxId};
ghost use Rattle.verb_core.specs.Boxes.{box_cmp, box_of, row_at};
ghost use Rattle.verb_core.specs.Live.{live, mail_of};
ghost use Rattle.verb_core.specs.Mailboxes.{without};
ghost use Rattle.verb_core.specs.Names.{inbox};
ghost use Rattle.verb_core.specs.Step.{step};
ghost use Rattle.verb_core.specs.Store.{MailStore};
ghost use Rattle.pop_session.specs.declared.answer.Answer.TheVariants.{Closing};
ghost use Rattle.pop_session.specs.declared.dialog.Awaits.TheVariants.{Outcome};
ghost use Rattle.pop_session.specs.declared.dialog.Dialog.{Dialog};
ghost use Rattle.pop_session.specs.declared.dialog.Pending.TheVariants.{Remove};
ghost use Rattle.pop_session.specs.declared.maildrop.Maildrop.{Maildrop};
ghost use Rattle.pop_session.specs.declared.out.PopOut.TheVariants.{Bye, Submit};
ghost use Rattle.pop_session.specs.Answer.{answer_text};
ghost use Rattle.pop_session.specs.Dialog.{expunge_of, keys_left, quit, settle, store_of};
ghost use Rattle.pop_session.specs.Maildrop.{marked_keys};
ghost use Rattle.pop_session.specs.Removal.{after, after_quit, quit_outs};

/// What a QUIT asks takes the marked messages out of INBOX, those that are still there, and no other; and it changes no
/// other mailbox. Where the store does what a user asks, it is left as `after` says.
pub fn a_quit_removes_the_marked()
    ensures marked { (s : MailStore) (u : User) (number at next later : ℕ) (keys : List Key) → mail_of (after_quit s u number at next later keys) (Some u) inbox ≡ without keys (mail_of s (Some u) inbox) }
    ensures others { (s : MailStore) (u : User) (number at next later : ℕ) (keys : List Key) (id : BoxId) → eq_by_cmp box_cmp (box_of u inbox) id ≡ false → row_at id (after_quit s u number at next later keys).boxes ≡ row_at id s.boxes }
    ensures done { (s : MailStore) (u : User) (number at : ℕ) (ask : Ask) (deep : Bool) (item : Item) → live s number at (Some u) ask deep ≡ Ok item → (step s item).0 ≡ after s u number at ask }
{}

/// A QUIT with marked messages asks a STORE and an EXPUNGE of these, and is answered `+OK Bye.` where the store did both. It is
/// answered so at once only where no message is marked, and else only after its EXPUNGE was done.
pub fn a_quit_is_answered_when_it_is_done()
    ensures asks { (u : User) (drop : Maildrop) (key : Key) (keys : List Key) (marked removed : Item) → marked_keys drop.messages ≡ key ∷ keys
        → quit_outs u drop marked removed ≡ Submit (store_of (key ∷ keys)) ∷ Submit (expunge_of (key ∷ keys)) ∷ Bye (answer_text Closing) ∷ [] }
    ensures at_once { (d : Dialog) → (quit d).out ≡ Bye (answer_text Closing) → keys_left d.stage ≡ [] }
    ensures late { (d : Dialog) (outcome : Result Item SubmitFault) → (settle d outcome).out ≡ Bye (answer_text Closing) → (d.awaits ≡ Outcome Remove) × (is_ok outcome ≡ true) }
{}
