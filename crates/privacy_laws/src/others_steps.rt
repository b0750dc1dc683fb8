//! What others do in steps. These functions do nothing: their contracts are laws of the machine.
ghost use Rattle.std.specs.Prelude.{◌≡◌, ℕ, Bool, true, List};
ghost use Rattle.undo_base.specs.declared.keys.User.{User};
ghost use Rattle.undo_outside.specs.declared.event.LinkNote.{LinkNote};
ghost use Rattle.verb_core.specs.declared.conf.House.{House};
ghost use Rattle.store_kept.specs.Kept.{Kept};
ghost use Rattle.mail_loop.specs.Serving.{Serves, Step, at_first};
ghost use Rattle.mail_loop.specs.State.{State};
ghost use Rattle.privacy_laws.specs.Agreeing.{Agree};
ghost use Rattle.privacy_laws.specs.Runs.{AgreeFor, LeaveAgreement, Part, first_run, notes_for, second_run};
ghost use Rattle.privacy_laws.specs.Steps.{AreOthersSteps, BringTheSame, DoTheSame, Perform};

/// Whole steps of others do nothing to what is kept but perform items: those that entered the timeline in them, one behind the other. Such are all events
/// of SMTP clients, those of IMAP and POP3 clients of other users, and those of a console but for a cycle, a withdrawal and an upgrade. None of the items
/// is the user's own. This is read from the machine, whatever hinders the steps.
pub fn others_perform_items()
    ensures { (house : House) (u : User) (own : ℕ → Bool) (s : State) (steps : List Step) → AgreeFor house u own s s → AreOthersSteps house u own s steps → Perform house u steps s }
{}

/// Two states agree for a user, and others do what they like in each. They deliver mail to others, deliver the same to the user, work on their own mailboxes
/// by IMAP and POP3, and look and act by a console. Where the items of both match for the user, the states agree again, and the user's connections are told
/// nothing in either. Of users' own items only how many there are is asked; an act on the user's mail is the same in both. A cycle, a withdrawal and an
/// upgrade are no such steps.
pub fn others_steps_leave_agreement()
    ensures { (house : House) (u : User) (own : ℕ → Bool) (s t : State) (is js : List Step) → AgreeFor house u own s t → DoTheSame house u own s t is js → LeaveAgreement house u own s t is js }
{}

/// What is served to a user's connections depends on what comes over them and on that user's mail alone. In two runs that bring the user the same, the link
/// sends them the same strings in the same order, misses the same and closes them at the same place. Of others' steps it is asked that as many items enter
/// the timeline in both, and that the mails that come to the user and the acts on the user's mail are the same. Of cycles, withdrawals and upgrades it is
/// asked that they leave the agreement.
pub fn users_are_served_their_own_mail()
    ensures { (house : House) (u : User) (own : ℕ → Bool) (k l new newer : Kept) (parts : List Part) (done doing : List LinkNote) (conn : ℕ) →
        Agree house u k l → BringTheSame house u own (at_first k) (at_first l) parts → own conn ≡ true → Serves (first_run parts) k done new → Serves (second_run parts) l doing newer →
        notes_for conn done ≡ notes_for conn doing }
{}
