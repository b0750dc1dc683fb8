//! Two runs of the machine. This function does nothing: its contract is a law of the machine.
ghost use Rattle.std.specs.Prelude.{◌≡◌, ℕ, Bool, true, List};
ghost use Rattle.undo_base.specs.declared.keys.User.{User};
ghost use Rattle.undo_outside.specs.declared.event.LinkNote.{LinkNote};
ghost use Rattle.verb_core.specs.declared.conf.House.{House};
ghost use Rattle.store_kept.specs.Kept.{Kept};
ghost use Rattle.mail_loop.specs.Serving.{Serves, at_first, run};
ghost use Rattle.mail_loop.specs.State.{State};
ghost use Rattle.privacy_laws.specs.Agreeing.{Agree};
ghost use Rattle.privacy_laws.specs.Runs.{AgreeFor, AreAlikeFor, Part, first_run, notes_for, second_run};

/// Two runs begin in states that agree for a user, and are alike for that user: the same comes over the user's connections, and what others do between
/// leaves the agreement. Then the link does the same for each of these connections: it sends the same strings in the same order, misses the same and
/// closes it at the same place. And the states agree for the user again. So it is of what `serve_events` did for two such lists of events, where it
/// ended within one with what was left undone of it.
pub fn runs_tell_of_their_own_mail()
    ensures told { (house : House) (u : User) (own : ℕ → Bool) (s t : State) (parts : List Part) (conn : ℕ) → AgreeFor house u own s t → AreAlikeFor house u own s t parts → own conn ≡ true →
        notes_for conn (run (first_run parts) s).notes ≡ notes_for conn (run (second_run parts) t).notes }
    ensures agree { (house : House) (u : User) (own : ℕ → Bool) (s t : State) (parts : List Part) → AgreeFor house u own s t → AreAlikeFor house u own s t parts →
        AgreeFor house u own (run (first_run parts) s).state (run (second_run parts) t).state }
    ensures served { (house : House) (u : User) (own : ℕ → Bool) (k l new newer : Kept) (parts : List Part) (done doing : List LinkNote) (conn : ℕ) →
        Agree house u k l → AreAlikeFor house u own (at_first k) (at_first l) parts → own conn ≡ true → Serves (first_run parts) k done new → Serves (second_run parts) l doing newer →
        notes_for conn done ≡ notes_for conn doing }
{}
