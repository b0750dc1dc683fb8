//! What the definitions of requests imply. These functions do nothing: their contracts are laws of the definitions.
ghost use Rattle.std.specs.Prelude.{◌≤◌, IsTrue, List, ℕ, Result};
ghost use Rattle.undo_base.specs.declared.limits.TheConstants.{LAST_MOMENT};
ghost use Rattle.verb_core.specs.declared.conf.House.{House as TheHouse};
ghost use Rattle.verb_core.specs.Store.{is_house};
ghost use Rattle.console_http.specs.declared.request.Asked.{Asked as TheAsked};
ghost use Rattle.console_http.specs.declared.request.HttpRefused.{HttpRefused as TheRefused};
ghost use Rattle.console_http.specs.Requests.{AskKnows, AskRecords, Asks};

/// Who is named by an act, or by an act of a cycle, that is asked for is a user of the house.
pub fn acts_name_known_users()
    ensures { (house : TheHouse) → (bytes : List ℕ) → (asked : Result TheAsked TheRefused) → Asks house bytes asked → AskKnows house asked }
{}

/// An act or a cycle that is asked for has a spelling as a record, under each number of 32 bits and at each moment up to the
/// last.
pub fn asks_have_spellings()
    ensures { (house : TheHouse) (bytes : List ℕ) (asked : Result TheAsked TheRefused) (number at : ℕ) → IsTrue (is_house house) → number ≤ 4294967295 → at ≤ LAST_MOMENT →
        Asks house bytes asked → AskRecords number at asked }
{}
