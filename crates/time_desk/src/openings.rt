//! What the definitions of opening imply.
ghost use Rattle.std.specs.Prelude.{◌≡◌, ℕ, List, Result};
ghost use Rattle.store_kept.specs.Kept.{Kept};
ghost use Rattle.time_desk.specs.declared.fault.StartFault.{StartFault};
ghost use Rattle.time_desk.specs.Opening.{OpensAs};

use seal_log::{one_reading, readings_agree};
use verb_bytes::laws::one_spelling;

/// An image opens as one thing: as what its records leave, as no journal, or as damaged at one place.
pub fn one_opening()
    ensures { (image : List ℕ) (one two : Result Kept StartFault) → OpensAs image one → OpensAs image two → one ≡ two }
{
    one_reading();
    readings_agree();
    one_spelling();
}
