//! Where the texts of messages are read.
ghost use Rattle.std.specs.Prelude.{IsTrue};
ghost use Rattle.verb_core.specs.Texts.{BodiesTold, Gives};

use crate::Body;
use std::alloc::Global;
use undo_base::Text;

/// Why a text is not read.
#[derive(Clone, Copy, Debug)]
pub enum BodiesFault {
    Failed,
    NoMemory,
}

/// Texts by the body that names them.
pub trait Bodies {
    /// What it tells of itself: which bodies it holds, their texts, whether what is read is what was stored, and how often a
    /// read failed.
    ghost told: { Self → BodiesTold };

    /// What reading texts leaves of it: how it is later, beside what it was.
    ghost leads: { Self → Self → Type 0 };

    /// The text of a body that is held.
    fn text(&mut self, alloc: Global, body: Body) -> Result<Text, BodiesFault>
        requires { IsTrue ((told self.old).holds body) }
        ensures gives { Gives (told self.old) (told self.new) body result }
        ensures leads { leads self.old self.new };

    /// Where nothing is read it is as it was.
    ghost leads_to_itself: { (bodies : Self) → leads bodies bodies };

    /// Reading goes on.
    ghost leads_on: { (old mid new : Self) → leads old mid → leads mid new → leads old new };
}
