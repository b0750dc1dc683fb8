//! The configuration of the house that `play` has.
ghost use Rattle.std.specs.Prelude.{◌≡◌, IfOk, IsTrue};
ghost use Rattle.house_text.specs.Beginning.{can_begin};
ghost use Rattle.house_text.specs.Playing.{playing_house, playing_conf};

use crate::read::{ConfigRefused, read_config};
use std::alloc::Global;
use undo_base::NoMemory;
use verb_core::{Conf, House};

/// The text of that configuration.
pub const HOUSE: &[u8] =
    b"host = \"mail.test\"\ndomains = [\"mail.test\"]\npostmaster = \"ann\"\n[[user]]\nname = \"ann\"\npassword = \"a1\"\n[[user]]\nname = \"bob\"\npassword = \"b2\"\n[[user]]\nname = \"carl\"\npassword = \"c3\"\n[aliases]\nteam = [\"ann\", \"bob\"]\n";

/// The house that `play` has, read from its text.
pub fn playing_config(alloc: Global) -> Result<(House, Conf), NoMemory>
    ensures value { IfOk result (λ config. config ≡ (playing_house, playing_conf)) }
    ensures begins { IfOk result (λ config. IsTrue (can_begin config.0 config.1)) }
{
    match read_config(alloc, HOUSE) {
        Ok(config) => Ok(config),
        Err(ConfigRefused::NoMemory) => Err(NoMemory),
        Err(ConfigRefused::Text) => unreachable!(),
    }
}
