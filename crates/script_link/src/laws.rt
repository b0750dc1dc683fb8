//! What scripts and transcripts have in common.
ghost use Rattle.std.specs.Prelude.{◌≡◌, ℕ, ◌<◌, List, Some};
ghost use Rattle.std.specs.List.{All, flat_map};
ghost use Rattle.script_link.specs.Texts.{spelled, unspelled};

/// What a transcript writes of bytes is read in a script as these bytes.
pub fn reads_what_is_written()
    ensures { (bytes : List ℕ) → All (λ b. b < 256) bytes → unspelled (flat_map spelled bytes) ≡ Some bytes }
{}
