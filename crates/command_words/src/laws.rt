//! What the definitions mean.
ghost use Rattle.std.specs.Prelude.{◌≡◌, ◌↔◌, ℕ, List, Some};
ghost use Rattle.command_words.specs.declared.commands.Command.{Command};
ghost use Rattle.command_words.specs.Usage.{command_of};
ghost use Rattle.command_words.specs.Spelling.{Says};

/// Words are read as a command exactly where they say it, by its name and its numbers as they are written; so they say one at most.
pub fn one_reading()
    ensures { (words : List (List ℕ)) → (command : Command) → (command_of words ≡ Some command) ↔ Says words command }
{}
