//! What the definitions say of strings.
ghost use Rattle.std.specs.Prelude.{◌≡◌, ◌↔◌, ℕ, List, true};
ghost use Rattle.search_verb.specs.Occurs.{occurs_in, HasPart};

/// A string occurs in bytes exactly where a part of them is the string, ASCII case aside.
pub fn strings_occur_as_parts()
    ensures { (string bytes : List ℕ) → (occurs_in string bytes ≡ true) ↔ HasPart string bytes }
{}
