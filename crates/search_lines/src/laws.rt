//! What the definitions say, in the standard's words.
ghost use Rattle.std.specs.Prelude.{◌≡◌, ◌↔◌, List, Some};
ghost use Rattle.imap_tokens.specs.declared.tokens.Token as token;
ghost use Rattle.search_lines.specs.Grammar.{SpellsSought};
ghost use Rattle.search_lines.specs.Sought.{sought_in};
ghost use Rattle.search_lines.specs.declared.sought.Sought as the_sought;

use imap_tokens::sets_are_spelled;

/// The arguments of SEARCH are those that tokens spell, and no others.
pub fn searches_are_spelled()
    ensures { (tokens : List token.Token) (sought : the_sought.Sought) → (sought_in tokens ≡ Some sought) ↔ SpellsSought sought tokens }
{
    sets_are_spelled();
}
