//! What the definitions say, in the standard's words.
ghost use Rattle.std.specs.Prelude.{◌≡◌, ◌↔◌, ℕ, true, List, [], Some};
ghost use Rattle.imap_stream.specs.declared.next.RawCommand.{RawCommand};
ghost use Rattle.imap_lines.specs.Command.{Reading, command_of};
ghost use Rattle.imap_lines.specs.Grammar.{IsReading};
ghost use Rattle.imap_lines.specs.DateText.{SpellsDate};
ghost use Rattle.imap_tokens.specs.Dates.{date_in};
ghost use Rattle.imap_lines.specs.Fetch.{asks_in};
ghost use Rattle.imap_tokens.specs.Spelling.{Spaced};
ghost use Rattle.imap_lines.specs.Attributes.{SpellsAttribute};
ghost use Rattle.imap_lines.specs.Asks.{statuses_from};
ghost use Rattle.imap_lines.specs.Lists.{SpellsItems};
ghost use Rattle.imap_tokens.specs.declared.tokens.Token as token;
ghost use Rattle.undo_base.specs.declared.asks.StatusAsk as item;
ghost use Rattle.imap_lines.specs.declared.asks.FetchAsk as ask;

use imap_tokens::{arguments_are_spelled, flags_are_spelled, sets_are_spelled};
use search_lines::searches_are_spelled;

/// What lines and literals are read as is what the grammar says, a command or the one cause why they are none, and nothing else.
pub fn one_command()
    ensures { (raw : RawCommand) (reading : Reading) → (command_of raw ≡ reading) ↔ IsReading raw reading }
{
    arguments_are_spelled();
    sets_are_spelled();
    flags_are_spelled();
    searches_are_spelled();
}

/// Attributes are those that tokens spell, one or more, with a space between each two, and no others.
pub fn attributes_are_spelled()
    ensures spells { (tokens : List token.Token) (asks : List ask.FetchAsk) → asks_in tokens ≡ Some asks → Spaced SpellsAttribute asks tokens }
    ensures only { (tokens : List token.Token) (asks : List ask.FetchAsk) → Spaced SpellsAttribute asks tokens → asks_in tokens ≡ Some asks }
{}

/// STATUS items are those that tokens spell, and no others.
pub fn items_are_spelled()
    ensures spells { (tokens : List token.Token) (asks : List item.StatusAsk) → statuses_from true [] tokens ≡ Some asks → SpellsItems asks tokens }
    ensures only { (tokens : List token.Token) (asks : List item.StatusAsk) → SpellsItems asks tokens → statuses_from true [] tokens ≡ Some asks }
{}

/// Dates are those that letters spell, by one equation on their day, their second and their zone, and no others.
pub fn dates_are_spelled()
    ensures spells { (bytes : List ℕ) (moment : ℕ) → date_in bytes ≡ Some moment → SpellsDate moment bytes }
    ensures only { (bytes : List ℕ) (moment : ℕ) → SpellsDate moment bytes → date_in bytes ≡ Some moment }
{}
