//! What the definitions say, in the standard's words.
ghost use Rattle.std.specs.Prelude.{◌≡◌, ℕ, true, List, [], Some};
ghost use Rattle.imap_tokens.specs.Tokens.{tokens_in, tokens_with};
ghost use Rattle.imap_tokens.specs.Spelling.{Spells};
ghost use Rattle.imap_tokens.specs.SpelledLines.{SpellsLines};
ghost use Rattle.imap_tokens.specs.Flags.{no_flags, bare_from, flags_in};
ghost use Rattle.imap_tokens.specs.Ranges.{SpellsSet};
ghost use Rattle.imap_tokens.specs.Sets.{set_in};
ghost use Rattle.imap_tokens.specs.Lists.{SpellsFlags, SpellsList};
ghost use Rattle.imap_tokens.specs.declared.tokens.Token as token;
ghost use Rattle.undo_base.specs.declared.keys.Flags as flag;
ghost use Rattle.imap_stream.specs.declared.picks.SetRange as range;

/// The tokens of a line are those that it spells, and no others.
pub fn tokens_are_spelled()
    ensures spells { (line : List ℕ) (tokens : List token.Token) → tokens_in [] line ≡ Some tokens → Spells line tokens }
    ensures only { (line : List ℕ) (tokens : List token.Token) → Spells line tokens → tokens_in [] line ≡ Some tokens }
{}

/// Flags are those that tokens spell, in parentheses or without them, and no others.
pub fn flags_are_spelled()
    ensures bare { (tokens : List token.Token) (flags : flag.Flags) → bare_from true no_flags tokens ≡ Some flags → SpellsFlags flags tokens }
    ensures only_bare { (tokens : List token.Token) (flags : flag.Flags) → SpellsFlags flags tokens → bare_from true no_flags tokens ≡ Some flags }
    ensures listed { (tokens rest : List token.Token) (flags : flag.Flags) → flags_in tokens ≡ Some (flags, rest) → SpellsList flags rest tokens }
    ensures only_listed { (tokens rest : List token.Token) (flags : flag.Flags) → SpellsList flags rest tokens → flags_in tokens ≡ Some (flags, rest) }
{}

/// Sets are those that bytes spell, one range or more, with a comma between each two, and no others.
pub fn sets_are_spelled()
    ensures spells { (bytes : List ℕ) (set : List range.SetRange) → set_in bytes ≡ Some set → SpellsSet set bytes }
    ensures only { (bytes : List ℕ) (set : List range.SetRange) → SpellsSet set bytes → set_in bytes ≡ Some set }
{}

/// The tokens of a command's lines and literals are those that these spell, and no others.
pub fn arguments_are_spelled()
    ensures spells { (line : List ℕ) (lines literals : List (List ℕ)) (tokens : List token.Token) → tokens_with line lines literals ≡ Some tokens → SpellsLines line lines literals tokens }
    ensures only { (line : List ℕ) (lines literals : List (List ℕ)) (tokens : List token.Token) → SpellsLines line lines literals tokens → tokens_with line lines literals ≡ Some tokens }
{}
