//! What holds of every record and its bytes. These functions do nothing: their contracts are laws of the definitions.
//!
//! That a record in its ranges has a spelling is a law for each kind (`openings_have_spellings`, `items_have_spellings`,
//! `acts_have_spellings`, `cycles_have_spellings`, `snapshots_have_spellings`, `upgrades_have_spellings`,
//! `withdrawals_have_spellings`).
ghost use Rattle.std.specs.Prelude.{◌≡◌, ℕ, ◌+◌, ◌≤◌, ◌⊎◌, [], ◌∷◌, List, Some, IsTrue, length};
ghost use Rattle.std.specs.List.{AllZip};
ghost use Rattle.undo_base.specs.declared.limits.TheConstants.{LAST_MOMENT, MOST_KEYS};
ghost use Rattle.undo_base.specs.Name.{IsName};
ghost use Rattle.verb_core.specs.declared.conf.Conf.{Conf};
ghost use Rattle.verb_core.specs.declared.conf.House.{House};
ghost use Rattle.verb_core.specs.declared.mailbox.BoxId.{BoxId};
ghost use Rattle.verb_core.specs.declared.mailbox.Mailbox.{Mailbox};
ghost use Rattle.verb_core.specs.declared.item.Act.{Act};
ghost use Rattle.verb_core.specs.declared.item.Item.{Item};
ghost use Rattle.verb_core.specs.Items.{has_form, keys_in};
ghost use Rattle.verb_bytes.specs.declared.journal.CycleAsk.{CycleAsk};
ghost use Rattle.verb_bytes.specs.declared.journal.JournalRecord.{JournalRecord};
ghost use Rattle.verb_bytes.specs.declared.journal.JournalRecord.TheVariants.{Format, Verb, Operator, Cycle, Snapshot, Upgrade, Withdraw, Kept};
ghost use Rattle.verb_bytes.specs.Decoding.{IsBytes, IsRefused, IsRefusedAt, IsSpelled};
ghost use Rattle.verb_bytes.specs.Fields.{most_of_four};
ghost use Rattle.verb_bytes.specs.Limits.{delivery, AreMany, IsAct, IsAlias, IsAsked, IsCycleAsk, IsFilter, IsMail, IsOpening, IsRow};
ghost use Rattle.verb_bytes.specs.Holes.{HasHole, SpellsAround, filled, own_text, parted};
ghost use Rattle.verb_bytes.specs.Places.{IsTextAt, first_from, text_places_of, texts_in, LiesThere};
ghost use Rattle.verb_bytes.specs.Spelling.{record_bytes, record_code, HasSpelling, Spells};

/// Bytes spell one record at most, and a record has one spelling. Bytes spell a record or are refused, at one place.
pub fn one_spelling()
    ensures one_record { (first second : JournalRecord) (bytes : List ℕ) → Spells first bytes → Spells second bytes → first ≡ second }
    ensures one_spelling { (what : JournalRecord) (first second : List ℕ) → Spells what first → Spells what second → first ≡ second }
    ensures one_place { (bytes : List ℕ) (first second : ℕ) → IsRefusedAt bytes first → IsRefusedAt bytes second → first ≡ second }
    ensures spelled_or_refused { (bytes : List ℕ) → IsBytes bytes → IsSpelled bytes ⊎ IsRefused bytes }
{}

/// A house and its first aliases have a spelling, which the first record of a journal is.
pub fn openings_have_spellings()
    ensures { (house : House) (conf : Conf) → IsOpening house conf → HasSpelling (Format house conf) }
{}

/// A delivery of such mail has a spelling.
pub fn deliveries_have_spellings()
    ensures { (number at : ℕ) (from : List ℕ) (to : List (List ℕ)) (text : List ℕ) → number ≤ most_of_four → at ≤ LAST_MOMENT → IsMail from to text → HasSpelling (Verb (delivery number at from to text)) }
{}

/// An item that a user asked for has a spelling, with what was shown for it.
pub fn items_have_spellings()
    ensures { (item : Item) → IsAsked item → HasSpelling (Verb item) }
{}

/// An act of the operator has a spelling.
pub fn acts_have_spellings()
    ensures { (number at : ℕ) (act : Act) → number ≤ most_of_four → at ≤ LAST_MOMENT → IsAct act → HasSpelling (Operator number at act) }
{}

/// A cycle has a spelling.
pub fn cycles_have_spellings()
    ensures { (number at : ℕ) (ask : CycleAsk) → number ≤ most_of_four → at ≤ LAST_MOMENT → IsCycleAsk ask → HasSpelling (Cycle number at ask) }
{}

/// A snapshot has a spelling.
pub fn snapshots_have_spellings()
    ensures { (items : ℕ) (conf : Conf) (rows : List (BoxId × Mailbox)) → items ≤ most_of_four → AreMany IsAlias conf.aliases → AreMany IsFilter conf.filters
        → AreMany IsRow rows → HasSpelling (Snapshot items conf rows) }
{}

/// An upgrade has a spelling.
pub fn upgrades_have_spellings()
    ensures { (at : ℕ) → at ≤ LAST_MOMENT → HasSpelling (Upgrade at) }
{}

/// A withdrawal has a spelling.
pub fn withdrawals_have_spellings()
    ensures { (number at : ℕ) (key : List ℕ) (of : ℕ) → number ≤ most_of_four → at ≤ LAST_MOMENT → IsName key → of ≤ most_of_four → HasSpelling (Withdraw number at key of) }
{}

/// The item of a record that has a spelling shows what its deed shows, has few keys and no rev.
pub fn spelled_items_are_formed()
    ensures form { (item : Item) → HasSpelling (Verb item) → IsTrue (has_form item.deed item.shown) }
    ensures keys { (item : Item) → HasSpelling (Verb item) → length (keys_in item.deed) ≤ MOST_KEYS }
    ensures rev { (item : Item) → HasSpelling (Verb item) → item.rev ≡ 0 }
{}

/// The same of an item that is kept, but for its rev.
pub fn spelled_kept_items_are_formed()
    ensures form { (item : Item) → HasSpelling (Kept item) → IsTrue (has_form item.deed item.shown) }
    ensures keys { (item : Item) → HasSpelling (Kept item) → length (keys_in item.deed) ≤ MOST_KEYS }
{}

/// A record's bytes begin with its kind.
pub fn records_begin_with_their_kind()
    ensures { (what : JournalRecord) → (rest : List ℕ) × (record_bytes what ≡ record_code what ∷ rest) }
{}

/// The moment of a cycle whose record has a spelling is within the years that dates can say.
pub fn spelled_cycles_have_moments()
    ensures { (number at : ℕ) (ask : CycleAsk) → HasSpelling (Cycle number at ask) → at ≤ LAST_MOMENT }
{}

/// The same of a withdrawal.
pub fn spelled_withdrawals_have_moments()
    ensures { (number at : ℕ) (key : List ℕ) (of : ℕ) → HasSpelling (Withdraw number at key of) → at ≤ LAST_MOMENT }
{}

/// Each text of a record lies in its bytes at its place, in order.
pub fn texts_lie_at_their_places()
    ensures { (what : JournalRecord) → HasSpelling what → AllZip (LiesThere (record_bytes what)) (text_places_of what) (texts_in what) }
{}

/// Where a record with an empty text is spelled by the bytes around a hole, one with another text is spelled by the bytes around
/// that, and there the text lies.
pub fn holes_are_filled()
    ensures spells { (what : JournalRecord) (before count : ℕ) (front back : List ℕ) → HasHole what before count → before ≡ length front
        → Spells what (parted front [] back) → SpellsAround front count back what }
    ensures places { (what : JournalRecord) (text : List ℕ) → first_from (text_places_of (filled what text)) ≡ first_from (text_places_of what) }
    ensures lies { (front text back : List ℕ) → IsTextAt (parted front text back) (length front + 4) text }
    ensures again { (what : JournalRecord) (text : List ℕ) → own_text what ≡ Some text → filled what text ≡ what }
{}
