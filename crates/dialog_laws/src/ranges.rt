//! What the store makes of an ask, and what items leave of it. These functions do nothing: their contracts are laws of the definitions.
ghost use Rattle.std.specs.Prelude.{◌≡◌, ℕ, ◌+◌, ◌*◌, ◌≤◌, Bool, IsTrue, IfSome, List, false, length, None, Ok, Option, Some};
ghost use Rattle.std.specs.List.{AllByRecursion, list_any};
ghost use Rattle.undo_base.specs.declared.limits.TheConstants.{LAST_MOMENT};
ghost use Rattle.undo_base.specs.declared.keys.User.{User};
ghost use Rattle.verb_core.specs.declared.ask.Ask.{Ask};
ghost use Rattle.verb_core.specs.declared.ask.Ask.TheVariants.{Deliver};
ghost use Rattle.verb_core.specs.declared.conf.Conf.{Conf};
ghost use Rattle.verb_core.specs.declared.conf.House.{House};
ghost use Rattle.verb_core.specs.declared.item.Item.{Item};
ghost use Rattle.verb_core.specs.Live.{live};
ghost use Rattle.verb_core.specs.Step.{run, step};
ghost use Rattle.verb_core.specs.Store.{IsValid, MailStore, is_house, opening};
ghost use Rattle.verb_bytes.specs.declared.journal.JournalRecord.{JournalRecord};
ghost use Rattle.verb_bytes.specs.declared.journal.JournalRecord.TheVariants.{Verb};
ghost use Rattle.verb_bytes.specs.Limits.{IsAsked, IsUser, delivery};
ghost use Rattle.verb_bytes.specs.Spelling.{HasSpelling};
ghost use Rattle.store_kept.specs.Kept.{Kept, store_of};
ghost use Rattle.desk_journal.specs.Records.{goes_on, state};
ghost use Rattle.dialog_laws.specs.Ranges.{IsKeeping, IsRecordable, IsStored};

/// The item that a store makes of an ask that can be recorded has a spelling, with what is shown for it.
pub fn live_items_have_spellings()
    ensures asked { (s : MailStore) (number at : ℕ) (by : Option User) (ask : Ask) (deep : Bool) (item : Item) → IsValid s → IsStored s → IsRecordable ask → IfSome by IsUser →
        number ≤ 4294967295 → at ≤ LAST_MOMENT → live s number at by ask deep ≡ Ok item → IsAsked item }
    ensures spelled { (s : MailStore) (number at : ℕ) (by : Option User) (ask : Ask) (deep : Bool) (item : Item) → IsValid s → IsStored s → IsRecordable ask → IfSome by IsUser →
        number ≤ 4294967295 → at ≤ LAST_MOMENT → live s number at by ask deep ≡ Ok item → HasSpelling (Verb item) }
    ensures delivered { (s : MailStore) (number at : ℕ) (from : List ℕ) (to : List (List ℕ)) (text : List ℕ) (deep : Bool) (item : Item) →
        live s number at None (Deliver from to text) deep ≡ Ok item → item ≡ delivery number at from to text }
{}

/// The opening store is in the ranges of records, and so is each that items lead to whose own numbers and names are. The mailboxes, and 200 more
/// for each item, may be no more than four bytes count: a name of 200 bytes has fewer superiors. What users ask is such an item.
pub fn stores_stay_in_range()
    ensures opening { (house : House) (conf : Conf) → IsTrue (is_house house) → IsStored (opening house conf) }
    ensures step { (s : MailStore) (i : Item) → IsStored s → length s.boxes + 200 ≤ 4294967295 → IsKeeping i → IsStored (step s i).0 }
    ensures grown { (s : MailStore) (i : Item) → IsKeeping i → length (step s i).0.boxes ≤ length s.boxes + 200 }
    ensures run { (base : MailStore) (t : List Item) → IsStored base → length base.boxes + 200 * length t ≤ 4294967295 → AllByRecursion IsKeeping t → IsStored (run base t) }
    ensures asked { (i : Item) → IsAsked i → IsKeeping i }
{}

/// The store that a journal's records leave, where each can stand, is in the ranges of records. Each item has its number, its rev and its names from
/// a record that has a spelling, or from a cycle. Where a past was cut off, the mailboxes of the base, and 200 more for each item, are to be no more
/// than four bytes count.
pub fn journals_leave_stores_in_range()
    ensures plain { (records : List JournalRecord) (kept : Kept) → state records ≡ Some kept → list_any goes_on records ≡ false → IsStored (store_of kept) }
    ensures based { (records : List JournalRecord) (kept : Kept) → state records ≡ Some kept → length kept.base.boxes + 200 * length kept.timeline ≤ 4294967295 → IsStored (store_of kept) }
{}
