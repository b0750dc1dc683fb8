//! What holds of every list of reports, and of what a cycle left to be withdrawn. The functions do nothing: their contracts are laws
//! of the definitions.
ghost use Rattle.std.specs.Prelude.{◌≡◌, ◌≢◌, ℕ, List, Some, IsTrue};
ghost use Rattle.verb_core.specs.declared.item.Item.{Item};
ghost use Rattle.verb_core.specs.declared.mailbox.Body.{Body};
ghost use Rattle.verb_core.specs.declared.mailbox.BoxId.{BoxId};
ghost use Rattle.verb_core.specs.declared.mailbox.Mailbox.{Mailbox};
ghost use Rattle.paradox.specs.declared.reports.Report.{Report};
ghost use Rattle.store_kept.specs.Coming.{HasUndone, HasUndoneTexts};
ghost use Rattle.store_kept.specs.Founding.{has_text_of, names_body};
ghost use Rattle.store_kept.specs.Kept.{Kept, Reports, is_by_key, performed, report_of, with_report};
ghost use Rattle.store_kept.specs.Naming.{NamedTexts, all_come, are_rising, is_named, texts_come};
ghost use Rattle.store_kept.specs.Texts.{all_bodies, text_at_hand, text_kept};

/// A report is found under its key once it was put there, and so is each other one that was found before. The keys still rise.
pub fn reports_are_kept()
    ensures itself { (reports : Reports) (key : List ℕ) (report : Report) → report_of (with_report key report reports) key ≡ Some report }
    ensures others { (reports : Reports) (key other : List ℕ) (report : Report) → other ≢ key →
        report_of (with_report key report reports) other ≡ report_of reports other }
    ensures rising { (reports : Reports) (key : List ℕ) (report : Report) → IsTrue (is_by_key reports) → IsTrue (is_by_key (with_report key report reports)) }
{}

/// What the last cycle left to be withdrawn can come back once an item was performed that has the next number.
pub fn what_can_come_back_stays()
    ensures items { (kept : Kept) (item : Item) → item.number ≡ kept.next → HasUndone kept → HasUndone (performed kept item) }
    ensures texts { (kept : Kept) (item : Item) → item.number ≡ kept.next → HasUndone kept → HasUndoneTexts kept → HasUndoneTexts (performed kept item) }
{}

/// A text that is kept is at hand, where what can come back has new numbers.
pub fn kept_texts_are_at_hand()
    ensures { (kept : Kept) (body : Body) (text : List ℕ) → HasUndone kept → text_kept kept body ≡ Some text → text_at_hand kept body ≡ Some text }
{}

/// All texts of named bodies have come exactly where each body that mailboxes name has one.
pub fn named_texts_are_whole()
    ensures { (named : NamedTexts) (boxes : List (BoxId × Mailbox)) → IsTrue (are_rising named) →
        ((body : Body) → is_named named body ≡ names_body boxes body) → all_come named ≡ all_bodies (has_text_of (texts_come named)) boxes }
{}
