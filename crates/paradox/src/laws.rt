//! Laws of what is broken, and of who is told.
ghost use Rattle.std.specs.Prelude.{◌≡◌, ◌≢◌, List, ◌∷◌, ◌++◌, IsTrue, None, Some, is_some};
ghost use Rattle.std.specs.List.{list_any};
ghost use Rattle.verb_core.specs.declared.conf.House.{House};
ghost use Rattle.verb_core.specs.declared.item.Deed.{Deed};
ghost use Rattle.verb_core.specs.declared.item.Item.{Item};
ghost use Rattle.verb_core.specs.declared.item.Shown.{Shown};
ghost use Rattle.verb_core.specs.Boxes.{same_user};
ghost use Rattle.verb_core.specs.Deeds.{deed_word};
ghost use Rattle.verb_core.specs.Items.{IsWellFormed};
ghost use Rattle.verb_core.specs.Store.{is_known};
ghost use Rattle.paradox.specs.declared.reports.BrokenItem.{BrokenItem};
ghost use Rattle.paradox.specs.declared.words.Reason.{Reason};
ghost use Rattle.paradox.specs.declared.words.Verb.{Verb};
ghost use Rattle.paradox.specs.declared.words.Reason.TheVariants.{Withdrawn};
ghost use Rattle.paradox.specs.Answers.{broken};
ghost use Rattle.paradox.specs.Letters.{users_told};
ghost use Rattle.paradox.specs.Words.{told_of, verb_of, verb_word};

/// What a user would be shown again as it was shown is not broken.
pub fn the_same_answer_holds()
    ensures { (item : Item) → broken item item.shown ≡ None }
{}

/// Only the operator withdraws: no answer is broken for that reason.
pub fn no_answer_withdraws()
    ensures { (item : Item) (now : Shown) → broken item now ≢ Some Withdrawn }
{}

/// A broken item, and each that a user did, can be told, of a user of the house; and whoever has an item in a cycle's
/// list gets a notice.
pub fn broken_items_are_told()
    ensures broken { (house : House) (item : Item) (now : Shown) (reason : Reason) → IsWellFormed house item → broken item now ≡ Some reason → IsTrue (is_some (told_of item reason)) }
    ensures own { (house : House) (item : Item) (reason : Reason) → IsWellFormed house item → IsTrue (is_some item.by) → IsTrue (is_some (told_of item reason)) }
    ensures user { (house : House) (item : Item) (reason : Reason) (told : BrokenItem) → IsWellFormed house item → told_of item reason ≡ Some told → IsTrue (is_known house told.user) }
    ensures notice { (house : House) (before : List BrokenItem) (told : BrokenItem) (after : List BrokenItem) → IsTrue (is_known house told.user) → IsTrue (list_any (same_user told.user) (users_told house (before ++ told ∷ after))) }
{}

/// A verb has the word of its deed.
#[tactic(auto, using(crate::proofs::Told::verb_of_deed))]
pub fn verbs_have_their_words()
    ensures { (deed : Deed) (verb : Verb) → verb_of deed ≡ Some verb → verb_word verb ≡ deed_word deed }
{}
