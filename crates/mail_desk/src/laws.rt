//! What holds of every timeline. These functions do nothing: their contracts are laws of the definitions.
ghost use Rattle.std.specs.Prelude.{◌≡◌, ℕ, ◌<◌, ◌≤◌, List, ◌++◌, map, IsTrue};
ghost use Rattle.std.specs.List.{AllByRecursion, list_all};
ghost use Rattle.verb_core.specs.declared.conf.Conf.{Conf};
ghost use Rattle.verb_core.specs.declared.conf.House.{House};
ghost use Rattle.verb_core.specs.declared.item.Item.{Item};
ghost use Rattle.verb_core.specs.declared.mailbox.BoxId.{BoxId};
ghost use Rattle.verb_core.specs.declared.mailbox.Mailbox.{Mailbox};
ghost use Rattle.verb_core.specs.Items.{IsWellFormed};
ghost use Rattle.verb_core.specs.Step.{run};
ghost use Rattle.verb_core.specs.Store.{MailStore, IsValid, is_house, is_known, opening as opening_store};
ghost use Rattle.mail_desk.specs.Timeline.{has_text, unshown};
ghost use Rattle.store_kept.specs.Bases.{Carries, HasBase, StandsOn};
ghost use Rattle.store_kept.specs.Kept.{BaseTexts, Kept, new_desk, origin_of, performed};
ghost use Rattle.store_kept.specs.Texts.{all_bodies, has_text_among, has_text_with};

use verb_core::laws::{mail_is_kept, steps_keep_validity};

/// In the store that items lead to each body has a text among them, those before, and those that come with a base, whatever the order
/// of the items. It needs that in the store before them each has one among the latter two; so it does of the opening store, which has
/// no mail. What items showed does not matter.
pub fn bodies_have_texts()
    ensures behind { (texts : BaseTexts) (base : MailStore) (front t : List Item) → IsValid base → AllByRecursion (IsWellFormed base.house) t →
        IsTrue (all_bodies (has_text_with texts front) base.boxes) → IsTrue (all_bodies (has_text_with texts (front ++ t)) (run base t).boxes) }
    ensures shown { (texts : BaseTexts) (t now : List Item) (boxes : List (BoxId × Mailbox)) → map unshown now ≡ map unshown t →
        IsTrue (all_bodies (has_text_with texts t) boxes) → IsTrue (all_bodies (has_text_with texts now) boxes) }
    ensures base { (texts : BaseTexts) (base : MailStore) (t : List Item) → IsValid base → AllByRecursion (IsWellFormed base.house) t →
        IsTrue (all_bodies (has_text_with texts t) base.boxes) → IsTrue (all_bodies (has_text_with texts t) (run base t).boxes) }
    ensures opening { (house : House) (conf : Conf) (t : List Item) → IsTrue (is_house house) →
        IsTrue (list_all (λ a. list_all (is_known house) a.users) conf.aliases) → AllByRecursion (IsWellFormed house) t →
        IsTrue (all_bodies (has_text t) (run (opening_store house conf) t).boxes) }
{
    steps_keep_validity();
    mail_is_kept();
}

/// The base carries what is kept. So does the opening store at first, and it goes on by each item of the next number and by
/// whatever other items can stand on it. Each body in it has a text, whatever the items.
pub fn bases_carry()
    ensures opening { (house : House) (conf : Conf) → IsTrue (is_house house) → IsTrue (list_all (λ a. list_all (is_known house) a.users) conf.aliases) → HasBase (new_desk house conf) }
    ensures item { (kept : Kept) (item : Item) → HasBase kept → IsWellFormed kept.house item → item.number ≡ kept.next → AllByRecursion (λ (i : Item). i.number < kept.next) kept.timeline →
        HasBase (performed kept item) }
    ensures other { (kept : Kept) (timeline : List Item) (next : ℕ) → HasBase kept → StandsOn (origin_of kept) timeline → kept.next ≤ next → Carries (origin_of kept) timeline next }
    ensures texts { (kept : Kept) (items : List Item) → HasBase kept → IsTrue (all_bodies (has_text_among kept items) kept.base.boxes) }
{}
