//! What holds of every timeline without a cycle. These functions do nothing: their contracts are laws of the definitions.
ghost use Rattle.std.specs.Prelude.{◌≡◌, ◌≢◌, ℕ, ◌<◌, ◌≤◌, ◌++◌, List, [], ◌∷◌, map, take, drop, length, Some};
ghost use Rattle.std.specs.List.{AllByRecursion};
ghost use Rattle.verb_core.specs.declared.conf.House.{House};
ghost use Rattle.verb_core.specs.declared.item.Item.{Item};
ghost use Rattle.verb_core.specs.declared.mailbox.Body.{Body};
ghost use Rattle.verb_core.specs.Fates.{IsFresh};
ghost use Rattle.verb_core.specs.Items.{IsTimeline, NumbersApart, text_of};
ghost use Rattle.verb_core.specs.Store.{MailStore};
ghost use Rattle.withdraw.specs.declared.undone.Undone.{Undone};
ghost use Rattle.withdraw.specs.declared.undone.UndoneBehind.{UndoneBehind};
ghost use Rattle.withdraw.specs.Coming.{CanComeBack, TextsComeBack};
ghost use Rattle.withdraw.specs.Unediting.{as_shown, before_of, item_of, unedited, unedited_behind, unshown, whole_of};

/// All that stood before the cycle is back in its order, each item with its own deed, text and rev. Behind it stand the items that
/// came after the cycle's own, as they are. So the acts that came in are gone. What went shows what it had shown, and what is
/// there at present shows what it shows there.
pub fn all_comes_back()
    ensures items { (present : List Item) (last : Undone) →
        map unshown (unedited present last) ≡ map unshown last.before ++ map unshown (drop last.placed present) }
    ensures behind { (present : List Item) (last : Undone) → drop (length last.before) (unedited present last) ≡ drop last.placed present }
    ensures gone { (present : List Item) (i : Item) → AllByRecursion (λ (j : Item). j.number ≢ i.number) present → as_shown present i ≡ i }
    ensures there { (present : List Item) (i j : Item) → item_of present i.number ≡ Some j → as_shown present i ≡ record i { shown = j.shown } }
{}

/// The items through the point stay as they are. What stood behind it is enough, where no number stands twice among the present
/// items, nor among those before the cycle.
pub fn the_front_stays()
    ensures front { (present : List Item) (last : UndoneBehind) → last.position ≤ length present →
        take last.position (unedited_behind present last) ≡ take last.position present }
    ensures enough { (present : List Item) (last : UndoneBehind) → NumbersApart present → NumbersApart (before_of present last) →
        unedited present (whole_of present last) ≡ unedited_behind present last }
{}

/// A timeline without a cycle is one: its items are well formed, and their numbers distinct. These are below the next one, the revs
/// too, and no message of a store that has none of their numbers has one of them.
pub fn unedited_timelines_are_timelines()
    ensures timeline { (house : House) (present : List Item) (last : UndoneBehind) → IsTimeline house present → CanComeBack house present last →
        IsTimeline house (unedited_behind present last) }
    ensures below { (house : House) (present : List Item) (last : UndoneBehind) (next : ℕ) → last.cycle < next → CanComeBack house present last →
        AllByRecursion (λ (i : Item). i.number < next) present → AllByRecursion (λ (i : Item). i.number < next) (unedited_behind present last) }
    ensures revs { (present : List Item) (last : UndoneBehind) (next : ℕ) → last.cycle < next → TextsComeBack present last →
        AllByRecursion (λ (i : Item). i.rev < next) present → AllByRecursion (λ (i : Item). i.rev < next) (unedited_behind present last) }
    ensures fresh { (base : MailStore) (present : List Item) (last : UndoneBehind) → AllByRecursion (λ (i : Item). IsFresh i.number base) last.later →
        AllByRecursion (λ (i : Item). IsFresh i.number base) present → AllByRecursion (λ (i : Item). IsFresh i.number base) (unedited_behind present last) }
{}

/// A body that has a text without the cycle has it at present, or had it before the cycle.
pub fn bodies_keep_their_texts()
    ensures { (house : House) (present : List Item) (last : UndoneBehind) (body : Body) (text : List ℕ) → IsTimeline house present →
        CanComeBack house present last → TextsComeBack present last → text_of (unedited_behind present last) body ≡ Some text → text_of (present ++ last.later) body ≡ Some text }
{}

/// What can come back can do so when one more item is performed, whose number is above the cycle's.
pub fn what_can_come_back_stays()
    ensures items { (house : House) (present : List Item) (i : Item) (last : UndoneBehind) → last.cycle < i.number → CanComeBack house present last →
        CanComeBack house (present ++ i ∷ []) last }
    ensures texts { (house : House) (present : List Item) (i : Item) (last : UndoneBehind) → last.cycle < i.number → CanComeBack house present last →
        TextsComeBack present last → TextsComeBack (present ++ i ∷ []) last }
{}
