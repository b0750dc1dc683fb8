//! What holds of items that commute. These functions do nothing: their contracts are laws of the definitions.
ghost use Rattle.std.specs.Prelude.{◌≡◌, Bool, true, false, List, ◌&&◌};
ghost use Rattle.verb_core.specs.declared.item.Item.{Item};
ghost use Rattle.verb_core.specs.Store.{MailStore, IsValid};
ghost use Rattle.verb_core.specs.Items.{IsWellFormed};
ghost use Rattle.verb_core.specs.Aims.{Sought, sought_by};
ghost use Rattle.verb_core.specs.Step.{step};
ghost use Rattle.touch_rules.specs.declared.touched.Touch.{Touch};
ghost use Rattle.touch_rules.specs.Table.{touches_of};
ghost use Rattle.touch_rules.specs.Commuting.{are_independent, commute};
ghost use Rattle.touch_rules.specs.Swapping.{sets_conf, resolved, CanHave, Swap, SwapAnew};

/// Both tests are the same either way round, and items that are independent commute.
pub fn tests_are_even()
    ensures commute { (xs ys : List Touch) → commute xs ys ≡ commute ys xs }
    ensures independent { (xs ys : List Touch) → are_independent xs ys ≡ are_independent ys xs }
    ensures weaker { (xs ys : List Touch) → are_independent xs ys ≡ true → commute xs ys ≡ true }
{}

/// Two items that commute, performed in either order from any valid store, leave the same store, and each gets the same answer.
/// They have aims that are given, where at most one of them is an act on aliases or filters. Or each has the aims that it finds
/// on the store of its turn, where neither is.
pub fn commuting_items_swap()
    ensures given { (to from : Sought) (s : MailStore) (i j : Item) → IsValid s → IsWellFormed s.house i → IsWellFormed s.house j → CanHave to i → CanHave from j →
        commute (touches_of (resolved to i)) (touches_of (resolved from j)) ≡ true → (sets_conf i.deed && sets_conf j.deed) ≡ false → Swap to from s i j }
    ensures found { (s : MailStore) (i : Item) → CanHave (sought_by s i) i }
    ensures anew { (s : MailStore) (i j : Item) → IsValid s → IsWellFormed s.house i → IsWellFormed s.house j → sets_conf i.deed ≡ false → sets_conf j.deed ≡ false →
        commute (touches_of (resolved (sought_by s i) i)) (touches_of (resolved (sought_by (step s i).0 j) j)) ≡ true → SwapAnew s i j }
{}
