//! What holds of each plan. These functions do nothing: their contracts are laws of the definitions.
ghost use Rattle.std.specs.Prelude.{◌≡◌, ◌≤◌, ◌<◌, ℕ, true, false, List, [], ◌∷◌, ◌++◌, zip, length, get_or, IsTrue};
ghost use Rattle.std.specs.List.{list_all};
ghost use Rattle.touch_rules.specs.declared.touched.Touch.{Touch};
ghost use Rattle.touch_rules.specs.Commuting.{are_independent};
ghost use Rattle.replay_plan.specs.Lines.{are_places};
ghost use Rattle.replay_plan.specs.Placing.{may_have, level_behind, levels_by_item, levels_of};

/// The level of an item follows from the earlier items and their levels. It is one that the item may have, and no level
/// from 1 below it is.
pub fn levels_are_least()
    ensures turn { (front : List (List Touch)) (touches : List Touch) →
        levels_by_item (front ++ touches ∷ []) ≡ levels_by_item front ++ level_behind (zip front (levels_by_item front)) touches ∷ [] }
    ensures may { (front : List (List Touch)) (touches : List Touch) →
        may_have (zip front (levels_by_item front)) touches (level_behind (zip front (levels_by_item front)) touches) ≡ true }
    ensures first { (front : List (List Touch)) (touches : List Touch) → 1 ≤ level_behind (zip front (levels_by_item front)) touches }
    ensures least { (front : List (List Touch)) (touches : List Touch) (level : ℕ) → 1 ≤ level →
        level < level_behind (zip front (levels_by_item front)) touches → may_have (zip front (levels_by_item front)) touches level ≡ false }
{}

/// Items of one level are independent in pairs.
pub fn items_of_one_level_are_independent()
    ensures { (front rest : List (List Touch)) (touches : List Touch) (i : ℕ) → i < length front →
        get_or (levels_by_item (front ++ touches ∷ rest)) i 0 ≡ get_or (levels_by_item (front ++ touches ∷ rest)) (length front) 0 →
        are_independent (get_or front i []) touches ≡ true }
{}

/// Each place in the plan of items is a place of a list that has a number for each of them.
pub fn levels_have_places()
    ensures { (all : List (List Touch)) (numbers : List ℕ) → length numbers ≡ length all → IsTrue (list_all (are_places numbers) (levels_of all)) }
{}
