//! What holds of each order. These functions do nothing: their contracts are laws of the definitions.
//!
//! Aims in an order are those that each item finds in the timeline, as a replay by levels would have them: none is looked for
//! anew.
ghost use Rattle.std.specs.Prelude.{◌≡◌, List, ◌∷◌, IsTrue};
ghost use Rattle.std.specs.List.{enumerate_from, list_all};
ghost use Rattle.std.specs.List.Sorted.{IsPermutation};
ghost use Rattle.verb_core.specs.declared.item.Item.{Item};
ghost use Rattle.verb_core.specs.Aims.{sought_by};
ghost use Rattle.verb_core.specs.Step.{step, step_with, run, answers};
ghost use Rattle.verb_core.specs.Store.{MailStore, IsValid};
ghost use Rattle.verb_core.specs.Touched.{touches_box, SameAt, SameNames};
ghost use Rattle.replay_plan.specs.Placing.{levels_of};
ghost use Rattle.box_store.specs.Outline.{outline};
ghost use Rattle.replay_crew.specs.Outline.{outline_after};
ghost use Rattle.replay_crew.specs.Orders.{Placed, AreWellFormed, turns, run_turns, answers_of_turns, IsOrder, AllFit, AimsHold, AllAimed, are_apart, by_levels, touches_by_turn, levels_at, run_levels, told_by_levels};

/// Items with the aims that each finds when its turn comes leave the store that the items leave in order, and each gets the
/// answer that it gets there. They are performed in any order in which the items of each pair that is turned commute and are not
/// both acts on aliases or filters.
pub fn orders_give_the_fold()
    ensures store { (s : MailStore) (items : List Item) (order : List Placed) → IsValid s → AreWellFormed s.house items →
        IsOrder order (enumerate_from 0 (turns s items)) → run_turns s order ≡ run s items }
    ensures answers { (s : MailStore) (items : List Item) (order : List Placed) → IsValid s → AreWellFormed s.house items →
        IsOrder order (enumerate_from 0 (turns s items)) → IsPermutation (answers_of_turns s order) (enumerate_from 0 (answers s items)) }
{}

/// The plan of a timeline's items is such an order: level by level, and in each level by rising places.
pub fn plans_are_orders()
    ensures { (s : MailStore) (items : List Item) → IsOrder (by_levels (levels_of (touches_by_turn (turns s items))) (enumerate_from 0 (turns s items))) (enumerate_from 0 (turns s items)) }
{}

/// An item stands behind items of which each is independent of it. It finds its mailboxes, and where it touches these its user's names, as it finds
/// them before them, and gets the same answer. Where its aims hold behind them they hold before them. So what the items of a level do can be worked
/// out on the store before them.
pub fn levels_share_a_store()
    ensures mailboxes { (s : MailStore) (level : List Placed) (p : Placed) → IsValid s → AllFit s.house (p ∷ level) → IsTrue (list_all (λ q. are_apart q p) level) →
        SameAt (touches_box p.1.0 p.1.1) s.boxes (run_turns s level).boxes }
    ensures names { (s : MailStore) (level : List Placed) (p : Placed) → IsValid s → AllFit s.house (p ∷ level) → IsTrue (list_all (λ q. are_apart q p) level) →
        SameNames p.1.1 s.boxes (run_turns s level).boxes }
    ensures answer { (s : MailStore) (level : List Placed) (p : Placed) → IsValid s → AllFit s.house (p ∷ level) → IsTrue (list_all (λ q. are_apart q p) level) →
        (step_with p.1.0 (run_turns s level) p.1.1).1 ≡ (step_with p.1.0 s p.1.1).1 }
    ensures aims { (s : MailStore) (level : List Placed) (p : Placed) → IsValid s → AllFit s.house (p ∷ level) → IsTrue (list_all (λ q. are_apart q p) level) →
        AimsHold (run_turns s level).boxes p → AimsHold s.boxes p }
{}

/// In such an order each item finds the mailboxes at which its mail is aimed, and misses those that it looked for in vain.
pub fn orders_keep_aims()
    ensures { (s : MailStore) (items : List Item) (order : List Placed) → IsValid s → AreWellFormed s.house items →
        IsOrder order (enumerate_from 0 (turns s items)) → AllAimed s order }
{}

/// The plan of a timeline's items, level by level, each item of a level worked out on the store before that level, leaves the
/// timeline's store, and gives each item its answer.
pub fn plans_run_by_levels()
    ensures store { (s : MailStore) (items : List Item) → IsValid s → AreWellFormed s.house items →
        run_levels s (levels_at (enumerate_from 0 (turns s items)) (levels_of (touches_by_turn (turns s items)))) ≡ run s items }
    ensures answers { (s : MailStore) (items : List Item) → IsValid s → AreWellFormed s.house items →
        IsPermutation (told_by_levels s (levels_at (enumerate_from 0 (turns s items)) (levels_of (touches_by_turn (turns s items))))) (enumerate_from 0 (answers s items)) }
{}

/// An outline goes on with the store by the configuration and the names alone. An item is performed on it only where it changes
/// these; behind each it is the outline of the store. And an item aims on an outline as on the store.
pub fn outlines_follow_names()
    ensures goes_on { (s : MailStore) (i : Item) → outline (step s i).0 ≡ outline_after (outline s) i }
    ensures aims { (s : MailStore) (i : Item) → sought_by (outline s) i ≡ sought_by s i }
{}
