//! What a cycle leaves to be withdrawn, and what a withdrawal leaves. The functions do nothing: their contracts are laws of the
//! definitions.
ghost use Rattle.std.specs.Prelude.{◌≡◌, ◌≢◌, ℕ, ◌+◌, ◌<◌, ◌≤◌, List, ◌++◌, drop, length, Some, true};
ghost use Rattle.std.specs.List.{AllByRecursion};
ghost use Rattle.undo_base.specs.declared.keys.User.{User};
ghost use Rattle.verb_core.specs.declared.item.Item.{Item};
ghost use Rattle.verb_core.specs.declared.item.Shown.{Shown};
ghost use Rattle.verb_core.specs.declared.mailbox.Body.{Body};
ghost use Rattle.verb_core.specs.Items.{IsTimeline, NumbersApart};
ghost use Rattle.verb_core.specs.Step.{run};
ghost use Rattle.verb_bytes.specs.declared.journal.CycleAsk.{CycleAsk};
ghost use Rattle.stored_items.specs.Stored.{AllHeard};
ghost use Rattle.withdraw.specs.declared.undone.UndoneBehind.{UndoneBehind};
ghost use Rattle.withdraw.specs.Coming.{CanComeBack, TextsComeBack};
ghost use Rattle.withdraw.specs.Unediting.{before_of};
ghost use Rattle.store_kept.specs.Bases.{HasBase};
ghost use Rattle.store_kept.specs.Founding.{names_body};
ghost use Rattle.store_kept.specs.Kept.{IsRun, Kept};
ghost use Rattle.store_kept.specs.Texts.{text_kept};
ghost use Rattle.repair_desk.specs.Repairs.{position};
ghost use Rattle.cycle_rules.specs.Asking.{Rewinds, after_cycle, cycle_due, undone_at};
ghost use Rattle.cycle_rules.specs.Cutting.{LeavesAlike, cut, with_point};
ghost use Rattle.cycle_rules.specs.Cycles.{cycled_at, front_of, leaves_numbers, repaired_items, told_at};
ghost use Rattle.cycle_rules.specs.Judging.{shown_after};
ghost use Rattle.cycle_rules.specs.Repairing.{Cycled, notice_items, told_in};
ghost use Rattle.cycle_rules.specs.Withdrawals.{unedit_of, withdrawn_at};

use verb_core::laws::{mail_is_kept, steps_keep_validity};

/// The items that stood behind the point of a cycle can come back among those that it leaves, with whatever texts of deliveries
/// were read, whatever was shown and whoever is told. So can their texts, where the texts that were read are those that were
/// stored.
pub fn cycles_can_be_withdrawn()
    ensures items { (s : Kept) (at : ℕ) (ask : CycleAsk) (place : ℕ) (heard : List Item) (now : List Shown) (told : List (User × List ℕ)) → place ≤ length s.timeline →
        IsTimeline s.house s.timeline → AllByRecursion (λ (i : Item). i.number < s.next) s.timeline → AllHeard (repaired_items s at ask place) heard →
        IsTimeline s.house (shown_after (front_of ask place) heard now ++ notice_items (s.next + length ask.inserts) at told) →
        CanComeBack s.house (shown_after (front_of ask place) heard now ++ notice_items (s.next + length ask.inserts) at told) (undone_at s ask place (length (repaired_items s at ask place))) }
    ensures texts { (s : Kept) (at : ℕ) (ask : CycleAsk) (place : ℕ) (now : List Shown) (told : List (User × List ℕ)) → IsTimeline s.house s.timeline →
        AllByRecursion (λ (i : Item). i.number < s.next) s.timeline → AllByRecursion (λ (i : Item). i.rev < s.next) s.timeline →
        TextsComeBack (shown_after (front_of ask place) (repaired_items s at ask place) now ++ notice_items (s.next + length ask.inserts) at told)
        (undone_at s ask place (length (repaired_items s at ask place))) }
{}

/// The store after a withdrawal is that of the timeline before the cycle, of what came after the cycle, and of the new notices. What
/// users were shown does not matter to it. Where nothing came after the cycle, these are the timeline before it, the notices of the
/// cycle, and those of the withdrawal.
pub fn withdrawals_restore_stores()
    ensures store { (s : Kept) (at : ℕ) (last : UndoneBehind) → run s.base (withdrawn_at s at last).timeline
        ≡ run s.base (before_of s.timeline last ++ drop last.placed s.timeline ++ told_in s at (unedit_of s last)) }
    ensures itself { (s : Kept) (at later : ℕ) (ask : CycleAsk) (place : ℕ) → place ≤ length s.timeline →
        run s.base (withdrawn_at (after_cycle s ask (cycled_at s at ask place)) later (undone_at s ask place (cycled_at s at ask place).placed)).timeline
        ≡ run s.base (s.timeline ++ told_at s at ask place ++ told_in (after_cycle s ask (cycled_at s at ask place)) later
        (unedit_of (after_cycle s ask (cycled_at s at ask place)) (undone_at s ask place (cycled_at s at ask place).placed))) }
{}

/// A cut leads to the store that is there, each message of which has the text that it had; and a cut of a cut is one cut.
pub fn cuts_keep_the_store()
    ensures store { (s : Kept) (place : ℕ) → IsRun s → IsRun (cut s place) }
    ensures texts { (s : Kept) (place : ℕ) → HasBase s → IsTimeline s.house s.timeline → IsRun s → (body : Body) → names_body s.store.boxes body ≡ true →
        text_kept (cut s place) body ≡ text_kept s body }
    ensures again { (s : Kept) (first second : ℕ) → HasBase s → IsTimeline s.house s.timeline → cut (cut s first) second ≡ cut s (first + second) }
{
    steps_keep_validity();
    mail_is_kept();
}

/// A cycle does behind a cut what it does where nothing was cut off. That is so at whatever place behind it, and so at the place of the
/// cut itself, which behind the cut is that of the point 0. The numbers that are wanted are the same, and so is the place of each later
/// point.
pub fn cycles_do_alike_behind_a_cut()
    ensures cycled { (s : Kept) (at : ℕ) (ask : CycleAsk) (place later point : ℕ) → place ≤ length s.timeline →
        LeavesAlike s place (cycled_at s at ask (place + later)) (cycled_at (cut s place) at (with_point ask point) later) }
    ensures due { (s : Kept) (at : ℕ) (ask : CycleAsk) (place : ℕ) (due : Cycled) → position s.timeline ask.point ≡ Some place → cycle_due s at ask ≡ Rewinds due →
        (behind : Cycled) × (cycle_due (cut s place) at (with_point ask 0) ≡ Rewinds behind) × LeavesAlike s place due behind }
    ensures numbers { (s : Kept) (ask : CycleAsk) (place point : ℕ) → leaves_numbers (cut s place) (with_point ask point) ≡ leaves_numbers s ask }
    ensures points { (s : Kept) (place point later : ℕ) → NumbersApart s.timeline → place ≤ length s.timeline → point ≢ 0 → position (drop place s.timeline) point ≡ Some later →
        position s.timeline point ≡ Some (place + later) }
{}
