//! What holds of every cycle. These functions do nothing: their contracts are laws of the definitions.
ghost use Rattle.std.specs.Prelude.{◌≡◌, ◌≢◌, ℕ, ◌+◌, ◌<◌, ◌≤◌, ◌==◌, List, [], ◌∷◌, ◌++◌, false, true, find, map, drop, take, length, option_and_then, slice_get, IsTrue, Some};
ghost use Rattle.std.specs.List.{AllByRecursion};
ghost use Rattle.undo_base.specs.declared.limits.TheConstants.{LAST_NUMBER};
ghost use Rattle.verb_core.specs.declared.item.Item.{Item};
ghost use Rattle.verb_core.specs.declared.mailbox.Body.{Body};
ghost use Rattle.verb_core.specs.declared.mailbox.BoxId.{BoxId};
ghost use Rattle.verb_core.specs.declared.mailbox.Mailbox.{Mailbox};
ghost use Rattle.verb_core.specs.Items.{IsTimeline, IsWellFormed, NumbersApart, text_of};
ghost use Rattle.verb_core.specs.Step.{answers, run};
ghost use Rattle.verb_core.specs.Store.{IsValid, MailStore};
ghost use Rattle.verb_bytes.specs.declared.journal.CycleAsk.{CycleAsk};
ghost use Rattle.paradox.specs.Words.{told_of};
ghost use Rattle.paradox.specs.declared.reports.BrokenItem.{BrokenItem};
ghost use Rattle.stored_items.specs.Stored.{AllHeard};
ghost use Rattle.repair_desk.specs.Repairs.{are_known, is_among, is_dropped, numbers_of};
ghost use Rattle.cycle_rules.specs.Asking.{Rewinds, after_cycle, due_anew};
ghost use Rattle.cycle_rules.specs.Cycles.{broken_at, cycled_at, leaves_numbers, repair_of, report_at, stamps_at, timeline_at};
ghost use Rattle.cycle_rules.specs.Repairing.{Cycled, Repair, leaves_numbers_for};
ghost use Rattle.mail_cycle.specs.Comparing.{reached_from, reworked_from, reworked_with, timeline_from, timeline_with};
ghost use Rattle.mail_cycle.specs.Leaving.{GoesOn, GoesOnAt};
ghost use Rattle.mail_cycle.specs.Tasks.{GoesWith};
ghost use Rattle.mail_cycle.specs.Permanence.{TextsStay, UidsLast};
ghost use Rattle.mail_cycle.specs.Places.{items_before, reason_at, shown_at, tellings};
ghost use Rattle.cycle_rules.specs.Withdrawals.{after_withdrawal, unedit_of, withdrawn_at};
ghost use Rattle.withdraw.specs.declared.undone.UndoneBehind.{UndoneBehind};
ghost use Rattle.withdraw.specs.Coming.{TextsComeBack};
ghost use Rattle.store_kept.specs.Bases.{HasBase};
ghost use Rattle.store_kept.specs.Coming.{Comes, HasUndone, HasUndoneTexts};
ghost use Rattle.store_kept.specs.Kept.{Kept, Marks, origin_of, performed, store_of, upgraded};

/// What a cycle leaves can be gone on with. The items are well formed, their numbers distinct and below the next one; the stamps
/// name the mailboxes and are below the next number. That has risen and is one that an item can have. So it is with whatever
/// texts of deliveries were read, and from whatever store it began at or before the point.
pub fn cycles_leave_states()
    ensures formed { (s : Kept) (at : ℕ) (ask : CycleAsk) (place : ℕ) → AllByRecursion (IsWellFormed s.house) s.timeline →
        IsTrue (are_known s.house ask.inserts) → AllByRecursion (IsWellFormed s.house) (timeline_at s at ask place) }
    ensures timeline { (s : Kept) (at : ℕ) (ask : CycleAsk) (place : ℕ) → IsTimeline s.house s.timeline →
        AllByRecursion (λ (i : Item). i.number < s.next) s.timeline → IsTrue (are_known s.house ask.inserts) → IsTimeline s.house (timeline_at s at ask place) }
    ensures below { (s : Kept) (at : ℕ) (ask : CycleAsk) (place : ℕ) → AllByRecursion (λ (i : Item). i.number < s.next) s.timeline →
        AllByRecursion (λ (i : Item). i.number < (cycled_at s at ask place).next) (timeline_at s at ask place) }
    ensures revs { (s : Kept) (at : ℕ) (ask : CycleAsk) (place : ℕ) → AllByRecursion (λ (i : Item). i.rev < s.next) s.timeline →
        AllByRecursion (λ (i : Item). i.rev < (cycled_at s at ask place).next) (timeline_at s at ask place) }
    ensures named { (s : Kept) (at : ℕ) (ask : CycleAsk) (place : ℕ) →
        map (λ (r : BoxId × ℕ). r.0) (stamps_at s at ask place) ≡ map (λ (r : BoxId × Mailbox). r.0) (run s.base (timeline_at s at ask place)).boxes }
    ensures fresh { (s : Kept) (at : ℕ) (ask : CycleAsk) (place : ℕ) → AllByRecursion (λ (r : BoxId × ℕ). r.1 < s.next) s.stamps →
        AllByRecursion (λ (r : BoxId × ℕ). r.1 < (cycled_at s at ask place).next) (stamps_at s at ask place) }
    ensures next { (s : Kept) (at : ℕ) (ask : CycleAsk) (place : ℕ) → leaves_numbers s ask ≡ true → (cycled_at s at ask place).next ≤ LAST_NUMBER }
    ensures due { (s : Kept) (at : ℕ) (ask : CycleAsk) (due : Cycled) → IsTimeline s.house s.timeline →
        AllByRecursion (λ (i : Item). i.number < s.next) s.timeline → AllByRecursion (λ (r : BoxId × ℕ). r.1 < s.next) s.stamps →
        IsTrue (are_known s.house ask.inserts) → due_anew s at ask ≡ Rewinds due → GoesOn s due }
    ensures goes { (s : Kept) (at : ℕ) (ask : CycleAsk) (place : ℕ) → IsTimeline s.house s.timeline →
        AllByRecursion (λ (i : Item). i.number < s.next) s.timeline → IsTrue (are_known s.house ask.inserts) → GoesWith s (repair_of s at ask place) }
{}

/// So can what any repair leaves whose items are a timeline and whose numbers are left. That is so with whatever texts of deliveries
/// were read, and from whatever store it began at or before its place.
pub fn repairs_leave_states()
    ensures from { (s : Kept) (at : ℕ) (repair : Repair) (first : MailStore) (count : ℕ) (heard : List Item) → GoesWith s repair →
        AllByRecursion (λ (r : BoxId × ℕ). r.1 < s.next) s.stamps → count ≤ repair.place → AllHeard repair.items heard → leaves_numbers_for s repair.acts ≡ true →
        GoesOnAt s (reached_from s at repair first count heard) (reworked_from s at repair first count heard) }
    ensures from_revs { (s : Kept) (at : ℕ) (repair : Repair) (first : MailStore) (count : ℕ) (heard : List Item) → AllByRecursion (λ (i : Item). i.rev ≤ s.next) repair.items →
        AllHeard repair.items heard →
        AllByRecursion (λ (i : Item). i.rev < (reworked_from s at repair first count heard).next) (timeline_from s at repair first count heard) }
{}

/// What a withdrawal leaves can be gone on with, where what the last cycle left can come back; and what a cycle leaves can.
pub fn withdrawals_leave_states()
    ensures goes { (s : Kept) (last : UndoneBehind) → IsTimeline s.house s.timeline → Comes (origin_of s) s.timeline s.next last →
        AllByRecursion (λ (i : Item). i.number < s.next) s.timeline → GoesWith s (unedit_of s last) }
    ensures due { (s : Kept) (last : UndoneBehind) → IsTimeline s.house s.timeline → Comes (origin_of s) s.timeline s.next last → (at : ℕ) →
        AllByRecursion (λ (i : Item). i.number < s.next) s.timeline → AllByRecursion (λ (r : BoxId × ℕ). r.1 < s.next) s.stamps →
        leaves_numbers_for s 0 ≡ true → GoesOn s (withdrawn_at s at last) }
    ensures revs { (s : Kept) (last : UndoneBehind) → IsTimeline s.house s.timeline → Comes (origin_of s) s.timeline s.next last → (at : ℕ) →
        TextsComeBack s.timeline last → AllByRecursion (λ (i : Item). i.rev < s.next) s.timeline →
        AllByRecursion (λ (i : Item). i.rev < (withdrawn_at s at last).next) (withdrawn_at s at last).timeline }
    ensures comes { (s : Kept) (at : ℕ) (ask : CycleAsk) → IsTimeline s.house s.timeline → AllByRecursion (λ (i : Item). i.number < s.next) s.timeline →
        (due : Cycled) → IsTrue (are_known s.house ask.inserts) → HasBase s → due_anew s at ask ≡ Rewinds due → HasUndone (after_cycle s ask due) }
    ensures texts_come { (s : Kept) (at : ℕ) (ask : CycleAsk) → IsTimeline s.house s.timeline → AllByRecursion (λ (i : Item). i.number < s.next) s.timeline →
        (due : Cycled) → AllByRecursion (λ (i : Item). i.rev < s.next) s.timeline → due_anew s at ask ≡ Rewinds due → HasUndoneTexts (after_cycle s ask due) }
{}

/// From a beginning at or before its place. The items through it are as they were, and where its store is the one to which they
/// led, all is as from the first item on.
pub fn repairs_begin_anywhere()
    ensures front { (s : Kept) (at : ℕ) (repair : Repair) (first : MailStore) (count : ℕ) (heard : List Item) → count ≤ repair.place → repair.place ≤ length s.timeline →
        take count heard ≡ take count s.timeline → take count (timeline_from s at repair first count heard) ≡ take count s.timeline }
    ensures alike { (s : Kept) (at : ℕ) (repair : Repair) (first : MailStore) (count : ℕ) (heard : List Item) → count ≤ repair.place → repair.place ≤ length s.timeline →
        take count heard ≡ take count s.timeline → first ≡ run s.base (take count s.timeline) →
        reworked_from s at repair first count heard ≡ reworked_with s at repair heard }
    ensures store { (s : Kept) (at : ℕ) (repair : Repair) (first : MailStore) (count : ℕ) (heard : List Item) → count ≤ repair.place → repair.place ≤ length s.timeline →
        take count heard ≡ take count s.timeline → first ≡ run s.base (take count s.timeline) →
        reached_from s at repair first count heard ≡ run s.base (timeline_with s at repair heard) }
{}

/// The new timeline has the items through the point, the acts that come in, the later items that stay, and the notices: one to
/// a user at most.
pub fn timelines_have_their_length()
    ensures items { (s : Kept) (at : ℕ) (ask : CycleAsk) (place : ℕ) → place ≤ length s.timeline →
        length (timeline_at s at ask place) ≡ place + length ask.inserts + (report_at s at ask place).kept + length (report_at s at ask place).notices }
    ensures notices { (s : Kept) (at : ℕ) (ask : CycleAsk) (place : ℕ) → length (report_at s at ask place).notices ≤ length s.house.accounts }
{}

/// Each later item is judged by its own answer, at its own place of the new timeline. It is told of exactly where it is dropped
/// and a user's, or stays and what it showed no longer holds there. Nothing but later items is told of. The one that stays shows
/// its own answer afterwards exactly where what it showed no longer holds. The whole list is what is told of the later items so,
/// each once, in the order of the timeline before.
pub fn later_items_are_judged_alone()
    ensures told { (s : Kept) (at : ℕ) (ask : CycleAsk) (place : ℕ) (earlier : List Item) (i : Item) (later : List Item) → place ≤ length s.timeline →
        NumbersApart (drop place s.timeline) → drop place s.timeline ≡ earlier ++ i ∷ later →
        find (λ (b : BrokenItem). b.number == i.number) (broken_at s at ask place) ≡ option_and_then (told_of i) (reason_at s at ask place earlier i) }
    ensures others { (s : Kept) (at : ℕ) (ask : CycleAsk) (place : ℕ) →
        AllByRecursion (λ (b : BrokenItem). is_among (numbers_of (drop place s.timeline)) b.number ≡ true) (broken_at s at ask place) }
    ensures shown { (s : Kept) (at : ℕ) (ask : CycleAsk) (place : ℕ) (earlier : List Item) (i : Item) (later : List Item) → place ≤ length s.timeline →
        drop place s.timeline ≡ earlier ++ i ∷ later → is_dropped ask i ≡ false →
        slice_get (timeline_at s at ask place) (length (items_before s at ask place earlier)) ≡ Some (shown_at s at ask place earlier i) }
    ensures list { (s : Kept) (at : ℕ) (ask : CycleAsk) (place : ℕ) → place ≤ length s.timeline → broken_at s at ask place ≡ tellings s at ask place }
{}

/// The items through the point stay as they are.
pub fn items_through_the_point_stay()
    ensures { (s : Kept) (at : ℕ) (ask : CycleAsk) (place : ℕ) → place ≤ length s.timeline → take place (timeline_at s at ask place) ≡ take place s.timeline }
{}

/// A body that has a text in the new timeline had it before the cycle. Else it is a replacement of the cycle, or an act or a
/// notice of the cycle brought it. So it goes back over any number of cycles.
pub fn bodies_keep_their_texts()
    ensures { (s : Kept) (at : ℕ) (ask : CycleAsk) (place : ℕ) (body : Body) (text : List ℕ) → NumbersApart s.timeline → body.origin ≤ s.next → body.rev ≢ s.next →
        text_of (timeline_at s at ask place) body ≡ Some text → text_of s.timeline body ≡ Some text }
{}

/// A cycle without repairs behind the last item changes no item and tells nobody.
pub fn nothing_asked_changes_nothing()
    ensures items { (s : Kept) (at : ℕ) (ask : CycleAsk) → ask.inserts ≡ [] → timeline_at s at ask (length s.timeline) ≡ s.timeline }
    ensures broken { (s : Kept) (at : ℕ) (ask : CycleAsk) → broken_at s at ask (length s.timeline) ≡ [] }
{}

/// Where later items show what they would show now, a cycle without repairs breaks none of them.
pub fn answers_that_are_shown_hold()
    ensures { (s : Kept) (at : ℕ) (ask : CycleAsk) (place : ℕ) → ask.drops ≡ [] → ask.replaces ≡ [] → ask.inserts ≡ [] →
        drop place (answers s.base s.timeline) ≡ map (λ (i : Item). i.shown) (drop place s.timeline) → broken_at s at ask place ≡ [] }
{}

/// What a client that keeps mail by UID knows lasts (RFC 3501, section 2.3.1.1). It does over no step at all, over two that follow
/// one another, and over each item with the next number. So it does over each cycle and each withdrawal, over an upgrade, and
/// whatever is known of snapshots.
pub fn uids_last()
    ensures itself { (s : Kept) → UidsLast s s }
    ensures followed { (a b c : Kept) → UidsLast a b → UidsLast b c → UidsLast a c }
    ensures item { (s : Kept) (i : Item) → IsValid (store_of s) → map (λ (r : BoxId × ℕ). r.0) s.stamps ≡ map (λ (r : BoxId × Mailbox). r.0) (store_of s).boxes → i.number ≡ s.next →
        UidsLast s (performed s i) }
    ensures cycle { (s : Kept) (at : ℕ) (ask : CycleAsk) (due : Cycled) → HasBase s → HasUndone s → NumbersApart s.timeline → due_anew s at ask ≡ Rewinds due →
        UidsLast s (after_cycle s ask due) }
    ensures withdrawal { (s : Kept) (at : ℕ) (key : List ℕ) (last : UndoneBehind) → HasBase s → IsTimeline s.house s.timeline → s.undone ≡ Some last →
        Comes (origin_of s) s.timeline s.next last → TextsComeBack s.timeline last → UidsLast s (after_withdrawal s key (withdrawn_at s at last)) }
    ensures upgrade { (s : Kept) → UidsLast s (upgraded s) }
    ensures marks { (s : Kept) (marks : Marks) → UidsLast s (record s { marks = marks }) }
{}

/// A text that a client may ask for stays what it was, over all but a withdrawal: none comes back that was taken away.
pub fn texts_stay()
    ensures itself { (s : Kept) → TextsStay s s }
    ensures followed { (a b c : Kept) → a.next ≤ b.next → TextsStay a b → TextsStay b c → TextsStay a c }
    ensures item { (s : Kept) (i : Item) → i.number ≡ s.next → TextsStay s (performed s i) }
    ensures cycle { (s : Kept) (at : ℕ) (ask : CycleAsk) (due : Cycled) → HasBase s → NumbersApart s.timeline → due_anew s at ask ≡ Rewinds due →
        TextsStay s (after_cycle s ask due) }
    ensures upgrade { (s : Kept) → TextsStay s (upgraded s) }
    ensures marks { (s : Kept) (marks : Marks) → TextsStay s (record s { marks = marks }) }
{}
