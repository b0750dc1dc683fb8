//! What holds of every repaired timeline, of stamps after a cycle, and of mailboxes after an item. These functions do nothing:
//! their contracts are laws of the definitions.
//!
//! The step law (an item extends each mailbox that stays) is stated of valid stores: on one where a mailbox lacks a superior a
//! RENAME could move a mailbox onto another.
ghost use Rattle.std.specs.Prelude.{◌≡◌, ◌≢◌, ℕ, ◌+◌, ◌<◌, ◌≤◌, ◌==◌, true, not, ◌&&◌, List, map, take, length, IsTrue, Some};
ghost use Rattle.std.specs.List.{AllByRecursion, list_any};
ghost use Rattle.verb_core.specs.declared.conf.House.{House};
ghost use Rattle.verb_core.specs.declared.item.Item.{Item};
ghost use Rattle.verb_core.specs.declared.mailbox.Body.{Body};
ghost use Rattle.verb_core.specs.declared.mailbox.BoxId.{BoxId};
ghost use Rattle.verb_core.specs.declared.mailbox.Mailbox.{Mailbox};
ghost use Rattle.verb_core.specs.Boxes.{has_row, row_at};
ghost use Rattle.verb_core.specs.Items.{IsTimeline, NumbersApart, text_of};
ghost use Rattle.verb_core.specs.Step.{step};
ghost use Rattle.verb_core.specs.Store.{IsValid, MailStore};
ghost use Rattle.verb_bytes.specs.declared.journal.CycleAsk.{CycleAsk};
ghost use Rattle.repair_desk.specs.Renewals.{extends, extends_one, renewed, stamp_after};
ghost use Rattle.repair_desk.specs.Repairs.{are_known, dropped, is_among, is_dropped, new_timeline, numbers_of, position, replaced, takes_text};

/// A repaired timeline is one: its items are well formed and their numbers distinct. That is so where the acts that come in name
/// known users and the cycle's number is above those of the timeline. The numbers are at most that of the last act, and the revs
/// at most the cycle's number.
pub fn repaired_timelines_are_timelines()
    ensures timeline { (house : House) (t : List Item) (ask : CycleAsk) (c at place : ℕ) → IsTimeline house t →
        AllByRecursion (λ (i : Item). i.number < c) t → IsTrue (are_known house ask.inserts) → IsTimeline house (new_timeline t ask c at place) }
    ensures below { (t : List Item) (ask : CycleAsk) (c at place : ℕ) → AllByRecursion (λ (i : Item). i.number < c) t →
        AllByRecursion (λ (i : Item). i.number ≤ c + length ask.inserts) (new_timeline t ask c at place) }
    ensures revs { (t : List Item) (ask : CycleAsk) (c at place : ℕ) → AllByRecursion (λ (i : Item). i.rev < c) t →
        AllByRecursion (λ (i : Item). i.rev ≤ c) (new_timeline t ask c at place) }
{}

/// A point is a place of the timeline, and the items through it stay as they are.
pub fn repairs_keep_the_front()
    ensures within { (t : List Item) (point place : ℕ) → position t point ≡ Some place → place ≤ length t }
    ensures front { (t : List Item) (ask : CycleAsk) (c at place : ℕ) → place ≤ length t → take place (new_timeline t ask c at place) ≡ take place t }
{}

/// A number to be dropped did nothing exactly where no later item has it. One that was to get another text did nothing
/// exactly where no later item that has it stays and has a text that can be replaced.
pub fn unmatched_numbers_did_nothing()
    ensures drops { (ask : CycleAsk) (later : List Item) (n : ℕ) → is_among ask.drops n ≡ true →
        is_among (numbers_of (dropped ask later)) n ≡ is_among (numbers_of later) n }
    ensures replaces { (ask : CycleAsk) (later : List Item) (n : ℕ) → is_among (map (λ (r : ℕ × List ℕ). r.0) ask.replaces) n ≡ true →
        is_among (numbers_of (replaced ask later)) n ≡ list_any (λ (i : Item). (n == i.number) && (not (is_dropped ask i) && takes_text i.deed)) later }
{}

/// A body that has a text in a repaired timeline had it before, unless it is a replacement of the cycle or an act of the cycle
/// brought it. So a body that had a text has that one or none, where the cycle's number is above those of the timeline and
/// above its revs.
pub fn bodies_keep_their_texts()
    ensures back { (t : List Item) (ask : CycleAsk) (c at place : ℕ) (body : Body) (text : List ℕ) → NumbersApart t → body.origin ≤ c → body.rev ≢ c →
        text_of (new_timeline t ask c at place) body ≡ Some text → text_of t body ≡ Some text }
    ensures same { (t : List Item) (ask : CycleAsk) (c at place : ℕ) (body : Body) (x y : List ℕ) → NumbersApart t →
        AllByRecursion (λ (i : Item). (i.number < c) × (i.rev < c)) t → text_of t body ≡ Some x → text_of (new_timeline t ask c at place) body ≡ Some y → x ≡ y }
{}

/// The stamps after a cycle name the mailboxes after it, and each has the stamp that its mailbox is due (RFC 3501, section
/// 2.3.1.1). A mailbox whose stamp is not the cycle's number was there and is extended. No stamp is above the cycle's number.
pub fn renewed_stamps_name_mailboxes()
    ensures named { (before after : List (BoxId × Mailbox)) (stamps : List (BoxId × ℕ)) (c : ℕ) →
        map (λ (r : BoxId × ℕ). r.0) (renewed before after stamps c) ≡ map (λ (r : BoxId × Mailbox). r.0) after }
    ensures each { (before after : List (BoxId × Mailbox)) (stamps : List (BoxId × ℕ)) (c : ℕ) (id : BoxId) (m : Mailbox) → row_at id after ≡ Some m →
        row_at id (renewed before after stamps c) ≡ Some (stamp_after before stamps c (id, m)) }
    ensures kept { (before after : List (BoxId × Mailbox)) (stamps : List (BoxId × ℕ)) (c : ℕ) (id : BoxId) (m : Mailbox) (stamp : ℕ) → row_at id after ≡ Some m →
        row_at id (renewed before after stamps c) ≡ Some stamp → stamp ≢ c → extends_one (row_at id before) m ≡ true }
    ensures below { (before after : List (BoxId × Mailbox)) (stamps : List (BoxId × ℕ)) (c : ℕ) → AllByRecursion (λ (r : BoxId × ℕ). r.1 < c) stamps →
        AllByRecursion (λ (r : BoxId × ℕ). r.1 ≤ c) (renewed before after stamps c) }
{}

/// A mailbox extends itself, and what extends an extended one extends the first.
pub fn extending_goes_on()
    ensures itself { (m : Mailbox) → extends m m ≡ true }
    ensures transitive { (a b c : Mailbox) → extends a b ≡ true → extends b c ≡ true → extends a c ≡ true }
{}

/// A mailbox that was there before an item and is there after it is extended.
pub fn items_extend_mailboxes()
    ensures { (s : MailStore) (i : Item) (id : BoxId) (m : Mailbox) → IsValid s → row_at id (step s i).0.boxes ≡ Some m → has_row id s.boxes ≡ true →
        extends_one (row_at id s.boxes) m ≡ true }
{}
