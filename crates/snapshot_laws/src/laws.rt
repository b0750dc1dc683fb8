//! These functions do nothing: their contracts are laws of the definitions.
ghost use Rattle.std.specs.Prelude.{◌≡◌, ◌⊎◌, ℕ, ◌+◌, ◌<◌, ◌≤◌, List, ◌∷◌, ◌++◌, false, length, None, Some, slice_get};
ghost use Rattle.std.specs.List.{AllByRecursion, Contains, list_any};
ghost use Rattle.std.specs.List.Sorted.{IsStrictlyIncreasing};
ghost use Rattle.verb_core.specs.declared.conf.Conf.{Conf};
ghost use Rattle.verb_core.specs.declared.mailbox.BoxId.{BoxId};
ghost use Rattle.verb_core.specs.declared.mailbox.Mailbox.{Mailbox};
ghost use Rattle.verb_bytes.specs.declared.journal.JournalRecord.{JournalRecord};
ghost use Rattle.verb_bytes.specs.declared.journal.JournalRecord.TheVariants.{Snapshot};
ghost use Rattle.seal_log.specs.declared.place.Place.{Place};
ghost use Rattle.shelf.specs.Marks.{MarksRise, marks_at_or_before, newest};
ghost use Rattle.store_kept.specs.Kept.{Kept, newest_at};
ghost use Rattle.desk_journal.specs.Records.{goes_on, state};
ghost use Rattle.snapshot_laws.specs.Usable.{IsUsable, rewinds_in, snapshots_in};

/// Of places that rise, `newest_at` is the last that is not behind the given one, or 0.
pub fn newest_at_is_the_last_at_or_before()
    ensures one { (place : ℕ) (places : List ℕ) → (newest_at place places ≡ 0) ⊎ Contains places (newest_at place places) }
    ensures before { (place : ℕ) (places : List ℕ) → newest_at place places ≤ place }
    ensures last { (place : ℕ) (places : List ℕ) → IsStrictlyIncreasing places → (n : ℕ) → Contains places n → n ≤ place → n ≤ newest_at place places }
{}

/// Marks rise, as a shelf tells that its own do. Then the newest of those that are not behind a position is one of the marks, and the
/// greatest that is not behind it. Where there is none, each is behind it.
pub fn newest_mark_is_the_greatest()
    ensures one { (position : ℕ) (marks : List (ℕ × Place)) (m : ℕ × Place) → newest (marks_at_or_before position marks) ≡ Some m → (k : ℕ) × (slice_get marks k ≡ Some m) }
    ensures before { (position : ℕ) (marks : List (ℕ × Place)) (m : ℕ × Place) → newest (marks_at_or_before position marks) ≡ Some m → m.0 ≤ position }
    ensures greatest { (position : ℕ) (marks : List (ℕ × Place)) (m : ℕ × Place) → MarksRise marks → newest (marks_at_or_before position marks) ≡ Some m →
        AllByRecursion (λ (n : ℕ × Place). n.0 ≤ position → n.0 ≤ m.0) marks }
    ensures none { (position : ℕ) (marks : List (ℕ × Place)) → newest (marks_at_or_before position marks) ≡ None → AllByRecursion (λ (n : ℕ × Place). position < n.0) marks }
{}

/// The places of the snapshots that a journal's records leave rise, and none is behind the timeline's end.
pub fn places_rise()
    ensures rise { (records : List JournalRecord) (kept : Kept) → state records ≡ Some kept → IsStrictlyIncreasing kept.marks.places }
    ensures within { (records : List JournalRecord) (kept : Kept) → state records ≡ Some kept → (n : ℕ) → Contains kept.marks.places n → n ≤ length kept.timeline }
{}

/// They are the places of the usable snapshots among the records, all of these and no others.
pub fn places_are_the_usable_snapshots()
    ensures usable { (records : List JournalRecord) (kept : Kept) → state records ≡ Some kept → (n : ℕ) → Contains kept.marks.places n → IsUsable records n }
    ensures there { (records : List JournalRecord) (kept : Kept) → state records ≡ Some kept → (n : ℕ) → IsUsable records n → Contains kept.marks.places n }
{}

/// A cycle at a place, or a withdrawal of one there, begins from the last usable snapshot that is not behind it, or from the base: `newest_at` tells
/// behind how many items.
pub fn cycles_begin_from_the_last_usable_snapshot()
    ensures usable { (records : List JournalRecord) (kept : Kept) (place : ℕ) → state records ≡ Some kept →
        (newest_at place kept.marks.places ≡ 0) ⊎ IsUsable records (newest_at place kept.marks.places) }
    ensures before { (records : List JournalRecord) (kept : Kept) (place : ℕ) → state records ≡ Some kept → newest_at place kept.marks.places ≤ place }
    ensures last { (records : List JournalRecord) (kept : Kept) (place : ℕ) → state records ≡ Some kept →
        (n : ℕ) → IsUsable records n → n ≤ place → n ≤ newest_at place kept.marks.places }
{}

/// The snapshots that are counted are the Snapshot records. Items are counted as having entered since the last of these, or since
/// the beginning. They are as many as the numbers that were given since, but for those of the cycles and of the withdrawals. At
/// the beginning the next number is the house's first, or that of the base where a past was cut off.
pub fn counts_are_the_records()
    ensures taken { (records : List JournalRecord) (kept : Kept) → state records ≡ Some kept → kept.marks.taken ≡ snapshots_in records }
    ensures since { (before after : List JournalRecord) (items : ℕ) (conf : Conf) (rows : List (BoxId × Mailbox)) (then kept : Kept) → state before ≡ Some then →
        state (before ++ Snapshot items conf rows ∷ after) ≡ Some kept → snapshots_in after ≡ 0 → then.next + rewinds_in after + kept.marks.since ≡ kept.next }
    ensures first { (records : List JournalRecord) (kept : Kept) → state records ≡ Some kept → snapshots_in records ≡ 0 →
        kept.first + rewinds_in records + kept.marks.since ≡ kept.next }
    ensures house { (records : List JournalRecord) (kept : Kept) → state records ≡ Some kept → list_any goes_on records ≡ false → kept.first ≡ kept.house.first }
{}
