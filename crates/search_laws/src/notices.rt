//! These functions do nothing: their contracts are laws of the definitions.
ghost use Rattle.std.specs.Prelude.{◌≡◌, ◌↔◌, ℕ, Bool, List, false, true, None, Option, Ok};
ghost use Rattle.undo_base.specs.declared.keys.User.{User};
ghost use Rattle.verb_core.specs.declared.item.Item.{Item};
ghost use Rattle.verb_core.specs.declared.item.Shown.TheVariants.{Seen};
ghost use Rattle.verb_core.specs.declared.item.Sight.{Sight};
ghost use Rattle.verb_core.specs.Live.{live};
ghost use Rattle.verb_core.specs.Step.{run};
ghost use Rattle.verb_core.specs.Store.{MailStore};
ghost use Rattle.verb_bytes.specs.declared.journal.CycleAsk.{CycleAsk};
ghost use Rattle.store_kept.specs.Kept.{Kept};
ghost use Rattle.repair_desk.specs.Repairs.{is_dropped};
ghost use Rattle.mail_cycle.specs.Places.{items_before, reason_at};
ghost use Rattle.imap_session.specs.Searching.{search_ask};
ghost use Rattle.imap_session.specs.declared.dialog.Searching.{Searching};
ghost use Rattle.search_laws.specs.Notices.{all_stay, search_deed, sights_in};

/// A SEARCH is kept as a FETCH of the messages that it found, and has shown those of them that were there. Where it stands behind a
/// cycle's point, there is a reason to tell of it exactly where it is dropped, or where one of the messages that it has shown has
/// changed. That is, it is not in its mailbox at its place of the new timeline, or has another text there and the SEARCH looked at
/// texts or at sizes.
pub fn searches_are_told_of_by_what_they_showed()
    ensures kept { (s : MailStore) (number at : ℕ) (by : Option User) (q : Searching) (texts : List (List ℕ)) (deep : Bool) (item : Item) → live s number at by (search_ask q texts) deep ≡ Ok item →
        (item.by ≡ by) × (item.deed ≡ search_deed q texts) × (item.shown ≡ Seen (sights_in s by q texts)) }
    ensures told { (q : Searching) (texts : List (List ℕ)) (item : Item) (shown : List Sight) (s : Kept) (at : ℕ) (ask : CycleAsk) (place : ℕ) (earlier : List Item) →
        item.deed ≡ search_deed q texts → item.shown ≡ Seen shown →
        (reason_at s at ask place earlier item ≡ None)
        ↔ ((is_dropped ask item ≡ false) × (all_stay q shown (sights_in (run s.base (items_before s at ask place earlier)) item.by q texts) ≡ true)) }
{}
