//! Laws on views, which a caller uses by calling.
ghost use Rattle.std.specs.Prelude.{◌≡◌, ℕ, List, Option, true, false, ◌++◌, flat_map, length, nat_lt};
ghost use Rattle.imap_text.specs.Answers.{expunge_lines};
ghost use Rattle.verb_core.specs.declared.mailbox.Body.{Body as TheBody};
ghost use Rattle.verb_core.specs.declared.mailbox.Entry.{Entry as TheEntry};
ghost use Rattle.verb_core.specs.Live.{lacks};
ghost use Rattle.imap_view.specs.declared.messages.Known.{Known as TheKnown};
ghost use Rattle.imap_view.specs.Views.{has_more, is_by_uid, is_in_order, lost_in, view_of};
ghost use Rattle.imap_view.specs.Named.{keys_at, rows_at};
ghost use Rattle.imap_view.specs.Following.{comes_behind, expunge_line, keeps_uids, new_in, told_numbers, without_numbers};

/// A client can follow a view by what it is told, where all that is new came behind what the view knows. The lines are those of
/// these numbers. The messages with these numbers gone, one by one, and the new ones behind them, are the new view, whose length
/// EXISTS tells. Where no EXISTS is told, what is left is the new view.
pub fn a_client_follows()
    ensures lines { (ns : List ℕ) → expunge_lines ns ≡ flat_map expunge_line (told_numbers 0 ns) }
    ensures front { (entries : List TheEntry) → (view : List TheKnown) → is_by_uid entries ≡ true → is_in_order view ≡ true → comes_behind entries view ≡ true
        → without_numbers view (told_numbers 0 (lost_in entries view)) ++ view_of (new_in entries view) ≡ view_of entries }
    ensures whole { (entries : List TheEntry) → (view : List TheKnown) → is_by_uid entries ≡ true → is_in_order view ≡ true → has_more entries view ≡ false
        → comes_behind entries view ≡ true → without_numbers view (told_numbers 0 (lost_in entries view)) ≡ view_of entries }
    ensures length { (entries : List TheEntry) → length (view_of entries) ≡ length entries }
{}

/// A view finds its messages by UID and key, and the store by key alone. Where no message has another UID in the mailbox than in
/// the view, fewer are found than are named exactly where the store lacks one. So a FETCH that reads no texts is refused.
pub fn missing_is_gone()
    ensures { (sizes : TheBody → Option ℕ) → (entries : List TheEntry) → (view : List TheKnown) → (places : List ℕ) → keeps_uids entries view ≡ true
        → nat_lt (length (rows_at sizes entries view places)) (length (keys_at view places)) ≡ lacks entries (keys_at view places) }
{}
