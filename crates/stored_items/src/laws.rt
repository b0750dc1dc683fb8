//! What an item has and does without its text, or as it was read. These functions do nothing: their contracts are laws of the
//! definitions.
ghost use Rattle.std.specs.Prelude.{◌≡◌, ℕ, ◌<◌, ◌≤◌, false, List, [], ◌∷◌, ◌++◌, map, length, Option, is_some, unwrap_or};
ghost use Rattle.std.specs.List.{AllByRecursion};
ghost use Rattle.undo_base.specs.declared.keys.User.{User};
ghost use Rattle.verb_core.specs.declared.conf.House.{House};
ghost use Rattle.verb_core.specs.declared.item.Deed.{Deed};
ghost use Rattle.verb_core.specs.declared.item.Item.{Item};
ghost use Rattle.verb_core.specs.declared.item.Shown.{Shown};
ghost use Rattle.verb_core.specs.Aims.{Sought, sought as sought_in};
ghost use Rattle.verb_core.specs.Deeds.{deed_word, is_notice, mailbox_in};
ghost use Rattle.verb_core.specs.Items.{IsTimeline, IsWellFormed, NumbersApart, actor, has_form, is_own, keys_in, text_in, users_in};
ghost use Rattle.verb_core.specs.Step.{step, step_with};
ghost use Rattle.verb_core.specs.Store.{MailStore};
ghost use Rattle.stored_items.specs.Stored.{AllHeard, IsHeard, looks_at_text, needs_text, step_text, stored, stored_deed, whole};

/// A deed that is kept without its text has everything else.
pub fn stored_deeds_are_alike()
    ensures notice { (d : Deed) → is_notice (stored_deed d) ≡ is_notice d }
    ensures brings { (d : Deed) → is_some (text_in (stored_deed d)) ≡ is_some (text_in d) }
    ensures keys { (d : Deed) → keys_in (stored_deed d) ≡ keys_in d }
    ensures users { (d : Deed) → users_in (stored_deed d) ≡ users_in d }
    ensures own { (d : Deed) → is_own (stored_deed d) ≡ is_own d }
    ensures form { (shown : Shown) (d : Deed) → has_form (stored_deed d) shown ≡ has_form d shown }
    ensures acting { (by : Option User) (d : Deed) → actor by (stored_deed d) ≡ actor by d }
    ensures mailbox { (d : Deed) → mailbox_in (stored_deed d) ≡ mailbox_in d }
    ensures word { (d : Deed) → deed_word (stored_deed d) ≡ deed_word d }
    ensures needs { (d : Deed) → needs_text (stored_deed d) ≡ needs_text d }
{}

/// An item is well-formed exactly where it is so without its text.
pub fn stored_items_are_formed()
    ensures kept { (house : House) (i : Item) → IsWellFormed house i → IsWellFormed house (stored i) }
    ensures whole { (house : House) (i : Item) → IsWellFormed house (stored i) → IsWellFormed house i }
{}

/// An item that is kept without its text does what it does, with its text beside it. Only a delivery wants it.
pub fn stored_items_do_alike()
    ensures sought { (s : MailStore) (text : List ℕ) (by : Option User) (d : Deed) → sought_in s text by (stored_deed d) ≡ sought_in s text by d }
    ensures aimed { (to : Sought) (s : MailStore) (i : Item) → step_with to s (stored i) ≡ step_with to s i }
    ensures without { (s : MailStore) (i : Item) (text : List ℕ) → step_text s (stored i) text ≡ step_text s i text }
    ensures with_own { (s : MailStore) (i : Item) (text : List ℕ) → text ≡ unwrap_or (text_in i.deed) [] → step_text s i text ≡ step s i }
    ensures with_any { (s : MailStore) (i : Item) (text : List ℕ) → needs_text i.deed ≡ false → step_text s i text ≡ step s i }
    ensures as_heard { (s : MailStore) (i h : Item) → IsHeard i h → step s h ≡ step_text s i (unwrap_or (text_in h.deed) []) }
{}

/// Where no filter is in force an item does what it does, whatever text is looked at, and whatever its own is.
pub fn texts_are_not_looked_at()
    ensures sought { (s : MailStore) (one other : List ℕ) (by : Option User) (d : Deed) → looks_at_text s d ≡ false
        → sought_in s one by d ≡ sought_in s other by d }
    ensures does { (s : MailStore) (i : Item) (text : List ℕ) → looks_at_text s i.deed ≡ false → step_text s i text ≡ step s i }
    ensures with_any { (s : MailStore) (i : Item) (own text : List ℕ) → looks_at_text s i.deed ≡ false
        → step_text s i text ≡ step s (whole i own) }
    ensures heard { (s : MailStore) (i h : Item) → looks_at_text s i.deed ≡ false → IsHeard i h → step s h ≡ step s i }
{}

/// Items as they were read are as many, with the same numbers, and form a timeline where those do that were stored.
pub fn heard_items_are_alike()
    ensures themselves { (items : List Item) → AllHeard items items }
    ensures longer { (items heard : List Item) (i h : Item) → AllHeard items heard → IsHeard i h → AllHeard (items ++ i ∷ []) (heard ++ h ∷ []) }
    ensures joined { (one one_heard other other_heard : List Item) → AllHeard one one_heard → AllHeard other other_heard → AllHeard (one ++ other) (one_heard ++ other_heard) }
    ensures same { (f : Item → ℕ) → ((i : Item) → f (stored i) ≡ f i) → (items heard : List Item) → AllHeard items heard → map f heard ≡ map f items }
    ensures as_many { (items heard : List Item) → AllHeard items heard → length heard ≡ length items }
    ensures apart { (items heard : List Item) → AllHeard items heard → NumbersApart items → NumbersApart heard }
    ensures timeline { (house : House) (items heard : List Item) → AllHeard items heard → IsTimeline house items → IsTimeline house heard }
    ensures formed { (house : House) (items heard : List Item) → AllHeard items heard → AllByRecursion (IsWellFormed house) items → AllByRecursion (IsWellFormed house) heard }
    ensures below { (f : Item → ℕ) → ((i : Item) → f (stored i) ≡ f i) → (c : ℕ) (items heard : List Item) → AllHeard items heard →
        AllByRecursion (λ (i : Item). f i < c) items → AllByRecursion (λ (i : Item). f i < c) heard }
    ensures up_to { (f : Item → ℕ) → ((i : Item) → f (stored i) ≡ f i) → (c : ℕ) (items heard : List Item) → AllHeard items heard →
        AllByRecursion (λ (i : Item). f i ≤ c) items → AllByRecursion (λ (i : Item). f i ≤ c) heard }
{}
