//! What holds of each item performed on a store. These functions do nothing: their contracts are laws of `perform`, which
//! is `step`.
ghost use Rattle.std.specs.Prelude.{◌≡◌, ◌≢◌, ℕ, ◌+◌, Bool, true, false, List, length};
ghost use Rattle.undo_base.specs.declared.keys.User.{User};
ghost use Rattle.undo_base.specs.declared.keys.Key.{Key};
ghost use Rattle.verb_core.specs.declared.ask.Ask.{Ask};
ghost use Rattle.verb_core.specs.declared.mailbox.Entry.{Entry};
ghost use Rattle.verb_core.specs.Boxes.{rows_of, same_user};
ghost use Rattle.verb_core.specs.Store.{IsValid};
ghost use Rattle.verb_core.specs.Items.{IsWellFormed, is_own, actor};
ghost use Rattle.verb_core.specs.Step.{step};
ghost use Rattle.verb_core.specs.Live.{asker, is_users, live};
ghost use Rattle.verb_core.specs.Fates.{IgnoresUid, IgnoresFlags, sets_flags, count_held, count_given, count_taken, times_held, times_given, times_taken, AllOnce, IsFresh, places_of};

use crate::Store;
use verb_core::Item;
use verb_core::laws::{mail_is_kept, messages_have_one_fate, steps_keep_validity, users_are_apart};

impl Store {
    /// An item performed on a valid store leaves a valid store.
    pub fn stays_valid(&self, item: &Item)
        requires valid { IsValid self.now.store }
        requires formed { IsWellFormed self.now.store.house item.now }
        ensures { IsValid (step self.now.store item.now).0 }
    {
        steps_keep_validity();
        let _item = item;
    }

    /// A user's own item changes no other user's mailboxes. Two stores that agree on that user's mailboxes give it the
    /// same answer and the same new mailboxes, and to what that user asks the same refusal.
    pub fn keeps_users_apart(&self, other: &Store, item: &Item)
        requires valid { IsValid self.now.store }
        requires also { IsValid other.now.store }
        requires own { is_own item.now.deed ≡ true }
        ensures others { (v : User) → same_user v (actor item.now.by item.now.deed) ≡ false →
            rows_of v (step self.now.store item.now).0.boxes ≡ rows_of v self.now.store.boxes }
        ensures answer { rows_of (actor item.now.by item.now.deed) self.now.store.boxes ≡ rows_of (actor item.now.by item.now.deed) other.now.store.boxes →
            (step self.now.store item.now).1 ≡ (step other.now.store item.now).1 }
        ensures mailboxes { rows_of (actor item.now.by item.now.deed) self.now.store.boxes ≡ rows_of (actor item.now.by item.now.deed) other.now.store.boxes →
            rows_of (actor item.now.by item.now.deed) (step self.now.store item.now).0.boxes ≡ rows_of (actor item.now.by item.now.deed) (step other.now.store item.now).0.boxes }
        ensures asks { (number at : ℕ) (ask : Ask) (deep : Bool) → is_users ask ≡ true →
            rows_of (asker item.now.by) self.now.store.boxes ≡ rows_of (asker item.now.by) other.now.store.boxes →
            live self.now.store number at item.now.by ask deep ≡ live other.now.store number at item.now.by ask deep }
    {
        users_are_apart();
        let _other = other;
        let _item = item;
    }

    /// Of the entries of a user's mailboxes, by whatever test of their keys, flags, moments and bodies. Those that lay there and
    /// those that the item gives are those that lie there afterwards and those that it took out.
    pub fn keeps_mail(&self, item: &Item)
        requires valid { IsValid self.now.store }
        requires formed { IsWellFormed self.now.store.house item.now }
        ensures { (u : User) (test : Entry → Bool) → IgnoresUid test → (sets_flags item.now.deed ≡ true → IgnoresFlags test) →
            count_held u test (step self.now.store item.now).0.boxes + count_taken u test self.now.store item.now ≡ count_held u test self.now.store.boxes + count_given u test self.now.store item.now }
    {
        mail_is_kept();
        let _item = item;
    }

    /// No message comes twice to a user. Each that lay with a user, or that the item gives, lies afterwards in one mailbox of
    /// that user under one UID, or the item took it out.
    pub fn gives_one_fate(&self, item: &Item)
        requires valid { IsValid self.now.store }
        requires formed { IsWellFormed self.now.store.house item.now }
        requires fresh { IsFresh item.now.number self.now.store }
        requires once { AllOnce self.now.store }
        ensures single { AllOnce (step self.now.store item.now).0 }
        ensures fate { (u : User) (key : Key) → times_held u key self.now.store.boxes + times_given u key self.now.store item.now ≢ 0 →
            length (places_of u key (step self.now.store item.now).0.boxes) + times_taken u key self.now.store item.now ≡ 1 }
    {
        messages_have_one_fate();
        let _item = item;
    }
}
