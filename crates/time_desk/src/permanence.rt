//! What an IMAP client that keeps mail by UID may rely on, and what an operator who must account for every message. It is over all that a
//! journal's records leave, with any number of cycles, withdrawals and reopenings. These functions do nothing: their contracts are laws
//! of the definitions.
ghost use Rattle.std.specs.Prelude.{◌≡◌, ◌≢◌, ℕ, List, ◌∷◌, ◌++◌, false, true, Some, IsSome};
ghost use Rattle.std.specs.List.{list_any};
ghost use Rattle.undo_base.specs.declared.keys.Key.{Key};
ghost use Rattle.undo_base.specs.declared.keys.User.{User};
ghost use Rattle.verb_core.specs.declared.item.Deed.TheVariants.{Deliver};
ghost use Rattle.verb_core.specs.declared.item.Item.{Item};
ghost use Rattle.verb_core.specs.declared.mailbox.BoxId.{BoxId};
ghost use Rattle.verb_core.specs.Boxes.{same_user};
ghost use Rattle.verb_core.specs.Fates.{is_discarded, times_given};
ghost use Rattle.verb_core.specs.Recipients.{recipients, some_unknown};
ghost use Rattle.verb_core.specs.Step.{run};
ghost use Rattle.verb_core.specs.Store.{opening};
ghost use Rattle.verb_bytes.specs.declared.journal.JournalRecord.{JournalRecord};
ghost use Rattle.mail_cycle.specs.Permanence.{UidsLast, UidsStay};
ghost use Rattle.store_kept.specs.Coming.{HasUndoneTexts};
ghost use Rattle.store_kept.specs.Kept.{IsRun, Kept, stamp_at};
ghost use Rattle.desk_journal.specs.Permanence.{Arrives, IsAccounted, IsSound, Message, RevsBelow, message_at};
ghost use Rattle.desk_journal.specs.Records.{after_records, front, goes_on, is_withdrawal, state};

use mail_desk::laws::bodies_have_texts;

/// What a journal's records leave is sound, and each text has a rev below the next number. The texts of what the last cycle left
/// to be withdrawn can come back. The store is what the items in force leave, performed one after the other, from the base on: the
/// opening store, where no record is of a past that was cut off.
pub fn states_are_sound()
    ensures sound { (records : List JournalRecord) (kept : Kept) → state records ≡ Some kept → IsSound kept }
    ensures revs { (records : List JournalRecord) (kept : Kept) → state records ≡ Some kept → RevsBelow kept }
    ensures back { (records : List JournalRecord) (kept : Kept) → state records ≡ Some kept → HasUndoneTexts kept }
    ensures runs { (records : List JournalRecord) (kept : Kept) → state records ≡ Some kept → IsRun kept }
    ensures opening { (records : List JournalRecord) (kept : Kept) → state records ≡ Some kept → list_any goes_on records ≡ false → kept.base ≡ opening kept.house kept.opening }
{}

/// Whatever records come next, what is kept stays sound, its texts stay where they are known to, and what a client knows by UID
/// lasts. A text comes back by a withdrawal alone.
pub fn records_let_uids_last()
    ensures lasts { (old new : Kept) (more : List JournalRecord) → IsSound old → RevsBelow old → HasUndoneTexts old →
        after_records old more ≡ Some new → UidsLast old new }
    ensures stays { (old new : Kept) (more : List JournalRecord) → IsSound old → after_records old more ≡ Some new →
        list_any is_withdrawal more ≡ false → UidsStay old new }
    ensures sound { (old new : Kept) (more : List JournalRecord) → IsSound old → after_records old more ≡ Some new → IsSound new }
    ensures revs { (old new : Kept) (more : List JournalRecord) → IsSound old → RevsBelow old → HasUndoneTexts old →
        after_records old more ≡ Some new → RevsBelow new }
    ensures back { (old new : Kept) (more : List JournalRecord) → IsSound old → RevsBelow old → HasUndoneTexts old →
        after_records old more ≡ Some new → HasUndoneTexts new }
{}

/// A user, name, UIDVALIDITY and UID never name two messages or two contents (RFC 3501, section 2.3.1.1). They do not behind whatever
/// more records, verbs, acts, cycles and withdrawals, and not of two desks that let UIDs last. Each message that is named has a text.
/// A journal promises nothing before all is in it that it opens with: nobody serves it then.
pub fn uids_name_one_message()
    ensures records { (first more : List JournalRecord) (old new : Kept) (id : BoxId) (stamp uid : ℕ) (m n : Message) →
        state first ≡ Some old → state (first ++ more) ≡ Some new → front (first ++ more) ≡ front first →
        message_at old id stamp uid ≡ Some m → message_at new id stamp uid ≡ Some n → m ≡ n }
    ensures text { (records : List JournalRecord) (kept : Kept) (id : BoxId) (stamp uid : ℕ) (m : Message) →
        state records ≡ Some kept → message_at kept id stamp uid ≡ Some m → IsSome m.text }
    ensures kept { (old new : Kept) (id : BoxId) (stamp uid : ℕ) (m n : Message) → IsSound old → RevsBelow old → IsSound new → UidsLast old new →
        message_at old id stamp uid ≡ Some m → message_at new id stamp uid ≡ Some n → m ≡ n }
{
    bodies_have_texts();
}

/// A stamp that a mailbox lost is never its stamp again, once all is there that the journal opens with.
pub fn lost_stamps_stay_lost()
    ensures { (first mid more : List JournalRecord) (early middle late : Kept) (id : BoxId) (stamp : ℕ) →
        state first ≡ Some early → state (first ++ mid) ≡ Some middle → state (first ++ mid ++ more) ≡ Some late →
        front (first ++ mid) ≡ front first → front (first ++ mid ++ more) ≡ front first →
        stamp_at early id ≡ Some stamp → stamp_at middle id ≢ Some stamp → stamp_at late id ≢ Some stamp }
{}

/// Each message that an item of the timeline gave to a user has exactly one fate. In the store that is kept it lies in one
/// mailbox of that user under one UID, or one later item took it out, an EXPUNGE, CLOSE, DELETE or Remove.
pub fn each_message_has_one_fate()
    ensures { (records : List JournalRecord) (kept : Kept) (before later : List Item) (i : Item) (u : User) (key : Key) →
        state records ≡ Some kept → kept.timeline ≡ before ++ i ∷ later →
        times_given u key (run kept.base before) i ≢ 0 → IsAccounted kept before i later u key }
{}

/// The store that a journal's records leave is of its house, and so is each store that its items led through.
pub fn houses_stay()
    ensures kept { (records : List JournalRecord) (kept : Kept) → state records ≡ Some kept → kept.store.house ≡ kept.house }
    ensures led { (records : List JournalRecord) (kept : Kept) (items : List Item) → state records ≡ Some kept → (run kept.base items).house ≡ kept.house }
{}

/// A delivery of the timeline gives its message to each user whom one of its local parts means, and one more to the postmaster
/// where a local part means nobody. Or the filter that decided discarded it. Each of these has exactly one fate.
pub fn deliveries_arrive()
    ensures recipients { (records : List JournalRecord) (kept : Kept) (before later : List Item) (i : Item) (from : List ℕ) (to : List (List ℕ)) (text : List ℕ) (u : User) →
        state records ≡ Some kept → kept.timeline ≡ before ++ i ∷ later → i.deed ≡ Deliver from to text →
        list_any (same_user u) (recipients kept.house (run kept.base before).conf to) ≡ true →
        is_discarded (run kept.base before).conf from to text ≡ false →
        Arrives kept before i later u (record { item = i.number; index = 0 }) }
    ensures unknown { (records : List JournalRecord) (kept : Kept) (before later : List Item) (i : Item) (from : List ℕ) (to : List (List ℕ)) (text : List ℕ) →
        state records ≡ Some kept → kept.timeline ≡ before ++ i ∷ later → i.deed ≡ Deliver from to text →
        some_unknown kept.house (run kept.base before).conf to ≡ true →
        is_discarded (run kept.base before).conf from to text ≡ false →
        Arrives kept before i later kept.house.postmaster (record { item = i.number; index = 1 }) }
{}
