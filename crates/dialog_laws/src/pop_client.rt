//! What a POP3 client's dialog asks. These functions do nothing: their contracts are laws of the definitions.
ghost use Rattle.std.specs.Prelude.{◌≡◌, ℕ, ◌≤◌, Bool, IsTrue, List, Ok, Option, Result};
ghost use Rattle.std.specs.List.{AllByRecursion, Contains};
ghost use Rattle.undo_base.specs.declared.keys.User.{User as TheUser};
ghost use Rattle.undo_base.specs.declared.limits.TheConstants.{LAST_MOMENT};
ghost use Rattle.seal_log.specs.declared.fault.ReadFault.{ReadFault};
ghost use Rattle.smtp_lines.specs.declared.line.SmtpLine.{SmtpLine as TheLine};
ghost use Rattle.verb_core.specs.declared.ask.SubmitFault.{SubmitFault};
ghost use Rattle.verb_core.specs.declared.conf.House.{House};
ghost use Rattle.verb_core.specs.declared.item.Item.{Item};
ghost use Rattle.verb_core.specs.declared.mailbox.Body.{Body};
ghost use Rattle.verb_core.specs.declared.mailbox.BoxId.{BoxId};
ghost use Rattle.verb_core.specs.Live.{live};
ghost use Rattle.verb_core.specs.Store.{IsValid, MailStore, is_house};
ghost use Rattle.pop_session.specs.declared.dialog.Dialog.{Dialog as TheFetcher};
ghost use Rattle.pop_session.specs.Dialog.{heard, opening, settle, turn, user_of};
ghost use Rattle.verb_bytes.specs.declared.journal.JournalRecord.TheVariants.{Verb};
ghost use Rattle.verb_bytes.specs.Spelling.{HasSpelling};
ghost use Rattle.dialog_laws.specs.PopClient.{AsksRecordable, IsFetching, IsPlain, Taken, asked_in};
ghost use Rattle.dialog_laws.specs.ImapClient.{AskedBy};
ghost use Rattle.dialog_laws.specs.Ranges.{IsStored};

/// A dialog is of a user and of keys at first, and each turn keeps it so. What is asked then can be recorded.
pub fn pop_dialogs_have_keys()
    ensures opening { IsFetching opening }
    ensures turn { (house : House) (s : MailStore) (stamps : List (BoxId × ℕ)) (sizes : Body → Option ℕ) (in_use : List TheUser) (d : TheFetcher) (line : TheLine) → IsTrue (is_house house) → IsStored s →
        IsFetching d → IsFetching (turn house s stamps sizes in_use d line).dialog }
    ensures heard { (d : TheFetcher) (text : Result (List ℕ) ReadFault) → IsFetching d → IsFetching (heard d text).dialog }
    ensures settled { (d : TheFetcher) (outcome : Result Item SubmitFault) → IsFetching d → IsFetching (settle d outcome).dialog }
    ensures asks { (house : House) (s : MailStore) (stamps : List (BoxId × ℕ)) (sizes : Body → Option ℕ) (in_use : List TheUser) (d : TheFetcher) (line : TheLine) → IsTrue (is_house house) → IsStored s →
        IsFetching d → (let t = turn house s stamps sizes in_use d line in AsksRecordable (user_of t.dialog) t.out) }
    ensures asks_then { (d : TheFetcher) (text : Result (List ℕ) ReadFault) → IsFetching d → AsksRecordable (user_of (heard d text).dialog) (heard d text).out }
    ensures asks_further { (d : TheFetcher) (outcome : Result Item SubmitFault) → IsFetching d → AsksRecordable (user_of (settle d outcome).dialog) (settle d outcome).out }
{}

/// Whatever a POP3 client says and is answered, the store makes of each ask an item that has a spelling, if it does not refuse it.
pub fn pop_clients_ask_what_can_be_recorded()
    ensures { (house : House) (takes : List Taken) (asked : AskedBy) (s : MailStore) (number at : ℕ) (deep : Bool) (item : Item) → IsTrue (is_house house) → AllByRecursion IsPlain takes →
        Contains (asked_in house opening takes) asked → IsValid s → IsStored s → number ≤ 4294967295 → at ≤ LAST_MOMENT → live s number at asked.user asked.ask deep ≡ Ok item → HasSpelling (Verb item) }
{}
