//! What an IMAP client's dialog asks. These functions do nothing: their contracts are laws of the definitions.
ghost use Rattle.std.specs.Prelude.{◌≡◌, ℕ, ◌≤◌, Bool, IsTrue, List, Ok, Option, Result};
ghost use Rattle.std.specs.List.{AllByRecursion, Contains};
ghost use Rattle.undo_base.specs.declared.limits.TheConstants.{LAST_MOMENT};
ghost use Rattle.seal_log.specs.declared.fault.ReadFault.{ReadFault};
ghost use Rattle.imap_stream.specs.declared.next.Next.TheVariants.{Command as Said};
ghost use Rattle.imap_stream.specs.declared.next.RawCommand.{RawCommand};
ghost use Rattle.imap_stream.specs.Commands.{said_of};
ghost use Rattle.imap_lines.specs.declared.command.ImapCommand.{ImapCommand as TheCommand};
ghost use Rattle.imap_lines.specs.declared.command.ImapWhat.{ImapWhat as TheWhat};
ghost use Rattle.imap_lines.specs.Command.{command_of};
ghost use Rattle.verb_core.specs.declared.ask.SubmitFault.{SubmitFault};
ghost use Rattle.verb_core.specs.declared.conf.House.{House};
ghost use Rattle.verb_core.specs.declared.item.Item.{Item};
ghost use Rattle.verb_core.specs.declared.mailbox.Body.{Body};
ghost use Rattle.verb_core.specs.declared.mailbox.BoxId.{BoxId};
ghost use Rattle.verb_core.specs.Live.{live};
ghost use Rattle.verb_core.specs.Store.{IsValid, MailStore, is_house};
ghost use Rattle.imap_session.specs.declared.dialog.Dialog.{Dialog as TheDialog};
ghost use Rattle.imap_session.specs.Dialog.{heard, opening, settle, turn, without_memory};
ghost use Rattle.verb_bytes.specs.declared.journal.JournalRecord.TheVariants.{Verb};
ghost use Rattle.verb_bytes.specs.Spelling.{HasSpelling};
ghost use Rattle.dialog_laws.specs.Ranges.{IsStored};
ghost use Rattle.dialog_laws.specs.ImapClient.{AskedBy, AsksRecordable, IsPlain, IsReading, IsShort, IsSpoken, Taken, asked_in};

use imap_stream::one_reading;

/// A command of a stream is short, and what a short command asks is in its ranges.
pub fn commands_are_in_range()
    ensures short { (stream : List ℕ) (raw : RawCommand) → Contains (said_of stream) (Said raw) → IsShort raw }
    ensures spoken { (raw : RawCommand) (command : TheCommand) → IsShort raw → command_of raw ≡ Ok command → IsSpoken command.what }
{
    one_reading();
}

/// A dialog is of a user, of names and of keys at first, and each turn keeps it so. What is asked then can be recorded.
pub fn imap_dialogs_have_names()
    ensures opening { IsReading opening }
    ensures turn { (house : House) (s : MailStore) (sizes : Body → Option ℕ) (deep : Bool) (d : TheDialog) (command : TheCommand) → IsTrue (is_house house) → IsStored s → IsSpoken command.what →
        IsReading d → IsReading (turn house s sizes deep d command).dialog }
    ensures unserved { (asked : TheWhat) (d : TheDialog) → IsReading d → IsReading (without_memory asked d) }
    ensures heard { (d : TheDialog) (texts : Result (List (List ℕ)) ReadFault) → IsReading d → IsReading (heard d texts).dialog }
    ensures settled { (s : MailStore) (stamps : List (BoxId × ℕ)) (d : TheDialog) (outcome : Result Item SubmitFault) → IsStored s → IsReading d → IsReading (settle s stamps d outcome).dialog }
    ensures asks { (house : House) (s : MailStore) (sizes : Body → Option ℕ) (deep : Bool) (d : TheDialog) (command : TheCommand) → IsTrue (is_house house) → IsStored s → IsSpoken command.what →
        IsReading d → AsksRecordable (turn house s sizes deep d command).dialog.user (turn house s sizes deep d command).out }
    ensures asks_then { (d : TheDialog) (texts : Result (List (List ℕ)) ReadFault) → IsReading d → AsksRecordable (heard d texts).dialog.user (heard d texts).out }
{}

/// Whatever an IMAP client says and is answered, the store makes of each ask an item that has a spelling, if it does not refuse it.
pub fn imap_clients_ask_what_can_be_recorded()
    ensures { (house : House) (takes : List Taken) (asked : AskedBy) (s : MailStore) (number at : ℕ) (deep : Bool) (item : Item) → IsTrue (is_house house) → AllByRecursion IsPlain takes →
        Contains (asked_in house opening takes) asked → IsValid s → IsStored s → number ≤ 4294967295 → at ≤ LAST_MOMENT → live s number at asked.user asked.ask deep ≡ Ok item → HasSpelling (Verb item) }
{}
