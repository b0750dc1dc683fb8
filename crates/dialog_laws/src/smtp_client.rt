//! What an SMTP client's dialog asks. These functions do nothing but name a law: their contracts are laws of the definitions.
ghost use Rattle.std.specs.Prelude.{◌≡◌, ℕ, ◌≤◌, List, Result};
ghost use Rattle.std.specs.List.{AllByRecursion, Contains};
ghost use Rattle.undo_base.specs.declared.limits.TheConstants.{LAST_MOMENT};
ghost use Rattle.undo_base.specs.Name.{IsName};
ghost use Rattle.smtp_lines.specs.declared.line.SmtpLine.{SmtpLine};
ghost use Rattle.verb_core.specs.declared.ask.Ask.TheVariants.{Deliver};
ghost use Rattle.verb_core.specs.declared.ask.SubmitFault.{SubmitFault};
ghost use Rattle.verb_core.specs.declared.conf.Conf.{Conf};
ghost use Rattle.verb_core.specs.declared.conf.House.{House};
ghost use Rattle.verb_core.specs.declared.item.Item.{Item};
ghost use Rattle.smtp_session.specs.declared.answer.SmtpOut.TheVariants.{Mail as Asks};
ghost use Rattle.smtp_session.specs.declared.dialog.Dialog.{Dialog as TheDialog};
ghost use Rattle.smtp_session.specs.Dialog.{opening, settle, turn};
ghost use Rattle.verb_bytes.specs.declared.journal.JournalRecord.TheVariants.{Verb};
ghost use Rattle.verb_bytes.specs.Limits.{IsMail, delivery};
ghost use Rattle.verb_bytes.specs.Spelling.{HasSpelling};
ghost use Rattle.dialog_laws.specs.SmtpClient.{IsDelivery, IsMailing, IsTimely, Taken, asked_in};

use smtp_lines::one_command;

/// A dialog has names for recipients and is within the limits at first, and each turn keeps it so. What a turn asks of such a dialog is the
/// delivery of mail that can be stored.
pub fn smtp_dialogs_have_names()
    ensures opening { IsMailing opening }
    ensures turn { (house : House) (conf : Conf) (at : ℕ) (d : TheDialog) (line : SmtpLine) → IsMailing d → IsMailing (turn house conf at d line).dialog }
    ensures settled { (d : TheDialog) (outcome : Result Item SubmitFault) → IsMailing d → IsMailing (settle d outcome).dialog }
    ensures mail { (house : House) (conf : Conf) (at : ℕ) (d : TheDialog) (line : SmtpLine) (from : List ℕ) (to : List (List ℕ)) (text : List ℕ) → IsName house.host → at ≤ LAST_MOMENT →
        IsMailing d → (turn house conf at d line).out ≡ Asks (Deliver from to text) → IsMail from to text }
{
    one_command();
}

/// Whatever an SMTP client says and is answered, all that is asked for it are deliveries of mail that can be stored. The record of each has a
/// spelling, under each number of 32 bits and at each moment up to the last.
pub fn smtp_clients_ask_for_deliveries()
    ensures deliveries { (house : House) (takes : List Taken) → IsName house.host → AllByRecursion IsTimely takes → AllByRecursion IsDelivery (asked_in house opening takes) }
    ensures spelled { (house : House) (takes : List Taken) (from : List ℕ) (to : List (List ℕ)) (text : List ℕ) (number at : ℕ) → IsName house.host → AllByRecursion IsTimely takes →
        Contains (asked_in house opening takes) (Deliver from to text) → number ≤ 4294967295 → at ≤ LAST_MOMENT → HasSpelling (Verb (delivery number at from to text)) }
{
    one_command();
}
