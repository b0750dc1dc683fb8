//! How a transaction ends.
//!
//! The host's name for `421 HOST disk fault` is kept from the line that ended the text, since `done` is given no house.
//!
//! A refusal that a delivery cannot have would be told as want of memory; `done` has the condition that there is none.
ghost use Rattle.std.specs.Prelude.{◌≡◌, IfOk, OnErr};
ghost use Rattle.smtp_session.specs.Ending.{EndsText};
ghost use Rattle.smtp_session.specs.Dialog.{host_due as host_of, fault_said, outcome_said, settle, turns};

use crate::answer::{Answer, SmtpOut, answer_to_delivery, say, write_answer};
use crate::dialog::{Dialog, Transaction};
use crate::recipients::Recipients;
use std::alloc::Global;
use std::mem;
use undo_base::{Name, NoMemory, Text};
use verb_core::{Ask, Item, SubmitFault};

/// The end of a text, whose body is none where the text was too large: what is said or asked, and the transaction after it.
pub(crate) fn end_transaction(
    alloc: Global,
    host: &Name,
    path: &mut Text,
    to: &mut Recipients,
    body: Option<Text>,
) -> Result<(SmtpOut, Transaction), NoMemory>
    ensures ok { IfOk result (λ ended. EndsText host.now path.old to.old body ended.0 ended.1) }
    ensures path { OnErr result (path.new ≡ path.old) }
    ensures to { OnErr result (to.new ≡ to.old) }
{
    let Some(text) = body else {
        return Ok((say(alloc, host, Answer::TextTooLarge)?, Transaction::Idle));
    };
    let host = host.copy(alloc)?;
    let asked = Ask::Deliver {
        from: mem::replace(path, Text::new(alloc)),
        to: mem::replace(to, Recipients::new(alloc)).into_names(),
        text,
    };
    Ok((SmtpOut::Mail(asked), Transaction::Due { host }))
}

fn tell_fault(alloc: Global, host: &[u8], fault: SubmitFault) -> Result<SmtpOut, NoMemory>
    ensures { IfOk result (λ out. out ≡ fault_said host.now fault) }
{
    match fault {
        SubmitFault::Refused(refused) => {
            let text = write_answer(alloc, host, answer_to_delivery(refused))?;
            Ok(SmtpOut::Say(text))
        }
        SubmitFault::Disk => Ok(SmtpOut::Bye(write_answer(alloc, host, Answer::DiskFault)?)),
        SubmitFault::Closed => Ok(SmtpOut::Bye(write_answer(alloc, host, Answer::DiskFault)?)),
    }
}

fn tell(
    alloc: Global,
    host: &[u8],
    outcome: &Result<Item, SubmitFault>,
) -> Result<SmtpOut, NoMemory>
    ensures { IfOk result (λ out. out ≡ outcome_said host.now outcome.now) }
{
    match outcome {
        Ok(item) => {
            let number = item.number;
            Ok(SmtpOut::Say(write_answer(alloc, host, Answer::Stored { number })?))
        }
        Err(fault) => tell_fault(alloc, host, *fault),
    }
}

/// The host's name, while an outcome is due.
fn host_due(transaction: &Transaction) -> &[u8]
    ensures { result.now ≡ host_of transaction.now }
{
    match transaction {
        Transaction::Idle => b"",
        Transaction::Begun { .. } => b"",
        Transaction::Writing { .. } => b"",
        Transaction::Due { host } => host.bytes(),
    }
}

/// The outcome of what was asked.
pub(crate) fn settle_dialog(
    alloc: Global,
    dialog: &mut Dialog,
    outcome: &Result<Item, SubmitFault>,
) -> Result<SmtpOut, NoMemory>
    ensures ok { IfOk result (λ out. settle dialog.old outcome.now ≡ turns out dialog.new) }
    ensures err { OnErr result (dialog.new ≡ dialog.old) }
{
    let out = tell(alloc, host_due(&dialog.transaction), outcome)?;
    dialog.transaction = Transaction::Idle;
    Ok(out)
}
