//! The state of a dialog, and what a line does to it.
//!
//! A dialog is a function of its state, the house, the configuration, the moment and one line.
ghost use Rattle.std.specs.Prelude.{◌≡◌, ◌≤◌, IsTrue, IfOk, OnErr, Ok, Err};
ghost use Rattle.smtp_lines.specs.Command.{Reading, ReadsCommand, command_of};
ghost use Rattle.verb_core.specs.declared.conf.Conf.{Conf as TheConf};
ghost use Rattle.verb_core.specs.Store.{is_house};
ghost use Rattle.smtp_session.specs.declared.dialog.Dialog.{Dialog as TheDialog};
ghost use Rattle.smtp_session.specs.Dialog.{obey, turn, turns};

use crate::answer::{Answer, SmtpOut, say, say_bye};
use crate::commands::{begin_mail, begin_text, greet_client, receive_recipient, reset};
use crate::draft::{end_draft, push_line};
use crate::ending::end_transaction;
use crate::recipients::Recipients;
use smtp_lines::{SmtpCommand, SmtpLine, SmtpRefused, read_command};
use std::alloc::Global;
use undo_base::{LAST_MOMENT, Name, NoMemory, Text};
use verb_core::{Conf, House};

/// The transaction of an SMTP client. A text that is too large is none; `Due` has the host's name.
#[derive(Drop)]
pub enum Transaction {
    Idle,
    Begun {
        path: Text,
        to: Recipients,
    },
    Writing {
        path: Text,
        to: Recipients,
        text: Option<Text>,
    },
    Due {
        host: Name,
    },
}

/// The argument of the last greeting, and the transaction.
#[derive(Drop)]
pub struct Dialog {
    pub client: Option<Name>,
    pub transaction: Transaction,
}

fn obey_command(
    alloc: Global,
    house: &House,
    conf: &Conf,
    dialog: &mut Dialog,
    command: SmtpCommand,
) -> Result<SmtpOut, NoMemory>
    requires { IsTrue (is_house house.now) }
    ensures ok { IfOk result (λ out. obey house.now conf.now dialog.old (Ok command) ≡ turns out dialog.new) }
    ensures err { OnErr result (dialog.new ≡ dialog.old) }
{
    match command {
        SmtpCommand::Helo { client } => greet_client(alloc, house, dialog, client),
        SmtpCommand::Ehlo { client } => greet_client(alloc, house, dialog, client),
        SmtpCommand::Mail { path } => begin_mail(alloc, house, dialog, path),
        SmtpCommand::Rcpt { local, domain } => {
            receive_recipient(alloc, house, conf, dialog, &local, &domain)
        }
        SmtpCommand::Data => begin_text(alloc, house, dialog),
        SmtpCommand::Rset => reset(alloc, house, dialog),
        SmtpCommand::Noop { rest: _ } => say(alloc, &house.host, Answer::Done),
        SmtpCommand::Vrfy { what: _ } => say(alloc, &house.host, Answer::CannotVerify),
        SmtpCommand::Quit => say_bye(alloc, &house.host, Answer::Closing),
    }
}

/// A line that is no command.
fn refuse(alloc: Global, house: &House, refused: SmtpRefused) -> Result<SmtpOut, NoMemory>
    ensures { IfOk result (λ out. (reading : Reading) → ReadsCommand reading (Err refused) → (conf : TheConf) → (d : TheDialog) →
        obey house.now conf d reading ≡ turns out d) }
{
    match refused {
        SmtpRefused::NoMemory => Err(NoMemory),
        SmtpRefused::Long => say(alloc, &house.host, Answer::LineTooLong),
        SmtpRefused::Unknown => say(alloc, &house.host, Answer::UnknownCommand),
        SmtpRefused::NotDone => say(alloc, &house.host, Answer::NotImplemented),
        SmtpRefused::Argument => say(alloc, &house.host, Answer::BadArgument),
        SmtpRefused::Parameter => say(alloc, &house.host, Answer::UnknownParameter),
    }
}

/// A line outside a text.
fn obey_line(
    alloc: Global,
    house: &House,
    conf: &Conf,
    dialog: &mut Dialog,
    line: &SmtpLine,
) -> Result<SmtpOut, NoMemory>
    requires { IsTrue (is_house house.now) }
    ensures ok { IfOk result (λ out. obey house.now conf.now dialog.old (command_of line.now) ≡ turns out dialog.new) }
    ensures err { OnErr result (dialog.new ≡ dialog.old) }
{
    match read_command(alloc, line) {
        Ok(command) => obey_command(alloc, house, conf, dialog, command),
        Err(refused) => refuse(alloc, house, refused),
    }
}

/// One line of a dialog.
pub(crate) fn take_line(
    alloc: Global,
    house: &House,
    conf: &Conf,
    at: u64,
    dialog: &mut Dialog,
    line: &SmtpLine,
) -> Result<SmtpOut, NoMemory>
    requires house { IsTrue (is_house house.now) }
    requires moment { at ≤ LAST_MOMENT }
    ensures ok { IfOk result (λ out. turn house.now conf.now at dialog.old line.now ≡ turns out dialog.new) }
    ensures err { OnErr result (dialog.new ≡ dialog.old) }
{
    match &mut dialog.transaction {
        Transaction::Writing { path, to, text } => {
            if line.bytes.bytes() == b".".as_slice() {
                let body = end_draft(alloc, &house.host, at, dialog.client.as_ref(), path, text)?;
                let (out, next) = end_transaction(alloc, &house.host, path, to, body)?;
                dialog.transaction = next;
                Ok(out)
            } else {
                push_line(alloc, text, line)?;
                Ok(SmtpOut::Nothing)
            }
        }
        Transaction::Idle => obey_line(alloc, house, conf, dialog, line),
        Transaction::Begun { .. } => obey_line(alloc, house, conf, dialog, line),
        Transaction::Due { .. } => obey_line(alloc, house, conf, dialog, line),
    }
}
