//! What a session answers, whatever it speaks.
ghost use Rattle.std.specs.Prelude.{◌≡◌, ◌∷◌, [], IfErr, IfOk, false, true};
ghost use Rattle.mail_loop.specs.SmtpTurn as smtp;
ghost use Rattle.mail_loop.specs.ImapTurn as imap;
ghost use Rattle.mail_loop.specs.PopTurn as pop;

use imap_session::{Bodies0, ImapOut};
use pop_session::PopOut;
use smtp_session::SmtpOut;
use std::alloc::Global;
use undo_base::{NoMemory, Text};
use verb_core::{Ask, Body};

/// What a session answers: something is said, or nothing; texts are to be read; the desk is asked; or the last words, behind which
/// the connection is closed.
#[derive(Drop)]
pub enum Out {
    Say(Text),
    Read(Bodies0),
    Submit(Ask),
    Bye(Text),
}

/// What an SMTP client's session answers.
pub fn of_smtp(alloc: Global, out: SmtpOut) -> Out
    ensures { result ≡ smtp.of_smtp out }
{
    match out {
        SmtpOut::Nothing => Out::Say(Text::new(alloc)),
        SmtpOut::Say(text) => Out::Say(text),
        SmtpOut::Mail(ask) => Out::Submit(ask),
        SmtpOut::Bye(text) => Out::Bye(text),
    }
}

/// What an IMAP client's session answers.
pub fn of_imap(out: ImapOut) -> Out
    ensures { result ≡ imap.of_imap out }
{
    match out {
        ImapOut::Say(text) => Out::Say(text),
        ImapOut::Read(bodies) => Out::Read(bodies),
        ImapOut::Submit(ask) => Out::Submit(ask),
        ImapOut::Bye(text) => Out::Bye(text),
    }
}

fn one_body(alloc: Global, body: Body) -> Result<Bodies0, NoMemory>
    ensures { IfOk result (λ bodies. bodies ≡ body ∷ []) }
{
    let mut bodies = Bodies0::new(alloc);
    bodies.push(body)?;
    Ok(bodies)
}

/// What a POP3 client's session answers. Memory is found for all but a text that is to be read.
pub fn of_pop(alloc: Global, out: PopOut) -> Result<Out, NoMemory>
    ensures ok { IfOk result (λ gives. gives ≡ pop.of_pop out) }
    ensures err { IfErr result (λ e. pop.is_read out ≡ true) }
{
    match out {
        PopOut::Say(text) => Ok(Out::Say(text)),
        PopOut::Read(body) => Ok(Out::Read(one_body(alloc, body)?)),
        PopOut::Submit(ask) => Ok(Out::Submit(ask)),
        PopOut::Bye(text) => Ok(Out::Bye(text)),
    }
}

/// The same, where no text is to be read.
pub fn of_pop_told(out: PopOut) -> Out
    requires { pop.is_read out ≡ false }
    ensures { result ≡ pop.of_pop out }
{
    match out {
        PopOut::Say(text) => Out::Say(text),
        PopOut::Read(_) => unreachable!(),
        PopOut::Submit(ask) => Out::Submit(ask),
        PopOut::Bye(text) => Out::Bye(text),
    }
}
