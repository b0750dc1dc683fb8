//! What a console connection is told, and what follows.
ghost use Rattle.std.specs.Prelude.{◌≡◌, [], true, IfOk, IsTrue};
ghost use Rattle.serde_json.specs.Data.{Data};
ghost use Rattle.serde_json.specs.Written.{compact_text};
ghost use Rattle.console_http.specs.declared.request.HttpRefused.TheVariants.{NoMemory as WantOfMemory};
ghost use Rattle.console_replies.specs.Reply.{is_status};
ghost use Rattle.console_session.specs.Answers.{answer, answer_text, refused, told_plainly};
ghost use Rattle.console_session.specs.Hearing.{RunsOutOfMemory, Tells, TellsDiskFault, TellsOnly, TellsUnread};
ghost use Rattle.console_session.specs.declared.reply.After.TheVariants.{Closes};

use console_replies::{ErrorWord, error_json, render};
use std::alloc::Global;
use undo_base::{NoMemory, Text};

/// What follows what is said.
#[derive(Clone, Copy)]
pub enum After {
    /// The bytes are not yet a request: nothing was said, and the connection stays open.
    Waits,
    /// The connection is closed.
    Closes,
    /// The connection is closed, and serving ends as it was asked to.
    Stops,
    /// The connection is closed. A record could not be sealed, and serving ends with that. A text that could not be read ends nothing more than the connection.
    Fails,
    /// The connection is closed. A cycle or a withdrawal was done: each IMAP client's connection is told that the store was rewound, and closed.
    Rewinds,
    /// The connection is closed. The store was upgraded: each IMAP client's connection is told that, and closed.
    Upgrades,
}

/// What a connection is told, and what follows.
#[derive(Drop)]
pub struct Reply {
    pub said: Text,
    pub after: After,
}

/// Says nothing.
pub fn silent(alloc: Global, after: After) -> Reply
    ensures { result ≡ record { said = []; after = after } }
{
    Reply {
        said: Text::new(alloc),
        after,
    }
}

/// The bytes of an answer in JSON.
#[tactic(auto, unfolding(crate::specs::Answers::answer_text))]
fn spell(alloc: Global, status: u16, body: Result<Text, NoMemory>) -> Result<Text, NoMemory>
    requires { IsTrue (is_status status) }
    ensures { (json : Data) → IfOk body (λ text. text ≡ compact_text json) → IfOk result (λ text. text ≡ answer_text (answer status json)) }
{
    match body {
        Ok(body) => render(alloc, status, b"application/json", body.bytes()),
        Err(NoMemory) => Err(NoMemory),
    }
}

/// The answer that tells of want of memory.
fn spell_memory(alloc: Global) -> Result<Text, NoMemory>
    ensures { IfOk result (λ text. text ≡ answer_text (refused WantOfMemory)) }
{
    spell(alloc, 503, error_json(alloc, ErrorWord::Memory))
}

/// Tells of want of memory, or nothing where there is none for that either.
pub fn run_out_of_memory(alloc: Global) -> Reply
    ensures { RunsOutOfMemory result }
{
    match spell_memory(alloc) {
        Ok(said) => Reply {
            said,
            after: After::Closes,
        },
        Err(NoMemory) => silent(alloc, After::Closes),
    }
}

/// Tells an answer, or of want of memory.
pub fn tell(alloc: Global, status: u16, body: Result<Text, NoMemory>, after: After) -> Reply
    requires { IsTrue (is_status status) }
    ensures { (json : Data) → IfOk body (λ text. text ≡ compact_text json) → Tells (answer status json) after result }
{
    match spell(alloc, status, body) {
        Ok(said) => Reply { said, after },
        Err(NoMemory) => run_out_of_memory(alloc),
    }
}

/// The bytes of an answer of text.
#[tactic(auto, unfolding(crate::specs::Answers::answer_text))]
fn spell_plainly(alloc: Global, text: &Text) -> Result<Text, NoMemory>
    ensures { IfOk result (λ said. said ≡ answer_text (told_plainly text.now)) }
{
    render(alloc, 200, b"text/plain", text.bytes())
}

/// Tells a text, or of want of memory.
pub fn tell_plainly(alloc: Global, text: Text) -> Reply
    ensures { Tells (told_plainly text) Closes result }
{
    match spell_plainly(alloc, &text) {
        Ok(said) => Reply {
            said,
            after: After::Closes,
        },
        Err(NoMemory) => run_out_of_memory(alloc),
    }
}

/// Tells an answer, or nothing, since what it tells of is done.
pub fn tell_only(alloc: Global, status: u16, body: Result<Text, NoMemory>, after: After) -> Reply
    requires { IsTrue (is_status status) }
    ensures { (json : Data) → IfOk body (λ text. text ≡ compact_text json) → TellsOnly (answer status json) after result }
{
    match spell(alloc, status, body) {
        Ok(said) => Reply { said, after },
        Err(NoMemory) => silent(alloc, after),
    }
}

/// Tells that a text could not be read, or of want of memory.
pub fn tell_unread(alloc: Global) -> Reply
    ensures { TellsUnread result }
{
    tell(
        alloc,
        500,
        error_json(alloc, ErrorWord::Disk),
        After::Closes,
    )
}

/// Tells that a record could not be sealed, or nothing.
pub fn tell_unsealed(alloc: Global) -> Reply
    ensures { TellsDiskFault true result }
{
    tell_only(alloc, 500, error_json(alloc, ErrorWord::Disk), After::Fails)
}
