//! What a connection is told at the end of an event.
ghost use Rattle.std.specs.Prelude.{◌≡◌, false, true, []};
ghost use Rattle.mail_loop.specs.Stands.{letter_of};
ghost use Rattle.mail_loop.specs.Took.{Adds, going_on_with};

use crate::aftermath::Aftermath;
use crate::gone::Gone;
use crate::letters::{Letter, Said};
use std::alloc::Global;
use undo_base::{NoMemory, Text};

/// What a connection's turns say, whether it is closed then, and the mailboxes that they took away.
#[derive(Drop)]
pub struct Reply {
    pub conn: u32,
    pub said: Text,
    pub closes: bool,
    pub gone: Gone,
}

/// What a connection is told of its turns, whether it is closed then, whether one of them asked serving to stop, and what follows
/// for the other connections.
#[derive(Drop)]
pub struct Turned {
    pub conn: u32,
    pub said: Text,
    pub closes: bool,
    pub stops: bool,
    pub aftermath: Aftermath,
}

/// Turns after which serving goes on.
pub fn going_on(reply: Reply) -> Turned
    ensures { result ≡ going_on_with reply }
{
    let Reply {
        conn,
        said,
        closes,
        gone,
    } = reply;
    Turned {
        conn,
        said,
        closes,
        stops: false,
        aftermath: Aftermath::taking(gone),
    }
}

/// A reply that says nothing yet.
pub fn empty_reply(alloc: Global, conn: u32, closes: bool) -> Reply
    ensures { result ≡ record { conn = conn; said = []; closes = closes; gone = [] } }
{
    Reply {
        conn,
        said: Text::new(alloc),
        closes,
        gone: Gone::new(alloc),
    }
}

/// The letter with a greeting.
pub fn greeting_to(conn: u32, greeting: Text) -> Letter
    ensures { letter_of result ≡ record { conn = conn; said = greeting; closes = false } }
{
    Letter {
        conn,
        said: Said::Answers(greeting),
        closes: false,
    }
}

/// No greeting, for which no memory was found: the connection is to be closed.
pub fn ungreeted(alloc: Global, conn: u32) -> Letter
    ensures { letter_of result ≡ record { conn = conn; said = []; closes = true } }
{
    Letter {
        conn,
        said: Said::Answers(Text::new(alloc)),
        closes: true,
    }
}

/// Adds a string, whole. The connection closes after the last one, and where no memory is found for it.
pub fn say(reply: &mut Reply, text: &[u8], last: bool)
    ensures { Adds text.now last reply.old reply.new }
{
    reply.closes = match reply.said.extend(text) {
        Ok(()) => last,
        Err(NoMemory) => true,
    };
}
