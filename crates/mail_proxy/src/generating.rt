//! The events that the command `grow` serves.
//!
//! What `generate` gives is proved for each number of rounds, not from 3 to 100,000 alone: no other count comes from the words.
ghost use Rattle.std.specs.Prelude.{◌≡◌, ◌++◌, ◌∷◌, [], IfOk, OnOk, codes, decimal};
ghost use Rattle.undo_outside.specs.declared.event.What.TheVariants.{Bytes, Joined};
ghost use Rattle.undo_outside.specs.declared.event.Role.TheVariants.{Http, Imap};
ghost use Rattle.script_link.specs.Line.{event_of, said};
ghost use Rattle.std.specs.List.{flat_map};
ghost use Rattle.mail_proxy.specs.Generated.{generated, greeting, moment_of, receiver_of, recipient_line, repair_request, round_of, sends, up_to};

use std::alloc::Global;
use undo_base::{NoMemory, Text};
use undo_outside::{Event, Events, Role, What};

/// The moment of the first event: 7 January 2005, 10:00:00.
const FIRST_MOMENT: u64 = 1105092000;

/// The request for a cycle: its head, and its body of 35 octets.
const REPAIR: &[u8] =
    b"POST /cycle HTTP/1.1\r\nHost: x\r\nContent-Length: 35\r\n\r\n{\"drop\":[4],\"key\":\"grow\",\"point\":0}";

/// The events of so many rounds, from 3 to 100,000. They are mail to each user of the house of `play` in turn, a client that
/// reads all of the first user's, and a cycle. That takes the third message out of the past. The end comes after them.
pub fn generate(alloc: Global, rounds: u32) -> Result<Events, NoMemory>
    ensures { IfOk result (λ events. events ≡ generated rounds) }
{
    let mut events = Events::new(alloc);
    push_greeting(alloc, &mut events)?;
    push_rounds(alloc, &mut events, rounds)?;
    push_reading(alloc, &mut events, moment_of(rounds))?;
    push_repair(alloc, &mut events, moment_of(rounds))?;
    Ok(events)
}

fn moment_of(round: u32) -> u64
    ensures { result ≡ moment_of round }
{
    FIRST_MOMENT + u64::from(round)
}

/// Adds the greeting of the first connection.
fn push_greeting(alloc: Global, events: &mut Events) -> Result<(), NoMemory>
    ensures { OnOk result (events.new ≡ events.old ++ greeting) }
{
    push_joined(events, 1, FIRST_MOMENT, Role::Smtp)?;
    push_line(alloc, events, 1, FIRST_MOMENT, b"HELO grow.test")
}

/// Adds the rounds, each a second after the one before.
fn push_rounds(alloc: Global, events: &mut Events, rounds: u32) -> Result<(), NoMemory>
    ensures { OnOk result (events.new ≡ events.old ++ flat_map round_of (up_to rounds)) }
{
    for before in 0..rounds {
        push_round(alloc, events, before + 1)?;
    }
    Ok(())
}

/// Adds a round: a message to one of the users.
fn push_round(alloc: Global, events: &mut Events, round: u32) -> Result<(), NoMemory>
    ensures { OnOk result (events.new ≡ events.old ++ round_of round) }
{
    let at = moment_of(round);
    push_line(alloc, events, 1, at, b"MAIL FROM:<g@mail.test>")?;
    push_recipient(alloc, events, at, round)?;
    push_line(alloc, events, 1, at, b"DATA")?;
    push_numbered(alloc, events, at, b"Subject: m ", round)?;
    push_line(alloc, events, 1, at, b"")?;
    push_numbered(alloc, events, at, b"round ", round)?;
    push_line(alloc, events, 1, at, b".")
}

/// Adds the line that names who gets the message.
fn push_recipient(alloc: Global, events: &mut Events, at: u64, round: u32) -> Result<(), NoMemory>
    ensures { OnOk result (events.new ≡ events.old ++ event_of 1 at (Bytes (said (recipient_line round))) ∷ []) }
{
    let line = recipient_line(alloc, round)?;
    push_line(alloc, events, 1, at, line.bytes())
}

fn recipient_line(alloc: Global, round: u32) -> Result<Text, NoMemory>
    ensures { IfOk result (λ line. line ≡ recipient_line round) }
{
    let mut line = Text::of(alloc, b"RCPT TO:<")?;
    line.extend(receiver_of(round))?;
    line.extend(b"@mail.test>")?;
    Ok(line)
}

fn receiver_of(round: u32) -> &'static [u8]
    ensures { result.now ≡ receiver_of round }
{
    match round % 3 {
        0 => b"ann",
        1 => b"bob",
        _ => b"carl",
    }
}

/// Adds a line of a text and a number.
fn push_numbered(
    alloc: Global,
    events: &mut Events,
    at: u64,
    text: &[u8],
    number: u32,
) -> Result<(), NoMemory>
    ensures { OnOk result (events.new ≡ events.old ++ event_of 1 at (Bytes (said (text.now ++ decimal number))) ∷ []) }
{
    let line = numbered_line(alloc, text, number)?;
    push_line(alloc, events, 1, at, line.bytes())
}

fn numbered_line(alloc: Global, text: &[u8], number: u32) -> Result<Text, NoMemory>
    ensures { IfOk result (λ line. line ≡ text.now ++ decimal number) }
{
    let mut line = Text::of(alloc, text)?;
    let digits = format!(in alloc; "{number}")?;
    line.extend(digits.as_bytes())?;
    Ok(line)
}

/// Adds a client that reads all of the first user's mail.
fn push_reading(alloc: Global, events: &mut Events, at: u64) -> Result<(), NoMemory>
    ensures { OnOk result (events.new ≡ events.old ++ event_of 2 at (Joined Imap) ∷ sends 2 at (codes "a LOGIN ann a1" ∷ codes "b SELECT INBOX" ∷ codes "c FETCH 1:* (FLAGS BODY.PEEK[])" ∷ [])) }
{
    push_joined(events, 2, at, Role::Imap)?;
    push_line(alloc, events, 2, at, b"a LOGIN ann a1")?;
    push_line(alloc, events, 2, at, b"b SELECT INBOX")?;
    push_line(alloc, events, 2, at, b"c FETCH 1:* (FLAGS BODY.PEEK[])")
}

/// Adds a console that asks for a cycle.
fn push_repair(alloc: Global, events: &mut Events, at: u64) -> Result<(), NoMemory>
    ensures { OnOk result (events.new ≡ events.old ++ event_of 3 at (Joined Http) ∷ event_of 3 at (Bytes repair_request) ∷ []) }
{
    push_joined(events, 3, at, Role::Http)?;
    push_bytes(events, 3, at, Text::of(alloc, REPAIR)?)
}

/// Adds that a connection is made.
fn push_joined(events: &mut Events, conn: u32, at: u64, role: Role) -> Result<(), NoMemory>
    ensures { OnOk result (events.new ≡ events.old ++ event_of conn at (Joined role) ∷ []) }
{
    events.push(Event {
        conn,
        at,
        what: What::Joined(role),
    })
}

/// Adds a line that a connection sends.
fn push_line(
    alloc: Global,
    events: &mut Events,
    conn: u32,
    at: u64,
    line: &[u8],
) -> Result<(), NoMemory>
    ensures { OnOk result (events.new ≡ events.old ++ event_of conn at (Bytes (said line.now)) ∷ []) }
{
    let mut bytes = Text::of(alloc, line)?;
    bytes.extend(b"\r\n")?;
    push_bytes(events, conn, at, bytes)
}

/// Adds bytes that a connection sends.
fn push_bytes(events: &mut Events, conn: u32, at: u64, bytes: Text) -> Result<(), NoMemory>
    ensures { OnOk result (events.new ≡ events.old ++ event_of conn at (Bytes bytes) ∷ []) }
{
    events.push(Event {
        conn,
        at,
        what: What::Bytes(bytes),
    })
}
