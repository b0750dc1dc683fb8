//! The strings of an event: that of the connection that it is about, and those of others whose mailbox changed.
//!
//! A connection whose turns close it loses its seat at once; its reply and close go out at the end of the event. A close whose
//! string was missed takes the seat away then.
//!
//! Each reply has a delivery of its own: it arrives, is missed, or is left out for want of memory. A link counts the calls that
//! found no memory: one for each string that is left out, one for a `next` or a `close` that ends serving so, and no other.
//! Serving goes on after a string that is left out.
//!
//! The loop takes memory for the places of an event's strings before the event is served: as many as there are open connections,
//! and one. Where there is none serving ends with want of memory and nothing of the event is done. So after a seal that failed
//! the answer and the close can be cut short by nothing but a `close` that found no memory.
ghost use Rattle.std.specs.Prelude.{◌≡◌, ◌<◌, ◌≤◌, ◌∷◌, [], length, nat_lt, option_map, position, vec_capacity, vec_len, IfOk};
ghost use Rattle.std.specs.List.{insert};
ghost use Rattle.mail_loop.specs.Machine.{told_other, told_others, with_reply};
ghost use Rattle.mail_loop.specs.Stands.{letter_of, replies_of, reply_of, said_of};

use crate::aftermath::Aftermath;
use crate::open_connection::Connection;
use crate::reply::Turned;
use imap_session::{changed, rewound, upgraded};
use std::alloc::Global;
use std::collections::BTreeMap;
use undo_base::{NoMemory, Text};

/// The string of a connection: its turns' answers, that its mailbox changed, that the store was rewound or upgraded, or nothing.
#[derive(Drop)]
pub enum Said {
    Answers(Text),
    Changed,
    Rewound,
    Upgraded,
    Silence,
}

/// What a connection is told at the end of an event, and whether it is closed then.
#[derive(Drop)]
pub struct Letter {
    pub conn: u32,
    pub said: Said,
    pub closes: bool,
}

impl Letter {
    /// The bytes that are sent.
    pub fn bytes(&self) -> &[u8]
        ensures { result.now ≡ said_of self.now.said }
    {
        match &self.said {
            Said::Answers(text) => text.bytes(),
            Said::Changed => changed(),
            Said::Rewound => rewound(),
            Said::Upgraded => upgraded(),
            Said::Silence => b"".as_slice(),
        }
    }
}

/// One letter.
pub fn alone(alloc: Global, letter: Letter) -> Result<Vec<Letter>, NoMemory>
    ensures { IfOk result (λ letters. replies_of letters.items ≡ letter_of letter ∷ []) }
{
    let mut letters = Vec::new(alloc);
    letters.push(letter)?;
    Ok(letters)
}

/// The first letter of a connection with a greater number.
fn first_behind(conn: u32, letters: &[Letter]) -> Option<usize>
    ensures { result ≡ position (λ l. nat_lt conn l.conn) letters.now }
{
    letters.iter().position(|letter| conn < letter.conn)
}

/// Room for a letter to each open connection, and one more.
pub fn room_for_letters(
    alloc: Global,
    connections: &BTreeMap<u32, Connection>,
) -> Result<Vec<Letter>, NoMemory>
    ensures none { IfOk result (λ room. room.items ≡ []) }
    ensures room { IfOk result (λ room. length connections.now.entries < vec_capacity room) }
{
    match connections.len().checked_add(1) {
        Some(count) => Ok(Vec::with_capacity(alloc, count)?),
        None => Err(NoMemory),
    }
}

/// The letter to another connection, where it is told of what follows.
fn letter_to(
    number: u32,
    connection: &Connection,
    conn: u32,
    aftermath: &Aftermath,
) -> Option<Letter>
    ensures { option_map letter_of result ≡ told_other conn aftermath.now (number, connection.now) }
{
    if number == conn {
        return None;
    }
    match connection.last_words(aftermath) {
        Some(said) => Some(Letter {
            conn: number,
            said,
            closes: true,
        }),
        None => None,
    }
}

/// The letters to the other connections that are told of what follows, by rising connection. There is room for the letters.
fn letters_to_others(
    room: Vec<Letter>,
    connections: &BTreeMap<u32, Connection>,
    conn: u32,
    aftermath: &Aftermath,
) -> Vec<Letter>
    requires none { room.items ≡ [] }
    requires room { length connections.now.entries < vec_capacity room }
    ensures letters { replies_of result.items ≡ told_others conn aftermath.now connections.now.entries }
    ensures room { vec_len result < vec_capacity result }
{
    let mut letters = room;
    for (number, connection) in connections {
        if let Some(letter) = letter_to(*number, connection, conn, aftermath) {
            letters.push_reserved(letter);
        }
    }
    letters
}

/// A letter at a place among others. There is room for it.
fn with_letter(letters: Vec<Letter>, place: usize, letter: Letter) -> Vec<Letter>
    requires place { place ≤ length letters.items }
    requires room { vec_len letters < vec_capacity letters }
    ensures { result.items ≡ insert letters.items place letter }
{
    let mut letters = letters;
    drop(letters.insert(place, letter));
    letters
}

/// The letters of an event, which take no memory: that of the connection's own turns in its place among those of others. The others
/// are looked at only where something follows.
pub fn letters_of(
    room: Vec<Letter>,
    connections: &BTreeMap<u32, Connection>,
    conn: u32,
    turned: Turned,
) -> Vec<Letter>
    requires none { room.items ≡ [] }
    requires room { length connections.now.entries < vec_capacity room }
    ensures { replies_of result.items ≡ with_reply (reply_of turned) (told_others conn turned.aftermath connections.now.entries) }
{
    let Turned {
        conn: own,
        said,
        closes,
        stops: _,
        aftermath,
    } = turned;
    let letter = Letter {
        conn: own,
        said: Said::Answers(said),
        closes,
    };
    if aftermath.is_quiet() {
        drop(aftermath);
        let mut letters = room;
        letters.push_reserved(letter);
        return letters;
    }
    let letters = letters_to_others(room, connections, conn, &aftermath);
    drop(aftermath);
    let others = letters.as_slice();
    let place = first_behind(own, others).unwrap_or(others.len());
    with_letter(letters, place, letter)
}
