//! Whose maildrops are in use: one session of a user fetches at a time (RFC 1939, section 4).
//!
//! A POP3 client's session is given the users of the other connections as they stand when its event comes. Events are served one
//! at a time, and none changes another connection but by closing it at its end: so that is as they stand at the turn. They are
//! looked for once an event, and only where a POP3 client asks. Where no memory is found for them its connection is closed
//! without an answer, as for its bytes.
ghost use Rattle.std.specs.Prelude.{◌≡◌, IfOk, Some};
ghost use Rattle.mail_loop.specs.Machine.{seat_at};
ghost use Rattle.mail_loop.specs.PopTurn.{in_use, user_beside};
ghost use Rattle.mail_loop.specs.Stands.{AreInUse};
ghost use Rattle.mail_loop.specs.State.{Seat, beside};

use crate::open_connection::Connection;
use std::alloc::Global;
use std::collections::BTreeMap;
use undo_base::{NoMemory, User, Users};

/// Who is logged in on another connection by POP3, or logs in.
fn user_beside(number: u32, connection: &Connection, conn: u32) -> Option<User>
    ensures { result ≡ user_beside conn (number, connection.now) }
{
    if number == conn {
        return None;
    }
    connection.fetching_user()
}

/// The users of the other POP3 clients.
fn users_beside(
    alloc: Global,
    connections: &BTreeMap<u32, Connection>,
    conn: u32,
) -> Result<Users, NoMemory>
    ensures { IfOk result (λ users. users ≡ in_use (beside conn connections.now.entries)) }
{
    let mut users = Users::new(alloc);
    for (number, connection) in connections {
        if let Some(user) = user_beside(*number, connection, conn) {
            users.push(user)?;
        }
    }
    Ok(users)
}

/// The same, for a POP3 client's connection. They are looked for there alone.
pub fn users_for(
    alloc: Global,
    connections: &BTreeMap<u32, Connection>,
    conn: u32,
) -> Result<Users, NoMemory>
    ensures { (seat : Seat) → seat_at conn connections.now.entries ≡ Some seat → AreInUse conn connections.now.entries seat result }
{
    let fetches = match connections.get(&conn) {
        Some(connection) => connection.is_fetching(),
        None => false,
    };
    if !fetches {
        return Ok(Users::new(alloc));
    }
    users_beside(alloc, connections, conn)
}
