//! The serving loop.
//!
//! The machine keeps the house, the opening configuration, the timeline, the stamps, the next number and a store. In each state
//! that a journal's records leave the store is what the timeline leaves (`IsRun`). The desk of the code holds the same parts. Its
//! invariant says that the house is sound, that the store is valid and that the next number is at most 4,194,304. So
//! `serve_events` asks of its desk only that it is open, and says nothing more of the number.
//!
//! A greeting for which no memory is found is left out, as any string is, and its connection is closed; serving goes on. A table
//! for which none is found, also that of an event's strings, ends serving with want of memory.
//!
//! The link's count of missed strings rises by at least as many as are missed; where none was missed it is as it was. A failed
//! `next` is the last thing that the link did when serving answers `Link`.
//!
//! A snapshot that is due is taken after each event, also one without strings, the one in which a console asked to stop, and the
//! end of the events. There it may still be due where none was sealed after the last event for want of memory. Or a store was
//! opened behind which more than 1,023 items stand, and nothing came. Where memory is wanted for an event's bytes, strings or
//! closes serving ends, and no snapshot is taken.
//!
//! A console's stop ends serving after its event with Ok, before any later event; where memory is wanted for that event's strings
//! the answer is want of memory. After a stop no step follows (`NoStop`).
ghost use Rattle.std.specs.Prelude.{◌≡◌, ◌≤◌, ℕ, Bool, List, OnErr, false, []};
ghost use Rattle.std.specs.List.{list_any};
ghost use Rattle.console_head.specs.Request.{Stage};
ghost use Rattle.undo_outside.specs.declared.event.LinkNote.{LinkNote};
ghost use Rattle.verb_bytes.specs.declared.journal.JournalRecord.{JournalRecord};
ghost use Rattle.store_kept.specs.Kept.{IsRun};
ghost use Rattle.mail_cycle.specs.Permanence.{UidsLast, UidsStay};
ghost use Rattle.desk_journal.specs.Records.{is_withdrawal};
ghost use Rattle.desk_journal.specs.Sealing.{Seals};
ghost use Rattle.desk_journal.specs.Stored.{HoldsTexts};
ghost use Rattle.mail_loop.specs.Asked.{HaveSealed};
ghost use Rattle.mail_loop.specs.Hindrance.{Hindrance};
ghost use Rattle.mail_loop.specs.Took.{IsNone};
ghost use Rattle.mail_loop.specs.Machine.{Hindrances, Delivery, Keeping, admits, answered, delivered, happens, hears_at, joins, seat_at};
ghost use Rattle.verb_core.specs.declared.conf.House.{House as TheHouse};
ghost use Rattle.mail_loop.specs.Roles.{row_of};
ghost use Rattle.mail_loop.specs.Stands.{AreHome, letter_of, replies_of};
ghost use Rattle.mail_loop.specs.Did.{AreLicensed, Told, Sends, Leads, Answers, Opens, Keeps, unclosed_by};
ghost use Rattle.mail_loop.specs.Serving.{Step, ServedOver, counts_in, ended_as, is_disk, unsealed_in};
ghost use Rattle.mail_loop.specs.Acknowledged.{GoesThrough, WentThrough};

use crate::letters::{Letter, alone, letters_of, room_for_letters};
use crate::maildrops::users_for;
use crate::open_connection::{Connection, Occasion, hear};
use crate::reply::{greeting_to, ungreeted};
use crate::roles::greeting;
use std::alloc::Global;
use std::collections::BTreeMap;
use std::thread::Threads;
use thiserror::Error;
use time_desk::Desk;
use time_desk::laws::seals_join;
use time_desk::permanence::records_let_uids_last;
use undo_base::{LAST_MOMENT, NoMemory};
use undo_outside::{Disk, Event, Fault, Gate, Link, Role, What};

/// Why serving ended before the end.
#[derive(Clone, Copy, Debug, Error)]
pub enum ServeFault {
    /// `next` of the link failed.
    #[error("link fault")]
    Link,
    /// A record was not sealed: the disk failed.
    #[error("disk fault")]
    Disk,
    #[error("too many events")]
    Turns,
    #[error("no memory")]
    NoMemory,
}

/// So many items enter between two snapshots, unless a snapshot is asked for earlier.
const SNAPSHOT_AFTER: u32 = 1024;

/// The strings of an event, and whether serving is to stop after it.
#[derive(Drop)]
struct Answer {
    letters: Vec<Letter>,
    stops: bool,
}

/// The open connections, by number.
type Connections = BTreeMap<u32, Connection>;

/// Sends the string of a reply, if there is one. Answers whether the connection stays open.
fn tell<L: Link>(link: &mut L, letter: &Letter) -> bool
    ensures { Told (L.told link.old) (L.told link.new) (letter_of letter.now) result }
{
    let bytes = letter.bytes();
    if bytes.is_empty() {
        return !letter.closes;
    }
    match link.send(letter.conn, bytes) {
        Ok(()) => !letter.closes,
        Err(_) => false,
    }
}

/// Sends the strings of an event. A connection that does not stay open is closed behind its string, and forgotten.
fn deliver_all<L: Link>(
    connections: &mut Connections,
    link: &mut L,
    letters: &[Letter],
) -> Result<(), NoMemory>
    ensures home { (house : TheHouse) → AreHome house connections.old.entries → AreHome house connections.new.entries }
    ensures sends { (ds : List Delivery) × AreLicensed ds (unclosed_by result) (L.told link.old) (L.told link.new) ×
        Sends (delivered ds connections.old.entries (replies_of letters.now)) (L.told link.old) (L.told link.new) connections.new.entries result }
{
    for letter in letters {
        if tell(link, letter) {
            continue;
        }
        link.close(letter.conn)?;
        let gone = connections.remove(&letter.conn);
        drop(gone);
    }
    Ok(())
}

/// Opens a connection of a role, whose client is told this. Where no memory is found for it none is opened.
fn enter(
    alloc: Global,
    connections: &mut Connections,
    conn: u32,
    role: Role,
    letters: Vec<Letter>,
) -> Result<Vec<Letter>, NoMemory>
    ensures home { (house : TheHouse) → AreHome house connections.old.entries → AreHome house connections.new.entries }
    ensures opens { Opens conn (row_of role).fresh (replies_of letters.items) connections.old.entries connections.new.entries (λ replies. replies_of replies.items) result }
{
    let before = connections.insert(conn, Connection::fresh(alloc, role))?;
    drop(before);
    Ok(letters)
}

/// Opens a connection of a role, and greets the client where the role has a greeting. Where no memory is found for that the
/// connection is closed.
fn admit<D: Disk + Drop>(
    alloc: Global,
    desk: &Desk<D>,
    connections: &mut Connections,
    conn: u32,
    role: Role,
) -> Result<Vec<Letter>, NoMemory>
    ensures home { (house : TheHouse) → AreHome house connections.old.entries → AreHome house connections.new.entries }
    ensures answers { (no_memory : Bool) × Answers IsNone (admits no_memory role (record { kept = desk.now.kept; seats = connections.old.entries }) conn)
        desk.now.kept connections.new.entries (λ replies. replies_of replies.items) (λ _. false) result }
{
    match greeting(alloc, desk.house(), role) {
        Ok(Some(greeting)) => {
            let letters = alone(alloc, greeting_to(conn, greeting))?;
            enter(alloc, connections, conn, role, letters)
        }
        Ok(None) => enter(alloc, connections, conn, role, Vec::new(alloc)),
        Err(NoMemory) => alone(alloc, ungreeted(alloc, conn)),
    }
}

/// A client joins. On a connection that is open this is ignored.
fn join<D: Disk + Drop>(
    alloc: Global,
    desk: &Desk<D>,
    connections: &mut Connections,
    conn: u32,
    role: Role,
) -> Result<Vec<Letter>, NoMemory>
    ensures home { (house : TheHouse) → AreHome house connections.old.entries → AreHome house connections.new.entries }
    ensures answers { (no_memory : Bool) × Answers IsNone (joins (seat_at conn connections.old.entries) no_memory role (record { kept = desk.now.kept; seats = connections.old.entries }) conn)
        desk.now.kept connections.new.entries (λ replies. replies_of replies.items) (λ _. false) result }
{
    if connections.contains_key(&conn) {
        Ok(Vec::new(alloc))
    } else {
        admit(alloc, desk, connections, conn, role)
    }
}

/// No strings.
fn nothing(alloc: Global) -> Answer
    ensures letters { result.letters.items ≡ [] }
    ensures goes_on { result.stops ≡ false }
{
    Answer {
        letters: Vec::new(alloc),
        stops: false,
    }
}

/// Serves bytes that came over a connection. Where it is not open they are ignored. The memory for the strings' places is taken before anything is sealed.
fn hear_at<R: Threads + Sync, D: Disk + Drop, G: Gate>(
    rt: &R,
    alloc: Global,
    desk: &mut Desk<D>,
    connections: &mut Connections,
    conn: u32,
    at: u64,
    gate: &G,
    bytes: &[u8],
) -> Result<Answer, NoMemory>
    requires moment { at ≤ LAST_MOMENT }
    requires sealed { desk.old.closed ≡ false }
    requires home { AreHome desk.old.kept.house connections.old.entries }
    ensures home { AreHome desk.new.kept.house connections.new.entries }
    ensures undone { OnErr result (desk.new.kept ≡ desk.old.kept) }
    ensures answers { (no_memory : Bool) × (hs : List Hindrance) × (stage : Stage) ×
        Answers (HaveSealed D.told desk.old desk.new) (hears_at (seat_at conn connections.old.entries) no_memory hs stage at (record { kept = desk.old.kept; seats = connections.old.entries }) conn bytes.now)
        desk.new.kept connections.new.entries (λ answer. replies_of answer.letters.items) (λ answer. answer.stops) result }
{
    seals_join::<D>();
    let room = room_for_letters(alloc, connections)?;
    let in_use = users_for(alloc, connections, conn);
    let turned = match connections.get_mut(&conn) {
        None => {
            drop(in_use);
            drop(room);
            return Ok(nothing(alloc));
        }
        Some(connection) => {
            let occasion = Occasion { conn, at };
            hear(rt, alloc, desk, connection, occasion, gate, &in_use, bytes)
        }
    };
    drop(in_use);
    if turned.closes {
        let gone = connections.remove(&conn);
        drop(gone);
    }
    let stops = turned.stops;
    let letters = letters_of(room, connections, conn, turned);
    Ok(Answer { letters, stops })
}

/// What an event leaves before its strings are sent: the replies by rising connection.
fn answer_event<R: Threads + Sync, D: Disk + Drop, G: Gate>(
    rt: &R,
    alloc: Global,
    desk: &mut Desk<D>,
    connections: &mut Connections,
    gate: &G,
    event: &Event,
) -> Result<Answer, NoMemory>
    requires sealed { desk.old.closed ≡ false }
    requires home { AreHome desk.old.kept.house connections.old.entries }
    ensures home { AreHome desk.new.kept.house connections.new.entries }
    ensures undone { OnErr result (desk.new.kept ≡ desk.old.kept) }
    ensures answers { (no_memory : Bool) × (hs : List Hindrance) × (stage : Stage) ×
        Answers (HaveSealed D.told desk.old desk.new) (answered no_memory hs stage (record { kept = desk.old.kept; seats = connections.old.entries }) event.now)
        desk.new.kept connections.new.entries (λ answer. replies_of answer.letters.items) (λ answer. answer.stops) result }
{
    seals_join::<D>();
    let conn = event.conn;
    match &event.what {
        What::Joined(role) => {
            let letters = join(alloc, desk, connections, conn, *role)?;
            Ok(Answer {
                letters,
                stops: false,
            })
        }
        What::Bytes(bytes) => {
            let at = event.at.min(LAST_MOMENT);
            hear_at(rt, alloc, desk, connections, conn, at, gate, bytes.bytes())
        }
        What::Left => {
            let gone = connections.remove(&conn);
            drop(gone);
            Ok(nothing(alloc))
        }
        What::Idle => Ok(nothing(alloc)),
        What::End => Ok(nothing(alloc)),
    }
}

/// Takes the snapshot that is due: the desk is open, and at least so many items entered since the last. Where no memory is found for it
/// it is left out; where it can't be sealed the desk is closed from then on.
fn keep_up<D: Disk>(alloc: Global, desk: &mut Desk<D>)
    ensures home { desk.new.kept.house ≡ desk.old.kept.house }
    ensures keeps { (k : Keeping) × Keeps D.told k desk.old desk.new }
{
    seals_join::<D>();
    if desk.closed() {
        return;
    }
    if desk.since_snapshot() < SNAPSHOT_AFTER {
        return;
    }
    match desk.snapshot(alloc) {
        Ok(_) => {}
        Err(_) => {}
    }
}

/// Serves one event, and takes the snapshot that is due after its strings. Answers whether serving is to stop after it.
fn serve_event<R: Threads + Sync, L: Link, D: Disk + Drop, G: Gate>(
    rt: &R,
    alloc: Global,
    desk: &mut Desk<D>,
    connections: &mut Connections,
    link: &mut L,
    gate: &G,
    event: &Event,
) -> Result<bool, NoMemory>
    requires sealed { desk.old.closed ≡ false }
    requires home { AreHome desk.old.kept.house connections.old.entries }
    ensures home { AreHome desk.new.kept.house connections.new.entries }
    ensures leads { (h : Hindrances) × (unclosed : ℕ) × AreLicensed h.deliveries unclosed (L.told link.old) (L.told link.new) ×
        Leads (HaveSealed D.told desk.old desk.new) unclosed h.keeping desk.old.kept (happens h (record { kept = desk.old.kept; seats = connections.old.entries }) event.now) (L.told link.old) (L.told link.new)
        desk.new.kept connections.new.entries result ×
        GoesThrough D.told (record { kept = desk.old.kept; seats = connections.old.entries }) (record { event = event.now; hindrances = h }) desk.old desk.new }
{
    seals_join::<D>();
    let answer = answer_event(rt, alloc, desk, connections, gate, event)?;
    match deliver_all(connections, link, answer.letters.as_slice()) {
        Ok(()) => {
            keep_up(alloc, desk);
            let stops = answer.stops;
            drop(answer);
            Ok(stops)
        }
        Err(NoMemory) => {
            drop(answer);
            Err(NoMemory)
        }
    }
}

/// The end of the events: takes the snapshot that is due. Serving is over for the disk where the desk is closed, by a record that was not sealed.
fn end_serving<D: Disk>(alloc: Global, desk: &mut Desk<D>) -> Result<(), ServeFault>
    ensures keeps { (k : Keeping) × Keeps D.told k desk.old desk.new }
    ensures ends { result ≡ ended_as desk.new.closed }
{
    keep_up(alloc, desk);
    let over = desk.closed();
    if over { Err(ServeFault::Disk) } else { Ok(()) }
}

/// Serves the events of a link, one after the other.
fn serve_each<R: Threads + Sync, L: Link, D: Disk + Drop, G: Gate>(
    rt: &R,
    alloc: Global,
    desk: &mut Desk<D>,
    link: &mut L,
    gate: &G,
    turns: u64,
) -> Result<(), ServeFault>
    requires sealed { desk.old.closed ≡ false }
    ensures serves { (steps : List Step) × (notes : List LinkNote) ×
        ServedOver turns steps notes (L.told link.old) (L.told link.new) desk.old.kept desk.new.kept result ×
        HaveSealed D.told desk.old desk.new (unsealed_in steps desk.old.kept) (counts_in steps desk.old.kept) × WentThrough D.told steps desk.old desk.new }
    ensures closed { desk.new.closed ≡ is_disk result }
{
    seals_join::<D>();
    let mut connections = BTreeMap::new(alloc);
    for _ in 0..turns {
        let event = match link.next() {
            Ok(event) => event,
            Err(Fault::Failed) => {
                drop(connections);
                return Err(ServeFault::Link);
            }
            Err(Fault::NoMemory) => {
                drop(connections);
                return Err(ServeFault::NoMemory);
            }
        };
        if let What::End = &event.what {
            drop(event);
            drop(connections);
            return end_serving(alloc, desk);
        }
        let sent = serve_event(rt, alloc, desk, &mut connections, link, gate, &event);
        drop(event);
        if desk.closed() {
            drop(connections);
            return Err(ServeFault::Disk);
        }
        let stops = match sent {
            Ok(stops) => stops,
            Err(NoMemory) => {
                drop(connections);
                return Err(ServeFault::NoMemory);
            }
        };
        if stops {
            drop(connections);
            return Ok(());
        }
    }
    drop(connections);
    Err(ServeFault::Turns)
}

/// Serves the events of a link until the end comes or a console asks it to stop, at most so many. It takes a snapshot after an event, the end too,
/// where one is due. What was answered stays: `answered_is_kept` says so of the desks that serving goes through. A text that can't be read is told to
/// who asked for it, and serving goes on. In each step the disk counts just as many failed reads, and writes that found no memory, as the machine has
/// in it. Whatever came, over a disk that holds the texts as they were stored the store is at last what the items in force leave. No UID names
/// another message or another text than before (RFC 3501, section 2.3.1.1).
pub fn serve_events<R: Threads + Sync, L: Link, D: Disk + Drop, G: Gate>(
    rt: &R,
    alloc: Global,
    desk: &mut Desk<D>,
    link: &mut L,
    gate: &G,
    turns: u64,
) -> Result<(), ServeFault>
    requires sealed { desk.old.closed ≡ false }
    ensures serves { (steps : List Step) × (notes : List LinkNote) ×
        ServedOver turns steps notes (L.told link.old) (L.told link.new) desk.old.kept desk.new.kept result ×
        HaveSealed D.told desk.old desk.new (unsealed_in steps desk.old.kept) (counts_in steps desk.old.kept) × WentThrough D.told steps desk.old desk.new }
    ensures closed { desk.new.closed ≡ is_disk result }
    ensures runs { HoldsTexts D.told desk.old → IsRun desk.new.kept }
    ensures uids { HoldsTexts D.told desk.old → UidsLast desk.old.kept desk.new.kept }
    // Where no withdrawal was sealed, no text comes back that was taken away.
    ensures stays { (added failed : List JournalRecord) → Seals D.told added failed desk.old desk.new → HoldsTexts D.told desk.old
        → list_any is_withdrawal added ≡ false → UidsStay desk.old.kept desk.new.kept }
{
    desk.stands();
    records_let_uids_last();
    serve_each(rt, alloc, desk, link, gate, turns)
}
