//! The listeners and the connections, visited in rounds: where the system tells of something, and the others by turns.
//!
//! Between rounds the link waits for the system to tell of a port or a connection (epoll, by the kit's crate `mio`,
//! edge-triggered; no handle beyond `Net`). It does not wait at all where somebody is still called, and never beyond the idle
//! event, which comes after a second with nothing to tell (a clause of `pause`). Each port is registered as it listens, each
//! connection as it is taken in.
//!
//! The number of a connection is that of its seat, counted from 1.
ghost use Rattle.std.specs.Prelude.{◌≡◌, ◌<◌, ◌≤◌, ◌+◌, ℕ, true, false, IfSome, IfNone, IsNone, None, Some, Ok, length, position};
ghost use Rattle.std.specs.Option.{option_map, option_and_then};
ghost use Rattle.host_outside.specs.Ports.{AskedFor, Row, row_at};
ghost use Rattle.host_outside.specs.Ports as seats;
ghost use Rattle.host_outside.specs.Queue.{longest_wait};
ghost use Rattle.host_outside.specs.Seats.{EndsConnection, Fills, Gives, Hears, IsLeft, IsOneSearchAt, IsSent, Receives, SatBefore, Turns, is_free, told_of};
ghost use Rattle.host_outside.specs.declared.connection.Received.TheVariants as came;
ghost use Rattle.host_outside.specs.Seats as spec;
ghost use Rattle.undo_outside.specs.declared.event.What.TheVariants.{Joined};

use crate::connection::{Connection, Received};
use crate::listeners::{Arrived, Listeners};
use crate::queue::Queue;
use crate::telling::{Throttle, second};
use std::alloc::Global;
use std::io::{self, ErrorKind, Read, Write};
use std::mem;
use std::net::{Net, OpenStream, SocketAddr};
use std::time::Clock;
use undo_base::{LAST_MOMENT, NoMemory, Text};
use undo_outside::{Event, Role, What};

/// The seats of the connections, whose numbers are 1 to this.
const SEATS: usize = 1000;

/// The first so many are for all, the others for the console alone.
const SEATS_FOR_ALL: usize = 984;

/// The most visits of a round: the listeners, those that were called, and a turn through all seats.
const MOST_VISITS: usize = 2005;

/// The most bytes of one event.
const MOST_BYTES: usize = 4096;

/// So many rounds without an event, with a wait after each, give an idle one, even where the clock can't be read.
const MOST_ROUNDS: u64 = 2048;

/// After so many milliseconds without an event an idle one is given.
const IDLE: u64 = 1000;

/// After so many milliseconds all seats are gone through, for those whose connection ends.
const SWEEP: u64 = 1000;

/// Each time that they were gone through so often the others are visited too, whatever the system tells of them.
const WHOLE_SWEEP: u64 = 8;

/// A place for a connection, whose number is that of the place, counted from 1.
#[derive(Drop)]
struct Seat<S> {
    connection: Option<Connection<S>>,
}

impl<S: Drop> Seat<S> {
    /// Nobody has the seat any more where its connection is over. Answers whether it was.
    fn free(&mut self) -> bool
        ensures over { IfSome self.old.connection (λ connection. connection.is_over ≡ true → self.new.connection ≡ None) }
        ensures kept { IfSome self.old.connection (λ connection. connection.is_over ≡ false → self.new.connection ≡ self.old.connection) }
        ensures empty { IsNone self.old.connection → self.new.connection ≡ None }
        ensures same { SatBefore self.old self.new }
    {
        let is_over = match &self.connection {
            Some(connection) => connection.is_over(),
            None => false,
        };
        if is_over {
            let gone = self.connection.take();
            drop(gone);
        }
        is_over
    }
}

impl<S: Read + Write + OpenStream + Drop> Seat<S> {
    /// Sends a string over its connection. Answers whether it may still arrive whole.
    fn send(&mut self, bytes: &[u8]) -> Result<bool, NoMemory>
        ensures { result ≡ Ok true → IsSent S.contents bytes.now self.old self.new }
    {
        match &mut self.connection {
            Some(connection) => connection.send(bytes),
            None => Ok(false),
        }
    }

    /// Sends what waits for its connection, and takes what came over it.
    fn receive(&mut self, now: u64, buf: &mut [u8], room: &mut Vec<u8>) -> Received
        ensures given { (count : ℕ) → result ≡ came.Bytes count → Gives S.contents S.remaining self.old buf.new count }
        ensures left { result ≡ came.Left → IsLeft self.new }
        ensures one_search { (count : ℕ) → result ≡ came.Bytes count → IsOneSearchAt self.old self.new buf.new count }
    {
        match &mut self.connection {
            Some(connection) => connection.receive(now / 1000, buf, room),
            None => Received::Nothing,
        }
    }

    fn is_console(&self) -> bool {
        match &self.connection {
            Some(connection) => connection.is_console(),
            None => false,
        }
    }

    /// What is spoken over its connection, and where the other side is.
    fn reader(&self) -> Option<(&'static str, SocketAddr)> {
        match &self.connection {
            Some(connection) => Some((connection.role().name(), connection.peer()?)),
            None => None,
        }
    }

    /// Its connection was active at a visit in which that came.
    fn is_active(&self, received: &Received) -> bool {
        let has_moved = match &self.connection {
            Some(connection) => connection.has_moved(),
            None => false,
        };
        has_moved || !matches!(received, Received::Nothing)
    }

    /// Ends its connection, if there is one.
    fn end(&mut self, now: u64)
        ensures { EndsConnection self.old self.new }
    {
        if let Some(connection) = &mut self.connection {
            connection.end(now / 1000);
        }
    }
}

/// Whose turn it is in a round.
enum Visit {
    /// That of the listener at a place.
    Listener(usize),
    /// That of the next that was called, which is called again where its connection is active.
    Called,
    /// That of the next of all seats.
    Other,
    /// Nobody's: the round is over.
    Over,
}

#[derive(Drop)]
pub(crate) struct Sockets<R: Net> {
    rt: R,
    alloc: Global,
    /// The ports of SMTP, IMAP and HTTP that are asked for, and that of POP3.
    ports: Option<(u16, u16, u16)>,
    pop: Option<u16>,
    /// What listens there, from the first event that is asked for on.
    listeners: Option<Listeners<R::Listener>>,
    seats: Vec<Seat<R::Stream>>,
    /// Where the next bytes are read into.
    spare: Vec<u8>,
    /// Where those are kept that a SEARCH leaves for later.
    room: Vec<u8>,
    /// The seats that may have something.
    queue: Queue,
    /// The listener that is looked at next, the first being 0: behind the last until somebody may wait there.
    listener: usize,
    /// When the system was last asked what there is, in milliseconds of a clock that is not set back.
    looked: u64,
    /// When all seats were last begun to be gone through, in milliseconds of that clock, and how often they were.
    swept: u64,
    sweeps: u64,
    /// How many of them were gone through since.
    passed: usize,
    /// The seat that is gone through next.
    place: usize,
    /// The moment of the last event.
    at: u64,
    /// The seat of a console whose answer goes out before the next event.
    answered: Option<usize>,
    /// Lets the lines pass on logins that were refused, and on connections that can't be taken.
    refusals: Throttle,
    lost: Throttle,
}

impl<R: Net + Clock + Eprint> Sockets<R> {
    /// For these ports, on which nothing listens yet.
    pub(crate) fn open(
        rt: R,
        alloc: Global,
        ports: Option<(u16, u16, u16)>,
        pop: Option<u16>,
    ) -> Sockets<R>
        ensures { (result.ports ≡ ports) × (result.pop ≡ pop) }
    {
        Sockets {
            rt,
            alloc,
            ports,
            pop,
            listeners: None,
            seats: Vec::new(alloc),
            spare: Vec::new(alloc),
            room: Vec::new(alloc),
            queue: Queue::new(alloc),
            listener: 0,
            looked: 0,
            swept: 0,
            sweeps: 0,
            passed: SEATS,
            place: 0,
            at: 0,
            answered: None,
            refusals: Throttle::new(),
            lost: Throttle::new(),
        }
    }

    /// Listens on its ports, if it does not yet. Answers whether it listens: without ports, or where one can't be had, it does
    /// not.
    pub(crate) fn listen(&mut self) -> Result<bool, NoMemory>
        ensures listens { IsNone self.old.listeners → IfSome self.new.listeners (λ it. IfSome self.old.ports (λ ports. AskedFor ports self.old.pop it)) }
        ensures others { self.new ≡ record self.old { listeners = self.new.listeners } }
    {
        if self.listeners.is_some() {
            return Ok(true);
        }
        let Some(ports) = self.ports else {
            return Ok(false);
        };
        let listeners = Listeners::open(&self.rt, self.alloc, ports, self.pop)?;
        let before = mem::replace(&mut self.listeners, listeners);
        drop(before);
        Ok(self.listeners.is_some())
    }

    /// The next event, an idle one after about a second without; or none at all where nothing listens.
    pub(crate) fn next(&mut self) -> Result<Option<Event>, NoMemory> {
        if !self.listen()? {
            return Ok(None);
        }
        self.make_ready()?;
        self.tell_answered();
        let begun = self.millis();
        for _ in 0..MOST_ROUNDS {
            let now = self.millis();
            if let Some(event) = self.go_round(now) {
                return Ok(Some(event));
            }
            let quiet = now.saturating_sub(begun);
            if quiet >= IDLE {
                break;
            }
            match self.end_round(quiet) {
                Ok(()) => {}
                Err(error) => {
                    drop(error);
                    return Ok(None);
                }
            }
        }
        Ok(Some(self.event(0, What::Idle)))
    }

    /// Gives a console that was answered its answer, and ends its connection.
    pub(crate) fn tell_answered(&mut self) {
        if let Some(place) = self.answered.take() {
            let now = self.millis();
            let _heard = self.visit(place, now);
        }
    }

    /// Waits until there is something, and begins the next round. This is so many milliseconds after the last event. Each second
    /// all seats are gone through, and the listeners tried again, where no seat was free or a connection could not be taken.
    fn end_round(&mut self, quiet: u64) -> io::Result<()> {
        self.hear(self.pause(quiet))?;
        let now = self.millis();
        self.looked = now;
        self.queue.begin_round();
        if now.saturating_sub(self.swept) >= SWEEP {
            self.swept = now;
            self.sweeps = self.sweeps.wrapping_add(1);
            self.passed = 0;
            self.listener = 0;
        }
        Ok(())
    }

    /// How long to wait for something, in milliseconds.
    fn pause(&self, quiet: u64) -> u64
        ensures { result ≡ longest_wait self.now.queue quiet }
    {
        if self.queue.is_empty() {
            IDLE.saturating_sub(quiet)
        } else {
            0
        }
    }

    /// Waits until the system tells of something, for so many milliseconds at most, and calls the seats of which it does.
    fn hear(&mut self, millis: u64) -> io::Result<()> {
        let Some(listeners) = &mut self.listeners else {
            return Ok(());
        };
        listeners.readiness.wait(millis)?;
        for event in listeners.readiness.woken() {
            let place = event.token().0;
            if place < SEATS {
                self.queue.wake(place);
            } else {
                self.listener = 0;
            }
        }
        Ok(())
    }

    /// Takes all the memory that the next event may need.
    fn make_ready(&mut self) -> Result<(), NoMemory> {
        if self.spare.is_empty() {
            self.spare = vec![in self.alloc; 0; MOST_BYTES]?;
        }
        if self.room.len() < MOST_BYTES {
            self.room = vec![in self.alloc; 0; MOST_BYTES]?;
        }
        if self.seats.is_empty() {
            self.seats = make_seats(self.alloc)?;
            self.queue.make(SEATS)?;
        }
        Ok(())
    }

    /// Goes on with the round until one has an event, or the round is over. In each millisecond the system is asked, so that
    /// whoever comes is taken in before others are heard.
    fn go_round(&mut self, now: u64) -> Option<Event> {
        if now != self.looked {
            self.looked = now;
            let _heard_later = self.hear(0);
        }
        for _ in 0..MOST_VISITS {
            let event = match self.turn() {
                Visit::Listener(index) => self.visit_listener(index),
                Visit::Called => match self.queue.next() {
                    Some(place) => self.receive(place, now),
                    None => None,
                },
                Visit::Other => self.visit_other(now),
                Visit::Over => return None,
            };
            match event {
                Some(event) => return Some(event),
                None => {}
            }
        }
        None
    }

    /// In a round come the listeners, then all that were called, and then, where it is time, those that nobody called.
    fn turn(&self) -> Visit {
        match self.listener {
            index if self.role_at(index).is_some() => Visit::Listener(index),
            _ if self.queue.is_due() => Visit::Called,
            _ if self.passed < SEATS => Visit::Other,
            _ => Visit::Over,
        }
    }

    /// A listener stays next until nobody waits there.
    fn visit_listener(&mut self, index: usize) -> Option<Event> {
        let event = self.accept(index);
        if event.is_none() {
            self.listener = self.listener.saturating_add(1);
        }
        event
    }

    /// Whose seat's turn it is, which is then that of the seat behind.
    fn go_on(&mut self) -> usize
        ensures turn { result ≡ self.old.place }
        ensures next { self.new ≡ record self.old { place = spec.seat_behind self.old.place; passed = self.new.passed } }
    {
        let place = self.place;
        self.place = seat_behind(place);
        self.passed = self.passed.saturating_add(1);
        place
    }

    /// Goes to the next seat, and visits it where its connection ends, or the others are visited too.
    fn visit_other(&mut self, now: u64) -> Option<Event> {
        let place = self.go_on();
        let connection = self.seats.get(place)?.connection.as_ref()?;
        let is_whole = self.sweeps % WHOLE_SWEEP == 0;
        if self.queue.has(place) || !is_whole && !connection.is_ending() {
            return None;
        }
        self.receive(place, now)
    }

    /// What is spoken at the port of a listener, if it is that of one.
    fn role_at(&self, index: usize) -> Option<Role>
        ensures { result ≡ option_map (λ row. row.0) (option_and_then (row_at index) self.now.listeners) }
    {
        let Some(listeners) = &self.listeners else {
            return None;
        };
        match listeners.at(index) {
            Some(port) => Some(port.role()),
            None => None,
        }
    }

    /// Takes in a connection that waits at a port, under the lowest free number. The last sixteen are the console's.
    fn accept(&mut self, index: usize) -> Option<Event>
        ensures { IfSome result (λ event. (row : Row) × (place : ℕ) × (option_and_then (row_at index) self.old.listeners ≡ Some row)
            × (event.what ≡ Joined row.0) × (event.conn ≡ place + 1) × (place < seats.seats_of row.0)
            × (position is_free self.old.seats.items ≡ Some place) × Turns place (Fills row) self.old.seats.items self.new.seats.items) }
    {
        let Some(role) = self.role_at(index) else {
            return None;
        };
        let Some(place) = self.free_seat(role) else {
            return None;
        };
        let Some(number) = number_of(place) else {
            return None;
        };
        let Some(arrived) = self.arrived(index) else {
            return None;
        };
        if !self.seat(place, arrived) {
            return None;
        }
        Some(self.event(number, What::Joined(role)))
    }

    /// The lowest free seat, if a connection of the role may sit there.
    fn free_seat(&self, role: Role) -> Option<usize>
        ensures { IfSome result (λ place. (place < seats.seats_of role) × (position is_free self.now.seats.items ≡ Some place)) }
    {
        let Some(place) = first_free(&self.seats) else {
            return None;
        };
        if place < seats_of(role) {
            Some(place)
        } else {
            None
        }
    }

    /// Gives a connection that came a seat. Answers whether it sits there now.
    fn seat(&mut self, place: usize, arrived: Arrived<R::Stream>) -> bool
        ensures { result ≡ true → Turns place (Fills (arrived.role, arrived.port)) self.old.seats.items self.new.seats.items }
    {
        if !self.attends(&arrived.stream, place) {
            drop(arrived);
            return false;
        }
        let connection = match Connection::new(self.alloc, arrived) {
            Ok(connection) => connection,
            Err(error) => {
                drop(error);
                return false;
            }
        };
        let Some(seat) = self.seats.get_mut(place) else {
            drop(connection);
            return false;
        };
        let before = mem::replace(&mut seat.connection, Some(connection));
        drop(before);
        self.queue.mark_active(place);
        true
    }

    /// The system tells of this connection from now on. Answers whether it does.
    fn attends(&mut self, stream: &R::Stream, place: usize) -> bool
        ensures { self.new ≡ record self.old { lost = self.new.lost } }
    {
        let Some(listeners) = &self.listeners else {
            return false;
        };
        match listeners.readiness.add(stream, place) {
            Ok(()) => true,
            Err(error) => {
                self.tell_lost(&error);
                false
            }
        }
    }

    /// The next connection that waits at the port of a listener, if one does.
    fn arrived(&mut self, index: usize) -> Option<Arrived<R::Stream>>
        ensures row { IfSome result (λ arrived. option_and_then (row_at index) self.old.listeners ≡ Some (arrived.role, arrived.port)) }
        ensures others { self.new ≡ record self.old { lost = self.new.lost } }
    {
        let Some(listeners) = &self.listeners else {
            return None;
        };
        let Some(port) = listeners.at(index) else {
            return None;
        };
        match port.accept() {
            Ok(arrived) => Some(arrived),
            Err(error) => {
                self.tell_lost(&error);
                None
            }
        }
    }

    /// Says why a connection can't be taken, unless it is that none waits.
    fn tell_lost(&mut self, why: &io::Error)
        ensures { self.new ≡ record self.old { lost = self.new.lost } }
    {
        if matches!(why.kind(), ErrorKind::WouldBlock) {
            return;
        }
        if self.lost.pass(second(&self.rt)).is_some() {
            let _told = eprintln!(self.rt; "undomail: a connection cannot be taken: {why}");
        }
    }

    /// Says that a login was refused, and to whom: a line a second at most, which counts those that got none.
    fn tell_refused(&mut self, place: usize)
        ensures { self.new ≡ record self.old { refusals = self.new.refusals } }
    {
        let Some(seat) = self.seats.get(place) else {
            return;
        };
        let Some((whose, peer)) = seat.reader() else {
            return;
        };
        if let Some(others) = self.refusals.pass(second(&self.rt)) {
            let _told = eprintln!(self.rt;
                "undomail: wrong password over {whose} from {peer}, and {others} since the last such line"
            );
        }
    }

    /// Sends what waits for a seat's connection, and tells what came over it.
    fn receive(&mut self, place: usize, now: u64) -> Option<Event>
        ensures numbered { IfSome result (λ event. event.conn ≡ place + 1) }
        ensures told { IfSome result (λ event. Hears R.Stream.contents R.Stream.remaining place event.what self.old.seats.items self.new.seats.items) }
    {
        let number = number_of(place)?;
        let received = self.visit(place, now)?;
        let what = self.what_came(received)?;
        Some(self.event(number, what))
    }

    /// Sends what waits for a seat's connection, and takes what came over it into the buffer.
    fn visit(&mut self, place: usize, now: u64) -> Option<Received>
        ensures { IfSome result (λ received. Turns place (Receives R.Stream.contents R.Stream.remaining self.new.spare.items received) self.old.seats.items self.new.seats.items) }
    {
        let seat = self.seats.get_mut(place)?;
        let received = seat.receive(now, &mut self.spare, &mut self.room);
        let is_active = seat.is_active(&received);
        let is_left = seat.free();
        self.settle(place, is_active, is_left);
        Some(received)
    }

    /// Ends a visit, at which the seat's connection was active or not, and was left or not: then whoever waits at a port may
    /// have the seat.
    fn settle(&mut self, place: usize, is_active: bool, is_left: bool)
        ensures seats { self.new.seats ≡ self.old.seats }
        ensures spare { self.new.spare ≡ self.old.spare }
    {
        if is_active {
            self.queue.mark_active(place);
        }
        if is_left {
            self.listener = 0;
        }
    }

    /// What an event tells of what came into the buffer. This goes with its first bytes: none is copied, and no memory is taken.
    fn what_came(&mut self, received: Received) -> Option<What>
        ensures told { result ≡ told_of received self.old.spare.items }
        ensures others { self.new ≡ record self.old { spare = self.new.spare } }
    {
        match received {
            Received::Nothing => None,
            Received::Bytes(count) => {
                let mut bytes = mem::replace(&mut self.spare, Vec::new(self.alloc));
                bytes.truncate(count.min(MOST_BYTES));
                Some(What::Bytes(Text::from_vec(bytes)))
            }
            Received::Left => Some(What::Left),
        }
    }

    pub(crate) fn alloc(&self) -> Global {
        self.alloc
    }

    /// Says where it serves, how many items there are, if that was told, and how long it took since it was made.
    pub(crate) fn tell_begin(&self, made: u64, items: Option<u64>) {
        let Some(listeners) = &self.listeners else {
            return;
        };
        let took = self.millis().saturating_sub(made);
        let _told = match items {
            Some(items) => {
                eprintln!(self.rt;
                    "undomail: serves {listeners}: {items} items, opened in {took} ms"
                )
            }
            None => eprintln!(self.rt; "undomail: serves {listeners}, opened in {took} ms"),
        };
    }

    /// Says that serving ends, if it had begun.
    pub(crate) fn tell_end(&self, status: u8) {
        if self.listeners.is_some() {
            let _told = eprintln!(self.rt; "undomail: ends with status {status}");
        }
    }

    /// What happened, now. Where the clock can't be read, it happened when the event before did.
    pub(crate) fn event(&mut self, conn: u32, what: What) -> Event
        ensures conn { result.conn ≡ conn }
        ensures what { result.what ≡ what }
        ensures others { self.new ≡ record self.old { at = self.new.at } }
    {
        if let Ok(time) = self.rt.since_1970() {
            self.at = LAST_MOMENT.min(time.as_secs());
        }
        Event {
            conn,
            at: self.at,
            what,
        }
    }

    /// Milliseconds of a clock that is not set back.
    pub(crate) fn millis(&self) -> u64 {
        match self.rt.monotonic() {
            Ok(time) => time
                .as_secs()
                .saturating_mul(1000)
                .saturating_add(time.subsec_millis() as u64),
            Err(_) => 0,
        }
    }

    /// Sends a string over a connection. Answers whether it may still arrive whole.
    pub(crate) fn send(&mut self, conn: u32, bytes: &[u8]) -> Result<bool, NoMemory>
        ensures { result ≡ Ok true → (place : ℕ) × (spec.place_of conn ≡ Some place) × Turns place (IsSent R.Stream.contents bytes.now) self.old.seats.items self.new.seats.items }
    {
        let Some(place) = place_of(conn) else {
            return Ok(false);
        };
        let refused = self.refused(place);
        let sent = self.send_at(place, bytes);
        if self.refused(place) > refused {
            self.tell_refused(place);
        }
        sent
    }

    /// Sends a string over the connection of a seat.
    fn send_at(&mut self, place: usize, bytes: &[u8]) -> Result<bool, NoMemory>
        ensures { result ≡ Ok true → Turns place (IsSent R.Stream.contents bytes.now) self.old.seats.items self.new.seats.items }
    {
        match self.seats.get_mut(place) {
            Some(seat) => {
                self.queue.call(place);
                seat.send(bytes)
            }
            None => Ok(false),
        }
    }

    /// How many logins the connection of a seat was refused.
    fn refused(&self, place: usize) -> usize {
        let Some(seat) = self.seats.get(place) else {
            return 0;
        };
        match &seat.connection {
            Some(connection) => connection.refused(),
            None => 0,
        }
    }

    /// Ends a connection, if there is one of this number. A console's has its answer and its end before the next event.
    pub(crate) fn close(&mut self, conn: u32)
        ensures { IfSome (spec.place_of conn) (λ place. place < length self.old.seats.items → Turns place EndsConnection self.old.seats.items self.new.seats.items) }
    {
        let now = self.millis();
        let Some(place) = place_of(conn) else {
            return;
        };
        if let Some(seat) = self.seats.get_mut(place) {
            let is_console = seat.is_console();
            seat.end(now);
            self.queue.call(place);
            if is_console {
                self.answered = Some(place);
            }
        }
    }
}

/// The seat whose turn comes behind that of a seat.
fn seat_behind(place: usize) -> usize
    ensures { result ≡ spec.seat_behind place }
{
    if place < SEATS - 1 { place + 1 } else { 0 }
}

/// The seats at which a connection of a role may sit are the first so many.
fn seats_of(role: Role) -> usize
    ensures { result ≡ seats.seats_of role }
{
    match role {
        Role::Smtp => SEATS_FOR_ALL,
        Role::Imap => SEATS_FOR_ALL,
        Role::Http => SEATS,
        Role::Pop => SEATS_FOR_ALL,
    }
}

/// The number of a seat's connection: they are counted from 1.
fn number_of(place: usize) -> Option<u32>
    ensures some { IfSome result (λ number. number ≡ place + 1) }
    ensures none { IfNone result (4294967295 ≤ place) }
{
    let number = place.checked_add(1)?;
    if number > u32::MAX as usize {
        return None;
    }
    Some(number as u32)
}

/// The seat of the connection of a number.
fn place_of(number: u32) -> Option<usize>
    ensures { result ≡ spec.place_of number }
{
    (number as usize).checked_sub(1)
}

/// The lowest seat at which nobody sits.
fn first_free<S>(seats: &[Seat<S>]) -> Option<usize>
    ensures { result ≡ position is_free seats.now }
{
    seats.iter().position(|seat| seat.connection.is_none())
}

/// Seats for all numbers, from 1 on.
fn make_seats<S: Drop>(alloc: Global) -> Result<Vec<Seat<S>>, NoMemory> {
    let mut seats = Vec::new(alloc);
    match add_seats(&mut seats) {
        Ok(()) => Ok(seats),
        Err(NoMemory) => {
            drop(seats);
            Err(NoMemory)
        }
    }
}

fn add_seats<S: Drop>(seats: &mut Vec<Seat<S>>) -> Result<(), NoMemory> {
    for _ in 0..SEATS {
        seats.push(Seat { connection: None })?;
    }
    Ok(())
}
