//! One connection, of which the other side may take its time.
//!
//! A connection that was closed here, or that left, keeps its number until all that was sent is taken and the other side has
//! left. It keeps it for 10 seconds at most in which it takes nothing. What it still sends is read and dropped, so that an answer
//! reaches a client that sends on.
//!
//! A client that closes its side alone has left: what it sent before is served, and what was answered by then is still sent.
//!
//! Of what was read of an IMAP client one event tells one SEARCH at most (`line`). What follows is kept, and told before more is read.
//! So the octets that come are the stream's, in its order. What is kept of a connection that ends is dropped.
//!
//! What a stream took or gave is said over std's `contents` and `remaining`, of which the sockets of this machine tell nothing.
//! That a socket sends what it was written is trusted, as is its system.
ghost use Rattle.std.specs.Prelude.{◌≡◌, ◌⊎◌, ◌<◌, ◌≤◌, ◌+◌, ℕ, List, [], ◌++◌, Option, true, false, Ok, IfOk, IsSome, IfSome, OnErr, is_err, length, take};
ghost use Rattle.std.specs.Result.{result_unwrap_or};
ghost use Rattle.std.specs.Io.KnownBytes.{prepend_known};
ghost use Rattle.undo_outside.specs.declared.event.Role.TheVariants.{Imap};
ghost use Rattle.host_outside.specs.Searches.{fresh};
ghost use Rattle.host_outside.specs.Streams.{IsExchanged, IsGiven, IsMissed, IsOneSearch, IsPassedOn, IsTaken, IsWhole, LingersOn, Stays};
ghost use Rattle.host_outside.specs.declared.connection.Received.TheVariants.{Nothing, Bytes, Left};

use crate::line::{Line, event_in};
use crate::listeners::Arrived;
use crate::logins::logins_in;
use crate::waiting::Waiting;
use std::alloc::Global;
use std::io::{self, ErrorKind, Read, Write};
use std::net::{OpenStream, Shutdown, SocketAddr};
use undo_base::NoMemory;
use undo_outside::Role;

/// Where more bytes than these wait, a connection is sent nothing more.
const MOST_WAITING: usize = 67_108_864;

/// Where more bytes than these wait, a connection is not read.
const MOST_UNREAD: usize = 1_048_576;

/// For so many seconds a connection that ends may take none of what waits.
const LINGER: u64 = 10;

/// What came over a connection.
#[derive(Drop)]
pub(crate) enum Received {
    Nothing,
    /// So many bytes, into the buffer.
    Bytes(usize),
    /// The other side left. What waits may still be sent.
    Left,
}

#[derive(Drop)]
pub(crate) struct Connection<S> {
    stream: S,
    /// The port at which it came.
    port: u16,
    role: Role,
    waiting: Waiting,
    /// What was read of it and is still to be told.
    kept: Waiting,
    /// How far its line was told, where it is an IMAP client's.
    line: Line,
    /// Where it was closed here or the other side left: the second at which it is given up.
    ends_at: Option<u64>,
    /// All that waited was sent and the other side has left, or it was given up.
    is_over: bool,
    /// Some of what waits was taken at the last visit, or something came that is not wanted any more.
    has_moved: bool,
    /// The stream refused the last bytes that it was given, and will not take what waits.
    is_broken: bool,
    /// An IMAP client has logged in.
    is_known: bool,
    /// How many logins were refused before one was done.
    refused: usize,
}

impl<S> Connection<S> {
    pub(crate) fn is_over(&self) -> bool
        ensures { result ≡ self.now.is_over }
    {
        self.is_over
    }

    /// It was closed here, or the other side left.
    pub(crate) fn is_ending(&self) -> bool {
        self.ends_at.is_some()
    }

    /// How many logins were refused before one was done.
    pub(crate) fn refused(&self) -> usize {
        self.refused
    }

    pub(crate) fn role(&self) -> Role {
        self.role
    }

    /// It is the operator's. What it is told goes out behind the event, with its end: so what answers a stop is read once
    /// the store is closed.
    pub(crate) fn is_console(&self) -> bool {
        matches!(self.role, Role::Http)
    }

    /// Counts the logins that a string to an IMAP client refuses. Nobody is told a text before one is done.
    fn note_logins(&mut self, bytes: &[u8])
        ensures { self.new ≡ record self.old { is_known = self.new.is_known; refused = self.new.refused } }
    {
        if self.is_known {
            return;
        }
        let (refused, is_known) = logins_in(self.role, bytes);
        self.refused = self.refused.saturating_add(refused);
        self.is_known = is_known;
    }
}

impl<S: Read + Write + OpenStream> Connection<S> {
    /// A connection that has just come. From now on no call on it waits.
    pub(crate) fn new(alloc: Global, arrived: Arrived<S>) -> io::Result<Connection<S>>
    where
        S: Drop,
        ensures { IfOk result (λ it. (it.role ≡ arrived.role) × (it.port ≡ arrived.port) × (it.kept ≡ []) × (it.line ≡ fresh)) }
    {
        let Arrived { stream, role, port } = arrived;
        stream.set_nonblocking(true)?;
        stream.set_nodelay(true)?;
        Ok(Connection {
            stream,
            port,
            role,
            waiting: Waiting::new(alloc),
            kept: Waiting::new(alloc),
            line: Line::fresh(),
            ends_at: None,
            is_over: false,
            has_moved: false,
            is_broken: false,
            is_known: false,
            refused: 0,
        })
    }

    /// Where the other side is.
    pub(crate) fn peer(&self) -> Option<SocketAddr> {
        self.stream.peer_addr().ok()
    }

    pub(crate) fn has_moved(&self) -> bool {
        self.has_moved
    }

    /// Sends a string, or keeps what is not taken yet. Answers whether it may still arrive whole. Then the stream took the front
    /// of what waited and the string behind it, the rest of these waits now, and the stream did not refuse them.
    pub(crate) fn send(&mut self, bytes: &[u8]) -> Result<bool, NoMemory>
        ensures stays { Stays self.old self.new }
        ensures whole { result ≡ Ok true → IsWhole S.contents bytes.now self.old self.new }
        // It is missed only where the connection has ended, where more than 67,108,864 bytes wait, or where the stream refused.
        ensures missed { result ≡ Ok false → IsMissed self.old self.new }
        ensures unsent { OnErr result (self.new ≡ self.old) }
    {
        let has_ended = self.ends_at.is_some();
        if has_ended {
            return Ok(false);
        }
        if self.waiting.len() > MOST_WAITING {
            return Ok(false);
        }
        self.waiting.push(bytes)?;
        self.note_logins(bytes);
        Ok(self.begin())
    }

    /// Gives the stream what waits; a console's waits for its next visit. Answers whether the stream refused nothing so far.
    #[tactic(auto, using(crate::proofs::Known::kept, crate::proofs::Known::grown_by_none))]
    fn begin(&mut self) -> bool
        ensures stays { Stays self.old self.new }
        ensures taken { result ≡ true → IsPassedOn S.contents self.old self.new }
        ensures refused { result ≡ false → self.new.is_broken ≡ true }
    {
        if self.is_console() {
            return !self.is_broken;
        }
        self.flush().is_ok()
    }

    /// A visit: sends what waits, and reads what came, which may be kept in the room that is lent. Nothing comes any more of one
    /// that has ended, and one that left has ended.
    pub(crate) fn receive(&mut self, now: u64, buf: &mut [u8], room: &mut Vec<u8>) -> Received
        ensures ended { IsSome self.old.ends_at → result ≡ Nothing }
        ensures left { result ≡ Left → IsSome self.new.ends_at }
        ensures stays { IsSome self.old.ends_at → IsSome self.new.ends_at }
        ensures came { (count : ℕ) → result ≡ Bytes count → IsExchanged S.contents S.remaining self.old self.new buf.new (Bytes count) }
        // Of an IMAP client comes one SEARCH at most.
        ensures one_search { self.old.role ≡ Imap → (count : ℕ) → result ≡ Bytes count → IsOneSearch self.old self.new buf.new count }
        // Nothing comes where more than 1,048,576 bytes wait.
        ensures unread { 1048576 < length self.new.waiting → (count : ℕ) → result ≡ Bytes count → ⊥ }
        // One that ends is given up once it has taken nothing for ten seconds.
        ensures given_up { IfSome self.old.ends_at (λ end. end ≤ now → self.new.has_moved ≡ false → self.new.is_over ≡ true) }
        ensures lingers { LingersOn now self.old.ends_at self.new.ends_at }
    {
        self.has_moved = false;
        if self.ends_at.is_some() {
            self.go_on_ending(now, buf);
            return Received::Nothing;
        }
        let received = self.exchange(buf, room);
        if matches!(&received, Received::Left) {
            self.end(now);
            self.go_on_ending(now, buf);
        }
        received
    }

    /// Nothing comes of it any more. It is over as soon as it has taken what waits and the other side has left.
    pub(crate) fn end(&mut self, now: u64)
        ensures { IfSome self.new.ends_at (λ end. end ≤ now + 10) × IsSome self.new.ends_at }
    {
        self.ends_at = Some(now.saturating_add(LINGER));
        self.kept.clear();
        if !self.is_console() {
            self.is_over = self.send_last().is_err();
        }
    }

    fn go_on_ending(&mut self, now: u64, buf: &mut [u8])
        ensures ends { IsSome self.old.ends_at → IsSome self.new.ends_at }
        ensures given_up { IfSome self.old.ends_at (λ end. end ≤ now → self.new.has_moved ≡ false → self.new.is_over ≡ true) }
        ensures lingers { LingersOn now self.old.ends_at self.new.ends_at }
    {
        self.is_over = !matches!(self.finish(now, buf), Ok(false));
    }

    /// Sends what waits, and reads until the other side leaves. Answers whether it has, or was given up.
    fn finish(&mut self, now: u64, buf: &mut [u8]) -> io::Result<bool>
        ensures ends { IsSome self.old.ends_at → IsSome self.new.ends_at }
        ensures given_up { IfSome self.old.ends_at (λ end. end ≤ now → self.new.has_moved ≡ false → result ≡ Ok false → ⊥) }
        ensures lingers { LingersOn now self.old.ends_at self.new.ends_at }
    {
        if self.send_last()? > 0 {
            self.ends_at = Some(now.saturating_add(LINGER));
        }
        if self.ends_at.is_some_and(|end| end <= now) {
            return Ok(true);
        }
        match read_some(&mut self.stream, buf) {
            Received::Nothing => Ok(false),
            Received::Bytes(_) => {
                self.has_moved = true;
                Ok(false)
            }
            Received::Left => Ok(self.waiting.len() == 0),
        }
    }

    /// Sends what is taken of what waits, says so once all was sent, and answers how much that was.
    fn send_last(&mut self) -> io::Result<usize>
        ensures stays { self.new.ends_at ≡ self.old.ends_at }
        ensures moved { self.new.has_moved ≡ false → IfOk result (λ count. count ≡ 0) }
    {
        let count = self.flush()?;
        if self.waiting.len() == 0 {
            self.stream.shutdown(Shutdown::Write)?;
        }
        Ok(count)
    }

    /// Sends what waits, and takes what came, unless too much waits.
    #[tactic(auto, using(crate::proofs::Known::kept, crate::proofs::Known::still_to_come))]
    fn exchange(&mut self, buf: &mut [u8], room: &mut Vec<u8>) -> Received
        ensures stays { self.new.ends_at ≡ self.old.ends_at }
        ensures exchanged { IsExchanged S.contents S.remaining self.old self.new buf.new result }
        ensures one_search { self.old.role ≡ Imap → (count : ℕ) → result ≡ Bytes count → IsOneSearch self.old self.new buf.new count }
        ensures unread { 1048576 < length self.new.waiting → (count : ℕ) → result ≡ Bytes count → ⊥ }
    {
        if self.flush().is_err() {
            return Received::Left;
        }
        if self.waiting.len() > MOST_UNREAD {
            return Received::Nothing;
        }
        self.take(buf, room)
    }

    /// Takes what was kept, or else reads what came. Nothing is read where there is no room to keep it.
    #[tactic(auto, using(crate::proofs::Known::kept, crate::proofs::Known::still_to_come, crate::proofs::Known::told_of_new))]
    fn take(&mut self, buf: &mut [u8], room: &mut Vec<u8>) -> Received
        ensures same { self.new ≡ record self.old { stream = self.new.stream; kept = self.new.kept; line = self.new.line } }
        ensures given { IsGiven (prepend_known self.old.kept (S.remaining self.old.stream)) (prepend_known self.new.kept (S.remaining self.new.stream)) buf.new result }
        ensures one_search { self.old.role ≡ Imap → (count : ℕ) → result ≡ Bytes count → IsOneSearch self.old self.new buf.new count }
    {
        if self.kept.len() > 0 {
            return self.take_kept(buf);
        }
        if room.len() < buf.len() {
            return Received::Nothing;
        }
        match read_some(&mut self.stream, buf) {
            Received::Nothing => Received::Nothing,
            Received::Bytes(count) => Received::Bytes(self.tell_and_keep(buf, count, room)),
            Received::Left => Received::Left,
        }
    }

    /// Takes of what was kept.
    fn take_kept(&mut self, buf: &mut [u8]) -> Received
        requires { 0 < length self.old.kept }
        ensures same { self.new ≡ record self.old { kept = self.new.kept; line = self.new.line } }
        ensures given { (u : Option (List ℕ)) → IsGiven (prepend_known self.old.kept u) (prepend_known self.new.kept u) buf.new result }
        ensures one_search { self.old.role ≡ Imap → (count : ℕ) → result ≡ Bytes count → IsOneSearch self.old self.new buf.new count }
    {
        let count = self.kept.len().min(buf.len());
        if count == 0 {
            return Received::Nothing;
        }
        buf[..count].copy_from_slice(&self.kept.bytes()[..count]);
        let told = self.tell(buf, count);
        self.kept.sent(told);
        Received::Bytes(told)
    }

    /// How many of the octets that came are told, of which the others are kept.
    fn tell_and_keep(&mut self, buf: &[u8], count: usize, room: &mut Vec<u8>) -> usize
        requires { (0 < count) × (count ≤ length buf.now) × (length buf.now ≤ length room.old.items) × (self.old.kept ≡ []) }
        ensures same { self.new ≡ record self.old { kept = self.new.kept; line = self.new.line } }
        ensures told { (0 < result) × (result ≤ count) }
        ensures kept { take result buf.now ++ self.new.kept ≡ take count buf.now }
        ensures one_search { self.old.role ≡ Imap → IsOneSearch self.old self.new buf.now result }
    {
        let told = self.tell(buf, count);
        if told < count {
            self.kept.keep(&buf[told..count], room);
        }
        told
    }

    /// How many of the octets that came are told: all, but for an IMAP client's.
    fn tell(&mut self, buf: &[u8], count: usize) -> usize
        requires { (0 < count) × (count ≤ length buf.now) }
        ensures same { self.new ≡ record self.old { line = self.new.line } }
        ensures told { (0 < result) × (result ≤ count) }
        ensures one_search { self.old.role ≡ Imap → IsOneSearch self.old self.new buf.now result }
    {
        if !matches!(self.role, Role::Imap) {
            return count;
        }
        let (told, line) = event_in(self.line, buf, count);
        self.line = line;
        told
    }

    /// Sends what is taken of what waits, and answers how much that was: so much goes from its front. Notes a refusal.
    fn flush(&mut self) -> io::Result<usize>
        ensures stays { Stays self.old self.new }
        ensures sent { IsTaken (result_unwrap_or result 0) self.old.waiting self.new.waiting (S.contents self.old.stream) (S.contents self.new.stream) }
        ensures noted { self.new.is_broken ≡ is_err result }
        ensures moved { self.new.has_moved ≡ false → IfOk result (λ count. count ≡ 0) }
    {
        let count = self.write_waiting();
        self.is_broken = count.is_err();
        count
    }

    /// Writes what waits to the stream, once. None of it taken, where some waits, is a failure.
    #[tactic(auto, using(crate::proofs::Known::kept, crate::proofs::Known::grown_by_none))]
    fn write_waiting(&mut self) -> io::Result<usize>
        ensures stays { Stays self.old self.new }
        ensures sent { IsTaken (result_unwrap_or result 0) self.old.waiting self.new.waiting (S.contents self.old.stream) (S.contents self.new.stream) }
        ensures moved { self.new.has_moved ≡ false → IfOk result (λ count. count ≡ 0) }
    {
        if self.waiting.len() == 0 {
            return Ok(0);
        }
        match self.stream.write(self.waiting.bytes()) {
            Ok(0) => Err(io::Error::from(ErrorKind::WriteZero)),
            Ok(count) => {
                self.waiting.sent(count);
                self.has_moved = true;
                Ok(count)
            }
            Err(error) if is_for_later(&error) => Ok(0),
            Err(error) => Err(error),
        }
    }
}

/// Whether a call has to be made again.
fn is_for_later(error: &io::Error) -> bool {
    matches!(error.kind(), ErrorKind::WouldBlock | ErrorKind::Interrupted)
}

/// Reads what came.
#[tactic(auto, using(crate::proofs::Known::none_lost))]
fn read_some<S: Read>(stream: &mut S, buf: &mut [u8]) -> Received
    ensures { IsGiven (S.remaining stream.old) (S.remaining stream.new) buf.new result }
{
    match stream.read(buf) {
        Ok(0) => Received::Left,
        Ok(count) => Received::Bytes(count),
        Err(error) if is_for_later(&error) => Received::Nothing,
        Err(_) => Received::Left,
    }
}
