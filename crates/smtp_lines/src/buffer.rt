//! The bytes of a stream in memory.
//!
//! A cutter takes the bytes that it gave away out of its buffer when it gives a line, not when bytes come. So never more than
//! half of what is held is given away. Where nothing whole is there it takes away all that was given. What stays came behind the
//! last line, so each byte of it is moved once at most for it.
ghost use Rattle.std.specs.Prelude.{◌≡◌, ◌≢◌, ◌↔◌, ℕ, ◌+◌, ◌-◌, ◌*◌, ◌≤◌, ◌<◌, true, false, [], ◌++◌, length, take, drop, slice_index, nat_lt, None, IfNone, IfSome, IfOk, OnOk, OnErr, ◌∷◌};
ghost use Rattle.smtp_lines.specs.Lines.{is_end, last_byte, lines_of, tail_of, held_of, shortened};
ghost use Rattle.smtp_lines.specs.Holding.{IsKept, marked, seen};
ghost use Rattle.smtp_lines.specs.Passed.{passes};
ghost use Rattle.smtp_lines.specs.Line.{kept_of, smtp_lines_of, FindsLine, TakesLine};

use crate::{MOST_LINE, SmtpLine};
use memchr::memchr;
use std::alloc::Global;
use std::marker::Model;
use undo_base::{NoMemory, Text};

const CR: u8 = 13;

const LF: u8 = 10;

/// The bytes of a stream that were not given as lines yet. They stand behind those that were given, which are never more than half of all.
/// At the first places of them it was seen that no CRLF begins there, so that no later call looks there. Of a line that is too long,
/// `over`, all behind its first `MOST_LINE` bytes was left out, up to those that came after that. Contracts see the stream, and beside it
/// how many bytes are in memory: a buffer has no other field that could keep more.
#[derive(Debug, Drop)]
pub struct Buffer {
    bytes: Vec<u8>,
    given: usize,
    passed: usize,
    over: bool,
}

impl Model for Buffer {
    ghost use Rattle.std.specs.Prelude.{length, ◌≡◌, ◌+◌, ◌≤◌};
    ghost use Rattle.smtp_lines.specs.Holding.{Buffered, IsKept, seen};

    ghost Value = { Buffered };

    ghost use Rattle.smtp_lines.specs.declared.buffer.Buffer.TheInside.{Inside};

    ghost view = { λ b. record { stream = seen b.over b.given b.bytes.items; kept = length b.bytes.items } };

    ghost invariant = { λ b. (b.given + b.given ≤ length b.bytes.items) × IsKept b.over b.given b.passed b.bytes.items ×
        ((other : Inside) → b ≡ record other { bytes = b.bytes; given = b.given; passed = b.passed; over = b.over }) };
}

impl Buffer {
    /// A stream from which nothing has come.
    pub fn new(alloc: Global) -> Buffer
        ensures stream { result.stream ≡ [] }
        ensures kept { result.kept ≡ 0 }
    {
        Buffer {
            bytes: Vec::new(alloc),
            given: 0,
            passed: 0,
            over: false,
        }
    }

    /// Adds bytes to the stream, each of which is kept once.
    pub fn feed(&mut self, bytes: &[u8]) -> Result<(), NoMemory>
        ensures ok { OnOk result (self.new.stream ≡ self.old.stream ++ bytes.now) }
        ensures kept { OnOk result (self.new.kept ≡ self.old.kept + length bytes.now) }
        ensures err { OnErr result (self.new ≡ self.old) }
    {
        self.bytes.extend_from_slice(bytes)?;
        Ok(())
    }

    /// Gives the next line, if a whole one is held. Where none is, no byte is kept but those that are held.
    pub fn next(&mut self, alloc: Global) -> Result<Option<SmtpLine>, NoMemory>
        ensures next { IfOk result (λ line. TakesLine self.old.stream line self.new.stream) }
        ensures none { IfOk result (λ line. (line ≡ None) ↔ (smtp_lines_of self.old.stream ≡ [])) }
        ensures err { OnErr result ((self.new ≡ self.old) × (smtp_lines_of self.old.stream ≢ [])) }
        ensures held { IfOk result (λ line. line ≡ None → held_of self.new.stream ≤ 1048577) }
        ensures kept { IfOk result (λ line. line ≡ None → self.new.kept ≡ held_of self.new.stream) }
        ensures most { IfOk result (λ line. line ≡ None → self.new.kept ≤ 1048577) }
        ensures lets_go { IfOk result (λ line. self.new.kept ≤ self.old.kept) }
    {
        let found = find_line(
            alloc,
            &self.bytes,
            &mut self.given,
            &mut self.passed,
            &mut self.over,
        )?;
        match found {
            None => {
                shorten(&mut self.bytes, &mut self.given, &mut self.over);
                let _held = held_in(&self.bytes, self.given, self.over);
                Ok(None)
            }
            Some(line) => {
                self.given = drop_given(&mut self.bytes, self.given);
                Ok(Some(line))
            }
        }
    }

    /// How many bytes of the stream are kept that were not given as lines. Takes no memory.
    pub fn held(&self) -> usize
        ensures { result ≡ held_of self.now.stream }
    {
        held_in(&self.bytes, self.given, self.over)
    }

    /// How many bytes are in memory: those that are held, and at most as many that were given. Takes no memory.
    pub fn kept(&self) -> usize
        ensures value { result ≡ self.now.kept }
        ensures half { self.now.kept ≤ 2 * held_of self.now.stream }
    {
        let _held = held_in(&self.bytes, self.given, self.over);
        self.bytes.len()
    }
}

/// How many bytes were not given: as many as the stream has that they stand for, where a mark is none.
fn held_in(bytes: &[u8], given: usize, over: bool) -> usize
    requires within { given ≤ length bytes.now }
    requires kept { (passed : ℕ) × IsKept over given passed bytes.now }
    ensures value { result ≡ held_of (seen over given bytes.now) }
    ensures all { result + given ≡ length bytes.now }
{
    if over {
        with_mark(bytes)
    } else {
        unmarked(after(bytes, given))
    }
}

/// How many bytes there are, between which a mark stands.
fn with_mark(bytes: &[u8]) -> usize
    requires { 1048577 ≤ length bytes.now }
    ensures value { result ≡ held_of (marked bytes.now) }
    ensures all { result ≡ length bytes.now }
{
    bytes.len()
}

/// How many bytes there are, of which none is a mark.
fn unmarked(bytes: &[u8]) -> usize
    ensures value { result ≡ held_of bytes.now }
    ensures all { result ≡ length bytes.now }
{
    if bytes.len() > MOST_LINE {
        let _byte = bytes[MOST_LINE];
    }
    bytes.len()
}

/// Takes the next line, if a whole one is held.
fn find_line(
    alloc: Global,
    bytes: &[u8],
    given: &mut usize,
    passed: &mut usize,
    over: &mut bool,
) -> Result<Option<SmtpLine>, NoMemory>
    requires within { given.old ≤ length bytes.now }
    requires kept { IsKept over.old given.old passed.old bytes.now }
    ensures within { given.new ≤ length bytes.now }
    ensures kept { IsKept over.new given.new passed.new bytes.now }
    ensures found { IfOk result (λ line. FindsLine (seen over.old given.old bytes.now) line (seen over.new given.new bytes.now)) }
    ensures none { IfOk result (λ line. (line ≡ None) ↔ (smtp_lines_of (seen over.old given.old bytes.now) ≡ [])) }
    ensures some { IfOk result (λ line. line ≢ None → over.new ≡ false) }
    ensures err { OnErr result ((over.new ≡ over.old) × (given.new ≡ given.old) × (smtp_lines_of (seen over.old given.old bytes.now) ≢ [])) }
{
    if *over {
        end_long(alloc, bytes, given, passed, over)
    } else {
        take_line(alloc, bytes, given, passed)
    }
}

/// Takes a line that is too long, if its end has come.
fn end_long(
    alloc: Global,
    bytes: &[u8],
    given: &mut usize,
    passed: &mut usize,
    over: &mut bool,
) -> Result<Option<SmtpLine>, NoMemory>
    requires over { over.old ≡ true }
    requires kept { IsKept true given.old passed.old bytes.now }
    ensures within { given.new ≤ length bytes.now }
    ensures kept { IsKept over.new given.new passed.new bytes.now }
    ensures found { IfOk result (λ line. FindsLine (marked bytes.now) line (seen over.new given.new bytes.now)) }
    ensures none { IfOk result (λ line. (line ≡ None) ↔ (smtp_lines_of (marked bytes.now) ≡ [])) }
    ensures some { IfOk result (λ line. line ≢ None → over.new ≡ false) }
    ensures err { OnErr result ((over.new ≡ over.old) × (given.new ≡ given.old) × (smtp_lines_of (marked bytes.now) ≢ [])) }
{
    let Some(end) = line_end(after(bytes, MOST_LINE), 0) else {
        return Ok(None);
    };
    let line = long_line(alloc, bytes)?;
    *given = MOST_LINE + (end + 2);
    *passed = usize::MIN;
    *over = false;
    Ok(Some(line))
}

/// The line that is too long with which bytes begin.
fn long_line(alloc: Global, bytes: &[u8]) -> Result<SmtpLine, NoMemory>
    requires { MOST_LINE ≤ length bytes.now }
    ensures { IfOk result (λ line. line ≡ record { bytes = take 1048576 bytes.now; long = true }) }
{
    Ok(SmtpLine {
        bytes: Text::of(alloc, &bytes[..MOST_LINE])?,
        long: true,
    })
}

/// Takes the front away that was given, and leaves out what is not needed of a line that is too long. The bytes that stay came behind the last
/// line, or were shortened before, so that each is moved once at most for one that came.
fn shorten(bytes: &mut Vec<u8>, given: &mut usize, over: &mut bool)
    requires within { given.old ≤ length bytes.old.items }
    requires none { lines_of (seen over.old given.old bytes.old.items) ≡ [] }
    requires kept { (passed : ℕ) × IsKept over.old given.old passed bytes.old.items }
    ensures given { given.new ≡ 0 }
    ensures same { seen over.new given.new bytes.new.items ≡ shortened (seen over.old given.old bytes.old.items) }
    ensures kept { (passed : ℕ) → IsKept over.old given.old passed bytes.old.items → IsKept over.new given.new passed bytes.new.items }
    ensures most { length bytes.new.items ≤ 1048577 }
    ensures fewer { length bytes.new.items ≤ length bytes.old.items }
{
    drop_front(bytes, *given);
    *given = 0;
    if is_over(bytes) {
        leave_out(bytes);
        *over = true;
    }
}

/// Leaves out all between the first bytes and the last.
fn leave_out(bytes: &mut Vec<u8>)
    requires { 1048577 < length bytes.old.items }
    ensures { bytes.new.items ≡ take 1048576 bytes.old.items ++ last_byte bytes.old.items }
{
    let last = last_place(bytes);
    drop_middle(bytes, MOST_LINE, last);
}

/// Whether bytes without a CRLF are more than a line of `MOST_LINE` bytes and the first byte of its end.
fn is_over(bytes: &[u8]) -> bool
    ensures { result ≡ nat_lt 1048577 (length bytes.now) }
{
    bytes.len() > MOST_LINE + 1
}

/// Where the last byte stands.
fn last_place(bytes: &[u8]) -> usize
    requires { 0 < length bytes.now }
    ensures { result + 1 ≡ length bytes.now }
{
    bytes.len() - 1
}

/// Takes the first bytes away.
fn drop_front(bytes: &mut Vec<u8>, count: usize)
    requires { count ≤ length bytes.old.items }
    ensures { bytes.new.items ≡ drop count bytes.old.items }
{
    let left = bytes.len() - count;
    bytes.rotate_left(count);
    bytes.truncate(left);
}

/// Takes the bytes away from one place to another.
fn drop_middle(bytes: &mut Vec<u8>, from: usize, to: usize)
    requires order { from ≤ to }
    requires within { to ≤ length bytes.old.items }
    ensures { bytes.new.items ≡ take from bytes.old.items ++ drop to bytes.old.items }
{
    bytes.drain(from..to);
}

/// Takes the next line of bytes whose front was given away. Where none is whole, all bytes but the last were looked at.
fn take_line(
    alloc: Global,
    bytes: &[u8],
    given: &mut usize,
    passed: &mut usize,
) -> Result<Option<SmtpLine>, NoMemory>
    requires within { given.old ≤ length bytes.now }
    requires passed { passes passed.old (drop given.old bytes.now) ≡ true }
    ensures within { given.new ≤ length bytes.now }
    ensures passed { passes passed.new (drop given.new bytes.now) ≡ true }
    ensures next { IfOk result (λ line. FindsLine (drop given.old bytes.now) line (drop given.new bytes.now)) }
    ensures none { IfOk result (λ line. (line ≡ None) ↔ (smtp_lines_of (drop given.old bytes.now) ≡ [])) }
    ensures err { OnErr result ((given.new ≡ given.old) × (smtp_lines_of (drop given.old bytes.now) ≢ [])) }
    ensures searched { IfOk result (λ line. line ≡ None → passed.new ≡ length (drop given.new bytes.now) - 1) }
{
    let held = &bytes[*given..];
    let Some(end) = line_end(held, *passed) else {
        *passed = held.len().saturating_sub(1);
        return Ok(None);
    };
    let line = line_of(alloc, &held[..end])?;
    *given += end + 2;
    *passed = 0;
    Ok(Some(line))
}

fn line_of(alloc: Global, whole: &[u8]) -> Result<SmtpLine, NoMemory>
    ensures { IfOk result (λ line. line ≡ kept_of whole.now) }
{
    let kept = whole.len().min(MOST_LINE);
    Ok(SmtpLine {
        bytes: Text::of(alloc, &whole[..kept])?,
        long: whole.len() > MOST_LINE,
    })
}

/// Takes the front away that was given, once it is at least half of all, so that each byte is moved once at most for one that was given.
/// Answers how long the front is now.
fn drop_given(bytes: &mut Vec<u8>, given: usize) -> usize
    requires { given ≤ length bytes.old.items }
    ensures half { result + result ≤ length bytes.new.items }
    ensures rest { drop result bytes.new.items ≡ drop given bytes.old.items }
    ensures fewer { length bytes.new.items ≤ length bytes.old.items }
{
    if given < bytes.len() - given {
        return given;
    }
    drop_front(bytes, given);
    0
}

fn after(bytes: &[u8], count: usize) -> &[u8]
    requires { count ≤ length bytes.now }
    ensures { result.now ≡ drop count bytes.now }
{
    &bytes[count..]
}

fn is_line_end(first: u8, second: u8) -> bool
    ensures { result ≡ is_end first second }
{
    first == CR && second == LF
}

/// At how many first places no CRLF begins, where at the first none does: up to the next CR, or all but the last.
fn places_to_cr(bytes: &[u8]) -> usize
    requires two { 2 ≤ length bytes.now }
    requires apart { is_end (slice_index bytes.now 0) (slice_index bytes.now 1) ≡ false }
    ensures some { 0 < result }
    ensures within { result < length bytes.now }
    ensures passed { passes result bytes.now ≡ true }
{
    match memchr(CR, after(bytes, 1)) {
        Some(place) => place + 1,
        None => bytes.len() - 1,
    }
}

/// Where the first CRLF stands, of bytes at whose first places none begins. It is looked for at each CR.
fn line_end(bytes: &[u8], seen: usize) -> Option<usize>
    requires { passes seen bytes.now ≡ true }
    ensures passed { IfNone result (passes (length bytes.now - 1) bytes.now ≡ true) }
    ensures none { IfNone result ((lines_of bytes.now ≡ []) × (tail_of bytes.now ≡ bytes.now)) }
    ensures within { IfSome result (λ end. end + 2 ≤ length bytes.now) }
    ensures line { IfSome result (λ end. lines_of bytes.now ≡ take end bytes.now ∷ lines_of (drop (end + 2) bytes.now)) }
    ensures rest { IfSome result (λ end. tail_of bytes.now ≡ tail_of (drop (end + 2) bytes.now)) }
{
    let mut rest = after(bytes, seen);
    let mut passed = seen;
    while let [first, second, ..] = rest {
        if is_line_end(*first, *second) {
            return Some(passed);
        }
        let count = places_to_cr(rest);
        rest = after(rest, count);
        passed += count;
    }
    None
}
