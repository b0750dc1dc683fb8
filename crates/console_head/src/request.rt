//! The request that a connection's bytes are.
//!
//! A head of more than 64 header lines is too large, whatever else is wrong with it. A head that begins within the first 16,384
//! octets and ends behind them is too large too.
//!
//! A target is UTF-8, because `httparse`'s grammar has no other.
ghost use Rattle.std.specs.Prelude.{◌≡◌, ◌+◌, ◌<◌, ◌≤◌, ℕ, List, ◌++◌, length, take, drop, Some, IfOk, IfNone};
ghost use Rattle.console_head.specs.Coming.{HasLearnt, IsKnown, IsLeast, looked_at};
ghost use Rattle.console_head.specs.Request.{IsWhole, Says, SaysBy};
ghost use Rattle.console_head.specs.Seen.{seen, Announces};
ghost use Rattle.httparse.specs.Grammar.{RequestHead};

use crate::grammar::read_whole;
use crate::lengths::body_length;
use crate::lines::{Head, Lines};
use httparse::spans::EMPTY_HEADER_SPAN;
use undo_base::{after, before};

/// How many octets a head has at most.
pub const MOST_HEAD: usize = 16_384;

/// How many header lines a head has at most.
pub const MOST_FIELDS: usize = 64;

/// How many octets a body has at most.
pub const MOST_BODY: u32 = 4_194_304;

/// Why bytes are no request: the head is no head, or something is too large.
#[derive(Clone, Copy, Debug, PartialEq, Eq)]
pub enum HeadRefused {
    Head,
    Size,
}

/// A request, as far as the bytes alone decide.
#[derive(Clone, Copy, Debug)]
pub struct Request<'a> {
    pub method: &'a [u8],
    pub target: &'a [u8],
    pub body: &'a [u8],
}

/// What a head of the grammar announces.
#[derive(Clone, Copy, Debug)]
struct Announced<'a> {
    method: &'a [u8],
    target: &'a [u8],
    length: usize,
}

/// What is known of a connection's bytes, of which more may come: their first lines, and below which length they are
/// not yet a request.
#[derive(Clone, Copy, Debug)]
pub struct Coming {
    pub lines: Lines,
    pub least: usize,
}

impl Coming {
    /// Of bytes of which nothing is known.
    pub fn new() -> Coming
        ensures { (bytes : List ℕ) → IsKnown result bytes }
    {
        Coming {
            lines: Lines::new(),
            least: 0,
        }
    }

    /// The request that the bytes that came are, or none yet, or why they are none.
    pub fn read<'a>(&mut self, bytes: &'a [u8]) -> Result<Option<Request<'a>>, HeadRefused>
        requires { IsKnown self.old bytes.now }
        ensures says { Says bytes.now (seen result) }
        ensures known { (more : List ℕ) → IsKnown self.new (bytes.now ++ more) }
        ensures further { looked_at self.old.lines ≤ looked_at self.new.lines }
        ensures more { self.old.least ≤ self.new.least }
        ensures learnt { IfOk result (λ request. IfNone request (HasLearnt self.new bytes.now)) }
    {
        if bytes.len() < self.least {
            return Ok(None);
        }
        match self.lines.find_head(front(bytes)) {
            Some(head) => self.read_behind(bytes, head),
            None if bytes.len() < MOST_HEAD => Ok(None),
            None => Err(HeadRefused::Size),
        }
    }

    /// The request whose head has been found.
    fn read_behind<'a>(
        &mut self,
        bytes: &'a [u8],
        head: Head,
    ) -> Result<Option<Request<'a>>, HeadRefused>
        requires within { head.size ≤ length bytes.now }
        requires fields { (h : RequestHead) → IsWhole (take head.size bytes.now) h → length h.fields ≡ head.fields }
        requires least { self.old.least ≤ length bytes.now }
        ensures says { SaysBy bytes.now (Some head) (seen result) }
        ensures lines { self.new.lines ≡ self.old.lines }
        ensures least { IsLeast self.old.least self.new.least bytes.now head }
        ensures more { self.old.least ≤ self.new.least }
        ensures learnt { IfOk result (λ request. IfNone request (length bytes.now < self.new.least)) }
    {
        if head.fields > MOST_FIELDS {
            return Err(HeadRefused::Size);
        }
        let announced = read_head(before(bytes, head.size))?;
        let rest = after(bytes, head.size);
        if rest.len() < announced.length {
            self.least = head.size + announced.length;
            return Ok(None);
        }
        Ok(Some(Request {
            method: announced.method,
            target: announced.target,
            body: before(rest, announced.length),
        }))
    }
}

/// The octets in which a head has to end.
fn front(bytes: &[u8]) -> &[u8]
    ensures { result.now ≡ take 16384 bytes.now }
{
    before(bytes, bytes.len().min(MOST_HEAD))
}

/// What a text announces that is a head by its lines.
fn read_head<'a>(text: &'a [u8]) -> Result<Announced<'a>, HeadRefused>
    requires { (h : RequestHead) → IsWhole text.now h → length h.fields ≤ 64 }
    ensures { Announces text.now result }
{
    let mut headers = [EMPTY_HEADER_SPAN; MOST_FIELDS];
    let Some(parts) = read_whole(text, &mut headers) else {
        return Err(HeadRefused::Head);
    };
    match body_length(text, &headers[..parts.headers]) {
        None => Err(HeadRefused::Head),
        Some(length) if length > MOST_BODY => Err(HeadRefused::Size),
        Some(length) => Ok(Announced {
            method: parts.method.of(text),
            target: parts.path.of(text),
            length: length as usize,
        }),
    }
}
