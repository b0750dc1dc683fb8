//! Where the head of a request ends.
ghost use Rattle.std.specs.Prelude.{◌≡◌, ◌+◌, ◌^◌, ◌<◌, ◌≤◌, ℕ, List, ◌++◌, [], Some, None, length, take, drop, slice_index, IfNone, IfSome};
ghost use Rattle.console_head.specs.Lines.{is_empty_line as empty_line, head_of};
ghost use Rattle.console_head.specs.Coming.{AreFirst};
ghost use Rattle.console_head.specs.Coming.{looked_at};
ghost use Rattle.console_head.specs.Steps.{Finds, LooksAtAll, lines_with, shown_by};

use undo_base::{after, before};

const LF: u8 = b'\n';

/// A head by its lines: how many octets it has, and how many header lines.
#[derive(Clone, Copy, Debug, PartialEq, Eq)]
pub struct Head {
    pub size: usize,
    pub fields: usize,
}

/// The whole lines that bytes begin with, as far as they were looked at. Told are their octets, whether the request line is among
/// them, their header lines, and how many octets behind them have no LF.
#[derive(Clone, Copy, Debug)]
pub struct Lines {
    pub start: usize,
    pub begun: bool,
    pub fields: usize,
    pub searched: usize,
}

/// What one more line shows.
#[derive(Clone, Copy, Debug)]
pub(crate) enum Found {
    Line,
    Whole(Head),
    Nothing,
}

/// Where the first LF stands, none of which stands before `from`.
fn find_lf(bytes: &[u8], from: usize) -> Option<usize>
    requires within { from ≤ length bytes.now }
    requires searched { (k : ℕ) → k < from → slice_index bytes.now k ≡ 10 → ⊥ }
    ensures none { IfNone result ((k : ℕ) → k < length bytes.now → slice_index bytes.now k ≡ 10 → ⊥) }
    ensures before { IfSome result (λ place. (k : ℕ) → k < place → slice_index bytes.now k ≡ 10 → ⊥) }
    ensures found { IfSome result (λ place. (place < length bytes.now) × (slice_index bytes.now place ≡ 10)) }
    ensures behind { IfSome result (λ place. from ≤ place) }
{
    for place in from..bytes.len() {
        if bytes[place] == LF {
            return Some(place);
        }
    }
    None
}

fn is_empty_line(line: &[u8]) -> bool
    ensures { result ≡ empty_line line.now }
{
    line == b"\n".as_slice() || line == b"\r\n".as_slice()
}

impl Lines {
    /// Nothing looked at yet.
    pub fn new() -> Lines
        ensures { (bytes : List ℕ) → AreFirst result bytes }
    {
        Lines {
            start: 0,
            begun: false,
            fields: 0,
            searched: 0,
        }
    }

    /// Looks at one more line.
    fn take_line(&mut self, bytes: &[u8]) -> Found
        requires { AreFirst self.old bytes.now }
        ensures first { AreFirst self.new bytes.now }
        ensures found { Finds self.old self.new bytes.now result }
        ensures further { looked_at self.old ≤ looked_at self.new }
        ensures all { LooksAtAll self.new bytes.now result }
    {
        let rest = after(bytes, self.start);
        let Some(place) = find_lf(rest, self.searched) else {
            self.searched = rest.len();
            return Found::Nothing;
        };
        let line = before(rest, place + 1);
        self.pass(line)
    }

    /// Takes the next line; an empty one that ends the head stays untaken.
    fn pass(&mut self, line: &[u8]) -> Found
        requires bound { self.old.start + length line.now < 2 ^ 64 }
        requires fields { self.old.fields ≤ self.old.start }
        requires line { 0 < length line.now }
        ensures lines { self.new ≡ lines_with self.old line.now }
        ensures found { result ≡ shown_by self.old line.now }
    {
        let end = self.start + line.len();
        if !is_empty_line(line) {
            if self.begun {
                self.fields += 1;
            }
            self.begun = true;
        } else if self.begun {
            return Found::Whole(Head {
                size: end,
                fields: self.fields,
            });
        }
        self.start = end;
        self.searched = 0;
        Found::Line
    }

    /// The head that the bytes begin with, if they hold a whole one.
    pub fn find_head(&mut self, bytes: &[u8]) -> Option<Head>
        requires { AreFirst self.old bytes.now }
        ensures first { AreFirst self.new bytes.now }
        ensures value { result ≡ head_of bytes.now }
        ensures within { IfSome result (λ head. head.size ≤ length bytes.now) }
        ensures stays { IfSome result (λ head. (more : List ℕ) → head_of (bytes.now ++ more) ≡ Some head) }
        ensures further { looked_at self.old ≤ looked_at self.new }
        ensures all { IfNone result (looked_at self.new ≡ length bytes.now) }
    {
        loop {
            match self.take_line(bytes) {
                Found::Line => {}
                Found::Whole(head) => return Some(head),
                Found::Nothing => return None,
            }
        }
    }
}
