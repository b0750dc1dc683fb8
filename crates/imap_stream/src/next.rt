//! What a client's stream gives.
use undo_base::{Name, Sequence, Texts};

/// A command with its literals, as it stands in the stream.
#[derive(Debug, Drop)]
pub struct RawCommand {
    /// Its lines, without literal marks and CRLF.
    pub lines: Texts,
    /// Its literals: each stands after the line at its place.
    pub literals: Texts,
}

/// What is wrong with a line, or with the literal that it announces.
#[derive(Clone, Copy, Debug, PartialEq, Eq)]
pub enum LineFault {
    /// The command has more than 65,536 octets without its literals.
    Long,
    /// The literal has more than 1,048,576 octets.
    Literal { asked: u64 },
    /// The literal is the ninth.
    Many,
}

/// A line that ends its command.
#[derive(Debug, Drop)]
pub struct BadLine {
    pub tag: Option<Name>,
    pub why: LineFault,
}

/// What comes next.
#[derive(Debug, Drop)]
pub enum Next {
    Command(RawCommand),
    /// A literal of so many octets is to be invited.
    Ask { length: u32 },
    Bad(BadLine),
    /// Nothing whole is there.
    NotYet,
}

/// What a stream gives, in order.
pub type Nexts = Sequence<Next>;
