//! The commands of an IMAP client's stream (RFC 3501), cut out of it, and the messages that their sets name.
//!
//! `next` has what a stream gives; `begun` what is read of a command. `marks` has the tags of lines and the marks of literals. `reader` reads as far
//! as bytes have come, `cut` a whole stream, and `pieces` one that comes in any pieces, whose bytes in memory are a `buffer`. `picks` finds the
//! messages of a set; `laws` says what a stream gives. What carries the crate: `Pieces::next` gives the commands, literal marks and bad lines of the
//! whole stream, and the law `one_reading` says what these are. `cut_all` and `pick` are asked for by the interface; the program calls `Pieces::feed`
//! and `next`, and `pick_numbers` and `join_spans`.
#![tactic(auto)]

mod begun;
mod buffer;
mod cut;
mod held;
mod laws;
mod marks;
mod next;
mod picks;
mod pieces;
mod reader;

pub use begun::{Awaits, Begun};
pub use buffer::Buffer;
pub use cut::cut_all;
pub use laws::one_reading;
pub use marks::{Mark, are_few_digits, is_atom_char, read_tag};
pub use next::{BadLine, LineFault, Next, Nexts, RawCommand};
pub use picks::{
    PickRefused, SetRange, SetText, Span, join_spans, lower_end, pick, pick_numbers, upper_end,
};
pub use pieces::Pieces;
pub use reader::Reader;
