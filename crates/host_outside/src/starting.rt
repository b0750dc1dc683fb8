//! The line that tells that serving has begun. How many items the store has is what the console tells: the link asks it once,
//! before any other event, over a connection of its own that is no socket.
use std::alloc::Global;
use undo_base::{NoMemory, Text};
use undo_outside::{Role, What};

/// The number of that connection: it is behind those of all seats.
pub(crate) const OWN: u32 = 1001;

/// What is asked.
const QUESTION: &[u8] = b"GET /status HTTP/1.1\r\n\r\n";

/// What stands before the number of items in the answer.
const ITEMS: &[u8] = b"\"items\":";

/// How far the link has got with its question.
#[derive(Clone, Copy)]
pub(crate) enum Step {
    /// The connection is still to come.
    Joins,
    /// It is there, and the question is still to be asked.
    Asks,
    /// The question was asked.
    Waits,
}

/// What comes over that connection at a step, if anything does any more.
pub(crate) fn what_comes(step: Step, alloc: Global) -> Result<Option<What>, NoMemory> {
    match step {
        Step::Joins => Ok(Some(What::Joined(Role::Http))),
        Step::Asks => Ok(Some(What::Bytes(Text::of(alloc, QUESTION)?))),
        Step::Waits => Ok(None),
    }
}

/// The step behind a step.
pub(crate) fn behind(step: Step) -> Step {
    match step {
        Step::Joins => Step::Asks,
        Step::Asks => Step::Waits,
        Step::Waits => Step::Waits,
    }
}

/// The number of items that an answer tells.
pub(crate) fn items_in(answer: &[u8]) -> Option<u64> {
    for place in 0..answer.len() {
        if answer[place..].starts_with(ITEMS) {
            return number_at(answer, place.saturating_add(ITEMS.len()));
        }
    }
    None
}

/// The number whose digits begin at a place.
fn number_at(bytes: &[u8], place: usize) -> Option<u64> {
    let mut number: u64 = 0;
    for byte in bytes.iter().skip(place) {
        if !byte.is_ascii_digit() {
            break;
        }
        number = number
            .checked_mul(10)?
            .checked_add(u64::from(byte.saturating_sub(b'0')))?;
    }
    Some(number)
}
