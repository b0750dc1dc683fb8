//! Scripts of events.
//!
//! A script of more than 4,294,967,295 bytes finds no memory, as a text of more bytes does; so `read_script` has no condition,
//! and line numbers always fit.
//!
//! This is a crate of its own, since an edit of the machine's definitions rechecks all beside it.
ghost use Rattle.script_link.specs.Script.{script_of, ReadsScript};

use crate::line::{ScriptLine, read_line};
use crate::pieces::{first_piece, without_lf};
use std::alloc::Global;
use undo_base::{MOST_TEXT, NoMemory};
use undo_outside::Events;

/// Why a text is no script: its first bad line, from 1.
#[derive(Clone, Copy)]
pub enum BadScript {
    Line { line: u32 },
    NoMemory,
}

impl From<NoMemory> for BadScript {
    ghost use Rattle.std.specs.Prelude.{◌≡◌};
    ghost use Rattle.script_link.specs.declared.script.BadScript.TheVariants.{NoMemory as no_memory};

    ghost from_gives = { λ _ bad. bad ≡ no_memory };

    fn from(_: NoMemory) -> Self {
        BadScript::NoMemory
    }
}

/// The events of a script. One of more than `MOST_TEXT` bytes finds no memory.
pub fn read_script(alloc: Global, bytes: &[u8]) -> Result<Events, BadScript>
    ensures { ReadsScript (script_of bytes.now) result }
{
    if bytes.len() > MOST_TEXT {
        return Err(BadScript::NoMemory);
    }
    let mut events = Events::new(alloc);
    let mut at = 0;
    let mut line = 0;
    let mut rest = bytes;
    while !rest.is_empty() {
        line += 1;
        let (piece, others) = first_piece(rest);
        match read_line(alloc, at, without_lf(piece))? {
            ScriptLine::Skipped => {}
            ScriptLine::Moment(moment) => at = moment,
            ScriptLine::Happens(event) => events.push(event)?,
            ScriptLine::Bad => return Err(BadScript::Line { line }),
        }
        rest = others;
    }
    Ok(events)
}
