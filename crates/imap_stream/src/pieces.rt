//! A stream that comes in pieces.
//!
//! Bytes that were read are taken out of the buffer as the next thing is given, and not when bytes come. `Pieces::held` counts
//! what is kept then; where bytes have come that `next` has not looked at, it tells what `next` will leave of them. Memory may be
//! wanted for a line that is too long before its end has come, since its tag is kept.
//!
//! `Pieces::held` tells the bytes of a stream of which nothing more can be given, as after a `NotYet`: its clause has that
//! premise.
ghost use Rattle.std.specs.Prelude.{◌≡◌, ◌≤◌, [], IfOk, OnOk, OnErr};
ghost use Rattle.imap_stream.specs.Commands.{heard, before, nothing, TakesNext, WantsMemory};
ghost use Rattle.imap_stream.specs.Holding.{held_in};
ghost use Rattle.imap_stream.specs.declared.begun.Awaits.TheVariants.{Line};

use crate::Next;
use crate::buffer::Buffer;
use std::alloc::Global;
use std::marker::Model;
use undo_base::NoMemory;

/// The bytes of a stream that were not given as commands yet: a `Buffer`, and nothing else, of which contracts see alone what was heard.
#[derive(Debug, Drop)]
pub struct Pieces {
    buffer: Buffer,
}

impl Model for Pieces {
    ghost use Rattle.std.specs.Prelude.{◌≡◌};
    ghost use Rattle.imap_stream.specs.Commands.{Heard};

    ghost Value = { Heard };

    ghost use Rattle.imap_stream.specs.declared.pieces.Pieces.TheInside.{Inside};

    ghost view = { λ p. p.buffer.heard };

    ghost invariant = { λ p. (other : Inside) → p ≡ record other { buffer = p.buffer } };
}

impl Pieces {
    /// A stream from which nothing has come, at the start of a line.
    pub fn new(alloc: Global) -> Pieces
        ensures { result ≡ before nothing Line }
    {
        Pieces {
            buffer: Buffer::new(alloc),
        }
    }

    /// Adds bytes to the stream.
    pub fn feed(&mut self, bytes: &[u8]) -> Result<(), NoMemory>
        ensures ok { OnOk result (self.new ≡ heard self.old bytes.now) }
        ensures err { OnErr result (self.new ≡ self.old) }
    {
        self.buffer.feed(bytes)
    }

    /// What comes next: a command, a literal to be invited, or a bad line; or else nothing whole is there.
    /// Memory is wanted only where a line has ended, or where one is too long whose command has a tag.
    pub fn next(&mut self, alloc: Global) -> Result<Next, NoMemory>
        ensures ok { IfOk result (λ next. TakesNext self.old next self.new) }
        ensures held { IfOk result (λ next. next ≡ Next.NotYet → held_in self.new ≤ 8500000) }
        ensures err { OnErr result (self.new ≡ self.old) }
        ensures wants { OnErr result (WantsMemory self.old) }
    {
        self.buffer.next(alloc)
    }

    /// How many bytes of the stream are kept where nothing whole is there, as after `next` answered `NotYet`. Takes no memory.
    pub fn held(&self) -> usize
        ensures { self.now.said ≡ [] → result ≡ held_in self.now }
    {
        self.buffer.held()
    }
}
