//! The bytes of a stream in memory.
ghost use Rattle.std.specs.Prelude.{◌≡◌, ◌+◌, ◌≤◌, ◌++◌, [], true, false, Ok, length, drop, min, IfOk, OnOk, OnErr};
ghost use Rattle.imap_stream.specs.Commands.{heard, before, nothing, TakesNext, WantsMemory};
ghost use Rattle.imap_stream.specs.Holding.{held_in};
ghost use Rattle.imap_stream.specs.Reading.{IsSoundReader, KeepsNoMore, parts_of, seen};
ghost use Rattle.imap_stream.specs.declared.begun.Awaits.TheVariants.{Line};

use crate::Next;
use crate::held::{held, parts};
use crate::reader::{Reader, first_reader, take_next};
use std::alloc::Global;
use std::marker::Model;
use undo_base::NoMemory;

/// The bytes of a stream that were not given as commands yet. Those that were read are never more than half of what is in memory. Contracts
/// see what was heard of the stream, and beside it how many bytes are in memory. Those are of the lines, the literals and the tag that were
/// taken out of the stream, and of the stream itself. Neither it nor its reader has another field that could keep more.
#[derive(Debug, Drop)]
pub struct Buffer {
    reader: Reader,
    bytes: Vec<u8>,
}

impl Model for Buffer {
    ghost use Rattle.std.specs.Prelude.{length, ◌≡◌};
    ghost use Rattle.imap_stream.specs.Reading.{Buffered, KeepsNoMore, parts_of, same_fields, seen};

    ghost Value = { Buffered };

    ghost use Rattle.imap_stream.specs.declared.buffer.Buffer.TheInside.{Inside};

    ghost view = { λ b. record { heard = seen b.reader b.bytes.items; parts = parts_of b.reader; bytes = length b.bytes.items } };

    ghost invariant = { λ b. KeepsNoMore b.reader b.bytes.items × ((other : Inside) → b ≡ record other { reader = same_fields b.reader other.reader; bytes = b.bytes }) };
}

impl Buffer {
    /// A stream from which nothing has come, at the start of a line.
    pub fn new(alloc: Global) -> Buffer
        ensures heard { result.heard ≡ before nothing Line }
        ensures parts { result.parts ≡ 0 }
        ensures bytes { result.bytes ≡ 0 }
    {
        Buffer {
            reader: first_reader(alloc),
            bytes: Vec::new(alloc),
        }
    }

    /// Adds bytes to the stream, each of which is kept once.
    pub fn feed(&mut self, bytes: &[u8]) -> Result<(), NoMemory>
        ensures ok { OnOk result (self.new.heard ≡ heard self.old.heard bytes.now) }
        ensures parts { self.new.parts ≡ self.old.parts }
        ensures bytes { OnOk result (self.new.bytes ≡ self.old.bytes + length bytes.now) }
        ensures err { OnErr result (self.new ≡ self.old) }
    {
        push_bytes(&mut self.bytes, bytes)
    }

    /// What comes next: a command, a literal to be invited, or a bad line; or else nothing whole is there, and no byte is kept but those that
    /// are held. Memory is wanted only where a line has ended, or where one is too long whose command has a tag.
    pub fn next(&mut self, alloc: Global) -> Result<Next, NoMemory>
        ensures ok { IfOk result (λ next. TakesNext self.old.heard next self.new.heard) }
        ensures held { IfOk result (λ next. next ≡ Next.NotYet → self.new.parts + self.new.bytes ≡ held_in self.new.heard) }
        ensures most { IfOk result (λ next. next ≡ Next.NotYet → self.new.parts + self.new.bytes ≤ 8500000) }
        ensures lets_go { self.new.bytes ≤ self.old.bytes }
        ensures err { OnErr result (self.new.heard ≡ self.old.heard) }
        ensures wants { OnErr result (WantsMemory self.old.heard) }
    {
        let next = take_next(alloc, &mut self.reader, &self.bytes);
        if is_not_yet(&next) {
            drop_given(&mut self.reader, &mut self.bytes);
        } else {
            compact(&mut self.reader, &mut self.bytes);
        }
        next
    }

    /// How many bytes of the stream are kept where nothing whole is there, as after `next` answered `NotYet`. Takes no memory.
    pub fn held(&self) -> usize
        ensures { self.now.heard.said ≡ [] → result ≡ held_in self.now.heard }
    {
        held(&self.reader, &self.bytes)
    }

    /// How many bytes are in memory. Those that were taken out of the stream are within the limits of one command. Takes no memory.
    pub fn kept(&self) -> usize
        ensures value { result ≡ min (self.now.parts + self.now.bytes) 18446744073709551615 }
        ensures most { self.now.parts ≤ 8454208 }
    {
        parts(&self.reader).saturating_add(self.bytes.len())
    }
}

/// Whether this says that nothing whole is there.
fn says_not_yet(next: &Next) -> bool
    ensures yes { result ≡ true → next.now ≡ Next.NotYet }
    ensures other { result ≡ false → next.now ≡ Next.NotYet → ⊥ }
{
    match next {
        Next::Command(_) => false,
        Next::Ask { length: _ } => false,
        Next::Bad(_) => false,
        Next::NotYet => true,
    }
}

/// Whether nothing whole is there.
fn is_not_yet(next: &Result<Next, NoMemory>) -> bool
    ensures yes { result ≡ true → next.now ≡ Ok Next.NotYet }
    ensures other { result ≡ false → IfOk next.now (λ said. said ≡ Next.NotYet → ⊥) }
{
    match next {
        Ok(next) => says_not_yet(next),
        Err(_) => false,
    }
}

/// Takes the first bytes away.
fn drop_front(bytes: &mut Vec<u8>, count: usize)
    requires { count ≤ length bytes.old.items }
    ensures { bytes.new.items ≡ drop count bytes.old.items }
{
    bytes.drain(..count);
}

fn push_bytes(bytes: &mut Vec<u8>, more: &[u8]) -> Result<(), NoMemory>
    ensures ok { OnOk result (bytes.new.items ≡ bytes.old.items ++ more.now) }
    ensures err { OnErr result (bytes.new.items ≡ bytes.old.items) }
{
    bytes.extend_from_slice(more)?;
    Ok(())
}

/// Takes the bytes away that are read. Where nothing whole is there, the others came behind the last that was, and so each is moved once at most for it.
fn drop_given(reader: &mut Reader, bytes: &mut Vec<u8>)
    requires { IsSoundReader reader.old bytes.old.items }
    ensures keeps { KeepsNoMore reader.new bytes.new.items }
    ensures same { seen reader.new bytes.new.items ≡ seen reader.old bytes.old.items }
    ensures parts { parts_of reader.new ≡ parts_of reader.old }
    ensures all { length bytes.new.items ≡ length (drop reader.old.given bytes.old.items) }
    ensures fewer { length bytes.new.items ≤ length bytes.old.items }
{
    drop_front(bytes, reader.given);
    reader.given = 0;
}

/// Takes the bytes away that are read, where they are more than the others, so that each byte is moved once at most for one that was read.
fn compact(reader: &mut Reader, bytes: &mut Vec<u8>)
    requires { IsSoundReader reader.old bytes.old.items }
    ensures keeps { KeepsNoMore reader.new bytes.new.items }
    ensures same { seen reader.new bytes.new.items ≡ seen reader.old bytes.old.items }
    ensures fewer { length bytes.new.items ≤ length bytes.old.items }
{
    if reader.given > bytes.len() / 2 {
        drop_front(bytes, reader.given);
        reader.given = 0;
    }
}
