//! Whole streams.
ghost use Rattle.std.specs.Prelude.{◌≡◌, [], ◌++◌, true, false, IfOk, OnOk};
ghost use Rattle.std.specs.List.{flat_map};
ghost use Rattle.imap_stream.specs.Commands.{said_of, emptied, TakesOne};

use crate::{Next, Nexts, Pieces};
use std::alloc::Global;
use undo_base::{NoMemory, Texts};

/// All that a stream gives that comes in these pieces, however it was cut.
pub fn cut_all(alloc: Global, pieces: &Texts) -> Result<Nexts, NoMemory>
    ensures { IfOk result (λ nexts. nexts ≡ said_of (flat_map (λ piece. piece) pieces.now)) }
{
    let mut nexts = Nexts::new(alloc);
    let mut cutter = Pieces::new(alloc);
    for piece in pieces.as_slice() {
        cutter.feed(piece.bytes())?;
        take_all(alloc, &mut cutter, &mut nexts)?;
    }
    Ok(nexts)
}

/// Takes one thing that is whole, if there is one.
fn take_one(alloc: Global, cutter: &mut Pieces, nexts: &mut Nexts) -> Result<bool, NoMemory>
    ensures none { IfOk result (λ more. more ≡ false → (cutter.old.said ≡ []) × (cutter.new ≡ cutter.old) × (nexts.new ≡ nexts.old)) }
    ensures some { IfOk result (λ more. more ≡ true → TakesOne cutter.old nexts.old cutter.new nexts.new) }
{
    match cutter.next(alloc)? {
        Next::NotYet => Ok(false),
        Next::Command(command) => {
            nexts.push(Next::Command(command))?;
            Ok(true)
        }
        Next::Ask { length } => {
            nexts.push(Next::Ask { length })?;
            Ok(true)
        }
        Next::Bad(line) => {
            nexts.push(Next::Bad(line))?;
            Ok(true)
        }
    }
}

/// Takes all that is whole.
fn take_all(alloc: Global, cutter: &mut Pieces, nexts: &mut Nexts) -> Result<(), NoMemory>
    ensures said { OnOk result (nexts.new ≡ nexts.old ++ cutter.old.said) }
    ensures rest { OnOk result (cutter.new ≡ emptied cutter.old) }
{
    while take_one(alloc, cutter, nexts)? {}
    Ok(())
}
