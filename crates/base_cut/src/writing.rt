//! Writing bytes, all of them.
ghost use Rattle.std.specs.Prelude.{◌≡◌, ◌≤◌, length, drop};
ghost use Rattle.base_cut.specs.Writing.{PutsAll, WritesAll};

use undo_outside::{Fault, Sink, SinkFault};

/// Writes bytes in as many pieces as the sink takes.
pub fn write_all<W: Sink>(out: &mut W, bytes: &[u8]) -> Result<(), SinkFault>
    ensures puts { PutsAll (W.told out.old) (W.told out.new) bytes.now result }
    ensures writes { WritesAll (W.told out.old) (W.told out.new) bytes.now result }
{
    let mut rest = bytes;
    while !rest.is_empty() {
        match out.write(rest) {
            Ok(0) => return Err(Fault::Failed),
            Ok(count) => rest = after_first(rest, count),
            Err(fault) => return Err(fault),
        }
    }
    Ok(())
}

fn after_first(bytes: &[u8], count: usize) -> &[u8]
    requires { count ≤ length bytes.now }
    ensures { result.now ≡ drop count bytes.now }
{
    &bytes[count..]
}
