//! A gate is one byte, open exactly where it is 0x55. A frame is the length of a payload in four bytes, and the payload.
ghost use Rattle.std.specs.Prelude.{◌≡◌, ◌<◌, ◌^◌, ◌++◌, ◌∷◌, [], IfOk, OnOk, length};
ghost use Rattle.seal_log.specs.Journal.{frame};

use std::alloc::Global;
use undo_base::NoMemory;

/// The byte of a gate behind which a frame is sealed.
pub const OPEN: u8 = 0x55;

const CLOSED: u8 = 0x00;

/// The frame of a payload, with a closed gate behind it.
pub fn closed_frame(alloc: Global, payload: &[u8]) -> Result<Vec<u8>, NoMemory>
    requires { length payload.now < 2 ^ 32 }
    ensures { IfOk result (λ bytes. bytes.items ≡ frame payload.now ++ 0 ∷ []) }
{
    let mut bytes = Vec::with_capacity(alloc, payload.len() + 5)?;
    push_closed_frame(&mut bytes, payload)?;
    Ok(bytes)
}

/// The same between two closed gates.
pub fn first_frame(alloc: Global, payload: &[u8]) -> Result<Vec<u8>, NoMemory>
    requires { length payload.now < 2 ^ 32 }
    ensures { IfOk result (λ bytes. bytes.items ≡ 0 ∷ (frame payload.now ++ 0 ∷ [])) }
{
    let mut bytes = Vec::with_capacity(alloc, payload.len() + 6)?;
    bytes.push(CLOSED)?;
    push_closed_frame(&mut bytes, payload)?;
    Ok(bytes)
}

/// Adds the frame of a payload, and a closed gate behind it.
fn push_closed_frame(bytes: &mut Vec<u8>, payload: &[u8]) -> Result<(), NoMemory>
    requires { length payload.now < 2 ^ 32 }
    ensures { OnOk result (bytes.new.items ≡ bytes.old.items ++ (frame payload.now ++ 0 ∷ [])) }
{
    bytes.extend_from_slice(&(payload.len() as u32).to_be_bytes())?;
    bytes.extend_from_slice(payload)?;
    bytes.push(CLOSED)?;
    Ok(())
}
