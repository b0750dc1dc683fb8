//! Whether a needle occurs in bytes.
ghost use Rattle.std.specs.Prelude.{◌≡◌};
ghost use Rattle.verb_core.specs.Filters.{occurs as is_within};

use bstr::ByteSlice;
use undo_base::Name;

/// Whether the needle occurs in the bytes, in time that grows as they do.
pub(crate) fn occurs(bytes: &[u8], needle: &Name) -> bool
    ensures { result ≡ is_within needle.now bytes.now }
{
    bytes.contains_str(needle.bytes())
}
