//! The flags that a FETCH leaves.
ghost use Rattle.std.specs.Prelude.{◌≡◌};
ghost use Rattle.imap_fetch.specs.Told as spec;

use crate::{FetchForm, Message};
use undo_base::{Flags, How};
use verb_core::flags_after;

/// A message's flags after a FETCH.
pub(crate) fn flags_fetched(form: &FetchForm, message: &Message) -> Flags
    ensures { result ≡ spec.flags_fetched form.now message.now }
{
    let old = message.entry.flags;
    if !form.sets_seen {
        return old;
    }
    let seen = Flags {
        seen: true,
        ..Flags::default()
    };
    flags_after(How::Add, seen, old)
}
