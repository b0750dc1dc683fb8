//! The flags that a STORE leaves.
ghost use Rattle.std.specs.Prelude.{◌≡◌};
ghost use Rattle.verb_core.specs.Mailboxes.{changed};

use undo_base::{Flags, How};

/// The flags after a STORE of the given ones (RFC 3501, section 6.4.6).
pub fn flags_after(how: How, given: Flags, old: Flags) -> Flags
    ensures { result ≡ changed how given old }
{
    match how {
        How::Replace => given,
        How::Add => Flags {
            answered: old.answered || given.answered,
            flagged: old.flagged || given.flagged,
            deleted: old.deleted || given.deleted,
            seen: old.seen || given.seen,
            draft: old.draft || given.draft,
        },
        How::Take => Flags {
            answered: old.answered && !given.answered,
            flagged: old.flagged && !given.flagged,
            deleted: old.deleted && !given.deleted,
            seen: old.seen && !given.seen,
            draft: old.draft && !given.draft,
        },
    }
}
