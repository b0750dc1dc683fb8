//! What an ask names.
ghost use Rattle.std.specs.Prelude.{◌≡◌, [], option_copied, nat_lt, length, if◌then◌else◌};
ghost use Rattle.std.specs.List.{cons_option};
ghost use Rattle.verb_core.specs.Live.{new_names, named, targets, asks_fixed, too_large};

use undo_base::{MOST_FETCHED, MOST_LITERAL, Name, Text};
use verb_core::{Ask, is_fixed, is_lost_found};

/// The name of a new mailbox.
pub(crate) fn new_name(ask: &Ask) -> Option<&Name>
    ensures { cons_option (option_copied result) [] ≡ new_names ask.now }
{
    match ask {
        Ask::Create { mailbox } => Some(mailbox),
        Ask::Rename { target, .. } => Some(target),
        Ask::Deliver { .. } => None,
        Ask::Append { .. } => None,
        Ask::Fetch { .. } => None,
        Ask::Store { .. } => None,
        Ask::Copy { .. } => None,
        Ask::List { .. } => None,
        Ask::Status { .. } => None,
        Ask::Select { .. } => None,
        Ask::Expunge { .. } => None,
        Ask::Close { .. } => None,
        Ask::Delete { .. } => None,
    }
}

/// The mailbox that has to be there, a target aside.
pub(crate) fn named(ask: &Ask) -> Option<&Name>
    ensures { cons_option (option_copied result) [] ≡ named ask.now }
{
    match ask {
        Ask::Fetch { mailbox, .. } => Some(mailbox),
        Ask::Store { mailbox, .. } => Some(mailbox),
        Ask::Copy { mailbox, .. } => Some(mailbox),
        Ask::Status { mailbox } => Some(mailbox),
        Ask::Select { mailbox } => Some(mailbox),
        Ask::Expunge { mailbox, .. } => Some(mailbox),
        Ask::Close { mailbox, .. } => Some(mailbox),
        Ask::Rename { mailbox, .. } => Some(mailbox),
        Ask::Delete { mailbox } => Some(mailbox),
        Ask::Deliver { .. } => None,
        Ask::Append { .. } => None,
        Ask::List { .. } => None,
        Ask::Create { .. } => None,
    }
}

/// The target that has to be there.
pub(crate) fn target(ask: &Ask) -> Option<&Name>
    ensures { cons_option (option_copied result) [] ≡ targets ask.now }
{
    match ask {
        Ask::Append { mailbox, .. } => Some(mailbox),
        Ask::Copy { target, .. } => Some(target),
        Ask::Deliver { .. } => None,
        Ask::Fetch { .. } => None,
        Ask::Store { .. } => None,
        Ask::List { .. } => None,
        Ask::Status { .. } => None,
        Ask::Select { .. } => None,
        Ask::Expunge { .. } => None,
        Ask::Close { .. } => None,
        Ask::Create { .. } => None,
        Ask::Rename { .. } => None,
        Ask::Delete { .. } => None,
    }
}

/// Whether a fixed mailbox would be made, renamed or deleted; INBOX can be renamed (RFC 3501, section 6.3.5).
pub(crate) fn asks_fixed(ask: &Ask) -> bool
    ensures { result ≡ asks_fixed ask.now }
{
    match ask {
        Ask::Create { mailbox } => is_fixed(mailbox.bytes()),
        Ask::Delete { mailbox } => is_fixed(mailbox.bytes()),
        Ask::Rename { mailbox, target } => is_lost_found(mailbox.bytes())
            || is_fixed(target.bytes()),
        Ask::Deliver { .. } => false,
        Ask::Append { .. } => false,
        Ask::Fetch { .. } => false,
        Ask::Store { .. } => false,
        Ask::Copy { .. } => false,
        Ask::List { .. } => false,
        Ask::Status { .. } => false,
        Ask::Select { .. } => false,
        Ask::Expunge { .. } => false,
        Ask::Close { .. } => false,
    }
}

/// The octets of a literal that has too many.
fn long_literal(text: &Text) -> Option<u64>
    ensures { result ≡ (if nat_lt 1048576 (length text.now) then Some (length text.now) else None) }
{
    let octets = text.bytes().len();
    if octets > MOST_LITERAL {
        Some(octets as u64)
    } else {
        None
    }
}

/// The octets that a FETCH asks for, where they are too many.
fn long_answer(asked: u64) -> Option<u64>
    ensures { result ≡ (if nat_lt 268435456 asked then Some asked else None) }
{
    if asked > MOST_FETCHED {
        Some(asked)
    } else {
        None
    }
}

/// The octets of a literal, or those that a FETCH asks for, where they are too many.
pub(crate) fn too_large(ask: &Ask) -> Option<u64>
    ensures { result ≡ too_large ask.now }
{
    match ask {
        Ask::Append { text, .. } => long_literal(text),
        Ask::Fetch { asked, .. } => long_answer(*asked),
        Ask::Deliver { .. } => None,
        Ask::Store { .. } => None,
        Ask::Copy { .. } => None,
        Ask::List { .. } => None,
        Ask::Status { .. } => None,
        Ask::Select { .. } => None,
        Ask::Expunge { .. } => None,
        Ask::Close { .. } => None,
        Ask::Create { .. } => None,
        Ask::Rename { .. } => None,
        Ask::Delete { .. } => None,
    }
}
