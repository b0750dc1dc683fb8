//! Names that are always there, and names that a new mailbox can have.
ghost use Rattle.std.specs.Prelude.{◌≡◌, bytes_eq, IfOk};
ghost use Rattle.std.specs.List.{list_any};
ghost use Rattle.verb_core.specs.Names.{inbox, lost_found, is_fixed as is_always_there, is_slash as is_separator, is_wildcard as is_any, has_whole_parts as are_whole, is_new_name as is_new};

use std::alloc::Global;
use undo_base::{Name, NoMemory};

/// The name of the mailbox that each user has for what comes in.
pub fn inbox_name(alloc: Global) -> Result<Name, NoMemory>
    ensures { IfOk result (λ name. name ≡ inbox) }
{
    Name::of(alloc, b"INBOX")
}

/// The name of the mailbox that each user has for what finds no other.
pub fn lost_found_name(alloc: Global) -> Result<Name, NoMemory>
    ensures { IfOk result (λ name. name ≡ lost_found) }
{
    Name::of(alloc, b"Lost+Found")
}

/// Whether it is INBOX.
pub fn is_inbox(name: &[u8]) -> bool
    ensures { result ≡ bytes_eq name.now inbox }
{
    name == b"INBOX".as_slice()
}

/// Whether it is Lost+Found.
pub fn is_lost_found(name: &[u8]) -> bool
    ensures { result ≡ bytes_eq name.now lost_found }
{
    name == b"Lost+Found".as_slice()
}

/// Whether the mailbox of that name is always there, and is never made, renamed or deleted.
pub fn is_fixed(name: &[u8]) -> bool
    ensures { result ≡ is_always_there name.now }
{
    is_inbox(name) || is_lost_found(name)
}

/// Whether the byte is `/`, which stands between a superior and what lies below it.
pub fn is_slash(byte: u8) -> bool
    ensures { result ≡ is_separator byte }
{
    byte == b'/'
}

/// Whether the byte is `*`, which matches any run of bytes, or `%`, which matches any run without `/` (RFC 3501, section 6.3.8).
pub fn is_wildcard(byte: u8) -> bool
    ensures { result ≡ is_any byte }
{
    byte == b'*' || byte == b'%'
}

/// Whether the name neither begins nor ends with `/`, nor holds `//`.
#[tactic(auto, using(crate::proofs::NameBytes::whole_parts))]
pub fn has_whole_parts(name: &[u8]) -> bool
    ensures { result ≡ are_whole name.now }
{
    let mut begins = true;
    for byte in name {
        if is_slash(*byte) && begins {
            return false;
        }
        begins = is_slash(*byte);
    }
    !begins
}

/// Whether a byte of the name is one of these.
fn has_wildcard(name: &[u8]) -> bool
    ensures { result ≡ list_any is_any name.now }
{
    name.iter().any(|byte| is_wildcard(*byte))
}

/// Whether a byte of the name is `/`.
fn has_slash(name: &[u8]) -> bool
    ensures { result ≡ list_any is_separator name.now }
{
    name.iter().any(|byte| is_slash(*byte))
}

/// Whether a new mailbox can have the name: it has no wildcard, and where the store is not deep no `/`; where it is deep each of its parts has a byte.
pub fn is_new_name(deep: bool, name: &[u8]) -> bool
    ensures { result ≡ is_new deep name.now }
{
    if has_wildcard(name) {
        return false;
    }
    if deep {
        has_whole_parts(name)
    } else {
        !has_slash(name)
    }
}
