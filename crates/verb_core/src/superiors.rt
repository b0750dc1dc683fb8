//! The hierarchy of names: a superior stands before a `/` of its inferiors.
ghost use Rattle.std.specs.Prelude.{◌≡◌, ◌≤◌, ◌<◌, ◌+◌, ◌++◌, ◌∷◌, [], length, take, IfOk, OnOk};
ghost use Rattle.verb_core.specs.Names.{is_inferior as is_below, superiors, with_superiors};

use crate::is_slash;
use std::alloc::Global;
use undo_base::{Name, Names, NoMemory};

/// Whether the other is an inferior of the name.
#[tactic(auto, using(crate::proofs::NameBytes::none_below_nothing, crate::proofs::NameBytes::none_so_short, crate::proofs::NameBytes::begins_otherwise, crate::proofs::NameBytes::next_byte))]
pub fn is_inferior(name: &[u8], other: &[u8]) -> bool
    ensures { result ≡ is_below name.now other.now }
{
    if name.len() == 0 || other.len() <= name.len() {
        return false;
    }
    other.starts_with(name) && is_slash(other[name.len()])
}

/// A front of a name that is not empty is a name.
fn push_front(alloc: Global, names: &mut Names, front: &[u8]) -> Result<(), NoMemory>
    ensures { OnOk result (names.new ≡ names.old ++ front.now ∷ []) }
{
    names.push(Name::fit(alloc, front)?)
}

/// Behind the superiors that end before a place, the one that ends there, if one does.
#[tactic(auto, using(crate::proofs::NameBytes::one_ends, crate::proofs::NameBytes::none_ends))]
fn push_superior(
    alloc: Global,
    names: &mut Names,
    bytes: &[u8],
    place: usize,
) -> Result<(), NoMemory>
    requires behind { 1 ≤ place }
    requires within { place < length bytes.now }
    requires before { names.old ≡ superiors (take place bytes.now) }
    ensures { OnOk result (names.new ≡ superiors (take (place + 1) bytes.now)) }
{
    if is_slash(bytes[place]) {
        push_front(alloc, names, &bytes[..place])?;
    }
    Ok(())
}

/// The superiors of the bytes of a name, the shortest first.
#[tactic(auto, using(crate::proofs::NameBytes::begins_empty, crate::proofs::NameBytes::all_looked_at))]
fn superiors_of(alloc: Global, bytes: &[u8]) -> Result<Names, NoMemory>
    requires { 1 ≤ length bytes.now }
    ensures { IfOk result (λ names. names ≡ superiors bytes.now) }
{
    let mut names = Names::new(alloc);
    for place in 1..bytes.len() {
        push_superior(alloc, &mut names, bytes, place)?;
    }
    Ok(names)
}

/// The name behind its superiors, the shortest first.
pub fn names_with_superiors(alloc: Global, name: &Name) -> Result<Names, NoMemory>
    ensures { IfOk result (λ names. names ≡ with_superiors name.now) }
{
    let mut names = superiors_of(alloc, name.bytes())?;
    names.push(name.copy(alloc)?)?;
    Ok(names)
}
