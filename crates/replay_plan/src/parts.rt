//! Which parts of its place and of its user a touch is of, and which a later touch must come behind.
ghost use Rattle.std.specs.Prelude.{◌≡◌, [], ◌∷◌, ◌++◌, IfOk, OnOk, option_map};
ghost use Rattle.touch_rules.specs.Commuting.{mailbox_of};
ghost use Rattle.replay_plan.specs.declared.slots.Part.TheVariants.{Anywhere, Everywhere, Anything, Whole, Tails, TailOf, KeysOf};
ghost use Rattle.replay_plan.specs.Slots.{spot_of, spot_on, is_users, mailbox_at, parts_of, asked_by, key_parts, key_asked};

use crate::slots::{Part, Slot, Spelled};
use std::alloc::Global;
use touch_rules::Touch;
use undo_base::{Key, NoMemory};

/// The parts of messages that a touch is of.
fn with_keys(parts: &mut Vec<Part>, keys: &[Key]) -> Result<(), NoMemory>
    ensures { OnOk result (parts.new.items ≡ parts.old.items ++ key_parts keys.now) }
{
    for key in keys {
        parts.push(Part::KeysOf(key.item))?;
        parts.push(Part::At(key.item, key.index))?;
    }
    Ok(())
}

/// The parts of messages that a touch asks for.
fn with_asked_keys(parts: &mut Vec<Part>, keys: &[Key]) -> Result<(), NoMemory>
    ensures { OnOk result (parts.new.items ≡ parts.old.items ++ key_asked keys.now) }
{
    for key in keys {
        parts.push(Part::TailOf(key.item))?;
        parts.push(Part::At(key.item, key.index))?;
    }
    Ok(())
}

fn of_keys(alloc: Global, keys: &[Key]) -> Result<Vec<Part>, NoMemory>
    ensures { IfOk result (λ parts. parts.items ≡ Anywhere ∷ Anything ∷ key_parts keys.now) }
{
    let mut parts = vec![in alloc; Part::Anywhere, Part::Anything]?;
    with_keys(&mut parts, keys)?;
    Ok(parts)
}

fn asked_by_keys(alloc: Global, keys: &[Key]) -> Result<Vec<Part>, NoMemory>
    ensures { IfOk result (λ parts. parts.items ≡ Everywhere ∷ Whole ∷ key_asked keys.now) }
{
    let mut parts = vec![in alloc; Part::Everywhere, Part::Whole]?;
    with_asked_keys(&mut parts, keys)?;
    Ok(parts)
}

fn of_tail(alloc: Global, number: u32) -> Result<Vec<Part>, NoMemory>
    ensures { IfOk result (λ parts. parts.items ≡ Anywhere ∷ Anything ∷ Tails ∷ TailOf number ∷ []) }
{
    let mut parts = vec![in alloc; Part::Anywhere, Part::Anything, Part::Tails]?;
    parts.push(Part::TailOf(number))?;
    Ok(parts)
}

fn asked_by_tail(alloc: Global, number: u32) -> Result<Vec<Part>, NoMemory>
    ensures { IfOk result (λ parts. parts.items ≡ Everywhere ∷ Whole ∷ Tails ∷ KeysOf number ∷ []) }
{
    let mut parts = vec![in alloc; Part::Everywhere, Part::Whole, Part::Tails]?;
    parts.push(Part::KeysOf(number))?;
    Ok(parts)
}

fn whole(alloc: Global) -> Result<Vec<Part>, NoMemory>
    ensures { IfOk result (λ parts. parts.items ≡ Anywhere ∷ Anything ∷ Whole ∷ []) }
{
    Ok(vec![in alloc; Part::Anywhere, Part::Anything, Part::Whole]?)
}

/// The parts that a touch is of.
pub(crate) fn parts(alloc: Global, touch: &Touch) -> Result<Vec<Part>, NoMemory>
    ensures { IfOk result (λ parts. parts.items ≡ parts_of touch.now) }
{
    match touch {
        Touch::Keys { keys, .. } => of_keys(alloc, keys.as_slice()),
        Touch::Tail { number, .. } => of_tail(alloc, *number),
        Touch::Whole { .. } => whole(alloc),
        Touch::Names { .. } => whole(alloc),
        Touch::Every { .. } => Ok(vec![in alloc; Part::Anywhere, Part::Everywhere]?),
    }
}

/// The parts that a touch asks for.
pub(crate) fn asked(alloc: Global, touch: &Touch) -> Result<Vec<Part>, NoMemory>
    ensures { IfOk result (λ parts. parts.items ≡ asked_by touch.now) }
{
    match touch {
        Touch::Keys { keys, .. } => asked_by_keys(alloc, keys.as_slice()),
        Touch::Tail { number, .. } => asked_by_tail(alloc, *number),
        Touch::Whole { .. } => Ok(vec![in alloc; Part::Everywhere, Part::Anything]?),
        Touch::Names { .. } => Ok(vec![in alloc; Part::Everywhere, Part::Anything]?),
        Touch::Every { .. } => Ok(vec![in alloc; Part::Anywhere]?),
    }
}

fn own_mailbox(touch: &Touch) -> Option<Spelled<'_>>
    ensures { option_map (λ name. name.0.now) result ≡ mailbox_of touch.now }
{
    match touch.mailbox() {
        Some(name) => Some(Spelled(name.bytes())),
        None => None,
    }
}

/// Whether it is a part of all places of a user.
fn of_user(part: Part) -> bool
    ensures { result ≡ is_users part }
{
    match part {
        Part::Anywhere => true,
        Part::Everywhere => true,
        Part::Anything => false,
        Part::Whole => false,
        Part::Tails => false,
        Part::TailOf(_) => false,
        Part::KeysOf(_) => false,
        Part::At(_, _) => false,
        Part::Level(_) => false,
    }
}

fn mailbox(touch: &Touch, part: Part) -> Option<Spelled<'_>>
    ensures { option_map (λ name. name.0.now) result ≡ mailbox_at touch.now part }
{
    if of_user(part) {
        return None;
    }
    own_mailbox(touch)
}

/// A slot at the place of a touch, or at its user.
pub(crate) fn slot_on(touch: &Touch, part: Part) -> Slot<'_>
    ensures { (written : _) → spot_of result written ≡ spot_on touch.now written part }
{
    Slot {
        mailbox: mailbox(touch, part),
        part,
        user: touch.user().0,
    }
}
