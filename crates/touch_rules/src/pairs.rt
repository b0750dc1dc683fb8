//! Which items are independent, and which commute.
ghost use Rattle.std.specs.Prelude.{◌≡◌, ◌||◌, not, nat_lt, option_copied};
ghost use Rattle.std.specs.List.{list_all};
ghost use Rattle.verb_core.specs.Mailboxes.{is_among};
ghost use Rattle.touch_rules.specs.Commuting.{same_mailbox, share_place, both_read, have_common, has_number, others_than, is_none_of, different, are_independent, commute};

use crate::{Touch, TouchSet};
use undo_base::{Key, Name};

fn is_same_mailbox(a: Option<&Name>, b: Option<&Name>) -> bool
    ensures { result ≡ same_mailbox (option_copied a.entry) (option_copied b.entry) }
{
    match a {
        Some(a) => match b {
            Some(b) => a == b,
            None => false,
        },
        None => match b {
            Some(_) => false,
            None => true,
        },
    }
}

fn shares_place(a: &Touch, b: &Touch) -> bool
    ensures { result ≡ share_place a.now b.now }
{
    a.user() == b.user()
        && (a.is_every() || b.is_every() || is_same_mailbox(a.mailbox(), b.mailbox()))
}

fn only_read(a: &Touch, b: &Touch) -> bool
    ensures { result ≡ both_read a.now b.now }
{
    !(a.writes() || b.writes())
}

fn is_one_of(key: Key, keys: &[Key]) -> bool
    ensures { result ≡ is_among keys.now key }
{
    keys.iter().any(|other| key == *other)
}

fn some_common(keys: &[Key], others: &[Key]) -> bool
    ensures { result ≡ have_common keys.now others.now }
{
    keys.iter().any(|key| is_one_of(*key, others))
}

fn some_of(keys: &[Key], number: u32) -> bool
    ensures { result ≡ has_number number keys.now }
{
    keys.iter().any(|key| key.item == number)
}

fn of_keys(keys: &[Key], other: &Touch) -> bool
    ensures { result ≡ others_than keys.now other.now }
{
    match other {
        Touch::Keys { keys: others, .. } => !some_common(keys, others.as_slice()),
        Touch::Tail { number, .. } => !some_of(keys, *number),
        Touch::Whole { .. } => false,
        Touch::Names { .. } => false,
        Touch::Every { .. } => false,
    }
}

fn of_tail(number: u32, other: &Touch) -> bool
    ensures { result ≡ is_none_of number other.now }
{
    match other {
        Touch::Keys { keys, .. } => !some_of(keys.as_slice(), number),
        Touch::Tail { .. } => false,
        Touch::Whole { .. } => false,
        Touch::Names { .. } => false,
        Touch::Every { .. } => false,
    }
}

fn are_different(a: &Touch, b: &Touch) -> bool
    ensures { result ≡ different a.now b.now }
{
    match a {
        Touch::Keys { keys, .. } => of_keys(keys.as_slice(), b),
        Touch::Tail { number, .. } => of_tail(*number, b),
        Touch::Whole { .. } => false,
        Touch::Names { .. } => false,
        Touch::Every { .. } => false,
    }
}

fn is_apart(a: &Touch, b: &Touch) -> bool
    ensures { result ≡ (not (share_place a.now b.now) || both_read a.now b.now) }
{
    !shares_place(a, b) || only_read(a, b)
}

fn may_swap(a: &Touch, b: &Touch) -> bool
    ensures { result ≡ (not (share_place a.now b.now) || both_read a.now b.now || different a.now b.now) }
{
    !shares_place(a, b) || only_read(a, b) || are_different(a, b)
}

fn is_apart_from(a: &Touch, set: &[Touch]) -> bool
    ensures { result ≡ list_all (λ b. not (share_place a.now b) || both_read a.now b) set.now }
{
    set.iter().all(|b| is_apart(a, b))
}

fn may_swap_with(a: &Touch, set: &[Touch]) -> bool
    ensures { result ≡ list_all (λ b. not (share_place a.now b) || both_read a.now b || different a.now b) set.now }
{
    set.iter().all(|b| may_swap(a, b))
}

/// Whether two items only read what both touch.
pub fn independent(a: &TouchSet, b: &TouchSet) -> bool
    ensures { result ≡ are_independent a.now b.now }
{
    a.as_slice()
        .iter()
        .all(|touch| is_apart_from(touch, b.as_slice()))
}

/// Whether two items may come in either order: what both touch they only read, or they touch different messages there.
pub fn commutes(a: &TouchSet, b: &TouchSet) -> bool
    ensures { result ≡ commute a.now b.now }
{
    a.as_slice()
        .iter()
        .all(|touch| may_swap_with(touch, b.as_slice()))
}

/// Of two places in the timeline, whether the first is the earlier one, whose item goes first.
pub fn preferred(a: u32, b: u32) -> bool
    ensures { result ≡ nat_lt a b }
{
    a < b
}
