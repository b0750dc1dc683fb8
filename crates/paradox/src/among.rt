//! Looking for the members of one list in another, with no memory taken.
//!
//! `broken` takes no memory, so it looks for each shown key in what is there now behind the place where the one before was found,
//! and then from the front. What an item shows stands in the order of its keys and a LIST in byte order, so this is one walk
//! through both lists. Only two lists of a DELETE's moved keys in orders that have nothing in common could take the product of
//! their lengths.
ghost use Rattle.std.specs.Prelude.{◌≡◌, Bool, ◌≤◌, ◌<◌, length, position, is_some, IfSome};
ghost use Rattle.std.specs.List.{list_any};
ghost use Rattle.paradox.specs.Answers as spec;

/// A way in which two things can be the same.
pub(crate) trait Sameness<T> {
    ghost same: { T → T → Bool };

    fn same(one: &T, other: &T) -> bool
        ensures { result ≡ same one.now other.now };
}

/// The first place, from 0, at which a list has the wanted.
fn find_place<T, S: Sameness<T>>(wanted: &T, items: &[T]) -> Option<usize>
    ensures { result ≡ position (S.same wanted.now) items.now }
{
    items.iter().position(|item| S::same(wanted, item))
}

/// A place at which a list has the wanted: the next from a place on, or one before it.
fn find_from<T, S: Sameness<T>>(wanted: &T, items: &[T], from: usize) -> Option<usize>
    requires { from ≤ length items.now }
    ensures found { is_some result ≡ list_any (S.same wanted.now) items.now }
    ensures place { IfSome result (λ place. place < length items.now) }
{
    let (before, behind) = items.split_at(from);
    match find_place::<T, S>(wanted, behind) {
        Some(place) => Some(from + place),
        None => find_place::<T, S>(wanted, before),
    }
}

/// Whether each of some is among the others. Where both have the same order, each is found right behind the one
/// before, so all is done in one walk through the others.
pub(crate) fn all_among<T, S: Sameness<T>>(some: &[T], others: &[T]) -> bool
    ensures { result ≡ spec.all_among S.same some.now others.now }
{
    let mut from = 0;
    for wanted in some {
        match find_from::<T, S>(wanted, others, from) {
            Some(place) => from = place + 1,
            None => return false,
        }
    }
    true
}
