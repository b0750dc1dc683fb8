//! Whether what was shown still holds.
//!
//! `broken` is told for any two answers. Of two that are not of one form it says that nothing is broken; a desk never asks that.
//!
//! Missing comes before Changed, and before Redirected, over the whole list: a FETCH that lost one message and has another
//! changed is told as Missing.
//!
//! Keys that a DELETE or EXPUNGE leaves or moves now are compared with those shown: fewer are no break.
ghost use Rattle.std.specs.Prelude.{◌≡◌, Bool, bytes_eq};
ghost use Rattle.verb_core.specs.Mailboxes.{same_key};
ghost use Rattle.verb_core.specs.declared.item.Shown.TheVariants as shows;
ghost use Rattle.paradox.specs.Answers as spec;

use crate::Reason;
use crate::among::{Sameness, all_among};
use undo_base::{Key, Keys, Name, Names};
use verb_core::{Deed, Item, Shown, Sight, Sights, Way};

/// Messages are the same by their keys.
struct ByKey;

/// Sights are the same by their messages.
struct ByMessage;

/// Sights are the same by their messages and the texts of these.
struct ByText;

/// Names are the same by their bytes.
struct ByBytes;

impl Sameness<Key> for ByKey {
    ghost same = { same_key };

    fn same(one: &Key, other: &Key) -> bool {
        one.item == other.item && one.index == other.index
    }
}

impl Sameness<Sight> for ByMessage {
    ghost same = { spec.same_message };

    fn same(one: &Sight, other: &Sight) -> bool {
        one.key.item == other.key.item && one.key.index == other.key.index
    }
}

impl Sameness<Sight> for ByText {
    ghost same = { spec.same_sight };

    fn same(one: &Sight, other: &Sight) -> bool {
        one.key.item == other.key.item && one.key.index == other.key.index && one.rev == other.rev
    }
}

impl Sameness<Name> for ByBytes {
    ghost same = { bytes_eq };

    fn same(one: &Name, other: &Name) -> bool {
        one.bytes() == other.bytes()
    }
}

fn given(cause: bool, reason: Reason) -> Option<Reason>
    ensures { result ≡ spec.given cause reason }
{
    cause.then_some(reason)
}

fn has_all_keys(some: &Keys, others: &Keys) -> bool
    ensures { result ≡ spec.all_among same_key some.now others.now }
{
    all_among::<Key, ByKey>(some.as_slice(), others.as_slice())
}

fn seen_amiss(looks: bool, shown: &[Sight], now: &[Sight]) -> Option<Reason>
    ensures { result ≡ spec.seen_amiss looks shown.now now.now }
{
    if !all_among::<Sight, ByMessage>(shown, now) {
        return Some(Reason::Missing);
    }
    if !looks {
        return None;
    }
    given(!all_among::<Sight, ByText>(shown, now), Reason::Changed)
}

fn is_fewer(shown: Option<u32>, now: Option<u32>) -> bool
    ensures { result ≡ spec.is_fewer shown now }
{
    match shown {
        None => false,
        Some(shown) => match now {
            None => true,
            Some(now) => now < shown,
        },
    }
}

fn is_renamed_amiss(shown: Way, now: Way) -> bool
    ensures { result ≡ spec.is_renamed_amiss shown now }
{
    match now {
        Way::Plain => false,
        Way::NoSource => !matches!(shown, Way::NoSource),
        Way::Merged => !matches!(shown, Way::Merged),
    }
}

fn copied_amiss(shown: &Keys, was: bool, now: &Keys, is: bool) -> Option<Reason>
    ensures { result ≡ spec.copied_amiss shown.now was now.now is }
{
    if !has_all_keys(shown, now) {
        return Some(Reason::Missing);
    }
    given(is && !was, Reason::Redirected)
}

fn after_seen(looks: bool, shown: &Sights, now: &Shown) -> Option<Reason>
    ensures { result ≡ spec.amiss looks (shows.Seen shown.now) now.now }
{
    match now {
        Shown::Seen(now) => seen_amiss(looks, shown.as_slice(), now.as_slice()),
        _ => None,
    }
}

fn after_names(shown: &Names, now: &Shown) -> Option<Reason>
    ensures { (looks : Bool) → result ≡ spec.amiss looks (shows.Names shown.now) now.now }
{
    match now {
        Shown::Names(now) => given(
            !all_among::<Name, ByBytes>(shown.as_slice(), now.as_slice()),
            Reason::NoName,
        ),
        _ => None,
    }
}

fn after_count(shown: Option<u32>, now: &Shown) -> Option<Reason>
    ensures { (looks : Bool) → result ≡ spec.amiss looks (shows.Count shown) now.now }
{
    match now {
        Shown::Count(now) => given(is_fewer(shown, *now), Reason::Fewer),
        _ => None,
    }
}

fn after_done(shown: &Keys, now: &Shown) -> Option<Reason>
    ensures { (looks : Bool) → result ≡ spec.amiss looks (shows.Done shown.now) now.now }
{
    match now {
        Shown::Done(now) => given(!has_all_keys(shown, now), Reason::Missing),
        _ => None,
    }
}

fn after_copied(shown: &Keys, was: bool, now: &Shown) -> Option<Reason>
    ensures { (looks : Bool) → result ≡ spec.amiss looks (shows.Copied shown.now was) now.now }
{
    match now {
        Shown::Copied { keys, redirected } => copied_amiss(shown, was, keys, *redirected),
        _ => None,
    }
}

fn after_put(was: bool, now: &Shown) -> Option<Reason>
    ensures { (looks : Bool) → result ≡ spec.amiss looks (shows.Put was) now.now }
{
    match now {
        Shown::Put { redirected } => given(*redirected && !was, Reason::Redirected),
        _ => None,
    }
}

fn after_left(shown: &Keys, now: &Shown) -> Option<Reason>
    ensures { (looks : Bool) → result ≡ spec.amiss looks (shows.Left shown.now) now.now }
{
    match now {
        Shown::Left(now) => given(!has_all_keys(now, shown), Reason::Left),
        _ => None,
    }
}

fn after_way(shown: Way, now: &Shown) -> Option<Reason>
    ensures { (looks : Bool) → result ≡ spec.amiss looks (shows.Way shown) now.now }
{
    match now {
        Shown::Way(now) => given(is_renamed_amiss(shown, *now), Reason::Renamed),
        _ => None,
    }
}

fn after_moved(shown: &Keys, now: &Shown) -> Option<Reason>
    ensures { (looks : Bool) → result ≡ spec.amiss looks (shows.Moved shown.now) now.now }
{
    match now {
        Shown::Moved(now) => given(!has_all_keys(now, shown), Reason::Moved),
        _ => None,
    }
}

fn looks_at_texts(deed: &Deed) -> bool
    ensures { result ≡ spec.looks_at_texts deed.now }
{
    match deed {
        Deed::Fetch { shows_body, .. } => *shows_body,
        _ => false,
    }
}

/// Why what an item's user was shown no longer holds, where the same item would show this now; `None` where it holds.
/// It takes no memory.
pub fn broken(item: &Item, now: &Shown) -> Option<Reason>
    ensures { result ≡ spec.broken item.now now.now }
{
    match &item.shown {
        Shown::Nothing => None,
        Shown::Seen(shown) => after_seen(looks_at_texts(&item.deed), shown, now),
        Shown::Names(shown) => after_names(shown, now),
        Shown::Count(shown) => after_count(*shown, now),
        Shown::Done(shown) => after_done(shown, now),
        Shown::Copied { keys, redirected } => after_copied(keys, *redirected, now),
        Shown::Put { redirected } => after_put(*redirected, now),
        Shown::Left(shown) => after_left(shown, now),
        Shown::Way(shown) => after_way(*shown, now),
        Shown::Moved(shown) => after_moved(shown, now),
    }
}
