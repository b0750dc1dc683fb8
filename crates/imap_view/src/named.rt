//! The messages that a command names.
//!
//! A body whose length is not known counts as empty, which never comes about.
ghost use Rattle.std.specs.Prelude.{◌≡◌, ℕ, ◌<◌, ◌++◌, [], List, Err, true, false, length, option_and_then, option_copied, option_map, slice_get, unwrap_or, IfOk, OnOk};
ghost use Rattle.std.specs.List.{cons_option};
ghost use Rattle.shelf.specs.Notes.{size_of};
ghost use Rattle.imap_stream.specs.declared.picks.SetRange.{SetRange as TheRange};
ghost use Rattle.imap_stream.specs.Sets.{Picks};
ghost use Rattle.imap_view.specs.Views.{entry_of, is_by_uid, is_in_order};
ghost use Rattle.imap_view.specs.Named as spec;

use crate::messages::{Known, View, find_near};
use crate::picks::pick_uids;
use imap_fetch::{Message, Messages};
use imap_lines::{PickRefused, SetText};
use imap_stream::pick_numbers;
use shelf::Shelf;
use std::alloc::{AllocError, Global};
use undo_base::{Key, Keys, NoMemory, Places};
use verb_core::{Body, Entry};

/// Why nothing is picked by sequence number.
fn unpicked(why: PickRefused) -> Result<Option<Places>, NoMemory>
    ensures { IfOk result (λ places. (set : List TheRange) → (uids : List ℕ) → Picks set uids false (Err why) → places ≡ spec.places_by uids set false) }
{
    match why {
        PickRefused::Number { given: _ } => Ok(None),
        PickRefused::NoMemory => Err(NoMemory),
    }
}

/// The places in a view of the messages whose sequence numbers a set names.
fn numbers_named(alloc: Global, view: &View, set: &SetText) -> Result<Option<Places>, NoMemory>
    ensures { IfOk result (λ places. places ≡ spec.places_named view.now set.now false) }
{
    match pick_numbers(alloc, set, view.len()) {
        Ok(places) => Ok(Some(places)),
        Err(why) => unpicked(why),
    }
}

/// The places in a view of the messages that a set names; none where it names a number that the view does not have. It copies
/// nothing of the view: UIDs are found by halves, and sequence numbers are places.
pub fn places_named(
    alloc: Global,
    view: &View,
    set: &SetText,
    by_uid: bool,
) -> Result<Option<Places>, NoMemory>
    requires { is_in_order view.now ≡ true }
    ensures { IfOk result (λ places. places ≡ spec.places_named view.now set.now by_uid) }
{
    if by_uid {
        let places = pick_uids(alloc, view.as_slice(), set.as_slice())?;
        Ok(Some(places))
    } else {
        numbers_named(alloc, view, set)
    }
}

fn key_at(view: &[Known], place: u32) -> Option<Key>
    ensures { result ≡ spec.key_at view.now place }
{
    match view.get(place as usize) {
        None => None,
        Some(known) => Some(known.key),
    }
}

fn all_keys(alloc: Global, view: &[Known], places: &[u32]) -> Result<Vec<Key>, AllocError>
    ensures { IfOk result (λ keys. keys.items ≡ spec.keys_at view.now places.now) }
{
    places
        .iter()
        .filter_map(|place| key_at(view, *place))
        .collect(alloc)
}

/// The keys of the messages at these places.
pub fn keys_at(alloc: Global, view: &View, places: &Places) -> Result<Keys, NoMemory>
    ensures { IfOk result (λ keys. keys ≡ spec.keys_at view.now places.now) }
{
    let keys = all_keys(alloc, view.as_slice(), places.as_slice())?;
    Ok(Keys::from_vec(keys))
}

/// How long a text is: 0 where it is not known. `near` is where its note is looked for first; what is left there serves the next.
pub fn length_of(sizes: &Shelf, body: Body, near: &mut usize) -> u32
    ensures { result ≡ unwrap_or (size_of sizes.now.notes body) 0 }
{
    match sizes.size_near(body, near) {
        None => 0,
        Some(size) => size,
    }
}

/// A message with its place and its number, as it lies now.
fn message_of(
    sizes: &Shelf,
    entries: &[Entry],
    place: usize,
    number: u32,
    known: Known,
    near: &mut usize,
) -> Option<Message>
    requires { is_by_uid entries.now ≡ true }
    ensures { result ≡ option_map (λ e. record { place = number; entry = e; size = unwrap_or (size_of sizes.now.notes e.body) 0 }) (entry_of entries.now known) }
{
    match find_near(entries, place, known) {
        None => None,
        Some(entry) => Some(Message {
            place: number,
            entry: *entry,
            size: length_of(sizes, entry.body, near),
        }),
    }
}

/// The message at a place, with its number from 1, as it lies now. Asked of places in their order, with one `near` that is 0 at
/// first, it finds most sizes with no search.
fn message_at(
    sizes: &Shelf,
    entries: &[Entry],
    view: &[Known],
    place: u32,
    near: &mut usize,
) -> Option<Message>
    requires order { is_by_uid entries.now ≡ true }
    requires few { length view.now < 4294967295 }
    ensures { result ≡ spec.message_at (size_of sizes.now.notes) entries.now view.now place }
{
    match view.get(place as usize) {
        None => None,
        Some(known) => message_of(sizes, entries, place as usize, place + 1, *known, near),
    }
}

/// The entry of the message at a place of a view, as it lies now. It is looked for at that place of the mailbox first.
pub fn entry_at<'a>(entries: &'a [Entry], view: &[Known], place: u32) -> Option<&'a Entry>
    requires { is_by_uid entries.now ≡ true }
    ensures { option_copied result ≡ option_and_then (entry_of entries.now) (slice_get view.now place) }
{
    match view.get(place as usize) {
        None => None,
        Some(known) => find_near(entries, place as usize, *known),
    }
}

/// Adds a message, where there is one.
fn push_row(rows: &mut Messages, row: Option<Message>) -> Result<(), NoMemory>
    ensures { OnOk result (rows.new ≡ rows.old ++ cons_option row []) }
{
    match row {
        None => Ok(()),
        Some(row) => rows.push(row),
    }
}

#[tactic(auto, using(crate::proofs::Placed::rows_more))]
fn all_rows(
    alloc: Global,
    sizes: &Shelf,
    entries: &[Entry],
    view: &[Known],
    places: &[u32],
) -> Result<Messages, NoMemory>
    requires order { is_by_uid entries.now ≡ true }
    requires few { length view.now < 4294967295 }
    ensures { IfOk result (λ rows. rows ≡ spec.rows_at (size_of sizes.now.notes) entries.now view.now places.now) }
{
    let mut rows = Messages::new(alloc);
    let mut near = 0;
    for place in places {
        let row = message_at(sizes, entries, view, *place, &mut near);
        push_row(&mut rows, row)?;
    }
    Ok(rows)
}

/// The messages at these places that are still there.
pub fn rows_at(
    alloc: Global,
    sizes: &Shelf,
    entries: &[Entry],
    view: &View,
    places: &Places,
) -> Result<Messages, NoMemory>
    requires { is_by_uid entries.now ≡ true }
    ensures { IfOk result (λ rows. rows ≡ spec.rows_at (size_of sizes.now.notes) entries.now view.now places.now) }
{
    if view.len() >= u32::MAX as usize {
        return Err(NoMemory);
    }
    all_rows(alloc, sizes, entries, view.as_slice(), places.as_slice())
}
