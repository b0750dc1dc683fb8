//! Where the texts that items bring lie, and how long they are.
//!
//! The timeline keeps items without their texts; the shelf knows of each text the record's place, from where in its payload, and
//! how long it is. A notice keeps its text, since no record holds it, and is noted with its cycle's place, from 0, for its size
//! alone.
//!
//! A cycle makes the notes anew, for the new timeline alone. Each body has the note that it had, or that of the cycle's own
//! record, whose place is known before it is sealed (the last gate, and the record's length). Nothing of a dropped or replaced
//! text stays but for what a withdrawal can bring back. Where a note is missing or has another length than the item knows, no
//! memory is found, which never comes: so no premise on a disk is needed.
//!
//! The texts of items that can come back stay noted, beside those of the items in force. That of an item whose text the cycle
//! replaced has its own note, under its own rev.
ghost use Rattle.std.specs.Prelude.{◌≡◌, ◌<◌, [], ◌∷◌, ◌++◌, length, option_map, Some, None, IfOk, OnOk, if◌then◌else◌};
ghost use Rattle.std.specs.List.{AllByRecursion};
ghost use Rattle.std.specs.List.Sorted.{IsPermutation};
ghost use Rattle.std.specs.Result.{IsOk};
ghost use Rattle.verb_core.specs.declared.mailbox.Body.{Body as TheBody};
ghost use Rattle.verb_core.specs.Deeds.{is_notice as is_of_notice};
ghost use Rattle.verb_core.specs.Items.{NumbersApart, text_in};
ghost use Rattle.shelf.specs.declared.note.Note.{Note as TheNote};
ghost use Rattle.shelf.specs.Notes.{note_of, same_body};
ghost use Rattle.store_kept.specs.Naming.{texts_come};
ghost use Rattle.mail_desk.specs.Noting.{IsNotedBefore, IsNotedBy, IsNotedIn, Knows, note_by, renoted, rows_before, rows_by};
ghost use Rattle.mail_desk.specs.Timeline.{NotesText, SizesOf, body_of};

use seal_log::Place;
use shelf::{Note, Shelf};
use std::alloc::Global;
use stored_items::StoredItem;
use undo_base::{NoMemory, PastText};
use verb_core::{Body, Item};

/// The place of a cycle's own record, and where in it the texts lie that the cycle brings, by their bodies.
#[derive(Drop)]
pub struct Fresh {
    pub place: Place,
    pub shelf: Shelf,
}

/// The body of the text that an item brings.
fn body_by(item: &Item) -> Body
    ensures { result ≡ body_of item.now }
{
    Body {
        origin: item.number,
        rev: item.rev,
    }
}

/// Notes the text that an item brings, so far behind the front of the payload at a place. There is room for a note.
pub(crate) fn note_text(shelf: &mut Shelf, item: &Item, place: Place, from: u32)
    requires { 0 < shelf.old.room }
    ensures notes { NotesText (text_in item.now.deed) (body_of item.now) place from shelf.old.notes shelf.new.notes }
    ensures marks { shelf.new.marks ≡ shelf.old.marks }
{
    if let Some(text) = item.deed.text() {
        shelf.note(body_by(item), place, from, text.bytes().len() as u32);
    }
}

/// The same of an item whose text lies elsewhere.
pub(crate) fn note_stored(shelf: &mut Shelf, item: &StoredItem, place: Place, from: u32)
    requires { 0 < shelf.old.room }
    ensures notes { NotesText (text_in item.now.deed) (body_of item.now) place from shelf.old.notes shelf.new.notes }
    ensures marks { shelf.new.marks ≡ shelf.old.marks }
{
    if let Some(size) = item.size() {
        shelf.note(body_in(item), place, from, size);
    }
}

// ---- after a cycle

/// The body of the text that an item brings.
fn body_in(item: &StoredItem) -> Body
    ensures { result ≡ body_of item.now }
{
    item.body()
}

/// The note of a notice's text, which no record holds.
fn notice_note(item: &StoredItem, place: Place, size: u32) -> Option<Note>
    ensures { result ≡ (if is_of_notice item.now.deed then Some (record { place = place; from = 0; length = size }) else None) }
{
    if item.is_notice() {
        Some(Note {
            place,
            from: 0,
            length: size,
        })
    } else {
        None
    }
}

/// The note of the text that an item brings, whose size this is.
fn found_note(old: &Shelf, fresh: &Fresh, item: &StoredItem, size: u32) -> Option<Note>
    requires { option_map length (text_in item.now.deed) ≡ Some size }
    ensures { option_map (note_by old.now.notes fresh.now item.now) (text_in item.now.deed) ≡ Some result }
{
    let body = body_in(item);
    old.find(body)
        .or(fresh.shelf.find(body))
        .or(notice_note(item, fresh.place, size))
}

/// A note that was found, if it has a length; else no memory, which is never wanted where the note has it.
fn of_length(note: Option<Note>, size: u32) -> Result<Note, NoMemory>
    ensures found { IfOk result (λ found. note ≡ Some found) }
    ensures length { IfOk result (λ found. found.length ≡ size) }
    ensures only { (found : TheNote) → note ≡ Some found → found.length ≡ size → IsOk result }
{
    match note {
        Some(note) => {
            if note.length == size {
                return Ok(note);
            }
            Err(NoMemory)
        }
        None => Err(NoMemory),
    }
}

/// Bodies, each with the note of its text.
type NotedBodies = Vec<(Body, Note)>;

/// Adds the body of a text of that size that an item brings.
fn push_sized(
    rows: &mut NotedBodies,
    old: &Shelf,
    fresh: &Fresh,
    item: &StoredItem,
    size: u32,
) -> Result<(), NoMemory>
    requires { option_map length (text_in item.now.deed) ≡ Some size }
    ensures rows { OnOk result (rows.new.items ≡ rows.old.items ++ rows_by old.now.notes fresh.now (item.now ∷ [])) }
    ensures noted { OnOk result (IsNotedBy old.now.notes fresh.now item.now) }
{
    let note = of_length(found_note(old, fresh, item, size), size)?;
    rows.push((body_in(item), note))?;
    Ok(())
}

/// Adds the body of the text that an item brings, where it brings one.
fn push_noted(
    rows: &mut NotedBodies,
    old: &Shelf,
    fresh: &Fresh,
    item: &StoredItem,
) -> Result<(), NoMemory>
    ensures rows { OnOk result (rows.new.items ≡ rows.old.items ++ rows_by old.now.notes fresh.now (item.now ∷ [])) }
    ensures noted { OnOk result (IsNotedBy old.now.notes fresh.now item.now) }
{
    match item.size() {
        Some(size) => push_sized(rows, old, fresh, item, size),
        None => Ok(()),
    }
}

/// Adds the bodies of the texts that items bring, in the order of the items.
fn push_bodies(
    rows: &mut NotedBodies,
    old: &Shelf,
    fresh: &Fresh,
    items: &[StoredItem],
) -> Result<(), NoMemory>
    ensures rows { OnOk result (rows.new.items ≡ rows.old.items ++ rows_by old.now.notes fresh.now items.now) }
    ensures noted { OnOk result (AllByRecursion (IsNotedBy old.now.notes fresh.now) items.now) }
{
    for item in items {
        push_noted(rows, old, fresh, item)?;
    }
    Ok(())
}

/// Adds the body of a text of that size that comes with a base.
fn push_old(rows: &mut NotedBodies, old: &Shelf, body: Body, size: u32) -> Result<(), NoMemory>
    ensures { OnOk result ((found : TheNote) × (note_of old.now.notes body ≡ Some found) × (found.length ≡ size) × (rows.new.items ≡ rows.old.items ++ (body, found) ∷ [])) }
{
    let note = of_length(old.find(body), size)?;
    rows.push((body, note))?;
    Ok(())
}

/// Adds the body of a text that comes with a base, once it has come.
fn push_before(
    rows: &mut NotedBodies,
    old: &Shelf,
    row: &(Body, Option<PastText>),
) -> Result<(), NoMemory>
    ensures rows { OnOk result (rows.new.items ≡ rows.old.items ++ rows_before old.now.notes (texts_come (row.now ∷ []))) }
    ensures noted { OnOk result (AllByRecursion (IsNotedBefore old.now.notes) (texts_come (row.now ∷ []))) }
{
    match &row.1 {
        Some(text) => push_old(rows, old, row.0, text.len()),
        None => Ok(()),
    }
}

/// Adds the bodies of the texts that come with a base.
fn push_all_before(
    rows: &mut NotedBodies,
    old: &Shelf,
    before: &[(Body, Option<PastText>)],
) -> Result<(), NoMemory>
    ensures rows { OnOk result (rows.new.items ≡ rows.old.items ++ rows_before old.now.notes (texts_come before.now)) }
    ensures noted { OnOk result (AllByRecursion (IsNotedBefore old.now.notes) (texts_come before.now)) }
{
    for row in before {
        push_before(rows, old, row)?;
    }
    Ok(())
}

/// The bodies of the texts that come with a base, behind them those of the texts that items bring, others behind them, and more behind
/// those, in the order of the items.
fn noted_bodies(
    alloc: Global,
    old: &Shelf,
    fresh: &Fresh,
    before: &[(Body, Option<PastText>)],
    front: &[StoredItem],
    behind: &[StoredItem],
    later: &[StoredItem],
) -> Result<NotedBodies, NoMemory>
    ensures rows { IfOk result (λ rows. rows.items ≡ rows_before old.now.notes (texts_come before.now) ++ rows_by old.now.notes fresh.now ((front.now ++ behind.now) ++ later.now)) }
    ensures before { OnOk result (AllByRecursion (IsNotedBefore old.now.notes) (texts_come before.now)) }
    ensures noted { OnOk result (AllByRecursion (IsNotedBy old.now.notes fresh.now) ((front.now ++ behind.now) ++ later.now)) }
{
    let mut rows = Vec::new(alloc);
    push_all_before(&mut rows, old, before)?;
    push_bodies(&mut rows, old, fresh, front)?;
    push_bodies(&mut rows, old, fresh, behind)?;
    push_bodies(&mut rows, old, fresh, later)?;
    Ok(rows)
}

/// Puts bodies in the order in which they came to be, so that a shelf takes each at its end.
fn sort_bodies(rows: &mut NotedBodies)
    ensures { IsPermutation rows.old.items rows.new.items }
{
    rows.sort_unstable_by_key(|row| (row.0.origin.max(row.0.rev), row.0.origin));
}

/// Notes a body. There is room for a note.
fn note_row(shelf: &mut Shelf, row: (Body, Note))
    requires { 0 < shelf.old.room }
    ensures { (other : TheBody) → note_of shelf.new.notes other ≡ (if same_body row.0 other then Some row.1 else note_of shelf.old.notes other) }
{
    shelf.note(row.0, row.1.place, row.1.from, row.1.length);
}

/// A shelf of bodies.
fn shelved(alloc: Global, rows: &[(Body, Note)]) -> Result<Shelf, NoMemory>
    ensures { IfOk result (λ shelf. Knows shelf.notes rows.now (length rows.now)) }
{
    let mut shelf = Shelf::new(alloc);
    for row in rows {
        match shelf.note_room(1) {
            Ok(()) => note_row(&mut shelf, *row),
            Err(NoMemory) => {
                drop(shelf);
                return Err(NoMemory);
            }
        }
    }
    Ok(shelf)
}

/// Where all texts lie: those that come with a base, those of the first items, of those behind them, and of those that can come back, which lay
/// somewhere before. They lie where they lay before, or else in a cycle's own record; a notice's text is noted with the record's place, from 0. Where
/// a note has another length than its text it finds no memory.
pub(crate) fn noted_anew(
    alloc: Global,
    old: &Shelf,
    fresh: &Fresh,
    before: &[(Body, Option<PastText>)],
    front: &[StoredItem],
    behind: &[StoredItem],
    later: &[StoredItem],
) -> Result<Shelf, NoMemory>
    requires apart { NumbersApart (front.now ++ behind.now) }
    requires noted { AllByRecursion (IsNotedIn old.now.notes) later.now }
    ensures notes { IfOk result (λ shelf. (body : TheBody) → note_of shelf.notes body ≡ renoted old.now.notes fresh.now (texts_come before.now) ((front.now ++ behind.now) ++ later.now) body) }
    ensures sizes { IfOk result (λ shelf. SizesOf shelf.notes (texts_come before.now) ((front.now ++ behind.now) ++ later.now)) }
{
    let mut rows = noted_bodies(alloc, old, fresh, before, front, behind, later)?;
    sort_bodies(&mut rows);
    shelved(alloc, rows.as_slice())
}
