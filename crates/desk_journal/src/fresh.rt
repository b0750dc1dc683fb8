//! Where the texts lie that a record brings: in the record itself. A withdrawal brings none.
ghost use Rattle.std.specs.Prelude.{◌≡◌, ◌+◌, ◌≢◌, ℕ, [], List, length, take, drop, IfOk, OnOk};
ghost use Rattle.std.specs.List.{AllZip};
ghost use Rattle.verb_core.specs.declared.item.Deed.TheVariants.{Act as Acts};
ghost use Rattle.verb_core.specs.Items.{text_in};
ghost use Rattle.verb_bytes.specs.declared.journal.JournalRecord.TheVariants.{Cycle};
ghost use Rattle.verb_bytes.specs.Places.{LiesThere};
ghost use Rattle.verb_bytes.specs.Spelling.{record_bytes};
ghost use Rattle.desk_journal.specs.Placing.{GivenLie, KeepsReplaced, ReplacedLie, TakesFirst, TakesGiven, texts_given, texts_replacing};
ghost use Rattle.desk_journal.specs.Stored.{IsFresh};

use mail_desk::Fresh;
use seal_log::Place;
use shelf::Shelf;
use std::alloc::Global;
use undo_base::{NoMemory, Text};
use verb_bytes::{CycleAsk, TextPlace, ask_text_places};
use verb_core::{Act, Body};

/// Notes the first of the texts that are left of the record at a place, and answers the others.
fn note_first<'a>(
    shelf: &mut Shelf,
    body: Body,
    spots: &'a [TextPlace],
    place: Place,
) -> Result<&'a [TextPlace], NoMemory>
    ensures { IfOk result (λ rest. TakesFirst place body spots.now rest.now shelf.old.notes shelf.new.notes) }
{
    match spots {
        [] => Err(NoMemory),
        [spot, rest @ ..] => {
            shelf.note_room(1)?;
            shelf.note(body, place, spot.from, spot.length);
            Ok(rest)
        }
    }
}

/// Notes the texts that replace others, each by its item and the cycle: of two for one item the last.
fn note_replaced(
    shelf: &mut Shelf,
    cycle: u32,
    replaces: &[(u32, Text)],
    spots: &[TextPlace],
    place: Place,
) -> Result<(), NoMemory>
    ensures { (bytes : List ℕ) → AllZip (LiesThere bytes) spots.now (texts_replacing replaces.now)
        → OnOk result (ReplacedLie cycle replaces.now place bytes shelf.new.notes) }
{
    let mut rest = spots;
    for row in replaces {
        let body = Body {
            origin: row.0,
            rev: cycle,
        };
        rest = note_first(shelf, body, rest, place)?;
    }
    Ok(())
}

/// Notes the text that an act gives, where it gives one, by the number of its item, and answers the others.
fn note_act<'a>(
    shelf: &mut Shelf,
    number: u32,
    act: &Act,
    spots: &'a [TextPlace],
    place: Place,
) -> Result<&'a [TextPlace], NoMemory>
    ensures { IfOk result (λ rest. TakesGiven place (record { origin = number; rev = 0 }) (text_in (Acts act.now)) spots.now rest.now shelf.old.notes shelf.new.notes) }
{
    let body = Body {
        origin: number,
        rev: 0,
    };
    match act.text() {
        None => Ok(spots),
        Some(_) => note_first(shelf, body, spots, place),
    }
}

/// The next number, where 32 bits hold it.
fn next(number: u32) -> Result<u32, NoMemory>
    ensures { IfOk result (λ next. next ≡ number + 1) }
{
    match number.checked_add(1) {
        Some(next) => Ok(next),
        None => Err(NoMemory),
    }
}

/// Notes the texts that acts give.
fn note_given(
    shelf: &mut Shelf,
    cycle: u32,
    acts: &[Act],
    spots: &[TextPlace],
    place: Place,
) -> Result<(), NoMemory>
    ensures given { (at : ℕ) (bytes : List ℕ) → AllZip (LiesThere bytes) spots.now (texts_given acts.now)
        → OnOk result (GivenLie cycle at acts.now place bytes shelf.new.notes) }
    ensures kept { OnOk result (KeepsReplaced shelf.old.notes shelf.new.notes) }
{
    let mut rest = spots;
    let mut number = cycle;
    for act in acts {
        number = next(number)?;
        rest = note_act(shelf, number, act, rest, place)?;
    }
    Ok(())
}

/// Adds the bodies of the texts that replace others, by their items and the cycle.
fn push_replaced(
    bodies: &mut Vec<Body>,
    cycle: u32,
    replaces: &[(u32, Text)],
) -> Result<(), NoMemory> {
    for row in replaces {
        bodies.push(Body {
            origin: row.0,
            rev: cycle,
        })?;
    }
    Ok(())
}

/// Adds the bodies of the texts that acts give, by the numbers of their items behind the cycle's.
fn push_given(bodies: &mut Vec<Body>, cycle: u32, acts: &[Act]) -> Result<(), NoMemory> {
    let mut number = cycle;
    for act in acts {
        number = next(number)?;
        if act.text().is_some() {
            bodies.push(Body {
                origin: number,
                rev: 0,
            })?;
        }
    }
    Ok(())
}

/// Notes bodies, one behind the other, with nothing of the record at a place.
fn note_each(shelf: &mut Shelf, bodies: &[Body], place: Place) -> Result<(), NoMemory> {
    for body in bodies {
        shelf.note_room(1)?;
        shelf.note(*body, place, 0, 0);
    }
    Ok(())
}

/// Gives each body that a cycle brings its row of an empty shelf, in the order in which a shelf keeps them. So no row is moved then,
/// in whatever order the texts are noted that are asked for. In time that grows as they are many, times its logarithm.
fn set_out(
    alloc: Global,
    shelf: &mut Shelf,
    number: u32,
    ask: &CycleAsk,
    place: Place,
) -> Result<(), NoMemory> {
    let mut bodies = Vec::new(alloc);
    push_replaced(&mut bodies, number, ask.replaces.as_slice())?;
    push_given(&mut bodies, number, ask.inserts.as_slice())?;
    bodies.sort_unstable_by_key(|body| (body.origin.max(body.rev), body.origin, body.rev));
    note_each(shelf, &bodies, place)
}

/// Notes the texts of what is asked, whose places these are.
#[tactic(auto, using(crate::proofs::Spots::replaced_kept))]
fn note_ask(
    shelf: &mut Shelf,
    number: u32,
    ask: &CycleAsk,
    spots: &[TextPlace],
    place: Place,
) -> Result<(), NoMemory>
    requires { number ≢ 0 }
    ensures replaced { (bytes : List ℕ) → AllZip (LiesThere bytes) (take (length ask.now.replaces) spots.now) (texts_replacing ask.now.replaces)
        → OnOk result (ReplacedLie number ask.now.replaces place bytes shelf.new.notes) }
    ensures given { (at : ℕ) (bytes : List ℕ) → AllZip (LiesThere bytes) (drop (length ask.now.replaces) spots.now) (texts_given ask.now.inserts)
        → OnOk result (GivenLie number at ask.now.inserts place bytes shelf.new.notes) }
{
    let count = ask.replaces.len();
    if spots.len() < count {
        return Err(NoMemory);
    }
    let (replaced, given) = spots.split_at(count);
    note_replaced(shelf, number, ask.replaces.as_slice(), replaced, place)?;
    note_given(shelf, number, ask.inserts.as_slice(), given, place)
}

/// Where the texts lie that the cycle of a number brings, in its record at a place. A cycle's number is never 0.
pub fn fresh_of(alloc: Global, number: u32, ask: &CycleAsk, place: Place) -> Result<Fresh, NoMemory>
    ensures { (at : ℕ) → IfOk result (IsFresh number at ask.now place (record_bytes (Cycle number at ask.now))) }
{
    if number == 0 {
        return Err(NoMemory);
    }
    let spots = ask_text_places(alloc, ask)?;
    let mut shelf = Shelf::new(alloc);
    set_out(alloc, &mut shelf, number, ask, place)?;
    note_ask(&mut shelf, number, ask, spots.as_slice(), place)?;
    Ok(Fresh { place, shelf })
}

/// The place of a record that brings no texts.
pub fn no_fresh(alloc: Global, place: Place) -> Fresh
    ensures place { result.place ≡ place }
    ensures none { result.shelf.notes ≡ [] }
{
    Fresh {
        place,
        shelf: Shelf::new(alloc),
    }
}
