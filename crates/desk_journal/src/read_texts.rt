//! The texts of a desk, read where they lie in its journal.
//!
//! What reads texts for a cycle, a try and a plan (`Reading`) borrows the desk in memory whole, the disk, and the place of the
//! last gate. It counts its failed reads itself, and after one it answers so without reading, so that a failed read is counted
//! once by whoever asked.
ghost use Rattle.std.specs.Prelude.{◌≡◌, ◌+◌, ◌≤◌, ℕ, List, Some, true, false, option_copied, IfOk, OnOk, IfErr, IsErrOf, IsTrue};
ghost use Rattle.std.specs.Option.{option_map_or};
ghost use Rattle.verb_core.specs.Texts.{Gives, Rose};
ghost use Rattle.seal_log.specs.Causes.{ReadAtCause};
ghost use Rattle.desk_journal.specs.Telling.{HoldsHeld, IsPastRead, LeadsOn, ReadsOn, asked_of, is_readable, noted_in, reading_told};
ghost use Rattle.desk_journal.specs.Going.{leads_on, leads_to_itself};
ghost use Rattle.store_kept.specs.Texts.{text_at_hand};

use crate::new_texts::NewTexts;
use crate::past::Past;
use mail_desk::Desk;
use seal_log::ReadFault;
use shelf::Note;
use std::alloc::Global;
use undo_base::{Copies, NoMemory, Text};
use undo_outside::Disk;
use verb_core::{Bodies, BodiesFault, Body};

/// The texts that the items of a desk bring, read in the journal before a gate. Beside them are those that a request for a cycle
/// asks for, whose record is not sealed yet. Once a read failed the disk is left alone.
#[derive(Drop)]
pub struct Reading<'a, D: Disk> {
    /// What lies before the gate.
    pub past: &'a mut Past<D>,
    pub desk: &'a Desk,
    /// The texts that the request asks for.
    pub replaces: &'a NewTexts<'a>,
    /// Its cycle's number.
    pub cycle: u32,
    /// How many texts could not be read.
    pub failed: u64,
}

/// The text that a request asks for a body.
fn asked<'a>(replaces: &'a NewTexts<'_>, cycle: u32, body: Body) -> Option<&'a Text>
    ensures { option_copied result ≡ asked_of cycle replaces.now body }
{
    if body.rev == cycle {
        replaces.text(body.origin)
    } else {
        None
    }
}

/// Where the text of a body lies, where it can be read.
fn note_in(desk: &Desk, body: Body) -> Option<Note>
    ensures { (gate : ℕ) → option_map_or (is_readable gate) (noted_in desk.now body) false ≡ true → result ≡ noted_in desk.now body }
{
    desk.note(body)
}

/// Reads the text of a body where it was noted.
pub fn read_noted<D: Disk>(
    alloc: Global,
    past: &mut Past<D>,
    desk: &Desk,
    body: Body,
) -> Result<Text, ReadFault>
    requires { option_map_or (is_readable past.old.end) (noted_in desk.now body) false ≡ true }
    ensures text { HoldsHeld (D.told past.old.disk) desk.now → IfOk result (λ text. text_at_hand desk.now.kept body ≡ Some text) }
    ensures cause { ReadAtCause (D.told past.old.disk) (D.told past.new.disk) result }
    ensures still { IsPastRead D.told past.old past.new }
{
    match note_in(desk, body) {
        Some(note) => past.read(alloc, note.place, note.from, note.length),
        None => unreachable!(),
    }
}

/// The same, where no read failed before.
fn read_once<D: Disk>(
    alloc: Global,
    past: &mut Past<D>,
    failed: &mut u64,
    desk: &Desk,
    body: Body,
) -> Result<Text, BodiesFault>
    requires { option_map_or (is_readable past.old.end) (noted_in desk.now body) false ≡ true }
    ensures text { HoldsHeld (D.told past.old.disk) desk.now → IfOk result (λ text. text_at_hand desk.now.kept body ≡ Some text) }
    ensures same { OnOk result (failed.new ≡ failed.old) }
    ensures rises { IsErrOf result BodiesFault.Failed → Rose failed.old failed.new }
    ensures once { failed.new ≤ failed.old + 1 }
    ensures no_memory { IsErrOf result BodiesFault.NoMemory → failed.new ≡ failed.old }
    ensures reads { ReadsOn D.told past.old past.new failed.old failed.new }
{
    if *failed > 0 {
        *failed = failed.saturating_add(1);
        return Err(BodiesFault::Failed);
    }
    match read_noted(alloc, past, desk, body) {
        Ok(text) => Ok(text),
        Err(ReadFault::Disk) => {
            *failed = 1;
            Err(BodiesFault::Failed)
        }
        Err(ReadFault::NoMemory) => Err(BodiesFault::NoMemory),
    }
}

/// A copy of a text that is asked for.
fn copied(alloc: Global, text: &Text) -> Result<Text, BodiesFault>
    ensures text { IfOk result (λ copy. copy ≡ text.now) }
    ensures memory { IfErr result (λ fault. fault ≡ BodiesFault.NoMemory) }
{
    match text.copy(alloc) {
        Ok(copy) => Ok(copy),
        Err(NoMemory) => Err(BodiesFault::NoMemory),
    }
}

impl<'a, D: Disk> Bodies for Reading<'a, D> {
    ghost told = { reading_told D.told };

    ghost leads = { LeadsOn D.told };

    fn text(&mut self, alloc: Global, body: Body) -> Result<Text, BodiesFault>
        requires { IsTrue ((reading_told D.told self.old).holds body) }
        ensures gives { Gives (reading_told D.told self.old) (reading_told D.told self.new) body result }
        ensures leads { LeadsOn D.told self.old self.new }
        // A text that the request asks for is given as it is, and not read.
        ensures asked { (asked : List ℕ) → asked_of self.old.cycle self.old.replaces.now body ≡ Some asked → (self.new.failed ≡ self.old.failed) × IfOk result (λ text. text ≡ asked) }
    {
        match asked(self.replaces, self.cycle, body) {
            Some(text) => copied(alloc, text),
            None => read_once(alloc, self.past, &mut self.failed, self.desk, body),
        }
    }

    ghost leads_to_itself = { leads_to_itself D.told D.tells_truth };

    ghost leads_on = { leads_on D.told };
}

impl<'a, D: Disk> Reading<'a, D> {
    /// The texts of a desk, and those that the request for a cycle of that number asks for.
    pub fn of(
        past: &'a mut Past<D>,
        desk: &'a Desk,
        replaces: &'a NewTexts<'a>,
        cycle: u32,
    ) -> Reading<'a, D>
        ensures past { (result.past.ghost_name ≡ past.entry.ghost_name) × (result.past.now ≡ past.old) }
        ensures desk { result.desk.now ≡ desk.now }
        ensures replaces { result.replaces.now ≡ replaces.now }
        ensures cycle { result.cycle ≡ cycle }
        ensures failed { result.failed ≡ 0 }
    {
        Reading {
            past,
            desk,
            replaces,
            cycle,
            failed: 0,
        }
    }
}
