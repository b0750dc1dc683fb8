//! The texts of bodies: that of a notice which a cycle or a withdrawal of this journal made is in memory, and any other is read where it
//! lies in the journal.
ghost use Rattle.std.specs.Prelude.{◌≡◌, ℕ, ◌+◌, List, ◌++◌, ◌∷◌, [], false, length, is_some, Some, IsTrue, IfOk, OnOk, IsErrOf};
ghost use Rattle.std.specs.List.{list_all, list_any};
ghost use Rattle.seal_log.specs.Causes.{ReadAtCause};
ghost use Rattle.desk_journal.specs.Stored.{TextsNoted, is_recorded};
ghost use Rattle.desk_journal.specs.Telling.{HoldsHeld, IsOnlyRead, IsPastRead, with_memory};
ghost use Rattle.store_kept.specs.Texts.{has_text_kept, text_kept, texts_kept};

use crate::on_disk::Journal;
use crate::past::Past;
use crate::read_texts::read_noted;
use seal_log::ReadFault;
use std::alloc::Global;
use undo_base::{Copies, NoMemory, Text, Texts};
use undo_outside::Disk;
use verb_core::Body;

/// A copy of a text that is in memory.
fn copied(alloc: Global, text: &Text) -> Result<Text, ReadFault>
    ensures text { IfOk result (λ copy. copy ≡ text.now) }
    ensures memory { IsErrOf result ReadFault.Disk → ⊥ }
{
    match text.copy(alloc) {
        Ok(copy) => Ok(copy),
        Err(NoMemory) => Err(ReadFault::NoMemory),
    }
}

/// The text of a body that has one. It is read where a record has it, and else nothing is.
fn text_at<D: Disk>(
    alloc: Global,
    past: &mut Past<D>,
    desk: &mail_desk::Desk,
    body: Body,
) -> Result<Text, ReadFault>
    requires noted { TextsNoted past.old.end desk.now.notes desk.now.kept }
    requires there { IsTrue (has_text_kept desk.now.kept body) }
    ensures text { HoldsHeld (D.told past.old.disk) desk.now → IfOk result (λ text. text_kept desk.now.kept body ≡ Some text) }
    ensures memory { is_recorded desk.now.kept desk.now.kept.timeline body ≡ false → IfOk result (λ text. text_kept desk.now.kept body ≡ Some text) }
    ensures cause { ReadAtCause (D.told past.old.disk) (D.told past.new.disk) result }
    ensures still { IsPastRead D.told past.old past.new }
    ensures due { IsErrOf result ReadFault.Disk → IsTrue (is_recorded desk.now.kept desk.now.kept.timeline body) }
    ensures alone { is_recorded desk.now.kept desk.now.kept.timeline body ≡ false → past.new ≡ past.old }
{
    desk.stands();
    match desk.notice(body) {
        Some(text) => copied(alloc, text),
        None => read_noted(alloc, past, desk, body),
    }
}

/// The text of a body, where it has one.
fn found_at<D: Disk>(
    alloc: Global,
    past: &mut Past<D>,
    desk: &mail_desk::Desk,
    body: Body,
) -> Result<Option<Text>, ReadFault>
    requires noted { TextsNoted past.old.end desk.now.notes desk.now.kept }
    ensures there { IfOk result (λ found. is_some found ≡ has_text_kept desk.now.kept body) }
    ensures found { HoldsHeld (D.told past.old.disk) desk.now → IfOk result (λ found. found ≡ text_kept desk.now.kept body) }
    ensures memory { is_recorded desk.now.kept desk.now.kept.timeline body ≡ false → IfOk result (λ found. found ≡ text_kept desk.now.kept body) }
    ensures cause { ReadAtCause (D.told past.old.disk) (D.told past.new.disk) result }
    ensures still { IsPastRead D.told past.old past.new }
    ensures due { IsErrOf result ReadFault.Disk → IsTrue (is_recorded desk.now.kept desk.now.kept.timeline body) }
    ensures alone { is_recorded desk.now.kept desk.now.kept.timeline body ≡ false → past.new ≡ past.old }
{
    if !desk.has_text(body) {
        return Ok(None);
    }
    match text_at(alloc, past, desk, body) {
        Ok(text) => Ok(Some(text)),
        Err(fault) => Err(fault),
    }
}

/// Adds the text of a body.
fn push_at<D: Disk>(
    alloc: Global,
    past: &mut Past<D>,
    desk: &mail_desk::Desk,
    texts: &mut Texts,
    body: Body,
) -> Result<(), ReadFault>
    requires noted { TextsNoted past.old.end desk.now.notes desk.now.kept }
    requires there { IsTrue (has_text_kept desk.now.kept body) }
    ensures count { OnOk result (length texts.new ≡ length texts.old + 1) }
    ensures texts { HoldsHeld (D.told past.old.disk) desk.now → OnOk result (texts.new ≡ texts.old ++ texts_kept desk.now.kept (body ∷ [])) }
    ensures memory { OnOk result ((text : List ℕ) × (texts.new ≡ texts.old ++ text ∷ [])
        × (is_recorded desk.now.kept desk.now.kept.timeline body ≡ false → text_kept desk.now.kept body ≡ Some text)) }
    ensures cause { ReadAtCause (D.told past.old.disk) (D.told past.new.disk) result }
    ensures still { IsPastRead D.told past.old past.new }
    ensures due { IsErrOf result ReadFault.Disk → IsTrue (is_recorded desk.now.kept desk.now.kept.timeline body) }
    ensures alone { is_recorded desk.now.kept desk.now.kept.timeline body ≡ false → past.new ≡ past.old }
{
    match text_at(alloc, past, desk, body) {
        Ok(text) => match texts.push(text) {
            Ok(()) => Ok(()),
            Err(NoMemory) => Err(ReadFault::NoMemory),
        },
        Err(fault) => Err(fault),
    }
}

/// The texts of bodies, in order.
fn texts_at<D: Disk>(
    alloc: Global,
    past: &mut Past<D>,
    desk: &mail_desk::Desk,
    bodies: &[Body],
) -> Result<Texts, ReadFault>
    requires noted { TextsNoted past.old.end desk.now.notes desk.now.kept }
    requires there { IsTrue (list_all (has_text_kept desk.now.kept) bodies.now) }
    ensures count { IfOk result (λ texts. length texts ≡ length bodies.now) }
    ensures texts { HoldsHeld (D.told past.old.disk) desk.now → IfOk result (λ texts. texts ≡ texts_kept desk.now.kept bodies.now) }
    ensures memory { IfOk result (λ texts. with_memory desk.now.kept bodies.now texts ≡ texts) }
    ensures cause { ReadAtCause (D.told past.old.disk) (D.told past.new.disk) result }
    ensures still { IsPastRead D.told past.old past.new }
    ensures due { IsErrOf result ReadFault.Disk → IsTrue (list_any (is_recorded desk.now.kept desk.now.kept.timeline) bodies.now) }
    ensures alone { list_any (is_recorded desk.now.kept desk.now.kept.timeline) bodies.now ≡ false → past.new ≡ past.old }
{
    let mut texts = Texts::new(alloc);
    for body in bodies {
        push_at(alloc, past, desk, &mut texts, *body)?;
    }
    Ok(texts)
}

impl<D: Disk> Journal<D> {
    /// The text of a body of a desk, where it has one. Nothing is read where no record has it.
    pub fn found(
        &mut self,
        alloc: Global,
        desk: &mail_desk::Desk,
        body: Body,
    ) -> Result<Option<Text>, ReadFault>
        requires { TextsNoted self.old.gate desk.now.notes desk.now.kept }
        ensures there { IfOk result (λ found. is_some found ≡ has_text_kept desk.now.kept body) }
        ensures found { HoldsHeld (D.told self.old.disk) desk.now → IfOk result (λ found. found ≡ text_kept desk.now.kept body) }
        ensures memory { is_recorded desk.now.kept desk.now.kept.timeline body ≡ false → IfOk result (λ found. found ≡ text_kept desk.now.kept body) }
        ensures cause { ReadAtCause (D.told self.old.disk) (D.told self.new.disk) result }
        ensures still { IsOnlyRead D.told self.old self.new }
        ensures due { IsErrOf result ReadFault.Disk → IsTrue (is_recorded desk.now.kept desk.now.kept.timeline body) }
        ensures alone { is_recorded desk.now.kept desk.now.kept.timeline body ≡ false → self.new ≡ self.old }
    {
        found_at(alloc, &mut self.past, desk, body)
    }

    /// The texts of bodies of a desk, in order. Nothing is read where no record has one of them.
    pub fn texts(
        &mut self,
        alloc: Global,
        desk: &mail_desk::Desk,
        bodies: &[Body],
    ) -> Result<Texts, ReadFault>
        requires noted { TextsNoted self.old.gate desk.now.notes desk.now.kept }
        requires there { IsTrue (list_all (has_text_kept desk.now.kept) bodies.now) }
        ensures count { IfOk result (λ texts. length texts ≡ length bodies.now) }
        ensures texts { HoldsHeld (D.told self.old.disk) desk.now → IfOk result (λ texts. texts ≡ texts_kept desk.now.kept bodies.now) }
        ensures memory { IfOk result (λ texts. with_memory desk.now.kept bodies.now texts ≡ texts) }
        ensures cause { ReadAtCause (D.told self.old.disk) (D.told self.new.disk) result }
        ensures still { IsOnlyRead D.told self.old self.new }
        ensures due { IsErrOf result ReadFault.Disk → IsTrue (list_any (is_recorded desk.now.kept desk.now.kept.timeline) bodies.now) }
        ensures alone { list_any (is_recorded desk.now.kept desk.now.kept.timeline) bodies.now ≡ false → self.new ≡ self.old }
    {
        texts_at(alloc, &mut self.past, desk, bodies)
    }
}
