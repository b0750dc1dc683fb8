//! Where the texts of messages lie in the bytes of records.
//!
//! A place in a record is told by the fields before the text and the four bytes of its length. A cycle's record has a place for
//! each replaced text, in the order asked, and for each text that an act of it gives. Of two texts for one item the last is
//! noted, as it is the one that counts.
ghost use Rattle.std.specs.Prelude.{◌≡◌, ◌≤◌, ◌<◌, ◌+◌, ◌*◌, ℕ, List, [], ◌∷◌, ◌++◌, Some, length, drop, min, option_copied, option_map, take, IfOk, OnOk};
ghost use Rattle.std.specs.List.{flat_map, AllZip};
ghost use Rattle.std.specs.Option.{option_to_list};
ghost use Rattle.undo_base.specs.declared.keys.Flags.{Flags};
ghost use Rattle.undo_base.specs.declared.keys.User.{User};
ghost use Rattle.verb_core.specs.declared.mailbox.Body.{Body};
ghost use Rattle.verb_core.specs.declared.item.Act.TheVariants.{Give, SetFilter};
ghost use Rattle.verb_core.specs.declared.item.Deed.TheVariants.{Act as Acts};
ghost use Rattle.verb_core.specs.Items.{text_in};
ghost use Rattle.verb_bytes.specs.declared.journal.JournalRecord.TheVariants.{Verb, Operator, Cycle, Text as TextRecord, Kept};
ghost use Rattle.verb_bytes.specs.Fields.{◌&◌, act_kind, any_text_field, deed_kind_to, flags_field, list_fields, moment_field, name_field, option_fields, user_field};
ghost use Rattle.verb_bytes.specs.Places.{act_place, deed_place, first_from, given_texts, placed, places_along, replaced_texts, size_of, text_places_of, IsTextAt, LiesThere};
ghost use Rattle.verb_bytes.specs.Spelling.{act_fields, filter_fields, scope_fields, record_bytes, HasSpelling};

use crate::part::Part;
use crate::write::MOST_TO;
use crate::{CycleAsk, JournalRecord};
use std::alloc::Global;
use undo_base::{Name, Names, NoMemory, Sequence, Text};
use verb_core::{Act, Deed, Filter, Item, Scope};

/// Where a text lies in the bytes of a record: so many bytes, behind `from` others.
#[derive(Clone, Copy, PartialEq, Eq)]
pub struct TextPlace {
    pub from: u32,
    pub length: u32,
}

/// The places of the texts of a record, in the order of its spelling.
pub type TextPlaces = Sequence<TextPlace>;

// ---- how many bytes lie before

/// So many bytes more.
fn past(from: u32, count: usize) -> Result<u32, NoMemory>
    ensures { IfOk result (λ at. at ≡ from + count) }
{
    if count > (u32::MAX - from) as usize {
        return Err(NoMemory);
    }
    Ok(from + count as u32)
}

/// So many numbers of four bytes more.
fn past_numbers(from: u32, count: usize) -> Result<u32, NoMemory>
    ensures { IfOk result (λ at. at ≡ from + 4 * count) }
{
    if count > (u32::MAX - from) as usize / 4 {
        return Err(NoMemory);
    }
    Ok(from + 4 * count as u32)
}

#[tactic(auto, using(crate::proofs::Sizes::sizes))]
fn past_name(from: u32, name: &Name) -> Result<u32, NoMemory>
    ensures { IfOk result (λ at. at ≡ from + size_of (name_field name.now)) }
{
    past(from, 1 + name.bytes().len())
}

#[tactic(auto, using(crate::proofs::Sizes::sizes))]
fn past_option(from: u32, name: &Option<Name>) -> Result<u32, NoMemory>
    ensures { IfOk result (λ at. at ≡ from + size_of (option_fields name_field name.now)) }
{
    let from = past(from, 1)?;
    match name {
        None => Ok(from),
        Some(name) => past_name(from, name),
    }
}

#[tactic(auto, using(crate::proofs::Sizes::sizes))]
fn past_filter(from: u32, filter: &Filter) -> Result<u32, NoMemory>
    ensures { IfOk result (λ at. at ≡ from + size_of (filter_fields filter.now)) }
{
    let from = past_name(from, &filter.id)?;
    let from = past_name(from, &filter.needle)?;
    past_option(from, &filter.file)
}

#[tactic(auto, using(crate::proofs::Sizes::sizes))]
fn past_scope(from: u32, scope: &Scope) -> Result<u32, NoMemory>
    ensures { IfOk result (λ at. at ≡ from + size_of (scope_fields 1 scope.now)) }
{
    match scope {
        Scope::Body => past(from, 1),
        Scope::Field(name) => past(from, 2 + name.bytes().len()),
        Scope::Sender => past(from, 1),
        Scope::Recipient => past(from, 1),
    }
}

/// An act that sets a filter: one of the whole text has no byte for it.
#[tactic(auto, using(crate::proofs::Sizes::sizes))]
fn past_set_filter(from: u32, filter: &Filter) -> Result<u32, NoMemory>
    ensures { IfOk result (λ at. at ≡ from + size_of (act_fields (SetFilter filter.now))) }
{
    let from = past(from, 1)?;
    let from = past_filter(from, filter)?;
    if filter.scope.is_of_body() {
        Ok(from)
    } else {
        past_scope(from, &filter.scope)
    }
}

#[tactic(auto, using(crate::proofs::Sizes::sizes))]
fn past_alias(from: u32, local: &Name, users: usize) -> Result<u32, NoMemory>
    ensures { IfOk result (λ at. at ≡ from + (6 + length local.now + users)) }
{
    let from = past(from, 6)?;
    let from = past(from, local.bytes().len())?;
    past(from, users)
}

// ---- parts in which a text may lie

/// A part of a record in which a text may lie.
trait Placed: Part {
    /// Where it lies in a part that begins behind so many bytes.
    ghost use Rattle.std.specs.Prelude.{◌≡◌, ◌+◌, ◌++◌, ℕ, List, Option, IfOk};
    ghost use Rattle.std.specs.Option.{option_to_list};
    ghost use Rattle.verb_bytes.specs.Places.{size_of};
    ghost use Rattle.verb_bytes.specs.declared.places.TextPlace.{TextPlace};

    ghost place: { ℕ → Self → Option TextPlace };

    /// Adds that place, and answers how many bytes lie before what follows.
    fn place(&self, from: u32, places: &mut TextPlaces) -> Result<u32, NoMemory>
        ensures { IfOk result (λ at. (at ≡ from + size_of (Self.Part.fields self.now))
            × (places.new ≡ places.old ++ option_to_list (place from self.now))) };
}

/// Adds the place of a text that begins here.
fn place_text(from: u32, text: &Text, places: &mut TextPlaces) -> Result<u32, NoMemory>
    ensures { IfOk result (λ at. (at ≡ from + length text.now)
        × (places.new ≡ places.old ++ placed from text.now ∷ [])) }
{
    let length = text.bytes().len();
    places.push(TextPlace {
        from,
        length: length as u32,
    })?;
    past(from, length)
}

impl Placed for (u32, Text) {
    ghost use Rattle.verb_bytes.specs.Places.{replace_place};

    ghost place = { replace_place };

    #[tactic(auto, using(crate::proofs::Sizes::sizes))]
    fn place(&self, from: u32, places: &mut TextPlaces) -> Result<u32, NoMemory> {
        let from = past(from, 8)?;
        place_text(from, &self.1, places)
    }
}

#[tactic(auto, using(crate::proofs::Sizes::sizes))]
fn place_give(
    from: u32,
    mailbox: &Name,
    text: &Text,
    places: &mut TextPlaces,
) -> Result<u32, NoMemory>
    ensures { (user : User) → IfOk result (λ at. (at ≡ from + size_of (act_fields (Give user mailbox.now text.now)))
        × (places.new ≡ places.old ++ option_to_list (act_place from (Give user mailbox.now text.now)))) }
{
    let from = past(from, 7 + mailbox.bytes().len())?;
    place_text(from, text, places)
}

impl Placed for Act {
    ghost use Rattle.verb_bytes.specs.Places.{act_place};

    ghost place = { act_place };

    #[tactic(auto, using(crate::proofs::Sizes::act_sizes))]
    fn place(&self, from: u32, places: &mut TextPlaces) -> Result<u32, NoMemory> {
        match self {
            Act::SetAlias { local, users } => past_alias(from, local, users.len()),
            Act::DropAlias { local } => past(from, 2 + local.bytes().len()),
            Act::SetFilter(filter) => past_set_filter(from, filter),
            Act::DropFilter { id } => past(from, 2 + id.bytes().len()),
            Act::Remove { mailbox, .. } => past(from, 9 + mailbox.bytes().len()),
            Act::Give { mailbox, text, .. } => place_give(from, mailbox, text, places),
        }
    }
}

/// Adds the places of the texts of a list, whose elements begin here.
fn place_each<T: Placed>(from: u32, items: &[T], places: &mut TextPlaces) -> Result<u32, NoMemory>
    ensures { IfOk result (λ at. (at ≡ from + size_of (flat_map T.Part.fields items.now))
        × (places.new ≡ places.old ++ places_along T.Part.fields T.place from items.now)) }
{
    let mut at = from;
    for item in items {
        at = item.place(at, places)?;
    }
    Ok(at)
}

// ---- the texts of a record

/// So many bytes more, or as many as a number of four bytes can say.
fn added(from: u32, count: usize) -> u32
    ensures { result ≡ min (from + count) u32.MAX }
{
    if count > (u32::MAX - from) as usize {
        return u32::MAX;
    }
    from + count as u32
}

fn names_size(names: &[Name]) -> u32
    ensures { result ≡ min (size_of (flat_map name_field names.now)) u32.MAX }
{
    let mut size = 0;
    for name in names {
        size = added(size, 1 + name.bytes().len());
    }
    size
}

/// How many bytes lie before the text of a delivery: of the item, who sends, and its recipients.
#[tactic(auto, using(crate::proofs::Sizes::sizes))]
fn delivery_text_from(from: &Text, to: &Names) -> u32
    ensures { (last : ℕ) → result ≡ min (18 + size_of (deed_kind_to last 1 & any_text_field from.now & list_fields MOST_TO name_field to.now)) u32.MAX }
{
    added(names_size(to.as_slice()), 27 + from.bytes().len())
}

/// The same of the text of an APPEND.
#[tactic(auto, using(crate::proofs::Sizes::sizes))]
fn append_text_from(mailbox: &Name) -> u32
    ensures { (last : ℕ) (flags : Flags) (at : ℕ) → result ≡ 18 + size_of (deed_kind_to last 2 & name_field mailbox.now & flags_field flags & moment_field at) }
{
    29 + mailbox.bytes().len() as u32
}

/// The same of the text of a Give.
#[tactic(auto, using(crate::proofs::Sizes::sizes))]
fn give_text_from(mailbox: &Name) -> u32
    ensures { (user : User) → result ≡ 17 + size_of (act_kind 6 & user_field user & name_field mailbox.now) }
{
    20 + mailbox.bytes().len() as u32
}

/// How many bytes lie before the text of a deed that begins behind so many, the four bytes of the text's length among them: 0
/// for a deed without one.
#[tactic(auto, using(crate::proofs::Sizes::kind_sizes))]
fn deed_text_from(before: u32, deed: &Deed) -> u32
    requires first { 14 ≤ before }
    requires last { before ≤ 18 }
    ensures { (last : ℕ) → result ≡ min (first_from (option_to_list (deed_place last before deed.now))) u32.MAX }
{
    let more = (before - 14) as usize;
    match deed {
        Deed::Deliver { from, to, .. } => added(delivery_text_from(from, to), more),
        Deed::Append { mailbox, .. } => added(append_text_from(mailbox), more),
        Deed::Act(Act::Give { mailbox, .. }) => added(give_text_from(mailbox), more + 2),
        Deed::Notice { .. } => before + 6,
        _ => 0,
    }
}

fn before_item_text(item: &Item) -> u32
    ensures { result ≡ min (first_from (text_places_of (Verb item.now))) u32.MAX }
{
    deed_text_from(14, &item.deed)
}

/// How many bytes lie before the text of a user's item in its record, the four bytes of the text's length among them: 0 for
/// an item without one.
pub fn item_text_from(item: &Item) -> u32
    ensures from { result ≡ min (first_from (text_places_of (Verb item.now))) u32.MAX }
    ensures lies { (text : List ℕ) → HasSpelling (Verb item.now) → length (record_bytes (Verb item.now)) ≤ u32.MAX
        → text_in item.now.deed ≡ Some text → IsTextAt (record_bytes (Verb item.now)) result text }
{
    before_item_text(item)
}

#[tactic(auto, using(crate::proofs::Sizes::before_act_is))]
fn before_act_text(act: &Act) -> u32
    ensures { (number at : ℕ) → result ≡ first_from (text_places_of (Operator number at act.now)) }
{
    match act {
        Act::Give { mailbox, .. } => give_text_from(mailbox),
        _ => 0,
    }
}

fn before_kept_text(item: &Item) -> u32
    ensures { result ≡ min (first_from (text_places_of (Kept item.now))) u32.MAX }
{
    deed_text_from(18, &item.deed)
}

/// The same of an item that is kept.
pub fn kept_text_from(item: &Item) -> u32
    ensures from { result ≡ min (first_from (text_places_of (Kept item.now))) u32.MAX }
    ensures lies { (text : List ℕ) → length (record_bytes (Kept item.now)) ≤ u32.MAX
        → text_in item.now.deed ≡ Some text → IsTextAt (record_bytes (Kept item.now)) result text }
{
    before_kept_text(item)
}

/// The same of the text of a body.
pub fn body_text_from() -> u32
    ensures from { (body : Body) (text : List ℕ) → result ≡ first_from (text_places_of (TextRecord body text)) }
    ensures lies { (body : Body) (text : List ℕ) → IsTextAt (record_bytes (TextRecord body text)) result text }
{
    13
}

/// The same of an operator's act.
pub fn act_text_from(act: &Act) -> u32
    ensures from { (number at : ℕ) → result ≡ first_from (text_places_of (Operator number at act.now)) }
    ensures lies { (number at : ℕ) (text : List ℕ) → text_in (Acts act.now) ≡ Some text
        → IsTextAt (record_bytes (Operator number at act.now)) result text }
{
    before_act_text(act)
}

/// Where the texts of what a cycle is asked to do lie in its record: the new ones first, and then those that its acts
/// give. Places that four bytes can't say find no memory.
pub fn ask_text_places(alloc: Global, ask: &CycleAsk) -> Result<TextPlaces, NoMemory>
    ensures places { (number at : ℕ) → IfOk result (λ places. places ≡ text_places_of (Cycle number at ask.now)) }
    ensures replaced { (number at : ℕ) → IfOk result (λ places.
        AllZip (LiesThere (record_bytes (Cycle number at ask.now))) (take (length ask.now.replaces) places) (replaced_texts ask.now)) }
    ensures given { (number at : ℕ) → IfOk result (λ places.
        AllZip (LiesThere (record_bytes (Cycle number at ask.now))) (drop (length ask.now.replaces) places) (given_texts ask.now)) }
{
    let mut places = Sequence::new(alloc);
    let at = past_name(13, &ask.key)?;
    let at = past(at, 12)?;
    let at = past_numbers(at, ask.drops.len())?;
    let at = place_each(at, ask.replaces.as_slice(), &mut places)?;
    let at = past(at, 4)?;
    place_each(at, ask.inserts.as_slice(), &mut places)?;
    Ok(places)
}

/// The place of a text, where there is one: of the one text of a record.
fn one_place(alloc: Global, from: u32, text: Option<&Text>) -> Result<TextPlaces, NoMemory>
    ensures place { IfOk result (λ places. places ≡ option_to_list (option_map (placed from) (option_copied text.entry))) }
    ensures small { OnOk result (from < u32.MAX) }
{
    if from == u32::MAX {
        return Err(NoMemory);
    }
    let mut places = Sequence::new(alloc);
    if let Some(text) = text {
        place_text(from, text, &mut places)?;
    }
    Ok(places)
}

fn item_text_places(alloc: Global, item: &Item) -> Result<TextPlaces, NoMemory>
    requires { HasSpelling (Verb item.now) }
    ensures { IfOk result (λ places. places ≡ text_places_of (Verb item.now)) }
{
    let places = one_place(alloc, item_text_from(item), item.deed.text())?;
    Ok(places)
}

fn act_text_places(alloc: Global, act: &Act) -> Result<TextPlaces, NoMemory>
    ensures { (number at : ℕ) → IfOk result (λ places. places ≡ text_places_of (Operator number at act.now)) }
{
    let places = one_place(alloc, act_text_from(act), act.text())?;
    Ok(places)
}

fn kept_text_places(alloc: Global, item: &Item) -> Result<TextPlaces, NoMemory>
    ensures { IfOk result (λ places. places ≡ text_places_of (Kept item.now)) }
{
    let places = one_place(alloc, kept_text_from(item), item.deed.text())?;
    Ok(places)
}

fn body_text_places(alloc: Global, text: &Text) -> Result<TextPlaces, NoMemory>
    ensures { (body : Body) → IfOk result (λ places. places ≡ text_places_of (TextRecord body text.now)) }
{
    let places = one_place(alloc, body_text_from(), Some(text))?;
    Ok(places)
}

/// Where the texts of messages lie in the bytes of a record, in order. They are those of a delivery, of an APPEND and of a Give, and a cycle's
/// new texts. And the text of a body, and that of an item that is kept, a notice's too. Places that four bytes can't say find no memory.
pub fn text_places(alloc: Global, what: &JournalRecord) -> Result<TextPlaces, NoMemory>
    requires { HasSpelling what.now }
    ensures { IfOk result (λ places. places ≡ text_places_of what.now) }
{
    match what {
        JournalRecord::Verb(item) => item_text_places(alloc, item),
        JournalRecord::Operator { act, .. } => act_text_places(alloc, act),
        JournalRecord::Cycle { ask, .. } => ask_text_places(alloc, ask),
        JournalRecord::Text { text, .. } => body_text_places(alloc, text),
        JournalRecord::Kept(item) => kept_text_places(alloc, item),
        _ => Ok(Sequence::new(alloc)),
    }
}
