//! Records that can stand behind what a journal opens with, performed. Where the texts of a record lie is noted.
//!
//! A Snapshot record holds the store of its moment: how many items are in force, aliases, filters and mailboxes. It can stand
//! where it decodes, that count is the timeline's length and its mailboxes make a store. Whether it holds the store of the state
//! before it is compared when it is read: a true one is marked, and a cycle can begin with it. Another stands, sets the count of
//! items back as every snapshot does, and is passed over. So no claim needs the premise that the records of a journal are true.
ghost use Rattle.std.specs.Prelude.{◌≡◌, ◌==◌, ◌≤◌, ◌<◌, ◌+◌, List, ℕ, true, false, bytes_eq, is_none, length, IsTrue, IfOk, IfSome, OnOk, IsErrOf};
ghost use Rattle.std.specs.List.{list_all};
ghost use Rattle.verb_core.specs.Items.{text_in, users_in};
ghost use Rattle.verb_core.specs.Store.{is_known as knows};
ghost use Rattle.verb_bytes.specs.declared.journal.JournalRecord.TheVariants.{Operator, Snapshot, Upgrade, Verb};
ghost use Rattle.verb_bytes.specs.Spelling.{HasSpelling, record_bytes};
ghost use Rattle.seal_log.specs.Causes.{ReadAtCause};
ghost use Rattle.seal_log.specs.Journal.{LiesAt};
ghost use Rattle.store_kept.specs.Kept.{report_of};
ghost use Rattle.store_kept.specs.Texts.{items_asked};
ghost use Rattle.shelf.specs.Marks.{marks_at_or_before};
ghost use Rattle.repair_desk.specs.Repairs.{are_known as acts_name_known};
ghost use Rattle.mail_desk.specs.Timeline.{NotesText, SizesOf, body_of};
ghost use Rattle.time_desk.specs.Cycling.{CanBeUndone, IsFit, after_rewound, asked_then};
ghost use Rattle.time_desk.specs.Requests.{NotesFor, asks, key_of, knows_acts, record_of, redoes, undoes_of};
ghost use Rattle.desk_journal.specs.Records.{after_record, can_follow as follows, can_keep as keeps, is_formed as formed, is_true as tells_all, snapshot_record};
ghost use Rattle.time_desk.specs.Auditing.{Judges};
ghost use Rattle.time_desk.specs.Standing.{AsksAlike, Enters, IsFormed, Performs, has_users as uses, is_actor, kept_as, marked_as};
ghost use Rattle.desk_journal.specs.Stored.{AreNoted, KeepsMarks, MarksLie, NotesTexts, Renotes, TextsHeld, TextsStored};
ghost use Rattle.desk_journal.specs.Telling.{IsPastRead};

use crate::redo::{remade, rework_again};
use crate::request::Request;
use box_store::makes_store;
use desk_journal::{Past, item_of};
use mail_cycle::{CycleRefused, Rewound};
use mail_desk::{Desk, Fresh};
use seal_log::{Place, ReadFault};
use std::alloc::Global;
use store_digest::snapshot_text;
use undo_base::{LAST_NUMBER, Name, NoMemory, Text, User};
use undo_outside::Disk;
use verb_bytes::laws::{
    one_spelling, spelled_cycles_have_moments, spelled_items_are_formed,
    spelled_withdrawals_have_moments,
};
use verb_bytes::{JournalRecord, act_text_from, item_text_from, spell_snapshot};
use verb_core::{Act, BoxId, Conf, Deed, House, Item, Mailbox, Rows};

// ---- the users of an item

/// Whether users are known.
fn are_known(house: &House, users: &[User]) -> bool
    ensures { result ≡ list_all (knows house.now) users.now }
{
    users.iter().all(|user| house.knows(*user))
}

/// Whether the users that an act names are known.
fn act_knows(house: &House, act: &Act) -> bool
    ensures { result ≡ list_all (knows house.now) (users_in (Deed.Act act.now)) }
{
    match act {
        Act::SetAlias { users, .. } => are_known(house, users.as_slice()),
        Act::Remove { user, .. } => house.knows(*user),
        Act::Give { user, .. } => house.knows(*user),
        _ => true,
    }
}

/// Whether the users that a deed names are known.
fn deed_knows(house: &House, deed: &Deed) -> bool
    ensures { result ≡ list_all (knows house.now) (users_in deed.now) }
{
    match deed {
        Deed::Act(act) => act_knows(house, act),
        Deed::Notice { user, .. } => house.knows(*user),
        Deed::Deliver { .. } => true,
        Deed::Append { .. } => true,
        Deed::Fetch { .. } => true,
        Deed::Store { .. } => true,
        Deed::Copy { .. } => true,
        Deed::List { .. } => true,
        Deed::Status { .. } => true,
        Deed::Select { .. } => true,
        Deed::Expunge { .. } => true,
        Deed::Close { .. } => true,
        Deed::Create { .. } => true,
        Deed::Rename { .. } => true,
        Deed::Delete { .. } => true,
    }
}

/// Whether the actor of an item is such as its deed has, and known.
fn has_actor(house: &House, by: Option<User>, deed: &Deed) -> bool
    ensures { result ≡ is_actor house.now by deed.now }
{
    match by {
        Some(user) => deed.is_own() && house.knows(user),
        None => !deed.is_own(),
    }
}

/// Whether those who act and are named in an item are such as a record may have.
fn has_users(house: &House, item: &Item) -> bool
    ensures { result ≡ uses house.now item.now }
{
    has_actor(house, item.by, &item.deed) && deed_knows(house, &item.deed)
}

/// Whether an item is such as can be recorded.
pub(crate) fn is_formed(house: &House, item: &Item) -> bool
    requires { IsFormed item.now }
    ensures { result ≡ formed house.now item.now }
{
    has_users(house, item)
}

// ---- an item

/// Whether an item can follow: it has the next number, there is one left, and its users are such as it may have.
pub(crate) fn can_follow(desk: &Desk, item: &Item) -> bool
    requires { IsFormed item.now }
    ensures { result ≡ follows desk.now.kept item.now }
{
    item.number == desk.next() && desk.next() <= LAST_NUMBER && has_users(desk.house(), item)
}

/// Performs an item, where it can follow, and notes where its text lies: so far behind the front of its record.
fn enter(
    alloc: Global,
    desk: &mut Desk,
    item: Item,
    place: Place,
    from: u32,
) -> Result<bool, NoMemory>
    requires { IsFormed item }
    ensures entered { IfOk result (λ stood. Enters desk.old.kept item stood desk.new.kept) }
    ensures noted { IfOk result (λ stood. stood ≡ true → NotesText (text_in item.deed) (body_of item) place from desk.old.notes desk.new.notes) }
    ensures marks { OnOk result (desk.new.marks ≡ desk.old.marks) }
{
    if !can_follow(desk, &item) {
        drop(item);
        return Ok(false);
    }
    match desk.ready_item(alloc, item) {
        Ok(ready) => {
            drop(desk.enter(ready, place, from));
            Ok(true)
        }
        Err(NoMemory) => Err(NoMemory),
    }
}

/// How many bytes the payload at a place has: four bytes say it.
pub(crate) fn length_at(place: Place) -> u32
    ensures { result ≡ place.length }
{
    place.length
}

/// The same of the item of a user's record.
fn enter_verb(
    alloc: Global,
    desk: &mut Desk,
    end: u64,
    item: Item,
    place: Place,
) -> Result<bool, NoMemory>
    requires spelled { HasSpelling (Verb item) }
    requires place { place.gate + 5 + place.length ≤ end }
    requires long { place.length ≡ length (record_bytes (Verb item)) }
    ensures entered { IfOk result (λ stood. Performs (after_record desk.old.kept (Verb item)) stood desk.new.kept) }
    ensures noted { IfOk result (λ stood. stood ≡ true → NotesTexts end place (record_bytes (Verb item)) desk.old desk.new) }
    ensures marked { IfOk result (λ stood. stood ≡ true → KeepsMarks end place (record_bytes (Verb item)) desk.old desk.new) }
{
    spelled_items_are_formed();
    desk.stands();
    let _length = length_at(place);
    let from = item_text_from(&item);
    enter(alloc, desk, item, place, from)
}

/// The same of an operator's act.
fn enter_act(
    alloc: Global,
    desk: &mut Desk,
    end: u64,
    number: u32,
    at: u64,
    act: Act,
    place: Place,
) -> Result<bool, NoMemory>
    requires spelled { HasSpelling (Operator number at act) }
    requires place { place.gate + 5 + place.length ≤ end }
    requires long { place.length ≡ length (record_bytes (Operator number at act)) }
    ensures entered { IfOk result (λ stood. Performs (after_record desk.old.kept (Operator number at act)) stood desk.new.kept) }
    ensures noted { IfOk result (λ stood. stood ≡ true → NotesTexts end place (record_bytes (Operator number at act)) desk.old desk.new) }
    ensures marked { IfOk result (λ stood. stood ≡ true → KeepsMarks end place (record_bytes (Operator number at act)) desk.old desk.new) }
{
    spelled_items_are_formed();
    desk.stands();
    let from = act_text_from(&act);
    enter(alloc, desk, item_of(number, at, act), place, from)
}

// ---- a request

/// Whether the users that acts name are known.
fn acts_known(house: &House, acts: &[Act]) -> bool
    ensures { result ≡ acts_name_known house.now acts.now }
{
    acts.iter().all(|act| act_knows(house, act))
}

/// Whether the users of the acts that a request brings are known.
fn brings_known(house: &House, asked: &Request<'_>) -> bool
    ensures { result ≡ knows_acts house.now asked.now }
{
    match asked {
        Request::Cycle(ask) => acts_known(house, ask.inserts.as_slice()),
        Request::Withdrawal(_, _) => true,
    }
}

/// Whether a request can follow: it has the next number, and the users that its acts name are known.
fn can_redo(desk: &Desk, number: u32, asked: &Request<'_>) -> bool
    ensures { result ≡ redoes desk.now.kept number asked.now }
{
    number == desk.next() && brings_known(desk.house(), asked)
}

/// Whether no request had a key.
fn is_new(desk: &Desk, key: &Name) -> bool
    ensures { result ≡ is_none (report_of desk.now.kept.reports key.now) }
{
    desk.report(key).is_none()
}

/// Puts what a repair leaves in place, with the notes of its texts.
fn replace_with(
    alloc: Global,
    desk: &mut Desk,
    key: Name,
    undoes: bool,
    made: Rewound,
    fresh: Fresh,
) -> Result<bool, ReadFault>
    requires fit { IsFit desk.old.kept made }
    requires undone { CanBeUndone desk.old.kept undoes made }
    ensures kept { IfOk result (λ stood. (stood ≡ true) × (desk.new.kept ≡ after_rewound desk.old.kept key undoes made)) }
    ensures notes { OnOk result (Renotes desk.old.notes fresh desk.old.kept.texts (asked_then desk.old.kept undoes made) desk.new.notes) }
    ensures sizes { OnOk result (SizesOf desk.new.notes desk.new.kept.texts (items_asked desk.new.kept)) }
    ensures marks { OnOk result (desk.new.marks ≡ marks_at_or_before made.place desk.old.marks) }
    ensures never { IsErrOf result ReadFault.Disk → ⊥ }
{
    let remade = remade(alloc, desk, key, undoes, made, &fresh);
    drop(fresh);
    match remade {
        Ok(remade) => {
            desk.replace(remade);
            desk.stands();
            Ok(true)
        }
        Err(NoMemory) => Err(ReadFault::NoMemory),
    }
}

/// Puts what comes of a request in place, whose record lies at a place.
fn put_in_place(
    alloc: Global,
    desk: &mut Desk,
    asked: &Request<'_>,
    made: Rewound,
    place: Place,
) -> Result<bool, ReadFault>
    requires fit { IsFit desk.old.kept made }
    requires undone { CanBeUndone desk.old.kept (undoes_of asked.now) made }
    ensures kept { IfOk result (λ stood. (stood ≡ true) × (desk.new.kept ≡ after_rewound desk.old.kept (key_of asked.now) (undoes_of asked.now) made)) }
    ensures notes { (at : ℕ) → OnOk result (NotesFor desk.old at asked.now place made desk.new.notes) }
    ensures sizes { OnOk result (SizesOf desk.new.notes desk.new.kept.texts (items_asked desk.new.kept)) }
    ensures marks { OnOk result (desk.new.marks ≡ marks_at_or_before made.place desk.old.marks) }
    ensures never { IsErrOf result ReadFault.Disk → ⊥ }
{
    match asked.placed(alloc, desk.next(), place) {
        Ok((key, fresh)) => replace_with(alloc, desk, key, asked.undoes(), made, fresh),
        Err(NoMemory) => {
            drop(made);
            Err(ReadFault::NoMemory)
        }
    }
}

/// A request can't stand that is refused for more than a read that failed, and want of memory.
fn none_due(refused: CycleRefused) -> Result<bool, ReadFault>
    ensures none { IfOk result (λ stood. stood ≡ false) }
    ensures disk { IsErrOf result ReadFault.Disk → refused ≡ CycleRefused.Disk }
    ensures no_memory { IsErrOf result ReadFault.NoMemory → refused ≡ CycleRefused.NoMemory }
    ensures why { OnOk result ((refused ≡ CycleRefused.NoMemory → ⊥) × (refused ≡ CycleRefused.Disk → ⊥)) }
{
    match refused {
        CycleRefused::Point { .. } => Ok(false),
        CycleRefused::Numbers { .. } => Ok(false),
        CycleRefused::Disk => Err(ReadFault::Disk),
        CycleRefused::NoMemory => Err(ReadFault::NoMemory),
    }
}

/// Performs a request whose record lies at a place, where it can stand. Its number is the next, the users of its acts are known, its
/// key is new, what it goes back to is there, and numbers are left. Texts of deliveries are read where they lie.
fn redo<D: Disk>(
    alloc: Global,
    past: &mut Past<D>,
    desk: &mut Desk,
    number: u32,
    at: u64,
    asked: &Request<'_>,
    place: Place,
) -> Result<bool, ReadFault>
    requires spelled { HasSpelling (record_of number at asked.now) }
    requires noted { AreNoted past.old.end desk.old }
    requires place { place.gate + 5 + place.length ≤ past.old.end }
    requires long { place.length ≡ length (record_bytes (record_of number at asked.now)) }
    ensures performed { (payloads : List (List ℕ)) → TextsHeld (D.told past.old.disk) payloads desk.old.kept desk.old.notes desk.old.marks
        → IfOk result (λ stood. Performs (after_record desk.old.kept (record_of number at asked.now)) stood desk.new.kept) }
    ensures texts { (payloads : List (List ℕ)) → TextsHeld (D.told past.old.disk) payloads desk.old.kept desk.old.notes desk.old.marks
        → LiesAt payloads place.gate place.length (record_bytes (record_of number at asked.now))
        → IfOk result (λ stood. stood ≡ true → TextsStored payloads desk.new.notes desk.new.kept) }
    ensures marks { (payloads : List (List ℕ)) → TextsHeld (D.told past.old.disk) payloads desk.old.kept desk.old.notes desk.old.marks
        → IfOk result (λ stood. stood ≡ true → MarksLie payloads desk.new.kept desk.new.marks) }
    ensures noted { IfOk result (λ stood. stood ≡ true → AreNoted past.old.end desk.new) }
    ensures still { IsPastRead D.told past.old past.new }
    ensures cause { ReadAtCause (D.told past.old.disk) (D.told past.new.disk) result }
{
    spelled_cycles_have_moments();
    spelled_withdrawals_have_moments();
    desk.stands();
    if !can_redo(desk, number, asked) || !is_new(desk, asked.key()) {
        return Ok(false);
    }
    match rework_again(alloc, past, desk, at, asked) {
        Ok(made) => put_in_place(alloc, desk, asked, made, place),
        Err(refused) => none_due(refused),
    }
}

// ---- a snapshot

/// Whether a snapshot can follow: it is of as many items as are in force, and makes a store of the house.
fn can_keep(desk: &Desk, items: u32, conf: &Conf, rows: &[(BoxId, Mailbox)]) -> bool
    ensures { result ≡ keeps desk.now.kept items conf.now rows.now }
{
    items as usize == desk.all_items().len() && makes_store(desk.house(), conf, rows)
}

/// Whether the bytes of a snapshot are the same as these.
fn has_bytes(
    alloc: Global,
    items: u32,
    conf: &Conf,
    rows: &[(BoxId, Mailbox)],
    bytes: &Text,
) -> Result<bool, NoMemory>
    ensures { IfOk result (λ same. same ≡ bytes_eq (record_bytes (Snapshot items conf.now rows.now)) bytes.now) }
{
    match spell_snapshot(alloc, items, conf, rows) {
        Ok(text) => Ok(text.bytes() == bytes.bytes()),
        Err(_) => Err(NoMemory),
    }
}

/// Whether a snapshot of as many items as are in force is true. It holds the store that is kept, exactly where its bytes are those
/// of the snapshot of what is kept.
fn is_true(
    alloc: Global,
    desk: &Desk,
    items: u32,
    conf: &Conf,
    rows: &[(BoxId, Mailbox)],
) -> Result<bool, NoMemory>
    requires items { items ≡ length desk.now.kept.timeline }
    requires spelled { HasSpelling (Snapshot items conf.now rows.now) }
    ensures truth { IfOk result (λ truth. truth ≡ tells_all desk.now.kept (Snapshot items conf.now rows.now)) }
    ensures spelled { OnOk result (HasSpelling (snapshot_record desk.now.kept)) }
{
    one_spelling();
    match snapshot_text(alloc, desk.store(), items) {
        Ok(bytes) => has_bytes(alloc, items, conf, rows, &bytes),
        Err(NoMemory) => Err(NoMemory),
    }
}

/// Marks the snapshot at a place where it is true, and passes it where it is not: no cycle begins from it.
fn mark_at(desk: &mut Desk, truth: bool, place: Place) -> Result<bool, NoMemory>
    ensures kept { IfOk result (λ stood. (stood ≡ true) × (desk.new.kept ≡ kept_as desk.old.kept truth)) }
    ensures notes { OnOk result (desk.new.notes ≡ desk.old.notes) }
    ensures marks { OnOk result (desk.new.marks ≡ marked_as desk.old truth place) }
{
    match desk.ready_mark() {
        Ok(()) => {
            if truth {
                desk.mark(place);
            } else {
                desk.pass_mark();
            }
            Ok(true)
        }
        Err(NoMemory) => Err(NoMemory),
    }
}

/// Marks or passes a snapshot, where it can follow.
fn keep(
    alloc: Global,
    desk: &mut Desk,
    end: u64,
    items: u32,
    conf: &Conf,
    rows: &[(BoxId, Mailbox)],
    place: Place,
) -> Result<bool, NoMemory>
    requires spelled { HasSpelling (Snapshot items conf.now rows.now) }
    requires place { place.gate + 5 + place.length ≤ end }
    ensures entered { IfOk result (λ stood. Performs (after_record desk.old.kept (Snapshot items conf.now rows.now)) stood desk.new.kept) }
    ensures still { IfOk result (λ stood. stood ≡ true → AsksAlike desk.old desk.new) }
    ensures marked { IfOk result (λ stood. stood ≡ true → KeepsMarks end place (record_bytes (Snapshot items conf.now rows.now)) desk.old desk.new) }
{
    if !can_keep(desk, items, conf, rows) {
        return Ok(false);
    }
    match is_true(alloc, desk, items, conf, rows) {
        Ok(truth) => mark_at(desk, truth, place),
        Err(NoMemory) => Err(NoMemory),
    }
}

/// The same of a record.
fn enter_snapshot(
    alloc: Global,
    desk: &mut Desk,
    end: u64,
    items: u32,
    conf: Conf,
    rows: Rows,
    place: Place,
) -> Result<bool, NoMemory>
    requires spelled { HasSpelling (Snapshot items conf rows) }
    requires place { place.gate + 5 + place.length ≤ end }
    ensures entered { IfOk result (λ stood. Performs (after_record desk.old.kept (Snapshot items conf rows)) stood desk.new.kept) }
    ensures still { IfOk result (λ stood. stood ≡ true → AsksAlike desk.old desk.new) }
    ensures marked { IfOk result (λ stood. stood ≡ true → KeepsMarks end place (record_bytes (Snapshot items conf rows)) desk.old desk.new) }
{
    let kept = keep(alloc, desk, end, items, &conf, rows.as_slice(), place);
    drop(conf);
    drop(rows);
    kept
}

/// Whether a snapshot can follow and is true; it is marked then.
fn keep_true(
    alloc: Global,
    desk: &mut Desk,
    end: u64,
    items: u32,
    conf: &Conf,
    rows: &[(BoxId, Mailbox)],
    place: Place,
) -> Result<bool, NoMemory>
    requires spelled { HasSpelling (Snapshot items conf.now rows.now) }
    requires place { place.gate + 5 + place.length ≤ end }
    ensures judged { IfOk result (λ truth. Judges desk.old.kept (Snapshot items conf.now rows.now) truth desk.new.kept) }
    ensures still { IfOk result (λ truth. truth ≡ true → AsksAlike desk.old desk.new) }
    ensures marked { IfOk result (λ truth. truth ≡ true → KeepsMarks end place (record_bytes (Snapshot items conf.now rows.now)) desk.old desk.new) }
{
    if !can_keep(desk, items, conf, rows) {
        return Ok(false);
    }
    match is_true(alloc, desk, items, conf, rows) {
        Ok(true) => mark_at(desk, true, place),
        Ok(false) => Ok(false),
        Err(NoMemory) => Err(NoMemory),
    }
}

/// The same of a record.
pub(crate) fn snapshot_is_true(
    alloc: Global,
    desk: &mut Desk,
    end: u64,
    items: u32,
    conf: Conf,
    rows: Rows,
    place: Place,
) -> Result<bool, NoMemory>
    requires spelled { HasSpelling (Snapshot items conf rows) }
    requires place { place.gate + 5 + place.length ≤ end }
    ensures judged { IfOk result (λ truth. Judges desk.old.kept (Snapshot items conf rows) truth desk.new.kept) }
    ensures still { IfOk result (λ truth. truth ≡ true → AsksAlike desk.old desk.new) }
    ensures marked { IfOk result (λ truth. truth ≡ true → KeepsMarks end place (record_bytes (Snapshot items conf rows)) desk.old desk.new) }
{
    let truth = keep_true(alloc, desk, end, items, &conf, rows.as_slice(), place);
    drop(conf);
    drop(rows);
    truth
}

// ---- an upgrade

/// Upgrades a desk, where it was not upgraded before.
fn enter_upgrade(desk: &mut Desk, at: u64) -> bool
    requires { HasSpelling (Upgrade at) }
    ensures entered { Performs (after_record desk.old.kept (Upgrade at)) result desk.new.kept }
    ensures base { desk.new.kept.base ≡ desk.old.kept.base }
    ensures timeline { desk.new.kept.timeline ≡ desk.old.kept.timeline }
    ensures asked { items_asked desk.new.kept ≡ items_asked desk.old.kept }
    ensures texts { desk.new.kept.texts ≡ desk.old.kept.texts }
    ensures first { desk.new.kept.first ≡ desk.old.kept.first }
    ensures notes { desk.new.notes ≡ desk.old.notes }
    ensures marks { desk.new.marks ≡ desk.old.marks }
{
    let _at = at;
    if desk.deep() {
        return false;
    }
    desk.upgrade();
    true
}

// ---- the next record

/// What is told of one record that finds no memory.
pub(crate) fn without_reads(stood: Result<bool, NoMemory>) -> Result<bool, ReadFault>
    ensures same { IfOk result (λ b. stood ≡ Ok b) }
    ensures never { IsErrOf result ReadFault.Disk → ⊥ }
{
    match stood {
        Ok(stood) => Ok(stood),
        Err(NoMemory) => Err(ReadFault::NoMemory),
    }
}

/// What a record asks of the past, with its number and its moment. One of another kind asks nothing.
fn asked_in(what: &JournalRecord) -> Option<(u32, u64, Request<'_>)>
    ensures asked { IfSome result (λ found. what.now ≡ record_of found.0 found.1 found.2) }
    ensures alone { IsTrue (is_none result) → asks what.now ≡ false }
{
    match what {
        JournalRecord::Cycle { number, at, ask } => Some((*number, *at, Request::Cycle(ask))),
        JournalRecord::Withdraw {
            number,
            at,
            key,
            of,
        } => Some((*number, *at, Request::Withdrawal(key, *of))),
        _ => None,
    }
}

/// Performs a record that asks nothing of the past, where it can stand, and answers whether it can. The text that it has is noted.
fn enter_alone(
    alloc: Global,
    desk: &mut Desk,
    end: u64,
    what: JournalRecord,
    place: Place,
) -> Result<bool, NoMemory>
    requires alone { asks what ≡ false }
    requires spelled { HasSpelling what }
    requires place { place.gate + 5 + place.length ≤ end }
    requires long { place.length ≡ length (record_bytes what) }
    ensures entered { IfOk result (λ stood. Performs (after_record desk.old.kept what) stood desk.new.kept) }
    ensures noted { IfOk result (λ stood. stood ≡ true → NotesTexts end place (record_bytes what) desk.old desk.new) }
    ensures marked { IfOk result (λ stood. stood ≡ true → KeepsMarks end place (record_bytes what) desk.old desk.new) }
{
    match what {
        JournalRecord::Verb(item) => enter_verb(alloc, desk, end, item, place),
        JournalRecord::Operator { number, at, act } => {
            enter_act(alloc, desk, end, number, at, act, place)
        }
        JournalRecord::Snapshot { items, conf, rows } => {
            enter_snapshot(alloc, desk, end, items, conf, rows, place)
        }
        JournalRecord::Upgrade { at } => Ok(enter_upgrade(desk, at)),
        other => {
            drop(other);
            Ok(false)
        }
    }
}

/// Performs a record that lies at a place behind others, where it can stand, and answers whether it can. The texts that it
/// has are noted.
pub(crate) fn follow<D: Disk>(
    alloc: Global,
    past: &mut Past<D>,
    desk: &mut Desk,
    what: JournalRecord,
    place: Place,
) -> Result<bool, ReadFault>
    requires spelled { HasSpelling what }
    requires noted { AreNoted past.old.end desk.old }
    requires place { place.gate + 5 + place.length ≤ past.old.end }
    requires long { place.length ≡ length (record_bytes what) }
    ensures performed { (payloads : List (List ℕ)) → TextsHeld (D.told past.old.disk) payloads desk.old.kept desk.old.notes desk.old.marks
        → IfOk result (λ stood. Performs (after_record desk.old.kept what) stood desk.new.kept) }
    ensures texts { (payloads : List (List ℕ)) → TextsHeld (D.told past.old.disk) payloads desk.old.kept desk.old.notes desk.old.marks
        → LiesAt payloads place.gate place.length (record_bytes what)
        → IfOk result (λ stood. stood ≡ true → TextsStored payloads desk.new.notes desk.new.kept) }
    ensures marks { (payloads : List (List ℕ)) → TextsHeld (D.told past.old.disk) payloads desk.old.kept desk.old.notes desk.old.marks
        → LiesAt payloads place.gate place.length (record_bytes what)
        → IfOk result (λ stood. stood ≡ true → MarksLie payloads desk.new.kept desk.new.marks) }
    ensures noted { IfOk result (λ stood. stood ≡ true → AreNoted past.old.end desk.new) }
    ensures still { IsPastRead D.told past.old past.new }
    ensures cause { ReadAtCause (D.told past.old.disk) (D.told past.new.disk) result }
{
    match asked_in(&what) {
        Some((number, at, asked)) => {
            let stood = redo(alloc, past, desk, number, at, &asked, place);
            drop(what);
            stood
        }
        None => without_reads(enter_alone(alloc, desk, past.end(), what, place)),
    }
}
