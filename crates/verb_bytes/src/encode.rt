//! Records, written as their bytes.
//!
//! A record whose spelling has more than 4,294,967,295 bytes finds no memory.
ghost use Rattle.std.specs.Prelude.{◌≡◌, [], IfOk};
ghost use Rattle.verb_bytes.specs.declared.journal.JournalRecord.TheVariants.{Verb, Operator, Cycle, Snapshot, Upgrade, Withdraw, Base, Text as TextRecord, Kept};
ghost use Rattle.verb_bytes.specs.Spelling.{ask_fields, filter_fields, scoped_fields, store_fields, record_fields, record_bytes, HasSpelling};
ghost use Rattle.verb_bytes.specs.Writing.{Encodes, Puts};

use crate::items::put_kept;
use crate::kinds::put_record_kind;
use crate::part::{Part, put_list, put_slice};
use crate::scopes::put_scoped_filters;
use crate::settings::put_house;
use crate::write::{Unwritten, put_bool, put_name, put_text, put_u32, put_u64};
use crate::{CycleAsk, JournalRecord};
use paradox::Report;
use std::alloc::Global;
use undo_base::{LAST_MOMENT, Name, NoMemory, Text};
use verb_core::{Act, Body, BoxId, Conf, Item, Mailbox, are_of_body};

/// The fields of most items that stand beside a text have no more bytes.
const BESIDE: usize = 512;

#[tactic(auto, using(crate::proofs::Puts::list_steps))]
fn put_ask(ask: &CycleAsk, out: &mut Text) -> Result<(), Unwritten>
    ensures { Puts (ask_fields ask.now) out.old out.new result }
{
    put_name(out, &ask.key)?;
    put_u32(out, u32::MAX, ask.point)?;
    put_list(u32::MAX, &ask.drops, out)?;
    put_list(u32::MAX, &ask.replaces, out)?;
    put_list(u32::MAX, &ask.inserts, out)
}

#[tactic(auto, using(crate::proofs::Puts::list_steps))]
fn put_verb(item: &Item, out: &mut Text) -> Result<(), Unwritten>
    ensures { Puts (record_fields (Verb item.now)) out.old out.new result }
{
    put_record_kind(out, 1)?;
    item.put(out)
}

#[tactic(auto, using(crate::proofs::Puts::list_steps))]
fn put_operator(number: u32, at: u64, act: &Act, out: &mut Text) -> Result<(), Unwritten>
    ensures { Puts (record_fields (Operator number at act.now)) out.old out.new result }
{
    put_record_kind(out, 2)?;
    put_u32(out, u32::MAX, number)?;
    put_u64(out, LAST_MOMENT, at)?;
    act.put(out)
}

#[tactic(auto, using(crate::proofs::Puts::list_steps))]
fn put_cycle(number: u32, at: u64, ask: &CycleAsk, out: &mut Text) -> Result<(), Unwritten>
    ensures { Puts (record_fields (Cycle number at ask.now)) out.old out.new result }
{
    put_record_kind(out, 3)?;
    put_u32(out, u32::MAX, number)?;
    put_u64(out, LAST_MOMENT, at)?;
    put_ask(ask, out)
}

#[tactic(auto, using(crate::proofs::Puts::list_steps))]
fn put_snapshot(
    items: u32,
    conf: &Conf,
    rows: &[(BoxId, Mailbox)],
    out: &mut Text,
) -> Result<(), Unwritten>
    ensures { Puts (record_fields (Snapshot items conf.now rows.now)) out.old out.new result }
{
    if are_of_body(conf.filters.as_slice()) {
        put_record_kind(out, 4)?;
        put_store(items, conf, rows, out)
    } else {
        put_record_kind(out, 6)?;
        put_scoped_store(items, conf, rows, out)
    }
}

/// Writes a store, each of whose filters looks at the whole text.
#[tactic(auto, using(crate::proofs::Puts::list_steps))]
fn put_store(
    items: u32,
    conf: &Conf,
    rows: &[(BoxId, Mailbox)],
    out: &mut Text,
) -> Result<(), Unwritten>
    ensures { Puts (store_fields filter_fields items conf.now rows.now) out.old out.new result }
{
    put_u32(out, u32::MAX, items)?;
    put_list(u32::MAX, &conf.aliases, out)?;
    put_list(u32::MAX, &conf.filters, out)?;
    put_slice(u32::MAX, rows, out)
}

/// The same with the scopes of its filters.
#[tactic(auto, using(crate::proofs::Puts::list_steps))]
fn put_scoped_store(
    items: u32,
    conf: &Conf,
    rows: &[(BoxId, Mailbox)],
    out: &mut Text,
) -> Result<(), Unwritten>
    ensures { Puts (store_fields (scoped_fields 0) items conf.now rows.now) out.old out.new result }
{
    put_u32(out, u32::MAX, items)?;
    put_list(u32::MAX, &conf.aliases, out)?;
    put_scoped_filters(&conf.filters, out)?;
    put_slice(u32::MAX, rows, out)
}

#[tactic(auto, using(crate::proofs::Puts::list_steps))]
fn put_upgrade(at: u64, out: &mut Text) -> Result<(), Unwritten>
    ensures { Puts (record_fields (Upgrade at)) out.old out.new result }
{
    put_record_kind(out, 5)?;
    put_u64(out, LAST_MOMENT, at)
}

#[tactic(auto, using(crate::proofs::Puts::list_steps))]
fn put_withdraw(number: u32, at: u64, key: &Name, of: u32, out: &mut Text) -> Result<(), Unwritten>
    ensures { Puts (record_fields (Withdraw number at key.now of)) out.old out.new result }
{
    put_record_kind(out, 7)?;
    put_u32(out, u32::MAX, number)?;
    put_u64(out, LAST_MOMENT, at)?;
    put_name(out, key)?;
    put_u32(out, u32::MAX, of)
}

#[tactic(auto, using(crate::proofs::Puts::list_steps))]
fn put_base(
    next: u32,
    deep: bool,
    conf: &Conf,
    rows: &[(BoxId, Mailbox)],
    stamps: &[(BoxId, u32)],
    reports: &[(Name, Report)],
    out: &mut Text,
) -> Result<(), Unwritten>
    ensures { Puts (record_fields (Base next deep conf.now rows.now stamps.now reports.now)) out.old out.new result }
{
    let Conf { aliases, filters } = conf;
    put_record_kind(out, 8)?;
    put_u32(out, u32::MAX, next)?;
    put_bool(out, deep)?;
    put_list(u32::MAX, aliases, out)?;
    put_scoped_filters(filters, out)?;
    put_slice(u32::MAX, rows, out)?;
    put_slice(u32::MAX, stamps, out)?;
    put_slice(u32::MAX, reports, out)
}

#[tactic(auto, using(crate::proofs::Puts::list_steps))]
fn put_text_record(body: Body, text: &Text, out: &mut Text) -> Result<(), Unwritten>
    ensures { Puts (record_fields (TextRecord body text.now)) out.old out.new result }
{
    put_record_kind(out, 9)?;
    put_u32(out, u32::MAX, body.origin)?;
    put_u32(out, u32::MAX, body.rev)?;
    put_text(out, u32::MAX, text)
}

#[tactic(auto, using(crate::proofs::Puts::list_steps))]
fn put_kept_record(item: &Item, out: &mut Text) -> Result<(), Unwritten>
    ensures { Puts (record_fields (Kept item.now)) out.old out.new result }
{
    put_record_kind(out, 10)?;
    put_kept(item, out)
}

#[tactic(auto, using(crate::proofs::Puts::list_steps))]
fn put_record(what: &JournalRecord, out: &mut Text) -> Result<(), Unwritten>
    ensures { Puts (record_fields what.now) out.old out.new result }
{
    match what {
        JournalRecord::Format(house, conf) => {
            put_record_kind(out, 0)?;
            put_house(house, conf, out)
        }
        JournalRecord::Verb(item) => put_verb(item, out),
        JournalRecord::Operator { number, at, act } => put_operator(*number, *at, act, out),
        JournalRecord::Cycle { number, at, ask } => put_cycle(*number, *at, ask, out),
        JournalRecord::Snapshot { items, conf, rows } => put_snapshot(
            *items,
            conf,
            rows.as_slice(),
            out,
        ),
        JournalRecord::Upgrade { at } => put_upgrade(*at, out),
        JournalRecord::Withdraw {
            number,
            at,
            key,
            of,
        } => put_withdraw(*number, *at, key, *of, out),
        JournalRecord::Base {
            next,
            deep,
            conf,
            rows,
            stamps,
            reports,
        } => put_base(
            *next,
            *deep,
            conf,
            rows.as_slice(),
            stamps.as_slice(),
            reports.as_slice(),
            out,
        ),
        JournalRecord::Text { body, text } => put_text_record(*body, text, out),
        JournalRecord::Kept(item) => put_kept_record(item, out),
    }
}

/// The one spelling of a record, where it has one. One of more than `MOST_TEXT` bytes finds no memory.
pub fn spell_record(alloc: Global, what: &JournalRecord) -> Result<Text, Unwritten>
    ensures { Encodes what.now result }
{
    let mut out = Text::new(alloc);
    put_record(what, &mut out)?;
    Ok(out)
}

/// A text of no bytes. Where there is memory for so many and the fields beside them, there is room for these.
fn text_with_room(alloc: Global, count: usize) -> Text
    ensures { result ≡ [] }
{
    match Vec::with_capacity(alloc, count.saturating_add(BESIDE)) {
        Ok(bytes) => Text::from_vec(bytes),
        Err(_) => Text::new(alloc),
    }
}

/// The same of the record of a user's item, whose text is copied once.
pub fn spell_item(alloc: Global, item: &Item) -> Result<Text, Unwritten>
    ensures { Encodes (Verb item.now) result }
{
    let mut out = text_with_room(alloc, item.deed.text_bytes().len());
    put_verb(item, &mut out)?;
    Ok(out)
}

/// The same of the record of an operator's act.
pub fn spell_act(alloc: Global, number: u32, at: u64, act: &Act) -> Result<Text, Unwritten>
    ensures { Encodes (Operator number at act.now) result }
{
    let mut out = Text::new(alloc);
    put_operator(number, at, act, &mut out)?;
    Ok(out)
}

/// The same of the record of a cycle.
pub fn spell_cycle(alloc: Global, number: u32, at: u64, ask: &CycleAsk) -> Result<Text, Unwritten>
    ensures { Encodes (Cycle number at ask.now) result }
{
    let mut out = Text::new(alloc);
    put_cycle(number, at, ask, &mut out)?;
    Ok(out)
}

/// The same of the record of a snapshot.
pub fn spell_snapshot(
    alloc: Global,
    items: u32,
    conf: &Conf,
    rows: &[(BoxId, Mailbox)],
) -> Result<Text, Unwritten>
    ensures { Encodes (Snapshot items conf.now rows.now) result }
{
    let mut out = Text::new(alloc);
    put_snapshot(items, conf, rows, &mut out)?;
    Ok(out)
}

/// The same of the record of an upgrade.
pub fn spell_upgrade(alloc: Global, at: u64) -> Result<Text, Unwritten>
    ensures { Encodes (Upgrade at) result }
{
    let mut out = Text::new(alloc);
    put_upgrade(at, &mut out)?;
    Ok(out)
}

/// The same of the record of a withdrawal.
pub fn spell_withdraw(
    alloc: Global,
    number: u32,
    at: u64,
    key: &Name,
    of: u32,
) -> Result<Text, Unwritten>
    ensures { Encodes (Withdraw number at key.now of) result }
{
    let mut out = Text::new(alloc);
    put_withdraw(number, at, key, of, &mut out)?;
    Ok(out)
}

/// The same of the record of a base.
pub fn spell_base(
    alloc: Global,
    next: u32,
    deep: bool,
    conf: &Conf,
    rows: &[(BoxId, Mailbox)],
    stamps: &[(BoxId, u32)],
    reports: &[(Name, Report)],
) -> Result<Text, Unwritten>
    ensures { Encodes (Base next deep conf.now rows.now stamps.now reports.now) result }
{
    let mut out = Text::new(alloc);
    put_base(next, deep, conf, rows, stamps, reports, &mut out)?;
    Ok(out)
}

/// The same of the record of a body's text.
pub fn spell_text(alloc: Global, body: Body, text: &Text) -> Result<Text, Unwritten>
    ensures { Encodes (TextRecord body text.now) result }
{
    let mut out = Text::new(alloc);
    put_text_record(body, text, &mut out)?;
    Ok(out)
}

/// The same of the record of an item that is kept.
pub fn spell_kept(alloc: Global, item: &Item) -> Result<Text, Unwritten>
    ensures { Encodes (Kept item.now) result }
{
    let mut out = Text::new(alloc);
    put_kept_record(item, &mut out)?;
    Ok(out)
}

/// The one spelling of a record that has one. One of more than `MOST_TEXT` bytes finds no memory.
pub fn encode_record(alloc: Global, what: &JournalRecord) -> Result<Text, NoMemory>
    requires { HasSpelling what.now }
    ensures { IfOk result (λ text. text ≡ record_bytes what.now) }
{
    match spell_record(alloc, what) {
        Ok(text) => Ok(text),
        Err(Unwritten::Unspelled) => unreachable!(),
        Err(Unwritten::NoMemory) => Err(NoMemory),
    }
}
