//! What is asked of a cycle, and of a withdrawal.
//!
//! A cycle that is read always has a spelling, whatever number and moment it gets: a request's body has 4 MiB at most, so no list
//! of it is too long.
//!
//! Keys are the same where their bytes are. `INBOX` in any case is no special key. A request's key has up to 64 bytes; a record's
//! is a name, of up to 200.
//!
//! For a try the key may be missing or any JSON value. What it is told is the report under a new key, also where its key was
//! used.
//!
//! `drop`, `replace` and `insert` may be missing; `null` in their place is no list, and refused. Of a member given twice the last
//! counts, as everywhere in JSON here.
ghost use Rattle.std.specs.Prelude.{◌≡◌, IsTrue, IfOk};
ghost use Rattle.serde_json.specs.View.{view, items_view};
ghost use Rattle.verb_core.specs.Store.{is_house};
ghost use Rattle.console_http.specs.Acts.{act_of};
ghost use Rattle.console_http.specs.Members.{each_of, whole_number as whole_number_of};
ghost use Rattle.console_http.specs.Cycles as spec;

use crate::acts::act_from;
use crate::members::{
    body_at, has_members, list_at, number_at, one_at, read_value, text_at, whole_number,
};
use crate::parts::read_name;
use serde_json::Value;
use std::alloc::Global;
use undo_base::{Name, NoMemory, Numbers, Text};
use verb_bytes::{Acts, CycleAsk, Replaces};
use verb_core::House;

/// How many bytes the key of a cycle or a withdrawal has at most.
const MOST_KEY: usize = 64;

/// How many of the members are among those of a cycle.
fn cycle_size(value: &Value) -> usize
    ensures { result ≡ spec.cycle_size (view value.now) }
{
    one_at(value, "key")
        + one_at(value, "point")
        + one_at(value, "drop")
        + one_at(value, "replace")
        + one_at(value, "insert")
}

/// Whether it is an object that has no members but those of a cycle.
fn has_cycle_members(value: &Value) -> bool
    ensures { result ≡ spec.has_cycle_members (view value.now) }
{
    has_members(value, cycle_size(value))
}

/// The key that a text is.
fn read_key(alloc: Global, text: &[u8]) -> Result<Option<Name>, NoMemory>
    ensures { IfOk result (λ key. key ≡ spec.key_of text.now) }
{
    if text.len() <= MOST_KEY {
        read_name(alloc, text)
    } else {
        Ok(None)
    }
}

fn key_at(alloc: Global, value: &Value) -> Result<Option<Name>, NoMemory>
    ensures { IfOk result (λ key. key ≡ spec.key_at (view value.now)) }
{
    match text_at(value, "key") {
        None => Ok(None),
        Some(text) => read_key(alloc, text.as_bytes()),
    }
}

fn item_number(value: &Value) -> Option<u32>
    ensures { result ≡ whole_number_of 4294967295 (view value.now) }
{
    let number = whole_number(value, 4_294_967_295)?;
    Some(number as u32)
}

#[tactic(auto, using(crate::proofs::Lists::numbers_none, crate::proofs::Lists::numbers_more, crate::proofs::Lists::numbers_bad))]
fn read_numbers(alloc: Global, values: &[Value]) -> Result<Option<Numbers>, NoMemory>
    ensures { IfOk result (λ numbers. numbers ≡ each_of (whole_number_of 4294967295) (items_view values.now)) }
{
    let mut numbers = Numbers::new(alloc);
    for value in values {
        match item_number(value) {
            Some(number) => numbers.push(number)?,
            None => return Ok(None),
        }
    }
    Ok(Some(numbers))
}

fn drops_at(alloc: Global, value: &Value) -> Result<Option<Numbers>, NoMemory>
    ensures { IfOk result (λ numbers. numbers ≡ spec.drops_at (view value.now)) }
{
    match list_at(value, "drop") {
        None => Ok(None),
        Some(values) => read_numbers(alloc, values),
    }
}

/// The number of an item and the text that it is to get.
fn read_replace(alloc: Global, value: &Value) -> Result<Option<(u32, Text)>, NoMemory>
    ensures { IfOk result (λ replace. replace ≡ spec.replace_of (view value.now)) }
{
    if !has_members(value, 2) {
        return Ok(None);
    }
    let Some(number) = number_at(value, "item", 4_294_967_295) else {
        return Ok(None);
    };
    let Some(text) = body_at(alloc, value)? else {
        return Ok(None);
    };
    Ok(Some((number as u32, text)))
}

#[tactic(auto, using(crate::proofs::Lists::replaces_none, crate::proofs::Lists::replaces_more, crate::proofs::Lists::replaces_bad))]
fn read_replaces(alloc: Global, values: &[Value]) -> Result<Option<Replaces>, NoMemory>
    ensures { IfOk result (λ replaces. replaces ≡ each_of spec.replace_of (items_view values.now)) }
{
    let mut replaces = Replaces::new(alloc);
    for value in values {
        match read_replace(alloc, value)? {
            Some(replace) => replaces.push(replace)?,
            None => return Ok(None),
        }
    }
    Ok(Some(replaces))
}

fn replaces_at(alloc: Global, value: &Value) -> Result<Option<Replaces>, NoMemory>
    ensures { IfOk result (λ replaces. replaces ≡ spec.replaces_at (view value.now)) }
{
    match list_at(value, "replace") {
        None => Ok(None),
        Some(values) => read_replaces(alloc, values),
    }
}

#[tactic(auto, using(crate::proofs::Lists::acts_none, crate::proofs::Lists::acts_more, crate::proofs::Lists::acts_bad))]
fn read_acts(alloc: Global, house: &House, values: &[Value]) -> Result<Option<Acts>, NoMemory>
    requires { IsTrue (is_house house.now) }
    ensures { IfOk result (λ acts. acts ≡ each_of (act_of house.now) (items_view values.now)) }
{
    let mut acts = Acts::new(alloc);
    for value in values {
        match act_from(alloc, house, value)? {
            Some(act) => acts.push(act)?,
            None => return Ok(None),
        }
    }
    Ok(Some(acts))
}

fn inserts_at(alloc: Global, house: &House, value: &Value) -> Result<Option<Acts>, NoMemory>
    requires { IsTrue (is_house house.now) }
    ensures { IfOk result (λ acts. acts ≡ spec.inserts_at house.now (view value.now)) }
{
    match list_at(value, "insert") {
        None => Ok(None),
        Some(values) => read_acts(alloc, house, values),
    }
}

/// What is asked under a key.
fn read_ask(
    alloc: Global,
    house: &House,
    key: Name,
    value: &Value,
) -> Result<Option<CycleAsk>, NoMemory>
    requires { IsTrue (is_house house.now) }
    ensures { IfOk result (λ ask. ask ≡ spec.ask_of house.now key (view value.now)) }
{
    let Some(point) = number_at(value, "point", 4_294_967_295) else {
        return Ok(None);
    };
    let Some(drops) = drops_at(alloc, value)? else {
        return Ok(None);
    };
    let Some(replaces) = replaces_at(alloc, value)? else {
        return Ok(None);
    };
    let Some(inserts) = inserts_at(alloc, house, value)? else {
        return Ok(None);
    };
    Ok(Some(CycleAsk {
        key,
        point: point as u32,
        drops,
        replaces,
        inserts,
    }))
}

/// The cycle that a value is: an object with a key, a point and what else a cycle can have, and no other members.
fn cycle_from(alloc: Global, house: &House, value: &Value) -> Result<Option<CycleAsk>, NoMemory>
    requires { IsTrue (is_house house.now) }
    ensures { IfOk result (λ ask. ask ≡ spec.cycle_of house.now (view value.now)) }
{
    if !has_cycle_members(value) {
        return Ok(None);
    }
    let Some(key) = key_at(alloc, value)? else {
        return Ok(None);
    };
    read_ask(alloc, house, key, value)
}

/// The try that a value is: as a cycle, but its key does not count.
fn tried_from(alloc: Global, house: &House, value: &Value) -> Result<Option<CycleAsk>, NoMemory>
    requires { IsTrue (is_house house.now) }
    ensures { IfOk result (λ ask. ask ≡ spec.try_of house.now (view value.now)) }
{
    if !has_cycle_members(value) {
        return Ok(None);
    }
    let key = Name::of(alloc, b"-")?;
    read_ask(alloc, house, key, value)
}

/// The withdrawal that a value is: an object with a key and a cycle's number, and no other members.
fn withdraw_from(alloc: Global, value: &Value) -> Result<Option<(Name, u32)>, NoMemory>
    ensures { IfOk result (λ asked. asked ≡ spec.withdraw_of (view value.now)) }
{
    if !has_members(value, 2) {
        return Ok(None);
    }
    let Some(key) = key_at(alloc, value)? else {
        return Ok(None);
    };
    let Some(of) = number_at(value, "of", 4_294_967_295) else {
        return Ok(None);
    };
    Ok(Some((key, of as u32)))
}

/// The cycle that a body is.
pub fn read_cycle(alloc: Global, house: &House, body: &[u8]) -> Result<Option<CycleAsk>, NoMemory>
    requires { IsTrue (is_house house.now) }
    ensures { IfOk result (λ ask. ask ≡ spec.cycle_in house.now body.now) }
{
    match read_value(alloc, body)? {
        None => Ok(None),
        Some(value) => cycle_from(alloc, house, &value),
    }
}

/// The try that a body is.
pub fn read_try(alloc: Global, house: &House, body: &[u8]) -> Result<Option<CycleAsk>, NoMemory>
    requires { IsTrue (is_house house.now) }
    ensures { IfOk result (λ ask. ask ≡ spec.try_in house.now body.now) }
{
    match read_value(alloc, body)? {
        None => Ok(None),
        Some(value) => tried_from(alloc, house, &value),
    }
}

/// The withdrawal that a body is.
pub fn read_withdraw(alloc: Global, body: &[u8]) -> Result<Option<(Name, u32)>, NoMemory>
    ensures { IfOk result (λ asked. asked ≡ spec.withdraw_in body.now) }
{
    match read_value(alloc, body)? {
        None => Ok(None),
        Some(value) => withdraw_from(alloc, &value),
    }
}
