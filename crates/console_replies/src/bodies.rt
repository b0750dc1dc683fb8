//! The short bodies of answers.
//!
//! `Counts` of mail_desk are what a desk counts; `StatusCounts` are what the console tells of them.
ghost use Rattle.std.specs.Prelude.{◌≡◌, IfOk, codes, true};
ghost use Rattle.serde_json.specs.Data.{boolean, member, no_members, object, put, string};
ghost use Rattle.serde_json.specs.View.{view};
ghost use Rattle.serde_json.specs.Written.{compact_text};
ghost use Rattle.console_replies.specs.Bodies.{counted, status_data, body_data, number_data, items_data, stopped_data, upgraded_data, word_text, error_data, point_data, uncycled_data, numbers_data};

use crate::objects::{with_number, with_text, with_value};
use crate::text::text_of;
use base64::engine::general_purpose::STANDARD;
use serde_json::{Map, Value};
use std::alloc::{AllocError, Global};
use undo_base::{NoMemory, Text};

/// How many there are of what the desk holds, and the next number.
#[derive(Clone, Copy)]
pub struct StatusCounts {
    pub cycles: u32,
    pub items: u32,
    pub messages: u64,
    pub next: u32,
    pub notices: u32,
    pub users: u32,
}

/// The word of a refusal.
#[derive(Clone, Copy)]
pub enum ErrorWord {
    Head,
    Json,
    Size,
    Route,
    Disk,
    Memory,
}

fn status_value(alloc: Global, c: StatusCounts) -> Result<Value, AllocError>
    ensures { IfOk result (λ v. view v ≡ status_data c) }
{
    let members = with_number(alloc, Map::new(alloc), "cycles", u64::from(c.cycles))?;
    let members = with_number(alloc, members, "items", u64::from(c.items))?;
    let members = with_number(alloc, members, "messages", c.messages)?;
    let members = with_number(alloc, members, "next", u64::from(c.next))?;
    let members = with_number(alloc, members, "notices", u64::from(c.notices))?;
    let members = with_number(alloc, members, "users", u64::from(c.users))?;
    Ok(Value::Object(members))
}

/// The answer to GET /status.
#[tactic(auto, using(crate::proofs::Floats::status_has_none))]
pub fn status_json(alloc: Global, counts: StatusCounts) -> Result<Text, NoMemory>
    ensures { IfOk result (λ text. text ≡ compact_text (status_data counts)) }
{
    text_of(alloc, status_value(alloc, counts)?)
}

fn body_value(alloc: Global, text: &[u8], rev: u32) -> Result<Value, AllocError>
    ensures { IfOk result (λ v. view v ≡ body_data text.now rev) }
{
    let encoded = STANDARD.encode(alloc, text)?;
    let members = with_value(alloc, Map::new(alloc), "body", Value::String(encoded))?;
    let members = with_number(alloc, members, "rev", u64::from(rev))?;
    Ok(Value::Object(members))
}

/// The answer to GET /body: a text and its rev.
#[tactic(auto, using(crate::proofs::Floats::body_has_none))]
pub fn body_json(alloc: Global, text: &[u8], rev: u32) -> Result<Text, NoMemory>
    ensures { IfOk result (λ out. out ≡ compact_text (body_data text.now rev)) }
{
    text_of(alloc, body_value(alloc, text, rev)?)
}

/// A number alone.
fn number_value(alloc: Global, key: &str, number: u32) -> Result<Value, AllocError>
    ensures { IfOk result (λ v. view v ≡ object (member key.now (counted number) no_members)) }
{
    let members = with_number(alloc, Map::new(alloc), key, u64::from(number))?;
    Ok(Value::Object(members))
}

/// The answer to POST /act: the act's number.
pub fn number_json(alloc: Global, number: u32) -> Result<Text, NoMemory>
    ensures { IfOk result (λ text. text ≡ compact_text (number_data number)) }
{
    text_of(alloc, number_value(alloc, "number", number)?)
}

/// The answer to POST /snapshot: how many items the snapshot holds.
pub fn items_json(alloc: Global, items: u32) -> Result<Text, NoMemory>
    ensures { IfOk result (λ text. text ≡ compact_text (items_data items)) }
{
    text_of(alloc, number_value(alloc, "items", items)?)
}

/// That something is true.
fn true_value(alloc: Global, key: &str) -> Result<Value, AllocError>
    ensures { IfOk result (λ v. view v ≡ object (member key.now (boolean true) no_members)) }
{
    let members = with_value(alloc, Map::new(alloc), key, Value::Bool(true))?;
    Ok(Value::Object(members))
}

/// The answer to POST /stop.
pub fn stopped_json(alloc: Global) -> Result<Text, NoMemory>
    ensures { IfOk result (λ text. text ≡ compact_text stopped_data) }
{
    text_of(alloc, true_value(alloc, "stopped")?)
}

/// The answer to POST /upgrade.
pub fn upgraded_json(alloc: Global) -> Result<Text, NoMemory>
    ensures { IfOk result (λ text. text ≡ compact_text upgraded_data) }
{
    text_of(alloc, true_value(alloc, "upgraded")?)
}

fn word(error: ErrorWord) -> &'static str
    ensures { result.now ≡ word_text error }
{
    match error {
        ErrorWord::Head => "head",
        ErrorWord::Json => "json",
        ErrorWord::Size => "size",
        ErrorWord::Route => "route",
        ErrorWord::Disk => "disk",
        ErrorWord::Memory => "memory",
    }
}

fn error_value(alloc: Global, error: ErrorWord) -> Result<Value, AllocError>
    ensures { IfOk result (λ v. view v ≡ error_data error) }
{
    let members = with_text(alloc, Map::new(alloc), "error", word(error))?;
    Ok(Value::Object(members))
}

/// The body of a refusal that has no number.
pub fn error_json(alloc: Global, error: ErrorWord) -> Result<Text, NoMemory>
    ensures { IfOk result (λ text. text ≡ compact_text (error_data error)) }
{
    text_of(alloc, error_value(alloc, error)?)
}

/// A refusal and its number.
fn refused_value(alloc: Global, word: &str, key: &str, number: u32) -> Result<Value, AllocError>
    ensures { IfOk result (λ v. view v ≡ object (put key.now (counted number) (member (codes "error") (string word.now) no_members))) }
{
    let members = with_text(alloc, Map::new(alloc), "error", word)?;
    let members = with_number(alloc, members, key, u64::from(number))?;
    Ok(Value::Object(members))
}

/// The body of a refusal of a cycle's point.
pub fn point_json(alloc: Global, given: u32) -> Result<Text, NoMemory>
    ensures { IfOk result (λ text. text ≡ compact_text (point_data given)) }
{
    text_of(alloc, refused_value(alloc, "point", "given", given)?)
}

/// The body of a refusal of the cycle that is to be withdrawn.
pub fn uncycled_json(alloc: Global, given: u32) -> Result<Text, NoMemory>
    ensures { IfOk result (λ text. text ≡ compact_text (uncycled_data given)) }
{
    text_of(alloc, refused_value(alloc, "cycle", "given", given)?)
}

/// The body of a refusal for want of numbers.
pub fn numbers_json(alloc: Global, next: u32) -> Result<Text, NoMemory>
    ensures { IfOk result (λ text. text ≡ compact_text (numbers_data next)) }
{
    text_of(alloc, refused_value(alloc, "numbers", "next", next)?)
}
