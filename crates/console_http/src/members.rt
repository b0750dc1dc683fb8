//! The members of a JSON object.
//!
//! JSON is what `serde_json` reads. The body is UTF-8; of a member given twice the last stays and counts once; `1.0`, `1e0` and
//! `-0` are no whole numbers; more than 127 levels are no JSON.
ghost use Rattle.std.specs.Prelude.{◌≡◌, ◌≤◌, ◌<◌, ◌^◌, IsTrue, IfOk, IfSome, Some, codes, option_map, option_and_then};
ghost use Rattle.serde_json.specs.Events.{members_len};
ghost use Rattle.serde_json.specs.Find.{as_object, get};
ghost use Rattle.serde_json.specs.View.{view, items_view};
ghost use Rattle.verb_core.specs.Store.{is_house};
ghost use Rattle.console_http.specs.Members.{value_of, has_members as counted, one_at as one_member, text_at as text_member, number_at as number_member, name_at as name_member, box_at as box_member, local_at as local_member, field_at as field_member, user_at as user_member, user_in, users_in, users_at as users_member, file_in, file_at as file_member, text_in, body_at as body_member};
ghost use Rattle.console_http.specs.Members as spec;

use crate::parts::{find_user, read_box, read_field, read_local, read_name};
use base64::DecodeAllocError;
use base64::engine::general_purpose::STANDARD;
use serde_json::Value;
use std::alloc::Global;
use undo_base::{Name, NoMemory, Text, User, Users};
use verb_core::House;

/// How many octets the text of a given message has at most.
const MOST_BODY_TEXT: usize = 1_052_672;

/// The JSON value that a body is.
#[tactic(auto, using(crate::proofs::Bodies::value_read, crate::proofs::Bodies::value_none))]
pub fn read_value(alloc: Global, body: &[u8]) -> Result<Option<Value>, NoMemory>
    ensures { IfOk result (λ r. option_map view r ≡ value_of body.now) }
{
    match Value::from_slice(alloc, body) {
        Ok(value) => Ok(Some(value)),
        Err(e) => {
            if e.is_memory() {
                Err(NoMemory)
            } else {
                Ok(None)
            }
        }
    }
}

/// How many members an object has.
#[tactic(auto, using(crate::proofs::Counts::members_counted))]
fn member_count(value: &Value) -> Option<usize>
    ensures { result ≡ option_map members_len (as_object (view value.now)) }
{
    match value.as_object() {
        None => None,
        Some(members) => Some(members.len()),
    }
}

/// Whether it is an object with so many members.
pub fn has_members(value: &Value, count: usize) -> bool
    ensures { result ≡ counted count (view value.now) }
{
    match member_count(value) {
        None => false,
        Some(members) => members == count,
    }
}

/// 1 where there is such a member, else 0.
pub fn one_at(value: &Value, key: &str) -> usize
    ensures value { result ≡ one_member key.now (view value.now) }
    ensures most { result ≤ 1 }
{
    match value.get(key) {
        None => 0,
        Some(_) => 1,
    }
}

/// A member's text, where it is a text.
pub fn text_at<'a>(value: &'a Value, key: &str) -> Option<&'a str>
    ensures { option_map (λ text. text.now) result ≡ text_member key.now (view value.now) }
{
    value.get(key).and_then(Value::as_str)
}

/// A whole number up to a greatest.
pub fn whole_number(value: &Value, most: u64) -> Option<u64>
    ensures { result ≡ spec.whole_number most (view value.now) }
{
    let number = value.as_u64()?;
    if number <= most { Some(number) } else { None }
}

/// A member that is a whole number up to a greatest.
pub fn number_at(value: &Value, key: &str, most: u64) -> Option<u64>
    ensures { result ≡ number_member key.now most (view value.now) }
{
    match value.get(key) {
        None => None,
        Some(number) => whole_number(number, most),
    }
}

/// The items of a list that may be missing.
pub fn list_at<'a>(value: &'a Value, key: &str) -> Option<&'a [Value]>
    ensures { option_map (λ values. items_view values.now) result ≡ spec.list_at key.now (view value.now) }
{
    match value.get(key) {
        None => Some(&[]),
        Some(list) => match list.as_array() {
            None => None,
            Some(values) => Some(values.as_slice()),
        },
    }
}

/// A member's text, where it is a name.
pub fn name_at(alloc: Global, value: &Value, key: &str) -> Result<Option<Name>, NoMemory>
    ensures { IfOk result (λ name. name ≡ name_member key.now (view value.now)) }
{
    match text_at(value, key) {
        None => Ok(None),
        Some(text) => read_name(alloc, text.as_bytes()),
    }
}

/// A member's text, where it names a mailbox; INBOX in any case.
pub fn box_at(alloc: Global, value: &Value, key: &str) -> Result<Option<Name>, NoMemory>
    ensures { IfOk result (λ name. name ≡ box_member key.now (view value.now)) }
{
    match text_at(value, key) {
        None => Ok(None),
        Some(text) => read_box(alloc, text.as_bytes()),
    }
}

/// The member `local`, where it can be the local part of an alias.
pub fn local_at(alloc: Global, value: &Value) -> Result<Option<Name>, NoMemory>
    ensures { IfOk result (λ name. name ≡ local_member (view value.now)) }
{
    match text_at(value, "local") {
        None => Ok(None),
        Some(text) => read_local(alloc, text.as_bytes()),
    }
}

/// The member `field`, where it names a header field.
pub fn field_at(alloc: Global, value: &Value) -> Result<Option<Name>, NoMemory>
    ensures { IfOk result (λ name. name ≡ field_member (view value.now)) }
{
    match text_at(value, "field") {
        None => Ok(None),
        Some(text) => read_field(alloc, text.as_bytes()),
    }
}

/// The user of the house that the member `user` names.
pub fn user_at(house: &House, value: &Value) -> Option<User>
    requires { IsTrue (is_house house.now) }
    ensures { result ≡ user_member house.now (view value.now) }
{
    match text_at(value, "user") {
        None => None,
        Some(text) => find_user(house, text.as_bytes()),
    }
}

fn named_user(house: &House, value: &Value) -> Option<User>
    requires { IsTrue (is_house house.now) }
    ensures { result ≡ user_in house.now (view value.now) }
{
    match value.as_str() {
        None => None,
        Some(text) => find_user(house, text.as_bytes()),
    }
}

/// A list of users, each by name.
#[tactic(auto, using(crate::proofs::Lists::users_none, crate::proofs::Lists::users_more, crate::proofs::Lists::users_bad))]
fn named_users(alloc: Global, house: &House, values: &Vec<Value>) -> Result<Option<Users>, NoMemory>
    requires { IsTrue (is_house house.now) }
    ensures { IfOk result (λ users. users ≡ users_in house.now (items_view values.now.items)) }
{
    let mut users = Users::new(alloc);
    for value in values {
        match named_user(house, value) {
            Some(user) => users.push(user)?,
            None => return Ok(None),
        }
    }
    Ok(Some(users))
}

/// A list of at least one user.
pub fn users_at(alloc: Global, house: &House, value: &Value) -> Result<Option<Users>, NoMemory>
    requires { IsTrue (is_house house.now) }
    ensures { IfOk result (λ users. users ≡ users_member house.now (view value.now)) }
{
    let Some(values) = value.get("users").and_then(Value::as_array) else {
        return Ok(None);
    };
    match named_users(alloc, house, values)? {
        None => Ok(None),
        Some(users) => {
            if users.is_empty() {
                Ok(None)
            } else {
                Ok(Some(users))
            }
        }
    }
}

/// The name of a mailbox, or null.
fn file_named(alloc: Global, value: &Value) -> Result<Option<Option<Name>>, NoMemory>
    ensures { IfOk result (λ file. file ≡ file_in (view value.now)) }
{
    match value {
        Value::Null => Ok(Some(None)),
        Value::String(text) => match read_box(alloc, text.as_bytes())? {
            None => Ok(None),
            Some(name) => Ok(Some(Some(name))),
        },
        Value::Bool(_) | Value::Number(_) | Value::Array(_) | Value::Object(_) => Ok(None),
    }
}

/// The mailbox that a filter files into; none where the message is dropped.
pub fn file_at(alloc: Global, value: &Value) -> Result<Option<Option<Name>>, NoMemory>
    ensures { IfOk result (λ file. file ≡ file_member (view value.now)) }
{
    match value.get("file") {
        None => Ok(None),
        Some(file) => file_named(alloc, file),
    }
}

/// What strict standard base64 stands for.
fn decoded(alloc: Global, encoded: &[u8]) -> Result<Option<Text>, NoMemory>
    ensures { IfOk result (λ text. text ≡ text_in encoded.now) }
{
    match STANDARD.decode(alloc, encoded) {
        Ok(bytes) => {
            if bytes.len() <= MOST_BODY_TEXT {
                Ok(Some(Text::from_vec(bytes)))
            } else {
                Ok(None)
            }
        }
        Err(DecodeAllocError::OutOfMemory) => Err(NoMemory),
        Err(DecodeAllocError::DecodeError(_)) => Ok(None),
    }
}

/// The bytes of the member `body`, which is in Base64 (RFC 4648, section 4).
pub fn body_at(alloc: Global, value: &Value) -> Result<Option<Text>, NoMemory>
    ensures { IfOk result (λ text. text ≡ body_member (view value.now)) }
{
    match text_at(value, "body") {
        None => Ok(None),
        Some(encoded) => decoded(alloc, encoded.as_bytes()),
    }
}
