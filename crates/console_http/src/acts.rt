//! The operator's acts.
//!
//! The local part of an alias act has the characters of the configuration's. It may be a user's name or `postmaster`, and then it
//! never resolves to the alias.
ghost use Rattle.std.specs.Prelude.{◌≡◌, IsTrue, IfOk, codes, is_some, option_map};
ghost use Rattle.serde_json.specs.Find.{get};
ghost use Rattle.serde_json.specs.View.{view};
ghost use Rattle.verb_core.specs.Store.{is_house};
ghost use Rattle.console_http.specs.Acts.{word_of, size_of, alias_of, unalias_of, plain_scope as plain_scope_of, scope_named, scope_at as scope_member, filter_of, unfilter_of, remove_of, give_of, act_by, act_of, act_in};

use crate::members::{
    body_at, box_at, field_at, file_at, has_members, local_at, name_at, number_at, one_at,
    read_value, text_at, user_at, users_at,
};
use serde_json::Value;
use std::alloc::Global;
use undo_base::{Key, NoMemory};
use verb_core::{Act, Filter, House, Scope};

/// The word of an act.
#[derive(Clone, Copy)]
pub enum Word {
    Alias,
    Unalias,
    Filter,
    Unfilter,
    Remove,
    Give,
}

fn read_word(text: &[u8]) -> Option<Word>
    ensures { result ≡ word_of text.now }
{
    if text == b"alias".as_slice() {
        Some(Word::Alias)
    } else if text == b"unalias".as_slice() {
        Some(Word::Unalias)
    } else if text == b"filter".as_slice() {
        Some(Word::Filter)
    } else if text == b"unfilter".as_slice() {
        Some(Word::Unfilter)
    } else if text == b"remove".as_slice() {
        Some(Word::Remove)
    } else if text == b"give".as_slice() {
        Some(Word::Give)
    } else {
        None
    }
}

/// How many members an act has, its word among them.
fn member_count(value: &Value, word: Word) -> usize
    ensures { result ≡ size_of (view value.now) word }
{
    match word {
        Word::Alias => 3,
        Word::Unalias => 2,
        Word::Filter => 4 + one_at(value, "scope") + one_at(value, "field"),
        Word::Unfilter => 2,
        Word::Remove => 5,
        Word::Give => 4,
    }
}

fn read_alias(alloc: Global, house: &House, value: &Value) -> Result<Option<Act>, NoMemory>
    requires { IsTrue (is_house house.now) }
    ensures { IfOk result (λ act. act ≡ alias_of house.now (view value.now)) }
{
    let Some(local) = local_at(alloc, value)? else {
        return Ok(None);
    };
    let Some(users) = users_at(alloc, house, value)? else {
        return Ok(None);
    };
    Ok(Some(Act::SetAlias { local, users }))
}

fn read_unalias(alloc: Global, value: &Value) -> Result<Option<Act>, NoMemory>
    ensures { IfOk result (λ act. act ≡ unalias_of (view value.now)) }
{
    let Some(local) = local_at(alloc, value)? else {
        return Ok(None);
    };
    Ok(Some(Act::DropAlias { local }))
}

/// What a word says of where a filter looks, if it says all.
fn plain_scope(word: &[u8]) -> Option<Scope>
    ensures { result ≡ plain_scope_of word.now }
{
    if word == b"body".as_slice() {
        Some(Scope::Body)
    } else if word == b"sender".as_slice() {
        Some(Scope::Sender)
    } else if word == b"recipient".as_slice() {
        Some(Scope::Recipient)
    } else {
        None
    }
}

/// Whether a header field is named.
fn has_field(value: &Value) -> bool
    ensures { result ≡ is_some (get (codes "field") (view value.now)) }
{
    value.get("field").is_some()
}

/// Where a filter looks, by the word for it.
fn read_scope(alloc: Global, value: &Value, word: &[u8]) -> Result<Option<Scope>, NoMemory>
    ensures { IfOk result (λ scope. scope ≡ scope_named (view value.now) word.now) }
{
    if word == b"header".as_slice() {
        return Ok(field_at(alloc, value)?.map(|field| Scope::Field(field)));
    }
    if has_field(value) {
        return Ok(None);
    }
    Ok(plain_scope(word))
}

/// Where a filter looks: in the body, if it does not say.
fn scope_at(alloc: Global, value: &Value) -> Result<Option<Scope>, NoMemory>
    ensures { IfOk result (λ scope. scope ≡ scope_member (view value.now)) }
{
    match value.get("scope") {
        None => read_scope(alloc, value, b"body"),
        Some(scope) => match scope.as_str() {
            None => Ok(None),
            Some(word) => read_scope(alloc, value, word.as_bytes()),
        },
    }
}

fn read_filter(alloc: Global, value: &Value) -> Result<Option<Act>, NoMemory>
    ensures { IfOk result (λ act. act ≡ filter_of (view value.now)) }
{
    let Some(id) = name_at(alloc, value, "name")? else {
        return Ok(None);
    };
    let Some(needle) = name_at(alloc, value, "needle")? else {
        return Ok(None);
    };
    let Some(file) = file_at(alloc, value)? else {
        return Ok(None);
    };
    let Some(scope) = scope_at(alloc, value)? else {
        return Ok(None);
    };
    Ok(Some(Act::SetFilter(Filter {
        id,
        needle,
        file,
        scope,
    })))
}

fn read_unfilter(alloc: Global, value: &Value) -> Result<Option<Act>, NoMemory>
    ensures { IfOk result (λ act. act ≡ unfilter_of (view value.now)) }
{
    let Some(id) = name_at(alloc, value, "name")? else {
        return Ok(None);
    };
    Ok(Some(Act::DropFilter { id }))
}

fn read_remove(alloc: Global, house: &House, value: &Value) -> Result<Option<Act>, NoMemory>
    requires { IsTrue (is_house house.now) }
    ensures { IfOk result (λ act. act ≡ remove_of house.now (view value.now)) }
{
    let Some(user) = user_at(house, value) else {
        return Ok(None);
    };
    let Some(item) = number_at(value, "item", 4_294_967_295) else {
        return Ok(None);
    };
    let Some(index) = number_at(value, "index", 65_535) else {
        return Ok(None);
    };
    let Some(mailbox) = box_at(alloc, value, "box")? else {
        return Ok(None);
    };
    let key = Key {
        item: item as u32,
        index: index as u16,
    };
    Ok(Some(Act::Remove { user, mailbox, key }))
}

fn read_give(alloc: Global, house: &House, value: &Value) -> Result<Option<Act>, NoMemory>
    requires { IsTrue (is_house house.now) }
    ensures { IfOk result (λ act. act ≡ give_of house.now (view value.now)) }
{
    let Some(user) = user_at(house, value) else {
        return Ok(None);
    };
    let Some(mailbox) = box_at(alloc, value, "box")? else {
        return Ok(None);
    };
    let Some(text) = body_at(alloc, value)? else {
        return Ok(None);
    };
    Ok(Some(Act::Give {
        user,
        mailbox,
        text,
    }))
}

fn read_worded(
    alloc: Global,
    house: &House,
    value: &Value,
    word: Word,
) -> Result<Option<Act>, NoMemory>
    requires { IsTrue (is_house house.now) }
    ensures { IfOk result (λ act. act ≡ act_by house.now (view value.now) word) }
{
    match word {
        Word::Alias => read_alias(alloc, house, value),
        Word::Unalias => read_unalias(alloc, value),
        Word::Filter => read_filter(alloc, value),
        Word::Unfilter => read_unfilter(alloc, value),
        Word::Remove => read_remove(alloc, house, value),
        Word::Give => read_give(alloc, house, value),
    }
}

/// The act that a value is: an object with the members of one, and no others.
pub fn act_from(alloc: Global, house: &House, value: &Value) -> Result<Option<Act>, NoMemory>
    requires { IsTrue (is_house house.now) }
    ensures { IfOk result (λ act. act ≡ act_of house.now (view value.now)) }
{
    let Some(text) = text_at(value, "act") else {
        return Ok(None);
    };
    let Some(word) = read_word(text.as_bytes()) else {
        return Ok(None);
    };
    if !has_members(value, member_count(value, word)) {
        return Ok(None);
    }
    read_worded(alloc, house, value, word)
}

/// The act that a body is.
pub fn read_act(alloc: Global, house: &House, body: &[u8]) -> Result<Option<Act>, NoMemory>
    requires { IsTrue (is_house house.now) }
    ensures { IfOk result (λ act. act ≡ act_in house.now body.now) }
{
    match read_value(alloc, body)? {
        None => Ok(None),
        Some(value) => act_from(alloc, house, &value),
    }
}
