//! Objects, member by member.
//!
//! Each call takes an object and gives it back with one member more. So its caller has nothing to give up where it finds no
//! memory.
ghost use Rattle.std.specs.Prelude.{◌≡◌, IfOk};
ghost use Rattle.serde_json.specs.Data.{put, string, array};
ghost use Rattle.serde_json.specs.View.{view, items_view, members_view};
ghost use Rattle.console_replies.specs.Bodies.{counted};

use serde_json::{Map, Value, put as put_member};
use std::alloc::{AllocError, Global};

/// The members of an object.
pub type Members = Map<String, Value>;

/// A member more.
pub fn with_value(
    alloc: Global,
    members: Members,
    key: &str,
    value: Value,
) -> Result<Members, AllocError>
    ensures { IfOk result (λ m. members_view m.entries ≡ put key.now (view value) (members_view members.entries)) }
{
    let mut members = members;
    put_member(&mut members, alloc, key, value)?;
    Ok(members)
}

/// A number more.
pub fn with_number(
    alloc: Global,
    members: Members,
    key: &str,
    number: u64,
) -> Result<Members, AllocError>
    ensures { IfOk result (λ m. members_view m.entries ≡ put key.now (counted number) (members_view members.entries)) }
{
    with_value(alloc, members, key, Value::from(number))
}

/// A text more.
pub fn with_text(
    alloc: Global,
    members: Members,
    key: &str,
    text: &str,
) -> Result<Members, AllocError>
    ensures { IfOk result (λ m. members_view m.entries ≡ put key.now (string text.now) (members_view members.entries)) }
{
    let value = Value::try_from_str(alloc, text)?;
    with_value(alloc, members, key, value)
}

/// A list more.
pub fn with_list(
    alloc: Global,
    members: Members,
    key: &str,
    values: Vec<Value>,
) -> Result<Members, AllocError>
    ensures { IfOk result (λ m. members_view m.entries ≡ put key.now (array (items_view values.items)) (members_view members.entries)) }
{
    with_value(alloc, members, key, Value::Array(values))
}
