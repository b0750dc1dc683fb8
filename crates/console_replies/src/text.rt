//! What bodies are made of: names as texts, and the text of a JSON value.
ghost use Rattle.std.specs.Prelude.{◌≡◌, false, IfOk};
ghost use Rattle.serde_json.specs.View.{view};
ghost use Rattle.serde_json.specs.Written.{compact_text, has_float};
ghost use Rattle.undo_base.specs.Name.{IsName};

use serde_json::Value;
use std::alloc::Global;
use undo_base::{Name, NoMemory, Text};

/// The compact text of a JSON value.
pub fn text_of(alloc: Global, value: Value) -> Result<Text, NoMemory>
    ensures { IfOk result (λ text. has_float (view value) ≡ false → text ≡ compact_text (view value)) }
{
    let text = value.to_string(alloc)?;
    Text::of(alloc, text.as_bytes())
}

/// A name as a text. A name is ASCII, so it is UTF-8.
pub fn name_text(name: &Name) -> &str
    ensures { result.now ≡ name.now }
{
    match str::from_utf8(name.bytes()) {
        Ok(text) => text,
        Err(_) => unreachable!(),
    }
}
