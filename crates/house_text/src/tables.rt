//! What stands in a table of TOML.
//!
//! What a text means is what the kit's `toml` says. An inline array of tables is the same as `[[user]]`, `0x10` is a whole
//! number, `2.0` is none, and a byte order mark before the text is passed over. A key that stands twice is no TOML.
ghost use Rattle.std.specs.Prelude.{◌≡◌, length, map, option_map, option_and_then};
ghost use Rattle.toml.specs.Data.{get_member, as_str, as_array};
ghost use Rattle.toml.specs.View.{view, table_view};
ghost use Rattle.house_text.specs.Documents.{items_list, entries_list};
ghost use Rattle.house_text.specs.Configuration as spec;

use toml::{Table, Value};

/// The value at a key.
#[tactic(auto, using(toml::proofs::Views::table_get))]
pub fn value_at<'a>(table: &'a Table, key: &str) -> Option<&'a Value>
    ensures { option_map (λ v. view v.now) result ≡ get_member key.now (table_view table.now) }
{
    table.get(key)
}

/// How many keys a table has.
#[tactic(auto, using(crate::proofs::Lists::keys_counted))]
pub fn size(table: &Table) -> usize
    ensures { result ≡ length (entries_list (table_view table.now)) }
{
    table.len()
}

/// A value's text.
pub fn text_of(value: &Value) -> Option<&[u8]>
    ensures { option_map (λ s. s.now) result ≡ as_str (view value.now) }
{
    match value.as_str() {
        Some(text) => Some(text.as_bytes()),
        None => None,
    }
}

/// The text at a key.
pub fn text_at<'a>(table: &'a Table, key: &str) -> Option<&'a [u8]>
    ensures { option_map (λ s. s.now) result ≡ spec.text_at key.now (table_view table.now) }
{
    text_of(value_at(table, key)?)
}

/// The values of an array.
#[tactic(auto, using(crate::proofs::Lists::items_seen))]
pub fn list_of(value: &Value) -> Option<&[Value]>
    ensures { option_map (λ values. map view values.now) result ≡ option_map items_list (as_array (view value.now)) }
{
    match value.as_array() {
        Some(values) => Some(values.as_slice()),
        None => None,
    }
}

/// The values of the array at a key.
pub fn list_at<'a>(table: &'a Table, key: &str) -> Option<&'a [Value]>
    ensures { option_map (λ values. map view values.now) result ≡ spec.list_at key.now (table_view table.now) }
{
    list_of(value_at(table, key)?)
}
