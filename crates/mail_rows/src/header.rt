//! The header of a text as filters look at it (RFC 5322, section 2.2). It is cut into its fields once for all of them, each
//! field's name brought to lower case once. The values of a name are found by halves, whatever the number of fields and of
//! filters.
//!
//! A filter with the scope of a field, and no other, has the header cut. The names of the filters are brought to lower case too.
//! The values of the fields that have one name stand together in a map by the name. So however many fields a message has and
//! filters are in force, they are not compared each with each. What follows the header is looked at for filters of the whole text
//! alone.
ghost use Rattle.std.specs.Prelude.{◌≡◌, ◌∷◌, ◌++◌, ◌&&◌, ◌||◌, [], IfOk, OnOk, bytes_eq};
ghost use Rattle.std.specs.List.{list_any};
ghost use Rattle.std.specs.Ordering.{nat_cmp};
ghost use Rattle.std.specs.Cmp.Lexicographic.{slice_cmp};
ghost use Rattle.std.specs.BTreeMap.{is_at};
ghost use Rattle.std.specs.Map.{remove_entry};
ghost use Rattle.verb_core.specs.Filters.{occurs as is_within};
ghost use Rattle.header_fields.specs.Fields.{fields_of};
ghost use Rattle.header_fields.specs.Values.{is_named, value_of};
ghost use Rattle.mail_rows.specs.Headers.{HoldsFields, some_beside, some_value, some_within, with_names};

use crate::needles::occurs;
use header_fields::{begins_field, field_len, has_name, name_in, value_in};
use std::alloc::Global;
use std::collections::BTreeMap;
use std::marker::Model;
use undo_base::{Name, NoMemory, after, before};

/// The value of a field.
#[derive(Drop)]
struct Value<'a> {
    bytes: &'a [u8],
}

/// For each name in lower case the values of the fields that have it.
#[derive(Drop)]
struct Fields<'a> {
    values: BTreeMap<Vec<u8>, Vec<Value<'a>>>,
}

/// A text, and the fields of its header once they were cut.
#[derive(Drop)]
pub(crate) struct Header<'a> {
    text: &'a [u8],
    fields: Option<Fields<'a>>,
}

impl<'a> Model for Header<'a> {
    ghost use Rattle.std.specs.Prelude.{List, ℕ};
    ghost use Rattle.mail_rows.specs.Headers.{IsCut};

    ghost Value = { List ℕ };

    ghost view = { λ h. h.text.now };

    ghost invariant = { λ h. IsCut h.text.now h.fields };
}

/// The values of a name, taken out.
#[tactic(auto, using(crate::proofs::Headers::beside_none, crate::proofs::Headers::beside_some))]
fn take_values<'a>(alloc: Global, fields: &mut Fields<'a>, name: &[u8]) -> Vec<Value<'a>>
    ensures values { (needle : _) → some_within needle result.items ≡ some_beside name.now needle fields.old.values }
    ensures others { fields.new.values.entries ≡ remove_entry (is_at (λ k. slice_cmp nat_cmp name.now k.items)) fields.old.values.entries }
{
    match fields.values.remove(name) {
        None => Vec::new(alloc),
        Some(values) => values,
    }
}

/// Adds a value to those of a name.
#[tactic(auto, using(crate::proofs::Headers::pushed))]
fn push_value<'a>(
    alloc: Global,
    fields: &mut Fields<'a>,
    name: Vec<u8>,
    bytes: &'a [u8],
) -> Result<(), NoMemory>
    ensures { OnOk result ((own needle : _) → some_beside own needle fields.new.values ≡ (some_beside own needle fields.old.values || (bytes_eq name.items own && is_within needle bytes.now))) }
{
    let mut values = take_values(alloc, fields, name.as_slice());
    values.push(Value { bytes })?;
    fields.values.insert(name, values)?;
    Ok(())
}

/// Adds a field, where it has a name.
#[tactic(auto, using(crate::proofs::Headers::named, crate::proofs::Headers::nameless))]
fn push_field<'a>(alloc: Global, fields: &mut Fields<'a>, field: &'a [u8]) -> Result<(), NoMemory>
    ensures { OnOk result ((own needle : _) → some_beside own needle fields.new.values ≡ (some_beside own needle fields.old.values || some_value own needle (with_names (field.now ∷ [])))) }
{
    if has_name(field) {
        let name = name_in(field).to_ascii_lowercase(alloc)?;
        push_value(alloc, fields, name, value_in(field))?;
    }
    Ok(())
}

/// The fields of the header. What follows it is not looked at.
#[tactic(auto, using(crate::proofs::Headers::none_yet, crate::proofs::Headers::cut_more, crate::proofs::Headers::all_cut))]
fn cut<'a>(alloc: Global, text: &'a [u8]) -> Result<Fields<'a>, NoMemory>
    ensures { IfOk result (λ fields. HoldsFields fields.values (with_names (fields_of text.now))) }
{
    let mut fields = Fields {
        values: BTreeMap::new(alloc),
    };
    let mut rest = text;
    while begins_field(rest) {
        let count = field_len(rest);
        let field = before(rest, count);
        push_field(alloc, &mut fields, field)?;
        rest = after(rest, count);
    }
    Ok(fields)
}

fn occurs_in_one(values: &[Value<'_>], needle: &Name) -> bool
    ensures { result ≡ some_within needle.now values.now }
{
    values.iter().any(|value| occurs(value.bytes, needle))
}

/// Whether the needle occurs in a value of that name, which is in lower case.
#[tactic(auto, using(crate::proofs::Headers::beside_none, crate::proofs::Headers::beside_some))]
fn have(fields: &Fields<'_>, name: &[u8], needle: &Name) -> bool
    ensures { result ≡ some_beside name.now needle.now fields.now.values }
{
    match fields.values.get(name) {
        None => false,
        Some(values) => occurs_in_one(values.as_slice(), needle),
    }
}

impl<'a> Header<'a> {
    /// The header of a text, not yet cut.
    pub(crate) fn of(text: &'a [u8]) -> Header<'a>
        ensures { result ≡ text.now }
    {
        Header { text, fields: None }
    }

    pub(crate) fn text(&self) -> &'a [u8]
        ensures { result.now ≡ self.now }
    {
        self.text
    }

    /// Whether the needle occurs in the value of a field of that name.
    pub(crate) fn has(
        &mut self,
        alloc: Global,
        name: &Name,
        needle: &Name,
    ) -> Result<bool, NoMemory>
        ensures found { IfOk result (λ found. found ≡ list_any (λ field. is_named name.now field && is_within needle.now (value_of field)) (fields_of self.old)) }
        ensures text { self.new ≡ self.old }
    {
        let name = name.lower(alloc)?;
        if let Some(fields) = &self.fields {
            return Ok(have(fields, name.bytes(), needle));
        }
        let fields = cut(alloc, self.text)?;
        let found = have(&fields, name.bytes(), needle);
        self.fields = Some(fields);
        Ok(found)
    }
}
