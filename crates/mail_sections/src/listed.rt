//! Listed names, and the fields that have one: told in time that grows as the logarithm of how many names there are.
//!
//! A field without a colon has no name: HEADER.FIELDS never gives it, HEADER.FIELDS.NOT always does. The first `:` is sought in
//! the whole field. One in a folded line ends no name that can be asked for, since no name has CR or LF. A first line that begins
//! with a space or a tab is a field of its own.
ghost use Rattle.std.specs.Prelude.{◌≡◌, ◌≤◌, length, take, IfOk, OnOk};
ghost use Rattle.std.specs.List.{list_any};
ghost use Rattle.std.specs.Str.{str_eq_ignore_ascii_case, str_to_ascii_lowercase};
ghost use Rattle.mail_sections.specs.Listed.{AreShort, HoldsListed};
ghost use Rattle.mail_sections.specs.Sections.{is_listed as listed, is_wanted as wanted};

use header_fields::{has_name, name_in};
use std::alloc::Global;
use std::collections::BTreeSet;
use std::marker::Model;
use undo_base::{MOST_NAME, Name, Names, NoMemory, before};

/// Listed names, and the set of them in lower case.
#[derive(Drop)]
pub(crate) struct ListedNames<'a> {
    names: &'a Names,
    lower: BTreeSet<Vec<u8>>,
}

impl<'a> Model for ListedNames<'a> {
    ghost use Rattle.std.specs.Prelude.{List, ℕ};
    ghost use Rattle.mail_sections.specs.Listed.{AreShort, HoldsListed};

    ghost Value = { List (List ℕ) };

    ghost view = { λ l. l.names.now };

    ghost invariant = { λ l. HoldsListed l.lower l.names.now × AreShort l.names.now };
}

/// Names in lower case, each once.
fn lowered(alloc: Global, names: &[Name]) -> Result<BTreeSet<Vec<u8>>, NoMemory>
    ensures holds { IfOk result (λ lower. HoldsListed lower names.now) }
    ensures short { OnOk result (AreShort names.now) }
{
    let mut lower = BTreeSet::new(alloc);
    for name in names {
        lower.insert(name.bytes().to_ascii_lowercase(alloc)?)?;
    }
    Ok(lower)
}

/// Writes bytes in lower case at the front of others.
fn write_lower(bytes: &[u8], out: &mut [u8])
    requires { length bytes.now ≤ length out.old }
    ensures same { length out.new ≡ length out.old }
    ensures written { take (length bytes.now) out.new ≡ str_to_ascii_lowercase bytes.now }
{
    for (place, byte) in bytes.iter().enumerate() {
        out[place] = byte.to_ascii_lowercase();
    }
}

impl<'a> ListedNames<'a> {
    /// The names of a list.
    pub(crate) fn of(alloc: Global, names: &'a Names) -> Result<ListedNames<'a>, NoMemory>
        ensures { IfOk result (λ listed. listed ≡ names.now) }
    {
        let lower = lowered(alloc, names.as_slice())?;
        Ok(ListedNames { names, lower })
    }

    /// Whether a name is one of them, ignoring case. Takes no memory; a name that is longer than any that can be listed is not read.
    pub(crate) fn contains(&self, own: &[u8]) -> bool
        ensures { result ≡ list_any (λ name. str_eq_ignore_ascii_case own.now name) self.now }
    {
        let listed = &self.lower;
        if own.len() > MOST_NAME {
            return false;
        }
        let mut lower = [0; MOST_NAME];
        write_lower(own, &mut lower);
        listed.contains(before(&lower, own.len()))
    }
}

/// Whether a field has one of the names.
fn is_listed(names: &ListedNames<'_>, field: &[u8]) -> bool
    ensures { result ≡ listed names.now field.now }
{
    has_name(field) && names.contains(name_in(field))
}

/// Whether a field has one of the names, or has none of them where the others are wanted.
pub(crate) fn is_wanted(among: bool, names: &ListedNames<'_>, field: &[u8]) -> bool
    ensures { result ≡ wanted among names.now field.now }
{
    is_listed(names, field) == among
}
