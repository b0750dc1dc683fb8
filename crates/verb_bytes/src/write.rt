//! Fields, written at the end of a text where their values are in their ranges.
//!
//! Fields are numbers, names, texts, keys, bools, flags, the byte of an option, the count of a list, and the byte that says which
//! kind, deed, shown or act follows. A key is one field. A name with a byte that is not printable is out of its range as a whole,
//! so it is refused at its length.
ghost use Rattle.std.specs.Prelude.{◌≡◌, ◌≤◌, ◌++◌, IsTrue};
ghost use Rattle.std.specs.Int.{w32, w64};
ghost use Rattle.verb_bytes.specs.Fields.{field, only_if, byte_field, number_field, name_field, field_name_field, text_field, key_field, user_field, actor_field, bool_field, flags_field, worth};
ghost use Rattle.verb_bytes.specs.Writing.{Puts};

use header_fields::is_field_name;
use undo_base::{Flags, Key, MOST_KEYS, MOST_RECIPIENTS, MOST_USERS, Name, NoMemory, Text, User};

/// The most bytes of a message's text as it is stored.
pub(crate) const MOST_BODY: u32 = 1052672;

/// The most keys of a list.
pub(crate) const MOST_LISTED: u32 = MOST_KEYS as u32;

/// The most recipients of a message.
pub(crate) const MOST_TO: u32 = MOST_RECIPIENTS as u32;

/// The most accounts of a house.
pub(crate) const MOST_ACCOUNTS: u32 = MOST_USERS as u32;

pub(crate) const LAST_USER: u8 = 199;

/// Nobody, in the place of a user.
pub(crate) const NOBODY: u8 = 255;

pub(crate) const ALL_FLAGS: u8 = 31;

/// Why a record is not written.
#[derive(Clone, Copy, Debug)]
pub enum Unwritten {
    /// A value is out of its field's range: the record has no spelling.
    Unspelled,
    NoMemory,
}

impl From<NoMemory> for Unwritten {
    ghost use Rattle.verb_bytes.specs.declared.write.Unwritten.TheVariants.{NoMemory as no_memory};

    ghost from_gives = { λ _ e. e ≡ no_memory };

    fn from(_: NoMemory) -> Self {
        Unwritten::NoMemory
    }
}

/// A field whose bytes are these.
#[tactic(auto, using(crate::proofs::Puts::one_written))]
fn put_field(out: &mut Text, in_range: bool, bytes: &[u8]) -> Result<(), Unwritten>
    ensures { Puts (field in_range bytes.now) out.old out.new result }
{
    if !in_range {
        return Err(Unwritten::Unspelled);
    }
    out.extend(bytes)?;
    Ok(())
}

/// A field whose bytes are these, and then those.
#[tactic(auto, using(crate::proofs::Puts::both_written))]
fn put_both(out: &mut Text, in_range: bool, first: &[u8], then: &[u8]) -> Result<(), Unwritten>
    ensures { Puts (field in_range (first.now ++ then.now)) out.old out.new result }
{
    if !in_range {
        return Err(Unwritten::Unspelled);
    }
    out.extend(first)?;
    out.extend(then)?;
    Ok(())
}

/// A condition on the record that no byte stands for.
#[tactic(auto, unfolding(crate::specs::Fields::only_if))]
pub(crate) fn put_condition(out: &mut Text, holds: bool) -> Result<(), Unwritten>
    ensures { Puts (only_if holds) out.old out.new result }
{
    put_field(out, holds, &[])
}

/// A byte from the least to the most.
#[tactic(auto, unfolding(crate::specs::Fields::byte_field))]
pub(crate) fn put_byte(out: &mut Text, least: u8, most: u8, value: u8) -> Result<(), Unwritten>
    ensures { Puts (byte_field least most value) out.old out.new result }
{
    put_field(out, least <= value && value <= most, &[value])
}

/// A number of four bytes.
#[tactic(auto, unfolding(crate::specs::Fields::number_field))]
pub(crate) fn put_u32(out: &mut Text, most: u32, value: u32) -> Result<(), Unwritten>
    ensures { Puts (number_field w32 most value) out.old out.new result }
{
    put_field(out, value <= most, &value.to_be_bytes())
}

/// A count, in four bytes.
#[tactic(auto, using(crate::proofs::Puts::none_past))]
pub(crate) fn put_count(out: &mut Text, most: u32, count: usize) -> Result<(), Unwritten>
    ensures { Puts (number_field w32 most count) out.old out.new result }
{
    if count > most as usize {
        return Err(Unwritten::Unspelled);
    }
    put_u32(out, most, count as u32)
}

/// A number of eight bytes.
#[tactic(auto, unfolding(crate::specs::Fields::number_field))]
pub(crate) fn put_u64(out: &mut Text, most: u64, value: u64) -> Result<(), Unwritten>
    ensures { Puts (number_field w64 most value) out.old out.new result }
{
    put_field(out, value <= most, &value.to_be_bytes())
}

/// A name behind its length in one byte.
pub(crate) fn put_name(out: &mut Text, value: &Name) -> Result<(), Unwritten>
    ensures { Puts (name_field value.now) out.old out.new result }
{
    let bytes = value.bytes();
    put_both(out, true, &[bytes.len() as u8], bytes)
}

/// The name of a header field behind its length in one byte.
#[tactic(auto, unfolding(crate::specs::Fields::field_name_field))]
pub(crate) fn put_field_name(out: &mut Text, value: &Name) -> Result<(), Unwritten>
    ensures { Puts (field_name_field value.now) out.old out.new result }
{
    let bytes = value.bytes();
    put_both(out, is_field_name(bytes), &[bytes.len() as u8], bytes)
}

/// A text of at most so many bytes, behind its length in four bytes.
#[tactic(auto, unfolding(crate::specs::Fields::text_field))]
pub(crate) fn put_text(out: &mut Text, most: u32, value: &Text) -> Result<(), Unwritten>
    ensures { Puts (text_field most value.now) out.old out.new result }
{
    let bytes = value.bytes();
    let count = bytes.len();
    put_both(
        out,
        count <= most as usize,
        &(count as u32).to_be_bytes(),
        bytes,
    )
}

/// A key: a number of four bytes, and one of two.
#[tactic(auto, using(crate::proofs::Puts::key_same))]
pub(crate) fn put_key(out: &mut Text, value: Key) -> Result<(), Unwritten>
    ensures { Puts (key_field value) out.old out.new result }
{
    put_both(
        out,
        true,
        &value.item.to_be_bytes(),
        &value.index.to_be_bytes(),
    )
}

/// One of 200 users.
pub(crate) fn put_user(out: &mut Text, value: User) -> Result<(), Unwritten>
    ensures { Puts (user_field value) out.old out.new result }
{
    put_byte(out, 0, LAST_USER, value.0)
}

/// Who acted: 255 for nobody.
pub(crate) fn put_actor(out: &mut Text, by: Option<User>) -> Result<(), Unwritten>
    ensures { Puts (actor_field by) out.old out.new result }
{
    match by {
        None => put_byte(out, NOBODY, NOBODY, NOBODY),
        Some(user) => put_user(out, user),
    }
}

/// 0 or 1.
pub(crate) fn put_bool(out: &mut Text, value: bool) -> Result<(), Unwritten>
    ensures { Puts (bool_field value) out.old out.new result }
{
    if value {
        put_byte(out, 0, 1, 1)
    } else {
        put_byte(out, 0, 1, 0)
    }
}

/// What a flag adds.
fn worth_of(set: bool, bit: u8) -> u8
    ensures result_is { result ≡ worth set bit }
    ensures most { result ≤ bit }
{
    if set { bit } else { 0 }
}

/// Five flags in a byte.
pub(crate) fn put_flags(out: &mut Text, value: Flags) -> Result<(), Unwritten>
    ensures { Puts (flags_field value) out.old out.new result }
{
    let code = worth_of(value.answered, 1)
        + worth_of(value.flagged, 2)
        + worth_of(value.deleted, 4)
        + worth_of(value.seen, 8)
        + worth_of(value.draft, 16);
    put_byte(out, 0, ALL_FLAGS, code)
}
