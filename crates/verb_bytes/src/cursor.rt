//! Bytes that are read from left to right, and the fields that are read from them.
ghost use Rattle.std.specs.Prelude.{◌≡◌, ◌<◌, ◌≤◌, IfOk};
ghost use Rattle.std.specs.Int.{w32, w64};
ghost use Rattle.header_fields.specs.Values.{is_field_name as can_be_asked};
ghost use Rattle.verb_bytes.specs.Fields.{is_name};
ghost use Rattle.verb_bytes.specs.Readers.{Gives, when, byte_at, number_at, name_at, field_name_at, text_at, key_at, actor_at, bool_at, flags_at, user_at, has_bit};

use crate::write::{ALL_FLAGS, LAST_USER, NOBODY};
use header_fields::is_field_name;
use std::alloc::Global;
use undo_base::{Flags, Key, Name, NameRefused, NoMemory, Text, User};

/// Why reading stopped.
#[derive(Clone, Copy)]
pub(crate) enum Stop {
    /// A field is cut or out of its range. So many bytes are left from its start on.
    At { left: usize },
    NoMemory,
}

impl From<NoMemory> for Stop {
    ghost use Rattle.verb_bytes.specs.declared.cursor.Stop.TheVariants.{NoMemory as no_memory};

    ghost from_gives = { λ _ e. e ≡ no_memory };

    fn from(_: NoMemory) -> Self {
        Stop::NoMemory
    }
}

/// The name that bytes are, where they are one.
fn name_of(alloc: Global, bytes: &[u8]) -> Result<Option<Name>, NoMemory>
    ensures { IfOk result (λ found. found ≡ when (is_name bytes.now) bytes.now) }
{
    match Name::read(alloc, bytes) {
        Ok(name) => Ok(Some(name)),
        Err(NameRefused::Empty) => Ok(None),
        Err(NameRefused::Long { length: _ }) => Ok(None),
        Err(NameRefused::Byte { place: _ }) => Ok(None),
        Err(NameRefused::NoMemory) => Err(NoMemory),
    }
}

/// The name of a header field that bytes are, where they are one.
fn field_name_of(alloc: Global, bytes: &[u8]) -> Result<Option<Name>, NoMemory>
    ensures { IfOk result (λ found. found ≡ when (can_be_asked bytes.now) bytes.now) }
{
    if !is_field_name(bytes) {
        return Ok(None);
    }
    name_of(alloc, bytes)
}

/// Whether a byte has the bit that is worth this much.
fn has_bit_of(bits: u8, worth: u8) -> bool
    requires { 0 < worth }
    ensures { result ≡ has_bit bits worth }
{
    bits / worth % 2 == 1
}

/// The bytes that are still to be read.
#[derive(Drop)]
pub(crate) struct Cursor<'a> {
    pub(crate) rest: &'a [u8],
}

impl<'a> Cursor<'a> {
    /// A byte from the least to the most.
    #[tactic(auto, unfolding(crate::specs::Readers::byte_at))]
    pub(crate) fn byte(&mut self, least: u8, most: u8) -> Result<u8, Stop>
        ensures gives { Gives (byte_at least most) self.old.rest.now self.new.rest.now result }
        ensures low { IfOk result (λ byte. least ≤ byte) }
        ensures high { IfOk result (λ byte. byte ≤ most) }
    {
        match self.rest {
            [] => Err(Stop::At { left: 0 }),
            [byte, rest @ ..] => {
                let byte = *byte;
                if byte < least || most < byte {
                    return Err(Stop::At {
                        left: self.rest.len(),
                    });
                }
                self.rest = rest;
                Ok(byte)
            }
        }
    }

    /// A number of four bytes.
    #[tactic(auto, unfolding(crate::specs::Readers::number_at))]
    pub(crate) fn u32(&mut self, most: u32) -> Result<u32, Stop>
        ensures { Gives (number_at w32 most) self.old.rest.now self.new.rest.now result }
    {
        if self.rest.len() < 4 {
            return Err(Stop::At {
                left: self.rest.len(),
            });
        }
        let (front, rest) = self.rest.split_at(4);
        let number = u32::from_be_bytes([front[0], front[1], front[2], front[3]]);
        if most < number {
            return Err(Stop::At {
                left: self.rest.len(),
            });
        }
        self.rest = rest;
        Ok(number)
    }

    /// A number of eight bytes.
    #[tactic(auto, unfolding(crate::specs::Readers::number_at))]
    pub(crate) fn u64(&mut self, most: u64) -> Result<u64, Stop>
        ensures { Gives (number_at w64 most) self.old.rest.now self.new.rest.now result }
    {
        if self.rest.len() < 8 {
            return Err(Stop::At {
                left: self.rest.len(),
            });
        }
        let (front, rest) = self.rest.split_at(8);
        let number = u64::from_be_bytes([
            front[0], front[1], front[2], front[3], front[4], front[5], front[6], front[7],
        ]);
        if most < number {
            return Err(Stop::At {
                left: self.rest.len(),
            });
        }
        self.rest = rest;
        Ok(number)
    }

    /// A name behind its length in one byte.
    #[tactic(auto, unfolding(crate::specs::Readers::name_at))]
    pub(crate) fn name(&mut self, alloc: Global) -> Result<Name, Stop>
        ensures { Gives name_at self.old.rest.now self.new.rest.now result }
    {
        let left = self.rest.len();
        match self.rest {
            [] => Err(Stop::At { left: 0 }),
            [count, rest @ ..] => {
                let count = usize::from(*count);
                if rest.len() < count {
                    return Err(Stop::At { left });
                }
                let (bytes, rest) = rest.split_at(count);
                match name_of(alloc, bytes)? {
                    None => Err(Stop::At { left }),
                    Some(name) => {
                        self.rest = rest;
                        Ok(name)
                    }
                }
            }
        }
    }

    /// The name of a header field behind its length in one byte.
    #[tactic(auto, unfolding(crate::specs::Readers::field_name_at))]
    pub(crate) fn field_name(&mut self, alloc: Global) -> Result<Name, Stop>
        ensures { Gives field_name_at self.old.rest.now self.new.rest.now result }
    {
        let left = self.rest.len();
        match self.rest {
            [] => Err(Stop::At { left: 0 }),
            [count, rest @ ..] => {
                let count = usize::from(*count);
                if rest.len() < count {
                    return Err(Stop::At { left });
                }
                let (bytes, rest) = rest.split_at(count);
                match field_name_of(alloc, bytes)? {
                    None => Err(Stop::At { left }),
                    Some(name) => {
                        self.rest = rest;
                        Ok(name)
                    }
                }
            }
        }
    }

    /// A text of at most so many bytes, behind its length in four bytes.
    #[tactic(auto, unfolding(crate::specs::Readers::text_at))]
    pub(crate) fn text(&mut self, alloc: Global, most: u32) -> Result<Text, Stop>
        ensures { Gives (text_at most) self.old.rest.now self.new.rest.now result }
    {
        let left = self.rest.len();
        if left < 4 {
            return Err(Stop::At { left });
        }
        let (front, rest) = self.rest.split_at(4);
        let count = u32::from_be_bytes([front[0], front[1], front[2], front[3]]);
        if most < count {
            return Err(Stop::At { left });
        }
        let count = count as usize;
        if rest.len() < count {
            return Err(Stop::At { left });
        }
        let (bytes, rest) = rest.split_at(count);
        let text = Text::of(alloc, bytes)?;
        self.rest = rest;
        Ok(text)
    }

    /// A key: a number of four bytes, and one of two.
    #[tactic(auto, unfolding(crate::specs::Readers::key_at))]
    pub(crate) fn key(&mut self) -> Result<Key, Stop>
        ensures { Gives key_at self.old.rest.now self.new.rest.now result }
    {
        if self.rest.len() < 6 {
            return Err(Stop::At {
                left: self.rest.len(),
            });
        }
        let (front, rest) = self.rest.split_at(6);
        let (item, index) = front.split_at(4);
        let item = u32::from_be_bytes([item[0], item[1], item[2], item[3]]);
        let index = u16::from_be_bytes([index[0], index[1]]);
        self.rest = rest;
        Ok(Key { item, index })
    }

    /// Who acted: 255 for nobody.
    #[tactic(auto, unfolding(crate::specs::Readers::actor_at))]
    pub(crate) fn actor(&mut self) -> Result<Option<User>, Stop>
        ensures { Gives actor_at self.old.rest.now self.new.rest.now result }
    {
        match self.rest {
            [] => Err(Stop::At { left: 0 }),
            [byte, rest @ ..] => {
                let byte = *byte;
                if byte == NOBODY {
                    self.rest = rest;
                    return Ok(None);
                }
                if LAST_USER < byte {
                    return Err(Stop::At {
                        left: self.rest.len(),
                    });
                }
                self.rest = rest;
                Ok(Some(User(byte)))
            }
        }
    }

    /// One of 200 users.
    pub(crate) fn user(&mut self) -> Result<User, Stop>
        ensures { Gives user_at self.old.rest.now self.new.rest.now result }
    {
        let byte = self.byte(0, LAST_USER)?;
        Ok(User(byte))
    }

    /// 0 or 1.
    pub(crate) fn bool(&mut self) -> Result<bool, Stop>
        ensures { Gives bool_at self.old.rest.now self.new.rest.now result }
    {
        let byte = self.byte(0, 1)?;
        if byte == 0 {
            return Ok(false);
        }
        Ok(true)
    }

    /// Five flags in a byte.
    pub(crate) fn flags(&mut self) -> Result<Flags, Stop>
        ensures { Gives flags_at self.old.rest.now self.new.rest.now result }
    {
        let bits = self.byte(0, ALL_FLAGS)?;
        Ok(Flags {
            answered: has_bit_of(bits, 1),
            flagged: has_bit_of(bits, 2),
            deleted: has_bit_of(bits, 4),
            seen: has_bit_of(bits, 8),
            draft: has_bit_of(bits, 16),
        })
    }
}
