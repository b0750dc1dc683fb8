//! Names, numbers, users and keys as parts of records.
//!
//! A user is a number up to 199, since a house has 200 users at most; whether the house has that user is asked when a record is
//! to stand.
use crate::cursor::{Cursor, Stop};
use crate::part::Part;
use crate::write::{MOST_BODY, Unwritten, put_key, put_name, put_text, put_u32, put_user};
use std::alloc::Global;
use undo_base::{Key, Name, Text, User};

impl Part for Name {
    ghost use Rattle.verb_bytes.specs.Fields.{name_field};
    ghost use Rattle.verb_bytes.specs.Readers.{name_at};

    ghost fields = { name_field };

    ghost reader = { name_at };

    #[tactic(auto, using(crate::proofs::Puts::list_steps))]
    fn put(&self, out: &mut Text) -> Result<(), Unwritten> {
        put_name(out, self)
    }

    fn read(alloc: Global, cursor: &mut Cursor<'_>) -> Result<Name, Stop> {
        cursor.name(alloc)
    }
}

impl Part for u32 {
    ghost use Rattle.verb_bytes.specs.Fields.{u32_field};
    ghost use Rattle.verb_bytes.specs.Readers.{u32_at};

    ghost fields = { u32_field };

    ghost reader = { u32_at };

    #[tactic(auto, using(crate::proofs::Puts::list_steps))]
    fn put(&self, out: &mut Text) -> Result<(), Unwritten> {
        put_u32(out, u32::MAX, *self)
    }

    fn read(_alloc: Global, cursor: &mut Cursor<'_>) -> Result<u32, Stop> {
        cursor.u32(u32::MAX)
    }
}

impl Part for User {
    ghost use Rattle.verb_bytes.specs.Fields.{user_field};
    ghost use Rattle.verb_bytes.specs.Readers.{user_at};

    ghost fields = { user_field };

    ghost reader = { user_at };

    #[tactic(auto, using(crate::proofs::Puts::list_steps))]
    fn put(&self, out: &mut Text) -> Result<(), Unwritten> {
        put_user(out, *self)
    }

    fn read(_alloc: Global, cursor: &mut Cursor<'_>) -> Result<User, Stop> {
        cursor.user()
    }
}

impl Part for Key {
    ghost use Rattle.verb_bytes.specs.Fields.{key_field};
    ghost use Rattle.verb_bytes.specs.Readers.{key_at};

    ghost fields = { key_field };

    ghost reader = { key_at };

    #[tactic(auto, using(crate::proofs::Puts::list_steps))]
    fn put(&self, out: &mut Text) -> Result<(), Unwritten> {
        put_key(out, *self)
    }

    fn read(_alloc: Global, cursor: &mut Cursor<'_>) -> Result<Key, Stop> {
        cursor.key()
    }
}

impl Part for (u32, Text) {
    ghost use Rattle.verb_bytes.specs.Spelling.{replace_fields};
    ghost use Rattle.verb_bytes.specs.Reading.{replace_at};

    ghost fields = { replace_fields };

    ghost reader = { replace_at };

    #[tactic(auto, using(crate::proofs::Puts::list_steps))]
    fn put(&self, out: &mut Text) -> Result<(), Unwritten> {
        put_u32(out, u32::MAX, self.0)?;
        put_text(out, MOST_BODY, &self.1)
    }

    fn read(alloc: Global, cursor: &mut Cursor<'_>) -> Result<(u32, Text), Stop> {
        let number = cursor.u32(u32::MAX)?;
        let text = cursor.text(alloc, MOST_BODY)?;
        Ok((number, text))
    }
}
