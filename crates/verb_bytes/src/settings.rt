//! Houses and configurations as parts of records.
ghost use Rattle.verb_bytes.specs.Readers.{Gives, list_at, read3, user_at};
ghost use Rattle.verb_bytes.specs.Reading.{account_at, aliases_at, format_at, format_of};
ghost use Rattle.verb_bytes.specs.Spelling.{house_fields};
ghost use Rattle.verb_bytes.specs.Writing.{Puts};

use crate::JournalRecord;
use crate::cursor::{Cursor, Stop};
use crate::part::{Part, put_list, put_option, read_list, read_option};
use crate::write::{MOST_ACCOUNTS, Unwritten, put_condition, put_name, put_u32, put_user};
use std::alloc::Global;
use undo_base::{Name, Names, Text};
use verb_core::{Account, Alias, Conf, Filter, Filters, House, Scope};

impl Part for Account {
    ghost use Rattle.verb_bytes.specs.Spelling.{account_fields};
    ghost use Rattle.verb_bytes.specs.Reading.{account_at};

    ghost fields = { account_fields };

    ghost reader = { account_at };

    #[tactic(auto, using(crate::proofs::Puts::list_steps))]
    fn put(&self, out: &mut Text) -> Result<(), Unwritten> {
        put_name(out, &self.name)?;
        put_name(out, &self.password)
    }

    fn read(alloc: Global, cursor: &mut Cursor<'_>) -> Result<Account, Stop> {
        let name = cursor.name(alloc)?;
        let password = cursor.name(alloc)?;
        Ok(Account { name, password })
    }
}

impl Part for Alias {
    ghost use Rattle.verb_bytes.specs.Spelling.{alias_fields};
    ghost use Rattle.verb_bytes.specs.Reading.{alias_at};

    ghost fields = { alias_fields };

    ghost reader = { alias_at };

    #[tactic(auto, using(crate::proofs::Puts::list_steps))]
    fn put(&self, out: &mut Text) -> Result<(), Unwritten> {
        put_name(out, &self.local)?;
        put_list(u32::MAX, &self.users, out)
    }

    fn read(alloc: Global, cursor: &mut Cursor<'_>) -> Result<Alias, Stop> {
        let local = cursor.name(alloc)?;
        let users = read_list(alloc, u32::MAX, cursor)?;
        Ok(Alias { local, users })
    }
}

impl Part for Filter {
    ghost use Rattle.verb_bytes.specs.Spelling.{filter_fields};
    ghost use Rattle.verb_bytes.specs.Reading.{filter_at};

    ghost fields = { filter_fields };

    ghost reader = { filter_at };

    #[tactic(auto, using(crate::proofs::Puts::list_steps))]
    fn put(&self, out: &mut Text) -> Result<(), Unwritten> {
        put_name(out, &self.id)?;
        put_name(out, &self.needle)?;
        put_option(&self.file, out)
    }

    fn read(alloc: Global, cursor: &mut Cursor<'_>) -> Result<Filter, Stop> {
        let id = cursor.name(alloc)?;
        let needle = cursor.name(alloc)?;
        let file = read_option(alloc, cursor)?;
        Ok(Filter {
            id,
            needle,
            file,
            scope: Scope::Body,
        })
    }
}

/// Writes a house, and the aliases that it begins with. It has no filter yet.
#[tactic(auto, using(crate::proofs::Puts::list_steps))]
pub(crate) fn put_house(house: &House, conf: &Conf, out: &mut Text) -> Result<(), Unwritten>
    ensures { Puts (house_fields house.now conf.now) out.old out.new result }
{
    put_name(out, &house.host)?;
    put_list(u32::MAX, &house.domains, out)?;
    put_u32(out, u32::MAX, house.first)?;
    put_list(MOST_ACCOUNTS, &house.accounts, out)?;
    put_user(out, house.postmaster)?;
    put_list(u32::MAX, &conf.aliases, out)?;
    put_condition(out, conf.filters.is_empty())
}

/// Reads a house and its aliases. No filter is there at first.
pub(crate) fn read_house(alloc: Global, cursor: &mut Cursor<'_>) -> Result<JournalRecord, Stop>
    ensures { Gives format_at cursor.old.rest.now cursor.new.rest.now result }
{
    let host = cursor.name(alloc)?;
    let domains = read_list(alloc, u32::MAX, cursor)?;
    let first = cursor.u32(u32::MAX)?;
    read_people(alloc, host, domains, first, cursor)
}

/// Reads the accounts, the postmaster and the aliases, behind the other fields of a house.
fn read_people(
    alloc: Global,
    host: Name,
    domains: Names,
    first: u32,
    cursor: &mut Cursor<'_>,
) -> Result<JournalRecord, Stop>
    ensures { Gives (read3 (format_of host domains first) (list_at MOST_ACCOUNTS account_at) user_at aliases_at) cursor.old.rest.now cursor.new.rest.now result }
{
    let accounts = read_list(alloc, MOST_ACCOUNTS, cursor)?;
    let postmaster = cursor.user()?;
    let aliases = read_list(alloc, u32::MAX, cursor)?;
    let house = House {
        host,
        domains,
        accounts,
        postmaster,
        first,
    };
    let conf = Conf {
        aliases,
        filters: Filters::new(alloc),
    };
    Ok(JournalRecord::Format(house, conf))
}
