//! Where an item's mail goes.
ghost use Rattle.std.specs.Prelude.{◌≡◌, ◌<◌, ◌++◌, ◌∷◌, [], not, IsTrue, IfOk, OnOk, option_copied, find, filter, map, if◌then◌else◌};
ghost use Rattle.std.specs.List.{list_any};
ghost use Rattle.verb_core.specs.Names.{is_empty};
ghost use Rattle.verb_core.specs.Boxes.{box_of, has_row, is_rising, same_user};
ghost use Rattle.verb_core.specs.Store.{is_house, users_of};
ghost use Rattle.verb_core.specs.Aims.{aim_at as makes_aim, into_or};
ghost use Rattle.mail_rows.specs.Reaching.{is_among_meanings, sought_at};
ghost use Rattle.verb_core.specs.Filters.{is_met as meets, occurs as is_within};
ghost use Rattle.verb_core.specs.Recipients.{resolved};

use crate::header::Header;
use crate::lookup::is_there;
use crate::needles::occurs;
use std::alloc::Global;
use undo_base::{Name, NoMemory, Sequence, User, Users};
use verb_core::{Aim, Aims, BoxId, Conf, Filter, House, Mailbox, Scope, resolve_local};

/// Whether the filter's needle occurs in what its scope looks at of a message.
fn is_met(
    alloc: Global,
    header: &mut Header<'_>,
    from: &[u8],
    to: &[Name],
    filter: &Filter,
) -> Result<bool, NoMemory>
    ensures met { IfOk result (λ met. met ≡ meets from.now to.now header.old filter.now) }
    ensures text { header.new ≡ header.old }
{
    let needle = &filter.needle;
    match &filter.scope {
        Scope::Body => Ok(occurs(header.text(), needle)),
        Scope::Field(name) => header.has(alloc, name, needle),
        Scope::Sender => Ok(occurs(from, needle)),
        Scope::Recipient => Ok(is_in_one(to, needle)),
    }
}

/// Whether the needle occurs in one of the local parts.
fn is_in_one(to: &[Name], needle: &Name) -> bool
    ensures { result ≡ list_any (is_within needle.now) to.now }
{
    to.iter().any(|local| occurs(local.bytes(), needle))
}

/// The first filter whose needle occurs in what its scope looks at. The header is cut into its fields once at most, and nothing
/// behind it is looked at but for filters that look at the whole text.
pub(crate) fn first_met<'a>(
    alloc: Global,
    filters: &'a [Filter],
    from: &[u8],
    to: &[Name],
    text: &[u8],
) -> Result<Option<&'a Filter>, NoMemory>
    ensures { IfOk result (λ found. option_copied found ≡ find (meets from.now to.now text.now) filters.now) }
{
    let mut header = Header::of(text);
    for filter in filters {
        if is_met(alloc, &mut header, from, to, filter)? {
            return Ok(Some(filter));
        }
    }
    Ok(None)
}

/// What each local part means.
pub(crate) fn meanings(
    alloc: Global,
    conf: &Conf,
    house: &House,
    to: &[Name],
) -> Result<Sequence<Users>, NoMemory>
    requires { IsTrue (is_house house.now) }
    ensures { IfOk result (λ all. all ≡ map (resolved house.now conf.now) to.now) }
{
    let mut all = Sequence::new(alloc);
    for local in to {
        all.push(resolve_local(alloc, conf, house, local)?)?;
    }
    Ok(all)
}

/// Whether some local part means nobody.
pub(crate) fn means_nobody(meanings: &[Users]) -> bool
    ensures { result ≡ list_any is_empty meanings.now }
{
    meanings.iter().any(|users| users.is_empty())
}

/// Whether some local part means the user.
fn is_meant(meanings: &[Users], user: User) -> bool
    ensures { result ≡ is_among_meanings meanings.now user }
{
    meanings.iter().any(|users| has_user(users, user))
}

fn has_user(users: &Users, user: User) -> bool
    ensures { result ≡ list_any (same_user user) users.now }
{
    users.iter().any(|other| user == *other)
}

/// The aims of new mail, and what was looked for and is not there.
#[derive(Drop)]
pub struct Reach {
    pub aims: Aims,
    pub missed: Aims,
}

pub(crate) fn aim_at(alloc: Global, user: User, name: &Name, index: u16) -> Result<Aim, NoMemory>
    ensures { IfOk result (λ aim. aim ≡ makes_aim user name.now index) }
{
    let mailbox = name.copy(alloc)?;
    Ok(Aim {
        user,
        mailbox,
        index,
    })
}

/// Adds the user's mailbox of that name, or the other where it is missing.
fn push_reach(
    alloc: Global,
    reach: &mut Reach,
    rows: &[(BoxId, Mailbox)],
    name: &Name,
    other: &Name,
    user: User,
) -> Result<(), NoMemory>
    requires { IsTrue (is_rising rows.now) }
    ensures aims { OnOk result (reach.new.aims ≡ reach.old.aims ++ makes_aim user (if has_row (box_of user name.now) rows.now then name.now else other.now) 0 ∷ []) }
    ensures missed { OnOk result (reach.new.missed ≡ reach.old.missed ++ (if has_row (box_of user name.now) rows.now then [] else makes_aim user name.now 0 ∷ [])) }
{
    if is_there(rows, user, name) {
        reach.aims.push(aim_at(alloc, user, name, 0)?)?;
    } else {
        reach.aims.push(aim_at(alloc, user, other, 0)?)?;
        reach.missed.push(aim_at(alloc, user, name, 0)?)?;
    }
    Ok(())
}

/// Each user's mailbox of that name, or the other where it is missing.
pub(crate) fn reach_each(
    alloc: Global,
    rows: &[(BoxId, Mailbox)],
    name: &Name,
    other: &Name,
    users: &[User],
) -> Result<Reach, NoMemory>
    requires { IsTrue (is_rising rows.now) }
    ensures { IfOk result (λ reach. sought_at reach ≡ into_or rows.now name.now other.now users.now) }
{
    let mut reach = Reach {
        aims: Aims::new(alloc),
        missed: Aims::new(alloc),
    };
    for user in users {
        push_reach(alloc, &mut reach, rows, name, other, *user)?;
    }
    Ok(reach)
}

/// Adds the user, if some local part means him.
fn push_meant(users: &mut Users, meanings: &[Users], user: User) -> Result<(), NoMemory>
    ensures { OnOk result (users.new ≡ users.old ++ (if is_among_meanings meanings.now user then user ∷ [] else [])) }
{
    if is_meant(meanings, user) {
        users.push(user)?;
    }
    Ok(())
}

/// The users that any of the local parts means, rising, each once.
pub(crate) fn recipients(
    alloc: Global,
    house: &House,
    meanings: &[Users],
) -> Result<Users, NoMemory>
    requires { IsTrue (is_house house.now) }
    ensures { IfOk result (λ users. users ≡ filter (is_among_meanings meanings.now) (users_of house.now)) }
{
    let mut users = Users::new(alloc);
    for place in 0..house.accounts.len() {
        push_meant(&mut users, meanings, User(place as u8))?;
    }
    Ok(users)
}
