//! Names that a CREATE or a RENAME gives to mailboxes, found beforehand on the mailboxes that there are.
//!
//! A CREATE and a RENAME carry the names that they make and those that they give, found when the effect is made.
ghost use Rattle.std.specs.Prelude.{◌≡◌, ◌++◌, ◌∷◌, [], ◌-◌, not, drop, map, take, length, IsTrue, IfOk, OnOk, if◌then◌else◌};
ghost use Rattle.verb_core.specs.Boxes.{box_of, has_row, is_at_or_below as is_below, is_rising};
ghost use Rattle.verb_core.specs.Names.{moved_name, superiors};
ghost use Rattle.box_store.specs.Plans.{missing_of, move_of, moves_of, to_create as are_to_create};

use crate::Move;
use mail_rows::inferiors::inferiors_of;
use mail_rows::lookup::search_mailbox;
use std::alloc::Global;
use undo_base::{Name, Names, NoMemory, Sequence, Text, User, after, before};
use verb_core::{BoxId, Mailbox, is_inferior, names_with_superiors};

// ---- mailboxes that are missing

/// Adds a name that the user does not have.
fn push_missing(
    alloc: Global,
    missing: &mut Names,
    rows: &[(BoxId, Mailbox)],
    user: User,
    name: &Name,
) -> Result<(), NoMemory>
    requires { IsTrue (is_rising rows.now) }
    ensures { OnOk result (missing.new ≡ missing.old ++ (if not (has_row (box_of user name.now) rows.now) then name.now ∷ [] else [])) }
{
    if search_mailbox(rows, user, name).is_none() {
        missing.push(name.copy(alloc)?)?;
    }
    Ok(())
}

/// Those of the names that the user does not have.
fn missing_of(
    alloc: Global,
    rows: &[(BoxId, Mailbox)],
    user: User,
    names: &[Name],
) -> Result<Names, NoMemory>
    requires { IsTrue (is_rising rows.now) }
    ensures { IfOk result (λ missing. missing ≡ missing_of user names.now rows.now) }
{
    let mut missing = Names::new(alloc);
    for name in names {
        push_missing(alloc, &mut missing, rows, user, name)?;
    }
    Ok(missing)
}

/// The missing superiors of a mailbox and itself, the shortest first, where it is missing.
pub(crate) fn to_create(
    alloc: Global,
    rows: &[(BoxId, Mailbox)],
    user: User,
    mailbox: &Name,
) -> Result<Names, NoMemory>
    requires { IsTrue (is_rising rows.now) }
    ensures { IfOk result (λ names. names ≡ are_to_create user mailbox.now rows.now) }
{
    if search_mailbox(rows, user, mailbox).is_some() {
        return Ok(Names::new(alloc));
    }
    let names = names_with_superiors(alloc, mailbox)?;
    missing_of(alloc, rows, user, names.as_slice())
}

/// All but the last.
pub fn but_last(names: &[Name]) -> &[Name]
    ensures { result.now ≡ take (length names.now - 1) names.now }
{
    before(names, names.len().saturating_sub(1))
}

/// The missing superiors of a mailbox, the shortest first.
pub(crate) fn superiors_to_create(
    alloc: Global,
    rows: &[(BoxId, Mailbox)],
    user: User,
    mailbox: &Name,
) -> Result<Names, NoMemory>
    requires { IsTrue (is_rising rows.now) }
    ensures { IfOk result (λ names. names ≡ missing_of user (superiors mailbox.now) rows.now) }
{
    let names = names_with_superiors(alloc, mailbox)?;
    missing_of(alloc, rows, user, but_last(names.as_slice()))
}

// ---- mailboxes that move

/// Whether a mailbox is the user's of that name, or an inferior of it.
pub fn is_at_or_below(id: &BoxId, user: User, name: &Name) -> bool
    ensures { result ≡ is_below user name.now id.now }
{
    user == id.user
        && (name.bytes() == id.name.bytes() || is_inferior(name.bytes(), id.name.bytes()))
}

/// What stands behind the first bytes; nothing where there are no more.
fn behind(bytes: &[u8], count: usize) -> &[u8]
    ensures { result.now ≡ drop count bytes.now }
{
    if count > bytes.len() {
        return &[];
    }
    after(bytes, count)
}

/// The new name of a mailbox that is renamed, or of an inferior of it. One of more than 200 bytes finds no memory.
pub fn moved_name(
    alloc: Global,
    source: &Name,
    target: &Name,
    name: &Name,
) -> Result<Name, NoMemory>
    ensures { IfOk result (λ moved. moved ≡ moved_name source.now target.now name.now) }
{
    let mut bytes = Text::of(alloc, target.bytes())?;
    bytes.extend(behind(name.bytes(), source.bytes().len()))?;
    Name::fit(alloc, bytes.bytes())
}

fn move_of(alloc: Global, source: &Name, target: &Name, name: &Name) -> Result<Move, NoMemory>
    ensures { IfOk result (λ move. move ≡ move_of source.now target.now name.now) }
{
    let to = moved_name(alloc, source, target, name)?;
    let from = name.copy(alloc)?;
    Ok(Move { from, to })
}

/// Adds the mailboxes of rows, each with its new name.
fn push_moves(
    alloc: Global,
    moves: &mut Sequence<Move>,
    source: &Name,
    target: &Name,
    rows: &[(BoxId, Mailbox)],
) -> Result<(), NoMemory>
    ensures { OnOk result (moves.new ≡ moves.old ++ map (move_of source.now target.now) (map (λ r. r.0.name) rows.now)) }
{
    for row in rows {
        moves.push(move_of(alloc, source, target, &row.0.name)?)?;
    }
    Ok(())
}

/// The source of a RENAME and its inferiors, each with its new name.
pub(crate) fn moves_of(
    alloc: Global,
    rows: &[(BoxId, Mailbox)],
    user: User,
    source: &Name,
    target: &Name,
) -> Result<Sequence<Move>, NoMemory>
    requires { IsTrue (is_rising rows.now) }
    ensures { IfOk result (λ moves. moves ≡ moves_of user source.now target.now rows.now) }
{
    let mut moves = Sequence::new(alloc);
    moves.push(move_of(alloc, source, target, source)?)?;
    let inferiors = inferiors_of(rows, user, source.bytes());
    push_moves(alloc, &mut moves, source, target, inferiors)?;
    Ok(moves)
}
