//! Names against the patterns of LIST (RFC 3501, section 6.3.8), in time that grows as pattern times name at most.
//!
//! A pattern is matched from its last byte on, each byte passing once over the ends of the name. Once for all names it is
//! shortened: of wildcards side by side one stays, `*` where one of them is. A shortened pattern with more other bytes than the
//! name has matches nothing, so a name of 200 bytes costs some 80,000 steps at most, whatever the pattern's length. Going back to
//! the last wildcard, as is usual, would be wrong where `*` and `%` are mixed.
ghost use Rattle.std.specs.Prelude.{◌≡◌, ◌≤◌, ◌++◌, ◌∷◌, ◌&&◌, ◌==◌, [], List, IsTrue, IfOk, OnOk, drop, filter, length, map, not, true, false, if◌then◌else◌};
ghost use Rattle.std.specs.List.{cons_option, position_or_len};
ghost use Rattle.verb_core.specs.Boxes.{is_rising, names_of};
ghost use Rattle.verb_core.specs.Names.{inbox, is_slash as is_separator, is_wildcard as is_any};
ghost use Rattle.verb_core.specs.Patterns.{Letter, is_inbox_or_below as inbox_or_below, is_letter, is_listed as is_given, letters_in, letters_of, matches};
ghost use Rattle.mail_rows.specs.Patterns.{letter_of, cell_of, matches_at, handed, passed, told_first};

use crate::lookup::rows_of;
use std::alloc::Global;
use undo_base::{Name, Names, NoMemory, Text, User, after, before};
use verb_core::{BoxId, Mailbox, is_inbox, is_slash, is_wildcard};

// ---- the pattern, shortened

/// One wildcard for two: `*` where one of them is.
fn one_wildcard(first: u8, second: u8) -> u8
    ensures { result ≡ (if second == 42 then 42 else first) }
{
    if second == b'*' { b'*' } else { first }
}

/// A byte more behind what was read, whose last byte is kept apart.
fn push_byte(front: &mut Vec<u8>, last: Option<u8>, byte: u8) -> Result<u8, NoMemory>
    ensures { IfOk result (λ b. (rest : _) → matches (front.new.items ++ b ∷ rest) ≡ matches (front.old.items ++ cons_option last (byte ∷ rest))) }
{
    match last {
        None => Ok(byte),
        Some(first) => {
            if is_wildcard(first) && is_wildcard(byte) {
                return Ok(one_wildcard(first, byte));
            }
            front.push(first)?;
            Ok(byte)
        }
    }
}

/// A pattern that matches the same names, with no two wildcards side by side.
fn shortened(alloc: Global, pattern: &[u8]) -> Result<Vec<u8>, NoMemory>
    ensures { IfOk result (λ short. matches short.items ≡ matches pattern.now) }
{
    let mut front = Vec::new(alloc);
    let mut last = None;
    for byte in pattern {
        last = Some(push_byte(&mut front, last, *byte)?);
    }
    if let Some(byte) = last {
        front.push(byte)?;
    }
    Ok(front)
}

/// How many bytes of the pattern are no wildcards: a name that it matches has as many at least.
fn count_letters(pattern: &[u8]) -> usize
    ensures { result ≡ length (filter (λ byte. not (is_any byte)) pattern.now) }
{
    pattern.iter().filter(|byte| !is_wildcard(**byte)).count()
}

// ---- a name, cell by cell

/// A byte of a name, whether it is compared ignoring case, and whether what was looked at of the pattern matches the name
/// from there on.
#[derive(Drop)]
struct Cell {
    byte: u8,
    any_case: bool,
    matched: bool,
}

/// Adds the bytes of a name, which match nothing yet.
fn push_cells(cells: &mut Vec<Cell>, bytes: &[u8], any_case: bool) -> Result<(), NoMemory>
    ensures { OnOk result (cells.new.items ≡ cells.old.items ++ map (cell_of false) (letters_in any_case bytes.now)) }
{
    for byte in bytes {
        cells.push(Cell {
            byte: *byte,
            any_case,
            matched: false,
        })?;
    }
    Ok(())
}

/// Where the first `/` of a name stands, or the length where there is none.
fn slash_of(name: &[u8]) -> usize
    ensures within { result ≤ length name.now }
    ensures value { result ≡ position_or_len is_separator name.now }
{
    for (place, byte) in name.iter().enumerate() {
        if is_slash(*byte) {
            return place;
        }
    }
    name.len()
}

/// Whether it is INBOX, or INBOX stands before its first `/`.
fn is_inbox_or_below(name: &[u8]) -> bool
    ensures { result ≡ inbox_or_below name.now }
{
    is_inbox(before(name, slash_of(name)))
}

/// What stands behind as many bytes as INBOX has.
fn behind_inbox(name: &[u8]) -> &[u8]
    ensures { result.now ≡ drop (length inbox) name.now }
{
    if name.len() < 5 {
        return &[];
    }
    after(name, 5)
}

/// The cells of a name, in place of those that were there.
fn lay_out(cells: &mut Vec<Cell>, name: &[u8]) -> Result<(), NoMemory>
    ensures { OnOk result (cells.new.items ≡ map (cell_of false) (letters_of name.now)) }
{
    cells.clear();
    if is_inbox_or_below(name) {
        push_cells(cells, b"INBOX", true)?;
        push_cells(cells, behind_inbox(name), false)
    } else {
        push_cells(cells, name, false)
    }
}

fn is_letter_of(byte: u8, cell: &Cell) -> bool
    ensures { result ≡ is_letter byte (letter_of cell.now) }
{
    if cell.any_case {
        byte.to_ascii_uppercase() == cell.byte
    } else {
        byte == cell.byte
    }
}

/// A byte more of the pattern at a cell, by what the cell behind it handed on; what this one hands on.
fn pass_cell(byte: u8, cell: &mut Cell, later: bool) -> bool
    ensures value { result ≡ handed byte later cell.old }
    ensures cell { cell.new ≡ record cell.old { matched = matches_at byte later cell.old } }
{
    let matched = cell.matched;
    if byte == b'*' {
        cell.matched = matched || later;
        return cell.matched;
    }
    if byte == b'%' {
        cell.matched = matched || (!is_slash(cell.byte) && later);
        return cell.matched;
    }
    cell.matched = is_letter_of(byte, cell) && later;
    matched
}

/// A byte more of the pattern, which stands before what was looked at. That matches the end of no letters, or does not.
fn pass(cells: &mut [Cell], byte: u8, at_end: bool)
    ensures { cells.new ≡ passed byte at_end cells.old }
{
    let mut later = at_end;
    let mut place = cells.len();
    while place > 0 {
        place -= 1;
        later = pass_cell(byte, &mut cells[place], later);
    }
}

/// Whether the pattern with a byte in front matches the end of no letters.
fn passes_end(byte: u8, at_end: bool) -> bool
    ensures { result ≡ (at_end && is_any byte) }
{
    at_end && is_wildcard(byte)
}

/// Whether the pattern matches all letters, where it matches the end of none or does not.
fn matches_whole(cells: &[Cell], at_end: bool) -> bool
    ensures { result ≡ told_first at_end cells.now }
{
    match cells {
        [] => at_end,
        [cell, ..] => cell.matched,
    }
}

/// Whether the pattern matches the letters, whose cells match nothing yet.
fn is_match(pattern: &[u8], cells: &mut [Cell]) -> bool
    ensures { (letters : List Letter) → cells.old ≡ map (cell_of false) letters → result ≡ matches pattern.now letters }
{
    let mut at_end = true;
    let mut place = pattern.len();
    while place > 0 {
        place -= 1;
        pass(cells, pattern[place], at_end);
        at_end = passes_end(pattern[place], at_end);
    }
    matches_whole(cells, at_end)
}

/// Whether LIST gives the name. The shortened pattern has so many letters.
fn is_listed(
    cells: &mut Vec<Cell>,
    pattern: &[u8],
    letters: usize,
    name: &Name,
) -> Result<bool, NoMemory>
    requires { letters ≡ length (filter (λ byte. not (is_any byte)) pattern.now) }
    ensures { IfOk result (λ given. given ≡ is_given pattern.now name.now) }
{
    if name.bytes().len() < letters {
        return Ok(false);
    }
    lay_out(cells, name.bytes())?;
    Ok(is_match(pattern, cells.as_mut_slice()))
}

/// Adds the row's name, if LIST gives it.
fn push_listed(
    alloc: Global,
    names: &mut Names,
    cells: &mut Vec<Cell>,
    pattern: &[u8],
    letters: usize,
    row: &(BoxId, Mailbox),
) -> Result<(), NoMemory>
    requires { letters ≡ length (filter (λ byte. not (is_any byte)) pattern.now) }
    ensures { OnOk result (names.new ≡ names.old ++ (if is_given pattern.now row.now.0.name then row.now.0.name ∷ [] else [])) }
{
    if is_listed(cells, pattern, letters, &row.0.name)? {
        names.push(row.0.name.copy(alloc)?)?;
    }
    Ok(())
}

/// The names of rows that the shortened pattern gives.
fn listed_by(alloc: Global, rows: &[(BoxId, Mailbox)], pattern: &[u8]) -> Result<Names, NoMemory>
    ensures { IfOk result (λ names. names ≡ filter (is_given pattern.now) (map (λ r. r.0.name) rows.now)) }
{
    let letters = count_letters(pattern);
    let mut cells = Vec::new(alloc);
    let mut names = Names::new(alloc);
    for row in rows {
        push_listed(alloc, &mut names, &mut cells, pattern, letters, row)?;
    }
    Ok(names)
}

/// The user's names that LIST gives, in byte order. Other users' rows are not looked at.
pub(crate) fn listed(
    alloc: Global,
    rows: &[(BoxId, Mailbox)],
    user: User,
    pattern: &Text,
) -> Result<Names, NoMemory>
    requires { IsTrue (is_rising rows.now) }
    ensures { IfOk result (λ names. names ≡ filter (is_given pattern.now) (names_of user rows.now)) }
{
    let short = shortened(alloc, pattern.bytes())?;
    listed_by(alloc, rows_of(rows, user), short.as_slice())
}
