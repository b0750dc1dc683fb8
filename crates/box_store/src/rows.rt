//! Stores made of rows, as a snapshot has them.
//!
//! Rows are looked at before memory is wanted for the store, so that a row which is refused is told whatever memory there is.
ghost use Rattle.std.specs.Prelude.{◌≡◌, ◌↔◌, ◌≤◌, ◌<◌, ◌+◌, ◌&&◌, ℕ, List, None, Some, Err, IsTrue, IfOk, true, if◌then◌else◌, length, take};
ghost use Rattle.std.specs.List.{list_all};
ghost use Rattle.verb_core.specs.declared.conf.House.{House as TheHouse};
ghost use Rattle.verb_core.specs.declared.conf.Conf.{Conf as TheConf};
ghost use Rattle.verb_core.specs.declared.mailbox.BoxId.{BoxId as TheBoxId};
ghost use Rattle.verb_core.specs.declared.mailbox.Mailbox.{Mailbox as TheMailbox};
ghost use Rattle.verb_core.specs.Boxes.{box_cmp, box_of, has_row, is_rising};
ghost use Rattle.verb_core.specs.Mailboxes.{uids_rise};
ghost use Rattle.verb_core.specs.Names.{superiors, is_slash as is_separator};
ghost use Rattle.verb_core.specs.Store.{IsValid, has_fixed, is_house, is_known, is_row};
ghost use Rattle.box_store.specs.declared.rows.RowsRefused.TheVariants.{Row};
ghost use Rattle.box_store.specs.Making as spec;
ghost use Rattle.box_store.specs.Making.{are_rows, have_fixed, knows_aliases, store_of_rows, IsRefusedAt};

use crate::Store;
use crate::spares::Spares;
use mail_rows::HeldConf;
use mail_rows::rows::place_of;
use std::alloc::Global;
use std::cmp::Ordering;
use undo_base::{Copies, NoMemory, User, before};
use verb_core::{BoxId, Conf, Entry, House, Mailbox, Rows, is_slash};

/// Why rows make no store.
#[derive(Clone, Copy, Debug, PartialEq, Eq)]
pub enum RowsRefused {
    /// The place of the first row that can't stand behind those before it; the number of rows, where a fixed mailbox is
    /// missing.
    Row { place: usize },
    NoMemory,
}

/// How a mailbox lies to another, by user and then by name.
fn compare(earlier: &BoxId, id: &BoxId) -> Ordering
    ensures { result ≡ box_cmp earlier.now id.now }
{
    match earlier.user.0.cmp(&id.user.0) {
        Ordering::Less => Ordering::Less,
        Ordering::Equal => earlier.name.bytes().cmp(id.name.bytes()),
        Ordering::Greater => Ordering::Greater,
    }
}

/// Whether the row at a place is above those before it, which rise.
fn is_above(rows: &[(BoxId, Mailbox)], place: usize) -> bool
    requires rising { IsTrue (is_rising (take place rows.now)) }
    requires within { place < length rows.now }
    ensures { result ≡ is_rising (take (place + 1) rows.now) }
{
    place == 0 || compare(&rows[place - 1].0, &rows[place].0).is_lt()
}

/// Whether the UIDs rise from at least 1, and stay below the next.
fn uids_rise(entries: &[Entry], next: u64) -> bool
    ensures { result ≡ uids_rise 0 entries.now next }
{
    let mut low = 0;
    let mut rest = entries;
    while let [entry, others @ ..] = rest {
        if entry.uid <= low {
            return false;
        }
        low = entry.uid;
        rest = others;
    }
    low < next
}

/// Whether a row is a mailbox of a user of the house.
fn is_row(house: &House, row: &(BoxId, Mailbox)) -> bool
    ensures { result ≡ is_row house.now row.now }
{
    house.knows(row.0.user) && uids_rise(row.1.entries.as_slice(), row.1.next)
}

/// Whether the user has a row for the front of a name, where the byte behind that makes it a superior.
fn has_superior(rows: &[(BoxId, Mailbox)], user: User, front: &[u8], byte: u8) -> bool
    requires { IsTrue (is_rising rows.now) }
    ensures { result ≡ (if is_separator byte then has_row (box_of user front.now) rows.now else true) }
{
    !is_slash(byte) || has_row(rows, user, front)
}

fn both(first: bool, second: bool) -> bool
    ensures { result ≡ (first && second) }
{
    first && second
}

/// Whether the user has a row for each superior of a name.
#[tactic(auto, using(crate::proofs::Making::none_above, crate::proofs::Making::one_above, crate::proofs::Making::all_read))]
fn has_superiors(rows: &[(BoxId, Mailbox)], user: User, name: &[u8]) -> bool
    requires { IsTrue (is_rising rows.now) }
    ensures { result ≡ list_all (λ superior. has_row (box_of user superior) rows.now) (superiors name.now) }
{
    let mut all = true;
    for place in 1..name.len() {
        let here = has_superior(rows, user, before(name, place), name[place]);
        all = both(all, here);
    }
    all
}

fn all_three(first: bool, second: bool, third: bool) -> bool
    ensures { result ≡ (first && second && third) }
{
    first && second && third
}

/// Whether the row at a place can stand behind those before it.
fn stands(house: &House, rows: &[(BoxId, Mailbox)], place: usize) -> bool
    requires before { IsTrue (are_rows house.now (take place rows.now)) }
    requires within { place < length rows.now }
    ensures { result ≡ are_rows house.now (take (place + 1) rows.now) }
{
    let row = &rows[place];
    let named = has_superiors(before(rows, place), row.0.user, row.0.name.bytes());
    all_three(is_above(rows, place), is_row(house, row), named)
}

/// Whether there is a row of that user and name.
fn has_row(rows: &[(BoxId, Mailbox)], user: User, name: &[u8]) -> bool
    requires { IsTrue (is_rising rows.now) }
    ensures { result ≡ has_row (box_of user name.now) rows.now }
{
    match place_of(rows, user, name) {
        Ok(_) => true,
        Err(_) => false,
    }
}

/// Whether the user has the fixed mailboxes.
fn has_fixed(rows: &[(BoxId, Mailbox)], user: User) -> bool
    requires { IsTrue (is_rising rows.now) }
    ensures { result ≡ has_fixed rows.now user }
{
    has_row(rows, user, b"INBOX") && has_row(rows, user, b"Lost+Found")
}

/// Whether each user has the fixed mailboxes.
#[tactic(auto, using(crate::proofs::Making::users_more))]
fn have_fixed(house: &House, rows: &[(BoxId, Mailbox)]) -> bool
    requires house { IsTrue (is_house house.now) }
    requires rising { IsTrue (is_rising rows.now) }
    ensures { result ≡ have_fixed house.now rows.now }
{
    let mut all = true;
    for place in 0..house.accounts.len() {
        all = all && has_fixed(rows, User(place as u8));
    }
    all
}

fn are_known(house: &House, users: &[User]) -> bool
    ensures { result ≡ list_all (is_known house.now) users.now }
{
    users.iter().all(|user| house.knows(*user))
}

/// Whether each alias stands for users of the house.
fn knows_aliases(house: &House, conf: &Conf) -> bool
    ensures { result ≡ knows_aliases house.now conf.now }
{
    conf.aliases
        .iter()
        .all(|alias| are_known(house, alias.users.as_slice()))
}

/// The place at which rows are refused, by `RowsRefused::Row`. It takes no memory.
pub fn rows_fault(house: &House, rows: &[(BoxId, Mailbox)]) -> Option<usize>
    requires { IsTrue (is_house house.now) }
    ensures none { result ≡ None → IsTrue (are_rows house.now rows.now) × IsTrue (have_fixed house.now rows.now) }
    ensures some { (place : ℕ) → result ≡ Some place → IsRefusedAt house.now rows.now place }
{
    for place in 0..rows.len() {
        if !stands(house, rows, place) {
            return Some(place);
        }
    }
    if have_fixed(house, rows) {
        None
    } else {
        Some(rows.len())
    }
}

/// Whether the rows can stand in a store, and none is missing.
fn are_whole(house: &House, rows: &[(BoxId, Mailbox)]) -> bool
    requires { IsTrue (is_house house.now) }
    ensures { result ≡ (are_rows house.now rows.now && have_fixed house.now rows.now) }
{
    match rows_fault(house, rows) {
        None => true,
        Some(_) => false,
    }
}

/// Whether these are a store's parts. It takes no memory.
pub fn makes_store(house: &House, conf: &Conf, rows: &[(BoxId, Mailbox)]) -> bool
    ensures { result ≡ spec.makes_store house.now conf.now rows.now }
{
    house.is_sound() && are_whole(house, rows) && knows_aliases(house, conf)
}

/// The parts that make a store are those of a valid one, and rows that are refused make none. Rows are refused at one place.
pub fn rows_make_valid_stores()
    ensures valid { (house : TheHouse) (conf : TheConf) (rows : List (TheBoxId × TheMailbox)) →
        IsTrue (spec.makes_store house conf rows) ↔ IsValid (store_of_rows house conf rows) }
    ensures refused { (house : TheHouse) (rows : List (TheBoxId × TheMailbox)) (place : ℕ) → IsRefusedAt house rows place →
        (conf : TheConf) → IsTrue (spec.makes_store house conf rows) → ⊥ }
    ensures one_place { (house : TheHouse) (rows : List (TheBoxId × TheMailbox)) (first second : ℕ) →
        IsRefusedAt house rows first → IsRefusedAt house rows second → first ≡ second }
{}

/// The store of these parts, whose rows rise.
fn with_rows(alloc: Global, house: &House, conf: Conf, rows: Rows) -> Result<Store, NoMemory>
    requires { IsTrue (is_rising rows) }
    ensures { IfOk result (λ made. made.store ≡ store_of_rows house.now conf rows) }
{
    let house = house.copy(alloc)?;
    Ok(Store {
        house,
        conf: HeldConf::new(alloc, conf),
        rows: rows.into_vec(),
        spares: Spares::new(alloc),
    })
}

impl Store {
    /// The store of these parts.
    pub fn from_rows(
        alloc: Global,
        house: &House,
        conf: Conf,
        rows: Rows,
    ) -> Result<Store, RowsRefused>
        requires house { IsTrue (is_house house.now) }
        requires aliases { IsTrue (knows_aliases house.now conf) }
        ensures store { IfOk result (λ made. made.store ≡ store_of_rows house.now conf rows) }
        ensures valid { IfOk result (λ made. IsValid made.store) }
        ensures row { (place : ℕ) → result ≡ Err (Row place) → IsRefusedAt house.now rows place }
    {
        match rows_fault(house, rows.as_slice()) {
            Some(place) => Err(RowsRefused::Row { place }),
            None => match with_rows(alloc, house, conf, rows) {
                Ok(store) => Ok(store),
                Err(_) => Err(RowsRefused::NoMemory),
            },
        }
    }

    /// All mailboxes, by rising user and name, with no memory taken.
    pub fn boxes(&self) -> &[(BoxId, Mailbox)]
        ensures boxes { result.now ≡ self.now.store.boxes }
        ensures rising { IsTrue (is_rising self.now.store.boxes) }
    {
        self.rows.as_slice()
    }
}
