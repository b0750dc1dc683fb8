//! Ann's INBOX with two messages, which items 2 and 3 brought, and the lengths of their texts.
ghost use Rattle.std.specs.Prelude.{◌≡◌, ◌<◌, [], IsTrue, IfOk, unwrap_or};
ghost use Rattle.verb_core.specs.Boxes.{is_rising};
ghost use Rattle.verb_core.specs.Items.{IsWellFormed, text_in};
ghost use Rattle.verb_core.specs.Store.{IsValid, is_house};
ghost use Rattle.verb_core.specs.declared.conf.House.{House};

use box_store::{Steps, Store};
use seal_log::Place;
use shelf::Shelf;
use std::alloc::Global;
use std::marker::Brand;
use std::sync::ledger::{Blank, Ledger};
use std::test::Fail;
use undo_base::{Name, Names, NoMemory, Text, User};
use verb_core::{
    Account, Accounts, Aliases, Body, BoxId, Conf, Deed, Filters, House, Item, Shown, Stamps,
};

/// 7 January 2005, 10:00:00.
const AT: u64 = 1105092000;

/// The texts of the two messages, with their lengths.
pub(crate) const FIRST: (Body, &[u8], u32) = (
    Body { origin: 2, rev: 0 },
    b"Subject: hi\r\n\r\n.dot\r\n",
    21,
);

pub(crate) const SECOND: (Body, &[u8], u32) = (Body { origin: 3, rev: 0 }, b"hi", 2);

pub(crate) fn name(alloc: Global, bytes: &[u8]) -> Result<Name, Fail> {
    Ok(Name::read(alloc, bytes)?)
}

fn house(alloc: Global) -> Result<House, Fail> {
    let mut accounts = Accounts::new(alloc);
    accounts.push(Account {
        name: name(alloc, b"ann")?,
        password: name(alloc, b"a1")?,
    })?;
    Ok(House {
        host: name(alloc, b"mail.test")?,
        domains: Names::new(alloc),
        accounts,
        postmaster: User(0),
        first: 2,
    })
}

fn sound_house(alloc: Global) -> Result<House, Fail>
    ensures { IfOk result (λ house. IsTrue (is_house house)) }
{
    let house = house(alloc)?;
    if house.is_sound() {
        return Ok(house);
    }
    drop(house);
    Err(Fail::new("the house is not sound"))
}

fn stamps(alloc: Global) -> Result<Stamps, Fail>
    ensures { IfOk result (λ stamps. IsTrue (is_rising stamps)) }
{
    let mut stamps = Stamps::new(alloc);
    let inbox = BoxId {
        user: User(0),
        name: name(alloc, b"INBOX")?,
    };
    stamps.push((inbox, 1))?;
    Ok(stamps)
}

fn shelf(alloc: Global) -> Result<Shelf, Fail> {
    let place = Place {
        gate: 0,
        length: 23,
    };
    let mut shelf = Shelf::new(alloc);
    shelf.note_room(2)?;
    shelf.note(FIRST.0, place, 0, FIRST.2);
    shelf.note(SECOND.0, place, 21, SECOND.2);
    Ok(shelf)
}

/// The item of a delivery to ann.
fn delivered(alloc: Global, number: u32) -> Result<Item, Fail>
    ensures formed { IfOk result (λ item. (house : House) → IsWellFormed house item) }
    ensures text { IfOk result (λ item. unwrap_or (text_in item.deed) [] ≡ []) }
{
    let mut to = Names::new(alloc);
    to.push(name(alloc, b"ann")?)?;
    Ok(Item {
        number,
        at: AT,
        by: None,
        rev: 0,
        deed: Deed::Deliver {
            from: Text::new(alloc),
            to,
            text: Text::new(alloc),
        },
        shown: Shown::Nothing,
    })
}

fn perform<L: Ledger>(
    alloc: Global,
    store: &mut Store,
    steps: &mut Steps<L>,
    item: &Item,
) -> Result<(), NoMemory>
    requires valid { IsValid store.old.store }
    requires formed { IsWellFormed store.old.store.house item.now }
    requires text { unwrap_or (text_in item.now.deed) [] ≡ [] }
    ensures { IsValid store.new.store }
{
    store.stays_valid(item);
    drop(store.perform(alloc, item, &[], steps)?);
    Ok(())
}

fn deliver<L: Ledger>(
    alloc: Global,
    store: &mut Store,
    steps: &mut Steps<L>,
    number: u32,
) -> Result<(), Fail>
    requires { IsValid store.old.store }
    ensures { IsValid store.new.store }
{
    let item = delivered(alloc, number)?;
    Ok(perform_this(alloc, store, steps, item)?)
}

fn perform_this<L: Ledger>(
    alloc: Global,
    store: &mut Store,
    steps: &mut Steps<L>,
    item: Item,
) -> Result<(), NoMemory>
    requires valid { IsValid store.old.store }
    requires formed { IsWellFormed store.old.store.house item }
    requires text { unwrap_or (text_in item.deed) [] ≡ [] }
    ensures { IsValid store.new.store }
{
    let done = perform(alloc, store, steps, &item);
    drop(item);
    done
}

fn fill_over<L: Ledger>(alloc: Global, store: &mut Store, blank: Blank) -> Result<(), Fail>
    requires name { blank.name ≡ L.name }
    requires parts { blank.parts ≡ L.parts }
    requires some { 0 < blank.parts }
    requires valid { IsValid store.old.store }
    ensures { IsValid store.new.store }
{
    let mut steps = Steps::<L>::new(blank);
    deliver(alloc, store, &mut steps, 2)?;
    deliver(alloc, store, &mut steps, 3)
}

fn fill(alloc: Global, store: &mut Store) -> Result<(), Fail>
    requires { IsValid store.old.store }
    ensures { IsValid store.new.store }
{
    fill_over::<Brand>(alloc, store, Blank::new(1))
}

fn store(alloc: Global, house: &House) -> Result<Store, Fail>
    requires { IsTrue (is_house house.now) }
    ensures { IfOk result (λ store. IsValid store.store) }
{
    let conf = Conf {
        aliases: Aliases::new(alloc),
        filters: Filters::new(alloc),
    };
    let mut store = Store::opening(alloc, house, conf)?;
    match fill(alloc, &mut store) {
        Ok(()) => Ok(store),
        Err(fail) => {
            drop(store);
            Err(fail)
        }
    }
}

/// What a session sees.
#[derive(Drop)]
pub(crate) struct Desk {
    pub house: House,
    pub store: Store,
    pub stamps: Stamps,
    pub shelf: Shelf,
    ghost sound: { IsTrue (is_house house) },
    ghost valid: { IsValid store.store },
    ghost rising: { IsTrue (is_rising stamps) },
}

fn desk_with(alloc: Global, house: House, stamps: Stamps, shelf: Shelf) -> Result<Desk, Fail>
    requires house { IsTrue (is_house house) }
    requires rising { IsTrue (is_rising stamps) }
{
    match store(alloc, &house) {
        Ok(store) => Ok(Desk {
            house,
            store,
            stamps,
            shelf,
        }),
        Err(fail) => {
            drop(house);
            drop(stamps);
            drop(shelf);
            Err(fail)
        }
    }
}

fn desk_of(alloc: Global, house: House, stamps: Stamps) -> Result<Desk, Fail>
    requires house { IsTrue (is_house house) }
    requires rising { IsTrue (is_rising stamps) }
{
    match shelf(alloc) {
        Ok(shelf) => desk_with(alloc, house, stamps, shelf),
        Err(fail) => {
            drop(house);
            drop(stamps);
            Err(fail)
        }
    }
}

pub(crate) fn new_desk(alloc: Global) -> Result<Desk, Fail> {
    let stamps = stamps(alloc)?;
    match sound_house(alloc) {
        Ok(house) => desk_of(alloc, house, stamps),
        Err(fail) => {
            drop(stamps);
            Err(fail)
        }
    }
}
