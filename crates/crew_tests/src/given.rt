//! A house with a store, items, and texts that are all empty.
ghost use Rattle.std.specs.Prelude.{◌≡◌, ◌%◌, [], IsTrue, IfOk, true, false};
ghost use Rattle.verb_core.specs.Items.{IsWellFormed, has_form, is_own, keys_in, users_in};
ghost use Rattle.verb_core.specs.Store.{IsValid, is_house};
ghost use Rattle.verb_core.specs.declared.item.Shown.TheVariants.{Nothing as nothing};

use box_store::{RowsRefused, Store};
use std::alloc::Global;
use std::test::Fail;
use stored_items::StoredItem;
use undo_base::{Flags, Key, Keys, Name, Names, Text, User};
use verb_core::{
    Account, Accounts, Aliases, Bodies, BodiesFault, Body, BoxId, Conf, Deed, Entries, Entry,
    Filters, House, Item, Mailbox, Rows, Shown, Way,
};

/// 7 January 2005, 10:00:00.
const AT: u64 = 1105092000;

/// How many users the house has.
pub(crate) const USERS: u8 = 40;

/// Texts that are all empty.
#[derive(Drop)]
pub(crate) struct EmptyTexts;

impl Bodies for EmptyTexts {
    ghost use Rattle.crew_tests.specs.Texts.{all_empty, LeadsAnywhere, to_itself, goes_on};

    ghost told = { λ _. all_empty };

    ghost leads = { LeadsAnywhere };

    fn text(&mut self, alloc: Global, _body: Body) -> Result<Text, BodiesFault> {
        Ok(Text::new(alloc))
    }

    ghost leads_to_itself = { to_itself };

    ghost leads_on = { goes_on };
}

pub(crate) fn name(alloc: Global, bytes: &[u8]) -> Result<Name, Fail> {
    Ok(Name::read(alloc, bytes)?)
}

/// The name of a user: `u00`, `u01` and so on.
fn user_name(alloc: Global, user: u8) -> Result<Name, Fail> {
    name(alloc, &[b'u', b'0' + user / 10 % 10, b'0' + user % 10])
}

fn accounts(alloc: Global) -> Result<Accounts, Fail> {
    let mut accounts = Accounts::new(alloc);
    for user in 0..USERS {
        let account = Account {
            name: user_name(alloc, user)?,
            password: name(alloc, b"p")?,
        };
        accounts.push(account)?;
    }
    Ok(accounts)
}

fn house(alloc: Global) -> Result<House, Fail> {
    let accounts = accounts(alloc)?;
    Ok(House {
        host: name(alloc, b"mail.test")?,
        domains: Names::new(alloc),
        accounts,
        postmaster: User(0),
        first: 2,
    })
}

const NO_FLAGS: Flags = Flags {
    answered: false,
    flagged: false,
    deleted: false,
    seen: false,
    draft: false,
};

/// How many messages a user's INBOX has at first.
pub(crate) fn count_at_first(user: u8) -> u64
    ensures { result ≡ user % 3 }
{
    u64::from(user % 3)
}

fn inbox(alloc: Global, user: u8) -> Result<Mailbox, Fail> {
    let count = count_at_first(user);
    let mut entries = Vec::new(alloc);
    for place in 0..count {
        entries.push(Entry {
            uid: place + 1,
            key: Key {
                item: 1000,
                index: 0,
            },
            body: Body {
                origin: 1000,
                rev: 0,
            },
            flags: NO_FLAGS,
            at: AT,
        })?;
    }
    Ok(Mailbox {
        next: count + 1,
        entries: Entries::from_vec(entries),
    })
}

fn empty(alloc: Global) -> Mailbox {
    Mailbox {
        next: 1,
        entries: Entries::new(alloc),
    }
}

pub(crate) fn box_id(alloc: Global, user: u8, mailbox: &[u8]) -> Result<BoxId, Fail> {
    let name = name(alloc, mailbox)?;
    Ok(BoxId {
        user: User(user),
        name,
    })
}

fn rows(alloc: Global) -> Result<Rows, Fail> {
    let mut rows = Rows::new(alloc);
    for user in 0..USERS {
        rows.push((box_id(alloc, user, b"INBOX")?, inbox(alloc, user)?))?;
        rows.push((box_id(alloc, user, b"Lost+Found")?, empty(alloc)))?;
    }
    Ok(rows)
}

/// A store of mailboxes that have some messages, and its house.
#[derive(Drop)]
pub(crate) struct Given {
    pub(crate) house: House,
    pub(crate) store: Store,
    ghost valid: { IsValid store.store },
    ghost of: { store.store.house ≡ house },
}

fn store_of(alloc: Global, house: &House, rows: Rows) -> Result<Store, RowsRefused>
    requires { IsTrue (is_house house.now) }
    ensures valid { IfOk result (λ store. IsValid store.store) }
    ensures house { IfOk result (λ store. store.store.house ≡ house.now) }
{
    let conf = Conf {
        aliases: Aliases::new(alloc),
        filters: Filters::new(alloc),
    };
    Store::from_rows(alloc, house, conf, rows)
}

fn given_of(alloc: Global, house: House, rows: Rows) -> Result<Given, Fail>
    requires { IsTrue (is_house house) }
{
    match store_of(alloc, &house, rows) {
        Ok(store) => Ok(Given { house, store }),
        Err(_) => {
            drop(house);
            Err(Fail::new("no store"))
        }
    }
}

/// The store at first.
pub(crate) fn at_first(alloc: Global) -> Result<Given, Fail> {
    let rows = rows(alloc)?;
    let house = house(alloc)?;
    if house.is_sound() {
        return given_of(alloc, house, rows);
    }
    Err(Fail::new("the house is not sound"))
}

/// A delivery to a user.
fn delivery(alloc: Global, user: u8) -> Result<Deed, Fail>
    ensures own { IfOk result (λ deed. is_own deed ≡ false) }
    ensures users { IfOk result (λ deed. users_in deed ≡ []) }
    ensures keys { IfOk result (λ deed. keys_in deed ≡ []) }
    ensures form { IfOk result (λ deed. has_form deed nothing ≡ true) }
{
    let mut to = Names::new(alloc);
    to.push(user_name(alloc, user)?)?;
    Ok(Deed::Deliver {
        from: Text::new(alloc),
        to,
        text: Text::new(alloc),
    })
}

/// The number of a user's item: 2 of user 0, and so on.
pub(crate) fn number_of(user: u8) -> u32 {
    2 + u32::from(user)
}

fn item(number: u32, by: Option<User>, deed: Deed, shown: Shown) -> Item
    ensures { result ≡ record { number = number; at = 1105092000; by = by; rev = 0; deed = deed; shown = shown } }
{
    Item {
        number,
        at: AT,
        by,
        rev: 0,
        deed,
        shown,
    }
}

/// The item of a delivery to a user.
pub(crate) fn sent(alloc: Global, house: &House, user: u8) -> Result<StoredItem, Fail>
    ensures { IfOk result (λ item. IsWellFormed house.now item) }
{
    let _house = house;
    let deed = delivery(alloc, user)?;
    Ok(StoredItem::of(alloc, item(number_of(user), None, deed, Shown::Nothing)))
}

/// A user's item that asks how many messages are in INBOX.
pub(crate) fn counted(alloc: Global, house: &House, user: u8) -> Result<StoredItem, Fail>
    ensures { IfOk result (λ item. IsWellFormed house.now item) }
{
    let number = number_of(user);
    let user = User(user);
    if !house.knows(user) {
        return Err(Fail::new("an unknown user"));
    }
    let deed = Deed::Status {
        mailbox: name(alloc, b"INBOX")?,
    };
    Ok(StoredItem::of(alloc, item(number, Some(user), deed, Shown::Count(None))))
}

/// A user's CREATE.
pub(crate) fn created(
    alloc: Global,
    house: &House,
    number: u32,
    user: User,
    mailbox: &[u8],
) -> Result<StoredItem, Fail>
    ensures { IfOk result (λ item. IsWellFormed house.now item) }
{
    if !house.knows(user) {
        return Err(Fail::new("an unknown user"));
    }
    let deed = Deed::Create {
        mailbox: name(alloc, mailbox)?,
    };
    Ok(StoredItem::of(alloc, item(number, Some(user), deed, Shown::Nothing)))
}

/// A user's RENAME.
pub(crate) fn renamed(
    alloc: Global,
    house: &House,
    number: u32,
    user: User,
    mailbox: &[u8],
    target: &[u8],
) -> Result<StoredItem, Fail>
    ensures { IfOk result (λ item. IsWellFormed house.now item) }
{
    if !house.knows(user) {
        return Err(Fail::new("an unknown user"));
    }
    let mailbox = name(alloc, mailbox)?;
    let deed = Deed::Rename {
        mailbox,
        target: name(alloc, target)?,
    };
    Ok(StoredItem::of(
        alloc,
        item(number, Some(user), deed, Shown::Way(Way::Plain)),
    ))
}

/// A user's DELETE, of a mailbox whose messages were all recorded.
pub(crate) fn deleted(
    alloc: Global,
    house: &House,
    number: u32,
    user: User,
    mailbox: &[u8],
) -> Result<StoredItem, Fail>
    ensures { IfOk result (λ item. IsWellFormed house.now item) }
{
    if !house.knows(user) {
        return Err(Fail::new("an unknown user"));
    }
    let deed = Deed::Delete {
        mailbox: name(alloc, mailbox)?,
        keys: Keys::new(alloc),
    };
    let shown = Shown::Moved(Keys::new(alloc));
    Ok(StoredItem::of(alloc, item(number, Some(user), deed, shown)))
}
