//! The mail that an item brings, for each of its aims.
ghost use Rattle.std.specs.Prelude.{◌≡◌, ◌++◌, ◌∷◌, ◌≤◌, ◌<◌, [], IfOk, OnOk, length};
ghost use Rattle.std.specs.List.{cons_option};
ghost use Rattle.verb_core.specs.declared.item.Deed.TheVariants.{Act as Acts};
ghost use Rattle.verb_core.specs.Aims.{box_aimed};
ghost use Rattle.verb_core.specs.Mailboxes.{copies};
ghost use Rattle.verb_core.specs.Step.{message as brought};
ghost use Rattle.mail_rows.specs.Changes.{copies_by, copy_by, own_message, puts_by};

use crate::Put;
use crate::key_index::KeyIndex;
use std::alloc::Global;
use undo_base::{Flags, Key, NoMemory, Sequence};
use verb_core::{Act, Aim, Body, BoxId, Deed, EntriesView, Entry, EntryList, Item};

/// The item's own message, before it has a UID.
fn message(item: &Item, index: u16, flags: Flags, at: u64) -> Entry
    ensures { result ≡ brought item.now index flags at }
{
    Entry {
        uid: 0,
        key: Key {
            item: item.number,
            index,
        },
        body: Body {
            origin: item.number,
            rev: item.rev,
        },
        flags,
        at,
    }
}

/// The same of an act.
fn act_message(act: &Act, at: u64) -> Option<(Flags, u64)>
    ensures { result ≡ own_message at (Acts act.now) }
{
    match act {
        Act::Give { .. } => Some((Flags::default(), at)),
        _ => None,
    }
}

/// The flags and the moment of the item's own message, where it brings one.
pub fn own_message(item: &Item) -> Option<(Flags, u64)>
    ensures { result ≡ own_message item.now.at item.now.deed }
{
    match &item.deed {
        Deed::Deliver { .. } => Some((Flags::default(), item.at)),
        Deed::Append { flags, moment, .. } => Some((*flags, *moment)),
        Deed::Act(act) => act_message(act, item.at),
        Deed::Notice { .. } => Some((Flags::default(), item.at)),
        Deed::Fetch { .. } => None,
        Deed::Store { .. } => None,
        Deed::Copy { .. } => None,
        Deed::List { .. } => None,
        Deed::Status { .. } => None,
        Deed::Select { .. } => None,
        Deed::Expunge { .. } => None,
        Deed::Close { .. } => None,
        Deed::Create { .. } => None,
        Deed::Rename { .. } => None,
        Deed::Delete { .. } => None,
    }
}

fn box_aimed(alloc: Global, aim: &Aim) -> Result<BoxId, NoMemory>
    ensures { IfOk result (λ id. id ≡ box_aimed aim.now) }
{
    let name = aim.mailbox.copy(alloc)?;
    Ok(BoxId {
        user: aim.user,
        name,
    })
}

fn put_message(
    alloc: Global,
    item: &Item,
    aim: &Aim,
    flags: Flags,
    at: u64,
) -> Result<Put, NoMemory>
    ensures { IfOk result (λ put. put ≡ record { mailbox = box_aimed aim.now; mail = brought item.now aim.now.index flags at ∷ [] }) }
{
    let mailbox = box_aimed(alloc, aim)?;
    let mut mail = EntryList::new(alloc);
    mail.push(message(item, aim.index, flags, at))?;
    Ok(Put { mailbox, mail })
}

/// The item's own message for each aim.
pub fn message_puts(
    alloc: Global,
    item: &Item,
    aims: &[Aim],
    flags: Flags,
    at: u64,
) -> Result<Sequence<Put>, NoMemory>
    ensures { IfOk result (λ puts. puts ≡ puts_by (λ index. brought item.now index flags at ∷ []) aims.now) }
{
    let mut puts = Sequence::new(alloc);
    for aim in aims {
        puts.push(put_message(alloc, item, aim, flags, at)?)?;
    }
    Ok(puts)
}

/// Adds the entry of a key under the item's key of that place, where there is one.
fn push_copy(
    copies: &mut EntryList,
    index: &KeyIndex<'_>,
    number: u32,
    place: u16,
    key: Key,
) -> Result<(), NoMemory>
    ensures { OnOk result (copies.new ≡ copies.old ++ cons_option (copy_by number index.now (place, key)) []) }
{
    match index.find(key) {
        None => Ok(()),
        Some(entry) => copies.push(Entry {
            key: Key {
                item: number,
                index: place,
            },
            ..entry
        }),
    }
}

fn copies_in(
    alloc: Global,
    index: &KeyIndex<'_>,
    number: u32,
    keys: &[Key],
) -> Result<EntryList, NoMemory>
    requires { length keys.now ≤ 65536 }
    ensures { IfOk result (λ copies. copies ≡ copies_by number index.now keys.now) }
{
    let mut copies = EntryList::new(alloc);
    for (place, key) in keys.iter().enumerate() {
        push_copy(&mut copies, index, number, place as u16, *key)?;
    }
    Ok(copies)
}

fn put_copies(
    alloc: Global,
    index: &KeyIndex<'_>,
    number: u32,
    keys: &[Key],
    aim: &Aim,
) -> Result<Put, NoMemory>
    requires { length keys.now ≤ 65536 }
    ensures { IfOk result (λ put. put ≡ record { mailbox = box_aimed aim.now; mail = copies_by number index.now keys.now }) }
{
    let mailbox = box_aimed(alloc, aim)?;
    let mail = copies_in(alloc, index, number, keys)?;
    Ok(Put { mailbox, mail })
}

fn put_each_copies(
    alloc: Global,
    index: &KeyIndex<'_>,
    number: u32,
    keys: &[Key],
    aims: &[Aim],
) -> Result<Sequence<Put>, NoMemory>
    requires { length keys.now ≤ 65536 }
    ensures { IfOk result (λ puts. puts ≡ puts_by (λ _. copies_by number index.now keys.now) aims.now) }
{
    let mut puts = Sequence::new(alloc);
    for aim in aims {
        puts.push(put_copies(alloc, index, number, keys, aim)?)?;
    }
    Ok(puts)
}

/// The copies of a mailbox's entries for each aim.
pub fn copy_puts(
    alloc: Global,
    entries: &EntriesView<'_>,
    number: u32,
    keys: &[Key],
    aims: &[Aim],
) -> Result<Sequence<Put>, NoMemory>
    requires { length keys.now ≤ 65536 }
    ensures { IfOk result (λ puts. puts ≡ puts_by (λ _. copies number entries.now keys.now) aims.now) }
{
    let index = KeyIndex::of(alloc, keys, entries)?;
    put_each_copies(alloc, &index, number, keys, aims)
}
