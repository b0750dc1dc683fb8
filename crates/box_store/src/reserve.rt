//! Room for an effect, so that applying it takes no memory.
//!
//! More than 4,294,967,295 entries in a mailbox, or UIDs up to the last of 64 bits, count as want of memory when room is made.
ghost use Rattle.std.specs.Prelude.{◌≡◌, ◌+◌, ◌-◌, slice_index, ◌≤◌, ◌<◌, ◌^◌, [], ◌∷◌, Option, Some, None, true, IsTrue, IfOk, OnOk, bytes_eq, if◌then◌else◌, length, map, take, drop, vec_len, vec_capacity};
ghost use Rattle.verb_core.specs.Names.{inbox, lost_found};
ghost use Rattle.verb_core.specs.Boxes.{box_of, is_rising, mail_at};
ghost use Rattle.verb_core.specs.declared.item.Act.{Act};
ghost use Rattle.box_store.specs.Effects.{mail_in, grows, HasSpares, rows_added as are_added, conf_by};

use crate::spares::Spares;
use crate::{Effect, Put, Store, Work};
use mail_rows::HeldConf;
use mail_rows::mail::take_entries;
use mail_rows::rows::place_of;
use std::alloc::Global;
use undo_base::{Name, Names, NoMemory, User};
use verb_core::{Act, BoxId, Conf, Entries, House, Mailbox, Way, is_inbox};

/// How many entries a mailbox has at most.
const MOST_ENTRIES: usize = 4_294_967_295;

/// Makes the list of a mailbox ready for so many entries more.
fn grow(alloc: Global, mailbox: &mut Mailbox, count: usize) -> Result<(), NoMemory>
    ensures { mailbox.new ≡ mailbox.old }
{
    let (mut list, in_order) = take_entries(alloc, mailbox).into_parts();
    let grown = list.reserve(count);
    mailbox.entries = Entries::from_parts(list, in_order);
    grown?;
    Ok(())
}

/// Makes the spare list at a place ready for a mailbox that gets so many entries, if its entries and UIDs may be so many.
fn make_ready(
    alloc: Global,
    mailbox: &mut Mailbox,
    spares: &mut Spares,
    place: usize,
    count: usize,
) -> Result<(), NoMemory>
    requires { place ≤ length spares.old }
    ensures mailbox { mailbox.new ≡ mailbox.old }
    ensures there { OnOk result (place < length spares.new) }
    ensures room { OnOk result (length mailbox.old.entries + count ≤ slice_index spares.new place) }
    ensures uids { OnOk result (mailbox.old.next + count < 2 ^ 64) }
    ensures earlier { OnOk result (take place spares.new ≡ take place spares.old) }
{
    let held = mailbox.entries.len();
    if MOST_ENTRIES < held || MOST_ENTRIES - held < count {
        return Err(NoMemory);
    }
    if u64::MAX - mailbox.next < count as u64 {
        return Err(NoMemory);
    }
    grow(alloc, mailbox, count)?;
    spares.make_room(alloc, place, held + count)?;
    Ok(())
}

/// Makes a spare list ready for no mailbox.
fn make_spare(
    alloc: Global,
    spares: &mut Spares,
    place: usize,
    count: usize,
) -> Result<(), NoMemory>
    requires { place ≤ length spares.old }
    ensures there { OnOk result (place < length spares.new) }
    ensures small { OnOk result (count < 2 ^ 32) }
    ensures room { OnOk result (count ≤ slice_index spares.new place) }
    ensures earlier { OnOk result (take place spares.new ≡ take place spares.old) }
{
    if MOST_ENTRIES < count {
        return Err(NoMemory);
    }
    spares.make_room(alloc, place, count)?;
    Ok(())
}

/// Makes the spare list at a place ready for a mailbox that gets so many entries.
fn reserve_spare(
    alloc: Global,
    rows: &mut Vec<(BoxId, Mailbox)>,
    spares: &mut Spares,
    place: usize,
    user: User,
    name: &[u8],
    count: usize,
) -> Result<(), NoMemory>
    requires rising { IsTrue (is_rising rows.old.items) }
    requires place { place ≤ length spares.old }
    ensures rows { rows.new.items ≡ rows.old.items }
    ensures len { vec_len rows.new ≡ vec_len rows.old }
    ensures capacity { vec_capacity rows.new ≡ vec_capacity rows.old }
    ensures ready { OnOk result (HasSpares ((box_of user name.now, count) ∷ []) (drop place spares.new) rows.old.items) }
    ensures earlier { OnOk result (take place spares.new ≡ take place spares.old) }
{
    match place_of(rows.as_slice(), user, name) {
        Ok(at) => {
            make_ready(alloc, &mut rows[at].1, spares, place, count)?;
            Ok(())
        }
        Err(_) => {
            make_spare(alloc, spares, place, count)?;
            Ok(())
        }
    }
}

/// How many entries are put.
fn mail_count(puts: &[Put]) -> Result<usize, NoMemory>
    ensures { IfOk result (λ count. count ≡ mail_in puts.now) }
{
    let mut count: usize = 0;
    for put in puts {
        match count.checked_add(put.mail.len()) {
            None => return Err(NoMemory),
            Some(sum) => count = sum,
        }
    }
    Ok(count)
}

fn reserve_puts(
    alloc: Global,
    rows: &mut Vec<(BoxId, Mailbox)>,
    spares: &mut Spares,
    puts: &[Put],
) -> Result<(), NoMemory>
    requires { IsTrue (is_rising rows.old.items) }
    ensures rows { rows.new.items ≡ rows.old.items }
    ensures len { vec_len rows.new ≡ vec_len rows.old }
    ensures capacity { vec_capacity rows.new ≡ vec_capacity rows.old }
    ensures ready { OnOk result (HasSpares (map (λ p. (p.mailbox, mail_in puts.now)) puts.now) spares.new rows.old.items) }
{
    let count = mail_count(puts)?;
    for (place, put) in puts.iter().enumerate() {
        let mailbox = &put.mailbox;
        reserve_spare(
            alloc,
            rows,
            spares,
            place,
            mailbox.user,
            mailbox.name.bytes(),
            count,
        )?;
    }
    Ok(())
}

/// How many entries a mailbox has.
fn held(rows: &[(BoxId, Mailbox)], user: User, name: &[u8]) -> usize
    requires { IsTrue (is_rising rows.now) }
    ensures { result ≡ length (mail_at (box_of user name.now) rows.now) }
{
    match place_of(rows, user, name) {
        Ok(at) => rows[at].1.entries.len(),
        Err(_) => 0,
    }
}

/// Makes the first spare list ready for a mailbox that gets the entries of another.
fn reserve_merge(
    alloc: Global,
    rows: &mut Vec<(BoxId, Mailbox)>,
    spares: &mut Spares,
    user: User,
    source: &[u8],
    target: &[u8],
) -> Result<(), NoMemory>
    requires { IsTrue (is_rising rows.old.items) }
    ensures rows { rows.new.items ≡ rows.old.items }
    ensures len { vec_len rows.new ≡ vec_len rows.old }
    ensures capacity { vec_capacity rows.new ≡ vec_capacity rows.old }
    ensures ready { OnOk result (HasSpares ((box_of user target.now, length (mail_at (box_of user source.now) rows.old.items)) ∷ []) spares.new rows.old.items) }
{
    let count = held(rows.as_slice(), user, source);
    reserve_spare(alloc, rows, spares, 0, user, target, count)?;
    Ok(())
}

/// Makes the spare lists ready for the mailboxes that grow.
fn reserve_mail(
    alloc: Global,
    rows: &mut Vec<(BoxId, Mailbox)>,
    spares: &mut Spares,
    work: &Work,
) -> Result<(), NoMemory>
    requires { IsTrue (is_rising rows.old.items) }
    ensures rows { rows.new.items ≡ rows.old.items }
    ensures len { vec_len rows.new ≡ vec_len rows.old }
    ensures capacity { vec_capacity rows.new ≡ vec_capacity rows.old }
    ensures ready { OnOk result (HasSpares (grows work.now rows.old.items) spares.new rows.old.items) }
{
    match work {
        Work::Puts(puts) => reserve_puts(alloc, rows, spares, puts.as_slice()),
        Work::Rename {
            way,
            user,
            source,
            target,
            made: _,
            moves: _,
        } => match way {
            Way::Merged => {
                reserve_merge(alloc, rows, spares, *user, source.bytes(), target.bytes())
            }
            Way::Plain => Ok(()),
            Way::NoSource => Ok(()),
        },
        Work::Delete {
            user,
            mailbox,
            keys: _,
        } => reserve_merge(alloc, rows, spares, *user, mailbox.bytes(), b"Lost+Found"),
        Work::Flags {
            mailbox: _,
            flags: _,
        } => Ok(()),
        Work::Expunge {
            mailbox: _,
            keys: _,
        } => Ok(()),
        Work::Remove { mailbox: _, key: _ } => Ok(()),
        Work::Create {
            user: _,
            mailboxes: _,
        } => Ok(()),
    }
}

/// How many rows a RENAME adds at most: the superiors that it makes and, of INBOX, its target.
fn rows_renamed(source: &Name, made: &Names) -> Result<usize, NoMemory>
    ensures { IfOk result (λ count. count ≡ length made.now + (if bytes_eq source.now inbox then 1 else 0)) }
{
    if !is_inbox(source.bytes()) {
        return Ok(made.len());
    }
    match made.len().checked_add(1) {
        Some(count) => Ok(count),
        None => Err(NoMemory),
    }
}

/// How many rows are added at most.
fn rows_added(work: &Work) -> Result<usize, NoMemory>
    ensures { IfOk result (λ count. count ≡ are_added work.now) }
{
    match work {
        Work::Create { user: _, mailboxes } => Ok(mailboxes.len()),
        Work::Rename {
            way,
            user: _,
            source,
            target: _,
            made,
            moves: _,
        } => match way {
            Way::Plain => rows_renamed(source, made),
            Way::Merged => Ok(0),
            Way::NoSource => Ok(0),
        },
        Work::Puts(_) => Ok(0),
        Work::Flags {
            mailbox: _,
            flags: _,
        } => Ok(0),
        Work::Expunge {
            mailbox: _,
            keys: _,
        } => Ok(0),
        Work::Remove { mailbox: _, key: _ } => Ok(0),
        Work::Delete {
            user: _,
            mailbox: _,
            keys: _,
        } => Ok(0),
    }
}

/// Makes ready what an act changes in the configuration, where there is one.
fn reserve_conf(
    alloc: Global,
    house: &House,
    conf: &mut HeldConf,
    act: &Option<Act>,
) -> Result<(), NoMemory>
    ensures conf { conf.new.conf ≡ conf.old.conf }
    ensures ready { OnOk result ((act' : Act) → act.now ≡ Some act' → conf.new.ready ≡ Some (conf_by house.now act.now conf.old.conf)) }
{
    match act {
        None => Ok(()),
        Some(act) => conf.make_ready(alloc, house, act),
    }
}

impl Store {
    ghost use Rattle.box_store.specs.Effects.{IsReady};

    /// Makes room for an effect, so that applying it takes no memory. UIDs or entries that would be too many count as
    /// want of memory.
    pub fn reserve(&mut self, alloc: Global, effect: &Effect) -> Result<(), NoMemory>
        ensures store { self.new.store ≡ self.old.store }
        ensures ok { OnOk result (IsReady effect.now self.new) }
    {
        self.rows.reserve(rows_added(&effect.work)?)?;
        reserve_mail(alloc, &mut self.rows, &mut self.spares, &effect.work)?;
        reserve_conf(alloc, &self.house, &mut self.conf, &effect.act)?;
        Ok(())
    }
}
