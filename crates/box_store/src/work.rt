//! Work on rows of mailboxes. Nothing here takes memory.
ghost use Rattle.std.specs.Prelude.{◌≡◌, ◌+◌, ◌≤◌, ◌<◌, ◌||◌, [], ◌∷◌, true, IsTrue, bytes_eq, unwrap_or, option_map, if◌then◌else◌, length, map, drop, vec_len, vec_capacity};
ghost use Rattle.verb_core.specs.Names.{inbox, lost_found, is_fixed as is_fixed_name};
ghost use Rattle.verb_core.specs.Mailboxes.{no_mail as nothing, put_all, with_entries, emptied, expunged, without as left_out};
ghost use Rattle.verb_core.specs.Boxes.{box_of, has_inferior as has_below, is_rising, row_at, mail_at, change_row};
ghost use Rattle.verb_core.specs.Step.{all_created, created, inbox_renamed, left, after_rename, deleted};
ghost use Rattle.mail_rows.specs.Mail.{all_flags_set};
ghost use Rattle.box_store.specs.Effects.{put_each as puts_each, mail_in, renamed_by, grows, HasSpares, rows_added, worked};

use crate::moving::move_all;
use crate::spares::Spares;
use crate::{FlagChange, KeySet, Move, Put, Work};
use mail_rows::inferiors::has_inferior;
use mail_rows::mail::{begun_anew, expunge, put_mail, remove, set_flags, take_entries, without};
use mail_rows::rows::{insert_row, place_of, put_row, take_row};
use std::alloc::Global;
use undo_base::{Key, Name, Names, Sequence, User};
use verb_core::{BoxId, Entries, Entry, Mailbox, Way, is_fixed, is_inbox};

/// Puts mail at the end of a mailbox, where there is one. The spare list at that place has room for all of its entries.
fn put_into(
    rows: &mut Vec<(BoxId, Mailbox)>,
    spares: &mut Spares,
    place: usize,
    user: User,
    name: &[u8],
    mail: &[Entry],
)
    requires rising { IsTrue (is_rising rows.old.items) }
    requires spare { HasSpares ((box_of user name.now, length mail.now) ∷ []) (drop place spares.old) rows.old.items }
    ensures rows { rows.new.items ≡ change_row (box_of user name.now) (put_all mail.now) rows.old.items }
    ensures later { drop (place + 1) spares.new ≡ drop (place + 1) spares.old }
{
    let alloc = *rows.allocator();
    if let Ok(at) = place_of(rows.as_slice(), user, name) {
        let spare = spares.lend(alloc, place);
        let spare = put_mail(alloc, &mut rows[at].1, spare, mail);
        spares.give_back(place, spare);
    }
}

/// Puts mail at the end of mailboxes, one after the other, by the spare lists in their order.
fn put_each(rows: &mut Vec<(BoxId, Mailbox)>, spares: &mut Spares, puts: &[Put])
    requires rising { IsTrue (is_rising rows.old.items) }
    requires spares { HasSpares (map (λ p. (p.mailbox, mail_in puts.now)) puts.now) spares.old rows.old.items }
    ensures { rows.new.items ≡ puts_each puts.now rows.old.items }
{
    for (place, put) in puts.iter().enumerate() {
        let mailbox = &put.mailbox;
        put_into(
            rows,
            spares,
            place,
            mailbox.user,
            mailbox.name.bytes(),
            put.mail.as_slice(),
        );
    }
}

/// Other flags for the entries at places of a mailbox, where there is one.
fn flag(rows: &mut Vec<(BoxId, Mailbox)>, mailbox: &BoxId, flags: &[FlagChange])
    requires { IsTrue (is_rising rows.old.items) }
    ensures { rows.new.items ≡ change_row mailbox.now (with_entries (all_flags_set flags.now)) rows.old.items }
{
    let alloc = *rows.allocator();
    if let Ok(at) = place_of(rows.as_slice(), mailbox.user, mailbox.name.bytes()) {
        set_flags(alloc, &mut rows[at].1, flags);
    }
}

/// The entries of these keys that have `\Deleted` go from a mailbox, where there is one.
fn expunge_in(rows: &mut Vec<(BoxId, Mailbox)>, mailbox: &BoxId, keys: &KeySet)
    requires { IsTrue (is_rising rows.old.items) }
    ensures { rows.new.items ≡ change_row mailbox.now (with_entries (expunged keys.now)) rows.old.items }
{
    let alloc = *rows.allocator();
    if let Ok(at) = place_of(rows.as_slice(), mailbox.user, mailbox.name.bytes()) {
        expunge(alloc, &mut rows[at].1, keys);
    }
}

/// The entries of a key go from a mailbox, where there is one.
fn remove_in(rows: &mut Vec<(BoxId, Mailbox)>, mailbox: &BoxId, key: Key)
    requires { IsTrue (is_rising rows.old.items) }
    ensures { rows.new.items ≡ change_row mailbox.now (with_entries (left_out (key ∷ []))) rows.old.items }
{
    let alloc = *rows.allocator();
    if let Ok(at) = place_of(rows.as_slice(), mailbox.user, mailbox.name.bytes()) {
        remove(alloc, &mut rows[at].1, key);
    }
}

fn no_mail(alloc: Global) -> Mailbox
    ensures { result ≡ nothing }
{
    Mailbox {
        next: 1,
        entries: Entries::new(alloc),
    }
}

/// An empty mailbox, where there is none of its user and name. There is room for one more row.
fn create(rows: &mut Vec<(BoxId, Mailbox)>, mailbox: BoxId)
    requires rising { IsTrue (is_rising rows.old.items) }
    requires room { vec_len rows.old < vec_capacity rows.old }
    ensures rows { rows.new.items ≡ created mailbox rows.old.items }
    ensures len { vec_len rows.new ≤ vec_len rows.old + 1 }
    ensures capacity { vec_capacity rows.old ≤ vec_capacity rows.new }
{
    let alloc = *rows.allocator();
    match place_of(rows.as_slice(), mailbox.user, mailbox.name.bytes()) {
        Ok(_) => {}
        Err(place) => insert_row(rows, place, (mailbox, no_mail(alloc))),
    }
}

/// The same of some mailboxes of a user, one after the other. There is room for all.
#[tactic(auto, using(crate::proofs::WorkLaws::rising_made))]
fn create_all(rows: &mut Vec<(BoxId, Mailbox)>, user: User, mailboxes: Names)
    requires rising { IsTrue (is_rising rows.old.items) }
    requires room { vec_len rows.old + length mailboxes ≤ vec_capacity rows.old }
    ensures rows { rows.new.items ≡ all_created user mailboxes rows.old.items }
    ensures len { vec_len rows.new ≤ vec_len rows.old + length mailboxes }
    ensures capacity { vec_capacity rows.old ≤ vec_capacity rows.new }
{
    for name in mailboxes.into_vec() {
        create(rows, BoxId { user, name });
    }
}

/// Takes the entries of a mailbox, which stays.
fn empty_row(rows: &mut Vec<(BoxId, Mailbox)>, user: User, name: &[u8]) -> Option<Mailbox>
    requires { IsTrue (is_rising rows.old.items) }
    ensures row { result ≡ row_at (box_of user name.now) rows.old.items }
    ensures rows { rows.new.items ≡ change_row (box_of user name.now) emptied rows.old.items }
    ensures len { vec_len rows.new ≡ vec_len rows.old }
    ensures capacity { vec_capacity rows.new ≡ vec_capacity rows.old }
{
    let alloc = *rows.allocator();
    match place_of(rows.as_slice(), user, name) {
        Ok(at) => {
            let mailbox = &mut rows[at].1;
            let next = mailbox.next;
            let entries = take_entries(alloc, mailbox);
            Some(Mailbox { next, entries })
        }
        Err(_) => None,
    }
}

/// Whether a mailbox stays where it is left: INBOX, and one that has an inferior.
fn stays(rows: &[(BoxId, Mailbox)], user: User, source: &[u8]) -> bool
    requires { IsTrue (is_rising rows.now) }
    ensures { result ≡ (bytes_eq source.now inbox || has_below user source.now rows.now) }
{
    is_inbox(source) || has_inferior(rows, user, source)
}

/// Leaves a mailbox: INBOX, and one that has an inferior, is emptied and keeps its next UID, another goes. What was there comes back.
fn leave(rows: &mut Vec<(BoxId, Mailbox)>, user: User, source: &[u8]) -> Option<Mailbox>
    requires { IsTrue (is_rising rows.old.items) }
    ensures row { result ≡ row_at (box_of user source.now) rows.old.items }
    ensures rows { rows.new.items ≡ left user source.now rows.old.items }
    ensures len { vec_len rows.new ≤ vec_len rows.old }
    ensures capacity { vec_capacity rows.new ≡ vec_capacity rows.old }
{
    if stays(rows.as_slice(), user, source) {
        empty_row(rows, user, source)
    } else {
        take_row(rows, user, source)
    }
}

/// The entries of a mailbox that was left, under new UIDs, in a new one.
fn new_from(alloc: Global, mailbox: Option<Mailbox>) -> Mailbox
    ensures { result ≡ put_all (unwrap_or (option_map (λ m. m.entries) mailbox) []) nothing }
{
    match mailbox {
        None => no_mail(alloc),
        Some(mailbox) => begun_anew(mailbox.entries.into_vec()),
    }
}

/// The mail of INBOX moves into a new mailbox (RFC 3501, section 6.3.5). There is room for one more row.
fn rename_inbox(rows: &mut Vec<(BoxId, Mailbox)>, user: User, target: Name)
    requires rising { IsTrue (is_rising rows.old.items) }
    requires room { vec_len rows.old < vec_capacity rows.old }
    ensures { rows.new.items ≡ inbox_renamed user target rows.old.items }
{
    let alloc = *rows.allocator();
    let mailbox = leave(rows, user, b"INBOX");
    let mailbox = new_from(alloc, mailbox);
    put_row(rows, BoxId { user, name: target }, mailbox);
}

/// Mailboxes take other names, or INBOX leaves its mail under one. Of INBOX there is room for one more row.
fn rename(
    rows: &mut Vec<(BoxId, Mailbox)>,
    user: User,
    source: &Name,
    target: Name,
    moves: Sequence<Move>,
)
    requires rising { IsTrue (is_rising rows.old.items) }
    requires room { bytes_eq source.now inbox ≡ true → vec_len rows.old < vec_capacity rows.old }
    ensures { rows.new.items ≡ renamed_by user source.now target moves rows.old.items }
{
    if is_inbox(source.bytes()) {
        rename_inbox(rows, user, target);
    } else {
        move_all(rows, user, moves);
    }
}

/// The same, once the superiors of the target are made that are missing.
fn rename_below(
    rows: &mut Vec<(BoxId, Mailbox)>,
    user: User,
    source: &Name,
    target: Name,
    made: Names,
    moves: Sequence<Move>,
)
    requires rising { IsTrue (is_rising rows.old.items) }
    requires room { vec_len rows.old + rows_added (Work.Rename Way.Plain user source.now target made moves) ≤ vec_capacity rows.old }
    ensures { rows.new.items ≡ renamed_by user source.now target moves (all_created user made rows.old.items) }
{
    create_all(rows, user, made);
    rename(rows, user, source, target, moves);
}

/// A mailbox's entries move into another mailbox. The first spare list has room for all of its entries.
fn merge(
    rows: &mut Vec<(BoxId, Mailbox)>,
    spares: &mut Spares,
    user: User,
    source: &[u8],
    target: &[u8],
)
    requires rising { IsTrue (is_rising rows.old.items) }
    requires spare { HasSpares ((box_of user target.now, length (mail_at (box_of user source.now) rows.old.items)) ∷ []) spares.old rows.old.items }
    ensures { rows.new.items ≡ after_rename Way.Merged user source.now target.now rows.old.items }
{
    match leave(rows, user, source) {
        None => {}
        Some(mailbox) => put_into(rows, spares, 0, user, target, mailbox.entries.as_slice()),
    }
}

fn rename_by(
    rows: &mut Vec<(BoxId, Mailbox)>,
    spares: &mut Spares,
    way: Way,
    user: User,
    source: Name,
    target: Name,
    made: Names,
    moves: Sequence<Move>,
)
    requires rising { IsTrue (is_rising rows.old.items) }
    requires room { vec_len rows.old + rows_added (Work.Rename way user source target made moves) ≤ vec_capacity rows.old }
    requires spares { HasSpares (grows (Work.Rename way user source target made moves) rows.old.items) spares.old rows.old.items }
    ensures { rows.new.items ≡ worked (Work.Rename way user source target made moves) rows.old.items }
{
    match way {
        Way::NoSource => {}
        Way::Plain => rename_below(rows, user, &source, target, made, moves),
        Way::Merged => merge(rows, spares, user, source.bytes(), target.bytes()),
    }
}

/// A mailbox goes with the entries of these keys, and its others move to Lost+Found; one that has an inferior stays. The first spare list has room for
/// all of its entries.
fn delete(
    rows: &mut Vec<(BoxId, Mailbox)>,
    spares: &mut Spares,
    user: User,
    name: &[u8],
    keys: &KeySet,
)
    requires rising { IsTrue (is_rising rows.old.items) }
    requires spare { HasSpares ((box_of user lost_found, length (mail_at (box_of user name.now) rows.old.items)) ∷ []) spares.old rows.old.items }
    ensures { rows.new.items ≡ deleted user name.now keys.now rows.old.items }
{
    if is_fixed(name) {
        return;
    }
    match leave(rows, user, name) {
        None => {}
        Some(mailbox) => {
            let saved = without(mailbox, keys);
            put_into(rows, spares, 0, user, b"Lost+Found", saved.as_slice());
        }
    }
}

/// Does the work. There is room for the rows that it adds, and the spare lists have room for the mailboxes that grow.
pub(crate) fn work_on(rows: &mut Vec<(BoxId, Mailbox)>, spares: &mut Spares, work: Work)
    requires rising { IsTrue (is_rising rows.old.items) }
    requires room { vec_len rows.old + rows_added work ≤ vec_capacity rows.old }
    requires spares { HasSpares (grows work rows.old.items) spares.old rows.old.items }
    ensures { rows.new.items ≡ worked work rows.old.items }
{
    match work {
        Work::Puts(puts) => put_each(rows, spares, puts.as_slice()),
        Work::Flags { mailbox, flags } => flag(rows, &mailbox, flags.as_slice()),
        Work::Expunge { mailbox, keys } => expunge_in(rows, &mailbox, &keys),
        Work::Remove { mailbox, key } => remove_in(rows, &mailbox, key),
        Work::Create { user, mailboxes } => create_all(rows, user, mailboxes),
        Work::Rename {
            way,
            user,
            source,
            target,
            made,
            moves,
        } => rename_by(rows, spares, way, user, source, target, made, moves),
        Work::Delete {
            user,
            mailbox,
            keys,
        } => delete(rows, spares, user, mailbox.bytes(), &keys),
    }
}
