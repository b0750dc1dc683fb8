//! What a user asks now: the item, or why it is refused.
ghost use Rattle.std.specs.Prelude.{◌≡◌, ◌≤◌, ◌∷◌, [], false, IsTrue, IfOk, IfSome, IfNone, map, unwrap_or, if◌then◌else◌};
ghost use Rattle.verb_core.specs.declared.item.Deed.TheVariants as deeds;
ghost use Rattle.verb_core.specs.Mailboxes.{keys_of};
ghost use Rattle.verb_core.specs.Store.{IsValid, is_house};
ghost use Rattle.verb_core.specs.Step.{shown};
ghost use Rattle.verb_core.specs.Live.{mail_of, marked, marked_in, deed_of, asked_item, answered, asker, first_of};
ghost use Rattle.box_store.specs.Refusing.{IsDue, by_names, by_keys, by_room, in_turn};

use crate::Store;
use crate::refusals::{mail_of, marked, marked_in, refused_by_keys, refused_by_names};
use crate::room::refused_by_room;
use mail_rows::shown::shown_by;
use std::alloc::{AllocError, Global};
use undo_base::{END_OF_NUMBERS, Flags, Key, Keys, Name, NoMemory, Text, User};
use verb_core::{Ask, Deed, Entry, Item, Refused, who_acts};

/// The first refusal by keys, by sizes and by what is used up.
fn refused_later(
    alloc: Global,
    store: &Store,
    number: u32,
    by: Option<User>,
    ask: &Ask,
) -> Result<Option<Refused>, NoMemory>
    requires house { IsTrue (is_house store.now.store.house) }
    requires number { number ≤ END_OF_NUMBERS }
    ensures { IfOk result (λ refused. refused ≡ first_of (by_keys store.now.store by ask.now ∷ by_room store.now.store number by ask.now ∷ [])) }
{
    match refused_by_keys(alloc, store, by, ask)? {
        Some(refused) => Ok(Some(refused)),
        None => refused_by_room(alloc, store, number, by, ask),
    }
}

/// The first refusal that holds, want of memory aside.
fn first_refusal(
    alloc: Global,
    store: &Store,
    number: u32,
    by: Option<User>,
    ask: &Ask,
    deep: bool,
) -> Result<Option<Refused>, NoMemory>
    requires house { IsTrue (is_house store.now.store.house) }
    requires number { number ≤ END_OF_NUMBERS }
    ensures { IfOk result (λ refused. refused ≡ in_turn store.now.store number by ask.now deep) }
{
    match refused_by_names(store, by, ask, deep) {
        Some(refused) => Ok(Some(refused)),
        None => refused_later(alloc, store, number, by, ask),
    }
}

/// The first refusal that holds, or want of memory.
fn why_not(
    alloc: Global,
    store: &Store,
    number: u32,
    by: Option<User>,
    ask: &Ask,
    deep: bool,
) -> Option<Refused>
    requires house { IsTrue (is_house store.now.store.house) }
    requires number { number ≤ END_OF_NUMBERS }
    ensures none { IfNone result (in_turn store.now.store number by ask.now deep ≡ None) }
    ensures some { IfSome result (λ refused. IsDue refused (in_turn store.now.store number by ask.now deep)) }
{
    match first_refusal(alloc, store, number, by, ask, deep) {
        Ok(refused) => refused,
        Err(_) => Some(Refused::NoMemory),
    }
}

/// EXPUNGE of the messages that have `\Deleted` now (RFC 3501, section 6.4.3), or of those of them that are in `only`.
fn expunge_of(
    alloc: Global,
    store: &Store,
    by: Option<User>,
    mailbox: Name,
    only: Option<Keys>,
) -> Result<Deed, NoMemory>
    ensures { IfOk result (λ deed. deed ≡ deeds.Expunge mailbox (marked_in only (mail_of store.now.store by mailbox))) }
{
    let keys = marked_in(alloc, mail_of(store, by, &mailbox), only.as_ref())?;
    Ok(Deed::Expunge { mailbox, keys })
}

/// CLOSE, which removes the same as EXPUNGE, or nothing after EXAMINE (RFC 3501, section 6.4.2).
fn close_of(
    alloc: Global,
    store: &Store,
    by: Option<User>,
    mailbox: Name,
    removes: bool,
) -> Result<Deed, NoMemory>
    ensures { IfOk result (λ deed. deed ≡ deeds.Close mailbox (if removes then marked (mail_of store.now.store by mailbox) else [])) }
{
    if !removes {
        return Ok(Deed::Close {
            mailbox,
            keys: Keys::new(alloc),
        });
    }
    let keys = marked(alloc, mail_of(store, by, &mailbox))?;
    Ok(Deed::Close { mailbox, keys })
}

fn all_keys(alloc: Global, entries: &[Entry]) -> Result<Vec<Key>, AllocError>
    ensures { IfOk result (λ keys. keys.items ≡ map (λ e. e.key) entries.now) }
{
    entries.iter().map(|entry| entry.key).collect(alloc)
}

/// DELETE with each message that lies there now.
fn delete_of(
    alloc: Global,
    store: &Store,
    by: Option<User>,
    mailbox: Name,
) -> Result<Deed, NoMemory>
    ensures { IfOk result (λ deed. deed ≡ deeds.Delete mailbox (keys_of (mail_of store.now.store by mailbox))) }
{
    let keys = all_keys(alloc, mail_of(store, by, &mailbox))?;
    Ok(Deed::Delete {
        mailbox,
        keys: Keys::from_vec(keys),
    })
}

/// APPEND at the moment that is given, or else now.
fn append_of(mailbox: Name, flags: Flags, moment: Option<u64>, at: u64, text: Text) -> Deed
    ensures { result ≡ deeds.Append mailbox flags (unwrap_or moment at) text }
{
    let moment = moment.unwrap_or(at);
    Deed::Append {
        mailbox,
        flags,
        moment,
        text,
    }
}

/// The deed that is asked for, with the keys that EXPUNGE, CLOSE and DELETE find.
fn deed_of(
    alloc: Global,
    store: &Store,
    by: Option<User>,
    at: u64,
    ask: Ask,
) -> Result<Deed, NoMemory>
    ensures { IfOk result (λ deed. deed ≡ deed_of store.now.store by at ask) }
{
    match ask {
        Ask::Deliver { from, to, text } => Ok(Deed::Deliver { from, to, text }),
        Ask::Append {
            mailbox,
            flags,
            moment,
            text,
        } => Ok(append_of(mailbox, flags, moment, at, text)),
        Ask::Fetch {
            mailbox,
            keys,
            sets_seen,
            shows_body,
            ..
        } => Ok(Deed::Fetch {
            mailbox,
            keys,
            sets_seen,
            shows_body,
        }),
        Ask::Store {
            mailbox,
            keys,
            how,
            flags,
            ..
        } => Ok(Deed::Store {
            mailbox,
            keys,
            how,
            flags,
        }),
        Ask::Copy {
            mailbox,
            keys,
            target,
            ..
        } => Ok(Deed::Copy {
            mailbox,
            keys,
            target,
        }),
        Ask::List { pattern } => Ok(Deed::List { pattern }),
        Ask::Status { mailbox } => Ok(Deed::Status { mailbox }),
        Ask::Select { mailbox } => Ok(Deed::Select { mailbox }),
        Ask::Expunge { mailbox, only } => expunge_of(alloc, store, by, mailbox, only),
        Ask::Close { mailbox, removes } => close_of(alloc, store, by, mailbox, removes),
        Ask::Create { mailbox } => Ok(Deed::Create { mailbox }),
        Ask::Rename { mailbox, target } => Ok(Deed::Rename { mailbox, target }),
        Ask::Delete { mailbox } => delete_of(alloc, store, by, mailbox),
    }
}

/// The item of a deed, with its answer.
fn with_answer(
    alloc: Global,
    store: &Store,
    number: u32,
    at: u64,
    by: Option<User>,
    deed: Deed,
) -> Result<Item, NoMemory>
    ensures { IfOk result (λ item. item ≡ record { number = number; at = at; by = by; rev = 0; deed = deed; shown = shown false (asker by) deed store.now.store.boxes }) }
{
    match shown_by(alloc, store.rows.as_slice(), false, who_acts(by), &deed) {
        Ok(shown) => Ok(Item {
            number,
            at,
            by,
            rev: 0,
            deed,
            shown,
        }),
        Err(_) => {
            drop(deed);
            Err(NoMemory)
        }
    }
}

/// The item that is asked for, with its answer.
fn item_of(
    alloc: Global,
    store: &Store,
    number: u32,
    at: u64,
    by: Option<User>,
    ask: Ask,
    deep: bool,
) -> Result<Item, NoMemory>
    requires valid { IsValid store.now.store }
    requires names { by_names store.now.store by ask deep ≡ None }
    ensures { IfOk result (λ item. item ≡ answered store.now.store (asked_item store.now.store number at by ask)) }
{
    let deed = deed_of(alloc, store, by, at, ask)?;
    with_answer(alloc, store, number, at, by, deed)
}

impl Store {
    ghost use Rattle.std.specs.Prelude.{◌↔◌, IsSome, IfErr};
    ghost use Rattle.std.specs.List.{list_all, cons_option};
    ghost use Rattle.verb_core.specs.Store.{is_known};
    ghost use Rattle.verb_core.specs.Items.{IsWellFormed};
    ghost use Rattle.verb_core.specs.Live.{live, is_users};
    ghost use Rattle.box_store.specs.Refusing.{IsRefusal};

    /// What a user asks now: the item with its answer, or the first refusal that holds. The asker is a known user, or
    /// nobody for a delivery. Names may have superiors where the store is deep. Nothing is done yet.
    pub fn live(
        &self,
        alloc: Global,
        number: u32,
        at: u64,
        by: Option<User>,
        ask: Ask,
        deep: bool,
    ) -> Result<Item, Refused>
        requires valid { IsValid self.now.store }
        requires number { number ≤ END_OF_NUMBERS }
        requires by { IsSome by ↔ IsTrue (is_users ask) }
        requires known { IsTrue (list_all (is_known self.now.store.house) (cons_option by [])) }
        ensures item { IfOk result (λ item. live self.now.store number at by ask deep ≡ Ok item) }
        ensures refused { IfErr result (λ refused. IsRefusal refused (live self.now.store number at by ask deep)) }
        ensures formed { IfOk result (λ item. IsWellFormed self.now.store.house item) }
    {
        match why_not(alloc, self, number, by, &ask, deep) {
            Some(refused) => {
                drop(ask);
                Err(refused)
            }
            None => match item_of(alloc, self, number, at, by, ask, deep) {
                Ok(item) => Ok(item),
                Err(_) => Err(Refused::NoMemory),
            },
        }
    }
}
