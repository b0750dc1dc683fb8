//! What a session asks of the desk, and the mailboxes that this takes away.
//!
//! The code reads from the ask which mailboxes it would take away, and takes the memory for that before it asks. They are proved
//! to be those that are gone between the stores.
ghost use Rattle.std.specs.Prelude.{◌≡◌, ℕ, ◌++◌, ◌∷◌, [], false, true, bytes_eq, filter, is_some, length, map, take, OnErr, OnOk};
ghost use Rattle.verb_core.specs.declared.mailbox.BoxId.{BoxId as TheBoxId};
ghost use Rattle.verb_core.specs.Boxes.{box_of, is_at_or_below as is_below};
ghost use Rattle.verb_core.specs.Live.{is_users};
ghost use Rattle.verb_core.specs.Names.{inbox};
ghost use Rattle.mail_loop.specs.Afterwards.{gone_between};
ghost use Rattle.mail_loop.specs.Asked.{HaveSealed};
ghost use Rattle.mail_loop.specs.Session.{is_home};
ghost use Rattle.mail_loop.specs.Took.{Submits, is_refused, taken_by};

use crate::gone::Gone;
use crate::reply::Reply;
use crate::speaks::Speaks;
use box_store::is_at_or_below;
use std::alloc::Global;
use time_desk::Desk;
use time_desk::laws::seals_join;
use undo_base::{Copies, Name, NoMemory, User};
use undo_outside::Disk;
use verb_core::{Ask, BoxId, Item, Refused, SubmitFault};

/// Whether an ask was refused, for whatever cause.
pub fn is_refused(outcome: &Result<Item, SubmitFault>) -> bool
    ensures { result ≡ is_refused outcome.now }
{
    match outcome {
        Ok(_) => false,
        Err(SubmitFault::Refused(_)) => true,
        Err(SubmitFault::Disk) => false,
        Err(SubmitFault::Closed) => false,
    }
}

fn is_inbox(name: &Name) -> bool
    ensures { result ≡ bytes_eq name.now inbox }
{
    name.bytes() == b"INBOX".as_slice()
}

/// Notes a mailbox, if it is the user's of that name or an inferior of it.
fn note_below(
    alloc: Global,
    gone: &mut Gone,
    id: &BoxId,
    user: User,
    name: &Name,
) -> Result<(), NoMemory>
    ensures ok { OnOk result (gone.new ≡ gone.old ++ filter (is_below user name.now) (id.now ∷ [])) }
    ensures err { OnErr result (gone.new ≡ gone.old) }
{
    if !is_at_or_below(id, user, name) {
        return Ok(());
    }
    let id = id.copy(alloc)?;
    gone.push(id)
}

/// Notes the user's mailbox of that name, and its inferiors.
#[tactic(auto, using(crate::proofs::Taken::front_stays))]
fn note_renamed(
    alloc: Global,
    gone: &mut Gone,
    rows: &[(BoxId, u32)],
    user: User,
    name: &Name,
) -> Result<(), NoMemory>
    ensures ok { OnOk result (gone.new ≡ gone.old ++ filter (is_below user name.now) (map (λ (r : TheBoxId × ℕ). r.0) rows.now)) }
    ensures err { OnErr result (take (length gone.old) gone.new ≡ gone.old) }
{
    for row in rows {
        note_below(alloc, gone, &row.0, user, name)?;
    }
    Ok(())
}

/// Notes the user's mailbox of that name.
fn note_deleted(alloc: Global, gone: &mut Gone, user: User, name: &Name) -> Result<(), NoMemory>
    ensures ok { OnOk result (gone.new ≡ gone.old ++ box_of user name.now ∷ []) }
    ensures err { OnErr result (gone.new ≡ gone.old) }
{
    let name = name.copy(alloc)?;
    gone.push(BoxId { user, name })
}

/// Notes the mailboxes that an ask takes away, of those that there are. That of INBOX is there again.
#[tactic(auto, using(crate::proofs::Taken::all_stay))]
fn note(
    alloc: Global,
    gone: &mut Gone,
    rows: &[(BoxId, u32)],
    by: Option<User>,
    ask: &Ask,
) -> Result<(), NoMemory>
    ensures ok { OnOk result (gone.new ≡ gone.old ++ taken_by by ask.now (map (λ (r : TheBoxId × ℕ). r.0) rows.now)) }
    ensures err { OnErr result (take (length gone.old) gone.new ≡ gone.old) }
{
    let Some(user) = by else {
        return Ok(());
    };
    match ask {
        Ask::Delete { mailbox } => note_deleted(alloc, gone, user, mailbox),
        Ask::Rename { mailbox, target } => {
            if is_inbox(mailbox) || target.bytes().is_empty() {
                Ok(())
            } else {
                note_renamed(alloc, gone, rows, user, mailbox)
            }
        }
        _ => Ok(()),
    }
}

/// Asks the desk for who is logged in, with memory for what is to be told to others taken before.
pub fn ask_desk<S: Speaks, D: Disk + Drop>(
    alloc: Global,
    desk: &mut Desk<D>,
    session: &S,
    at: u64,
    ask: Ask,
    reply: &mut Reply,
) -> Result<Item, SubmitFault>
    requires user { is_users ask ≡ is_some (S.speech.user session.now) }
    requires home { is_home S.speech desk.old.kept.house session.now ≡ true }
    requires sealed { desk.old.closed ≡ false }
    ensures did { Submits (HaveSealed D.told desk.old desk.new) at desk.old.kept (S.speech.user session.now) ask desk.new.kept result }
    ensures noted { reply.new ≡ record reply.old { gone = reply.old.gone ++ gone_between desk.old.kept desk.new.kept } }
    ensures home { is_home S.speech desk.new.kept.house session.now ≡ true }
    ensures house { desk.new.kept.house ≡ desk.old.kept.house }
{
    seals_join::<D>();
    desk.stands();
    let by = session.asker();
    let before = reply.gone.len();
    if let Err(NoMemory) = note(alloc, &mut reply.gone, desk.stamps().as_slice(), by, &ask) {
        reply.gone.keep_first(before);
        drop(ask);
        return Err(SubmitFault::Refused(Refused::NoMemory));
    }
    let outcome = desk.submit(alloc, at, by, ask);
    if outcome.is_err() {
        reply.gone.keep_first(before);
    }
    outcome
}
