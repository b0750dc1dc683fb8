//! The rows of the first store.
ghost use Rattle.std.specs.Prelude.{◌≡◌, ◌++◌, IsTrue, IfOk, OnOk, flat_map, length};
ghost use Rattle.verb_core.specs.Mailboxes.{no_mail};
ghost use Rattle.verb_core.specs.Boxes.{box_of};
ghost use Rattle.verb_core.specs.Store.{is_house, users_of};
ghost use Rattle.mail_rows.specs.Fixed.{fixed_of};

use std::alloc::Global;
use undo_base::{Name, NoMemory, User};
use verb_core::{BoxId, Entries, House, Mailbox, inbox_name, lost_found_name};

fn empty_row(alloc: Global, user: User, name: Name) -> (BoxId, Mailbox)
    ensures { result ≡ (box_of user name, no_mail) }
{
    let mailbox = Mailbox {
        next: 1,
        entries: Entries::new(alloc),
    };
    (BoxId { user, name }, mailbox)
}

fn push_fixed(alloc: Global, rows: &mut Vec<(BoxId, Mailbox)>, user: User) -> Result<(), NoMemory>
    ensures { OnOk result (rows.new.items ≡ rows.old.items ++ fixed_of user) }
{
    let inbox = inbox_name(alloc)?;
    rows.push(empty_row(alloc, user, inbox))?;
    let lost = lost_found_name(alloc)?;
    rows.push(empty_row(alloc, user, lost))?;
    Ok(())
}

/// Each user's fixed mailboxes, empty.
#[tactic(auto, using(crate::proofs::FixedRows::fixed_more, crate::proofs::FixedRows::fixed_all, crate::proofs::FixedRows::fixed_end))]
pub fn fixed_rows(alloc: Global, house: &House) -> Result<Vec<(BoxId, Mailbox)>, NoMemory>
    requires { IsTrue (is_house house.now) }
    ensures { IfOk result (λ rows. rows.items ≡ flat_map fixed_of (users_of house.now)) }
{
    let mut rows = Vec::new(alloc);
    for place in 0..house.accounts.len() {
        push_fixed(alloc, &mut rows, User(place as u8))?;
    }
    Ok(rows)
}
