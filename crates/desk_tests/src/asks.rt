//! Mail that comes, and what the operator does. Each tells its answer as a number.
ghost use Rattle.std.specs.Prelude.{◌≡◌, IfOk, false};
ghost use Rattle.verb_core.specs.Live.{is_users};
ghost use Rattle.desk_tests.specs.Acts.{NamesTheFirst};

use crate::answers::{of_act, of_snapshot, of_submit, of_upgrade};
use std::alloc::Global;
use std::test::Fail;
use time_desk::Desk;
use undo_base::{Name, Names, Text, User, Users};
use undo_outside::MemDisk;
use verb_core::{Act, Ask};

/// The moment of each item.
const NOW: u64 = 1105092000;

/// A mail for a user.
fn mail(alloc: Global, user: &str) -> Result<Ask, Fail>
    ensures { IfOk result (λ ask. is_users ask ≡ false) }
{
    let from = Text::new(alloc);
    let mut to = Names::new(alloc);
    to.push(Name::read(alloc, user.as_bytes())?)?;
    let text = Text::of(alloc, b"Hi")?;
    Ok(Ask::Deliver { from, to, text })
}

/// An alias of ann alone.
fn alias(alloc: Global) -> Result<Act, Fail>
    ensures { IfOk result NamesTheFirst }
{
    let local = Name::read(alloc, b"sales")?;
    let mut users = Users::new(alloc);
    users.push(User(0))?;
    Ok(Act::SetAlias { local, users })
}

/// Hands a mail for a user to a desk.
pub(crate) fn mailed(alloc: Global, desk: &mut Desk<MemDisk>, user: &str) -> Result<u32, Fail> {
    let ask = mail(alloc, user)?;
    desk.stands();
    Ok(of_submit(desk.submit(alloc, NOW, None, ask)))
}

/// Sets an alias.
pub(crate) fn acted(alloc: Global, desk: &mut Desk<MemDisk>) -> Result<u32, Fail> {
    let act = alias(alloc)?;
    desk.stands();
    Ok(of_act(desk.act(alloc, NOW, act)))
}

pub(crate) fn snapped(alloc: Global, desk: &mut Desk<MemDisk>) -> u32 {
    of_snapshot(desk.snapshot(alloc))
}

pub(crate) fn upgraded(alloc: Global, desk: &mut Desk<MemDisk>) -> u32 {
    of_upgrade(desk.upgrade(alloc, NOW))
}
