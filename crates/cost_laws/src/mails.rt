//! The mail of the example, as a desk delivers it.
ghost use Rattle.std.specs.Prelude.{◌≡◌, IfOk};
ghost use Rattle.store_kept.specs.Kept.{new_desk};
ghost use Rattle.cost_laws.specs.Visits.{Delivers, a_conf, a_house, a_mail};

use std::alloc::Global;
use time_desk::Desk;
use undo_outside::Disk;
use verb_core::{Ask, Item, SubmitFault};

/// A new desk is asked to deliver the mail of the example. Where it answers Ok, what the example asks of it holds (`Delivers`).
pub fn deliver_mail<D: Disk>(
    alloc: Global,
    desk: &mut Desk<D>,
    mail: Ask,
) -> Result<Item, SubmitFault>
    requires new { desk.old.kept ≡ new_desk a_house a_conf }
    requires mail { mail ≡ a_mail }
    ensures { IfOk result (λ item. Delivers D.told desk.old desk.new item) }
{
    desk.submit(alloc, 0, None, mail)
}
