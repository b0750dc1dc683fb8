//! A desk on an empty disk.
ghost use Rattle.std.specs.Prelude.{◌≡◌, false, Ok, Err, IsTrue, IfOk, IfErr};
ghost use Rattle.store_kept.specs.Kept.{new_desk};
ghost use Rattle.house_text.specs.Beginning.{can_begin};
ghost use Rattle.desk_journal.specs.Making.{Makes};
ghost use Rattle.desk_journal.specs.Stored.{HoldsTexts};

use crate::{Desk, MakeFault};
use desk_journal::{Journal, make_parts};
use std::alloc::Global;
use undo_outside::Disk;
use verb_core::{Conf, House};

impl<D: Disk> Desk<D> {
    /// Makes a journal of one record on an empty disk, and the desk on which nothing was done yet. A refusal hands the disk
    /// back; but for `NotEmpty` it is to be removed.
    pub fn make(alloc: Global, disk: D, house: House, conf: Conf) -> Result<Desk<D>, (D, MakeFault)>
        requires { IsTrue (can_begin house conf) }
        ensures kept { IfOk result (λ desk. desk.kept ≡ new_desk house conf) }
        ensures open { IfOk result (λ desk. desk.closed ≡ false) }
        ensures made { IfOk result (λ desk. Makes house conf (D.told disk) (D.told desk.disk) (Ok (desk.kept, desk.gate))) }
        ensures texts { (D.told disk).honest → IfOk result (HoldsTexts D.told) }
        ensures why { IfErr result (λ refused. Makes house conf (D.told disk) (D.told refused.0) (Err refused.1)) }
    {
        let mut disk = disk;
        match make_parts(alloc, &mut disk, house, conf) {
            Ok((log, desk)) => {
                desk.stands();
                Ok(Desk {
                    journal: Journal::at(disk, log),
                    desk,
                })
            }
            Err(fault) => Err((disk, fault)),
        }
    }
}
