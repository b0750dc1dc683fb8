//! A desk as one whose texts are read, each by its body: what `body` gives.
ghost use Rattle.time_desk.specs.Lending.{LendsOn, desk_told, leads_on, leads_to_itself};

use crate::Desk;
use seal_log::ReadFault;
use std::alloc::Global;
use undo_base::Text;
use undo_outside::Disk;
use verb_core::{Bodies, BodiesFault, Body};

impl<D: Disk> Bodies for Desk<D> {
    ghost told = { desk_told D.told };

    ghost leads = { LendsOn D.told };

    fn text(&mut self, alloc: Global, body: Body) -> Result<Text, BodiesFault> {
        match self.body(alloc, body) {
            Ok(Some(text)) => Ok(text),
            Ok(None) => unreachable!(),
            Err(ReadFault::Disk) => Err(BodiesFault::Failed),
            Err(ReadFault::NoMemory) => Err(BodiesFault::NoMemory),
        }
    }

    ghost leads_to_itself = { leads_to_itself D.told D.tells_truth };

    ghost leads_on = { leads_on D.told };
}
