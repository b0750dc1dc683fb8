//! The texts that items ask for which are performed again: those of deliveries, and no other.
//!
//! `Deliveries` and `DueDeliveries` lend the desk's texts to what performs items again, and hold the texts of the deliveries
//! among these items alone. A text that the request brings is given as it is. So a read fails only where another is among them,
//! or a snapshot from which to begin (`cycle_reads`). A plan reads so at the last item too, where it is empty.
ghost use Rattle.time_desk.specs.Replaying.{DeliveriesOn, DueDeliveriesOn, deliveries_on, deliveries_to_itself, deliveries_told, due_on, due_to_itself, due_told};

use desk_journal::Reading;
use mail_cycle::Due;
use std::alloc::Global;
use stored_items::StoredItem;
use undo_base::Text;
use undo_outside::Disk;
use verb_core::{Bodies, BodiesFault, Body};

/// The deliveries among items of a desk that is read.
#[derive(Drop)]
pub(crate) struct Deliveries<'a, D: Disk> {
    /// The desk's texts.
    pub(crate) reading: Reading<'a, D>,
    pub(crate) items: &'a [StoredItem],
}

impl<'a, D: Disk> Bodies for Deliveries<'a, D> {
    ghost told = { deliveries_told D.told };

    ghost leads = { DeliveriesOn D.told };

    fn text(&mut self, alloc: Global, body: Body) -> Result<Text, BodiesFault> {
        self.reading.text(alloc, body)
    }

    ghost leads_to_itself = { deliveries_to_itself D.told D.tells_truth };

    ghost leads_on = { deliveries_on D.told };
}

/// The deliveries among the items of a repair that is due.
#[derive(Drop)]
pub(crate) struct DueDeliveries<'a, 'b, D: Disk> {
    /// The desk's texts, and those that the repair brings.
    pub(crate) reading: Reading<'a, D>,
    pub(crate) due: &'a Due<'b>,
}

impl<'a, 'b, D: Disk> Bodies for DueDeliveries<'a, 'b, D> {
    ghost told = { due_told D.told };

    ghost leads = { DueDeliveriesOn D.told };

    fn text(&mut self, alloc: Global, body: Body) -> Result<Text, BodiesFault> {
        self.reading.text(alloc, body)
    }

    ghost leads_to_itself = { due_to_itself D.told D.tells_truth };

    ghost leads_on = { due_on D.told };
}
