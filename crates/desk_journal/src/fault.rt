//! Why a desk was not made, and why an act was not done.
ghost use Rattle.std.specs.Prelude.{◌≡◌};

use undo_base::NoMemory;
use undo_outside::Failed;

/// Why a desk was not made. Where it is not `NotEmpty` the disk is to be removed.
#[derive(Clone, Copy)]
pub enum MakeFault {
    /// The disk has bytes. It stays as it was.
    NotEmpty,
    /// A call on the disk failed.
    Disk,
    NoMemory,
}

impl From<NoMemory> for MakeFault {
    ghost use Rattle.desk_journal.specs.declared.fault.MakeFault.TheVariants.{NoMemory as no_memory};

    ghost from_gives = { λ _ e. e ≡ no_memory };

    fn from(_: NoMemory) -> Self {
        MakeFault::NoMemory
    }
}

impl From<Failed> for MakeFault {
    ghost use Rattle.desk_journal.specs.declared.fault.MakeFault.TheVariants.{Disk};

    ghost from_gives = { λ _ e. e ≡ Disk };

    fn from(_: Failed) -> Self {
        MakeFault::Disk
    }
}

/// Why an act was not done.
#[derive(Clone, Copy, PartialEq, Eq)]
pub enum ActFault {
    /// No number is left: the next would be this one.
    Numbers { next: u32 },
    /// A write or a sync failed in this call. The desk is closed from then on.
    Disk,
    NoMemory,
    /// A write or a sync failed earlier.
    Closed,
}
