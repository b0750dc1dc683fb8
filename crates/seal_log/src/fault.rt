//! Why a call on a journal was refused.
ghost use Rattle.std.specs.Prelude.{◌≡◌};

use undo_base::NoMemory;
use undo_outside::Failed;

/// Why payloads were not sealed.
#[derive(Clone, Copy, PartialEq, Eq)]
pub enum SealFault {
    /// A write or a sync failed in this call. The log is closed from then on.
    Disk,
    NoMemory,
    /// A write or a sync through this log failed earlier.
    Closed,
}

/// Why a payload was not read.
#[derive(Clone, Copy, Debug, PartialEq, Eq)]
pub enum ReadFault {
    Disk,
    NoMemory,
}

/// Why a disk was not read as a journal.
#[derive(Clone, Copy, PartialEq, Eq)]
pub enum LoadFault {
    /// The disk is empty, or its first gate is not open.
    NotFormatted,
    /// The frame and the next gate of an open gate are not within the length.
    Damaged { place: u64 },
    Disk,
    NoMemory,
}

impl From<NoMemory> for SealFault {
    ghost use Rattle.seal_log.specs.declared.fault.SealFault.TheVariants.{NoMemory as no_memory};

    ghost from_gives = { λ _ e. e ≡ no_memory };

    fn from(_: NoMemory) -> Self {
        SealFault::NoMemory
    }
}

impl From<NoMemory> for ReadFault {
    ghost use Rattle.seal_log.specs.declared.fault.ReadFault.TheVariants.{NoMemory as no_memory};

    ghost from_gives = { λ _ e. e ≡ no_memory };

    fn from(_: NoMemory) -> Self {
        ReadFault::NoMemory
    }
}

impl From<Failed> for ReadFault {
    ghost use Rattle.seal_log.specs.declared.fault.ReadFault.TheVariants.{Disk};

    ghost from_gives = { λ _ e. e ≡ Disk };

    fn from(_: Failed) -> Self {
        ReadFault::Disk
    }
}

impl From<NoMemory> for LoadFault {
    ghost use Rattle.seal_log.specs.declared.fault.LoadFault.TheVariants.{NoMemory as no_memory};

    ghost from_gives = { λ _ e. e ≡ no_memory };

    fn from(_: NoMemory) -> Self {
        LoadFault::NoMemory
    }
}

impl From<Failed> for LoadFault {
    ghost use Rattle.seal_log.specs.declared.fault.LoadFault.TheVariants.{Disk};

    ghost from_gives = { λ _ e. e ≡ Disk };

    fn from(_: Failed) -> Self {
        LoadFault::Disk
    }
}
