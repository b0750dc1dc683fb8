//! Why a desk was not started, and why a cycle or a withdrawal was not done.
use mail_cycle::CycleRefused;
use seal_log::{ReadFault, SealFault};
use undo_base::NoMemory;

/// Why a desk was not started.
#[derive(Clone, Copy)]
pub enum StartFault {
    /// The disk is empty, or its first gate is not open.
    NotFormatted,
    /// Behind the open gate at `place` stands no record that can stand there.
    Damaged { place: u64 },
    /// A call on the disk failed.
    Disk,
    NoMemory,
}

/// Why a request for a cycle has no report. But for `NoMemory` the first that holds is told, in this order: `Closed`, `Point`,
/// `Numbers`, `Disk`. A key that a cycle had is answered before all of them. A plan is missing for `Point`, `Disk` or `NoMemory`
/// alone.
#[derive(Clone, Copy, PartialEq, Eq)]
pub enum CycleFault {
    /// The timeline has no item of this number, which is not 0.
    Point { given: u32 },
    /// Too few numbers are left for the cycle, its acts and a notice to each user: the next would be this one.
    Numbers { next: u32 },
    /// A write or a sync failed in this call, and the desk is closed from then on; or a read failed, and it stays open. Of a try
    /// and of a plan it is always a read.
    Disk,
    NoMemory,
    /// A write or a sync failed earlier.
    Closed,
}

/// Why a request for a withdrawal has no report. But for `NoMemory` the first that holds is told, in this order: `Closed`, `Cycle`,
/// `Numbers`, `Disk`. A key that a cycle or a withdrawal had is answered before all of them.
#[derive(Clone, Copy, PartialEq, Eq)]
pub enum WithdrawFault {
    /// No cycle has this number, or a cycle or a withdrawal came after it.
    Cycle { given: u32 },
    /// Too few numbers are left for the withdrawal and a notice to each user: the next would be this one.
    Numbers { next: u32 },
    /// A write or a sync failed in this call, and the desk is closed from then on; or a read failed, and it stays open.
    Disk,
    NoMemory,
    /// A write or a sync failed earlier.
    Closed,
}

/// A payload was not read.
impl From<ReadFault> for StartFault {
    ghost use Rattle.std.specs.Prelude.{◌≡◌};
    ghost use Rattle.time_desk.specs.Standing.{fault_of_read};

    ghost from_gives = { λ fault told. told ≡ fault_of_read fault };

    fn from(fault: ReadFault) -> Self {
        match fault {
            ReadFault::Disk => StartFault::Disk,
            ReadFault::NoMemory => StartFault::NoMemory,
        }
    }
}

/// No memory was found.
impl From<NoMemory> for CycleFault {
    ghost use Rattle.std.specs.Prelude.{◌≡◌};
    ghost use Rattle.time_desk.specs.declared.fault.CycleFault.TheVariants.{NoMemory as no_memory};

    ghost from_gives = { λ _ told. told ≡ no_memory };

    fn from(_: NoMemory) -> Self {
        CycleFault::NoMemory
    }
}

/// A repair was not worked out, or none is due.
impl From<CycleRefused> for CycleFault {
    ghost use Rattle.time_desk.specs.Cycling.{IsTold};

    ghost from_gives = { λ refused told. IsTold refused told };

    fn from(refused: CycleRefused) -> Self {
        match refused {
            CycleRefused::Point { given } => CycleFault::Point { given },
            CycleRefused::Numbers { next } => CycleFault::Numbers { next },
            CycleRefused::Disk => CycleFault::Disk,
            CycleRefused::NoMemory => CycleFault::NoMemory,
        }
    }
}

/// A record was not sealed.
impl From<SealFault> for CycleFault {
    ghost use Rattle.std.specs.Prelude.{◌≡◌};
    ghost use Rattle.time_desk.specs.Cycling.{seal_told};

    ghost from_gives = { λ fault told. told ≡ seal_told fault };

    fn from(fault: SealFault) -> Self {
        match fault {
            SealFault::Disk => CycleFault::Disk,
            SealFault::NoMemory => CycleFault::NoMemory,
            SealFault::Closed => CycleFault::Closed,
        }
    }
}

/// What is said of a cycle, of a withdrawal: it goes back to a cycle in place of a point.
impl From<CycleFault> for WithdrawFault {
    ghost use Rattle.std.specs.Prelude.{◌≡◌};
    ghost use Rattle.time_desk.specs.Withdrawing.{of_cycle};

    ghost from_gives = { λ fault told. fault ≡ of_cycle told };

    fn from(fault: CycleFault) -> Self {
        match fault {
            CycleFault::Point { given } => WithdrawFault::Cycle { given },
            CycleFault::Numbers { next } => WithdrawFault::Numbers { next },
            CycleFault::Disk => WithdrawFault::Disk,
            CycleFault::NoMemory => WithdrawFault::NoMemory,
            CycleFault::Closed => WithdrawFault::Closed,
        }
    }
}
