//! What a desk answers, as one number: that of the item, of the report or of the items in force, or one that stands for a fault.
use paradox::Report;
use seal_log::SealFault;
use time_desk::{ActFault, CycleFault, WithdrawFault};
use verb_core::{Item, SubmitFault};

/// A write or a sync failed.
pub(crate) const DISK: u32 = 4_000_000_000;

/// One failed earlier.
pub(crate) const CLOSED: u32 = 4_000_000_001;

/// There is no cycle 2 to be withdrawn.
pub(crate) const NO_CYCLE_2: u32 = 4_000_000_002;

/// Any other fault.
const OTHER: u32 = 4_000_000_003;

fn submit_fault(fault: SubmitFault) -> u32 {
    match fault {
        SubmitFault::Refused(_) => OTHER,
        SubmitFault::Disk => DISK,
        SubmitFault::Closed => CLOSED,
    }
}

pub(crate) fn of_submit(asked: Result<Item, SubmitFault>) -> u32 {
    match asked {
        Ok(item) => {
            let number = item.number;
            drop(item);
            number
        }
        Err(fault) => submit_fault(fault),
    }
}

fn act_fault(fault: ActFault) -> u32 {
    match fault {
        ActFault::Numbers { .. } => OTHER,
        ActFault::Disk => DISK,
        ActFault::NoMemory => OTHER,
        ActFault::Closed => CLOSED,
    }
}

pub(crate) fn of_act(done: Result<u32, ActFault>) -> u32 {
    match done {
        Ok(number) => number,
        Err(fault) => act_fault(fault),
    }
}

fn cycle_fault(fault: CycleFault) -> u32 {
    match fault {
        CycleFault::Point { .. } => OTHER,
        CycleFault::Numbers { .. } => OTHER,
        CycleFault::Disk => DISK,
        CycleFault::NoMemory => OTHER,
        CycleFault::Closed => CLOSED,
    }
}

pub(crate) fn of_cycle(told: Result<Report, CycleFault>) -> u32 {
    match told {
        Ok(report) => {
            let number = report.cycle;
            drop(report);
            number
        }
        Err(fault) => cycle_fault(fault),
    }
}

fn withdraw_fault(fault: WithdrawFault) -> u32 {
    match fault {
        WithdrawFault::Cycle { given } => {
            if given == 2 {
                return NO_CYCLE_2;
            }
            OTHER
        }
        WithdrawFault::Numbers { .. } => OTHER,
        WithdrawFault::Disk => DISK,
        WithdrawFault::NoMemory => OTHER,
        WithdrawFault::Closed => CLOSED,
    }
}

pub(crate) fn of_withdraw(told: Result<Report, WithdrawFault>) -> u32 {
    match told {
        Ok(report) => {
            let number = report.cycle;
            drop(report);
            number
        }
        Err(fault) => withdraw_fault(fault),
    }
}

fn seal_fault(fault: SealFault) -> u32 {
    match fault {
        SealFault::Disk => DISK,
        SealFault::NoMemory => OTHER,
        SealFault::Closed => CLOSED,
    }
}

pub(crate) fn of_snapshot(taken: Result<u32, SealFault>) -> u32 {
    match taken {
        Ok(items) => items,
        Err(fault) => seal_fault(fault),
    }
}

/// 0 where it is upgraded.
pub(crate) fn of_upgrade(sealed: Result<(), SealFault>) -> u32 {
    match sealed {
        Ok(()) => 0,
        Err(fault) => seal_fault(fault),
    }
}
