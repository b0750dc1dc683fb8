//! Opening a store.
ghost use Rattle.std.specs.Prelude.{◌≡◌};
ghost use Rattle.mail_proxy.specs.Opening.{start_line, start_status};
ghost use Rattle.mail_proxy.specs.Plans.{output_of};

use crate::plan::{LastLine, Plan, only_line};
use std::alloc::Global;
use time_desk::StartFault;

/// What is answered where no store was opened.
pub fn unopened(alloc: Global, fault: StartFault) -> Plan
    ensures status { result.status ≡ start_status fault }
    ensures output { output_of result ≡ start_line fault }
{
    match fault {
        StartFault::NotFormatted => only_line(alloc, 3, LastLine::NotStore),
        StartFault::Damaged { place } => only_line(alloc, 10, LastLine::Damaged(place)),
        StartFault::Disk => only_line(alloc, 5, LastLine::DiskFault),
        StartFault::NoMemory => only_line(alloc, 8, LastLine::NoMemory),
    }
}
