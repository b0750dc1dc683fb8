//! Why a cut was not written whole.
ghost use Rattle.std.specs.Prelude.{◌≡◌};
ghost use Rattle.base_cut.specs.Cutting.{IsUnread, fault_of_read, fault_of_write};

use undo_base::NoMemory;
use undo_outside::SinkFault;
use verb_core::BodiesFault;

/// Why a cut was not written whole.
#[derive(Clone, Copy, Debug, PartialEq, Eq)]
pub enum CutFault {
    /// A text was not read.
    Read,
    /// A write failed.
    Sink,
    NoMemory,
}

impl From<NoMemory> for CutFault {
    ghost use Rattle.base_cut.specs.declared.fault.CutFault.TheVariants.{NoMemory as no_memory};

    ghost from_gives = { λ _ e. e ≡ no_memory };

    fn from(_: NoMemory) -> Self {
        CutFault::NoMemory
    }
}

/// Why a cut was not written, where a write was not made.
pub(crate) fn fault_of_write(fault: SinkFault) -> CutFault
    ensures is { result ≡ fault_of_write fault }
    ensures unread { IsUnread result }
{
    match fault {
        SinkFault::Failed => CutFault::Sink,
        SinkFault::NoMemory => CutFault::NoMemory,
    }
}

/// The same where a text was not read.
pub(crate) fn fault_of_read(fault: BodiesFault) -> CutFault
    ensures { result ≡ fault_of_read fault }
{
    match fault {
        BodiesFault::Failed => CutFault::Read,
        BodiesFault::NoMemory => CutFault::NoMemory,
    }
}
