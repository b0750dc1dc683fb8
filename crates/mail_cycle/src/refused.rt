//! Why there is no cycle.
use undo_base::NoMemory;
use verb_core::BodiesFault;

/// Why there is no cycle. `Point` has the point that the timeline does not have, `Numbers` the next number, where too few are
/// left for the cycle, its acts and a notice to each user. At `Disk` a text could not be read.
#[derive(Clone, Copy, Debug, PartialEq, Eq)]
pub enum CycleRefused {
    Point { given: u32 },
    Numbers { next: u32 },
    Disk,
    NoMemory,
}

impl From<NoMemory> for CycleRefused {
    ghost use Rattle.std.specs.Prelude.{◌≡◌};
    ghost use Rattle.mail_cycle.specs.declared.refused.CycleRefused.TheVariants.{NoMemory as no_memory};

    ghost from_gives = { λ _ refused. refused ≡ no_memory };

    fn from(_: NoMemory) -> Self {
        CycleRefused::NoMemory
    }
}

/// A repair was not worked out.
impl From<BodiesFault> for CycleRefused {
    ghost use Rattle.std.specs.Prelude.{◌≡◌};
    ghost use Rattle.mail_cycle.specs.Refusing.{refused_by};

    ghost from_gives = { λ fault refused. refused ≡ refused_by fault };

    fn from(fault: BodiesFault) -> Self {
        match fault {
            BodiesFault::Failed => CycleRefused::Disk,
            BodiesFault::NoMemory => CycleRefused::NoMemory,
        }
    }
}
