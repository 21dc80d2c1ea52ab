// Why no more jobs were begun.
ghost use Rattle.std.specs.Prelude.{◌≡◌};
ghost use Rattle.crew_plans.specs.declared.cause.Cause.TheVariants.{NoMemory};
ghost use Rattle.crew_plans.specs.Splits.{cause_of_split, cause_outside};

use hmr_base::OutFault;
use hmr_hub::SplitFault;
use std::alloc::AllocError;

/// Why no more jobs were begun. Those that were begun run on.
#[derive(Clone, Copy, Debug, PartialEq, Eq)]
pub enum Cause {
    /// The net gave no end of a connection, and its count of faults rose.
    Fault,
    /// All numbers of passes were given.
    Spent,
    /// There was no memory.
    NoMemory,
}

impl From<AllocError> for Cause {
    ghost from_gives = { λ _ cause. cause ≡ NoMemory };

    fn from(_refused: AllocError) -> Cause {
        Cause::NoMemory
    }
}

impl From<OutFault> for Cause {
    ghost from_gives = { λ fault cause. cause ≡ cause_outside fault };

    fn from(fault: OutFault) -> Cause {
        match fault {
            OutFault::Failed => Cause::Fault,
            OutFault::NoMemory => Cause::NoMemory,
        }
    }
}

impl From<SplitFault> for Cause {
    ghost from_gives = { λ fault cause. cause ≡ cause_of_split fault };

    fn from(fault: SplitFault) -> Cause {
        match fault {
            SplitFault::Spent => Cause::Spent,
        }
    }
}
