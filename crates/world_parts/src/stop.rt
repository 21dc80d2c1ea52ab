// Why a run ends.
ghost use Rattle.std.specs.Prelude.{◌≡◌};

use std::alloc::{AllocError, AllocFailed};

/// Why a step ends the run. No further step is made after it.
#[derive(Clone, Copy, Debug, PartialEq, Eq)]
pub enum WorldStop {
    /// A client would have made more than 20,000 instances.
    InstancesFull,
    /// Memory ran out.
    NoMemory,
}

impl From<AllocError> for WorldStop {
    ghost use Rattle.world_parts.specs.declared.stop.WorldStop.TheVariants.{NoMemory};

    ghost from_gives = { λ _ stop. stop ≡ NoMemory };

    fn from(_refused: AllocError) -> WorldStop {
        WorldStop::NoMemory
    }
}

impl<T: Drop> From<AllocFailed<T>> for WorldStop {
    ghost use Rattle.world_parts.specs.declared.stop.WorldStop.TheVariants.{NoMemory};

    ghost from_gives = { λ _ stop. stop ≡ NoMemory };

    fn from(_refused: AllocFailed<T>) -> WorldStop {
        WorldStop::NoMemory
    }
}
