// Why the check of a record ends at a line.
ghost use Rattle.std.specs.Prelude.{◌≡◌};
ghost use Rattle.transcript_check.specs.declared.halt.Halt.TheVariants.{At};
ghost use Rattle.record_laws.specs.declared.verdict.Why.TheVariants.{BadLine};

use record_laws::Why;
use std::alloc::{AllocError, AllocFailed};

/// Why the check of a record ends at a line.
#[derive(Clone, Copy)]
pub(crate) enum Halt {
    /// The line of this number is wrong.
    At(u64, Why),
    /// Memory ran out.
    NoMemory,
}

impl From<AllocError> for Halt {
    ghost use Rattle.std.specs.Prelude.{◌≡◌};
    ghost use Rattle.transcript_check.specs.declared.halt.Halt.TheVariants.{NoMemory};

    ghost from_gives = { λ _ halt. halt ≡ NoMemory };

    fn from(_: AllocError) -> Self {
        Halt::NoMemory
    }
}

impl<T: Drop> From<AllocFailed<T>> for Halt {
    ghost use Rattle.std.specs.Prelude.{◌≡◌};
    ghost use Rattle.transcript_check.specs.declared.halt.Halt.TheVariants.{NoMemory};

    ghost from_gives = { λ _ halt. halt ≡ NoMemory };

    fn from(_: AllocFailed<T>) -> Self {
        Halt::NoMemory
    }
}

/// The line of this number can't stand there.
pub(crate) fn bad(line: u64) -> Halt
    ensures { result ≡ At line BadLine }
{
    Halt::At(line, Why::BadLine)
}
