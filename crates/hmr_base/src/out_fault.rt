// Why a call of the outside is refused.
ghost use Rattle.std.specs.Prelude.{◌≡◌};
ghost use Rattle.hmr_base.specs.declared.out_fault.OutFault.TheVariants as faults;

use crate::Failed;
use std::alloc::AllocError;

/// Why a call of a folder, a net or a link is refused.
#[derive(Clone, Copy, Debug, PartialEq, Eq)]
pub enum OutFault {
    /// The outside failed: the count of faults of what was called rose in this call.
    Failed,
    /// Memory ran out.
    NoMemory,
}

impl From<AllocError> for OutFault {
    ghost from_gives = { λ _ fault. fault ≡ faults.NoMemory };

    fn from(_: AllocError) -> Self {
        OutFault::NoMemory
    }
}

impl From<Failed> for OutFault {
    ghost from_gives = { λ _ fault. fault ≡ faults.Failed };

    fn from(_: Failed) -> Self {
        OutFault::Failed
    }
}
