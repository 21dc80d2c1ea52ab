// Why an evaluation ends early. A fault is the module's own, and the definitions say which; running out of
// memory says nothing of the module, and is told apart.
ghost use Rattle.std.specs.Prelude.{◌≡◌, IfOk};
ghost use Rattle.module_semantics.specs.Bodies.{State, Progress};
ghost use Rattle.const_eval.specs.Stops.{Leaves};

use hmr_types::EvalFault;
use std::alloc::{AllocError, AllocFailed};

/// Why an evaluation ends early.
#[derive(Debug, Drop)]
pub enum Stop {
    /// The fault of the code.
    Fault(EvalFault),
    /// Memory ran out.
    NoMemory,
}

impl From<EvalFault> for Stop {
    ghost use Rattle.std.specs.Prelude.{◌≡◌};
    ghost use Rattle.const_eval.specs.declared.stop.Stop.TheVariants.{Fault};

    ghost from_gives = { λ fault stop. stop ≡ Fault fault };

    fn from(fault: EvalFault) -> Self {
        Stop::Fault(fault)
    }
}

impl From<AllocError> for Stop {
    ghost use Rattle.std.specs.Prelude.{◌≡◌};
    ghost use Rattle.const_eval.specs.declared.stop.Stop.TheVariants.{NoMemory};

    ghost from_gives = { λ _ stop. stop ≡ NoMemory };

    fn from(_: AllocError) -> Self {
        Stop::NoMemory
    }
}

impl<T: Drop> From<AllocFailed<T>> for Stop {
    ghost use Rattle.std.specs.Prelude.{◌≡◌};
    ghost use Rattle.const_eval.specs.declared.stop.Stop.TheVariants.{NoMemory};

    ghost from_gives = { λ _ stop. stop ≡ NoMemory };

    fn from(_: AllocFailed<T>) -> Self {
        Stop::NoMemory
    }
}

/// The fault that ended the evaluation, None where it came to its end. Running out of memory stays an
/// error.
pub fn fault_of(ended: Result<(), Stop>) -> Result<Option<EvalFault>, AllocError>
    ensures { IfOk result
        (λ fault. (s : State) (meant : Progress) → Leaves ended s meant → meant ≡ (s, fault)) }
{
    match ended {
        Ok(()) => Ok(None),
        Err(Stop::Fault(fault)) => Ok(Some(fault)),
        Err(Stop::NoMemory) => Err(AllocError),
    }
}
