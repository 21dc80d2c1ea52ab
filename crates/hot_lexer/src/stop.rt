// Why reading stopped early. Inside the crate running out of memory is told apart from the faults
// of the text, so that a fault always speaks of the text; `lex` tells both by one `LexFault`.
ghost use Rattle.std.specs.Prelude.{◌≡◌, ◌^◌, ◌<◌};
ghost use Rattle.module_semantics.specs.Lexing.{lex_fault};
ghost use Rattle.hot_lexer.specs.declared.stop.Stop.TheVariants as stops;

use module_semantics::{LexFault, LexKind};
use std::alloc::{AllocError, AllocFailed};

#[derive(Debug, Drop)]
pub(crate) enum Stop {
    Fault(LexFault),
    NoMemory,
}

impl From<AllocError> for Stop {
    ghost use Rattle.std.specs.Prelude.{◌≡◌};
    ghost use Rattle.hot_lexer.specs.declared.stop.Stop.TheVariants.{NoMemory};

    ghost from_gives = { λ _ e. e ≡ NoMemory };

    fn from(_: AllocError) -> Self {
        Stop::NoMemory
    }
}

impl<T: Drop> From<AllocFailed<T>> for Stop {
    ghost use Rattle.std.specs.Prelude.{◌≡◌};
    ghost use Rattle.hot_lexer.specs.declared.stop.Stop.TheVariants.{NoMemory};

    ghost from_gives = { λ _ e. e ≡ NoMemory };

    fn from(_: AllocFailed<T>) -> Self {
        Stop::NoMemory
    }
}

impl From<Stop> for LexFault {
    ghost use Rattle.std.specs.Prelude.{◌≡◌};
    ghost use Rattle.hot_lexer.specs.Stop.{fault_of};

    ghost from_gives = { λ stop f. f ≡ fault_of stop };

    fn from(stop: Stop) -> Self {
        match stop {
            Stop::Fault(fault) => fault,
            Stop::NoMemory => LexFault {
                at: 0,
                kind: LexKind::NoMemory,
            },
        }
    }
}

/// The fault of this kind at a place.
pub(crate) fn fault(kind: LexKind, at: usize) -> Stop
    requires { at < 2 ^ 32 }
    ensures { result ≡ stops.Fault (lex_fault kind at) }
{
    Stop::Fault(LexFault {
        at: at as u32,
        kind,
    })
}
