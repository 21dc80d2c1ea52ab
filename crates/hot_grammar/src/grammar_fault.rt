// Why reading stopped early.
use std::alloc::{AllocError, AllocFailed};

/// Why tokens can't be read.
#[derive(Clone, Copy, Debug, PartialEq, Eq)]
pub enum GrammarFault {
    /// The grammar has no text that goes on so: this many tokens are left, the first of which is the
    /// one that can't stand there; where none is left, the text can't end so.
    Unexpected(usize),
    /// What begins here is too deep: this many tokens are left, of which it is the first.
    TooDeep(usize),
    /// Memory ran out: this says nothing of the tokens.
    NoMemory,
}

impl From<AllocError> for GrammarFault {
    ghost use Rattle.std.specs.Prelude.{◌≡◌};
    ghost use Rattle.hot_grammar.specs.declared.grammar_fault.GrammarFault.TheVariants.{NoMemory};

    ghost from_gives = { λ _ fault. fault ≡ NoMemory };

    fn from(_: AllocError) -> Self {
        GrammarFault::NoMemory
    }
}

impl<T: Drop> From<AllocFailed<T>> for GrammarFault {
    ghost use Rattle.std.specs.Prelude.{◌≡◌};
    ghost use Rattle.hot_grammar.specs.declared.grammar_fault.GrammarFault.TheVariants.{NoMemory};

    ghost from_gives = { λ _ fault. fault ≡ NoMemory };

    fn from(_: AllocFailed<T>) -> Self {
        GrammarFault::NoMemory
    }
}
