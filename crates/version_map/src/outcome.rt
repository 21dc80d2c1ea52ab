// What an edit and a result bring.
ghost use Rattle.std.specs.Prelude.{◌≡◌};

use hmr_types::{EditRefusal, TextFault, Ver};
use std::alloc::AllocError;

/// What an edit brought.
#[derive(Clone, Copy, Debug, PartialEq, Eq)]
pub enum EditOutcome {
    /// The text is the name's source, with this version; its job is outstanding.
    Job(Ver),
    /// The text is the current source, or there was none to remove; nothing was counted.
    Same,
    /// The name has no source from this version on.
    Removed(Ver),
}

/// Why an edit is refused. It changes nothing.
#[derive(Clone, Copy, Debug, PartialEq, Eq)]
pub enum EditFault {
    /// A limit stands against it.
    Refused(EditRefusal),
    /// There is no memory for the name.
    NoMemory,
}

/// What a result brought.
#[derive(Clone, Copy, Debug, PartialEq, Eq)]
pub enum Settled {
    /// Its text is served from now on.
    Served,
    /// Its text is no module, with this first fault; what is served stays.
    RefusedText(TextFault),
    /// It isn't the first result of the current source. It changes nothing.
    Late,
}

impl From<EditRefusal> for EditFault {
    ghost use Rattle.version_map.specs.declared.outcome.EditFault.TheVariants.{Refused};

    ghost from_gives = { λ refusal fault. fault ≡ Refused refusal };

    fn from(refusal: EditRefusal) -> EditFault {
        EditFault::Refused(refusal)
    }
}

impl From<AllocError> for EditFault {
    ghost use Rattle.version_map.specs.declared.outcome.EditFault.TheVariants.{NoMemory};

    ghost from_gives = { λ _ fault. fault ≡ NoMemory };

    fn from(_refused: AllocError) -> EditFault {
        EditFault::NoMemory
    }
}
