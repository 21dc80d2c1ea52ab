// Why a line, or a whole text, isn't read.
ghost use Rattle.std.specs.Prelude.{◌≡◌};
ghost use Rattle.record_text.specs.Reading.{fault_at};

use std::alloc::{AllocError, AllocFailed};

/// Why bytes aren't read as a record.
#[derive(Clone, Copy, Debug, Eq, PartialEq)]
pub enum RecordFault {
    /// The first line, by its number from 1, that can't stand where it does: it has no right form, or
    /// another line is to come there, or no LF ends it. It is the line behind the last one where the text
    /// ends before its first root, or before the reply to its last event.
    BadLine(u64),
    /// Memory ran out.
    NoMemory,
}

/// Why one line isn't read.
#[derive(Clone, Copy)]
pub enum Refusal {
    /// It has no right form, or may not stand there.
    BadLine,
    /// Memory ran out.
    NoMemory,
}

impl From<AllocError> for Refusal {
    ghost use Rattle.std.specs.Prelude.{◌≡◌};
    ghost use Rattle.record_text.specs.declared.refusal.Refusal.TheVariants.{NoMemory};

    ghost from_gives = { λ _ refusal. refusal ≡ NoMemory };

    fn from(_: AllocError) -> Self {
        Refusal::NoMemory
    }
}

impl<T: Drop> From<AllocFailed<T>> for Refusal {
    ghost use Rattle.std.specs.Prelude.{◌≡◌};
    ghost use Rattle.record_text.specs.declared.refusal.Refusal.TheVariants.{NoMemory};

    ghost from_gives = { λ _ refusal. refusal ≡ NoMemory };

    fn from(_: AllocFailed<T>) -> Self {
        Refusal::NoMemory
    }
}

impl Refusal {
    /// The fault of a record whose line of this number is refused.
    pub(crate) fn at(self, line: u64) -> RecordFault
        ensures { result ≡ fault_at line self }
    {
        match self {
            Refusal::BadLine => RecordFault::BadLine(line),
            Refusal::NoMemory => RecordFault::NoMemory,
        }
    }
}
