// Why a server ends before its work is done, and the line of a limit.
ghost use Rattle.std.specs.Prelude.{◌≡◌};
ghost use Rattle.folder_edits.specs.Stops.{limit_text, stop_by, stop_of_edit, stop_of_scan, stop_outside};

use crew_plans::Cause;
use folder_watch::ScanStop;
use hmr_base::WriteFault;
use hub_editor::EditStop;
use std::alloc::{AllocError, AllocFailed};
use transport::OutFault;

/// A limit of a server that was passed.
#[derive(Clone, Copy, Debug, PartialEq, Eq)]
pub enum Limit {
    /// The text of a module has more than 131,072 bytes.
    Text,
    /// There are more than 8,192 modules.
    Names,
    /// The texts have more than 33,554,432 bytes together.
    Sources,
    /// The transcript has 1,000,000 entries, or no place for one more of a message's size.
    Transcript,
    /// All numbers of passes were given.
    Passes,
}

/// Why a server ended before its work was done.
#[derive(Clone, Copy, Debug, PartialEq, Eq)]
pub enum ServeStop {
    /// The output failed.
    Unwritten,
    /// The folder failed.
    Tree,
    /// The net, an end of a connection, or the start of a thread failed.
    Fault,
    /// A limit was passed.
    Limit(Limit),
    /// Memory ran out.
    NoMemory,
}

impl Limit {
    /// The line for the limit, with its LF.
    pub(crate) fn line(self) -> &'static str
        ensures { result.now ≡ limit_text self }
    {
        match self {
            Limit::Text => command_ends::Limit::Text.line(),
            Limit::Names => command_ends::Limit::Names.line(),
            Limit::Sources => command_ends::Limit::Sources.line(),
            Limit::Transcript => command_ends::Limit::Transcript.line(),
            Limit::Passes => command_ends::Limit::Passes.line(),
        }
    }
}

impl From<ScanStop> for ServeStop {
    ghost from_gives = { λ stopped stop. stop ≡ stop_of_scan stopped };

    fn from(stopped: ScanStop) -> ServeStop {
        match stopped {
            ScanStop::TreeFault => ServeStop::Tree,
            ScanStop::TooManyNames => ServeStop::Limit(Limit::Names),
            ScanStop::TextTooLong(_) => ServeStop::Limit(Limit::Text),
            ScanStop::NoMemory => ServeStop::NoMemory,
        }
    }
}

impl From<EditStop> for ServeStop {
    ghost from_gives = { λ stopped stop. stop ≡ stop_of_edit stopped };

    fn from(stopped: EditStop) -> ServeStop {
        match stopped {
            EditStop::Text => ServeStop::Limit(Limit::Text),
            EditStop::Names => ServeStop::Limit(Limit::Names),
            EditStop::Sources => ServeStop::Limit(Limit::Sources),
            EditStop::Full => ServeStop::Limit(Limit::Transcript),
            EditStop::NoMemory => ServeStop::NoMemory,
        }
    }
}

impl From<AllocError> for ServeStop {
    ghost use Rattle.folder_edits.specs.declared.stop.ServeStop.TheVariants.{NoMemory};

    ghost from_gives = { λ _ stop. stop ≡ NoMemory };

    fn from(_refused: AllocError) -> ServeStop {
        ServeStop::NoMemory
    }
}

impl From<OutFault> for ServeStop {
    ghost from_gives = { λ fault stop. stop ≡ stop_outside fault };

    fn from(fault: OutFault) -> ServeStop {
        match fault {
            OutFault::Failed => ServeStop::Fault,
            OutFault::NoMemory => ServeStop::NoMemory,
        }
    }
}

impl From<Cause> for ServeStop {
    ghost from_gives = { λ cause stop. stop ≡ stop_by cause };

    fn from(cause: Cause) -> ServeStop {
        match cause {
            Cause::Fault => ServeStop::Fault,
            Cause::Spent => ServeStop::Limit(Limit::Passes),
            Cause::NoMemory => ServeStop::NoMemory,
        }
    }
}

impl From<WriteFault> for ServeStop {
    ghost use Rattle.folder_edits.specs.declared.stop.ServeStop.TheVariants.{Unwritten};

    ghost from_gives = { λ _ stop. stop ≡ Unwritten };

    fn from(_: WriteFault) -> ServeStop {
        ServeStop::Unwritten
    }
}

impl<T: Drop> From<AllocFailed<T>> for ServeStop {
    ghost use Rattle.folder_edits.specs.declared.stop.ServeStop.TheVariants.{NoMemory};

    ghost from_gives = { λ _ stop. stop ≡ NoMemory };

    fn from(_refused: AllocFailed<T>) -> ServeStop {
        ServeStop::NoMemory
    }
}
