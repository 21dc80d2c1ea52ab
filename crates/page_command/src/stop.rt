// Why the command stops.
ghost use Rattle.std.specs.Prelude.{◌≡◌};
ghost use Rattle.page_command.specs.Stops.{stop_of_scan};

use command_ends::Limit;
use folder_watch::ScanStop;
use std::alloc::AllocError;

/// Why the command stopped before the end of its requests.
#[derive(Clone, Copy, Debug, PartialEq, Eq)]
pub enum PageStop {
    /// The input failed.
    Unread,
    /// The output failed.
    Unwritten,
    /// The folder failed.
    Tree,
    /// A limit was met: that of a text, of the names or of the sources at the folder, or that of answers.
    Limit(Limit),
    /// Memory ran out.
    NoMemory,
}

impl From<ScanStop> for PageStop {
    ghost from_gives = { λ stopped stop. stop ≡ stop_of_scan stopped };

    fn from(stopped: ScanStop) -> PageStop {
        match stopped {
            ScanStop::TreeFault => PageStop::Tree,
            ScanStop::TooManyNames => PageStop::Limit(Limit::Names),
            ScanStop::TextTooLong(_) => PageStop::Limit(Limit::Text),
            ScanStop::NoMemory => PageStop::NoMemory,
        }
    }
}

impl From<AllocError> for PageStop {
    ghost use Rattle.page_command.specs.declared.stop.PageStop.TheVariants.{NoMemory};

    ghost from_gives = { λ _ stop. stop ≡ NoMemory };

    fn from(_refused: AllocError) -> PageStop {
        PageStop::NoMemory
    }
}
