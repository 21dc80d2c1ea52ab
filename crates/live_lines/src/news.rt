// What a live server has to tell, as values.
use crate::{PageNews, StaleBinding};
use hmr_types::{ClientId, ModName, Sequence, Text, TextFault, Ver};

/// Why a file was passed over.
#[derive(Clone, Copy, Debug, PartialEq, Eq)]
pub enum PassedCause {
    /// It has more than 64 MiB.
    FileTooLong,
    /// What the core is told of it would have more than 131,072 bytes.
    TextTooLong,
    /// No module can have its name.
    BadName,
    /// There are 8,192 modules.
    TooManyNames,
    /// All sources together would have more than 32 MiB.
    SourceTotal,
    /// It couldn't be read.
    Unreadable,
    /// It is a link to a file outside of the folder.
    Outside,
}

/// What of a request named another server.
#[derive(Clone, Copy, Debug, PartialEq, Eq)]
pub enum Foreign {
    /// Its host.
    Host,
    /// Its origin.
    Origin,
}

/// Why a hub begins anew.
#[derive(Clone, Copy, Debug, PartialEq, Eq)]
pub enum AnewCause {
    /// Its transcript has no place for a further entry.
    TranscriptFull,
    /// Every version was given to an edit, or every number to a page.
    NumbersSpent,
}

/// What there is to tell.
#[derive(Debug, Drop)]
pub enum News {
    /// A module got this version by an edit.
    Saved {
        name: ModName,
        version: Ver,
    },
    /// A module was removed; the removal has this version.
    Removed {
        name: ModName,
        version: Ver,
    },
    /// The newest text of a module can't be read. `line_text` is the line of the fault, as
    /// [`line_at`](crate::line_at) gives it.
    Fault {
        name: ModName,
        fault: TextFault,
        line_text: Text,
    },
    /// A file of the folder was passed over. `path` may be any text.
    Passed {
        path: Text,
        cause: PassedCause,
    },
    /// Something changed on the page of this number; 0 where the page wasn't taken.
    Page {
        client: ClientId,
        news: PageNews,
    },
    /// The bindings of a page that are stale, as they were asked for.
    Stale {
        client: ClientId,
        bindings: Sequence<StaleBinding>,
    },
    /// A request was refused, since it named another server. `told` is what it named, and may be any text.
    Stranger {
        foreign: Foreign,
        told: Text,
    },
    /// The hub begins anew, and all pages load again.
    Anew {
        cause: AnewCause,
    },
    /// The folder couldn't be looked at (true), or can be again (false).
    Away {
        away: bool,
    },
}
