// What a live server is to do, and how it ended.
use doors::OutFault;
use hmr_hub::SplitFault;
use hmr_types::ModName;
use std::alloc::{AllocError, AllocFailed};

/// What a server begins at, and how much it does.
#[derive(Clone, Copy)]
pub struct LivePlan<'a> {
    /// The roots of its hub.
    pub roots: &'a [ModName],
    /// How many workers transform texts, from 1 to 16.
    pub workers: u32,
    /// How many doors there are at each address; 900 at most together.
    pub doors: u32,
    /// Whether the record of the transcript is wanted at the end.
    pub recorded: bool,
}

/// Why a server ended.
#[derive(Clone, Copy, Debug, PartialEq, Eq)]
pub enum LiveEnd {
    /// A key said that it is enough.
    Quit,
    /// A key said that all pages are to be loaded again.
    Reload,
    /// The hub's transcript has no place for one more entry.
    Full,
    /// All numbers of passes were given.
    Spent,
    /// A door was refused, or the start of a thread.
    Fault,
    /// Memory ran out.
    NoMemory,
}

/// How a server ended, and what it leaves.
#[derive(Drop)]
pub struct LiveReport {
    /// Why it ended.
    pub end: LiveEnd,
    /// The record of the transcript, where it was wanted and there was memory for it.
    pub record: Option<Vec<u8>>,
}

impl From<AllocError> for LiveEnd {
    fn from(_refused: AllocError) -> LiveEnd {
        LiveEnd::NoMemory
    }
}

impl<T: Drop> From<AllocFailed<T>> for LiveEnd {
    fn from(_refused: AllocFailed<T>) -> LiveEnd {
        LiveEnd::NoMemory
    }
}

impl From<SplitFault> for LiveEnd {
    fn from(_fault: SplitFault) -> LiveEnd {
        LiveEnd::Spent
    }
}

impl From<OutFault> for LiveEnd {
    fn from(fault: OutFault) -> LiveEnd {
        match fault {
            OutFault::Failed => LiveEnd::Fault,
            OutFault::NoMemory => LiveEnd::NoMemory,
        }
    }
}
