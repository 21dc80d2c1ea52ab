//! The sources of modules by name: the version of each, whether its job is outstanding, served or
//! refused, and what is served.
//!
//! Stands on the vocabulary, on the definitions of the core's sources, and on transforms. Keeps: a
//! [`VersionMap`] has exactly what its edits and results so far give; each text is kept once. A
//! call takes memory only where its result can say that memory ran out. Knows nothing of roots, of
//! graphs or of clients.
#![tactic(auto)]

mod entry;
mod outcome;
mod version_map;

pub use entry::Served;
pub use outcome::{EditFault, EditOutcome, Settled};
pub use version_map::VersionMap;
