//! The modules of a folder, and what changed between two looks at it.
//!
//! [`scan`] goes through a folder and all below it and gives a [`Listing`]: the names of the modules with
//! their texts. [`edits_between`] gives the edits that turn the sources of one listing into those of
//! another.
//!
//! Stands on `folders` for the folder, and on `hmr_types` for names and limits. Keeps: the names of a
//! listing rise strictly, its texts are within the limit, and where a tree tells its files the listing has
//! exactly the modules among them. A call takes memory only where its result can say that memory ran out.
//! Knows nothing of clients, versions or messages.
#![tactic(auto)]

mod edits;
mod folder;
mod listing;
mod scan_stop;
mod walk;

pub use edits::edits_between;
pub use listing::Listing;
pub use scan_stop::ScanStop;
pub use walk::scan;
