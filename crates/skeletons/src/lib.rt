//! Skeletons of real JavaScript: of a scanned text the short text of the module language that has the same
//! imports, accepts and declines, or the same fault; and of a page or a stylesheet one that has a list of
//! imports. The core plans on skeletons, and browsers evaluate the files themselves.
//!
//! A skeleton has no names of exports and imports, so no link is looked at: what `export *` gives hangs on
//! other modules, and only the browser links.
//!
//! Stands on `es_scan`, for the scan, on `file_names`, for where specifiers lead, on `hot_printer`, and on
//! `module_semantics`, whose reading of the skeleton is what the scan tells. Keeps: the skeletons of two
//! changes of a file differ. Knows nothing of files, versions and URLs.
#![tactic(auto)]

mod following;
mod listing;
mod refusal;
mod text;
mod tree;

pub use following::{Followed, modules};
pub use listing::list_skeleton;
pub use text::{skeleton, skeletons_tell_their_stamps};
