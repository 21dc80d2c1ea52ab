//! The modules of a page, and what imports lead to.
//!
//! Stands on the vocabulary and on the definitions of the core. Keeps: a [`View`] has one entry for a name,
//! in order of entering, and contracts see it as the list of its entries; beside them are the importers and
//! the acceptors of each name, which are what modules import and accept, turned round. Only a call that can
//! return `AllocError` takes memory. Knows nothing of changes, of roots or of clients.
#![tactic(auto)]

mod indexes;
mod known;
mod name_set;
mod names;
mod reverse_index;
mod search;
mod view;
mod view_rows;

pub use known::Known;
pub use name_set::NameSet;
pub use names::{copy_name, copy_of, has_name, rising};
pub use search::{Edges, Imports, reached};
pub use view::View;
