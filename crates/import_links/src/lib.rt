//! Which names the text of a module imports from which module.
//!
//! Stands on `hot_parser` for the tree of a text, and on `hmr_types` for what a specifier means. Keeps: the
//! links of a text are the definition's, in the order of its imports; a text that is no module has none. A
//! call takes memory only where its result can say that memory ran out. Knows nothing of exports, of
//! versions, of other modules or of clients.
#![tactic(auto)]

mod link;

pub use link::{Link, links};
