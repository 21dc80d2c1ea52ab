//! The modules of a page that nothing on it imports any more.
//!
//! Stands on the modules of a page and on the definitions of the core. Keeps: a name is kept exactly
//! where a list of imports leads to it from a root, so a cycle that no root reaches goes as a whole.
//! Knows nothing of clients, of versions or of what is sent to them.
#![tactic(auto)]

mod pruning;

pub use pruning::unreached;
