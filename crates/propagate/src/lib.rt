//! How far a change spreads: whether the page has to be loaded again and why, which modules an update
//! replaces, and which modules are told of what.
//!
//! Stands on the modules of a page and on the definitions of the core. Keeps: what is answered is said
//! by paths of edges on the view, never by an order of visiting. Only a call that can return
//! `AllocError` takes memory. Knows nothing of clients, of plans or of versions.
#![tactic(auto)]

mod change;
mod name_lookup;
mod outcome;
mod pairs;
mod passing;
mod reason;
mod replaced;
mod spreading;
mod trails;

pub use outcome::{Reason, Spread};
pub use spreading::spread;
