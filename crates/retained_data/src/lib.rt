//! The data that a module leaves for the next instance of its name, and what the run of a handler leaves.
//!
//! It stands on the vocabulary and on the meaning of module texts, whose words for entries it keeps.
//! Keeps: a [`Bag`] has at most 64 keys, all different, in the order in which they came; a step of
//! [`Bags`] at one name leaves the bag of every other. What a run leaves is a value, a [`Ran`]. A call takes memory only where its result can
//! say that memory ran out. Knows nothing of evaluation, of instances or of clients.
#![tactic(auto)]

mod bag;
mod bags;
mod entries;
mod ran;

pub use bag::{Bag, BagFault};
pub use bags::Bags;
pub use entries::{entry_at, put_entry};
pub use ran::Ran;
