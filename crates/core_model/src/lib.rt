//! What the server core promises, as definitions over lists: sources and served versions, the fresh
//! load, what the core keeps of a client, how a change spreads to a reload or an update, and the
//! core's step for every event.
//!
//! Stands on the vocabulary alone. Nothing here runs: each definition stands in specs/, and a law is
//! the clause of a public function with an empty body. Keeps: a definition speaks of lists and of
//! what they say, never of how the code keeps them. Knows nothing of messages on a wire, of
//! instances, handlers or values.
#![tactic(auto)]

pub mod examples;
pub mod laws;
mod refusal;

pub use refusal::Refusal;
