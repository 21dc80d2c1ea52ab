//! Laws of the server core, for every list of events: what always holds of the sources and of each
//! client's record, that a refused event changes nothing, that a client with nothing left to do has
//! exactly a fresh load, when a full reload, Idle and Done are answered, that each message can be
//! written, that clients don't disturb one another, and that a batch of changes reloads only where one
//! of them would.
//!
//! Stands on the vocabulary and the core's definitions. Nothing here runs: a law is the clause of a
//! public function with an empty body, and the words that it needs beyond the core's stand in specs/.
//! Keeps: a law speaks of the core's own definitions, never of a copy of them. Knows nothing of
//! messages on a wire, of instances, handlers or values.
#![tactic(auto)]

pub mod examples;
pub mod laws;
