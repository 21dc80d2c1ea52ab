//! What a client runtime does outside a plan: modules leave its page, and events are fired at it.
//!
//! Stands on what a runtime keeps (`runtime_state`), and on what happens to instances outside a plan
//! (`prunes_and_events`). Keeps: a runtime becomes what the definitions make of their client, and its lines are
//! theirs. A call takes memory only where its result can say that memory ran out. Knows nothing of plans, of
//! links, of bytes or of other clients.
#![tactic(auto)]

mod events;
mod pruning;

pub use events::fire;
pub use pruning::prune;
