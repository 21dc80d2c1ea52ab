//! What a client runtime does where its plan goes on: a text comes for it, or all is there and it is applied.
//!
//! Stands on what a runtime keeps (`runtime_state`), on texts that were fetched (`fetched_texts`), and on what a
//! plan does to a page (`plan_changes`). Keeps: a runtime becomes what the definitions make of their client, and
//! its lines are theirs. A call takes memory only where its result can say that memory ran out. Knows nothing of
//! how a plan begins or is given up, or of which message answers what.
#![tactic(auto)]

mod applying;
mod fetching;

pub use applying::apply;
pub use fetching::stage;
