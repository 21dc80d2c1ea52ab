//! What a client runtime does at answers that touch no instance and begin no plan: a plan is given up or has its
//! cause, an invalidation is taken or ignored, a line is told; and whether a plan's instances have room.
//!
//! Stands on what a runtime keeps (`runtime_state`), and on the definitions of a client for the module language.
//! Keeps: a runtime becomes what the definitions make of their client, and its lines are theirs. A call takes
//! memory only where its result can say that memory ran out. Knows nothing of instances, or of texts.
#![tactic(auto)]

mod answering;
mod forcing;
mod room;

pub use answering::{abort, give_cause, idle, invalidated, refused, tell};
pub use room::overfills;
