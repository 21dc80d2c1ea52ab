//! What a client runtime does where a plan begins: a load, a reload or an update is under way, and its lines are
//! told.
//!
//! Stands on what a runtime keeps (`runtime_state`), on how a plan begins (`client_plan`), and on the definitions
//! of a client. Keeps: a runtime becomes what the definitions make of their client, and its lines are theirs. A
//! call takes memory only where its result can say that memory ran out. Knows nothing of instances, of texts, or
//! of how a plan goes on.
#![tactic(auto)]

mod beginning;

pub use beginning::{connect, start_reload, start_update};
