//! What a client runtime shows of its instances: its stale edges, the values of exports, and the fates of
//! instances and handlers.
//!
//! Stands on what a runtime keeps (`runtime_state`), and on what a page shows (`page_showing`). Keeps: what is
//! shown is what the definitions show. Nothing changes a runtime here. A call takes memory only where its result
//! can say that memory ran out. Knows nothing of messages, or of when something is shown.
#![tactic(auto)]

mod showing;

pub use showing::{fates, stale, values};
