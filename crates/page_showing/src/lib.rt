//! What a page shows of its instances: what the exports of live ones hold, which of them are linked to older
//! instances, and what became of each that was made.
//!
//! Stands on a page's instances and on the definitions of what a client shows. Keeps: what is shown of a page
//! is what the definitions show of the client that it stands for. Nothing changes a page here. Knows nothing of
//! messages, of plans, or of when something is shown.
#![tactic(auto)]

mod showing;

pub use showing::{fate_lines, tell_stale, value_lines};
