//! How the program ends: its exit statuses, and the limits whose line it writes last.
//!
//! Stands on `hmr_types` for the limits of sizes. Keeps: a [`Status`] is its number, and the line of a
//! [`Limit`] says the most that the limit allows. Knows nothing of commands, nor of who writes the line.
#![tactic(auto)]

mod limit;
mod status;

pub use limit::{Limit, RECORD_BYTES};
pub use status::Status;
