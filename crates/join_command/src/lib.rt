//! The command `join`: one client to a server on this machine, whose lines are written as they come.
//!
//! Stands on the sessions of clients (`client_sessions`), on nets (`transport`), on the bytes of lines
//! (`play_text`) and on sinks (`hmr_base`). Keeps: the lines of each answer are written before the next
//! request is sent, and the net takes its end back at every way out. Knows nothing of servers, of words on
//! a command line or of exit statuses.
#![tactic(auto)]

mod connect;
mod plan;
mod session;
mod stop;
mod writing;

pub use connect::join;
pub use plan::JoinPlan;
pub use stop::JoinStop;
