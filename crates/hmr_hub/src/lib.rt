//! The server's core behind a lock, with the transcript of all that was told to it.
//!
//! Threads tell the core events in turn, each by a [`Pass`] of its own. Each event that is answered is an
//! entry of one transcript, under the number of its pass; an edit is made under number 0 alone. Stands on
//! `server_core` and on `turn_lock`, has its transcript from `transcripts` and the lines of a fresh load
//! from `fresh_loads`. Keeps: the core under the lock is the replay of the transcript beside it, and the
//! transcript is legal; each event is answered in the state that the transcript before it makes; how a pass
//! goes on over many calls stands in [`laws`]. A call takes memory only where its result can say that
//! memory ran out. Knows nothing of messages, of links or of jobs, and nothing of when a thread gets the
//! turn.
#![tactic(auto)]

mod hub;
mod hub_reply;
mod keeping;
pub mod laws;
mod pages;
mod pass;
mod passage;
mod question;
mod recorded_core;
mod report_line;
mod reporting;

pub use pass::{Hub, HubFault, Pass};
pub use report_line::ReportLine;
pub use server_core::NewFault;
pub use turn_lock::SplitFault;
pub use update_msgs::HubStop;
