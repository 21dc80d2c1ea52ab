//! The clients of the program's own, each in a thread, and what they leave.
//!
//! A [`ClientJob`] is a client that is to make so many requests over a link. [`start_client`] starts it in
//! a thread and [`finish_client`] waits for it; it ends in a [`ClientEnd`]. [`begin_client`] starts one
//! more and makes room for its log, and [`finish_clients`] waits for all that were begun and keeps their
//! logs. Stands on `client_sessions` and `runtime_state` for the session itself, on `jobs` for what counts
//! its start, and on `crew_plans` for where its log goes. Keeps: the link of an end is shut, and given
//! back to the net; the lines, the ending and the messages of a client are those of one session of it; an
//! ending by a fault of the link stands only where the link shows that; each client leaves a log, in the
//! order in which they were begun. A call takes memory only where its result can say that memory ran out
//! or that a start was refused. Knows nothing of workers, of a server's sessions, of its hub, nor of how a
//! client comes by its end of a connection.
#![tactic(auto)]

mod beginning;
mod client;
mod client_threads;
mod finishing;
mod taking;

pub use beginning::begin_client;
pub use client::{ClientEnd, ClientJob, ClientOpening};
pub use client_threads::{ClientPromise, RunningClient, finish_client, start_client};
pub use finishing::finish_clients;
