//! The jobs of a server that stays up: workers that transform texts, and doors that serve whoever comes, pages
//! by HTTP and their sessions over WebSockets.
//!
//! A [`HubAttendant`] serves the visitors of a door, each session at a desk that is made anew from the one pass
//! of the door. A [`LiveJob`] is a worker or a door; worked or given up, it ends in a [`LiveOut`]. A [`Crew`]
//! begins the jobs of one hub, each in a thread of its own; one whose start is refused is given up, and no more
//! are begun. [`Crew::finish_all`] waits for all of them and gives their passes.
//!
//! Stands on `live_context` for what it is given, on `doors` and `sessions` for what comes, on `live_heads`
//! for the answers to heads, on `live_desk` for desks and boards, and on `jobs` for how a job is started. Keeps:
//! an attendant keeps its hub and the number of its pass over all its visits, each visitor's end is shut, and
//! its pass goes on by just the calls of its sessions; no door that has an end out goes back to the entrance;
//! each pass that was split off for a job comes back. Only a job or an attendant at its work takes memory, and
//! a call that can say that memory ran out. Knows nothing of edits, of folders, of records, nor of sockets.
#![tactic(auto)]

mod attendant;
mod crew;
mod finishing;
mod job;
mod taking;
mod work;

pub use attendant::HubAttendant;
pub use crew::Crew;
pub use job::{LiveDoor, LiveJob, LiveOut, LiveWorker};
