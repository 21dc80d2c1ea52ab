//! A crew of a server: its workers, its sessions and the program's own clients, from their start to what they
//! leave.
//!
//! A [`ServeJob`] is a worker or a session; worked or given up, it ends in a [`ServeOut`]. A [`Crew`] has the
//! jobs of one hub that were begun, each in a thread of its own, and beside them the program's own clients.
//! [`begin_all`] begins the workers, then pairs of a session and a client of the program's own at the two ends
//! of a connection, then sessions with clients from outside. A job whose start is refused is given up, and a
//! fault is noted; the others run on. [`finish_all`] waits for all of them at the end, and gives what they
//! left: the passes, the logs of clients, and what went wrong. Stands on `session_desks` for desks and boards,
//! on `transform_pool` and `sessions` for the work itself, on `client_jobs` for clients, on `crew_plans` for
//! what is to begin, for passes, for what is left and the room for it, on `jobs` for what a job is and how it
//! is started, and on `transport` for connections.
//!
//! Keeps: an Out is of its job's kind, with the job's hub and passes; its link is shut; an ending by a
//! fault of the link or by a full transcript stands in it only where the link, or the desk or board, shows
//! that; the hub was told that the client of a session is gone, and a job that was given up told it
//! nothing. Each pass that was split off for a job comes back, and each of the program's own clients leaves a
//! log; a fault is noted only where the count of the net or of the spawner rose; each end of a connection is
//! shut and given back; and there is room for what a job leaves before it is started. A call takes memory
//! only where its result can say that memory ran out or that a start was refused; beside what the jobs take,
//! only [`begin_all`] takes memory. Knows nothing of edits, folders or reports.
#![tactic(auto)]

mod beginning;
mod crew;
mod ending;
mod ends;
mod finishing;
mod job;
mod laws;
mod pairs;
mod starting;
mod taking;
mod work;

pub use beginning::begin_all;
pub use crew::Crew;
pub use ending::finish_all;
pub use job::{ServeJob, ServeOut, SessionJob, WorkerJob};
pub use laws::an_out_is_of_its_jobs_hub;
