//! What a crew of jobs is to begin, why it begins no more of them, and what its jobs leave.
//!
//! A [`CrewPlan`] says which workers, sessions and clients are to be begun, [`split_off`] gives a job its
//! pass and [`take_shelf`] one of the program's own clients its closures, a [`Cause`] says why no more
//! jobs were begun, and a [`Gathered`] has what those that ended left, for which [`reserve_place`] makes
//! room before. Stands on `hmr_hub` for passes, on `transform_pool` for the queue of the workers and on
//! `sessions` for what a client leaves, and hands on what the crates of a crew need of them. Keeps:
//! the pass of each worker is one of the queue of its plan, and takes; a fault that was noted stays noted.
//! Knows nothing of what a job is, of its thread, or of a connection.
#![tactic(auto)]

mod cause;
mod gathered;
mod plan;
mod room;
mod shelves;
mod splitting;

pub use cause::Cause;
pub use gathered::Gathered;
pub use hmr_hub::{Hub, Pass};
pub use plan::{Clients, CrewPlan, Workers};
pub use room::reserve_place;
pub use sessions::Log;
pub use shelves::take_shelf;
pub use splitting::split_off;
