//! Jobs that run beside their caller, what starts them, and what a worker waits at before it goes on.
//!
//! A [`Job`] is worked or given up, and each ends in an `Out`. [`start`] begins a job in a thread of its
//! own and [`finish`] waits for its end. Which starts go on, and how many did, is kept by a [`Spawner`]:
//! [`ThreadSpawner`] lets every start go on, [`CutSpawner`] refuses those that a test wants refused. A
//! worker passes a [`Gate`] between a result and its post.
//!
//! Stands on `hmr_base` for what a fault is. Keeps: a started job is worked, or given up where a fault was
//! counted; a refused one is given up; `begun` counts the starts that went on, by kind. Beside what the
//! work of a job takes, only the start of a thread takes memory; where that runs out, the start is
//! refused. Knows nothing of modules, queues or links, nor of when a thread gets on.
#![tactic(auto)]

mod cut_spawner;
mod gate;
mod job;
mod running;
mod spawner;
mod thread_spawner;
mod threads;

pub use cut_spawner::CutSpawner;
pub use gate::{Gate, OpenGate};
pub use job::Job;
pub use running::{Promised, Running, finish, start};
pub use spawner::{Refused, Spawner, Started};
pub use thread_spawner::ThreadSpawner;
pub use threads::{Thread, finish_thread, start_thread};
