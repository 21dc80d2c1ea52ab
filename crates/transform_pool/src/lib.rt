//! Texts that are transformed by several workers.
//!
//! A [`TextJob`] is a text with the version of its edit. [`run_jobs`] transforms a list of them by as many
//! threads as it is asked for. [`work`] is the life of one worker: it takes jobs from a [`Board`], passes a
//! gate with each, and posts the results. A [`JobQueue`] brings jobs to the workers and tells each, by an
//! end mark, that no more will come.
//!
//! Stands on `import_scan` for what a text gives, on `jobs` for gates, on `update_msgs` for how a post is
//! refused, and on the toolchain's `crossbeam_queue`. Keeps: each result is the definition's for its job;
//! results stand, or are posted, in the order of the jobs; in a queue no job stands behind an end mark. A
//! call takes memory only where its result can say that memory ran out. Knows nothing of sources, of the
//! hub behind a board, nor of when a thread gets on.
#![tactic(auto)]

mod board;
mod calls;
mod item;
mod mem_board;
mod parallel;
mod queue;
mod rule;
mod text_job;
mod worker;

pub use board::Board;
pub use mem_board::MemBoard;
pub use parallel::run_jobs;
pub use queue::{JobPass, JobQueue};
pub use text_job::TextJob;
pub use worker::work;
