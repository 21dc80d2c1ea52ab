//! What is promised of every run of the world, in one place, and the event that the core is told in each
//! step.
//!
//! Each law is the clause of a public function whose body is empty or calls other laws; nothing here runs.
//! Stands on the models of the core, the client and the world, and on their laws. Keeps: a law speaks of
//! every list of steps, and has no premise that a run can't meet. Knows nothing of the code of a world,
//! bytes, threads or time.
#![tactic(auto)]

mod events;
mod promises;

pub use events::each_step_tells_its_event;
pub use promises::what_is_promised_of_runs;
