//! The plan that a page tells the server before its browser links it: which modules the plan makes anew, and
//! where the other instances are that these are linked to.
//!
//! Stands on `hmr_types` and `instance_urls`, for names and the numbers of plans, and on the toolchain's
//! `serde_json`, whose `Value` is read. Keeps: what is read is what a definition reads from the JSON value, so
//! each name is a name and each number in its range. Knows nothing of texts, and of which pages there are.
#![tactic(auto)]

mod fault;
mod members;
mod reading;
mod told_plan;

pub use fault::PlanFault;
pub use reading::read_plan;
pub use told_plan::{Kept, ToldPlan};
