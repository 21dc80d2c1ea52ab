//! The handlers of an instance are run: its disposer, its callbacks on itself, and those on its dependencies.
//!
//! Stands on a page's instances, on the evaluator, on the model of a client, and on the module language. Keeps:
//! each run follows the model's, so the page then stands for what that makes of the runtime, and the lines are
//! those that it tells. Only a call that can return `AllocError` takes memory. Knows nothing of plans, or of
//! why a handler is run.
#![tactic(auto)]

mod callbacks;
mod dep;
mod given;
mod own;
mod run;
mod settling;
mod spending;

pub use callbacks::run_listing;
pub use dep::run_dep;
pub use given::Given;
pub use own::run_own;
pub use run::run_disposer;
pub use settling::settle;
pub use spending::spend;
