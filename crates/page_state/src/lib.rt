//! The instances of a page, what else their handlers leave for later, and the runtime of the model that a page
//! stands for.
//!
//! Stands on an instance as a page keeps it, on the model of a client, and on the module language. Keeps: a page
//! stands for a runtime of the model by number and by name. Only a call that can return `AllocError` takes
//! memory. Knows nothing of what happens to instances.
#![tactic(auto)]

mod lines;
mod live;
mod looking;
mod page;

pub use lines::{tell_fault, tell_log};
pub use live::LiveNumbers;
pub use page::{Invalidation, Page};
