//! A plan under way: a load, a reload or an update for which modules are being fetched.
//!
//! Stands on the modules of a page and on the definitions of the core and of a client. Keeps: a
//! [`Plan`] has for each module the entry that the definitions have, whatever the order in which it was
//! fetched. Only a call that can return `AllocError` takes memory. Knows nothing of who fetches, of
//! messages or of instances.
#![tactic(auto)]

mod apply;
mod firsts;
pub mod laws;
mod numbers;
mod plan;
mod renewal;
mod tasks;
mod told;
mod versions;
mod view;
mod walk;
mod walker;

pub use apply::Applied;
pub use module_graph::NameSet;
pub use numbers::{Numbers, new_names};
pub use plan::Plan;
pub use renewal::{Renewed, put_first, put_in_place};
pub use tasks::Task;
pub use view::made_view;
pub use walker::Walker;
