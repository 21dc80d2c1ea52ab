//! What happens to the instances of a page outside a plan: modules leave the page, and events are heard.
//!
//! Stands on a page's instances and what happens to them, on the model of a client, and on the module language.
//! Keeps: each deed here follows the deed of the same name of the model, and the lines are those that it tells.
//! Only a call that can return `AllocError` takes memory. Knows nothing of messages, of plans, or of which deed
//! is due.
#![tactic(auto)]

mod hear;
mod prune;

pub use hear::{hear_all, hear_event};
pub use prune::{prune_all, prune_instance, run_prune};
