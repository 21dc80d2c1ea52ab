//! What an update does with the instances that are there: they are replaced, and boundaries are told.
//!
//! It stands on `page_runs` and `page_ends`, on the model of a client, and on the module language. Keeps: each
//! deed here follows the deed of the same name of the model, so the page then stands for what that makes of the
//! runtime, and the lines are those that it tells. Only a call that can return `AllocError` takes memory. Knows
//! nothing of messages, of modules that leave a page, of events, or of which deed is due.
#![tactic(auto)]

mod replace;
mod telling;

pub use replace::replace_all;
pub use telling::tell_all;
