//! What a plan for which all is fetched does to a page: it is found before anything changes, and then carried
//! out on the page's instances.
//!
//! Stands on what a page keeps of a plan under way, on a page's deeds, and on the definitions of a client for
//! the module language. Keeps: what is found is the plan's, and a page is changed as the definitions change
//! their client. Only a call that can return `AllocError` takes memory. Knows nothing of answers, or of what
//! a client is between two plans.
#![tactic(auto)]

mod births;
mod changing;
mod finding;

pub use changing::{Change, Update, change_page};
pub use finding::{Found, find};
