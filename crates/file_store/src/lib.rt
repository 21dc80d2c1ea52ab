//! The files of a server by name and version: what is served now, and what the plans of pages name.
//!
//! A page whose plan is told is sent the versions of that plan, whatever was saved since. So versions stay
//! until they take more memory than they may; then those go that aren't served and that no plan names, and
//! then the oldest plans.
//!
//! Stands on `hmr_types`, `instance_urls` and `told_plans`. Keeps: what is got is what was put under that name
//! and version; what is served and what a plan names isn't let go while there is room. Only a call that can
//! return `AllocError` takes memory. Knows nothing of what a file has, of requests and of threads.
#![tactic(auto)]

mod letting_go;
mod store;

pub use letting_go::MOST_BYTES;
pub use store::{FileStore, Stored};
