//! The versions of the modules of a page: which of them aren't the served ones, how these are marked in
//! what a client has in store, and all of them as rows of a table.
//!
//! Stands on the modules of a page, on the sources and on what a client has in store. Keeps: a module is
//! marked exactly where its version on the page isn't the served one, once all names of the page that was
//! and of the page that is are known and marked anew; where memory runs out no mark has changed. Only a
//! call that can return `AllocError` takes memory. Knows nothing of records of clients, of plans or of
//! messages.
#![tactic(auto)]

mod marks;
mod versions;

pub use marks::{differs, enter_all, is_on, renew_all, set_mark};
pub use versions::versions_of;
