//! What a page keeps of a plan that is under way: how it begins, what it needs next, how it ends, and what
//! the page's modules become where it is applied.
//!
//! Stands on a page's plans, on the requests of a client, and on the definitions of a client for the module
//! language. Keeps: an [`UnderWay`] has of its plan what the definitions have, so that what it asks or tells
//! next is theirs. Only a call that can return `AllocError` takes memory. Knows nothing of how a text is read,
//! of the instances of a page, of answers, or of what a client is between two plans.
#![tactic(auto)]

mod beginning;
mod cause;
mod fetching;
mod linking;
mod page_modules;
mod planning;
mod putting;
mod renewing;
mod table;
mod telling;
mod under_way;

pub use beginning::{begun, update_begun};
pub use cause::Cause;
pub use fetching::Parsed;
pub use putting::put;
pub use table::table_of;
pub use telling::{batch_lines, in_order, one_line, tell_accepts};
pub use under_way::{Modules, Next, Ready, UnderWay, Walk};
