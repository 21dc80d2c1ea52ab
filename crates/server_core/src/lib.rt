//! The server core: the sources of modules, what is served of them, and the connected clients.
//!
//! Stands on the version map, on the records of clients, on `events_and_replies` for what a core is told
//! and answers, on `fresh_loads` for what a page would load anew, and on the definitions of the core. Keeps:
//! a [`Core`] has what its events so far give, by the definitions; an event of one client leaves the records
//! of the others; [`fresh`] and [`fresh_of`] tell the load of the core's own page and of a client's, and
//! change nothing; where memory runs out nothing changes. Only a call that can return `AllocError` takes
//! memory. Knows nothing of messages on a wire, of threads or of time.
#![tactic(auto)]

mod change;
mod clients;
mod connect;
mod loads;
mod new_fault;
mod page_core;
mod reads;
mod requests;

pub use loads::{fresh, fresh_of};
pub use new_fault::NewFault;
pub use page_core::Core;
