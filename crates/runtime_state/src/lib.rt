//! What a client runtime keeps, the request that stands, and the table of its modules.
//!
//! Stands on what a page keeps of a plan under way, on a page's instances, on the messages, and on the
//! definitions of a client for the module language. Keeps: a [`HotRuntime`] stands for the list of the messages
//! and events that it took, so that its requests and its tables are those of the definitions. A call takes
//! memory only where its result can say that memory ran out. Knows nothing of answers, or of what happens to
//! instances.
#![tactic(auto)]

mod fault;
mod requesting;
mod runtime;
mod shown;

pub use fault::RuntimeFault;
pub use runtime::HotRuntime;
