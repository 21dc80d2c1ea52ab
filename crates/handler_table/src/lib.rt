//! Once-only handlers.
//!
//! It stands on the vocabulary, on the meaning of module texts and on bags. Keeps: a handler is a value
//! that must be used up, and each way out of a table is named by its call: it is handed out, displaced or
//! discarded; and a closure is called at most once. A call takes memory only where its result can say that
//! memory ran out. Knows nothing of the evaluator, of instances, of clients or of when a handler is run.
#![tactic(auto)]

mod dep;
mod handler;
mod handlers;
mod held;
mod host;
mod laws;
mod shelf;

pub use dep::Dep;
pub use handler::Handler;
pub use handlers::Handlers;
pub use held::Held;
pub use host::host_run;
pub use laws::{shelves_keep_their_word, tables_keep_their_word};
pub use shelf::Shelf;
