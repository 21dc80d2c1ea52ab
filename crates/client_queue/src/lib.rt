//! What the server has in store for a client: the modules that changed since its page took them, those
//! that were invalidated on its page, the faults that it isn't told of yet, and whether it gave a plan
//! up.
//!
//! Stands on the vocabulary and on the definitions of the core. Keeps: each known name has the place in
//! a row at which it stands, the marked ones first; the forced names rise by bytes, and so do the names
//! of the notices, each once; a notice for which room was made isn't refused. Only a call that can
//! return `AllocError` takes memory. Knows nothing of views, of plans or of messages.
#![tactic(auto)]

mod known;
mod name_row;
mod queue;
mod sorted;

pub use queue::ClientQueue;
