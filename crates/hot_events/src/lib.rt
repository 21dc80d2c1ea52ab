//! The events that wait for clients: a list for each client that is open, in which an event waits from its
//! emission until the client hears it.
//!
//! Stands on the vocabulary alone. Keeps: what waits for a client is what came to it since it entered, in
//! order, without what it took; an event comes to each client that is there and has fewer than 1,024
//! waiting, or to none where memory ran out. Only a call that can return `AllocError` takes memory. Knows
//! nothing of pages, of handlers or of sources.
#![tactic(auto)]

mod event;
mod queue;
mod waiting;

pub use event::Event;
pub use queue::WAITING;
pub use waiting::{Waiting, what_is_taken_is_heard};
