//! What the core of a server is told, and what it answers, as values.
//!
//! An [`Event`] and a [`Reply`] are what the definitions of the core say of them. Stands on `version_map`
//! for what an edit and a result bring, on `transforms` for results and on `update_msgs` for messages.
//! Keeps: a copy of an event is the same event. Only a copy takes memory. Knows nothing of the core itself,
//! of who tells it events, and of what is kept of them.
#![tactic(auto)]

mod event;

pub use event::{Event, Reply, copy_text};
