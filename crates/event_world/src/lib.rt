//! The world with events: each event that is emitted waits for the clients that are open, and each client
//! hears what waits for it, one event after another.
//!
//! Stands on `hmr_world`, on `event_runs` and on `hot_events`. Keeps: an [`EventWorld`] stands for a run, the
//! list of its steps so far, as the relation `StandsFor` says; its world stands for the run of the world that
//! those steps make, so what is promised of every run of the world holds of it; what came to a client as
//! events is what it has heard; and its log, where it keeps one, is of the events that the core was told in
//! the run. A call takes memory only where its result can say that memory ran out. Knows nothing of scripts
//! or of the text of lines.
#![tactic(auto)]

mod event_world;

pub use event_world::EventWorld;
pub use hmr_world::World;
