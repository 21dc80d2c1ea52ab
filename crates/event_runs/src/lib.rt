//! Runs with events: steps of the world, emissions, and clients that hear; what such a run makes, what every
//! run keeps, and the log of the events that the core is told in one.
//!
//! Stands on the steps of `world_parts`, on the laws of runs and on `hot_events`; the log on `event_facts`.
//! Keeps: in every run what came to a client as events is what it has heard, each hearing ran each listener
//! once, and the core is told what `core_event_in` says and nothing else. A call takes memory only where its
//! result can say that memory ran out. Knows nothing of the code of a world, or of the runtime of a client.
#![tactic(auto)]

mod core_events;
mod event_log;
mod event_step;
mod lines;
mod passing;

pub use core_events::each_event_step_tells_its_event;
pub use event_log::EventLog;
pub use event_step::{EventStep, Passage, passage_of};
pub use lines::{behind, full_lines};
pub use passing::pass;
