//! What a script makes of a page, and what the program writes of it, as definitions and as what is done of it
//! without a world.
//!
//! The definitions say what the commands of a script make one after another, which of their lines are shown,
//! what `play`, `make` and `record` write of that, and what holds at each `show`. In code there are the
//! command of a script's line, the stop at which a world's run ends a command, the record of a run by the
//! log that it left, and the closures that the program gives to the clients of a script. Stands on the
//! definitions of courses and of their logs, on scripts, on the check of records, and on how commands end.
//! Keeps: each call answers what its definition says. A call takes memory only where its result can say that
//! memory ran out. Knows nothing of a world that is kept, of sources and of sinks.
#![tactic(auto)]

mod command;
mod recording;
mod shelves;
mod stopping;

pub use command::{Command, command_of};
pub use recording::record_log;
pub use shelves::host_shelves;
pub use stopping::stop_of_world;
