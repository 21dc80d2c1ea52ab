//! The check of records: whether what a record says of a server's core is what the core does, line by line;
//! and the record of events that a core was told.
//!
//! Stands on `server_core`, which is told the events again, on `import_scan`, which transforms the texts of
//! results, and on `record_text`, which reads and writes lines. Keeps: no reply of a record and no client
//! that it says to be at rest is believed; [`audit`] is the definition `verdict_of`, which says yes exactly
//! of the texts of sound records, and [`write_record`] writes the one sound record of its events that says of
//! a client that it is at rest wherever that is so behind a Done. A call takes memory only where its result
//! can say that memory ran out. Knows nothing of commands, of files or of how a record came to be.
#![tactic(auto)]

mod auditing;
mod core_event;
mod course;
mod entry;
mod halt;
mod opening;
mod recording;
mod replay;
mod telling;
mod weighing;

pub use auditing::audit;
pub use record_laws::{Verdict, Why};
pub use recording::write_record;
