//! The command `check`, and what all commands on an input end with.
//!
//! `check` reads a module text and writes what there is to tell of it. Beside it stand the definitions of what there is to write of a command and of how it
//! ends, with the stop that says why one stopped before its end; the line and the status of an end; the stop
//! for an input that is no script; the sinks of output lines, which write them, keep them or drop them; and
//! the text of a record that is written, or isn't. Stands on the words, on `hot_parser` and `import_scan` for
//! module texts, on `record_laws` for verdicts, and on what scripts and lines are as text; of the model
//! of the world it takes which lines tell that all went well. Keeps: what is written is a prefix of the
//! definition's text of the bytes read, and the whole of it at status 0. A call takes memory only where its
//! result can say that memory ran out. Knows nothing of worlds that are kept, nor of how a script is played.
#![tactic(auto)]

mod checking;
mod ending;
mod line_sink;
mod recorded;
mod report;
mod script_fault;
mod showing;
mod stop;
mod text_report;

pub use checking::check;
pub use ending::tell_end;
pub use line_sink::{DroppedLines, KeptLines, LineSink};
pub use recorded::write_recorded;
pub use script_fault::stop_of_fault;
pub use stop::Stop;
