//! The edits of the input of `serve`, where they are asked for, and what is told where it has none.
//!
//! [`script_of`] reads them, and [`tell_stop`] writes the line of what stopped that. Stands on `play_script` for
//! the text of edits, on `text_commands` for why an input stops a command, and on `command_ends` for statuses and
//! limits. Keeps: the edits are the definition's of the bytes that were read, and an edit has no more bytes than
//! a message may have; a stop is one that the input shows. A call takes memory only where its result can say that
//! memory ran out. Knows nothing of folders, of servers, or of who makes the edits.
#![tactic(auto)]

mod script;
mod stopping;

pub use script::script_of;
pub use stopping::tell_stop;
