//! The command `audit`: a record is read from the input, and the verdict on it is written.
//!
//! Stands on `transcript_check` for the verdict, and on `text_commands` for what there is to write and how
//! a command stops. Keeps: what is written is a prefix of the definition's line of the bytes read, and the
//! whole of it where the call returns Ok. A call takes memory only where its result can say that memory ran
//! out. Knows nothing of what a record says.
#![tactic(auto)]

mod auditing;

pub use auditing::audit;
