//! A server that stays up: a folder is looked at again and again, what changes in it are edits of one hub,
//! and doors serve whoever comes, pages by HTTP and their sessions over WebSockets, until a key says that it
//! ends, or its hub can take no more.
//!
//! [`serve_live`] is the whole of it. It begins a crew of jobs: workers transform texts, and doors serve their
//! visitors. The caller's thread is that of the editor, which makes the edits that the folder brings and gives
//! news to the terminal. At the end the jobs are finished, what they hand back is joined, and the record is
//! given.
//!
//! Stands on `live_context` for what it is given, on `live_crew` for the jobs, on `live_editor` for the edits,
//! on `serve_reports` for passes that are joined, and on `transcript_check` for the record. Keeps: each pass
//! that is joined at the end is one of the hub, and what it has then seen is one legal transcript with each
//! edit and the calls of each session; the entrance is shut at the end. Only [`serve_live`], and a job at its
//! work, take memory. Knows nothing of sockets, of how news are written, nor of the command line.
#![tactic(auto)]

mod ending;
mod recording;
mod top;

pub use top::serve_live;
