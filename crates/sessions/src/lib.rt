//! A session of a server with one client: each message of a link is read, answered by a desk, and the
//! answer sent. What a session of one of the program's own clients leaves is a [`Log`].
//!
//! Stands on the messages and the desk that answers them (`update_msgs`), on their JSON (`message_json`),
//! on links (`transport`) and, for what a client took, on `output_lines`. Keeps: the messages of a session
//! are handed to the desk in their order, each answer is sent before the next message is taken, and the
//! link is shut at every way out. Knows nothing of sources, of hubs, of threads or of what carries a link.
#![tactic(auto)]

mod ended;
mod log;
mod serving;

pub use ended::Ended;
pub use log::Log;
pub use serving::serve_session;
