//! The messages between a server and a client, which of them can be written in a format, and the desk
//! that answers them.
//!
//! Stands on `hmr_types`. Keeps: a message has one variant, whatever the format it is written in; what a
//! [`Desk`] tells of its past is told by each of its answers. Knows nothing of bytes on a wire, of
//! sources or of threads.
#![tactic(auto)]

mod desk;
mod message;

pub use desk::{Desk, HubStop};
pub use message::{AbortCause, ClientMsg, JsUpdate, ServerMsg};
