//! A session of a client with its server: hello, so many requests of a client runtime, and bye.
//!
//! Stands on the client runtime (`hot_runtime`), on messages as JSON (`message_json`), on links (`transport`)
//! and on the endings of sessions (`sessions`). Keeps: each request is that of the runtime after the answers
//! before it, each answer is taken before the next request is sent, and the link is shut at every way out.
//! [`turn`] and [`bye`] are its parts, for who wants the lines of an answer before the next request. Knows
//! nothing of servers, of threads or of what carries a link.
#![tactic(auto)]

mod exchange;
mod session;

pub use session::{bye, client_session, turn};
pub use sessions::Ended;
