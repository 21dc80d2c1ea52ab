//! The heads of HTTP that a visitor of a live server sends are answered, one after another.
//!
//! [`answer_heads`] answers as the site of the server says, until the visitor asks for a WebSocket or is to
//! go; it rings where an answer changed something, and tells of a request that named another server.
//!
//! Stands on `doors` for visitors, on `live_site` and `live_answers` for answers, and on `live_context` for
//! the bell and the news. Keeps: a visitor who was fresh stays so, and a count of faults never falls. Where
//! memory runs out the visitor is to go. Knows nothing of hubs, of sessions or of sockets.
#![tactic(auto)]

mod answering;

pub use answering::answer_heads;
