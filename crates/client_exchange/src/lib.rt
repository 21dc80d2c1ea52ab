//! The exchange of a client with the core: a client's message as an event of the core, and the core's reply
//! as the message that answers it.
//!
//! Stands on `server_core`, on the messages of the vocabulary, and on the definitions of both. Keeps: each
//! call gives what the definitions have for its value, and changes nothing. A call takes memory only where
//! its result can say that memory ran out. Knows nothing of worlds, of hubs and desks, or of the bytes of a
//! message.
#![tactic(auto)]

mod messages;
mod replies;

pub use messages::{event_of, is_bye, is_hello};
pub use replies::{client_after, message_in, refusal_message};
