//! The parts of a world that hold no client: its steps, and why a run of it ends; the jobs whose results
//! haven't come; each call of the core, and what its replies say as lines; the closures of clients to come;
//! and messages as they come to the other side, by way of the bytes of their JSON.
//!
//! Stands on `server_core`, on `message_text` and `message_json`, and on the definitions of the world. Keeps:
//! each call gives what the definitions have for its value. A call takes memory only where its result can say
//! that memory ran out. Knows nothing of the runtime of a client, of runs, or of the text of lines.
#![tactic(auto)]

mod core_calls;
mod edits;
mod events;
mod greetings;
mod jobs;
mod lines;
mod replies;
mod settles;
mod shelves;
mod step;
mod stop;
mod typed;
mod wire;

pub use core_calls::tell;
pub use edits::issue;
pub use events::{edit_to, hello_of, result_for};
pub use greetings::{Greeting, said_to_newcomer};
pub use jobs::Jobs;
pub use lines::{add_stale, one_line, state_of, unknown};
pub use replies::{edit_line, remove_line};
pub use settles::{settle_line, settled};
pub use shelves::{discard, take_shelf};
pub use step::Step;
pub use stop::WorldStop;
pub use wire::{sent_by_client, sent_by_server};
