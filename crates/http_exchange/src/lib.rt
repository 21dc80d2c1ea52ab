//! Requests answered one after another: heads from a source, answers to a sink.
//!
//! A [`Site`] tells which text is served under a name. [`serve`] reads a head, writes the answer to it, and
//! only then reads on, up to the end of the input or an answer that closes.
//!
//! Stands on `http_heads`, which says where a head ends and what it asks, on sources and sinks (`hmr_base`)
//! and on `itoa`. Keeps: what is written is the answers to the heads of the input, in turn, each whole
//! before the next head is read. Knows nothing of modules, of folders or of what carries the bytes.
#![tactic(auto)]

mod exchange;
mod laws;
mod next;
mod reading;
mod reply;
mod site;
mod stop;

pub use exchange::{HttpEnd, TURNS, serve};
pub use laws::answers_are_unique;
pub use reply::{Reply, Status};
pub use site::{Site, reply_to};
