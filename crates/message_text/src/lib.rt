//! Messages as JSON text: what is written of each message, in a format.
//!
//! Stands on the messages (`update_msgs`), on the words of faults (`word_texts`), on the toolchain's
//! `serde_json`, whose `Value` is written of a server's messages, and on its `json`, whose `Writer` puts a
//! client's. Keeps: the text of a message is one function of the message and the format, and reads as the
//! message's JSON value. Knows nothing of how messages are read, of links, of sources or of pages.
#![tactic(auto)]

mod client;
mod members;
mod parts;
mod server;
mod words;

pub use client::encode_client;
pub use server::encode;
