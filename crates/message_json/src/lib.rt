//! Messages as JSON, both ways: the message that bytes read as, and the text of each message again.
//!
//! Stands on the messages (`update_msgs`), on their text (`message_text`), on the words of faults
//! (`word_texts`) and on the toolchain's `serde_json`, whose `Value` is read. Keeps: what is written of a
//! message reads as it; what is read is in its ranges, and has no more bytes of names and texts than its
//! input. Knows nothing of links, of sources or of pages.
#![tactic(auto)]

mod batch;
mod client;
mod fault;
mod field;
mod list;
mod server;
mod table_text;
mod update;
mod words;

pub use client::decode_client;
pub use fault::MsgFault;
pub use message_text::{encode, encode_client};
pub use server::decode;
