// The messages of a server and of a client that the tests are told and expect.
use std::alloc::{AllocError, Global};
use std::collections::VecDeque;

pub const CONNECTED: &str = "{\"client\":1,\"roots\":[\"/m.js\"],\"type\":\"connected\"}";

pub const TEXT: &str =
    "{\"path\":\"/m.js\",\"text\":\"export let n = 1;\\n\",\"type\":\"text\",\"version\":1}";

pub const BAD_TEXT: &str =
    "{\"path\":\"/m.js\",\"text\":\"export let = 1;\\n\",\"type\":\"text\",\"version\":1}";

pub const DONE: &str = "{\"type\":\"done\"}";

pub const IDLE: &str = "{\"type\":\"idle\"}";

pub const UNKNOWN: &str = "{\"type\":\"news\"}";

pub const HELLO: &str = "{\"format\":2,\"type\":\"hello\"}";

pub const FETCH: &str = "{\"path\":\"/m.js\",\"type\":\"fetch\"}";

pub const APPLIED: &str = "{\"table\":[[\"/m.js\",1]],\"type\":\"applied\"}";

pub const ABORTED: &str =
    "{\"cause\":\"broken\",\"from\":null,\"name\":null,\"path\":\"/m.js\",\"type\":\"aborted\"}";

pub const ASK: &str = "{\"type\":\"ask\"}";

pub const BYE: &str = "{\"type\":\"bye\"}";

/// The messages that a net is to tell.
pub fn coming(alloc: Global, messages: &[&str]) -> Result<VecDeque<Vec<u8>>, AllocError> {
    let mut coming = VecDeque::new(alloc);
    for message in messages {
        let bytes = Vec::from_slice(alloc, message.as_bytes())?;
        if coming.push_back(bytes).is_err() {
            return Err(AllocError);
        }
    }
    Ok(coming)
}

/// Whether the messages that were sent are these.
pub fn are_sent(sent: &[Vec<u8>], expected: &[&str]) -> bool {
    if sent.len() != expected.len() {
        return false;
    }
    for (message, text) in sent.iter().zip(expected) {
        if message.as_slice() != text.as_bytes() {
            return false;
        }
    }
    true
}
