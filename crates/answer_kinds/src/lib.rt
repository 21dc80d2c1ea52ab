//! Which messages answer a request: whether one does, whether it is a note alone, and the places of both in the
//! tables of messages.
//!
//! Stands on the messages of the vocabulary, and on the definitions of a client. Keeps: each call is its
//! definition, and takes no memory. Knows nothing of runtimes, of plans, or of what is done at an answer.
#![tactic(auto)]

mod expecting;

pub use expecting::{answer_place, is_answer, is_done, is_note, request_place};
