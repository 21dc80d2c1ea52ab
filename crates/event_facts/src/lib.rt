//! What is said of an event for a transcript or a record: how much of the room of a transcript it takes,
//! and what its types keep of it.
//!
//! Stands on `events_and_replies`, whose events these are. Keeps: what is left of a room is exact, and none
//! is left exactly where there is too little; what is noted of an event holds of every event that the code
//! can have. No call takes memory. Knows nothing of who keeps transcripts, and of how a record is written.
#![tactic(auto)]

mod noting;
mod sizes;

pub use noting::{note_event, note_names, note_result};
pub use sizes::{
    MOST_BYTES, after_entry, after_name, after_names, after_rows, after_text, left_after,
};
