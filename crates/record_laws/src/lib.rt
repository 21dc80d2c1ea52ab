//! What a record says that is true, as definitions over its bytes: which records are sound, and what is said of
//! bytes that are none, line by line; and the record of events that a core was told.
//!
//! Stands on the definitions of the core and on those of the text of records. Nothing here runs: each
//! definition stands in specs/, and a law is the clause of a public function with an empty body. Keeps: a
//! verdict is a function of the bytes alone, and believes no reply and no client that is said to be at rest.
//! Knows nothing of how the check goes over the bytes.
#![tactic(auto)]

mod laws;
mod verdict;

pub use laws::{
    records_of_events_are_sound, replies_can_be_written, sound_records_are_true,
    yes_is_of_sound_records,
};
pub use verdict::{Verdict, Why};
