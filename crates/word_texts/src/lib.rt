//! The spelling of each word that stands in a line of output or in a message.
//!
//! Stands on the vocabulary (`hmr_types`, `output_lines`). Keeps: each call gives the definition's text. No
//! call takes memory. Knows nothing of lines, of messages or of JSON.
#![tactic(auto)]

mod spelling;

pub use spelling::{
    cause_str, end_str, ending_str, fault_str, kind_str, place_str, plan_str, refusal_str,
    state_str, status_str,
};
