//! The texts that a plan under way fetches: a text is read, and the plan goes on.
//!
//! Stands on what a page keeps of a plan under way, on the parser and the analysis of texts, and on the
//! definitions of a client for the module language. Keeps: a plan goes on with what its text means, or has the
//! cause for which it can't be carried out. Only a call that can return `AllocError` takes memory. Knows
//! nothing of pages, of instances, or of answers.
#![tactic(auto)]

mod fetching;
mod reading;

pub use fetching::fetched;
