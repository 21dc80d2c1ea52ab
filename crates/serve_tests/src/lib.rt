//! The test of a server of a folder that no run of the program shows, over a folder and a net in memory and
//! threads of this process: two results that come in the other order than their edits.
//!
//! A gate, which an embedding program gives, turns the two results round. Stands on `folder_server` and what
//! it stands on, and no crate stands on it. Keeps: what is expected is written by hand, and holds whatever
//! the schedule. Has no code but tests, and knows nothing of what is private in a crate.
#![tactic(auto)]

#[cfg(test)]
mod gate_tests;
#[cfg(test)]
mod serving;
#[cfg(test)]
mod turning_gate;
