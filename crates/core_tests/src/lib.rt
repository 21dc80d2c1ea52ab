//! Tests of the core that the program can't show: limits of edits that no script comes to.
//!
//! Stands on `version_map`, and no crate stands on it. Keeps: what is expected is said in words from
//! outside, never by a call of what it tests. What the core replies to events is tested over the program.
#![tactic(auto)]

#[cfg(test)]
mod limits_tests;
