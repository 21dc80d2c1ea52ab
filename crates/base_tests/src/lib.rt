//! The tests of the crates at the bottom, through their public calls.
//!
//! Each file is an area: names and specifiers, tables, trees, desks, sources and sinks of bytes, classes of
//! bytes. Stands on these crates, and no crate stands on it. Keeps: a test case says what is expected in
//! words from outside, never by a call of what it tests. Has no code but tests, and knows nothing of what
//! is private in a crate.
#![tactic(auto)]

#[cfg(test)]
mod desk_tests;
#[cfg(test)]
mod lane_tests;
#[cfg(test)]
mod name_tests;
#[cfg(test)]
mod stream_tests;
#[cfg(test)]
mod table_tests;
#[cfg(test)]
mod tree_tests;
