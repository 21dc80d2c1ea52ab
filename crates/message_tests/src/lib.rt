//! The tests of messages as JSON, both ways, through the public calls alone.
//!
//! Each file is a side: what clients say, what servers tell in each format. Stands on the crates that it
//! tests, and no crate stands on it, so that those are proved once, without tests. Keeps: a test case says
//! what is expected in words from outside, never by a call of what it tests. Has no code but tests, and
//! knows nothing of what is private in a crate.
#![tactic(auto)]

#[cfg(test)]
mod client_tests;
#[cfg(test)]
mod server_tests;
#[cfg(test)]
mod told;
