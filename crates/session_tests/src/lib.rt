//! The tests of a server's session and of a client's session, through their public calls.
//!
//! Each file is an area: what a server sends for what it is told, connections that are cut, and what a client
//! sends for what it is told. Stands on these, on links and what they stand on, and no crate stands on it.
//! Keeps: what is expected is written by hand, never by a call of what it tests. Has no code but tests, and
//! knows nothing of what is private in a crate.
#![tactic(auto)]

#[cfg(test)]
mod client_tests;
#[cfg(test)]
mod cut_tests;
#[cfg(test)]
mod ends;
#[cfg(test)]
mod messages;
#[cfg(test)]
mod page_desk;
#[cfg(test)]
mod told_tests;
