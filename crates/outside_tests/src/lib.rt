//! Users of links, nets and folders that know nothing but the traits, and the tests of the adapters through
//! them: of what no clause says and no run of the program shows.
//!
//! Each file is an area: the two sides of a connection, what a folder shows, and when an `open` of it waits.
//! Stands on `transport` and `folders`, and no crate stands on it. Keeps: what is expected is written by
//! hand, and is the same whatever the schedule. Knows nothing of what is private in the crates below.
#![tactic(auto)]

#[cfg(test)]
mod ends;
#[cfg(test)]
mod folder_tests;
#[cfg(test)]
mod link_tests;
#[cfg(test)]
mod listing;
#[cfg(test)]
mod wait_tests;

#[cfg(test)]
pub use ends::{ask, receive, send_all, serve};
#[cfg(test)]
pub use listing::{fails, file_named, is_gone, show};
