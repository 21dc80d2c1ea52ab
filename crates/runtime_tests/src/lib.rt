//! Tests of the client runtime that no server of the product can show: wrong answers, and events of a page.
//!
//! A test plays transcripts: of what a server answers the client's part comes anew, and the whole must be the
//! transcript again. Stands on the runtime and what it stands on, and no crate stands on it. Keeps: a
//! transcript says what is expected in words from outside, never by a call of what it tests. Has no code but
//! tests, and knows nothing of what is private in a crate. Loads, updates and invalidations are tested over
//! the program.
#![tactic(auto)]

#[cfg(test)]
mod answers_tests;
#[cfg(test)]
mod transcript;
