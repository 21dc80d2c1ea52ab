//! The tests of the crates under the commands and of output lines, through their public calls.
//!
//! Each file is an area: what the words of a command hold, and output lines that no run shows. What the
//! program shows of words, texts and edits is tested by the test cases of `tests/`. Stands on these crates,
//! and no crate stands on it. Keeps: a test case says what is expected in words from outside, never by a
//! call of what it tests. Has no code but tests, and knows nothing of what is private in a crate.
#![tactic(auto)]

#[cfg(test)]
mod rendering_tests;
#[cfg(test)]
mod words_tests;
