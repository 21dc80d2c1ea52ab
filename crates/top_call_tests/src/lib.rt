//! The tests of the top call, over inputs, outputs, folders and nets in memory, and threads of this process.
//!
//! Stands on `top_call` and what it stands on, and no crate stands on it, so that the top call is proved
//! once, without tests. Keeps: what is expected is written by hand from the pages on scripts and commands.
//! Has no code but tests, and knows nothing of what is private in a crate.
#![tactic(auto)]

#[cfg(test)]
mod failing_tests;
#[cfg(test)]
mod outcomes;
#[cfg(test)]
mod tests;
#[cfg(test)]
mod worked;
