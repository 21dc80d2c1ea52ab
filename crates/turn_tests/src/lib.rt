//! Callers of the turn lock, and its tests, through its public calls alone.
//!
//! Each file is an area: a value that adds up, a value that records some entries alone, and threads whose
//! passes meet again. Stands on the lock, and no crate stands on it. Keeps: how many entries a joined pass
//! has seen is said by contracts, and what was answered by the tests. Knows nothing of what is private in
//! the lock.
#![tactic(auto)]

mod evens;
mod meet;
mod tally;
#[cfg(test)]
mod tests;

pub use evens::Evens;
pub use meet::{add, eight_hundred, four_hundred, hundred, two_between, two_hundred, two_more};
pub use tally::{Ask, Tally};
