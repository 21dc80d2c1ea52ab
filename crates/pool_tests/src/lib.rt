//! Queues of jobs and the worker's loop over them, through public calls alone: that a worker gets on, and what
//! a full queue does.
//!
//! Stands on `transform_pool`, and no crate stands on it. Keeps: a board's pass is of its queue, whatever
//! becomes of its worker. Has no code but tests, and knows nothing of what is private in the crates below.
#![tactic(auto)]

#[cfg(test)]
mod queue_board;
#[cfg(test)]
mod tests;
