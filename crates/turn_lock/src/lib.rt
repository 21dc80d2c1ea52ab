//! A lock round a value that keeps a history of what was done with it.
//!
//! Threads call the value in turn, each by a [`Pass`]. All calls stand in one history, and a pass knows a
//! beginning of it: what its caller had seen, with all of its own calls. How the words of the lock and the
//! knowledge of its passes hang together is told in docs/TURN_LOCK.md. Stands on the toolchain's
//! `atomic_table`. Keeps: there is one history; whatever the order in which threads come, each call is
//! answered in the state that the history before it makes. Only [`TurnLock::new`] takes memory;
//! [`TurnLock::call`] takes what the value's own reply takes. Knows nothing of what is kept, and nothing
//! of when a thread gets the turn.
#![tactic(auto)]

mod keeps;
mod lock;
mod pass;
mod plays;
mod view;

pub use keeps::Keeps;
pub use pass::{Pass, SplitFault, TurnLock};
