//! New instances of a page: each is evaluated, and what it registers is registered.
//!
//! Stands on a page's instances, on the evaluator, on the model of a client, and on the module language. Keeps:
//! the making of instances follows the model's of their births, and the lines are those that it tells. Only a
//! call that can return `AllocError` takes memory. Knows nothing of plans, or of how an instance ends.
#![tactic(auto)]

mod all_births;
mod birth;
mod imports;
mod make;
mod register;

pub use all_births::make_all;
pub use birth::Birth;
